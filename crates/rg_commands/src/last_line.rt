ghost use Rattle.std.specs.Prelude.{◌≡◌};
ghost use Rattle.rg_commands.specs.Call.{status_after, line_after, refusal_after};
ghost use Rattle.rg_commands.specs.Texts.{PutsLast};

use crate::ending::Ending;
use rg_host::{Host, put_all};
use rg_messages::{Refusal, Status};

/// Why the plan was refused, where it was.
pub(crate) fn refusal_after(done: &Result<(), Ending>) -> Option<Refusal>
    ensures { result ≡ refusal_after done.now }
{
    match done {
        Ok(()) => None,
        Err(ending) => ending.refusal(),
    }
}

/// Puts the last line of a call, if it has one, and answers its status. Its own failure leaves the
/// status.
pub(crate) fn end<H: Host>(host: &mut H, done: &Result<(), Ending>) -> Status
    ensures status { result ≡ status_after done.now }
    ensures put { PutsLast H.Host (line_after done.now) host.old host.new }
{
    let ending = match done {
        Ok(()) => return Status::Ok,
        Err(ending) => ending,
    };
    let line = ending.last_line();
    if line.is_empty() {
        return ending.status();
    }
    let _ = put_all(host, line);
    ending.status()
}
