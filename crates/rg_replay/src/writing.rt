ghost use Rattle.std.specs.Prelude.{◌≡◌, ◌∷◌, ◌++◌, [], ℕ, List, IfErr, OnOk};
ghost use Rattle.rg_host.specs.Lines.{ended};
ghost use Rattle.rg_host.specs.Puts.{Puts};
ghost use Rattle.rg_reply.specs.Texts.{reply_line, mark_line};
ghost use Rattle.rg_reply.specs.declared.mark.Mark.TheVariants.{Finished};
ghost use Rattle.rg_replay.specs.Playing.{LeavesStore, IsPutFault, PutsLines, AddsLines};
ghost use Rattle.rg_replay.specs.Replay.{line_from};

use crate::fault::ReplayFault;
use rg_host::{Host, put_all};
use rg_reply::{Mark, Reply, write_mark, write_reply};

/// From how many gathered bytes on they are put.
const LONG: usize = 65_536;

/// Puts lines that were written. After `Write` a prefix of them was put.
fn put_written<H: Host>(host: &mut H, text: &[u8]) -> Result<(), ReplayFault>
    ensures puts { (lines : List (List ℕ)) → text.now ≡ ended lines → PutsLines lines (Puts H.said H.clock H.since host.old host.new) result }
    ensures leaves { LeavesStore H.now H.may H.clock H.since H.disk_faults H.out_faults host.old host.new }
    ensures write { IfErr result (λ fault. IsPutFault H.out_faults fault host.old host.new) }
{
    match put_all(host, text) {
        Ok(()) => Ok(()),
        Err(_) => Err(ReplayFault::Write),
    }
}

/// Puts the lines that are gathered, and gathers none any more. After `Write` a prefix of them was put.
fn put_gathered<H: Host>(host: &mut H, text: &mut Vec<u8>) -> Result<(), ReplayFault>
    ensures puts { (lines : List (List ℕ)) → text.old.items ≡ ended lines → AddsLines lines (Puts H.said H.clock H.since host.old host.new) text.new.items result }
    ensures leaves { LeavesStore H.now H.may H.clock H.since H.disk_faults H.out_faults host.old host.new }
    ensures write { IfErr result (λ fault. IsPutFault H.out_faults fault host.old host.new) }
{
    match put_written(host, text) {
        Ok(()) => {}
        Err(fault) => return Err(fault),
    }
    text.clear();
    Ok(())
}

/// Gathers the line of the reply to the event with this offset, where that is at least `first`, and puts what
/// is gathered where it is long.
pub(crate) fn put_reply<H: Host>(
    host: &mut H,
    text: &mut Vec<u8>,
    first: u64,
    offset: u64,
    reply: &Reply,
) -> Result<(), ReplayFault>
    ensures puts { (held : List (List ℕ)) → text.old.items ≡ ended held → AddsLines (held ++ line_from first offset reply.now) (Puts H.said H.clock H.since host.old host.new) text.new.items result }
    ensures leaves { LeavesStore H.now H.may H.clock H.since H.disk_faults H.out_faults host.old host.new }
    ensures write { IfErr result (λ fault. IsPutFault H.out_faults fault host.old host.new) }
{
    if offset < first {
        return Ok(());
    }
    match write_reply(text, offset, reply) {
        Ok(()) => {}
        Err(_) => return Err(ReplayFault::Memory),
    }
    if text.len() < LONG {
        return Ok(());
    }
    put_gathered(host, text)
}

/// Puts what is gathered and the last line: the least offset of the next event, and how many events there are.
pub(crate) fn put_end<H: Host>(
    host: &mut H,
    text: &mut Vec<u8>,
    next: u64,
    count: u64,
) -> Result<(), ReplayFault>
    ensures puts { (held : List (List ℕ)) → text.old.items ≡ ended held → PutsLines (held ++ mark_line (Finished next count) ∷ []) (Puts H.said H.clock H.since host.old host.new) result }
    ensures leaves { LeavesStore H.now H.may H.clock H.since H.disk_faults H.out_faults host.old host.new }
    ensures write { IfErr result (λ fault. IsPutFault H.out_faults fault host.old host.new) }
{
    match write_mark(text, Mark::Finished(next, count)) {
        Ok(()) => {}
        Err(_) => return Err(ReplayFault::Memory),
    }
    put_written(host, text)
}
