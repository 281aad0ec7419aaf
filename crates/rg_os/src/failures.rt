// What std's calls gave is turned into the answer by functions with contracts.
ghost use Rattle.std.specs.Prelude.{◌≡◌, ◌≤◌, Ok, IfOk, IsErr, OnErr};
ghost use Rattle.rg_bytes.specs.Counts.{Rose};

use rg_host::Failed;
use std::io;

/// How many calls failed, up to 2^64 - 1, and why the last of them did.
#[derive(Drop)]
pub struct Failures<'a> {
    pub count: u64,
    pub last: Option<Failure<'a>>,
}

/// Why a call failed, and which file or stream it was a call on.
#[derive(Clone, Copy)]
pub struct Failure<'a> {
    pub name: &'a str,
    pub error: io::Error,
}

impl<'a> Failures<'a> {
    /// No call has failed.
    pub fn none() -> Failures<'a> {
        Failures {
            count: 0,
            last: None,
        }
    }

    /// The answer to a call on what has this name, for which std gave this. An error is a failure, and is noted.
    pub fn answer<T: Drop>(&mut self, name: &'a str, given: io::Result<T>) -> Result<T, Failed>
        ensures value { IfOk given (λ value. result ≡ Ok value) }
        ensures failed { IsErr given → IsErr result }
        ensures noted { OnErr result (Rose self.old.count self.new.count) }
        ensures later { self.old.count ≤ self.new.count }
    {
        match given {
            Ok(value) => Ok(value),
            Err(error) => {
                self.count = self.count.saturating_add(1);
                self.last = Some(Failure { name, error });
                Err(Failed)
            }
        }
    }
}
