ghost use Rattle.std.specs.Prelude.{◌≡◌};
ghost use Rattle.rg_commands.specs.Call.{ending_status, ending_line, ending_refusal};

use rg_bytes::Memory;
use rg_messages::{Refusal, Status};

/// How a call ended before its end.
#[derive(Debug, Drop)]
pub enum Ending {
    /// The plan was refused, which this line says, with its LF, and why.
    Refused(Vec<u8>, Refusal),
    /// The store was refused, for the cause that this line says, with its LF.
    Store(Vec<u8>),
    /// The input begins behind the store's next offset, which this line says, with its LF.
    Gap(Vec<u8>),
    /// It failed, or was refused for another cause.
    Failed(Status),
}

impl From<Status> for Ending {
    ghost use Rattle.std.specs.Prelude.{◌≡◌};
    ghost use Rattle.rg_commands.specs.declared.ending.Ending.TheVariants.{Failed};

    ghost from_gives = { λ status ending. ending ≡ Failed status };

    fn from(status: Status) -> Ending {
        Ending::Failed(status)
    }
}

impl From<Memory> for Ending {
    ghost use Rattle.std.specs.Prelude.{◌≡◌};
    ghost use Rattle.rg_commands.specs.declared.ending.Ending.TheVariants.{Failed};
    ghost use Rattle.rg_messages.specs.declared.status.Status.TheVariants.{Memory};

    ghost from_gives = { λ _ ending. ending ≡ Failed Memory };

    fn from(_memory: Memory) -> Ending {
        Ending::Failed(Status::Memory)
    }
}

impl Ending {
    pub fn status(&self) -> Status
        ensures { result ≡ ending_status self.now }
    {
        match self {
            Ending::Refused(_, _) => Status::Plan,
            Ending::Store(_) => Status::Store,
            Ending::Gap(_) => Status::Gap,
            Ending::Failed(status) => *status,
        }
    }

    /// Why the plan was refused, where it was.
    pub fn refusal(&self) -> Option<Refusal>
        ensures { result ≡ ending_refusal self.now }
    {
        match self {
            Ending::Refused(_, refusal) => Some(*refusal),
            Ending::Store(_) | Ending::Gap(_) | Ending::Failed(_) => None,
        }
    }

    /// The last line that is put out, with its LF.
    pub fn last_line(&self) -> &[u8]
        ensures { result.now ≡ ending_line self.now }
    {
        match self {
            Ending::Refused(line, _) | Ending::Store(line) | Ending::Gap(line) => line,
            Ending::Failed(status) => status.last_line().as_bytes(),
        }
    }
}
