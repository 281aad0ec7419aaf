ghost use Rattle.std.specs.Prelude.{◌≡◌};
ghost use Rattle.rg_messages.specs.Statuses.{last_line, number_of};

use rg_bytes::Memory;

/// How a call of the program ended.
#[derive(Clone, Copy, Debug, PartialEq, Eq, Hash)]
pub enum Status {
    /// All was done.
    Ok,
    /// The words are no form of a command.
    Usage,
    /// The plan's bytes are no plan.
    Plan,
    /// The store is damaged, or isn't the plan's.
    Store,
    /// A read of the plan or the input failed.
    Read,
    /// A put of the output failed.
    Write,
    /// A call on the disk failed.
    Disk,
    /// The plan or the input is longer than it may be.
    Limit,
    /// Memory ran out.
    Memory,
    /// The input begins behind what the store has.
    Gap,
    /// A checkpoint isn't what the events give.
    Differs,
}

impl From<Memory> for Status {
    ghost use Rattle.std.specs.Prelude.{◌≡◌};
    ghost use Rattle.rg_messages.specs.declared.status.Status.TheVariants.{Memory};

    ghost from_gives = { λ _ status. status ≡ Memory };

    fn from(_memory: Memory) -> Status {
        Status::Memory
    }
}

impl Status {
    /// The number that the process ends with.
    pub fn number(self) -> u8
        // Each status has its number, which never changes.
        ensures { result ≡ number_of self }
    {
        match self {
            Status::Ok => 0,
            Status::Usage => 2,
            Status::Plan => 3,
            Status::Store => 4,
            Status::Read => 5,
            Status::Write => 6,
            Status::Disk => 7,
            Status::Limit => 8,
            Status::Memory => 9,
            Status::Gap => 10,
            Status::Differs => 11,
        }
    }

    /// The last line that is put out at this status, but for a refused plan or store and a gap, whose
    /// lines say why.
    pub fn last_line(self) -> &'static str
        // Each status has its last line, without LF.
        ensures { result.now ≡ last_line self }
    {
        match self {
            Status::Usage => "refused usage\n",
            Status::Read => "failed read\n",
            Status::Disk => "failed disk\n",
            Status::Limit => "failed limit\n",
            Status::Memory => "failed memory\n",
            Status::Ok
            | Status::Plan
            | Status::Store
            | Status::Write
            | Status::Gap
            | Status::Differs => "",
        }
    }
}
