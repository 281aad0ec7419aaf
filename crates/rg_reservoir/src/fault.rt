ghost use Rattle.std.specs.Prelude.{◌≡◌};
ghost use Rattle.rg_reservoir.specs.Faults.{to_past};

use rg_bytes::Memory;
use rg_frame::FrameFault;
use rg_past::PastFault;
use std::error::Error;
use std::fmt;

/// Why a call on a reservoir, or a walk over a log, was refused.
#[derive(Clone, Copy, Debug, PartialEq, Eq, Hash)]
pub enum ReservoirFault {
    /// A call on the file failed, and the host has counted it.
    Disk,
    /// The open frame at that place, in bytes, isn't whole, isn't what its position asks for, or
    /// doesn't continue the frames before it.
    Damaged(u64),
    /// Another schema is in force at the log's end; where a growth may be written, one that doesn't
    /// grow to this one by its defaults.
    SchemaDiffers,
    /// There are as many events as there may be.
    Full,
    /// Memory ran out.
    Memory,
    /// A call on the file failed in an earlier commit.
    Ended,
}

impl fmt::Display for ReservoirFault {
    fn fmt<W: fmt::Write>(&self, f: &mut fmt::Formatter<W>) -> fmt::Result {
        match self {
            ReservoirFault::Disk => f.write_str("a call on the file failed"),
            ReservoirFault::Damaged(place) => write!(f, "the frame at byte {place} is damaged"),
            ReservoirFault::SchemaDiffers => f.write_str("the log has another schema"),
            ReservoirFault::Full => f.write_str("the log is full"),
            ReservoirFault::Memory => f.write_str("out of memory"),
            ReservoirFault::Ended => f.write_str("an earlier commit failed"),
        }
    }
}

impl Error for ReservoirFault {}

impl From<Memory> for ReservoirFault {
    ghost use Rattle.std.specs.Prelude.{◌≡◌};
    ghost use Rattle.rg_reservoir.specs.declared.fault.ReservoirFault.TheVariants.{Memory};

    ghost from_gives = { λ _ fault. fault ≡ Memory };

    fn from(_memory: Memory) -> ReservoirFault {
        ReservoirFault::Memory
    }
}

impl From<FrameFault> for ReservoirFault {
    ghost use Rattle.std.specs.Prelude.{◌≡◌};
    ghost use Rattle.rg_reservoir.specs.Faults.{of_frame};

    ghost from_gives = { λ frame fault. fault ≡ of_frame frame };

    fn from(frame: FrameFault) -> ReservoirFault {
        match frame {
            FrameFault::Disk => ReservoirFault::Disk,
            FrameFault::Damaged(place) => ReservoirFault::Damaged(place),
            FrameFault::Memory => ReservoirFault::Memory,
            FrameFault::Ended => ReservoirFault::Ended,
        }
    }
}

/// What a fault of a reservoir that is open is to a past: its schema was compared when it was opened.
pub fn past_fault(fault: ReservoirFault) -> PastFault
    requires { fault ≡ ReservoirFault.SchemaDiffers → ⊥ }
    ensures { result ≡ to_past fault }
{
    match fault {
        ReservoirFault::Disk => PastFault::Disk,
        ReservoirFault::Damaged(place) => PastFault::Damaged(place),
        ReservoirFault::SchemaDiffers => unreachable!(),
        ReservoirFault::Full => PastFault::Full,
        ReservoirFault::Memory => PastFault::Memory,
        ReservoirFault::Ended => PastFault::Ended,
    }
}
