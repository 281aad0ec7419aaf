ghost use Rattle.std.specs.Prelude.{◌≡◌};
ghost use Rattle.rg_replay.specs.Faults.{of_reservoir, of_engine};

use rg_bytes::Memory;
use rg_engine::EngineFault;
use rg_past::PastFault;
use rg_reservoir::ReservoirFault;
use std::error::Error;
use std::fmt;

/// Why a replay ended before its end.
#[derive(Clone, Copy, Debug, PartialEq, Eq, Hash)]
pub enum ReplayFault {
    /// A call on the file failed, and the host has counted it.
    Disk,
    /// The open frame at that place, in bytes, is damaged.
    Damaged(u64),
    /// Another schema than the plan's is in force at the log's end.
    SchemaDiffers,
    /// The rows of the node of that number don't stand for the events, which comes over a damaged log alone.
    BadState(u32),
    /// Memory ran out.
    Memory,
    /// A put of the output failed, and the host has counted it.
    Write,
}

impl fmt::Display for ReplayFault {
    fn fmt<W: fmt::Write>(&self, f: &mut fmt::Formatter<W>) -> fmt::Result {
        match self {
            ReplayFault::Disk => f.write_str("a call on the file failed"),
            ReplayFault::Damaged(place) => write!(f, "the frame at byte {place} is damaged"),
            ReplayFault::SchemaDiffers => f.write_str("the log has another schema"),
            ReplayFault::BadState(node) => write!(
                f,
                "the rows of node {node} don't stand for the events"
            ),
            ReplayFault::Memory => f.write_str("out of memory"),
            ReplayFault::Write => f.write_str("a put of the output failed"),
        }
    }
}

impl Error for ReplayFault {}

impl From<Memory> for ReplayFault {
    ghost use Rattle.std.specs.Prelude.{◌≡◌};
    ghost use Rattle.rg_replay.specs.declared.fault.ReplayFault.TheVariants.{Memory};

    ghost from_gives = { λ _ fault. fault ≡ Memory };

    fn from(_memory: Memory) -> ReplayFault {
        ReplayFault::Memory
    }
}

/// What a fault of a log that is opened to be read is to a replay: nothing is appended, and the log hasn't ended.
pub(crate) fn reservoir_fault(fault: ReservoirFault) -> ReplayFault
    requires full { fault ≡ ReservoirFault.Full → ⊥ }
    requires ended { fault ≡ ReservoirFault.Ended → ⊥ }
    ensures { result ≡ of_reservoir fault }
{
    match fault {
        ReservoirFault::Disk => ReplayFault::Disk,
        ReservoirFault::Damaged(place) => ReplayFault::Damaged(place),
        ReservoirFault::SchemaDiffers => ReplayFault::SchemaDiffers,
        ReservoirFault::Full => unreachable!(),
        ReservoirFault::Memory => ReplayFault::Memory,
        ReservoirFault::Ended => unreachable!(),
    }
}

/// What a fault of the engine is to a replay, whose past is only read: neither has ended, and no call of a table in
/// memory fails.
pub(crate) fn engine_fault(fault: EngineFault) -> ReplayFault
    requires full { fault ≡ EngineFault.Past PastFault.Full → ⊥ }
    requires over { fault ≡ EngineFault.Past PastFault.Ended → ⊥ }
    requires ended { fault ≡ EngineFault.Ended → ⊥ }
    requires table { fault ≡ EngineFault.Table → ⊥ }
    ensures { result ≡ of_engine fault }
{
    match fault {
        EngineFault::Past(PastFault::Disk) => ReplayFault::Disk,
        EngineFault::Past(PastFault::Damaged(place)) => ReplayFault::Damaged(place),
        EngineFault::Past(PastFault::Full) => unreachable!(),
        EngineFault::Past(PastFault::Memory) => ReplayFault::Memory,
        EngineFault::Past(PastFault::Ended) => unreachable!(),
        EngineFault::BadState(node) => ReplayFault::BadState(node),
        EngineFault::Memory => ReplayFault::Memory,
        EngineFault::Ended => unreachable!(),
        EngineFault::Table => unreachable!(),
    }
}
