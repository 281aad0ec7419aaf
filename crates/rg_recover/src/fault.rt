ghost use Rattle.std.specs.Prelude.{◌≡◌};
ghost use Rattle.rg_recover.specs.Faults.{of_engine, of_reservoir};

use rg_bytes::Memory;
use rg_engine::EngineFault;
use rg_past::PastFault;
use rg_reservoir::ReservoirFault;
use std::error::Error;
use std::fmt;

/// Why a call on a session was refused.
#[derive(Clone, Copy, Debug, PartialEq, Eq, Hash)]
pub enum TaskFault {
    /// A call on a file failed, and the host has counted it.
    Disk,
    /// The open frame of the log at that place, in bytes, is damaged.
    Damaged(u64),
    /// The rows of the node of that number don't stand for the events.
    BadState(u32),
    /// Memory ran out.
    Memory,
    /// An earlier failure ended the session.
    Ended,
    /// A call on the disk of the table failed, and the table has counted it.
    Table,
}

impl fmt::Display for TaskFault {
    fn fmt<W: fmt::Write>(&self, f: &mut fmt::Formatter<W>) -> fmt::Result {
        match self {
            TaskFault::Disk => f.write_str("a call on a file failed"),
            TaskFault::Damaged(place) => write!(f, "the frame at byte {place} is damaged"),
            TaskFault::BadState(node) => write!(
                f,
                "the rows of node {node} don't stand for the events"
            ),
            TaskFault::Memory => f.write_str("out of memory"),
            TaskFault::Ended => f.write_str("an earlier call failed"),
            TaskFault::Table => f.write_str("a call on the disk of the table failed"),
        }
    }
}

impl Error for TaskFault {}

impl From<Memory> for TaskFault {
    ghost use Rattle.std.specs.Prelude.{◌≡◌};
    ghost use Rattle.rg_recover.specs.declared.fault.TaskFault.TheVariants.{Memory};

    ghost from_gives = { λ _ fault. fault ≡ Memory };

    fn from(_memory: Memory) -> TaskFault {
        TaskFault::Memory
    }
}

/// What a fault of the engine is to a session, which looks at its limit before it lets its engine take an
/// event, and at whether it has ended.
pub(crate) fn engine_fault(fault: EngineFault) -> TaskFault
    requires full { fault ≡ EngineFault.Past PastFault.Full → ⊥ }
    requires over { fault ≡ EngineFault.Past PastFault.Ended → ⊥ }
    requires ended { fault ≡ EngineFault.Ended → ⊥ }
    ensures { result ≡ of_engine fault }
{
    match fault {
        EngineFault::Past(PastFault::Disk) => TaskFault::Disk,
        EngineFault::Past(PastFault::Damaged(place)) => TaskFault::Damaged(place),
        EngineFault::Past(PastFault::Full) => unreachable!(),
        EngineFault::Past(PastFault::Memory) => TaskFault::Memory,
        EngineFault::Past(PastFault::Ended) => unreachable!(),
        EngineFault::BadState(node) => TaskFault::BadState(node),
        EngineFault::Memory => TaskFault::Memory,
        EngineFault::Ended => unreachable!(),
        EngineFault::Table => TaskFault::Table,
    }
}

/// What a fault of a commit or a load is to a session: no schema is compared, nothing is appended, and the log
/// hasn't ended.
pub(crate) fn reservoir_fault(fault: ReservoirFault) -> TaskFault
    requires differs { fault ≡ ReservoirFault.SchemaDiffers → ⊥ }
    requires full { fault ≡ ReservoirFault.Full → ⊥ }
    requires ended { fault ≡ ReservoirFault.Ended → ⊥ }
    ensures { result ≡ of_reservoir fault }
{
    match fault {
        ReservoirFault::Disk => TaskFault::Disk,
        ReservoirFault::Damaged(place) => TaskFault::Damaged(place),
        ReservoirFault::SchemaDiffers => unreachable!(),
        ReservoirFault::Full => unreachable!(),
        ReservoirFault::Memory => TaskFault::Memory,
        ReservoirFault::Ended => unreachable!(),
    }
}
