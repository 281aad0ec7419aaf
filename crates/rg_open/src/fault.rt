ghost use Rattle.std.specs.Prelude.{◌≡◌};
ghost use Rattle.rg_open.specs.Faults.{of_slots, of_reservoir, of_engine};

use rg_bytes::Memory;
use rg_checkpoint::SlotFault;
use rg_engine::EngineFault;
use rg_past::PastFault;
use rg_reservoir::ReservoirFault;
use std::error::Error;
use std::fmt;

/// Why a store couldn't be opened.
#[derive(Clone, Copy, Debug, PartialEq, Eq, Hash)]
pub enum OpenFault {
    /// A call on a file failed, and the host has counted it.
    Disk,
    /// The open frame of the log at that place, in bytes, is damaged.
    Damaged(u64),
    /// Another schema than the plan's is in force at the log's end, and it doesn't grow to the plan's by the plan's
    /// defaults.
    SchemaDiffers,
    /// The rows of the node of that number in the checkpoint that is used don't stand for its events.
    BadState(u32),
    /// Memory ran out.
    Memory,
    /// A call on the disk of the table failed, and the table has counted it.
    Table,
}

impl fmt::Display for OpenFault {
    fn fmt<W: fmt::Write>(&self, f: &mut fmt::Formatter<W>) -> fmt::Result {
        match self {
            OpenFault::Disk => f.write_str("a call on a file failed"),
            OpenFault::Damaged(place) => write!(f, "the frame at byte {place} is damaged"),
            OpenFault::SchemaDiffers => f.write_str("the log has another schema"),
            OpenFault::BadState(node) => write!(
                f,
                "the rows of node {node} don't stand for the events"
            ),
            OpenFault::Memory => f.write_str("out of memory"),
            OpenFault::Table => f.write_str("a call on the disk of the table failed"),
        }
    }
}

impl Error for OpenFault {}

impl From<Memory> for OpenFault {
    ghost use Rattle.std.specs.Prelude.{◌≡◌};
    ghost use Rattle.rg_open.specs.declared.fault.OpenFault.TheVariants.{Memory};

    ghost from_gives = { λ _ fault. fault ≡ Memory };

    fn from(_memory: Memory) -> OpenFault {
        OpenFault::Memory
    }
}

/// What a fault of reading the slots is to an opening: slots that were just attached haven't ended.
pub(crate) fn slots_fault(fault: SlotFault) -> OpenFault
    requires { fault ≡ SlotFault.Ended → ⊥ }
    ensures { result ≡ of_slots fault }
{
    match fault {
        SlotFault::Disk => OpenFault::Disk,
        SlotFault::Memory => OpenFault::Memory,
        SlotFault::Ended => unreachable!(),
    }
}

/// What a fault of attaching a log is to an opening: nothing is appended, and the log hasn't ended.
pub(crate) fn reservoir_fault(fault: ReservoirFault) -> OpenFault
    requires full { fault ≡ ReservoirFault.Full → ⊥ }
    requires ended { fault ≡ ReservoirFault.Ended → ⊥ }
    ensures { result ≡ of_reservoir fault }
{
    match fault {
        ReservoirFault::Disk => OpenFault::Disk,
        ReservoirFault::Damaged(place) => OpenFault::Damaged(place),
        ReservoirFault::SchemaDiffers => OpenFault::SchemaDiffers,
        ReservoirFault::Full => unreachable!(),
        ReservoirFault::Memory => OpenFault::Memory,
        ReservoirFault::Ended => unreachable!(),
    }
}

/// What a fault of resuming an engine is to an opening: nothing is appended, and neither the log nor the engine has ended.
pub(crate) fn engine_fault(fault: EngineFault) -> OpenFault
    requires full { fault ≡ EngineFault.Past PastFault.Full → ⊥ }
    requires over { fault ≡ EngineFault.Past PastFault.Ended → ⊥ }
    requires ended { fault ≡ EngineFault.Ended → ⊥ }
    ensures { result ≡ of_engine fault }
{
    match fault {
        EngineFault::Past(PastFault::Disk) => OpenFault::Disk,
        EngineFault::Past(PastFault::Damaged(place)) => OpenFault::Damaged(place),
        EngineFault::Past(PastFault::Full) => unreachable!(),
        EngineFault::Past(PastFault::Memory) => OpenFault::Memory,
        EngineFault::Past(PastFault::Ended) => unreachable!(),
        EngineFault::BadState(node) => OpenFault::BadState(node),
        EngineFault::Memory => OpenFault::Memory,
        EngineFault::Ended => unreachable!(),
        EngineFault::Table => OpenFault::Table,
    }
}
