ghost use Rattle.std.specs.Prelude.{◌≡◌};
ghost use Rattle.rg_info.specs.Faults.{of_walk, of_slot};

use rg_bytes::Memory;
use rg_checkpoint::SlotFault;
use rg_reservoir::ReservoirFault;
use std::error::Error;
use std::fmt;

/// Why the lines on a store weren't all put.
#[derive(Clone, Copy, Debug, PartialEq, Eq, Hash)]
pub enum InfoFault {
    /// A call on a file failed, and the host has counted it.
    Disk,
    /// The open frame of the log at that place, in bytes, isn't whole, isn't what its position asks
    /// for, or doesn't continue the frames before it.
    Damaged(u64),
    /// Memory ran out.
    Memory,
    /// A put of the output failed, and the host has counted it.
    Write,
}

impl fmt::Display for InfoFault {
    fn fmt<W: fmt::Write>(&self, f: &mut fmt::Formatter<W>) -> fmt::Result {
        match self {
            InfoFault::Disk => f.write_str("a call on a file failed"),
            InfoFault::Damaged(place) => write!(f, "the frame at byte {place} is damaged"),
            InfoFault::Memory => f.write_str("out of memory"),
            InfoFault::Write => f.write_str("a put of the output failed"),
        }
    }
}

impl Error for InfoFault {}

impl From<Memory> for InfoFault {
    ghost use Rattle.std.specs.Prelude.{◌≡◌};
    ghost use Rattle.rg_info.specs.declared.fault.InfoFault.TheVariants.{Memory};

    ghost from_gives = { λ _ fault. fault ≡ Memory };

    fn from(_memory: Memory) -> InfoFault {
        InfoFault::Memory
    }
}

/// What a fault of a walk is here: a walk compares no schema, appends nothing, and hasn't ended.
pub(crate) fn walk_fault(fault: ReservoirFault) -> InfoFault
    requires differs { fault ≡ ReservoirFault.SchemaDiffers → ⊥ }
    requires full { fault ≡ ReservoirFault.Full → ⊥ }
    requires ended { fault ≡ ReservoirFault.Ended → ⊥ }
    ensures { result ≡ of_walk fault }
{
    match fault {
        ReservoirFault::Disk => InfoFault::Disk,
        ReservoirFault::Damaged(place) => InfoFault::Damaged(place),
        ReservoirFault::SchemaDiffers => unreachable!(),
        ReservoirFault::Full => unreachable!(),
        ReservoirFault::Memory => InfoFault::Memory,
        ReservoirFault::Ended => unreachable!(),
    }
}

/// What a fault of the slots is here: slots that are being attached haven't ended.
pub(crate) fn slots_fault(fault: SlotFault) -> InfoFault
    requires { fault ≡ SlotFault.Ended → ⊥ }
    ensures { result ≡ of_slot fault }
{
    match fault {
        SlotFault::Disk => InfoFault::Disk,
        SlotFault::Memory => InfoFault::Memory,
        SlotFault::Ended => unreachable!(),
    }
}
