ghost use Rattle.std.specs.Prelude.{◌≡◌};
ghost use Rattle.rg_verify.specs.Faults.{of_log, of_slot};

use rg_bytes::Memory;
use rg_checkpoint::SlotFault;
use rg_reservoir::ReservoirFault;
use std::error::Error;
use std::fmt;

/// Why the lines on the slots weren't all put.
#[derive(Clone, Copy, Debug, PartialEq, Eq, Hash)]
pub enum VerifyFault {
    /// A call on a file failed, and the host has counted it.
    Disk,
    /// The open frame of the log at that place, in bytes, is the first one that isn't whole, isn't what its
    /// position asks for, or doesn't continue the frames before it.
    Damaged(u64),
    /// Another schema than the plan's is in force at the log's end, and doesn't grow to it by the plan's
    /// defaults. No frame of the log is damaged.
    SchemaDiffers,
    /// Memory ran out.
    Memory,
    /// A put of the output failed, and the host has counted it.
    Write,
}

impl fmt::Display for VerifyFault {
    fn fmt<W: fmt::Write>(&self, f: &mut fmt::Formatter<W>) -> fmt::Result {
        match self {
            VerifyFault::Disk => f.write_str("a call on a file failed"),
            VerifyFault::Damaged(place) => write!(f, "the frame at byte {place} is damaged"),
            VerifyFault::SchemaDiffers => f.write_str("the log has another schema"),
            VerifyFault::Memory => f.write_str("out of memory"),
            VerifyFault::Write => f.write_str("a put of the output failed"),
        }
    }
}

impl Error for VerifyFault {}

impl From<Memory> for VerifyFault {
    ghost use Rattle.std.specs.Prelude.{◌≡◌};
    ghost use Rattle.rg_verify.specs.declared.fault.VerifyFault.TheVariants.{Memory};

    ghost from_gives = { λ _ fault. fault ≡ Memory };

    fn from(_memory: Memory) -> VerifyFault {
        VerifyFault::Memory
    }
}

/// What a fault of reading a log is here: no schema is compared, nothing is appended, and the log hasn't ended.
pub(crate) fn walk_fault(fault: ReservoirFault) -> VerifyFault
    requires differs { fault ≡ ReservoirFault.SchemaDiffers → ⊥ }
    requires full { fault ≡ ReservoirFault.Full → ⊥ }
    requires ended { fault ≡ ReservoirFault.Ended → ⊥ }
    ensures { result ≡ of_log fault }
{
    match fault {
        ReservoirFault::Disk => VerifyFault::Disk,
        ReservoirFault::Damaged(place) => VerifyFault::Damaged(place),
        ReservoirFault::SchemaDiffers => unreachable!(),
        ReservoirFault::Full => unreachable!(),
        ReservoirFault::Memory => VerifyFault::Memory,
        ReservoirFault::Ended => unreachable!(),
    }
}

/// What a fault of reading the slots is here: slots that are just attached haven't ended.
pub(crate) fn slots_fault(fault: SlotFault) -> VerifyFault
    requires ended { fault ≡ SlotFault.Ended → ⊥ }
    ensures { result ≡ of_slot fault }
{
    match fault {
        SlotFault::Disk => VerifyFault::Disk,
        SlotFault::Memory => VerifyFault::Memory,
        SlotFault::Ended => unreachable!(),
    }
}
