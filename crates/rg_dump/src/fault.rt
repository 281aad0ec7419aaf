ghost use Rattle.std.specs.Prelude.{◌≡◌};
ghost use Rattle.rg_dump.specs.Faults.{of_walk};

use rg_bytes::Memory;
use rg_reservoir::ReservoirFault;
use std::error::Error;
use std::fmt;

/// Why a dump ended before the end of its log.
#[derive(Clone, Copy, Debug, PartialEq, Eq, Hash)]
pub enum DumpFault {
    /// A call on the file failed, and the host has counted it.
    Disk,
    /// The open frame at that place, in bytes, isn't whole, isn't what its position asks for, or
    /// doesn't continue the frames before it.
    Damaged(u64),
    /// Memory ran out.
    Memory,
    /// A put of the output failed, and the host has counted it.
    Write,
}

impl fmt::Display for DumpFault {
    fn fmt<W: fmt::Write>(&self, f: &mut fmt::Formatter<W>) -> fmt::Result {
        match self {
            DumpFault::Disk => f.write_str("a call on the file failed"),
            DumpFault::Damaged(place) => write!(f, "the frame at byte {place} is damaged"),
            DumpFault::Memory => f.write_str("out of memory"),
            DumpFault::Write => f.write_str("a put of the output failed"),
        }
    }
}

impl Error for DumpFault {}

impl From<Memory> for DumpFault {
    ghost use Rattle.std.specs.Prelude.{◌≡◌};
    ghost use Rattle.rg_dump.specs.declared.fault.DumpFault.TheVariants.{Memory};

    ghost from_gives = { λ _ fault. fault ≡ Memory };

    fn from(_memory: Memory) -> DumpFault {
        DumpFault::Memory
    }
}

/// What a fault of a walk is to a dump: a walk compares no schema, appends nothing, and hasn't ended.
pub(crate) fn walk_fault(fault: ReservoirFault) -> DumpFault
    requires differs { fault ≡ ReservoirFault.SchemaDiffers → ⊥ }
    requires full { fault ≡ ReservoirFault.Full → ⊥ }
    requires ended { fault ≡ ReservoirFault.Ended → ⊥ }
    ensures { result ≡ of_walk fault }
{
    match fault {
        ReservoirFault::Disk => DumpFault::Disk,
        ReservoirFault::Damaged(place) => DumpFault::Damaged(place),
        ReservoirFault::SchemaDiffers => unreachable!(),
        ReservoirFault::Full => unreachable!(),
        ReservoirFault::Memory => DumpFault::Memory,
        ReservoirFault::Ended => unreachable!(),
    }
}
