use rg_bytes::{Memory, Short};
use rg_event::EventFault;
use std::error::Error;
use std::fmt;

/// Why a payload gives no growth.
#[derive(Clone, Copy, Debug, PartialEq, Eq, Hash)]
pub enum GrowthFault {
    /// It is no payload of a growth of the schema.
    BadGrowth,
    /// Memory ran out.
    Memory,
}

impl fmt::Display for GrowthFault {
    fn fmt<W: fmt::Write>(&self, f: &mut fmt::Formatter<W>) -> fmt::Result {
        match self {
            GrowthFault::BadGrowth => f.write_str("the bytes are no growth of the schema"),
            GrowthFault::Memory => f.write_str("out of memory"),
        }
    }
}

impl Error for GrowthFault {}

impl From<Memory> for GrowthFault {
    ghost use Rattle.std.specs.Prelude.{◌≡◌};
    ghost use Rattle.rg_growth.specs.declared.fault.GrowthFault.TheVariants.{Memory};

    ghost from_gives = { λ _ fault. fault ≡ Memory };

    fn from(_memory: Memory) -> GrowthFault {
        GrowthFault::Memory
    }
}

impl From<Short> for GrowthFault {
    ghost use Rattle.std.specs.Prelude.{◌≡◌};
    ghost use Rattle.rg_growth.specs.declared.fault.GrowthFault.TheVariants.{BadGrowth};

    ghost from_gives = { λ _ fault. fault ≡ BadGrowth };

    fn from(_short: Short) -> GrowthFault {
        GrowthFault::BadGrowth
    }
}

/// A growth one of whose values is bad is no growth.
impl From<EventFault> for GrowthFault {
    ghost use Rattle.std.specs.Prelude.{◌≡◌};
    ghost use Rattle.rg_growth.specs.Payloads.{growth_fault};

    ghost from_gives = { λ why fault. fault ≡ growth_fault why };

    fn from(fault: EventFault) -> GrowthFault {
        match fault {
            EventFault::Memory => GrowthFault::Memory,
            EventFault::Short | EventFault::BadValue(_) => GrowthFault::BadGrowth,
        }
    }
}
