use rg_bytes::{Memory, Short};
use rg_event::EventFault;
use std::error::Error;
use std::fmt;

/// The state stands for no list of values that begins with the one to be taken.
#[derive(Clone, Copy, Debug, PartialEq, Eq, Hash)]
pub struct Unfit;

impl fmt::Display for Unfit {
    fn fmt<W: fmt::Write>(&self, f: &mut fmt::Formatter<W>) -> fmt::Result {
        f.write_str("the value is not the first one of the state")
    }
}

impl Error for Unfit {}

/// Why bytes begin with no state.
#[derive(Clone, Copy, Debug, PartialEq, Eq, Hash)]
pub enum StateFault {
    /// They end before a field does, and no field before it is unfit.
    Short,
    /// A field says what no state of the aggregator has, and those before it are fit.
    Unfit,
    /// Memory ran out.
    Memory,
}

impl fmt::Display for StateFault {
    fn fmt<W: fmt::Write>(&self, f: &mut fmt::Formatter<W>) -> fmt::Result {
        match self {
            StateFault::Short => f.write_str("the bytes end within a state"),
            StateFault::Unfit => f.write_str("the bytes are no state"),
            StateFault::Memory => f.write_str("out of memory"),
        }
    }
}

impl Error for StateFault {}

impl From<Memory> for StateFault {
    ghost use Rattle.std.specs.Prelude.{◌≡◌};
    ghost use Rattle.rg_agg.specs.declared.fault.StateFault.TheVariants.{Memory};

    ghost from_gives = { λ _ fault. fault ≡ Memory };

    fn from(_memory: Memory) -> StateFault {
        StateFault::Memory
    }
}

impl From<Short> for StateFault {
    ghost use Rattle.std.specs.Prelude.{◌≡◌};
    ghost use Rattle.rg_agg.specs.declared.fault.StateFault.TheVariants.{Short};

    ghost from_gives = { λ _ fault. fault ≡ Short };

    fn from(_short: Short) -> StateFault {
        StateFault::Short
    }
}

impl From<EventFault> for StateFault {
    ghost use Rattle.std.specs.Prelude.{◌≡◌};
    ghost use Rattle.rg_agg.specs.Held.{part_fault};

    ghost from_gives = { λ event fault. fault ≡ part_fault event };

    fn from(event: EventFault) -> StateFault {
        match event {
            EventFault::Short => StateFault::Short,
            EventFault::BadValue(_) => StateFault::Unfit,
            EventFault::Memory => StateFault::Memory,
        }
    }
}
