mod decoder;
mod encoder;

pub use decoder::decode;
pub(crate) use decoder::read_value;
pub use encoder::encode;
pub(crate) use encoder::put_value;
use rg_bytes::{Memory, Short};
use std::error::Error;
use std::fmt;

/// Why bytes begin with no event, or with no tagged value.
#[derive(Clone, Copy, Debug, PartialEq, Eq, Hash)]
pub enum EventFault {
    /// They end before a field does, and no field before it is bad.
    Short,
    /// The first bad field is this one: 0 for the offset, the time or a tagged value, or a column from 1.
    BadValue(u32),
    /// Memory ran out.
    Memory,
}

impl fmt::Display for EventFault {
    fn fmt<W: fmt::Write>(&self, f: &mut fmt::Formatter<W>) -> fmt::Result {
        match self {
            EventFault::Short => f.write_str("the bytes end within an event"),
            EventFault::BadValue(field) => write!(f, "field {field} of an event is bad"),
            EventFault::Memory => f.write_str("out of memory"),
        }
    }
}

impl Error for EventFault {}

impl From<Memory> for EventFault {
    ghost use Rattle.std.specs.Prelude.{◌≡◌};
    ghost use Rattle.rg_event.specs.declared.codec.EventFault.TheVariants.{Memory};

    ghost from_gives = { λ _ fault. fault ≡ Memory };

    fn from(_memory: Memory) -> EventFault {
        EventFault::Memory
    }
}

impl From<Short> for EventFault {
    ghost use Rattle.std.specs.Prelude.{◌≡◌};
    ghost use Rattle.rg_event.specs.declared.codec.EventFault.TheVariants.{Short};

    ghost from_gives = { λ _ fault. fault ≡ Short };

    fn from(_short: Short) -> EventFault {
        EventFault::Short
    }
}
