use rg_bytes::Memory;

/// Why a line gives no event.
#[derive(Clone, Copy, Debug, PartialEq, Eq, Hash)]
pub enum RowFault {
    /// It is no row: it is empty, holds a CR, begins with a byte order mark, or a quote is out of place.
    Row,
    /// It has another number of fields than one more than the columns.
    Fields,
    /// The first field is no time: digits of a number of at most 10^15.
    Time,
    /// The first text that isn't of its column's kind is that of this column, from 1.
    Value(u32),
    /// Memory ran out.
    Memory,
}

impl From<Memory> for RowFault {
    ghost use Rattle.std.specs.Prelude.{◌≡◌};
    ghost use Rattle.rg_row.specs.declared.fault.RowFault.TheVariants.{Memory};

    ghost from_gives = { λ _ fault. fault ≡ Memory };

    fn from(_memory: Memory) -> RowFault {
        RowFault::Memory
    }
}
