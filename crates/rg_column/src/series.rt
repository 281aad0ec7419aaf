ghost use Rattle.std.specs.Prelude.{◌≡◌, ◌<◌, ◌^◌};
ghost use Rattle.rg_column.specs.Numbers.{turned as turned_number, int_place, int_of, value_number, number_of, base_bits, lowest, highest, field_of};

use rg_event::{Event, MAX_INT, MAX_OFFSET, MAX_TIME, Value};

/// Half of the numbers of 64 bits.
const HALF: u64 = 0x8000_0000_0000_0000;

/// A column of numbers: the offsets, the times, or the ints or ids at this index of the values.
#[derive(Clone, Copy, Debug)]
pub enum Series {
    /// The offsets.
    Offset,
    /// The times.
    Time,
    /// The ints at this index of the values.
    Int(u8),
    /// The ids at this index of the values.
    Id(u8),
}

impl Series {
    /// The number of an event in this column.
    pub(crate) fn number(self, event: &Event) -> u64
        ensures { result ≡ number_of self event.now }
    {
        match self {
            Series::Offset => event.offset,
            Series::Time => event.time,
            Series::Int(index) | Series::Id(index) => number_at(event, index),
        }
    }

    /// What the bytes of a base say as a number, and the other way round.
    pub(crate) fn base_bits(self, base: u64) -> u64
        ensures { result ≡ base_bits self base }
    {
        match self {
            Series::Int(_) => turned(base),
            Series::Offset | Series::Time | Series::Id(_) => base,
        }
    }

    /// The least number that the column may have.
    pub(crate) fn lowest(self) -> u64
        ensures { result ≡ lowest self }
    {
        match self {
            Series::Int(_) => HALF - MAX_INT,
            Series::Offset | Series::Time | Series::Id(_) => 0,
        }
    }

    /// The greatest number that the column may have.
    pub(crate) fn highest(self) -> u64
        ensures { result ≡ highest self }
    {
        match self {
            Series::Offset => MAX_OFFSET,
            Series::Time => MAX_TIME,
            Series::Int(_) => HALF + MAX_INT,
            Series::Id(_) => u64::MAX,
        }
    }

    /// What a fault calls the column.
    pub(crate) fn field(self) -> u32
        ensures { result ≡ field_of self }
    {
        match self {
            Series::Offset | Series::Time => 0,
            Series::Int(index) | Series::Id(index) => u32::from(index) + 1,
        }
    }
}

/// The number of the value at that index, and 0 where there is none.
fn number_at(event: &Event, index: u8) -> u64
    ensures { result ≡ number_of (Series.Id index) event.now }
{
    match event.values.as_slice().get(usize::from(index)) {
        Some(Value::Int(number)) => place_of(*number),
        Some(Value::Id(number)) => *number,
        _ => 0,
    }
}

/// The place of an int among all of 64 bits, the least of which has the place 0.
pub(crate) fn place_of(number: i64) -> u64
    ensures { result ≡ int_place number }
{
    turned(number.cast_unsigned())
}

/// The int that has this place.
pub(crate) fn int_at(place: u64) -> i64
    ensures { result ≡ int_of place }
{
    turned(place).cast_signed()
}

/// The number whose highest bit is the other one.
fn turned(number: u64) -> u64
    ensures { result ≡ turned_number number }
{
    if number < HALF {
        number + HALF
    } else {
        number - HALF
    }
}
