ghost use Rattle.std.specs.Prelude.{◌≡◌, ◌↔◌, ◌<◌, ◌++◌, ℕ, List, length, Ok, IfOk, IsErr, OnOk, OnErr};
ghost use Rattle.rg_column.specs.Widths.{least_width, width_said, width_byte, limit, difference_bytes};

use rg_bytes::{ByteReader, Memory, Short, put_bytes, put_u8, put_u32, put_u64};

/// How many bytes each number of a column takes: 1, 2, 4 or 8.
#[derive(Clone, Copy, Debug, PartialEq, Eq)]
pub enum Width {
    One,
    Two,
    Four,
    Eight,
}

impl Width {
    /// The least width that holds this number.
    pub fn least(number: u64) -> Width
        ensures { result ≡ least_width number }
    {
        match number {
            0..=0xff => Width::One,
            0x100..=0xffff => Width::Two,
            0x1_0000..=0xffff_ffff => Width::Four,
            _ => Width::Eight,
        }
    }

    /// The width of so many bytes, if there is one.
    pub fn from_byte(byte: u8) -> Option<Width>
        ensures { result ≡ width_said byte }
    {
        match byte {
            1 => Some(Width::One),
            2 => Some(Width::Two),
            4 => Some(Width::Four),
            8 => Some(Width::Eight),
            _ => None,
        }
    }

    /// How many bytes it is.
    pub fn byte(self) -> u8
        ensures { result ≡ width_byte self }
    {
        match self {
            Width::One => 1,
            Width::Two => 2,
            Width::Four => 4,
            Width::Eight => 8,
        }
    }

    /// Writes a number of this width at the end, the highest byte first.
    pub fn put(self, number: u64, out: &mut Vec<u8>) -> Result<(), Memory>
        requires { number < limit self }
        ensures ok { OnOk result (out.new.items ≡ out.old.items ++ difference_bytes self number) }
        ensures err { OnErr result (out.new.items ≡ out.old.items) }
    {
        match self {
            Width::One => put_u8(out, number as u8),
            Width::Two => put_bytes(out, &(number as u16).to_be_bytes()),
            Width::Four => put_u32(out, number as u32),
            Width::Eight => put_u64(out, number),
        }
    }

    /// Takes a number of this width, as `put` writes it.
    pub fn take(self, from: &mut ByteReader<'_>) -> Result<u64, Short>
        ensures ok { IfOk result (λ number. from.old ≡ difference_bytes self number ++ from.new) }
        ensures fits { IfOk result (λ number. number < limit self) }
        ensures short { IsErr result ↔ (length from.old < width_byte self) }
        ensures err { OnErr result (from.new ≡ from.old) }

        // A number of this width that was put is read back.
        ensures reads_back { (number : ℕ) (rest : List ℕ) → number < limit self → from.old ≡ difference_bytes self number ++ rest → (result ≡ Ok number) × (from.new ≡ rest) }
    {
        match self {
            Width::One => Ok(u64::from(from.u8()?)),
            Width::Two => take_two(from),
            Width::Four => Ok(u64::from(from.u32()?)),
            Width::Eight => from.u64(),
        }
    }
}

/// Takes a number of 2 bytes.
fn take_two(from: &mut ByteReader<'_>) -> Result<u64, Short>
    ensures ok { IfOk result (λ number. from.old ≡ difference_bytes Width.Two number ++ from.new) }
    ensures fits { IfOk result (λ number. number < 65536) }
    ensures short { IsErr result ↔ (length from.old < 2) }
    ensures err { OnErr result (from.new ≡ from.old) }
    ensures reads_back { (number : ℕ) (rest : List ℕ) → number < 65536 → from.old ≡ difference_bytes Width.Two number ++ rest → (result ≡ Ok number) × (from.new ≡ rest) }
{
    match from.bytes(2)? {
        [high, low] => Ok(u64::from(u16::from_be_bytes([*high, *low]))),
        _ => unreachable!(),
    }
}
