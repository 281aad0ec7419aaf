ghost use Rattle.std.specs.Prelude.{◌≡◌, ◌≤◌, ◌<◌, ◌^◌, ◌++◌, ◌+◌, length, vec_len, vec_capacity, Some, None, if◌then◌else◌, decimal, OnOk, OnErr};
ghost use Rattle.std.specs.Fmt.{signed_decimal};
ghost use Rattle.std.specs.Int.RustNames.{unsigned_abs};
ghost use Rattle.std.specs.Str.{all_ascii_digits};
ghost use Rattle.rg_bytes.specs.Numbers.{value_of, number_of, whole_of, signed_of};

use crate::memory::Memory;
use crate::put::put_bytes;
use itoa::Buffer;

/// The greatest number of digits whose every number is below 2^64.
const MAX_SAFE_DIGITS: usize = 19;

/// The greatest number that [`read_signed`] reads, without its sign.
const MAX_SIGNED: u64 = i64::MAX as u64;

/// Reads a number below 2^64 of 1 to 20 ASCII digits, with leading zeros or without.
pub fn read_whole(text: &[u8]) -> Option<u64>
    // A text is a number exactly where it is 1 to 20 digits in range.
    ensures { result ≡ whole_of text.now }
{
    read_number(text, u64::MAX)
}

/// Reads a number from -(2^63 - 1) to 2^63 - 1: `+`, `-` or no sign, and 1 to 20 ASCII digits.
pub fn read_signed(text: &[u8]) -> Option<i64>
    // A text is a signed number exactly where a sign or none and then digits in range stand there.
    ensures { result ≡ signed_of text.now }
{
    match text.split_first()? {
        (b'-', digits) => Some(-(read_number(digits, MAX_SIGNED)? as i64)),
        (b'+', digits) => Some(read_number(digits, MAX_SIGNED)? as i64),
        _ => Some(read_number(text, MAX_SIGNED)? as i64),
    }
}

/// Writes the digits of a number at the end.
pub fn write_whole(out: &mut Vec<u8>, v: u64) -> Result<(), Memory>
    // The digits are put behind what stands.
    ensures ok { OnOk result (out.new.items ≡ out.old.items ++ decimal v) }

    // A refused put leaves the text as it was.
    ensures err { OnErr result (out.new.items ≡ out.old.items) }
    ensures full { OnErr result (vec_capacity out.old < vec_len out.old + length (decimal v)) }

    // What was written is read back.
    ensures reads_back { whole_of (decimal v) ≡ Some v }
{
    put_bytes(out, Buffer::new().format(v).as_bytes())
}

/// Writes a number at the end: `-` where it is below 0, and its digits.
pub fn write_signed(out: &mut Vec<u8>, v: i128) -> Result<(), Memory>
    // The sign and the digits are put behind what stands.
    ensures ok { OnOk result (out.new.items ≡ out.old.items ++ signed_decimal v) }

    // A refused put leaves the text as it was.
    ensures err { OnErr result (out.new.items ≡ out.old.items) }
    ensures full { OnErr result (vec_capacity out.old < vec_len out.old + length (signed_decimal v)) }

    // What was written is read back.
    ensures reads_back { unsigned_abs v < 2 ^ 63 → signed_of (signed_decimal v) ≡ Some v }
{
    put_bytes(out, Buffer::new().format(v).as_bytes())
}

/// Reads a number of 1 to 20 digits that is at most `most`.
fn read_number(text: &[u8], most: u64) -> Option<u64>
    ensures { result ≡ number_of most text.now }
{
    let (last, front) = text.split_last()?;
    if front.len() > MAX_SAFE_DIGITS || !last.is_ascii_digit() {
        return None;
    }
    let value = read_digits(front)?
        .checked_mul(10)?
        .checked_add((*last - b'0') as u64)?;
    if value <= most { Some(value) } else { None }
}

/// Reads a number of digits so few that it is below 2^64.
fn read_digits(digits: &[u8]) -> Option<u64>
    requires { length digits.now ≤ MAX_SAFE_DIGITS }
    ensures { result ≡ (if all_ascii_digits digits.now then Some (value_of digits.now) else None) }
{
    let mut value = 0;
    for digit in digits {
        if !digit.is_ascii_digit() {
            return None;
        }
        value = value * 10 + (*digit - b'0') as u64;
    }
    Some(value)
}
