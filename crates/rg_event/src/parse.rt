ghost use Rattle.std.specs.Prelude.{◌≡◌, IfOk};
ghost use Rattle.rg_bytes.specs.Numbers.{signed_of};
ghost use Rattle.rg_event.specs.Parsing.{in_range, flag_of, value_of};

use crate::limits::MAX_INT;
use crate::value::{Kind, Value};
use crate::word::Word;
use rg_bytes::{Memory, read_signed, read_whole};
use std::alloc::Global;

/// Reads a text as a value of this kind. It answers `None` where the text is not one.
pub fn parse_value(alloc: Global, kind: Kind, text: &[u8]) -> Result<Option<Value>, Memory>
    // A text is a value of its kind exactly where it says one.
    ensures { IfOk result (λ value. value ≡ value_of kind text.now) }
{
    match kind {
        Kind::Int => Ok(parse_int(text).map(Value::Int)),
        Kind::Id => Ok(read_whole(text).map(Value::Id)),
        Kind::Text => Ok(Word::new(alloc, text)?.map(Value::Text)),
        Kind::Flag => Ok(parse_flag(text).map(Value::Flag)),
    }
}

fn parse_int(text: &[u8]) -> Option<i64>
    ensures { result ≡ in_range (signed_of text.now) }
{
    let number = read_signed(text)?;
    if number.unsigned_abs() <= MAX_INT {
        Some(number)
    } else {
        None
    }
}

fn parse_flag(text: &[u8]) -> Option<bool>
    ensures { result ≡ flag_of text.now }
{
    match text {
        b"true" | b"1" => Some(true),
        b"false" | b"0" => Some(false),
        _ => None,
    }
}
