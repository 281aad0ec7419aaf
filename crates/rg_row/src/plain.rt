ghost use Rattle.std.specs.Prelude.{◌≡◌, Some, IfSome, OnSome};
ghost use Rattle.rg_bytes.specs.Numbers.{signed_of};
ghost use Rattle.rg_event.specs.Parsing.{in_range, value_of};
ghost use Rattle.rg_row.specs.Plain.{IsNext, plain_event, plain_values, push_if};

use crate::ends::plain_len;
use crate::time::read_time;
use rg_bytes::{read_signed, read_whole};
use rg_event::{Event, Field, Kind, MAX_INT, Value, Values, Word, parse_value};
use std::alloc::Global;

/// The event of a line without a quote and without a fault, which is read in one pass. It may give up on any line.
pub fn read_plain(alloc: Global, fields: &[Field], offset: u64, line: &[u8]) -> Option<Event>
    ensures { IfSome result (λ event. plain_event fields.now offset line.now ≡ Some event) }
{
    let (time, rest) = line.split_at(plain_len(line));
    let time = read_time(time)?;
    let values = read_plain_values(alloc, fields, rest)?;
    Some(Event {
        offset,
        time,
        values,
    })
}

// The values of the texts that stand each behind a comma, one for each column.
fn read_plain_values(alloc: Global, fields: &[Field], rest: &[u8]) -> Option<Values>
    ensures { IfSome result (λ values. plain_values fields.now rest.now ≡ Some values) }
{
    let mut values = Values::with_capacity(alloc, fields.len()).ok()?;
    let mut rest = rest;
    for field in fields {
        let (text, behind) = next_text(rest)?;
        push_value(alloc, &mut values, field.kind, text)?;
        rest = behind;
    }
    if rest.is_empty() { Some(values) } else { None }
}

// The text behind the comma that comes first, and what stands behind the text.
#[inline(always)]
fn next_text(rest: &[u8]) -> Option<(&[u8], &[u8])>
    ensures { IfSome result (λ parts. IsNext rest.now parts.0.now parts.1.now) }
{
    match rest {
        [b',', bytes @ ..] => Some(bytes.split_at(plain_len(bytes))),
        _ => None,
    }
}

// Adds the value of this kind that a text says, as `parse_value` reads it, and makes it where it is to lie.
#[inline(always)]
fn push_value(alloc: Global, values: &mut Values, kind: Kind, text: &[u8]) -> Option<()>
    ensures { OnSome result (push_if values.old (value_of kind text.now) ≡ Some values.new) }
{
    match kind {
        Kind::Int => values.push(Value::Int(read_int(text)?)).ok(),
        Kind::Id => values.push(Value::Id(read_whole(text)?)).ok(),
        Kind::Text => values.push(Value::Text(Word::new(alloc, text).ok()??)).ok(),
        Kind::Flag => values.push(parse_value(alloc, kind, text).ok()??).ok(),
    }
}

#[inline(always)]
fn read_int(text: &[u8]) -> Option<i64>
    ensures { result ≡ in_range (signed_of text.now) }
{
    let number = read_signed(text)?;
    if number.unsigned_abs() <= MAX_INT {
        Some(number)
    } else {
        None
    }
}
