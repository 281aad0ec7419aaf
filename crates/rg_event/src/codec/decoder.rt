ghost use Rattle.std.specs.Prelude.{◌≡◌, ◌⊎◌, ◌≤◌, ◌++◌, ℕ, List, length, Ok, Err, IfOk, OnErr};
ghost use Rattle.std.specs.Int.{w64, to_be_bytes};
ghost use Rattle.rg_event.specs.Codec.{value_bytes, values_bytes, event_bytes, IsValueOf, AreValuesOf, IsEventOf, number_at, number_up_to_at, int_at, id_at, text_at, flag_at, value_at, values_at, event_at, Agrees};
ghost use Rattle.rg_event.specs.declared.event.Event.{Event};

use crate::codec::EventFault;
use crate::event::Event;
use crate::limits::{MAX_INT, MAX_OFFSET, MAX_TIME};
use crate::schema::{Field, Schema};
use crate::value::{Kind, Value, Values};
use crate::word::Word;
use rg_bytes::ByteReader;
use std::alloc::Global;

/// Takes an event of this schema, as `encode` writes it. A refusal leaves the reader as it was.
/// It takes one piece of memory for the list of values, and one for each text past the small ones.
pub fn decode(
    alloc: Global,
    schema: &Schema,
    from: &mut ByteReader<'_>,
) -> Result<Event, EventFault>
    // The event is the one whose bytes stand there; short bytes and the first bad field are told exactly.
    ensures agrees { Agrees (event_at schema.now.fields from.old) result from.new }
    ensures ok { IfOk result (λ event. from.old ≡ event_bytes event ++ from.new) }
    ensures legal { IfOk result (IsEventOf schema.now.fields) }

    // What was encoded is read back, whatever follows.
    ensures reads_back { (event : Event) (rest : List ℕ) → IsEventOf schema.now.fields event → from.old ≡ event_bytes event ++ rest → ((result ≡ Ok event) × (from.new ≡ rest)) ⊎ (result ≡ Err EventFault.Memory) }

    // A refusal leaves the reader as it was.
    ensures err { OnErr result (from.new ≡ from.old) }
{
    // All that is left, so that a refusal can put it back.
    let bytes = from.bytes(from.left())?;
    let mut left = ByteReader::new(bytes);
    match read_event(alloc, schema.fields(), &mut left) {
        Ok(event) => {
            *from = left;
            Ok(event)
        }
        Err(fault) => {
            *from = ByteReader::new(bytes);
            Err(fault)
        }
    }
}

fn read_event(
    alloc: Global,
    fields: &[Field],
    from: &mut ByteReader<'_>,
) -> Result<Event, EventFault>
    requires { length fields.now ≤ 32 }
    ensures agrees { Agrees (event_at fields.now from.old) result from.new }
    ensures ok { IfOk result (λ event. from.old ≡ event_bytes event ++ from.new) }
    ensures legal { IfOk result (IsEventOf fields.now) }
{
    Ok(Event {
        offset: read_number(MAX_OFFSET, from)?,
        time: read_number(MAX_TIME, from)?,
        values: read_values(alloc, fields, from)?,
    })
}

fn read_number(most: u64, from: &mut ByteReader<'_>) -> Result<u64, EventFault>
    ensures agrees { Agrees (number_up_to_at most from.old) result from.new }
    ensures ok { IfOk result (λ number. from.old ≡ to_be_bytes w64 number ++ from.new) }
    ensures legal { IfOk result (λ number. number ≤ most) }
{
    let number = from.u64()?;
    if number <= most {
        Ok(number)
    } else {
        Err(EventFault::BadValue(0))
    }
}

fn read_values(
    alloc: Global,
    fields: &[Field],
    from: &mut ByteReader<'_>,
) -> Result<Values, EventFault>
    requires { length fields.now ≤ 32 }
    ensures agrees { Agrees (values_at fields.now 1 from.old) result from.new }
    ensures ok { IfOk result (λ values. from.old ≡ values_bytes values ++ from.new) }
    ensures legal { IfOk result (AreValuesOf fields.now) }
{
    // The list has its room before the first value, and never grows.
    let mut values = Values::with_capacity(alloc, fields.len())?;
    let mut column = 0;
    for field in fields {
        column += 1;
        values.push(read_value(alloc, field.kind, column, from)?)?;
    }
    Ok(values)
}

/// Takes a value of this kind, in the column of this number. A refusal may leave the reader in mid-way.
pub(crate) fn read_value(
    alloc: Global,
    kind: Kind,
    column: u32,
    from: &mut ByteReader<'_>,
) -> Result<Value, EventFault>
    ensures agrees { Agrees (value_at kind column from.old) result from.new }
    ensures ok { IfOk result (λ value. from.old ≡ value_bytes value ++ from.new) }
    ensures legal { IfOk result (IsValueOf kind) }
{
    match kind {
        Kind::Int => read_int(column, from),
        Kind::Id => read_id(from),
        Kind::Text => read_text(alloc, column, from),
        Kind::Flag => read_flag(column, from),
    }
}

fn read_int(column: u32, from: &mut ByteReader<'_>) -> Result<Value, EventFault>
    ensures agrees { Agrees (int_at column from.old) result from.new }
    ensures ok { IfOk result (λ value. from.old ≡ value_bytes value ++ from.new) }
    ensures legal { IfOk result (IsValueOf Kind.Int) }
{
    let number = from.i64()?;
    if number.unsigned_abs() <= MAX_INT {
        Ok(Value::Int(number))
    } else {
        Err(EventFault::BadValue(column))
    }
}

fn read_id(from: &mut ByteReader<'_>) -> Result<Value, EventFault>
    ensures agrees { Agrees (id_at from.old) result from.new }
    ensures ok { IfOk result (λ value. from.old ≡ value_bytes value ++ from.new) }
    ensures legal { IfOk result (IsValueOf Kind.Id) }
{
    Ok(Value::Id(from.u64()?))
}

fn read_text(alloc: Global, column: u32, from: &mut ByteReader<'_>) -> Result<Value, EventFault>
    ensures agrees { Agrees (text_at column from.old) result from.new }
    ensures ok { IfOk result (λ value. from.old ≡ value_bytes value ++ from.new) }
    ensures legal { IfOk result (IsValueOf Kind.Text) }
{
    let count = from.u8()?;
    let text = from.bytes(usize::from(count))?;
    match Word::new(alloc, text)? {
        Some(word) => Ok(Value::Text(word)),
        None => Err(EventFault::BadValue(column)),
    }
}

fn read_flag(column: u32, from: &mut ByteReader<'_>) -> Result<Value, EventFault>
    ensures agrees { Agrees (flag_at column from.old) result from.new }
    ensures ok { IfOk result (λ value. from.old ≡ value_bytes value ++ from.new) }
    ensures legal { IfOk result (IsValueOf Kind.Flag) }
{
    match from.u8()? {
        0 => Ok(Value::Flag(false)),
        1 => Ok(Value::Flag(true)),
        _ => Err(EventFault::BadValue(column)),
    }
}
