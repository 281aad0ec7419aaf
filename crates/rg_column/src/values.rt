ghost use Rattle.std.specs.Prelude.{◌≡◌, ◌≤◌, ◌++◌, ◌∷◌, All, map, length, IfOk, OnOk, OnErr};
ghost use Rattle.rg_bytes.specs.Keeps.{Keeps};
ghost use Rattle.rg_bytes.specs.Reading.{list_bytes};
ghost use Rattle.rg_event.specs.Codec.{IsValueOf};
ghost use Rattle.rg_column.specs.Widths.{Agrees, AgreesList};
ghost use Rattle.rg_column.specs.Numbers.{value_of};
ghost use Rattle.rg_column.specs.Values.{text_in, text_length, flag_in, flag_byte, column_bytes, int_value, ints_at, ids_at, text_at, texts_at, following_at, flag_at, flags_at, column_at};

use crate::fault::ColumnFault;
use crate::numbers::{put_numbers, take_numbers};
use crate::series::{Series, int_at};
use rg_bytes::{ByteReader, Memory, put_bytes, put_u8};
use rg_event::{Event, Kind, Value, Word};
use std::alloc::Global;

/// Writes the column of the values at this index at the end. An error leaves it begun.
pub(crate) fn put_column(
    kind: Kind,
    index: u8,
    events: &[Event],
    out: &mut Vec<u8>,
) -> Result<(), Memory>
    ensures ok { OnOk result (out.new.items ≡ out.old.items ++ column_bytes kind index (map (value_of index) events.now)) }
    ensures err { OnErr result (Keeps out.old.items out.new.items) }
{
    match kind {
        Kind::Int => put_numbers(Series::Int(index), events, out),
        Kind::Id => put_numbers(Series::Id(index), events, out),
        Kind::Text => {
            put_lengths(index, events, out)?;
            put_texts(index, events, out)
        }
        Kind::Flag => put_flags(index, events, out),
    }
}

/// Writes the length of each event's text at the end. An error leaves some of them.
fn put_lengths(index: u8, events: &[Event], out: &mut Vec<u8>) -> Result<(), Memory>
    ensures ok { OnOk result (out.new.items ≡ out.old.items ++ map text_length (map (value_of index) events.now)) }
    ensures err { OnErr result (Keeps out.old.items out.new.items) }
{
    for event in events {
        put_u8(out, text_of(event, index).len() as u8)?;
    }
    Ok(())
}

/// Writes the text of each event at the end. An error leaves some of them.
fn put_texts(index: u8, events: &[Event], out: &mut Vec<u8>) -> Result<(), Memory>
    ensures ok { OnOk result (out.new.items ≡ out.old.items ++ list_bytes text_in (map (value_of index) events.now)) }
    ensures err { OnErr result (Keeps out.old.items out.new.items) }
{
    for event in events {
        put_bytes(out, text_of(event, index))?;
    }
    Ok(())
}

/// Writes the flag of each event at the end. An error leaves some of them.
fn put_flags(index: u8, events: &[Event], out: &mut Vec<u8>) -> Result<(), Memory>
    ensures ok { OnOk result (out.new.items ≡ out.old.items ++ map flag_byte (map (value_of index) events.now)) }
    ensures err { OnErr result (Keeps out.old.items out.new.items) }
{
    for event in events {
        put_u8(out, u8::from(flag_of(event, index)))?;
    }
    Ok(())
}

/// The text at that index, and none where there is none.
fn text_of(event: &Event, index: u8) -> &[u8]
    ensures text { result.now ≡ text_in (value_of index event.now) }
    ensures short { length result.now ≤ 255 }
{
    match event.values.as_slice().get(usize::from(index)) {
        Some(Value::Text(word)) => word.as_bytes(),
        _ => &[],
    }
}

/// The flag at that index, and `false` where there is none.
fn flag_of(event: &Event, index: u8) -> bool
    ensures { result ≡ flag_in (value_of index event.now) }
{
    match event.values.as_slice().get(usize::from(index)) {
        Some(Value::Flag(flag)) => *flag,
        _ => false,
    }
}

/// Takes a column of so many values of this kind, at this index. A refusal may leave the reader in mid-way.
pub(crate) fn take_column(
    alloc: Global,
    kind: Kind,
    index: u8,
    count: u32,
    from: &mut ByteReader<'_>,
) -> Result<Vec<Value>, ColumnFault>
    ensures agrees { AgreesList (column_at kind index count from.old) result from.new }
    ensures ok { IfOk result (λ values. from.old ≡ column_bytes kind index values.items ++ from.new) }
    ensures legal { IfOk result (λ values. All (IsValueOf kind) values.items) }
    ensures count { IfOk result (λ values. length values.items ≡ count) }
{
    match kind {
        Kind::Int => take_ints(alloc, index, count, from),
        Kind::Id => take_ids(alloc, index, count, from),
        Kind::Text => take_texts(alloc, index, count, from),
        Kind::Flag => take_flags(alloc, index, count, from),
    }
}

fn take_ints(
    alloc: Global,
    index: u8,
    count: u32,
    from: &mut ByteReader<'_>,
) -> Result<Vec<Value>, ColumnFault>
    ensures agrees { AgreesList (ints_at index count from.old) result from.new }
    ensures ok { IfOk result (λ values. from.old ≡ column_bytes Kind.Int index values.items ++ from.new) }
    ensures legal { IfOk result (λ values. All (IsValueOf Kind.Int) values.items) }
    ensures count { IfOk result (λ values. length values.items ≡ count) }
{
    let places = match take_numbers(alloc, Series::Int(index), count, from) {
        Ok(places) => places,
        Err(fault) => return Err(fault),
    };
    match int_values(alloc, &places) {
        Ok(values) => Ok(values),
        Err(_) => Err(ColumnFault::Memory),
    }
}

/// The ints that have these places.
fn int_values(alloc: Global, places: &[u64]) -> Result<Vec<Value>, Memory>
    ensures { IfOk result (λ values. values.items ≡ map int_value places.now) }
{
    let mut values = Vec::with_capacity(alloc, places.len())?;
    for place in places {
        values.push(Value::Int(int_at(*place)))?;
    }
    Ok(values)
}

fn take_ids(
    alloc: Global,
    index: u8,
    count: u32,
    from: &mut ByteReader<'_>,
) -> Result<Vec<Value>, ColumnFault>
    ensures agrees { AgreesList (ids_at index count from.old) result from.new }
    ensures ok { IfOk result (λ values. from.old ≡ column_bytes Kind.Id index values.items ++ from.new) }
    ensures legal { IfOk result (λ values. All (IsValueOf Kind.Id) values.items) }
    ensures count { IfOk result (λ values. length values.items ≡ count) }
{
    let numbers = match take_numbers(alloc, Series::Id(index), count, from) {
        Ok(numbers) => numbers,
        Err(fault) => return Err(fault),
    };
    match id_values(alloc, &numbers) {
        Ok(values) => Ok(values),
        Err(_) => Err(ColumnFault::Memory),
    }
}

fn id_values(alloc: Global, numbers: &[u64]) -> Result<Vec<Value>, Memory>
    ensures { IfOk result (λ values. values.items ≡ map Value.Id numbers.now) }
{
    let mut values = Vec::with_capacity(alloc, numbers.len())?;
    for number in numbers {
        values.push(Value::Id(*number))?;
    }
    Ok(values)
}

/// Takes the length of each text, and then the texts.
fn take_texts(
    alloc: Global,
    index: u8,
    count: u32,
    from: &mut ByteReader<'_>,
) -> Result<Vec<Value>, ColumnFault>
    ensures agrees { AgreesList (texts_at index count from.old) result from.new }
    ensures ok { IfOk result (λ values. from.old ≡ column_bytes Kind.Text index values.items ++ from.new) }
    ensures legal { IfOk result (λ values. All (IsValueOf Kind.Text) values.items) }
    ensures count { IfOk result (λ values. length values.items ≡ count) }
{
    let lengths = from.bytes(count as usize)?;
    take_each_text(alloc, index, lengths, from)
}

/// Takes a text of each of these lengths.
fn take_each_text(
    alloc: Global,
    index: u8,
    lengths: &[u8],
    from: &mut ByteReader<'_>,
) -> Result<Vec<Value>, ColumnFault>
    ensures agrees { AgreesList (following_at index lengths.now from.old) result from.new }
    ensures ok { IfOk result (λ values. from.old ≡ list_bytes text_in values.items ++ from.new) }
    ensures lengths { IfOk result (λ values. map text_length values.items ≡ lengths.now) }
    ensures legal { IfOk result (λ values. All (IsValueOf Kind.Text) values.items) }
{
    let mut values = Vec::with_capacity(alloc, lengths.len())?;
    for length in lengths {
        let text = match take_text(alloc, index, *length, from) {
            Ok(text) => text,
            Err(fault) => return Err(fault),
        };
        values.push(text)?;
    }
    Ok(values)
}

/// Takes a text of this length.
fn take_text(
    alloc: Global,
    index: u8,
    length: u8,
    from: &mut ByteReader<'_>,
) -> Result<Value, ColumnFault>
    ensures agrees { Agrees (text_at index length from.old) result from.new }
    ensures ok { IfOk result (λ value. from.old ≡ text_in value ++ from.new) }
    ensures length { IfOk result (λ value. text_length value ≡ length) }
    ensures legal { IfOk result (IsValueOf Kind.Text) }
{
    let text = from.bytes(usize::from(length))?;
    match Word::new(alloc, text)? {
        Some(word) => Ok(Value::Text(word)),
        None => Err(ColumnFault::BadColumn(u32::from(index) + 1)),
    }
}

/// Takes so many flags.
fn take_flags(
    alloc: Global,
    index: u8,
    count: u32,
    from: &mut ByteReader<'_>,
) -> Result<Vec<Value>, ColumnFault>
    ensures agrees { AgreesList (flags_at index count from.old) result from.new }
    ensures ok { IfOk result (λ values. from.old ≡ column_bytes Kind.Flag index values.items ++ from.new) }
    ensures legal { IfOk result (λ values. All (IsValueOf Kind.Flag) values.items) }
    ensures count { IfOk result (λ values. length values.items ≡ count) }
{
    let mut values = Vec::with_capacity(alloc, count as usize)?;
    for done in 0..count {
        let flag = match take_flag(index, from) {
            Ok(flag) => flag,
            Err(fault) => return Err(fault),
        };
        values.push(flag)?;
    }
    Ok(values)
}

fn take_flag(index: u8, from: &mut ByteReader<'_>) -> Result<Value, ColumnFault>
    ensures agrees { Agrees (flag_at index from.old) result from.new }
    ensures ok { IfOk result (λ value. from.old ≡ flag_byte value ∷ from.new) }
    ensures legal { IfOk result (IsValueOf Kind.Flag) }
{
    match from.u8()? {
        0 => Ok(Value::Flag(false)),
        1 => Ok(Value::Flag(true)),
        _ => Err(ColumnFault::BadColumn(u32::from(index) + 1)),
    }
}
