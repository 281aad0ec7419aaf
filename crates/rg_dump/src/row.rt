ghost use Rattle.std.specs.Prelude.{◌≡◌, ◌++◌, ◌∷◌, [], ℕ, List, map, decimal, OnOk, IfOk};
ghost use Rattle.csv.specs.Records.{fields_of, partial_of};
ghost use Rattle.rg_chunk.specs.Extended.{all_extended};
ghost use Rattle.rg_host.specs.Lines.{ended};
ghost use Rattle.rg_dump.specs.Rows.{value_text, row_fields, row_line, IsBetween};

use csv::{ByteRecord, Writer, WriterBuilder};
use rg_bytes::{Memory, put_bytes, write_signed, write_whole};
use rg_chunk::Chunk;
use rg_event::{Event, Value, Values};
use std::alloc::Global;

/// Writes a value as it is printed. An error leaves it begun.
fn write_value(out: &mut Vec<u8>, value: &Value) -> Result<(), Memory>
    ensures { OnOk result (out.new.items ≡ out.old.items ++ value_text value.now) }
{
    match value {
        Value::Int(number) => write_signed(out, i128::from(*number)),
        Value::Id(number) => write_whole(out, *number),
        Value::Text(text) => put_bytes(out, text.as_bytes()),
        Value::Flag(true) => put_bytes(out, b"true"),
        Value::Flag(false) => put_bytes(out, b"false"),
    }
}

/// Adds a field to a record. An error leaves the record as it was.
fn push_field(fields: &mut ByteRecord, field: &[u8]) -> Result<(), Memory>
    requires whole { partial_of fields.old ≡ [] }
    ensures fields { OnOk result (fields_of fields.new ≡ fields_of fields.old ++ field.now ∷ []) }
    ensures whole { OnOk result (partial_of fields.new ≡ []) }
{
    fields.push_field(field)?;
    Ok(())
}

/// Adds the decimal digits of a number to a record.
fn push_number(alloc: Global, fields: &mut ByteRecord, number: u64) -> Result<(), Memory>
    requires whole { partial_of fields.old ≡ [] }
    ensures fields { OnOk result (fields_of fields.new ≡ fields_of fields.old ++ decimal number ∷ []) }
    ensures whole { OnOk result (partial_of fields.new ≡ []) }
{
    let mut digits = Vec::new(alloc);
    write_whole(&mut digits, number)?;
    push_field(fields, &digits)
}

/// Adds a value to a record.
fn push_value(alloc: Global, fields: &mut ByteRecord, value: &Value) -> Result<(), Memory>
    requires whole { partial_of fields.old ≡ [] }
    ensures fields { OnOk result (fields_of fields.new ≡ fields_of fields.old ++ value_text value.now ∷ []) }
    ensures whole { OnOk result (partial_of fields.new ≡ []) }
{
    let mut text = Vec::new(alloc);
    write_value(&mut text, value)?;
    push_field(fields, &text)
}

/// Adds values to a record, in order.
fn push_values(alloc: Global, fields: &mut ByteRecord, values: &[Value]) -> Result<(), Memory>
    requires whole { partial_of fields.old ≡ [] }
    ensures fields { OnOk result (fields_of fields.new ≡ fields_of fields.old ++ map value_text values.now) }
    ensures whole { OnOk result (partial_of fields.new ≡ []) }
{
    'values: for value in values {
        push_value(alloc, fields, value)?;
    }
    Ok(())
}

/// The record of an event: its offset, its time and its values.
fn record_of(alloc: Global, event: &Event) -> Result<ByteRecord, Memory>
    ensures { IfOk result (λ fields. fields_of fields ≡ row_fields event.now) }
{
    let mut fields = ByteRecord::new(alloc);
    push_number(alloc, &mut fields, event.offset)?;
    push_number(alloc, &mut fields, event.time)?;
    push_values(alloc, &mut fields, event.values.as_slice())?;
    Ok(fields)
}

/// A writer of rows by the settings that `csv` has by default.
fn rows(alloc: Global) -> Writer<Vec<u8>>
    ensures { IsBetween result [] }
{
    WriterBuilder::new().from_writer(Vec::new(alloc))
}

/// Writes the row of an event, and LF.
fn write_row(alloc: Global, writer: &mut Writer<Vec<u8>>, event: &Event) -> Result<(), Memory>
    ensures { (text : List ℕ) → IsBetween writer.old text → OnOk result (IsBetween writer.new (text ++ (row_line event.now ++ 10 ∷ []))) }
{
    let fields = record_of(alloc, event)?;
    match writer.write_byte_record(&fields) {
        Ok(()) => Ok(()),
        Err(_) => Err(Memory),
    }
}

/// What a writer was given.
fn text_of(writer: Writer<Vec<u8>>) -> Result<Vec<u8>, Memory>
    ensures { (text : List ℕ) → IsBetween writer text → IfOk result (λ given. given.items ≡ text) }
{
    match writer.into_inner() {
        Ok(text) => Ok(text),
        Err(_) => Err(Memory),
    }
}

/// The rows of a chunk's events, one after another, each ended by LF.
fn chunk_text(alloc: Global, chunk: &Chunk) -> Result<Vec<u8>, Memory>
    ensures { IfOk result (λ text. text.items ≡ ended (map row_line chunk.now)) }
{
    let mut writer = rows(alloc);
    'events: for index in 0..chunk.count() {
        if let Some(event) = chunk.get(index) {
            write_row(alloc, &mut writer, event)?;
        }
    }
    text_of(writer)
}

/// Puts these values behind those of each event of a chunk.
#[tactic(auto, using(crate::proofs::Behind::extended_empty))]
fn extend(chunk: &mut Chunk, values: &Values) -> Result<(), Memory>
    ensures { OnOk result (chunk.new ≡ all_extended values.now chunk.old) }
{
    if values.as_slice().is_empty() {
        return Ok(());
    }
    chunk.extend(values)
}

/// The rows of a chunk's events, where these values come behind those of each, one after another and each ended by LF.
pub(crate) fn extended_text(alloc: Global, chunk: Chunk, values: &Values) -> Result<Vec<u8>, Memory>
    ensures { IfOk result (λ text. text.items ≡ ended (map row_line (all_extended values.now chunk))) }
{
    let mut longer = chunk;
    extend(&mut longer, values)?;
    chunk_text(alloc, &longer)
}
