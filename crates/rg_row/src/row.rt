ghost use Rattle.std.specs.Prelude.{◌≡◌, ◌⊎◌, ◌∷◌, ◌≤◌, ◌<◌, ◌^◌, ◌==◌, ℕ, List, [], length, Ok, Err, Some, false, IfOk, IfErr};
ghost use Rattle.std.specs.List.{list_any};
ghost use Rattle.rg_event.specs.Codec.{IsEventOf};
ghost use Rattle.rg_row.specs.Fields.{IsRow, fields_of, is_marked};
ghost use Rattle.rg_row.specs.Records.{csv_record};
ghost use Rattle.rg_row.specs.Rows.{Agrees, row_of, event_of_fields, values_of};
ghost use Rattle.rg_row.specs.Texts.{left};
ghost use Rattle.rg_row.specs.declared.fault.RowFault.TheVariants.{Memory as OutOfMemory};

use crate::fault::RowFault;
use crate::line::starts_marked;
use crate::plain::read_plain;
use crate::quotes::{first_record, is_split};
use crate::texts::Texts;
use crate::time::read_time;
use memchr::memchr2;
use rg_event::{Event, Field, Schema, Values, parse_value};
use std::alloc::Global;

/// Reads a cleaned line, which holds no LF, as the event of a row with this offset.
///
/// The faults are told in the order of `RowFault`, and `Memory` may come in place of an event or of another fault.
#[tactic(auto, using(crate::proofs::Grammar::of_row, crate::proofs::Grammar::to_row, crate::proofs::Recorded::recorded))]
pub fn read_row(alloc: Global, schema: &Schema, offset: u64, line: &[u8]) -> Result<Event, RowFault>
    requires one_line { list_any (λ byte. byte == 10) line.now ≡ false }
    // The line's event is answered, or its first fault: Row, Fields, Time, then a value by its column.
    ensures agrees { Agrees (row_of schema.now.fields offset line.now) result }

    // The grammar of rows and the splitting of a line say the same, both ways.
    ensures grammar { (fields : List (List ℕ)) → IsRow line.now fields → fields_of line.now ≡ Some fields }
    ensures fields { (fields : List (List ℕ)) → fields_of line.now ≡ Some fields → IsRow line.now fields }

    // The fields are those of the record that `csv` defines for the line.
    ensures record_of { (fields : List (List ℕ)) → fields_of line.now ≡ Some fields → csv_record line.now ≡ Some fields }

    // The event is one of the schema's columns, with the offset that was given.
    ensures legal { IfOk result (λ event. offset < 2 ^ 62 → IsEventOf schema.now.fields event) }
    ensures placed { IfOk result (λ event. event.offset ≡ offset) }
{
    match read_plain(alloc, schema.fields(), offset, line) {
        Some(event) => Ok(event),
        None => read_any(alloc, schema.fields(), offset, line),
    }
}

// Reads a line of any kind. Most lines are read by `read_plain`, which gives up where it meets a quote or a fault.
#[cold]
#[inline(never)]
fn read_any(alloc: Global, fields: &[Field], offset: u64, line: &[u8]) -> Result<Event, RowFault>
    requires few { length fields.now ≤ 32 }
    requires one_line { list_any (λ byte. byte == 10) line.now ≡ false }
    ensures { Agrees (row_of fields.now offset line.now) result }
{
    if line.is_empty() || starts_marked(line) {
        return Err(RowFault::Row);
    }
    match memchr2(b'"', b'\r', line) {
        None => read_event(alloc, fields, offset, Texts::Bare(line)),
        Some(_) => read_quoted(alloc, fields, offset, line),
    }
}

// Reads a line that may hold a quote or a CR. The reader of `csv` takes kilobytes of the stack, which no other line is
// to go through.
#[cold]
#[inline(never)]
fn read_quoted(alloc: Global, fields: &[Field], offset: u64, line: &[u8]) -> Result<Event, RowFault>
    requires few { length fields.now ≤ 32 }
    requires one_line { list_any (λ byte. byte == 10) line.now ≡ false }
    requires some { (length line.now == 0) ≡ false }
    requires unmarked { is_marked line.now ≡ false }
    ensures { Agrees (row_of fields.now offset line.now) result }
{
    if line.contains(&b'\r') || !is_split(line) {
        return Err(RowFault::Row);
    }
    match first_record(alloc, line) {
        Ok(Some(record)) => read_event(alloc, fields, offset, Texts::Read(&record, 0)),
        Ok(None) => unreachable!(),
        Err(_) => Err(RowFault::Memory),
    }
}

fn read_event(
    alloc: Global,
    fields: &[Field],
    offset: u64,
    texts: Texts<'_>,
) -> Result<Event, RowFault>
    requires few { length fields.now ≤ 32 }
    ensures { Agrees (event_of_fields fields.now offset (left texts.entry)) result }
{
    if texts.len() != fields.len() + 1 {
        return Err(RowFault::Fields);
    }
    let (time, texts) = match texts.split_first() {
        Some(parts) => parts,
        None => return Err(RowFault::Fields),
    };
    let time = match read_time(time) {
        Some(time) => time,
        None => return Err(RowFault::Time),
    };
    match read_values(alloc, fields, texts) {
        Ok(values) => Ok(Event {
            offset,
            time,
            values,
        }),
        Err(fault) => Err(fault),
    }
}

// Reads a value for each column, or tells the first text that is none of its column's kind.
fn read_values(alloc: Global, fields: &[Field], texts: Texts<'_>) -> Result<Values, RowFault>
    requires few { length fields.now ≤ 32 }
    ensures ok { IfOk result (λ values. values_of 1 fields.now (left texts.entry) ≡ Ok values) }
    ensures err { IfErr result (λ fault. (values_of 1 fields.now (left texts.entry) ≡ Err fault) ⊎ (fault ≡ OutOfMemory)) }
{
    let mut values = Values::with_capacity(alloc, fields.len())?;
    let mut texts = texts;
    let mut column: u32 = 0;
    for field in fields {
        let (text, rest) = match texts.split_first() {
            Some(parts) => parts,
            None => return Ok(values),
        };
        texts = rest;
        column += 1;
        match parse_value(alloc, field.kind, text) {
            Ok(Some(value)) => values.push(value)?,
            Ok(None) => return Err(RowFault::Value(column)),
            Err(_) => return Err(RowFault::Memory),
        }
    }
    Ok(values)
}
