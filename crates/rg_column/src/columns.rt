ghost use Rattle.std.specs.Prelude.{◌≡◌, ◌⊎◌, ◌≤◌, ◌++◌, [], All, List, ℕ, length, Ok, Err, IfOk, OnOk, OnErr};
ghost use Rattle.rg_bytes.specs.Keeps.{Keeps};
ghost use Rattle.rg_event.specs.Codec.{IsEventOf};
ghost use Rattle.rg_event.specs.declared.event.Event.{Event as TheEvent};
ghost use Rattle.rg_column.specs.Widths.{Agrees, AgreesList};
ghost use Rattle.rg_column.specs.Columns.{columns_at, columns_bytes, fields_at, fields_bytes, AreColumnsOf, AreTaken};

use crate::fault::ColumnFault;
use crate::numbers::{put_numbers, take_numbers};
use crate::rows::{start_events, widen};
use crate::series::Series;
use crate::values::{put_column, take_column};
use rg_bytes::{ByteReader, Memory};
use rg_event::{Event, Events, Field, Schema};
use std::alloc::Global;

/// Writes the columns of these events at the end. Where memory runs out `out` holds what it held.
pub fn encode_columns(schema: &Schema, events: &[Event], out: &mut Vec<u8>) -> Result<(), Memory>
    // The columns are written to the byte, and a refused write leaves the bytes as they were.
    ensures ok { OnOk result (out.new.items ≡ out.old.items ++ columns_bytes schema.now.fields events.now) }
    ensures err { OnErr result (out.new.items ≡ out.old.items) }
{
    let start = out.len();
    match put_columns(schema.fields(), events, out) {
        Ok(()) => Ok(()),
        Err(memory) => {
            out.truncate(start);
            Err(memory)
        }
    }
}

fn put_columns(fields: &[Field], events: &[Event], out: &mut Vec<u8>) -> Result<(), Memory>
    requires { length fields.now ≤ 32 }
    ensures ok { OnOk result (out.new.items ≡ out.old.items ++ columns_bytes fields.now events.now) }
    ensures err { OnErr result (Keeps out.old.items out.new.items) }
{
    put_numbers(Series::Offset, events, out)?;
    put_numbers(Series::Time, events, out)?;
    put_fields(fields, events, out)
}

/// Writes the column of each field at the end. An error leaves some of them.
fn put_fields(fields: &[Field], events: &[Event], out: &mut Vec<u8>) -> Result<(), Memory>
    requires { length fields.now ≤ 32 }
    ensures ok { OnOk result (out.new.items ≡ out.old.items ++ fields_bytes fields.now 0 events.now) }
    ensures err { OnErr result (Keeps out.old.items out.new.items) }
{
    let mut index = 0;
    for field in fields {
        put_column(field.kind, index, events, out)?;
        index += 1;
    }
    Ok(())
}

/// Takes the columns of so many events, as `encode_columns` writes them. A refusal leaves the reader as it was. It
/// takes one piece of memory for the values of each event, one for each text past the small ones, and a few for each
/// column.
pub fn decode_columns(
    alloc: Global,
    schema: &Schema,
    count: u32,
    from: &mut ByteReader<'_>,
) -> Result<Events, ColumnFault>
    // Columns are read exactly where they are those of so many events; else the first bad column is told, or that the
    // bytes end.
    ensures agrees { Agrees (columns_at schema.now.fields count from.old) result from.new }

    // What is read was written so.
    ensures ok { IfOk result (λ events. from.old ≡ columns_bytes schema.now.fields events ++ from.new) }
    ensures legal { IfOk result (All (IsEventOf schema.now.fields)) }
    ensures count { IfOk result (λ events. length events ≡ count) }

    // What is written of legal events is read back, whatever follows.
    ensures reads_back { (events : List TheEvent) (rest : List ℕ) → AreColumnsOf schema.now.fields count events → from.old ≡ columns_bytes schema.now.fields events ++ rest → ((result ≡ Ok events) × (from.new ≡ rest)) ⊎ (result ≡ Err ColumnFault.Memory) }

    // A refusal leaves the reader as it was.
    ensures err { OnErr result (from.new ≡ from.old) }
{
    // All that is left, so that a refusal can put it back.
    let bytes = from.bytes(from.left())?;
    let mut left = ByteReader::new(bytes);
    match take_columns(alloc, schema.fields(), count, &mut left) {
        Ok(events) => {
            *from = left;
            Ok(Events::from(events))
        }
        Err(fault) => {
            *from = ByteReader::new(bytes);
            Err(fault)
        }
    }
}

fn take_columns(
    alloc: Global,
    fields: &[Field],
    count: u32,
    from: &mut ByteReader<'_>,
) -> Result<Vec<Event>, ColumnFault>
    requires { length fields.now ≤ 32 }
    ensures agrees { AgreesList (columns_at fields.now count from.old) result from.new }
    ensures ok { IfOk result (λ events. from.old ≡ columns_bytes fields.now events.items ++ from.new) }
    ensures legal { IfOk result (λ events. All (IsEventOf fields.now) events.items) }
    ensures count { IfOk result (λ events. length events.items ≡ count) }
{
    let offsets = match take_numbers(alloc, Series::Offset, count, from) {
        Ok(offsets) => offsets,
        Err(fault) => return Err(fault),
    };
    let times = match take_numbers(alloc, Series::Time, count, from) {
        Ok(times) => times,
        Err(fault) => return Err(fault),
    };
    let events = match start_events(alloc, &offsets, &times, fields.len()) {
        Ok(events) => events,
        Err(_) => return Err(ColumnFault::Memory),
    };
    take_fields(alloc, fields, count, events, from)
}

/// Takes the column of each field, for events that have no value yet.
fn take_fields(
    alloc: Global,
    fields: &[Field],
    count: u32,
    started: Vec<Event>,
    from: &mut ByteReader<'_>,
) -> Result<Vec<Event>, ColumnFault>
    requires few { length fields.now ≤ 32 }
    requires count { length started.items ≡ count }
    requires legal { All (IsEventOf []) started.items }
    ensures agrees { AgreesList (fields_at fields.now 0 count started.items from.old) result from.new }
    ensures taken { IfOk result (λ events. AreTaken fields.now started.items events.items from.old from.new) }
{
    let mut events = started;
    let mut index = 0;
    for field in fields {
        let values = match take_column(alloc, field.kind, index, count, from) {
            Ok(values) => values,
            Err(fault) => return Err(fault),
        };
        widen(&mut events, values)?;
        index += 1;
    }
    Ok(events)
}
