ghost use Rattle.std.specs.Prelude.{◌≡◌, All, IsTrue, length};
ghost use Rattle.rg_event.specs.Codec.{AreValuesOf, IsEventOf, IsValueOf};
ghost use Rattle.rg_chunk.specs.Chunks.{IsChunk};

use crate::chunk::is_rising;
use rg_event::{Event, Field, Kind, MAX_CHUNK_EVENTS, MAX_INT, MAX_OFFSET, MAX_TIME, Value};

/// Whether a chunk of these columns may have these events.
pub(crate) fn is_chunk(fields: &[Field], events: &[Event]) -> bool
    ensures { IsTrue result → IsChunk fields.now events.now }
{
    if events.is_empty() || events.len() > MAX_CHUNK_EVENTS as usize {
        return false;
    }
    are_legal(fields, events) && is_rising(events)
}

/// Whether each event is one of these columns.
fn are_legal(fields: &[Field], events: &[Event]) -> bool
    ensures { IsTrue result → All (IsEventOf fields.now) events.now }
{
    for event in events {
        if !is_legal(fields, event) {
            return false;
        }
    }
    true
}

/// Whether the event's offset and time are in range, and its values of these columns.
fn is_legal(fields: &[Field], event: &Event) -> bool
    ensures { IsTrue result → IsEventOf fields.now event.now }
{
    event.offset <= MAX_OFFSET
        && event.time <= MAX_TIME
        && are_values_of(fields, event.values.as_slice())
}

/// Whether there is one value for each column, of its kind.
fn are_values_of(fields: &[Field], values: &[Value]) -> bool
    ensures { IsTrue result → AreValuesOf fields.now values.now }
{
    if fields.len() != values.len() {
        return false;
    }
    for (i, value) in values.iter().enumerate() {
        if !is_value_of(fields[i].kind, value) {
            return false;
        }
    }
    true
}

/// Whether a column of this kind may have the value.
fn is_value_of(kind: Kind, value: &Value) -> bool
    ensures { IsTrue result → IsValueOf kind value.now }
{
    match value {
        Value::Int(number) => kind == Kind::Int && number.unsigned_abs() <= MAX_INT,
        Value::Id(number) => {
            let _number = *number;
            kind == Kind::Id
        }
        Value::Text(word) => {
            let _text = word.as_bytes();
            kind == Kind::Text
        }
        Value::Flag(_) => kind == Kind::Flag,
    }
}
