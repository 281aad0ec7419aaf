ghost use Rattle.std.specs.Prelude.{◌≡◌, IfOk};

use rg_bytes::Memory;
use rg_event::{Event, Schema, Value, Values, Word};
use std::alloc::Global;

/// A value of an event.
#[derive(Clone, Copy)]
pub(crate) enum Item<'a> {
    Flag(bool),
    Int(i64),
    Text(&'a [u8]),
}

/// The text; no memory where the bytes are none.
fn text_of(alloc: Global, bytes: &[u8]) -> Result<Value, Memory> {
    match Word::new(alloc, bytes)? {
        Some(word) => Ok(Value::Text(word)),
        None => Err(Memory),
    }
}

fn value_of(alloc: Global, item: &Item<'_>) -> Result<Value, Memory> {
    match item {
        Item::Flag(flag) => Ok(Value::Flag(*flag)),
        Item::Int(number) => Ok(Value::Int(*number)),
        Item::Text(bytes) => text_of(alloc, bytes),
    }
}

fn push_each(alloc: Global, values: &mut Values, items: &[Item<'_>]) -> Result<(), Memory> {
    for item in items {
        values.push(value_of(alloc, item)?)?;
    }
    Ok(())
}

/// These values, as an event has them.
pub(crate) fn values_of(alloc: Global, items: &[Item<'_>]) -> Result<Values, Memory> {
    let mut values = Values::new(alloc);
    match push_each(alloc, &mut values, items) {
        Ok(()) => Ok(values),
        Err(memory) => Err(memory),
    }
}

/// An event of these values.
pub(crate) fn event_of(
    alloc: Global,
    offset: u64,
    time: u64,
    items: &[Item<'_>],
) -> Result<Event, Memory>
    ensures { IfOk result (λ event. event.offset ≡ offset) }
{
    Ok(Event {
        offset,
        time,
        values: values_of(alloc, items)?,
    })
}

/// The schema that a text says; no memory where it says none.
pub(crate) fn schema_of(alloc: Global, text: &[u8]) -> Result<Schema, Memory> {
    match Schema::parse(alloc, text) {
        Ok(schema) => Ok(schema),
        Err(_) => Err(Memory),
    }
}
