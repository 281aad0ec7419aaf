ghost use Rattle.std.specs.Prelude.{◌≡◌, ◌++◌, IfOk, OnOk};
ghost use Rattle.rg_chunk.specs.Extended.{all_extended as the_events, extended as the_event};

use rg_bytes::Memory;
use rg_event::{Event, Value, Values};
use std::alloc::Global;

/// The events, each with these values behind its own.
pub(crate) fn all_extended(
    alloc: Global,
    events: &[Event],
    values: &Values,
) -> Result<Vec<Event>, Memory>
    ensures { IfOk result (λ longer. longer.items ≡ the_events values.now events.now) }
{
    let mut longer = Vec::with_capacity(alloc, events.len())?;
    for event in events {
        longer.push(extended(alloc, event, values)?)?;
    }
    Ok(longer)
}

/// The event with these values behind its own.
fn extended(alloc: Global, event: &Event, values: &Values) -> Result<Event, Memory>
    ensures { IfOk result (λ longer. longer ≡ the_event values.now event.now) }
{
    Ok(Event {
        offset: event.offset,
        time: event.time,
        values: joined(alloc, event.values.as_slice(), values.as_slice())?,
    })
}

/// The first values, and the others behind them.
fn joined(alloc: Global, first: &[Value], others: &[Value]) -> Result<Values, Memory>
    ensures { IfOk result (λ values. values ≡ first.now ++ others.now) }
{
    let mut values = Values::with_capacity(alloc, first.len() + others.len())?;
    put_copies(alloc, first, &mut values)?;
    put_copies(alloc, others, &mut values)?;
    Ok(values)
}

/// Adds copies of the values at the end. An error leaves them begun.
fn put_copies(alloc: Global, values: &[Value], out: &mut Values) -> Result<(), Memory>
    ensures { OnOk result (out.new ≡ out.old ++ values.now) }
{
    for value in values {
        out.push(value.copy(alloc)?)?;
    }
    Ok(())
}
