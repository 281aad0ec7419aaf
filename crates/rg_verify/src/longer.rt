ghost use Rattle.std.specs.Prelude.{◌≡◌, ◌++◌, IfOk, OnOk};
ghost use Rattle.rg_chunk.specs.Extended.{all_extended as the_events, extended as the_event};
ghost use Rattle.rg_verify.specs.Payments.{extended_by};

use rg_bytes::Memory;
use rg_event::{Event, Events, Value, Values};
use std::alloc::Global;

/// Puts these values behind those of each event.
pub(crate) fn extend(alloc: Global, events: &mut Events, values: &Values) -> Result<(), Memory>
    ensures { OnOk result (events.new ≡ the_events values.now events.old) }
{
    let longer = all_extended(alloc, events.as_slice(), values)?;
    *events = longer;
    Ok(())
}

/// Puts these values behind those of each event, where there are some.
pub(crate) fn fill(
    alloc: Global,
    events: &mut Events,
    further: &Option<Values>,
) -> Result<(), Memory>
    ensures { OnOk result (events.new ≡ extended_by further.now events.old) }
{
    match further {
        None => Ok(()),
        Some(values) => extend(alloc, events, values),
    }
}

/// The events, each with these values behind its own.
fn all_extended(alloc: Global, events: &[Event], values: &Values) -> Result<Events, Memory>
    ensures { IfOk result (λ longer. longer ≡ the_events values.now events.now) }
{
    let mut longer = Events::new(alloc);
    for event in events {
        longer.push(extended(alloc, event, values)?)?;
    }
    Ok(longer)
}

/// The event with these values behind its own.
fn extended(alloc: Global, event: &Event, values: &Values) -> Result<Event, Memory>
    ensures { IfOk result (λ longer. longer ≡ the_event values.now event.now) }
{
    let mut own = event.values.copy(alloc)?;
    put_copies(alloc, values.as_slice(), &mut own)?;
    Ok(Event {
        offset: event.offset,
        time: event.time,
        values: own,
    })
}

/// Adds copies of the values at the end. An error leaves them begun.
fn put_copies(alloc: Global, values: &[Value], out: &mut Values) -> Result<(), Memory>
    ensures { OnOk result (out.new ≡ out.old ++ values.now) }
{
    for value in values {
        out.push(value.copy(alloc)?)?;
    }
    Ok(())
}
