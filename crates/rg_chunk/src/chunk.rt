ghost use Rattle.std.specs.Prelude.{◌≡◌, ◌⊎◌, ◌≤◌, ◌<◌, ◌++◌, [], List, Ok, Err, IfOk, IfSome, OnOk, OnErr, All, length, slice_get, option_copied};
ghost use Rattle.rg_bytes.specs.Reading.{list_bytes, more_at};
ghost use Rattle.rg_event.specs.Codec.{Agrees as AgreesAt, IsEventOf, event_bytes};
ghost use Rattle.rg_event.specs.Rising.{IsRising};
ghost use Rattle.rg_event.specs.declared.event.Event.{Event as TheEvent};
ghost use Rattle.rg_column.specs.Columns.{columns_bytes};
ghost use Rattle.rg_chunk.specs.Chunks.{Agrees, HasOffset, IsChunk, chunk_at, chunk_of, event_from_at, events_at, follows, laid_bytes, next_event_at, payload_bytes, rises_from, rising_columns_at};
ghost use Rattle.rg_chunk.specs.Extended.{all_extended as the_extended};
ghost use Rattle.rg_chunk.specs.declared.head.Layout.{Layout as TheLayout};

use crate::fault::{ChunkFault, event_fault};
use crate::head::{Layout, is_head_of, take_head};
use crate::longer::all_extended;
use rg_bytes::{ByteReader, Memory};
use rg_column::decode_columns;
use rg_event::{Event, EventFault, Events, Schema, Values, decode};
use std::alloc::Global;
use std::marker::Model;

/// The events of a chunk payload, the first one first. A contract sees it as their list.
#[derive(Debug, Drop)]
pub struct Chunk {
    events: Vec<Event>,
}

impl Model for Chunk {
    ghost use Rattle.std.specs.Prelude.{List, ◌≤◌, length};
    ghost use Rattle.rg_event.specs.declared.event.Event.{Event as TheEvent};

    ghost Value = { List TheEvent };

    ghost view = { λ c. c.events.items };

    ghost invariant = { λ c. (1 ≤ length c.events.items) × (length c.events.items ≤ 4096) };
}

impl Chunk {
    /// The chunk that a payload says, of events of this schema. `BadChunk` comes exactly where it is no chunk payload.
    pub fn decode(alloc: Global, schema: &Schema, payload: &[u8]) -> Result<Chunk, ChunkFault>
        // A payload is read exactly where it is a chunk's, as rows or by columns.
        ensures agrees { Agrees (chunk_of schema.now.fields payload.now) result }

        // The payload is what these events are written as in one of the two layouts.
        ensures bytes { IfOk result (λ chunk. (layout : TheLayout) × (payload.now ≡ payload_bytes layout schema.now.fields chunk)) }
        ensures legal { IfOk result (IsChunk schema.now.fields) }

        // What was written of legal events is read back.
        ensures reads_back { (layout : TheLayout) (events : List TheEvent) → IsChunk schema.now.fields events → payload.now ≡ payload_bytes layout schema.now.fields events → (result ≡ Ok events) ⊎ (result ≡ Err ChunkFault.Memory) }
    {
        let mut from = ByteReader::new(payload);
        match take_chunk(alloc, schema, &mut from) {
            Ok(events) => {
                if from.left() > 0 {
                    return Err(ChunkFault::BadChunk);
                }
                Ok(Chunk {
                    events: events.into_vec(),
                })
            }
            Err(fault) => Err(ChunkFault::from(fault)),
        }
    }

    /// A chunk of these events.
    pub(crate) fn of_events(events: Vec<Event>) -> Chunk
        requires some { 1 ≤ length events.items }
        requires few { length events.items ≤ 4096 }
        ensures { result ≡ events.items }
    {
        Chunk { events }
    }

    /// How many events there are, from 1 to 4,096.
    pub fn count(&self) -> u32
        ensures count { result ≡ length self.now }
        ensures some { 1 ≤ result }
        ensures few { result ≤ 4096 }
    {
        self.events.len() as u32
    }

    /// The event of that index, which begins at 0.
    pub fn get(&self, index: u32) -> Option<&Event>
        // The event at an index, and none exactly from the count on.
        ensures event { option_copied result ≡ slice_get self.now index }
        ensures few { IfSome result (λ _. index < 4096) }
    {
        self.events.get(index as usize)
    }

    /// Puts these values behind those of each event. Where memory runs out all events are as they were.
    pub fn extend(&mut self, values: &Values) -> Result<(), Memory>
        // The values stand behind those of each event, or all events are as they were.
        ensures ok { OnOk result (self.new ≡ the_extended values.now self.old) }
        ensures err { OnErr result (self.new ≡ self.old) }
    {
        match all_extended(*self.events.allocator(), &self.events, values) {
            Ok(longer) => {
                self.events = longer;
                Ok(())
            }
            Err(memory) => Err(memory),
        }
    }
}

/// Takes a head and the events that it says. A refusal may leave the reader in mid-way.
fn take_chunk(
    alloc: Global,
    schema: &Schema,
    from: &mut ByteReader<'_>,
) -> Result<Events, EventFault>
    ensures agrees { AgreesAt (chunk_at schema.now.fields from.old) result from.new }
    ensures ok { IfOk result (λ events. (layout : TheLayout) × (from.old ≡ payload_bytes layout schema.now.fields events ++ from.new)) }
    ensures legal { IfOk result (IsChunk schema.now.fields) }
{
    let (layout, head) = match take_head(from) {
        Ok(said) => said,
        Err(fault) => return Err(fault),
    };
    let events = match take_laid(alloc, layout, schema, head.count, from) {
        Ok(events) => events,
        Err(fault) => return Err(fault),
    };
    if !is_head_of(&head, events.as_slice()) {
        return Err(EventFault::BadValue(0));
    }
    Ok(events)
}

/// Takes so many events in this layout.
fn take_laid(
    alloc: Global,
    layout: Layout,
    schema: &Schema,
    count: u32,
    from: &mut ByteReader<'_>,
) -> Result<Events, EventFault>
    ensures agrees { AgreesAt (events_at layout schema.now.fields count from.old) result from.new }
    ensures ok { IfOk result (λ events. from.old ≡ laid_bytes layout schema.now.fields events ++ from.new) }
    ensures legal { IfOk result (All (IsEventOf schema.now.fields)) }
    ensures rising { IfOk result IsRising }
    ensures count { IfOk result (λ events. length events ≡ count) }
{
    match layout {
        Layout::Rows => take_events(alloc, schema, count, from),
        Layout::Columns => take_columns(alloc, schema, count, from),
    }
}

/// Takes so many events by columns, each of which may follow those before it.
fn take_columns(
    alloc: Global,
    schema: &Schema,
    count: u32,
    from: &mut ByteReader<'_>,
) -> Result<Events, EventFault>
    ensures agrees { AgreesAt (rising_columns_at schema.now.fields count from.old) result from.new }
    ensures ok { IfOk result (λ events. from.old ≡ columns_bytes schema.now.fields events ++ from.new) }
    ensures legal { IfOk result (All (IsEventOf schema.now.fields)) }
    ensures rising { IfOk result IsRising }
    ensures count { IfOk result (λ events. length events ≡ count) }
{
    let events = match decode_columns(alloc, schema, count, from) {
        Ok(events) => events,
        Err(fault) => return Err(event_fault(fault)),
    };
    if !is_rising(events.as_slice()) {
        return Err(EventFault::BadValue(0));
    }
    Ok(events)
}

/// Whether the offsets rise strictly and the times never fall.
pub(crate) fn is_rising(events: &[Event]) -> bool
    requires { All HasOffset events.now }
    ensures { result ≡ rises_from 0 0 events.now }
{
    let mut lowest = 0;
    let mut earliest = 0;
    for event in events {
        if !may_follow(event, lowest, earliest) {
            return false;
        }
        lowest = event.offset + 1;
        earliest = event.time;
    }
    true
}

/// Takes so many events, each of which may follow those before it.
fn take_events(
    alloc: Global,
    schema: &Schema,
    count: u32,
    from: &mut ByteReader<'_>,
) -> Result<Events, EventFault>
    ensures agrees { AgreesAt (more_at (next_event_at schema.now.fields) [] count from.old) result from.new }
    ensures ok { IfOk result (λ events. from.old ≡ list_bytes event_bytes events ++ from.new) }
    ensures legal { IfOk result (All (IsEventOf schema.now.fields)) }
    ensures rising { IfOk result IsRising }
    ensures count { IfOk result (λ events. length events ≡ count) }
{
    let mut events = match empty_list(alloc, count) {
        Ok(events) => events,
        Err(_) => return Err(EventFault::Memory),
    };
    let mut next = 0;
    let mut time = 0;
    for done in 0..count {
        let event = match take_event(alloc, schema, next, time, from) {
            Ok(event) => event,
            Err(fault) => return Err(fault),
        };
        next = event.offset + 1;
        time = event.time;
        match events.push(event) {
            Ok(()) => {}
            Err(_) => return Err(EventFault::Memory),
        }
    }
    Ok(events)
}

/// No events, with room for so many.
fn empty_list(alloc: Global, count: u32) -> Result<Events, Memory>
    ensures { IfOk result (λ events. events ≡ []) }
{
    Ok(Events::from(Vec::with_capacity(alloc, count as usize)?))
}

/// Takes an event whose offset is at least `next` and whose time is at least `time`.
fn take_event(
    alloc: Global,
    schema: &Schema,
    next: u64,
    time: u64,
    from: &mut ByteReader<'_>,
) -> Result<Event, EventFault>
    ensures agrees { AgreesAt (event_from_at schema.now.fields next time from.old) result from.new }
    ensures ok { IfOk result (λ event. from.old ≡ event_bytes event ++ from.new) }
    ensures legal { IfOk result (IsEventOf schema.now.fields) }
    ensures offset { IfOk result (λ event. next ≤ event.offset) }
    ensures time { IfOk result (λ event. time ≤ event.time) }
{
    let event = match decode(alloc, schema, from) {
        Ok(event) => event,
        Err(fault) => return Err(fault),
    };
    if !may_follow(&event, next, time) {
        return Err(EventFault::BadValue(0));
    }
    Ok(event)
}

/// Whether the event's offset is at least `next` and its time at least `time`.
fn may_follow(event: &Event, next: u64, time: u64) -> bool
    ensures { result ≡ follows event.now next time }
{
    next <= event.offset && time <= event.time
}
