ghost use Rattle.std.specs.Prelude.{◌≡◌, ◌<◌, ◌≤◌, ◌++◌, [], ◌∷◌, ◌↔◌, List, Some, IfOk, IfSome, OnOk, OnErr, IsTrue, length, slice_get, option_copied};
ghost use Rattle.rg_bytes.specs.Keeps.{Keeps};
ghost use Rattle.rg_event.specs.declared.event.Event.{Event as TheEvent};
ghost use Rattle.rg_event.specs.declared.schema.Field.{Field};
ghost use Rattle.rg_chunk.specs.Chunks.{IsChunk, chunk_bytes, chunk_of};

use crate::head::{Layout, head_of_events, put_head};
use rg_bytes::Memory;
use rg_column::encode_columns;
use rg_event::{Event, Schema};
use std::alloc::Global;
use std::marker::Model;

/// Events that no payload has, in memory. A contract sees it as their list, the first one first, and as how many
/// there may be.
#[derive(Debug, Drop)]
pub struct OpenChunk {
    events: Vec<Event>,
    cap: u32,
}

impl Model for OpenChunk {
    ghost use Rattle.std.specs.Prelude.{◌≤◌, length, vec_capacity};
    ghost use Rattle.rg_chunk.specs.Chunks.{Opened};

    ghost Value = { Opened };

    ghost view = { λ c. record { events = c.events.items; cap = c.cap } };

    ghost invariant = { λ c. (1 ≤ c.cap) × (c.cap ≤ 4096) × (length c.events.items ≤ c.cap) × (c.cap ≤ vec_capacity c.events) };
}

impl OpenChunk {
    /// An empty chunk of at most `cap` events, for which it takes its room at once.
    pub fn new(alloc: Global, cap: u32) -> Result<OpenChunk, Memory>
        requires some { 1 ≤ cap }
        requires few { cap ≤ 4096 }
        ensures empty { IfOk result (λ c. c.events ≡ []) }
        ensures cap { IfOk result (λ c. c.cap ≡ cap) }
    {
        let events = Vec::with_capacity(alloc, cap as usize)?;
        Ok(OpenChunk { events, cap })
    }

    /// An empty chunk with as much room.
    pub fn emptied(&self, alloc: Global) -> Result<OpenChunk, Memory>
        ensures empty { IfOk result (λ c. c.events ≡ []) }
        ensures cap { IfOk result (λ c. c.cap ≡ self.now.cap) }
    {
        OpenChunk::new(alloc, self.cap)
    }

    /// Adds an event at the end, where the chunk isn't full. It takes no memory.
    pub fn push(&mut self, event: Event)
        requires { length self.old.events < self.old.cap }
        ensures events { self.new.events ≡ self.old.events ++ event ∷ [] }
        ensures cap { self.new.cap ≡ self.old.cap }
    {
        match self.events.push(event) {
            Ok(()) => {}
            Err(_) => unreachable!(),
        }
    }

    /// Whether there is no room left.
    pub fn is_full(&self) -> bool
        ensures { IsTrue result ↔ (self.now.cap ≤ length self.now.events) }
    {
        self.events.len() as u32 >= self.cap
    }

    /// How many events there are, from 0 to 4,096.
    pub fn count(&self) -> u32
        ensures count { result ≡ length self.now.events }
        ensures within { result ≤ self.now.cap }
        ensures few { self.now.cap ≤ 4096 }
    {
        self.events.len() as u32
    }

    /// The event of that index, which begins at 0.
    pub fn get(&self, index: u32) -> Option<&Event>
        // The event at an index, and none exactly from the count on.
        ensures event { option_copied result ≡ slice_get self.now.events index }
        ensures few { IfSome result (λ _. index < 4096) }
    {
        self.events.get(index as usize)
    }

    /// Writes the payload of the events at the end, by the columns of the schema, where there are some. Where memory
    /// runs out `out` holds what it held.
    pub fn encode(&self, schema: &Schema, out: &mut Vec<u8>) -> Result<(), Memory>
        requires { 1 ≤ length self.now.events }
        // The chunk is written by columns, or nothing is.
        ensures ok { OnOk result (out.new.items ≡ out.old.items ++ chunk_bytes schema.now.fields self.now.events) }
        ensures err { OnErr result (out.new.items ≡ out.old.items) }

        // What is written of legal events is read back.
        ensures reads_back { (fields : List Field) (events : List TheEvent) → IsChunk fields events → chunk_of fields (chunk_bytes fields events) ≡ Some events }
    {
        let start = out.len();
        match put_chunk(schema, &self.events, out) {
            Ok(()) => Ok(()),
            Err(memory) => {
                out.truncate(start);
                Err(memory)
            }
        }
    }

    /// The events alone. It takes no memory.
    pub(crate) fn into_events(self) -> Vec<Event>
        ensures { result.items ≡ self.events }
    {
        self.events
    }

    /// Drops all events, and keeps the room.
    pub fn clear(&mut self)
        ensures events { self.new.events ≡ [] }
        ensures cap { self.new.cap ≡ self.old.cap }
    {
        self.events.clear();
    }
}

/// Writes the payload of these events at the end. An error leaves it begun.
fn put_chunk(schema: &Schema, events: &[Event], out: &mut Vec<u8>) -> Result<(), Memory>
    requires { length events.now ≤ 4096 }
    ensures ok { OnOk result (out.new.items ≡ out.old.items ++ chunk_bytes schema.now.fields events.now) }
    ensures err { OnErr result (Keeps out.old.items out.new.items) }
{
    put_head(Layout::Columns, &head_of_events(events), out)?;
    encode_columns(schema, events, out)
}
