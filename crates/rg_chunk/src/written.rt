ghost use Rattle.std.specs.Prelude.{◌≡◌, ◌↔◌, IfSome, IsTrue};
ghost use Rattle.rg_chunk.specs.Chunks.{chunk_bytes, chunk_of};

use crate::chunk::Chunk;
use crate::legal::is_chunk;
use crate::open::OpenChunk;
use rg_event::{Event, Schema};
use std::marker::Model;

/// The events of an open chunk beside the payload that was written of them: where the payload is read again, they
/// needn't be decoded.
#[derive(Debug, Drop)]
pub struct Written {
    payload: Vec<u8>,
    events: Vec<Event>,
}

impl Model for Written {
    ghost use Rattle.rg_chunk.specs.Written.{Put};

    ghost Value = { Put };

    ghost view = { λ w. record { payload = w.payload.items; events = w.events.items } };
}

impl Written {
    /// The events of an open chunk, and their payload.
    pub fn new(open: OpenChunk, payload: Vec<u8>) -> Written
        ensures payload { result.payload ≡ payload.items }
        ensures events { result.events ≡ open.events }
    {
        Written {
            payload,
            events: open.into_events(),
        }
    }

    /// Whether this is the payload.
    pub fn is_of(&self, payload: &[u8]) -> bool
        ensures { IsTrue result ↔ (self.now.payload ≡ payload.now) }
    {
        self.payload.as_slice() == payload
    }

    /// The chunk that the payload says, where a chunk of this schema may have the events. It takes no memory.
    pub fn into_chunk(self, schema: &Schema) -> Option<Chunk>
        requires { self.payload ≡ chunk_bytes schema.now.fields self.events }
        // What is handed back without decoding is the chunk that its payload says.
        ensures { IfSome result (λ chunk. chunk_of schema.now.fields self.payload ≡ Some chunk) }
    {
        if !is_chunk(schema.fields(), &self.events) {
            return None;
        }
        Some(Chunk::of_events(self.events))
    }
}
