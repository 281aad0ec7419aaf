ghost use Rattle.std.specs.Prelude.{◌≡◌, ◌≤◌, ◌^◌, ℕ, List, Some, None, take, IfOk, IfSome, OnOk, OnErr, IsErrOf};
ghost use Rattle.rg_event.specs.Shapes.{Shape, IsSchema};
ghost use Rattle.rg_growth.specs.Payloads.{growth_of};
ghost use Rattle.rg_log.specs.Entries.{unread, count_of, entry_of, with_entry, entry_after, events_by};
ghost use Rattle.rg_log.specs.Payloads.{schema_payload};

use crate::summary::LogSummary;
use rg_bytes::Memory;
use rg_chunk::{Chunk, ChunkFault, ChunkHead, read_head};
use rg_event::{Schema, SchemaFault};
use rg_growth::{Growth, GrowthFault};
use std::alloc::Global;

/// What a frame of a log is, by the head of its payload.
#[derive(Debug, Drop)]
pub enum Entry {
    /// The first one: the schema.
    Schema(Schema),
    /// A further one: a chunk of events, with this head.
    Chunk(ChunkHead),
    /// A further one: how the schema in force grows.
    Growth(Growth),
}

/// Why a frame isn't taken.
#[derive(Clone, Copy, Debug, PartialEq, Eq)]
pub enum EntryFault {
    /// Its payload isn't what its place asks for, or doesn't continue the frames before it.
    Bad,
    /// Memory ran out.
    Memory,
}

impl Entry {
    /// How many events it has.
    pub fn count(&self) -> u32
        ensures { result ≡ count_of self.now }
    {
        match self {
            Entry::Schema(_) => 0,
            Entry::Chunk(head) => head.count,
            Entry::Growth(_) => 0,
        }
    }
}

impl From<Memory> for EntryFault {
    ghost use Rattle.std.specs.Prelude.{◌≡◌};
    ghost use Rattle.rg_log.specs.declared.entry.EntryFault.TheVariants.{Memory};

    ghost from_gives = { λ _ fault. fault ≡ Memory };

    fn from(_memory: Memory) -> EntryFault {
        EntryFault::Memory
    }
}

/// What the frames of a log up to a place say.
#[derive(Debug, Drop)]
pub struct LogSoFar {
    /// The schema in force, once the first frame was read.
    pub schema: Option<Schema>,
    /// What the heads of the chunks come to.
    pub summary: LogSummary,
}

/// Reads the schema that a payload says. `Bad` comes exactly where it says none.
fn read_schema(alloc: Global, payload: &[u8]) -> Result<Schema, EntryFault>
    ensures is { IfOk result (λ schema. IsSchema schema × (payload.now ≡ schema_payload schema)) }
    ensures bad { IsErrOf result EntryFault.Bad → (shape : Shape) → IsSchema shape → payload.now ≡ schema_payload shape → ⊥ }
{
    let text = match payload {
        [tag, text @ ..] => {
            if *tag != 0x53 {
                return Err(EntryFault::Bad);
            }
            text
        }
        [] => return Err(EntryFault::Bad),
    };
    match Schema::parse(alloc, text) {
        Ok(schema) => Ok(schema),
        Err(SchemaFault::Bad) => Err(EntryFault::Bad),
        Err(SchemaFault::Memory) => Err(EntryFault::Memory),
    }
}

/// Reads how a schema grows by a payload. `Bad` comes exactly where it says no growth of it.
fn read_growth(alloc: Global, from: &Schema, payload: &[u8]) -> Result<Growth, EntryFault>
    ensures is { IfOk result (λ growth. growth_of from.now payload.now ≡ Some growth) }
    ensures bad { IsErrOf result EntryFault.Bad → growth_of from.now payload.now ≡ None }
{
    match Growth::decode(alloc, from, payload) {
        Ok(growth) => Ok(growth),
        Err(GrowthFault::BadGrowth) => Err(EntryFault::Bad),
        Err(GrowthFault::Memory) => Err(EntryFault::Memory),
    }
}

impl LogSoFar {
    /// Before the first frame.
    pub fn new() -> LogSoFar
        ensures { result ≡ unread }
    {
        LogSoFar {
            schema: None,
            summary: LogSummary::new(),
        }
    }

    /// The chunk that the next frame is, by the first bytes of its payload: 37 of them, or all. None comes where no schema is
    /// in force yet, or these bytes are no head of a chunk. It takes no memory.
    pub fn chunk(&self, front: &[u8]) -> Option<Entry>
        ensures { IfSome result (λ entry. (payload : List ℕ) → take 37 front.now ≡ take 37 payload → entry_of self.now.schema payload ≡ Some entry) }
    {
        match (&self.schema, read_head(front)) {
            (Some(_), Some(head)) => Some(Entry::Chunk(head)),
            _ => None,
        }
    }

    /// What the next frame is, by all of its payload, or, of a chunk, by the first 37 bytes. `Bad` comes exactly where it is
    /// no frame that its place asks for.
    #[tactic(auto, using(crate::proofs::Entries::schema_read, crate::proofs::Entries::no_schema))]
    pub fn entry(&self, alloc: Global, payload: &[u8]) -> Result<Entry, EntryFault>
        // It tells what a frame is by its payload and the schema in force.
        ensures is { IfOk result (λ entry. entry_of self.now.schema payload.now ≡ Some entry) }
        ensures bad { IsErrOf result EntryFault.Bad → entry_of self.now.schema payload.now ≡ None }
    {
        let schema = match &self.schema {
            Some(schema) => schema,
            None => {
                return match read_schema(alloc, payload) {
                    Ok(schema) => Ok(Entry::Schema(schema)),
                    Err(fault) => Err(fault),
                };
            }
        };
        if let Some(head) = read_head(payload) {
            return Ok(Entry::Chunk(head));
        }
        match read_growth(alloc, schema, payload) {
            Ok(growth) => Ok(Entry::Growth(growth)),
            Err(fault) => Err(fault),
        }
    }

    /// Goes on behind a frame. `Bad` comes exactly where it doesn't continue those before it. A fault leaves all as it was.
    pub fn pass(&mut self, alloc: Global, entry: &Entry) -> Result<(), EntryFault>
        // A frame is passed exactly where it may follow those before it.
        ensures ok { OnOk result (with_entry self.old entry.now ≡ Some self.new) }
        ensures bad { IsErrOf result EntryFault.Bad → with_entry self.old entry.now ≡ None }
        ensures few { self.old.summary.count ≤ 2 ^ 40 → self.new.summary.count ≤ 2 ^ 40 }
        ensures err { OnErr result (self.new ≡ self.old) }
    {
        match entry {
            Entry::Schema(schema) => {
                let known = match schema.copy(alloc) {
                    Ok(known) => known,
                    Err(_) => return Err(EntryFault::Memory),
                };
                self.schema = Some(known);
                Ok(())
            }
            Entry::Chunk(head) => match self.summary.with(*head) {
                Some(summary) => {
                    self.summary = summary;
                    Ok(())
                }
                None => Err(EntryFault::Bad),
            },
            Entry::Growth(growth) => {
                let to = match growth.to.copy(alloc) {
                    Ok(to) => to,
                    Err(_) => return Err(EntryFault::Memory),
                };
                self.schema = Some(to);
                Ok(())
            }
        }
    }

    /// The events of the next frame, read whole. `Bad` comes exactly where it is no chunk of the schema in force.
    pub fn events(&self, alloc: Global, payload: &[u8]) -> Result<Chunk, EntryFault>
        // The events of a chunk, and none exactly where the payload is no chunk of the schema in force.
        ensures is { IfOk result (λ chunk. events_by self.now.schema payload.now ≡ Some chunk) }
        ensures bad { IsErrOf result EntryFault.Bad → events_by self.now.schema payload.now ≡ None }
    {
        let schema = match &self.schema {
            Some(schema) => schema,
            None => return Err(EntryFault::Bad),
        };
        match Chunk::decode(alloc, schema, payload) {
            Ok(chunk) => Ok(chunk),
            Err(ChunkFault::BadChunk) => Err(EntryFault::Bad),
            Err(ChunkFault::Memory) => Err(EntryFault::Memory),
        }
    }
}
