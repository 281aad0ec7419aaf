//! What a log is, which events it holds, and what a frame of it is.
//!
//! The definitions are in `specs/`: `Stages` says what the frames behind the first one may be, `Log` when the bytes of a file
//! are a legal log with some events, at whose end a schema is in force, `Reading` gives these events as a function of the
//! bytes, `Entries` judges each frame by the frames in front of it, and `Spots` says which place and index name which event.
//! Each law is a function without arguments whose clauses state it; none of them does anything when it is called. The
//! layers above learn from them what an append leaves of the events and of the spots.
#![tactic(auto)]

ghost use Rattle.std.specs.Prelude.{◌≡◌, ◌⊎◌, ◌↔◌, ◌≤◌, ◌<◌, ◌^◌, ℕ, List, [], ◌∷◌, ◌++◌, length, take, Option, Some, None, option_map, All, IsSome, ◌+◌};
ghost use Rattle.rg_event.specs.Codec.{IsEventOf};
ghost use Rattle.rg_event.specs.Shapes.{Shape, IsSchema};
ghost use Rattle.rg_event.specs.declared.event.Event.{Event};
ghost use Rattle.rg_event.specs.Rising.{IsRising, next_offset, last_time};
ghost use Rattle.rg_event.specs.declared.value.Value.{Value};
ghost use Rattle.rg_growth.specs.Filling.{Given, IsFilled, growth_to};
ghost use Rattle.rg_growth.specs.Payloads.{IsGrowth, growth_bytes, growth_of};
ghost use Rattle.rg_growth.specs.declared.growth.Growth.{Growth};
ghost use Rattle.rg_past.specs.declared.past.Spot.{Spot};
ghost use Rattle.rg_frame.specs.Bytes.{IsByte};
ghost use Rattle.rg_frame.specs.Frames.{frames, HasPayloads, IsDamaged};
ghost use Rattle.rg_frame.specs.Steps.{Grows, Grown};
ghost use Rattle.rg_chunk.specs.Extended.{all_extended};
ghost use Rattle.rg_chunk.specs.Heads.{head_of};
ghost use Rattle.rg_chunk.specs.declared.head.ChunkHead.{ChunkHead};
ghost use Rattle.rg_log.specs.Entries.{nothing, told_by, summary_of, unread, behind, count_of, shape_behind, further_entry, entry_after, entries_after};
ghost use Rattle.rg_log.specs.Filled.{HasEventsFor, IsOfSchemaFor};
ghost use Rattle.rg_log.specs.Log.{schema_payload, joined, IsChunkOf, IsLegalLog, HasEvents, HasLegalLog, HasFrame, IsInForce};
ghost use Rattle.rg_log.specs.Plain.{IsPlainLog, HasPlainEvents};
ghost use Rattle.rg_log.specs.Reading.{stages_in, events_of, next_of};
ghost use Rattle.rg_log.specs.Spots.{IsInChunk, SpotAt, SpotIn, NamesEvent, NamedByHeads};
ghost use Rattle.rg_log.specs.Stages.{Stage, logged, plain, HasStages};
ghost use Rattle.rg_log.specs.declared.entry.Entry.{Entry as TheEntry};
ghost use Rattle.rg_log.specs.declared.entry.LogSoFar.{LogSoFar as TheLogSoFar};
ghost use Rattle.rg_log.specs.declared.summary.LogSummary.{LogSummary as TheLogSummary};

mod entry;
mod summary;

pub use entry::{Entry, EntryFault, LogSoFar};
use rg_frame::law_frames;
pub use summary::LogSummary;

/// A file has one list of stages, so one list of events, all of them of the schema in force at its end, and with a frame one
/// such schema. A log without a growth is what it was before schemas grew, with the same events.
pub fn law_stages()
    // A file has one list of stages: chunks and growths.
    ensures one { (shape other : Shape) (stages others : List Stage) (bytes : List ℕ) → IsLegalLog shape stages bytes → IsLegalLog other others bytes → stages ≡ others }
    ensures one_schema { (shape other : Shape) (stages others : List Stage) (bytes : List ℕ) → HasFrame bytes → IsLegalLog shape stages bytes → IsLegalLog other others bytes → shape ≡ other }
    ensures one_list { (shape other : Shape) (events others : List Event) (bytes : List ℕ) → HasEvents shape events bytes → HasEvents other others bytes → events ≡ others }

    // All events are of the schema in force at the log's end.
    ensures of { (shape : Shape) (events : List Event) (bytes : List ℕ) → HasEvents shape events bytes → All (IsEventOf shape.fields) events }

    // A log without a growth has the same events as before schemas grew.
    ensures as_before { (shape : Shape) (chunks : List (List Event)) (bytes : List ℕ) → IsPlainLog shape chunks bytes ↔ IsLegalLog shape (plain chunks) bytes }
    ensures same_events { (chunks : List (List Event)) → logged (plain chunks) ≡ joined chunks }
    ensures events_before { (shape : Shape) (events : List Event) (bytes : List ℕ) → HasPlainEvents shape events bytes → HasEvents shape events bytes }
{
    law_frames();
}

/// The stages and the events of a file are those that `stages_in` and `events_of` read. Where the frame list is undefined,
/// there are no events to read.
pub fn law_events()
    ensures stages { (shape : Shape) (stages : List Stage) (bytes : List ℕ) → IsLegalLog shape stages bytes → stages_in bytes ≡ Some stages }

    // The events are a function of the file's bytes.
    ensures reads { (shape : Shape) (events : List Event) (bytes : List ℕ) → HasEvents shape events bytes → events_of bytes ≡ Some events }
    ensures none { (bytes : List ℕ) → HasPayloads [] bytes → events_of bytes ≡ Some [] }
    ensures damaged { (place : ℕ) (bytes : List ℕ) → IsDamaged place bytes → events_of bytes ≡ None }
    ensures next { (shape : Shape) (events : List Event) (bytes : List ℕ) → HasEvents shape events bytes → next_of bytes ≡ Some (next_offset events) }

    // In a file, whose numbers are bytes, there are events to read exactly where the log is legal, and they are its own.
    ensures exact { (bytes : List ℕ) → All IsByte bytes → IsSome (events_of bytes) ↔ HasLegalLog bytes }
    ensures legal { (bytes : List ℕ) (events : List Event) → All IsByte bytes → events_of bytes ≡ Some events →
        (HasPayloads [] bytes × (events ≡ [])) ⊎ ((shape : Shape) × IsInForce shape bytes × HasEvents shape events bytes) }
{
    law_frames();
}

/// Further values change neither the number of events nor their order.
pub fn law_extended()
    // Further values change neither the number of events nor their order.
    ensures count { (values : List Value) (events : List Event) → length (all_extended values events) ≡ length events }
    ensures rising { (values : List Value) (events : List Event) → IsRising events → IsRising (all_extended values events) }
    ensures next { (values : List Value) (events : List Event) → next_offset (all_extended values events) ≡ next_offset events }
    ensures time { (values : List Value) (events : List Event) → last_time (all_extended values events) ≡ last_time events }
{}

/// A log with a frame has one schema in force at its end: the one that it begins with, until a growth comes. A chunk leaves
/// it in force, and its events come behind the old ones; a growth puts its values behind those of each event.
pub fn law_log()
    // A log with a frame has one schema in force at its end.
    ensures one { (shape other : Shape) (bytes : List ℕ) → IsInForce shape bytes → IsInForce other bytes → shape ≡ other }
    ensures of_log { (shape : Shape) (events : List Event) (bytes : List ℕ) → HasFrame bytes → HasEvents shape events bytes → IsInForce shape bytes }

    // The schema's frame comes behind a log without a frame.
    ensures begins { (shape : Shape) (old new : List ℕ) → IsSchema shape → HasPayloads [] old → Grows (schema_payload shape) old new →
        (HasPayloads [] new ⊎ IsInForce shape new) × HasEvents shape [] new }

    // The schema's frame behind a log without one gives a log without events.
    ensures begun { (shape : Shape) (old new : List ℕ) → IsSchema shape → HasPayloads [] old → Grown (schema_payload shape) old new → IsInForce shape new × HasEvents shape [] new }

    // A chunk comes behind a log that its events continue.
    ensures adds { (shape : Shape) (events chunk : List Event) (payload old new : List ℕ) → IsInForce shape old → HasEvents shape events old → IsChunkOf shape payload chunk →
        IsRising (events ++ chunk) → length (events ++ chunk) ≤ 2 ^ 40 → Grows payload old new → IsInForce shape new × (HasEvents shape events new ⊎ HasEvents shape (events ++ chunk) new) }

    // A chunk leaves the schema in force, and its events come behind the others.
    ensures added { (shape : Shape) (events chunk : List Event) (payload old new : List ℕ) → IsInForce shape old → HasEvents shape events old → IsChunkOf shape payload chunk →
        IsRising (events ++ chunk) → length (events ++ chunk) ≤ 2 ^ 40 → Grown payload old new → IsInForce shape new × HasEvents shape (events ++ chunk) new }

    // A growth comes.
    ensures grows { (shape : Shape) (growth : Growth) (events : List Event) (payload old new : List ℕ) → IsInForce shape old → HasEvents shape events old → IsGrowth shape payload growth →
        Grows payload old new → (IsInForce shape new × HasEvents shape events new) ⊎ (IsInForce growth.to new × HasEvents growth.to (all_extended growth.values events) new) }

    // A growth gives its own schema, and puts its values behind those of each event.
    ensures grown { (shape : Shape) (growth : Growth) (events : List Event) (payload old new : List ℕ) → IsInForce shape old → HasEvents shape events old → IsGrowth shape payload growth →
        Grown payload old new → IsInForce growth.to new × HasEvents growth.to (all_extended growth.values events) new }
{
    law_frames();
}

/// A log has one list of events for a schema and its defaults, all of them of the schema; where the schema is in force they
/// are the log's own. They stay the same when the growth by the defaults comes behind the log: before it they have the defaults
/// behind their own values, and then those are their own.
pub fn law_filled()
    // Where the schema is in force, a log's events for it are its own.
    ensures own { (shape : Shape) (defaults : Given) (events : List Event) (bytes : List ℕ) → IsInForce shape bytes → HasEventsFor shape defaults events bytes → HasEvents shape events bytes }
    ensures none { (shape : Shape) (defaults : Given) (events : List Event) (bytes : List ℕ) → HasPayloads [] bytes → HasEventsFor shape defaults events bytes → events ≡ [] }

    // A log has one list of events for a schema and its defaults, all of that schema.
    ensures one { (shape : Shape) (defaults : Given) (events others : List Event) (bytes : List ℕ) → HasEventsFor shape defaults events bytes → HasEventsFor shape defaults others bytes → events ≡ others }
    ensures of { (shape : Shape) (defaults : Given) (events : List Event) (bytes : List ℕ) → HasEventsFor shape defaults events bytes → All (IsEventOf shape.fields) events }
    ensures rising { (shape : Shape) (defaults : Given) (events : List Event) (bytes : List ℕ) → HasEventsFor shape defaults events bytes → IsRising events × (length events ≤ 2 ^ 40) }
    ensures legal { (shape : Shape) (defaults : Given) (bytes : List ℕ) → IsSchema shape → HasLegalLog bytes → IsOfSchemaFor shape defaults bytes → (events : List Event) × HasEventsFor shape defaults events bytes }
    ensures next { (shape : Shape) (defaults : Given) (events : List Event) (bytes : List ℕ) → HasEventsFor shape defaults events bytes → next_of bytes ≡ Some (next_offset events) }

    // The growth comes behind the log.
    ensures grows { (from shape : Shape) (defaults : Given) (values : List Value) (events : List Event) (old new : List ℕ) → IsFilled from shape defaults values → IsInForce from old →
        HasEventsFor shape defaults events old → Grows (growth_bytes (growth_to shape values)) old new → HasEventsFor shape defaults events new }

    // The growth by these defaults changes none of these events.
    ensures grown { (from shape : Shape) (defaults : Given) (values : List Value) (events : List Event) (old new : List ℕ) → IsFilled from shape defaults values → IsInForce from old →
        HasEventsFor shape defaults events old → Grown (growth_bytes (growth_to shape values)) old new → HasEvents shape events new }
    ensures of_schema { (from shape : Shape) (defaults : Given) (values : List Value) (old new : List ℕ) → IsFilled from shape defaults values → IsInForce from old →
        Grows (growth_bytes (growth_to shape values)) old new → IsOfSchemaFor shape defaults new }
{
    law_frames();
}

/// One step judges each frame of a log. Before the first frame it takes the frame of a schema, and no other; behind it, it
/// takes a chunk exactly where the head of the payload may follow the chunks before it, and counts its events, and a growth of
/// the schema in force, which is the other schema from there on. So it takes each frame of a legal log, and then says the
/// schema in force and what the events come to.
pub fn law_entries()
    // The first frame is that of a schema, and no other frame is.
    ensures first { (shape : Shape) → IsSchema shape → entry_after unread (schema_payload shape) ≡ Some (behind shape nothing) }
    ensures only_first { (payload : List ℕ) (next : TheLogSoFar) → entry_after unread payload ≡ Some next → (shape : Shape) × IsSchema shape × (payload ≡ schema_payload shape) × (next ≡ behind shape nothing) }

    // A chunk is taken exactly where its head may follow the chunks before it.
    ensures chunk { (shape : Shape) (summary : TheLogSummary) (payload : List ℕ) (head : ChunkHead) → head_of payload ≡ Some head →
        entry_after (behind shape summary) payload ≡ option_map (behind shape) (told_by summary (Some head)) }

    // A growth of the schema in force is taken, and moves that schema.
    ensures growth { (shape : Shape) (summary : TheLogSummary) (payload : List ℕ) (growth : Growth) → IsGrowth shape payload growth → entry_after (behind shape summary) payload ≡ Some (behind growth.to summary) }
    ensures neither { (shape : Shape) (summary : TheLogSummary) (payload : List ℕ) → head_of payload ≡ None → growth_of shape payload ≡ None → entry_after (behind shape summary) payload ≡ None }
    ensures front { (shape : Shape) (a b : List ℕ) (head : ChunkHead) → take 37 a ≡ take 37 b → further_entry shape a ≡ Some (Entry.Chunk head) → further_entry shape b ≡ Some (Entry.Chunk head) }
    ensures counted { (shape : Shape) (summary : TheLogSummary) (payload : List ℕ) (next : TheLogSoFar) → entry_after (behind shape summary) payload ≡ Some next →
        (entry : TheEntry) × (further_entry shape payload ≡ Some entry) × (next.summary.count ≡ summary.count + count_of entry) × (next.schema ≡ Some (shape_behind shape entry)) }

    // Each frame of a legal log is taken, and the schema and the events come out.
    ensures legal { (shape : Shape) (payloads : List (List ℕ)) (stages : List Stage) → HasStages shape payloads stages → 1 ≤ length payloads → IsRising (logged stages) →
        length (logged stages) ≤ 2 ^ 40 → entries_after unread payloads ≡ Some (behind shape (summary_of (logged stages))) }
{}

/// A spot stays what it is when any frame comes behind a log, and the heads of the chunks and the growths alone tell which
/// spots of a legal log are spelled.
pub fn law_spots()
    // A spot that is spelled stays so behind any frame.
    ensures stays { (payloads : List (List ℕ)) (payload : List ℕ) (spot : Spot) → SpotAt payloads spot → SpotAt (payloads ++ payload ∷ []) spot }
    ensures stays_in { (payload old new : List ℕ) (spot : Spot) → Grows payload old new → SpotIn old spot → SpotIn new spot }

    // Without a frame no spot is spelled: so each one stays when the schema's frame comes.
    ensures none { (spot : Spot) → SpotAt [] spot → ⊥ }
    ensures none_in { (bytes : List ℕ) (spot : Spot) → HasPayloads [] bytes → SpotIn bytes spot → ⊥ }

    // A spelled spot's number is at most the count; each event has a spelling, and so has the end.
    ensures within { (shape : Shape) (payloads : List (List ℕ)) (stages : List Stage) (spot : Spot) → HasStages shape payloads stages → SpotAt payloads spot → spot.number ≤ length (logged stages) }
    ensures within_in { (shape : Shape) (events : List Event) (bytes : List ℕ) (spot : Spot) → HasEvents shape events bytes → SpotIn bytes spot → spot.number ≤ length events }
    ensures each { (shape : Shape) (payloads : List (List ℕ)) (stages : List Stage) (number : ℕ) → HasStages shape payloads stages → 1 ≤ length payloads →
        number ≤ length (logged stages) → (spot : Spot) × SpotAt payloads spot × (spot.number ≡ number) }

    // The event that a spot in a chunk names.
    ensures event { (shape : Shape) (payloads : List (List ℕ)) (stages : List Stage) (spot : Spot) → HasStages shape payloads stages →
        (at : IsInChunk payloads spot) → spot.index < length at.chunk → NamesEvent payloads stages spot at }
    ensures one_number { (payloads : List (List ℕ)) (spot other : Spot) → SpotAt payloads spot → SpotAt payloads other → spot.place ≡ other.place → spot.index ≡ other.index → spot.number ≡ other.number }

    // The end: where the frames end, whatever the last one is; and behind the last event of the last chunk.
    ensures end { (shape : Shape) (payloads : List (List ℕ)) (stages : List Stage) (spot : Spot) → HasStages shape payloads stages → 1 ≤ length payloads →
        spot.place ≡ length (frames payloads) → spot.index ≡ 0 → spot.number ≡ length (logged stages) → SpotAt payloads spot }
    ensures end_of_last { (shape : Shape) (payloads : List (List ℕ)) (payload : List ℕ) (stages : List Stage) (chunk : List Event) (spot : Spot) → HasStages shape payloads stages →
        1 ≤ length payloads → IsChunkOf shape payload chunk → spot.place ≡ length (frames payloads) → spot.index ≡ length chunk →
        spot.number ≡ length (logged stages ++ chunk) → SpotAt (payloads ++ payload ∷ []) spot }

    // By the heads and the growths alone.
    ensures named { (shape : Shape) (payloads : List (List ℕ)) (stages : List Stage) (spot : Spot) → HasStages shape payloads stages → NamedByHeads payloads spot ↔ SpotAt payloads spot }

    // A spot of a legal log is named by heads and growths exactly where it is spelled.
    ensures named_in { (shape : Shape) (events : List Event) (payloads : List (List ℕ)) (bytes : List ℕ) (spot : Spot) → HasEvents shape events bytes →
        HasPayloads payloads bytes → NamedByHeads payloads spot ↔ SpotIn bytes spot }
{
    law_frames();
}
