ghost use Rattle.std.specs.Prelude.{◌≡◌, ◌≤◌, ◌++◌, List, Some, IfOk, OnOk, OnErr, length};
ghost use Rattle.rg_bytes.specs.Keeps.{Keeps};
ghost use Rattle.rg_event.specs.declared.event.Event.{Event as TheEvent};
ghost use Rattle.rg_event.specs.declared.schema.Field.{Field};
ghost use Rattle.rg_chunk.specs.Chunks.{chunk_of};
ghost use Rattle.rg_chunk.specs.Heads.{IsHead, Reads, layout_said, tag_of, is_count, stamp_at, stamp_bytes, head_at, head_of, head_bytes, head_for, first_stamp, last_stamp, is_head_of as head_test};

use rg_bytes::{ByteReader, Memory, put_u8, put_u32, put_u64};
use rg_event::{Event, EventFault, MAX_CHUNK_EVENTS};

/// How the events of a chunk are written.
#[derive(Clone, Copy, Debug, PartialEq, Eq)]
pub enum Layout {
    /// One after another, with the tag 0x43.
    Rows,
    /// Column by column, with the tag 0x4b.
    Columns,
}

impl Layout {
    /// The layout with this tag, if there is one.
    fn from_tag(tag: u8) -> Option<Layout>
        ensures { result ≡ layout_said tag }
    {
        match tag {
            0x43 => Some(Layout::Rows),
            0x4b => Some(Layout::Columns),
            _ => None,
        }
    }

    fn tag(self) -> u8
        ensures { result ≡ tag_of self }
    {
        match self {
            Layout::Rows => 0x43,
            Layout::Columns => 0x4b,
        }
    }
}

/// What the first 37 bytes of a chunk say, besides how its events are written.
#[derive(Clone, Copy, Debug, PartialEq, Eq)]
pub struct ChunkHead {
    /// How many events there are, from 1 to 4,096.
    pub count: u32,
    /// The offset of the first event.
    pub first_offset: u64,
    /// The time of the first event, in milliseconds.
    pub first_time: u64,
    /// The offset of the last event.
    pub last_offset: u64,
    /// The time of the last event, in milliseconds.
    pub last_time: u64,
}

/// Reads the head that a payload begins with. It answers `None` exactly where the payload has fewer than 37 bytes,
/// the tag is unknown or the count isn't 1 to 4,096. The inside of the chunk is not looked at.
pub fn read_head(payload: &[u8]) -> Option<ChunkHead>
    // The head is told exactly where the payload has one.
    ensures head { result ≡ head_of payload.now }

    // The head of a chunk is that of its events.
    ensures of_chunk { (fields : List Field) (events : List TheEvent) → chunk_of fields payload.now ≡ Some events → result ≡ Some (head_for events) }
{
    match take_head(&mut ByteReader::new(payload)) {
        Ok((_, head)) => Some(head),
        Err(_) => None,
    }
}

/// Takes a head and how the events behind it are written. A refusal may leave the reader in mid-way.
pub(crate) fn take_head(from: &mut ByteReader<'_>) -> Result<(Layout, ChunkHead), EventFault>
    ensures agrees { Reads (head_at from.old) result from.new }
    ensures ok { IfOk result (λ said. from.old ≡ head_bytes said.0 said.1 ++ from.new) }
    ensures legal { IfOk result (λ said. IsHead said.1) }
{
    let tag = from.u8()?;
    let count = from.u32()?;
    let (first_offset, first_time) = match take_stamp(from) {
        Ok(first) => first,
        Err(fault) => return Err(fault),
    };
    let (last_offset, last_time) = match take_stamp(from) {
        Ok(last) => last,
        Err(fault) => return Err(fault),
    };
    let layout = match Layout::from_tag(tag) {
        Some(layout) => layout,
        None => return Err(EventFault::BadValue(0)),
    };
    if !is_count_of_chunk(count) {
        return Err(EventFault::BadValue(0));
    }
    let head = ChunkHead {
        count,
        first_offset,
        first_time,
        last_offset,
        last_time,
    };
    Ok((layout, head))
}

/// Whether so many events make a chunk: 1 to 4,096.
fn is_count_of_chunk(count: u32) -> bool
    ensures { result ≡ is_count count }
{
    1 <= count && count <= MAX_CHUNK_EVENTS
}

/// Takes the offset and the time of an event.
fn take_stamp(from: &mut ByteReader<'_>) -> Result<(u64, u64), EventFault>
    ensures agrees { Reads (stamp_at from.old) result from.new }
    ensures ok { IfOk result (λ stamp. from.old ≡ stamp_bytes stamp ++ from.new) }
{
    let offset = from.u64()?;
    let time = from.u64()?;
    Ok((offset, time))
}

/// Writes a head at the end. An error leaves it begun.
pub(crate) fn put_head(layout: Layout, head: &ChunkHead, out: &mut Vec<u8>) -> Result<(), Memory>
    ensures ok { OnOk result (out.new.items ≡ out.old.items ++ head_bytes layout head.now) }
    ensures err { OnErr result (Keeps out.old.items out.new.items) }
{
    put_u8(out, layout.tag())?;
    put_u32(out, head.count)?;
    put_stamp(head.first_offset, head.first_time, out)?;
    put_stamp(head.last_offset, head.last_time, out)
}

/// Writes an offset and a time at the end. An error leaves them begun.
fn put_stamp(offset: u64, time: u64, out: &mut Vec<u8>) -> Result<(), Memory>
    ensures ok { OnOk result (out.new.items ≡ out.old.items ++ stamp_bytes (offset, time)) }
    ensures err { OnErr result (Keeps out.old.items out.new.items) }
{
    put_u64(out, offset)?;
    put_u64(out, time)
}

/// The head of a chunk of these events.
pub(crate) fn head_of_events(events: &[Event]) -> ChunkHead
    requires { length events.now ≤ 4096 }
    ensures { result ≡ head_for events.now }
{
    let (first_offset, first_time) = first_of(events);
    let (last_offset, last_time) = last_of(events);
    ChunkHead {
        count: events.len() as u32,
        first_offset,
        first_time,
        last_offset,
        last_time,
    }
}

/// Whether a head says what these events do.
pub(crate) fn is_head_of(head: &ChunkHead, events: &[Event]) -> bool
    requires { length events.now ≤ 4096 }
    ensures { result ≡ head_test head.now events.now }
{
    let own = head_of_events(events);
    head.count == own.count
        && head.first_offset == own.first_offset
        && head.first_time == own.first_time
        && head.last_offset == own.last_offset
        && head.last_time == own.last_time
}

/// The offset and the time of the first event, and 0 where there is none.
fn first_of(events: &[Event]) -> (u64, u64)
    ensures { result ≡ first_stamp events.now }
{
    match events {
        [] => (0, 0),
        [first, ..] => (first.offset, first.time),
    }
}

/// The offset and the time of the last event, and 0 where there is none.
#[tactic(auto, using(crate::proofs::Lasts::last_at, crate::proofs::Lasts::last_none))]
fn last_of(events: &[Event]) -> (u64, u64)
    ensures { result ≡ last_stamp events.now }
{
    if events.is_empty() {
        return (0, 0);
    }
    let last = &events[events.len() - 1];
    (last.offset, last.time)
}
