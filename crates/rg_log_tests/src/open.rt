ghost use Rattle.std.specs.Prelude.{◌≤◌, length};

use crate::chunk::ends_with;
use crate::events::{Item, event_of, schema_of};
use crate::payments::{SCHEMA, TWO_BY_COLUMNS};
use crate::row::{Does, ROW, Row, assert_rows};
use rg_bytes::Memory;
use rg_chunk::{OpenChunk, Written};
use rg_event::Schema;
use std::alloc::Global;
use std::mem;
use std::test::Fail;

/// What is done to an open chunk of payments, or what it says.
#[derive(Clone, Copy)]
pub(crate) enum Fill<'a> {
    /// An event of this offset, time and values is added.
    Push(u64, u64, &'a [Item<'a>]),
    /// So many events of these values are, from the offset 0 on.
    PushEach(u64, &'a [Item<'a>]),
    /// Whether it is full.
    Full(bool),
    /// How many events it has.
    Count(u32),
    /// The offset of the event of an index, where there is one.
    Offset(u32, Option<u64>),
    /// It is cleared.
    Clear,
    /// It is written as these bytes, behind what stands there.
    Writes(&'a [u8]),
    /// It is written as so many bytes, which are read as a chunk whose last index and offset are this.
    Reads(usize, u32),
    /// It is written, emptied, and so many events are handed back without decoding; none where a chunk has no such.
    HandsBack(u32),
}

/// Whether there is room for the event.
fn pushes(
    alloc: Global,
    open: &mut OpenChunk,
    offset: u64,
    time: u64,
    items: &[Item<'_>],
) -> Result<bool, Memory> {
    if open.is_full() {
        return Ok(false);
    }
    let event = event_of(alloc, offset, time, items)?;
    open.push(event);
    Ok(true)
}

fn pushes_each(
    alloc: Global,
    open: &mut OpenChunk,
    count: u64,
    items: &[Item<'_>],
) -> Result<bool, Memory> {
    for offset in 0..count {
        if !pushes(alloc, open, offset, 7, items)? {
            return Ok(false);
        }
    }
    Ok(true)
}

/// Writes it behind an x; no memory where it is empty.
fn written(alloc: Global, open: &OpenChunk) -> Result<Vec<u8>, Memory> {
    let schema = schema_of(alloc, SCHEMA)?;
    let mut out = b"x".to_vec(alloc)?;
    let is_written = open.count() > 0 && open.encode(&schema, &mut out).is_ok();
    drop(schema);
    if is_written { Ok(out) } else { Err(Memory) }
}

/// Whether it is written so.
fn writes(alloc: Global, open: &OpenChunk, want: &[u8]) -> Result<bool, Memory> {
    let out = written(alloc, open)?;
    let is_so = out.first() == Some(&b'x') && out.get(1..) == Some(want);
    drop(out);
    Ok(is_so)
}

/// Whether it is written as so many bytes, which are read as a chunk that ends so.
fn reads(alloc: Global, open: &OpenChunk, length: usize, last: u32) -> Result<bool, Memory> {
    let out = written(alloc, open)?;
    let payload = out.get(1..).unwrap_or(b"");
    let is_so = payload.len() == length && ends_with(alloc, payload, last);
    drop(out);
    Ok(is_so)
}

/// Empties it, and says how many events are handed back of what was written of it; 0 where none are.
fn handed_back(alloc: Global, open: &mut OpenChunk) -> Result<u32, Memory> {
    if open.count() == 0 {
        return Ok(0);
    }
    let schema = schema_of(alloc, SCHEMA)?;
    let count = match handed_of(alloc, open, &schema) {
        Ok(count) => Ok(count),
        Err(_) => Err(Memory),
    };
    drop(schema);
    count
}

fn handed_of(alloc: Global, open: &mut OpenChunk, schema: &Schema) -> Result<u32, Memory>
    requires { 1 ≤ length open.old.events }
{
    let mut payload = Vec::new(alloc);
    open.encode(schema, &mut payload)?;
    let room = open.emptied(alloc)?;
    let closed = mem::replace(open, room);
    match Written::new(closed, payload).into_chunk(schema) {
        Some(chunk) => Ok(chunk.count()),
        None => Ok(0),
    }
}

fn offset_at(open: &OpenChunk, index: u32) -> Option<u64> {
    match open.get(index) {
        Some(event) => Some(event.offset),
        None => None,
    }
}

/// Whether a step goes so.
fn goes(alloc: Global, open: &mut OpenChunk, step: &Fill<'_>) -> Result<bool, Memory> {
    match step {
        Fill::Push(offset, time, items) => pushes(alloc, open, *offset, *time, items),
        Fill::PushEach(count, items) => pushes_each(alloc, open, *count, items),
        Fill::Full(is_full) => Ok(open.is_full() == *is_full),
        Fill::Count(count) => Ok(open.count() == *count),
        Fill::Offset(index, offset) => Ok(offset_at(open, *index) == *offset),
        Fill::Clear => {
            open.clear();
            Ok(true)
        }
        Fill::Writes(bytes) => writes(alloc, open, bytes),
        Fill::Reads(length, last) => reads(alloc, open, *length, *last),
        Fill::HandsBack(count) => Ok(handed_back(alloc, open)? == *count),
    }
}

fn first_of(
    alloc: Global,
    open: &mut OpenChunk,
    steps: &[Fill<'_>],
) -> Result<Option<usize>, Memory> {
    let mut number = 0usize;
    for step in steps {
        if !goes(alloc, open, step)? {
            return Ok(Some(number));
        }
        number = number.saturating_add(1);
    }
    Ok(None)
}

/// The number of the first step that goes otherwise, if one does, of an open chunk with room for 1 to 4,096.
pub(crate) fn wrong_in(
    alloc: Global,
    cap: u32,
    steps: &[Fill<'_>],
) -> Result<Option<usize>, Memory> {
    if cap == 0 || cap > 4096 {
        return Err(Memory);
    }
    let mut open = OpenChunk::new(alloc, cap)?;
    let wrong = first_of(alloc, &mut open, steps);
    drop(open);
    wrong
}

/// The longest text.
const LONGEST: &[u8] = &[b'a'; 255];

/// An open chunk of two payments, and one of the most.
const CHUNKS: &[Row<'_>] = &[
    Row {
        does: Does::Fills(
            2,
            &[
                Fill::Push(
                    0,
                    0,
                    &[Item::Text(b"c1"), Item::Text(b"m1"), Item::Int(100)],
                ),
                Fill::Full(false),
                Fill::Push(
                    1,
                    299_999,
                    &[Item::Text(b"c1"), Item::Text(b"m2"), Item::Int(200)],
                ),
                Fill::Writes(TWO_BY_COLUMNS),
                Fill::Offset(0, Some(0)),
                Fill::Offset(1, Some(1)),
                Fill::Offset(2, None),
                Fill::Full(true),
                Fill::Count(2),
                Fill::Clear,
                Fill::Count(0),
                Fill::Offset(0, None),
            ],
        ),
        ..ROW
    },
    // The most events with the longest texts: the head, three bases and widths, and 516 bytes a payment, 2 for
    // the offset, 1 for the time and for the amount.
    Row {
        does: Does::Fills(
            4096,
            &[
                Fill::PushEach(
                    4096,
                    &[
                        Item::Text(LONGEST),
                        Item::Text(LONGEST),
                        Item::Int(-1_000_000_000_000),
                    ],
                ),
                Fill::Reads(37 + 27 + 4096 * 516, 4095),
            ],
        ),
        ..ROW
    },
];

/// What was written is handed back where a chunk of the schema may have it: not an int past 10^12, a text in the
/// place of an int, a value too few, nor an offset that stands still.
const HANDED_BACK: &[Row<'_>] = &[Row {
    does: Does::Fills(
        2,
        &[
            Fill::Push(
                0,
                0,
                &[Item::Text(b"c1"), Item::Text(b"m1"), Item::Int(100)],
            ),
            Fill::Push(
                1,
                0,
                &[
                    Item::Text(b"c1"),
                    Item::Text(b""),
                    Item::Int(-1_000_000_000_000),
                ],
            ),
            Fill::HandsBack(2),
            Fill::Count(0),
            Fill::Push(
                2,
                0,
                &[
                    Item::Text(b"c1"),
                    Item::Text(b"m1"),
                    Item::Int(1_000_000_000_001),
                ],
            ),
            Fill::HandsBack(0),
            Fill::Push(
                2,
                0,
                &[Item::Text(b"c1"), Item::Text(b"m1"), Item::Text(b"1")],
            ),
            Fill::HandsBack(0),
            Fill::Push(2, 0, &[Item::Text(b"c1"), Item::Text(b"m1")]),
            Fill::HandsBack(0),
            Fill::Push(2, 0, &[Item::Text(b"c1"), Item::Text(b"m1"), Item::Int(1)]),
            Fill::Push(2, 0, &[Item::Text(b"c1"), Item::Text(b"m1"), Item::Int(1)]),
            Fill::HandsBack(0),
            Fill::Push(3, 0, &[Item::Text(b"c1"), Item::Text(b"m1"), Item::Int(1)]),
            Fill::HandsBack(1),
        ],
    ),
    ..ROW
}];

#[test]
fn an_open_chunk_is_written_as_its_payload_and_has_its_events_until_it_is_cleared(
    rt: HostRuntime,
) -> Result<(), Fail> {
    assert_rows(&rt, CHUNKS)
}

#[test]
fn what_was_written_is_handed_back_where_a_chunk_may_have_it(rt: HostRuntime) -> Result<(), Fail> {
    assert_rows(&rt, HANDED_BACK)
}
