use crate::events::{Item, schema_of, values_of};
use crate::payments::{SCHEMA, TWO, TWO_BY_COLUMNS};
use crate::row::{Does, ROW, Row, assert_rows, wrong_unless};
use crate::store::Changed;
use rg_bytes::Memory;
use rg_chunk::{Chunk, ChunkFault, ChunkHead};
use rg_event::encode;
use std::alloc::Global;
use std::test::Fail;

/// Puts these values behind the own ones of each event.
fn extend(alloc: Global, chunk: &mut Chunk, items: &[Item<'_>]) -> Result<(), Memory> {
    let values = values_of(alloc, items)?;
    let extended = chunk.extend(&values);
    drop(values);
    extended
}

/// The chunk of payments that a payload says.
fn decoded(alloc: Global, payload: &[u8]) -> Result<Chunk, ChunkFault> {
    match schema_of(alloc, SCHEMA) {
        Ok(schema) => Chunk::decode(alloc, &schema, payload),
        Err(_) => Err(ChunkFault::Memory),
    }
}

/// The bytes of the events of a chunk, one behind another.
fn put_events(out: &mut Vec<u8>, chunk: &Chunk) -> Result<(), Memory> {
    for index in 0..chunk.count() {
        if let Some(event) = chunk.get(index) {
            encode(event, out)?;
        }
    }
    Ok(())
}

/// Whether the events of a chunk are written so, and it has no more.
fn has_events(alloc: Global, chunk: &Chunk, want: &[u8]) -> bool {
    let mut out = Vec::new(alloc);
    put_events(&mut out, chunk).is_ok()
        && out.as_slice() == want
        && chunk.get(chunk.count()).is_none()
}

/// The same where these values come behind those of each event.
fn has_extended(
    alloc: Global,
    chunk: &mut Chunk,
    items: &[Item<'_>],
    want: &[u8],
) -> Result<bool, Memory> {
    if !items.is_empty() {
        extend(alloc, chunk, items)?;
    }
    Ok(has_events(alloc, chunk, want))
}

/// Whether a payload says that, or is refused so.
pub(crate) fn says(
    alloc: Global,
    payload: &[u8],
    items: &[Item<'_>],
    want: Result<&[u8], ChunkFault>,
) -> Result<Option<usize>, Memory> {
    match decoded(alloc, payload) {
        Ok(mut chunk) => {
            let is_so = match want {
                Ok(bytes) => has_extended(alloc, &mut chunk, items, bytes),
                Err(_) => Ok(false),
            };
            drop(chunk);
            Ok(wrong_unless(is_so?))
        }
        Err(fault) => Ok(wrong_unless(want == Err(fault))),
    }
}

/// Whether the last event of a payload is of this offset, one less than its count.
pub(crate) fn ends_with(alloc: Global, payload: &[u8], offset: u32) -> bool {
    match decoded(alloc, payload) {
        Ok(chunk) => has_last(&chunk, offset),
        Err(_) => false,
    }
}

fn has_last(chunk: &Chunk, offset: u32) -> bool {
    match chunk.get(offset) {
        Some(event) => {
            event.offset == u64::from(offset) && chunk.count() == offset.saturating_add(1)
        }
        None => false,
    }
}

/// The head of the chunk of two payments.
const HEAD: Does<'_> = Does::Heads(Some(ChunkHead {
    count: 2,
    first_offset: 0,
    first_time: 0,
    last_offset: 1,
    last_time: 299_999,
}));

/// By hand: the two payments.
const SAID: Does<'_> = Does::Says(
    &[],
    Ok(
        b"\0\0\0\0\0\0\0\0\0\0\0\0\0\0\0\0\x02c1\x02m1\0\0\0\0\0\0\0\x64\
    \0\0\0\0\0\0\0\x01\0\0\0\0\0\x04\x93\xdf\x02c1\x02m2\0\0\0\0\0\0\0\xc8",
    ),
);

/// By hand: the same, each with `??` and true behind its amount.
const EXTENDED: Does<'_> = Does::Says(
    &[Item::Text(b"??"), Item::Flag(true)],
    Ok(
        b"\0\0\0\0\0\0\0\0\0\0\0\0\0\0\0\0\x02c1\x02m1\0\0\0\0\0\0\0\x64\x02??\x01\
    \0\0\0\0\0\0\0\x01\0\0\0\0\0\x04\x93\xdf\x02c1\x02m2\0\0\0\0\0\0\0\xc8\x02??\x01",
    ),
);

/// It is no chunk of payments.
const BAD: Does<'_> = Does::Says(&[], Err(ChunkFault::BadChunk));

/// A chunk of rows.
const BY_ROWS: Row<'_> = Row {
    rest: &[TWO],
    ..ROW
};

/// The same by columns.
const BY_COLUMNS: Row<'_> = Row {
    rest: &[TWO_BY_COLUMNS],
    ..ROW
};

/// What the payloads of the two payments say.
const SOUND: &[Row<'_>] = &[
    Row {
        does: HEAD,
        ..BY_ROWS
    },
    Row {
        least: 37,
        most: 37,
        does: HEAD,
        ..BY_ROWS
    },
    Row {
        least: 36,
        most: 36,
        does: Does::Heads(None),
        ..BY_ROWS
    },
    Row {
        does: SAID,
        ..BY_ROWS
    },
    Row {
        does: HEAD,
        ..BY_COLUMNS
    },
    Row {
        least: 37,
        most: 37,
        does: HEAD,
        ..BY_COLUMNS
    },
    Row {
        least: 36,
        most: 36,
        does: Does::Heads(None),
        ..BY_COLUMNS
    },
    Row {
        does: SAID,
        ..BY_COLUMNS
    },
    // It is extended behind the values of each event.
    Row {
        does: EXTENDED,
        ..BY_ROWS
    },
];

#[test]
fn a_payload_says_its_head_and_its_events(rt: HostRuntime) -> Result<(), Fail> {
    assert_rows(&rt, SOUND)
}

/// What is said of those payloads where they are cut, longer or changed.
const UNSOUND: &[Row<'_>] = &[
    // A payload that is cut or longer.
    Row {
        least: 0,
        most: 96,
        does: BAD,
        ..BY_ROWS
    },
    Row {
        least: 97,
        most: 97,
        does: SAID,
        ..BY_ROWS
    },
    Row {
        rest: &[TWO, b"\0"],
        does: BAD,
        ..ROW
    },
    Row {
        least: 0,
        most: 87,
        does: BAD,
        ..BY_COLUMNS
    },
    Row {
        least: 88,
        most: 88,
        does: SAID,
        ..BY_COLUMNS
    },
    Row {
        rest: &[TWO_BY_COLUMNS, b"\0"],
        does: BAD,
        ..ROW
    },
    // Of rows: the tag.
    Row {
        changes: &[Changed(0, 0x44), Changed(1, 0)],
        does: BAD,
        ..BY_ROWS
    },
    // A count of 0.
    Row {
        changes: &[Changed(3, 0), Changed(4, 0)],
        does: BAD,
        ..BY_ROWS
    },
    // A count of 1.
    Row {
        changes: &[Changed(3, 0), Changed(4, 1)],
        does: BAD,
        ..BY_ROWS
    },
    // A count of 3.
    Row {
        changes: &[Changed(3, 0), Changed(4, 3)],
        does: BAD,
        ..BY_ROWS
    },
    // A count of 4,097.
    Row {
        changes: &[Changed(3, 0x10), Changed(4, 1)],
        does: BAD,
        ..BY_ROWS
    },
    // The first offset.
    Row {
        changes: &[Changed(11, 0), Changed(12, 1)],
        does: BAD,
        ..BY_ROWS
    },
    // The first time.
    Row {
        changes: &[Changed(19, 0), Changed(20, 1)],
        does: BAD,
        ..BY_ROWS
    },
    // The last offset.
    Row {
        changes: &[Changed(27, 0), Changed(28, 2)],
        does: BAD,
        ..BY_ROWS
    },
    // The last time.
    Row {
        changes: &[Changed(35, 0x93), Changed(36, 0xde)],
        does: BAD,
        ..BY_ROWS
    },
    // Offsets that stand still.
    Row {
        changes: &[Changed(28, 0), Changed(74, 0)],
        does: BAD,
        ..BY_ROWS
    },
    // Offsets that fall.
    Row {
        changes: &[Changed(12, 2), Changed(44, 2)],
        does: BAD,
        ..BY_ROWS
    },
    // Times that fall.
    Row {
        changes: &[Changed(18, 5), Changed(50, 5)],
        does: BAD,
        ..BY_ROWS
    },
    // A text that is no UTF-8.
    Row {
        changes: &[Changed(54, b'c'), Changed(55, 0xff)],
        does: BAD,
        ..BY_ROWS
    },
    // An offset of 2^62.
    Row {
        changes: &[Changed(21, 0x40), Changed(67, 0x40)],
        does: BAD,
        ..BY_ROWS
    },
    // Of columns: a tag for rows.
    Row {
        changes: &[Changed(0, 0x43), Changed(1, 0)],
        does: BAD,
        ..BY_COLUMNS
    },
    // A count of 1.
    Row {
        changes: &[Changed(3, 0), Changed(4, 1)],
        does: BAD,
        ..BY_COLUMNS
    },
    // The last offset.
    Row {
        changes: &[Changed(27, 0), Changed(28, 2)],
        does: BAD,
        ..BY_COLUMNS
    },
    // Offsets that stand still.
    Row {
        changes: &[Changed(28, 0), Changed(47, 0)],
        does: BAD,
        ..BY_COLUMNS
    },
    // Offsets that fall.
    Row {
        changes: &[Changed(46, 1), Changed(47, 0)],
        does: BAD,
        ..BY_COLUMNS
    },
    // A width of 2.
    Row {
        changes: &[Changed(85, 2), Changed(86, 0)],
        does: BAD,
        ..BY_COLUMNS
    },
];

#[test]
fn what_is_no_chunk_is_refused(rt: HostRuntime) -> Result<(), Fail> {
    assert_rows(&rt, UNSOUND)
}
