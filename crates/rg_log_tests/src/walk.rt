use crate::payments::{FILE, PLACE, SCHEMA_PAYLOAD, TWO, WRITTEN};
use crate::row::{Does, ROW, Row, assert_rows, wrong_unless};
use crate::store::{Changed, store};
use rg_bytes::Memory;
use rg_host::MemHost;
use rg_reservoir::{ReservoirFault, Stage, Walk};
use std::alloc::Global;
use std::test::Fail;

/// What the next frame of a walk is: 0 for a schema, how many events a chunk has or values a growth, and none at the
/// end.
fn next_count(frames: &mut Walk, host: &mut MemHost) -> Result<Option<u32>, ReservoirFault> {
    match frames.next(host)? {
        Some(Stage::Schema(_)) => Ok(Some(0)),
        Some(Stage::Chunk(chunk)) => Ok(Some(chunk.count())),
        Some(Stage::Growth(_, values)) => Ok(u32::try_from(values.as_slice().len()).ok()),
        None => Ok(None),
    }
}

/// Whether a walk meets these, and then the end or this fault.
fn meets(
    frames: &mut Walk,
    host: &mut MemHost,
    counts: &[u32],
    fault: Option<ReservoirFault>,
) -> bool {
    for count in counts {
        if next_count(frames, host) != Ok(Some(*count)) {
            return false;
        }
    }
    match next_count(frames, host) {
        Ok(Some(_)) => false,
        Ok(None) => fault.is_none(),
        Err(other) => fault == Some(other),
    }
}

/// The same of a walk over a log of these bytes from its start on.
pub(crate) fn walks(
    alloc: Global,
    log: &[u8],
    counts: &[u32],
    fault: Option<ReservoirFault>,
) -> Result<Option<usize>, Memory> {
    let mut host = store(alloc, b"", b"", log, &[])?;
    let mut frames = Walk::new(alloc);
    let is_met = meets(&mut frames, &mut host, counts, fault);
    drop(frames);
    drop(host);
    Ok(wrong_unless(is_met))
}

/// The second frame is refused, where it stands.
const BAD: Does<'_> = Does::Walks(&[0], Some(ReservoirFault::Damaged(57)));

/// The log of two payments by columns, whose second frame is refused.
const BAD_ROW: Row<'_> = Row {
    rest: WRITTEN,
    does: BAD,
    ..ROW
};

/// Walks over logs of two payments.
const ROWS: &[Row<'_>] = &[
    Row {
        rest: FILE,
        does: Does::Walks(&[0, 2], None),
        ..ROW
    },
    Row {
        frames: &[SCHEMA_PAYLOAD, TWO, PLACE],
        does: Does::Walks(&[0, 2, 1], None),
        ..ROW
    },
    Row {
        rest: WRITTEN,
        does: Does::Walks(&[0, 2], None),
        ..ROW
    },
    // Offsets that are others than the head's, that don't rise, and that have no width.
    Row {
        changes: &[Changed(110, 1)],
        ..BAD_ROW
    },
    Row {
        changes: &[Changed(113, 0)],
        ..BAD_ROW
    },
    Row {
        changes: &[Changed(111, 3)],
        ..BAD_ROW
    },
    // A width that isn't the least.
    Row {
        changes: &[Changed(122, 8)],
        ..BAD_ROW
    },
    // Texts that are too long.
    Row {
        changes: &[Changed(131, 9)],
        ..BAD_ROW
    },
    // Amounts whose base isn't the least one.
    Row {
        changes: &[Changed(152, 1)],
        ..BAD_ROW
    },
];

#[test]
fn a_walk_meets_each_frame_up_to_bad_columns(rt: HostRuntime) -> Result<(), Fail> {
    assert_rows(&rt, ROWS)
}
