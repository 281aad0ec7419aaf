use crate::cache::{self, Step};
use crate::chunk::says;
use crate::events::Item;
use crate::open::{self, Fill};
use crate::printed::{Print, print_wrong};
use crate::store::{Changed, bytes_of};
use crate::tried::{Case, case_wrong};
use crate::walk::walks;
use rg_bytes::Memory;
use rg_chunk::{ChunkFault, ChunkHead, read_head};
use rg_reservoir::ReservoirFault;
use std::alloc::Global;
use std::process::Abort;
use std::test::Fail;

/// What is so of some bytes.
#[derive(Clone, Copy)]
pub(crate) enum Does<'a> {
    /// They are so many.
    Has(usize),
    /// As a payload they say this head of a chunk, if any.
    Heads(Option<ChunkHead>),
    /// As a payload they say payments that are written as these bytes, each with these values behind its own, or are
    /// refused.
    Says(&'a [Item<'a>], Result<&'a [u8], ChunkFault>),
    /// As a log they are walked over: 0 for a schema, the number of the events of a chunk or of the values of a growth,
    /// and then the end, or this fault.
    Walks(&'a [u32], Option<ReservoirFault>),
    /// A reservoir over them as a log goes so.
    Opens(Case<'a>),
    /// So they are printed as a log.
    Prints(Print<'a>),
    /// A cache of room for so many items goes so.
    Caches(u32, &'a [Step]),
    /// An open chunk of room for so many events goes so.
    Fills(u32, &'a [Fill<'a>]),
}

/// Bytes, and what is so of them.
#[derive(Clone, Copy)]
pub(crate) struct Row<'a> {
    /// The payloads of open frames.
    pub frames: &'a [&'a [u8]],
    /// What stands behind those frames.
    pub rest: &'a [&'a [u8]],
    /// What is changed in those bytes.
    pub changes: &'a [Changed],
    /// Each front of so many of those bytes is taken, from the least to the most of these numbers, which is no less;
    /// all of them where there are fewer.
    pub least: usize,
    pub most: usize,
    pub does: Does<'a>,
}

/// Open frames and a closed gate, whole.
pub(crate) const ROW: Row<'_> = Row {
    frames: &[],
    rest: &[b"\0"],
    changes: &[],
    least: 10_000,
    most: 10_000,
    does: Does::Has(1),
};

/// No bytes, as of a log that isn't there.
pub(crate) const EMPTY: Row<'_> = Row { rest: &[], ..ROW };

/// The first thing, where it is wrong.
pub(crate) fn wrong_unless(is_so: bool) -> Option<usize> {
    if is_so { None } else { Some(0) }
}

/// The number of the first thing that goes otherwise, if one does.
fn wrong_in(alloc: Global, bytes: &[u8], does: &Does<'_>) -> Result<Option<usize>, Memory> {
    match does {
        Does::Has(count) => Ok(wrong_unless(bytes.len() == *count)),
        Does::Heads(head) => Ok(wrong_unless(read_head(bytes) == *head)),
        Does::Says(items, want) => says(alloc, bytes, items, *want),
        Does::Walks(counts, fault) => walks(alloc, bytes, counts, *fault),
        Does::Opens(case) => case_wrong(alloc, bytes, case),
        Does::Prints(print) => print_wrong(alloc, bytes, print),
        Does::Caches(cap, steps) => cache::wrong_in(alloc, *cap, steps),
        Does::Fills(cap, steps) => open::wrong_in(alloc, *cap, steps),
    }
}

/// The number of bytes of the first front that goes otherwise, if one does, and the number of what goes so; the least
/// number and 0 where the most is less, so that there is no front.
fn wrong_front(
    alloc: Global,
    bytes: &[u8],
    row: &Row<'_>,
) -> Result<Option<(usize, usize)>, Memory> {
    if row.least > row.most {
        return Ok(Some((row.least, 0)));
    }
    for length in row.least..=row.most {
        let front = bytes.get(..length).unwrap_or(bytes);
        if let Some(number) = wrong_in(alloc, front, &row.does)? {
            return Ok(Some((length, number)));
        }
    }
    Ok(None)
}

/// The same of the bytes of a row.
fn wrong_row(alloc: Global, row: &Row<'_>) -> Result<Option<(usize, usize)>, Memory> {
    let bytes = bytes_of(alloc, row.frames, row.rest, row.changes)?;
    let wrong = wrong_front(alloc, &bytes, row);
    drop(bytes);
    wrong
}

/// Each of these rows is so. A failure tells the row, of how many bytes, and the first thing that goes otherwise.
pub(crate) fn assert_rows(rt: &(impl Abort + AllocGlobal), rows: &[Row<'_>]) -> Result<(), Fail> {
    let mut number = 0usize;
    for row in rows {
        assert_eq!(rt; wrong_row(rt.alloc(), row)?, None, "row {number}");
        number = number.saturating_add(1);
    }
    Ok(())
}
