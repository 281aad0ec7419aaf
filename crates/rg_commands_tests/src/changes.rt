use std::alloc::Global;
use std::test::Fail;

/// The bytes of a key and of the count and the sum behind it, in the rows of nodes 0 and 1 of a slot: of card
/// `c1` two payments, of 250 in all.
pub(super) const COUNT: &[u8] = b"\x03\x02c1\x01\0\0\0\0\0\0\0\x02";

pub(super) const SUM: &[u8] = b"\x03\x02c1\x02\0\0\0\0\0\0\0\x02";

/// Where the last byte of a slot's count stands, behind a query's text of 79 bytes.
pub(super) const COUNT_AT: usize = 104;

/// Where the last byte of its first spot's place stands.
pub(super) const SPOT_AT: usize = 116;

/// What is changed of a file's bytes.
#[derive(Clone, Copy)]
pub(super) enum Change<'a> {
    /// This byte stands at this place.
    Byte(usize, u8),
    /// This byte stands so far behind the place where these bytes first stand.
    Behind(&'a [u8], usize, u8),
    /// The first so many bytes are there alone.
    Front(usize),
    /// The bytes from this place on stand behind the others once more.
    Again(usize),
    /// These bytes stand behind the others.
    More(&'a [u8]),
    /// Of a slot the first row is missing.
    NoFirstRow,
}

/// Where these bytes first stand among others; behind them where they don't.
fn place_of(bytes: &[u8], wanted: &[u8]) -> usize {
    for at in 0..bytes.len() {
        if bytes[at..].starts_with(wanted) {
            return at;
        }
    }
    bytes.len()
}

/// Bytes with another one at this place; as they are where they end before it.
fn with_byte(alloc: Global, bytes: &[u8], at: usize, byte: u8) -> Result<Vec<u8>, Fail> {
    let mut changed = bytes.to_vec(alloc)?;
    if at < changed.len() {
        changed[at] = byte;
    }
    Ok(changed)
}

/// These bytes, and those behind them.
fn joined(alloc: Global, bytes: &[u8], more: &[u8]) -> Result<Vec<u8>, Fail> {
    let mut all = bytes.to_vec(alloc)?;
    all.extend_from_slice(more)?;
    Ok(all)
}

/// A slot whose count of rows is one less, and without the first row: its node, its key and a count.
fn without_first_row(alloc: Global, slot: &[u8]) -> Result<Vec<u8>, Fail> {
    let key = place_of(slot, COUNT);
    let mut cut = Vec::new(alloc);
    // the row begins with the node and the length of its key, and before it stands how many rows there are
    if key < 9 || key > slot.len() || slot.len() - key < 13 {
        return Ok(cut);
    }
    cut.extend_from_slice(&slot[..key - 9])?;
    cut.push(1)?;
    cut.extend_from_slice(&slot[key + 13..])?;
    // the frame is shorter by 21 bytes
    if cut.len() > 8 {
        cut[8] = cut[8].wrapping_sub(21);
    }
    Ok(cut)
}

/// A file's bytes with this change.
fn with_change(alloc: Global, bytes: &[u8], change: Change<'_>) -> Result<Vec<u8>, Fail> {
    match change {
        Change::Byte(at, byte) => with_byte(alloc, bytes, at, byte),
        Change::Behind(mark, behind, byte) => {
            let at = place_of(bytes, mark).saturating_add(behind);
            with_byte(alloc, bytes, at, byte)
        }
        Change::Front(size) => Ok(bytes.get(..size).unwrap_or(b"").to_vec(alloc)?),
        Change::Again(from) => joined(alloc, bytes, bytes.get(from..).unwrap_or(b"")),
        Change::More(more) => joined(alloc, bytes, more),
        Change::NoFirstRow => without_first_row(alloc, bytes),
    }
}

/// The same with these changes, one after the other.
pub(super) fn changed(
    alloc: Global,
    bytes: &[u8],
    changes: &[Change<'_>],
) -> Result<Vec<u8>, Fail> {
    let mut all = bytes.to_vec(alloc)?;
    for change in changes {
        all = with_change(alloc, &all, *change)?;
    }
    Ok(all)
}
