ghost use Rattle.std.specs.Prelude.{◌≡◌, ◌<◌, ◌≤◌, ◌++◌, ◌∷◌, [], List, length, All, IfOk, IsErrOf, true};
ghost use Rattle.std.specs.Int.{w32, w64, to_be_bytes};
ghost use Rattle.rg_agg.specs.Held.{held_bytes};
ghost use Rattle.rg_agg.specs.Standing.{size_in};
ghost use Rattle.rg_bytes.specs.Reading.{list_bytes, more_at};
ghost use Rattle.rg_state.specs.Rows.{AreRising, entry_bytes};
ghost use Rattle.rg_state.specs.States.{held_of, state_at};
ghost use Rattle.rg_checkpoint.specs.declared.base.Checkpoint.{Checkpoint as TheCheckpoint};
ghost use Rattle.rg_checkpoint.specs.Base.{text_bytes, spot_bytes, counted_texts, counted_spots, counted_rows, body_bytes, base_bytes, IsText, IsSpot, IsEntry, AreTexts, AreSpots, AreRows, IsLegalCheckpoint, IsBase};
ghost use Rattle.rg_checkpoint.specs.Entries.{entry_of, entries_of, AreFilled};
ghost use Rattle.rg_checkpoint.specs.Reading.{Agrees, as_reading, is_below, bytes_at, u8_at, u32_at, u64_at, text_at, next_text_at, counted_texts_at, spot_at, next_spot_at, counted_spots_at, key_at, row_at, last_of, comes_behind, next_row_at, counted_rows_at, body_at, base_at};

use crate::base::{Checkpoint, Row, Rows};
use crate::fault::CheckpointFault;
use rg_agg::StateFault;
use rg_bytes::ByteReader;
use rg_event::{Bytes, Texts};
use rg_past::{Spot, Spots};
use rg_state::{AggState, Key};
use std::alloc::Global;

/// The greatest length of a key, in bytes.
const MAX_KEY_BYTES: u32 = 2_056;

/// The first byte of a base payload.
pub(crate) const BASE_TAG: u8 = 0x42;

/// The checkpoint of a base payload. `BadCheckpoint` comes exactly where the payload is none. Memory
/// is taken only for what stands in the payload, whatever its numbers say.
pub fn decode_checkpoint(alloc: Global, payload: &[u8]) -> Result<Checkpoint, CheckpointFault>
    // A payload is read exactly where it is a base payload.
    ensures ok { IfOk result (IsBase payload.now) }
    ensures bad { IsErrOf result CheckpointFault.BadCheckpoint → (checkpoint : TheCheckpoint) → IsBase payload.now checkpoint → ⊥ }
    ensures reads_back { (checkpoint : TheCheckpoint) → IsBase payload.now checkpoint → IfOk result (λ read. read ≡ checkpoint) }

    // A payload says one checkpoint.
    ensures one { (a b : TheCheckpoint) → IsBase payload.now a → IsBase payload.now b → a ≡ b }
{
    let mut from = ByteReader::new(payload);
    let checkpoint = match take_base(alloc, &mut from) {
        Ok(checkpoint) => checkpoint,
        Err(fault) => return Err(fault),
    };
    if from.left() != 0 {
        return Err(CheckpointFault::BadCheckpoint);
    }
    Ok(checkpoint)
}

/// Takes a base payload. A refusal, here and below, may leave the reader in mid-way.
#[tactic(auto, unfolding(crate::specs::Reading::base_at))]
fn take_base(alloc: Global, from: &mut ByteReader<'_>) -> Result<Checkpoint, CheckpointFault>
    ensures agrees { Agrees (λ checkpoint. checkpoint) (base_at from.old) result from.new }
    ensures ok { IfOk result (λ checkpoint. from.old ≡ base_bytes checkpoint ++ from.new) }
    ensures legal { IfOk result IsLegalCheckpoint }
{
    let tag = match take_u8(from) {
        Ok(tag) => tag,
        Err(fault) => return Err(fault),
    };
    if tag != BASE_TAG {
        return Err(CheckpointFault::BadCheckpoint);
    }
    match take_body(alloc, from) {
        Ok(checkpoint) => Ok(checkpoint),
        Err(fault) => Err(fault),
    }
}

/// Takes what follows the first byte.
#[tactic(auto, unfolding(crate::specs::Reading::body_at))]
fn take_body(alloc: Global, from: &mut ByteReader<'_>) -> Result<Checkpoint, CheckpointFault>
    ensures agrees { Agrees (λ checkpoint. checkpoint) (body_at from.old) result from.new }
    ensures ok { IfOk result (λ checkpoint. from.old ≡ body_bytes checkpoint ++ from.new) }
    ensures legal { IfOk result IsLegalCheckpoint }
{
    let queries = match take_texts(alloc, from) {
        Ok(queries) => queries,
        Err(fault) => return Err(fault),
    };
    let count = match take_u64(from) {
        Ok(count) => count,
        Err(fault) => return Err(fault),
    };
    let spots = match take_spots(alloc, from) {
        Ok(spots) => spots,
        Err(fault) => return Err(fault),
    };
    let rows = match take_rows(alloc, from) {
        Ok(rows) => rows,
        Err(fault) => return Err(fault),
    };
    Ok(Checkpoint {
        queries,
        count,
        spots,
        rows,
    })
}

/// Takes texts behind their number.
#[tactic(auto, unfolding(crate::specs::Reading::counted_texts_at))]
fn take_texts(alloc: Global, from: &mut ByteReader<'_>) -> Result<Texts, CheckpointFault>
    ensures agrees { Agrees (λ texts. texts) (counted_texts_at from.old) result from.new }
    ensures ok { IfOk result (λ texts. from.old ≡ counted_texts texts ++ from.new) }
    ensures legal { IfOk result AreTexts }
{
    let count = match take_u32(from) {
        Ok(count) => count,
        Err(fault) => return Err(fault),
    };
    match take_each_text(alloc, count, from) {
        Ok(texts) => Ok(texts),
        Err(fault) => Err(fault),
    }
}

/// Takes so many texts.
fn take_each_text(
    alloc: Global,
    count: u32,
    from: &mut ByteReader<'_>,
) -> Result<Texts, CheckpointFault>
    ensures agrees { Agrees (λ texts. texts) (more_at next_text_at [] count from.old) result from.new }
    ensures ok { IfOk result (λ texts. from.old ≡ list_bytes text_bytes texts ++ from.new) }
    ensures count { IfOk result (λ texts. length texts ≡ count) }
    ensures legal { IfOk result (All IsText) }
{
    let mut texts = Texts::new(alloc);
    for done in 0..count {
        let text = match take_text(alloc, from) {
            Ok(text) => text,
            Err(fault) => return Err(fault),
        };
        match texts.push(text) {
            Ok(()) => {}
            Err(_) => return Err(CheckpointFault::Memory),
        }
    }
    Ok(texts)
}

/// Takes a text behind its length.
#[tactic(auto, unfolding(crate::specs::Reading::text_at))]
fn take_text(alloc: Global, from: &mut ByteReader<'_>) -> Result<Bytes, CheckpointFault>
    ensures agrees { Agrees (λ text. text) (text_at from.old) result from.new }
    ensures ok { IfOk result (λ text. from.old ≡ text_bytes text ++ from.new) }
    ensures legal { IfOk result IsText }
{
    let count = match take_u32(from) {
        Ok(count) => count,
        Err(fault) => return Err(fault),
    };
    match take_bytes(alloc, count, from) {
        Ok(bytes) => Ok(Bytes::from(bytes)),
        Err(fault) => Err(fault),
    }
}

/// Takes spots behind their number.
#[tactic(auto, unfolding(crate::specs::Reading::counted_spots_at))]
pub(crate) fn take_spots(alloc: Global, from: &mut ByteReader<'_>) -> Result<Spots, CheckpointFault>
    ensures agrees { Agrees (λ spots. spots) (counted_spots_at from.old) result from.new }
    ensures ok { IfOk result (λ spots. from.old ≡ counted_spots spots ++ from.new) }
    ensures legal { IfOk result AreSpots }
{
    let count = match take_u32(from) {
        Ok(count) => count,
        Err(fault) => return Err(fault),
    };
    match take_each_spot(alloc, count, from) {
        Ok(list) => Ok(Spots::from(list)),
        Err(fault) => Err(fault),
    }
}

/// Takes so many spots.
fn take_each_spot(
    alloc: Global,
    count: u32,
    from: &mut ByteReader<'_>,
) -> Result<Vec<Spot>, CheckpointFault>
    ensures agrees { Agrees (λ spots. spots.items) (more_at next_spot_at [] count from.old) result from.new }
    ensures ok { IfOk result (λ spots. from.old ≡ list_bytes spot_bytes spots.items ++ from.new) }
    ensures count { IfOk result (λ spots. length spots.items ≡ count) }
    ensures legal { IfOk result (λ spots. All IsSpot spots.items) }
{
    let mut spots = Vec::new(alloc);
    for done in 0..count {
        let spot = match take_spot(from) {
            Ok(spot) => spot,
            Err(fault) => return Err(fault),
        };
        match spots.push(spot) {
            Ok(_) => {}
            Err(_) => return Err(CheckpointFault::Memory),
        }
    }
    Ok(spots)
}

/// Takes a spot.
#[tactic(auto, unfolding(crate::specs::Reading::spot_at))]
fn take_spot(from: &mut ByteReader<'_>) -> Result<Spot, CheckpointFault>
    ensures agrees { Agrees (λ spot. spot) (spot_at from.old) result from.new }
    ensures ok { IfOk result (λ spot. from.old ≡ spot_bytes spot ++ from.new) }
    ensures legal { IfOk result IsSpot }
{
    let place = match take_u64(from) {
        Ok(place) => place,
        Err(fault) => return Err(fault),
    };
    let index = match take_u32(from) {
        Ok(index) => index,
        Err(fault) => return Err(fault),
    };
    let number = match take_u64(from) {
        Ok(number) => number,
        Err(fault) => return Err(fault),
    };
    Ok(Spot {
        place,
        index,
        number,
    })
}

/// Takes rows behind their number.
#[tactic(auto, unfolding(crate::specs::Reading::counted_rows_at))]
fn take_rows(alloc: Global, from: &mut ByteReader<'_>) -> Result<Rows, CheckpointFault>
    ensures agrees { Agrees (λ rows. rows) (counted_rows_at from.old) result from.new }
    ensures ok { IfOk result (λ rows. from.old ≡ counted_rows rows ++ from.new) }
    ensures legal { IfOk result AreRows }
{
    let count = match take_u64(from) {
        Ok(count) => count,
        Err(fault) => return Err(fault),
    };
    match take_each_row(alloc, count, from) {
        Ok(list) => Ok(Rows::new(list)),
        Err(fault) => Err(fault),
    }
}

/// Takes so many rows.
fn take_each_row(
    alloc: Global,
    count: u64,
    from: &mut ByteReader<'_>,
) -> Result<Vec<Row>, CheckpointFault>
    ensures agrees { Agrees (λ rows. entries_of rows.items) (more_at next_row_at [] count from.old) result from.new }
    ensures ok { IfOk result (λ rows. from.old ≡ list_bytes entry_bytes (entries_of rows.items) ++ from.new) }
    ensures count { IfOk result (λ rows. length (entries_of rows.items) ≡ count) }
    ensures legal { IfOk result (λ rows. All IsEntry (entries_of rows.items)) }
    ensures rising { IfOk result (λ rows. AreRising (entries_of rows.items)) }
    ensures filled { IfOk result (λ rows. AreFilled (entries_of rows.items)) }
{
    let mut rows = Vec::new(alloc);
    for done in 0..count {
        let row = match take_next_row(alloc, &rows, from) {
            Ok(row) => row,
            Err(fault) => return Err(fault),
        };
        match rows.push(row) {
            Ok(_) => {}
            Err(_) => return Err(CheckpointFault::Memory),
        }
    }
    Ok(rows)
}

/// Takes a row that may stand behind these.
#[tactic(auto, unfolding(crate::specs::Reading::next_row_at))]
fn take_next_row(
    alloc: Global,
    rows: &[Row],
    from: &mut ByteReader<'_>,
) -> Result<Row, CheckpointFault>
    ensures agrees { Agrees entry_of (next_row_at (entries_of rows.now) from.old) result from.new }
    ensures ok { IfOk result (λ row. from.old ≡ entry_bytes (entry_of row) ++ from.new) }
    ensures legal { IfOk result (λ row. IsEntry (entry_of row)) }
    ensures behind { IfOk result (λ row. comes_behind (last_of (entries_of rows.now)) (entry_of row) ≡ true) }
{
    let row = match take_row(alloc, from) {
        Ok(row) => row,
        Err(fault) => return Err(fault),
    };
    if !is_behind(rows, &row) {
        return Err(CheckpointFault::BadCheckpoint);
    }
    Ok(row)
}

/// Whether a row may stand behind these.
fn is_behind(rows: &[Row], row: &Row) -> bool
    ensures { result ≡ comes_behind (last_of (entries_of rows.now)) (entry_of row.now) }
{
    match rows.last() {
        None => true,
        Some(last) => comes_before(last, row),
    }
}

/// Whether the first row comes before the other.
fn comes_before(first: &Row, second: &Row) -> bool
    ensures { result ≡ is_below (entry_of first.now) (entry_of second.now) }
{
    first.node < second.node || (first.node == second.node && first.key < second.key)
}

/// Takes a row.
#[tactic(auto, unfolding(crate::specs::Reading::row_at))]
fn take_row(alloc: Global, from: &mut ByteReader<'_>) -> Result<Row, CheckpointFault>
    ensures agrees { Agrees entry_of (row_at from.old) result from.new }
    ensures ok { IfOk result (λ row. from.old ≡ entry_bytes (entry_of row) ++ from.new) }
    ensures legal { IfOk result (λ row. IsEntry (entry_of row)) }
{
    let node = match take_u32(from) {
        Ok(node) => node,
        Err(fault) => return Err(fault),
    };
    let key = match take_key(alloc, from) {
        Ok(key) => key,
        Err(fault) => return Err(fault),
    };
    let state = match take_state(alloc, from) {
        Ok(state) => state,
        Err(fault) => return Err(fault),
    };
    Ok(Row { node, key, state })
}

/// Takes a key behind its length.
#[tactic(auto, unfolding(crate::specs::Reading::key_at))]
pub(crate) fn take_key(alloc: Global, from: &mut ByteReader<'_>) -> Result<Key, CheckpointFault>
    ensures agrees { Agrees (λ key. key) (key_at from.old) result from.new }
    ensures ok { IfOk result (λ key. from.old ≡ to_be_bytes w32 (length key) ++ (key ++ from.new)) }
    ensures legal { IfOk result (λ key. length key ≤ 2056) }
{
    let count = match take_u32(from) {
        Ok(count) => count,
        Err(fault) => return Err(fault),
    };
    if count > MAX_KEY_BYTES {
        return Err(CheckpointFault::BadCheckpoint);
    }
    match take_bytes(alloc, count, from) {
        Ok(bytes) => Ok(Key::from(bytes)),
        Err(fault) => Err(fault),
    }
}

/// Takes the state of one of the aggregators.
pub(crate) fn take_state(
    alloc: Global,
    from: &mut ByteReader<'_>,
) -> Result<AggState, CheckpointFault>
    ensures agrees { Agrees held_of (as_reading (state_at from.old)) result from.new }
    ensures ok { IfOk result (λ state. from.old ≡ held_bytes (held_of state) ++ from.new) }
    ensures some { IfOk result (λ state. 0 < size_in (held_of state)) }
{
    match AggState::decode(alloc, from) {
        Ok(state) => Ok(state),
        Err(StateFault::Short) => Err(CheckpointFault::BadCheckpoint),
        Err(StateFault::Unfit) => Err(CheckpointFault::BadCheckpoint),
        Err(StateFault::Memory) => Err(CheckpointFault::Memory),
    }
}

/// Takes so many bytes.
#[tactic(auto, using(rg_bytes::proofs::Laws::bytes_read, rg_bytes::proofs::Laws::bytes_short))]
fn take_bytes(
    alloc: Global,
    count: u32,
    from: &mut ByteReader<'_>,
) -> Result<Vec<u8>, CheckpointFault>
    ensures agrees { Agrees (λ bytes. bytes.items) (bytes_at count from.old) result from.new }
    ensures ok { IfOk result (λ bytes. from.old ≡ bytes.items ++ from.new) }
    ensures count { IfOk result (λ bytes. length bytes.items ≡ count) }
{
    let front = match from.bytes(count as usize) {
        Ok(front) => front,
        Err(_) => return Err(CheckpointFault::BadCheckpoint),
    };
    match Vec::from_slice(alloc, front) {
        Ok(bytes) => Ok(bytes),
        Err(_) => Err(CheckpointFault::Memory),
    }
}

/// Takes 1 byte.
#[tactic(auto, using(rg_bytes::proofs::Laws::u8_read, rg_bytes::proofs::Laws::u8_short))]
pub(crate) fn take_u8(from: &mut ByteReader<'_>) -> Result<u8, CheckpointFault>
    ensures agrees { Agrees (λ n. n) (u8_at from.old) result from.new }
    ensures ok { IfOk result (λ n. from.old ≡ n ∷ from.new) }
{
    match from.u8() {
        Ok(n) => Ok(n),
        Err(_) => Err(CheckpointFault::BadCheckpoint),
    }
}

/// Takes a number of 4 bytes.
#[tactic(auto, using(rg_bytes::proofs::Laws::u32_read, rg_bytes::proofs::Laws::u32_short))]
pub(crate) fn take_u32(from: &mut ByteReader<'_>) -> Result<u32, CheckpointFault>
    ensures agrees { Agrees (λ n. n) (u32_at from.old) result from.new }
    ensures ok { IfOk result (λ n. from.old ≡ to_be_bytes w32 n ++ from.new) }
{
    match from.u32() {
        Ok(n) => Ok(n),
        Err(_) => Err(CheckpointFault::BadCheckpoint),
    }
}

/// Takes a number of 8 bytes.
#[tactic(auto, using(rg_bytes::proofs::Laws::u64_read, rg_bytes::proofs::Laws::u64_short))]
pub(crate) fn take_u64(from: &mut ByteReader<'_>) -> Result<u64, CheckpointFault>
    ensures agrees { Agrees (λ n. n) (u64_at from.old) result from.new }
    ensures ok { IfOk result (λ n. from.old ≡ to_be_bytes w64 n ++ from.new) }
{
    match from.u64() {
        Ok(n) => Ok(n),
        Err(_) => Err(CheckpointFault::BadCheckpoint),
    }
}
