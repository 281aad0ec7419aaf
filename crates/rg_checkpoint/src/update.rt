ghost use Rattle.std.specs.Prelude.{◌≡◌, ◌<◌, ◌≤◌, ◌++◌, ◌∷◌, [], List, length, All, IfOk, IsErrOf, true};
ghost use Rattle.std.specs.Int.{w32, to_be_bytes};
ghost use Rattle.std.specs.Option.{option_map};
ghost use Rattle.rg_bytes.specs.Reading.{list_bytes, more_at};
ghost use Rattle.rg_state.specs.Changes.{now_bytes, change_bytes};
ghost use Rattle.rg_state.specs.Rows.{AreRising};
ghost use Rattle.rg_state.specs.States.{held_of};
ghost use Rattle.rg_checkpoint.specs.Changed.{change_of, changes_of, update_of};
ghost use Rattle.rg_checkpoint.specs.Reading.{Agrees, now_at, change_at, next_change_at, counted_changes_at, update_body_at, update_at, last_of, comes_behind, is_below};
ghost use Rattle.rg_checkpoint.specs.Updates.{Update, counted_changes, update_body, update_bytes, IsNow, IsRowChange, AreRowChanges, IsLegalUpdate, IsUpdate};

use crate::decode::{take_key, take_spots, take_state, take_u8, take_u32, take_u64};
use crate::fault::CheckpointFault;
use rg_bytes::ByteReader;
use rg_past::Spots;
use rg_state::{AggState, Key};
use std::alloc::Global;

/// The first byte of a change payload.
pub(crate) const CHANGE_TAG: u8 = 0x44;

/// A row that changed.
#[derive(Debug, Drop)]
pub(crate) struct Changed {
    /// The aggregator's number in the task plan.
    pub(crate) node: u32,
    /// The group's key.
    pub(crate) key: Key,
    /// The state as it is now; none for a row that is gone.
    pub(crate) state: Option<AggState>,
}

/// What a change payload says.
#[derive(Debug, Drop)]
pub(crate) struct Changes {
    /// How many events the checkpoint is of then.
    pub(crate) count: u64,
    /// A spot for each offset.
    pub(crate) spots: Spots,
    /// The rows that changed, rising by node and key.
    pub(crate) rows: Vec<Changed>,
}

/// What a change payload says. `BadCheckpoint` comes exactly where it is none.
pub(crate) fn decode_changes(alloc: Global, payload: &[u8]) -> Result<Changes, CheckpointFault>
    ensures ok { IfOk result (λ changes. IsUpdate payload.now (update_of changes)) }
    ensures bad { IsErrOf result CheckpointFault.BadCheckpoint → (update : Update) → IsUpdate payload.now update → ⊥ }
    ensures reads_back { (update : Update) → IsUpdate payload.now update → IfOk result (λ changes. update_of changes ≡ update) }
{
    let mut from = ByteReader::new(payload);
    let changes = match take_changes(alloc, &mut from) {
        Ok(changes) => changes,
        Err(fault) => return Err(fault),
    };
    if from.left() != 0 {
        return Err(CheckpointFault::BadCheckpoint);
    }
    Ok(changes)
}

/// Takes a change payload. A refusal, here and below, may leave the reader in mid-way.
#[tactic(auto, unfolding(crate::specs::Reading::update_at))]
fn take_changes(alloc: Global, from: &mut ByteReader<'_>) -> Result<Changes, CheckpointFault>
    ensures agrees { Agrees update_of (update_at from.old) result from.new }
    ensures ok { IfOk result (λ changes. from.old ≡ update_bytes (update_of changes) ++ from.new) }
    ensures legal { IfOk result (λ changes. IsLegalUpdate (update_of changes)) }
{
    let tag = match take_u8(from) {
        Ok(tag) => tag,
        Err(fault) => return Err(fault),
    };
    if tag != CHANGE_TAG {
        return Err(CheckpointFault::BadCheckpoint);
    }
    match take_body(alloc, from) {
        Ok(changes) => Ok(changes),
        Err(fault) => Err(fault),
    }
}

/// Takes what follows the first byte.
#[tactic(auto, unfolding(crate::specs::Reading::update_body_at))]
fn take_body(alloc: Global, from: &mut ByteReader<'_>) -> Result<Changes, CheckpointFault>
    ensures agrees { Agrees update_of (update_body_at from.old) result from.new }
    ensures ok { IfOk result (λ changes. from.old ≡ update_body (update_of changes) ++ from.new) }
    ensures legal { IfOk result (λ changes. IsLegalUpdate (update_of changes)) }
{
    let count = match take_u64(from) {
        Ok(count) => count,
        Err(fault) => return Err(fault),
    };
    let spots = match take_spots(alloc, from) {
        Ok(spots) => spots,
        Err(fault) => return Err(fault),
    };
    let rows = match take_rows(alloc, from) {
        Ok(rows) => rows,
        Err(fault) => return Err(fault),
    };
    Ok(Changes { count, spots, rows })
}

/// Takes rows that changed behind their number.
#[tactic(auto, unfolding(crate::specs::Reading::counted_changes_at))]
fn take_rows(alloc: Global, from: &mut ByteReader<'_>) -> Result<Vec<Changed>, CheckpointFault>
    ensures agrees { Agrees (λ rows. changes_of rows.items) (counted_changes_at from.old) result from.new }
    ensures ok { IfOk result (λ rows. from.old ≡ counted_changes (changes_of rows.items) ++ from.new) }
    ensures legal { IfOk result (λ rows. AreRowChanges (changes_of rows.items)) }
{
    let count = match take_u64(from) {
        Ok(count) => count,
        Err(fault) => return Err(fault),
    };
    match take_each_row(alloc, count, from) {
        Ok(rows) => Ok(rows),
        Err(fault) => Err(fault),
    }
}

/// Takes so many of them.
fn take_each_row(
    alloc: Global,
    count: u64,
    from: &mut ByteReader<'_>,
) -> Result<Vec<Changed>, CheckpointFault>
    ensures agrees { Agrees (λ rows. changes_of rows.items) (more_at next_change_at [] count from.old) result from.new }
    ensures ok { IfOk result (λ rows. from.old ≡ list_bytes change_bytes (changes_of rows.items) ++ from.new) }
    ensures count { IfOk result (λ rows. length (changes_of rows.items) ≡ count) }
    ensures legal { IfOk result (λ rows. All IsRowChange (changes_of rows.items)) }
    ensures rising { IfOk result (λ rows. AreRising (changes_of rows.items)) }
{
    let mut rows = Vec::new(alloc);
    for done in 0..count {
        let row = match take_next_row(alloc, &rows, from) {
            Ok(row) => row,
            Err(fault) => return Err(fault),
        };
        match rows.push(row) {
            Ok(_) => {}
            Err(_) => return Err(CheckpointFault::Memory),
        }
    }
    Ok(rows)
}

/// Takes one that may stand behind these.
#[tactic(auto, unfolding(crate::specs::Reading::next_change_at))]
fn take_next_row(
    alloc: Global,
    rows: &[Changed],
    from: &mut ByteReader<'_>,
) -> Result<Changed, CheckpointFault>
    ensures agrees { Agrees change_of (next_change_at (changes_of rows.now) from.old) result from.new }
    ensures ok { IfOk result (λ row. from.old ≡ change_bytes (change_of row) ++ from.new) }
    ensures legal { IfOk result (λ row. IsRowChange (change_of row)) }
    ensures behind { IfOk result (λ row. comes_behind (last_of (changes_of rows.now)) (change_of row) ≡ true) }
{
    let row = match take_row(alloc, from) {
        Ok(row) => row,
        Err(fault) => return Err(fault),
    };
    if !is_behind(rows, &row) {
        return Err(CheckpointFault::BadCheckpoint);
    }
    Ok(row)
}

/// Whether one may stand behind these.
fn is_behind(rows: &[Changed], row: &Changed) -> bool
    ensures { result ≡ comes_behind (last_of (changes_of rows.now)) (change_of row.now) }
{
    match rows.last() {
        None => true,
        Some(last) => comes_before(last, row),
    }
}

/// Whether the first one comes before the other.
fn comes_before(first: &Changed, second: &Changed) -> bool
    ensures { result ≡ is_below (change_of first.now) (change_of second.now) }
{
    first.node < second.node || (first.node == second.node && first.key < second.key)
}

/// Takes a row that changed.
#[tactic(auto, unfolding(crate::specs::Reading::change_at))]
fn take_row(alloc: Global, from: &mut ByteReader<'_>) -> Result<Changed, CheckpointFault>
    ensures agrees { Agrees change_of (change_at from.old) result from.new }
    ensures ok { IfOk result (λ row. from.old ≡ change_bytes (change_of row) ++ from.new) }
    ensures legal { IfOk result (λ row. IsRowChange (change_of row)) }
{
    let node = match take_u32(from) {
        Ok(node) => node,
        Err(fault) => return Err(fault),
    };
    let key = match take_key(alloc, from) {
        Ok(key) => key,
        Err(fault) => return Err(fault),
    };
    let state = match take_now(alloc, from) {
        Ok(state) => state,
        Err(fault) => return Err(fault),
    };
    Ok(Changed { node, key, state })
}

/// Takes a row as it is now.
#[tactic(auto, unfolding(crate::specs::Reading::now_at))]
fn take_now(alloc: Global, from: &mut ByteReader<'_>) -> Result<Option<AggState>, CheckpointFault>
    ensures agrees { Agrees (option_map held_of) (now_at from.old) result from.new }
    ensures ok { IfOk result (λ state. from.old ≡ now_bytes (option_map held_of state) ++ from.new) }
    ensures legal { IfOk result (λ state. IsNow (option_map held_of state)) }
{
    let tag = match take_u8(from) {
        Ok(tag) => tag,
        Err(fault) => return Err(fault),
    };
    if tag == 0 {
        return Ok(None);
    }
    if tag != 1 {
        return Err(CheckpointFault::BadCheckpoint);
    }
    match take_state(alloc, from) {
        Ok(state) => Ok(Some(state)),
        Err(fault) => Err(fault),
    }
}
