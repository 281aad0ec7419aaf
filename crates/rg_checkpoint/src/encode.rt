ghost use Rattle.std.specs.Prelude.{◌≡◌, ◌↔◌, ◌≤◌, ◌<◌, ◌^◌, ◌++◌, ◌∷◌, [], ℕ, List, length, All, OnOk, OnErr, IsErrOf};
ghost use Rattle.std.specs.Int.{w32, w64, to_be_bytes};
ghost use Rattle.rg_bytes.specs.Counts.{Rose};
ghost use Rattle.rg_bytes.specs.Keeps.{Keeps};
ghost use Rattle.rg_bytes.specs.Reading.{list_bytes};
ghost use Rattle.rg_state.specs.Changes.{SameMarks};
ghost use Rattle.rg_state.specs.Rows.{Same};
ghost use Rattle.rg_checkpoint.specs.Base.{text_bytes, spot_bytes, counted_texts, counted_spots, IsText, IsSpot, AreTexts, AreSpots};
ghost use Rattle.rg_checkpoint.specs.Writing.{Encodes, EncodesChanges, head_bytes, change_front_bytes};

use crate::decode::BASE_TAG;
use crate::update::CHANGE_TAG;
use rg_bytes::{Memory, put_bytes, put_u8, put_u32, put_u64};
use rg_event::{Bytes, Texts};
use rg_past::Spot;
use rg_state::{Table, TableFault};

/// Writes a base payload of all rows of the table at the end. Texts or spots whose number, or a text
/// whose length, is 2^32 or more are refused as memory. A refusal leaves `out` as it was.
pub fn encode_checkpoint<T: Table>(
    queries: &Texts,
    count: u64,
    spots: &[Spot],
    table: &mut T,
    out: &mut Vec<u8>,
) -> Result<(), TableFault>
    // Over a table that tells its rows, the base payload with all of them is written.
    ensures written { T.tells table.old → OnOk result (Encodes (T.cell table.old) queries.now count spots.now out.old.items out.new.items) }

    // The table keeps its rows and marks, also at a refusal.
    ensures same { T.tells table.old → Same (T.cell table.old) (T.cell table.new) }
    ensures same_named { T.tells table.old → SameMarks (T.named table.old) (T.named table.new) }
    ensures same_there { T.tells table.old → SameMarks (T.there table.old) (T.there table.new) }
    ensures err { OnErr result (out.new.items ≡ out.old.items) }
    ensures no_bad { (n : ℕ) → IsErrOf result (TableFault.BadState n) → ⊥ }

    // Disk comes only where the table's count of failed calls rose.
    ensures disk { IsErrOf result TableFault.Disk → Rose (T.faults table.old) (T.faults table.new) }
    ensures tells { T.tells table.new ↔ T.tells table.old }
    ensures later { T.faults table.old ≤ T.faults table.new }
{
    let start = out.len();
    match put_front(queries, count, spots, out) {
        Ok(()) => {}
        Err(_) => {
            out.truncate(start);
            return Err(TableFault::Memory);
        }
    }
    match table.write_rows(out) {
        Ok(()) => Ok(()),
        Err(fault) => {
            out.truncate(start);
            Err(fault)
        }
    }
}

/// Writes a change payload of what changed in the table since its mark at the end. Spots whose number is
/// 2^32 or more are refused as memory. A refusal leaves `out` as it was.
pub fn encode_changes<T: Table>(
    count: u64,
    spots: &[Spot],
    table: &mut T,
    out: &mut Vec<u8>,
) -> Result<(), TableFault>
    // Over a table that tells its rows, what changed since its mark is written.
    ensures written { T.tells table.old → OnOk result (EncodesChanges (T.named table.old) (T.there table.old) (T.cell table.old) count spots.now out.old.items out.new.items) }

    // The table keeps its rows and marks, also at a refusal.
    ensures same { T.tells table.old → Same (T.cell table.old) (T.cell table.new) }
    ensures same_named { T.tells table.old → SameMarks (T.named table.old) (T.named table.new) }
    ensures same_there { T.tells table.old → SameMarks (T.there table.old) (T.there table.new) }
    ensures err { OnErr result (out.new.items ≡ out.old.items) }
    ensures no_bad { (n : ℕ) → IsErrOf result (TableFault.BadState n) → ⊥ }

    // Disk comes only where the table's count of failed calls rose.
    ensures disk { IsErrOf result TableFault.Disk → Rose (T.faults table.old) (T.faults table.new) }
    ensures tells { T.tells table.new ↔ T.tells table.old }
    ensures later { T.faults table.old ≤ T.faults table.new }
{
    let start = out.len();
    match put_change_front(count, spots, out) {
        Ok(()) => {}
        Err(_) => {
            out.truncate(start);
            return Err(TableFault::Memory);
        }
    }
    match table.write_changes(out) {
        Ok(()) => Ok(()),
        Err(fault) => {
            out.truncate(start);
            Err(fault)
        }
    }
}

/// Writes all that stands before the rows that changed.
fn put_change_front(count: u64, spots: &[Spot], out: &mut Vec<u8>) -> Result<(), Memory>
    ensures ok { OnOk result (out.new.items ≡ out.old.items ++ change_front_bytes count spots.now) }
    ensures spots { OnOk result (AreSpots spots.now) }
    ensures err { OnErr result (Keeps out.old.items out.new.items) }
{
    match put_u8(out, CHANGE_TAG) {
        Ok(()) => {}
        Err(memory) => return Err(memory),
    }
    match put_u64(out, count) {
        Ok(()) => {}
        Err(memory) => return Err(memory),
    }
    match put_spots(spots, out) {
        Ok(()) => Ok(()),
        Err(memory) => Err(memory),
    }
}

/// Writes all that stands before the number of the rows. An error, here and below, leaves it begun.
fn put_front(queries: &Texts, count: u64, spots: &[Spot], out: &mut Vec<u8>) -> Result<(), Memory>
    ensures ok { OnOk result (out.new.items ≡ out.old.items ++ head_bytes queries.now count spots.now) }
    ensures queries { OnOk result (AreTexts queries.now) }
    ensures spots { OnOk result (AreSpots spots.now) }
    ensures err { OnErr result (Keeps out.old.items out.new.items) }
{
    match put_u8(out, BASE_TAG) {
        Ok(()) => {}
        Err(memory) => return Err(memory),
    }
    match put_texts(queries.as_slice(), out) {
        Ok(()) => {}
        Err(memory) => return Err(memory),
    }
    match put_u64(out, count) {
        Ok(()) => {}
        Err(memory) => return Err(memory),
    }
    match put_spots(spots, out) {
        Ok(()) => Ok(()),
        Err(memory) => Err(memory),
    }
}

/// Writes texts behind their number.
fn put_texts(texts: &[Bytes], out: &mut Vec<u8>) -> Result<(), Memory>
    ensures ok { OnOk result (out.new.items ≡ out.old.items ++ counted_texts texts.now) }
    ensures fits { OnOk result (AreTexts texts.now) }
    ensures err { OnErr result (Keeps out.old.items out.new.items) }
{
    match put_length(texts.len(), out) {
        Ok(()) => {}
        Err(memory) => return Err(memory),
    }
    match put_each_text(texts, out) {
        Ok(()) => Ok(()),
        Err(memory) => Err(memory),
    }
}

/// Writes texts one after another.
fn put_each_text(texts: &[Bytes], out: &mut Vec<u8>) -> Result<(), Memory>
    ensures ok { OnOk result (out.new.items ≡ out.old.items ++ list_bytes text_bytes texts.now) }
    ensures fits { OnOk result (All IsText texts.now) }
    ensures err { OnErr result (Keeps out.old.items out.new.items) }
{
    for text in texts {
        match put_text(text, out) {
            Ok(()) => {}
            Err(memory) => return Err(memory),
        }
    }
    Ok(())
}

/// Writes a text behind its length.
#[tactic(auto, using(crate::proofs::Puts::two_more))]
fn put_text(text: &Bytes, out: &mut Vec<u8>) -> Result<(), Memory>
    ensures ok { OnOk result (out.new.items ≡ out.old.items ++ text_bytes text.now) }
    ensures fits { OnOk result (IsText text.now) }
    ensures err { OnErr result (Keeps out.old.items out.new.items) }
{
    let bytes = text.as_slice();
    match put_length(bytes.len(), out) {
        Ok(()) => {}
        Err(memory) => return Err(memory),
    }
    match put_bytes(out, bytes) {
        Ok(()) => Ok(()),
        Err(memory) => Err(memory),
    }
}

/// Writes spots behind their number.
fn put_spots(spots: &[Spot], out: &mut Vec<u8>) -> Result<(), Memory>
    ensures ok { OnOk result (out.new.items ≡ out.old.items ++ counted_spots spots.now) }
    ensures fits { OnOk result (AreSpots spots.now) }
    ensures err { OnErr result (Keeps out.old.items out.new.items) }
{
    match put_length(spots.len(), out) {
        Ok(()) => {}
        Err(memory) => return Err(memory),
    }
    match put_each_spot(spots, out) {
        Ok(()) => Ok(()),
        Err(memory) => Err(memory),
    }
}

/// Writes spots one after another.
fn put_each_spot(spots: &[Spot], out: &mut Vec<u8>) -> Result<(), Memory>
    ensures ok { OnOk result (out.new.items ≡ out.old.items ++ list_bytes spot_bytes spots.now) }
    ensures fits { OnOk result (All IsSpot spots.now) }
    ensures err { OnErr result (Keeps out.old.items out.new.items) }
{
    for spot in spots {
        match put_spot(*spot, out) {
            Ok(()) => {}
            Err(memory) => return Err(memory),
        }
    }
    Ok(())
}

/// Writes a spot.
fn put_spot(spot: Spot, out: &mut Vec<u8>) -> Result<(), Memory>
    ensures ok { OnOk result (out.new.items ≡ out.old.items ++ spot_bytes spot) }
    ensures fits { OnOk result (IsSpot spot) }
    ensures err { OnErr result (Keeps out.old.items out.new.items) }
{
    match put_u64(out, spot.place) {
        Ok(()) => {}
        Err(memory) => return Err(memory),
    }
    match put_u32(out, spot.index) {
        Ok(()) => {}
        Err(memory) => return Err(memory),
    }
    match put_u64(out, spot.number) {
        Ok(()) => Ok(()),
        Err(memory) => Err(memory),
    }
}

/// Writes a length in 4 bytes. One that doesn't fit them is refused as memory.
fn put_length(length: usize, out: &mut Vec<u8>) -> Result<(), Memory>
    ensures ok { OnOk result (out.new.items ≡ out.old.items ++ to_be_bytes w32 length) }
    ensures fits { OnOk result (length < 2 ^ 32) }
    ensures err { OnErr result (Keeps out.old.items out.new.items) }
{
    if length > 4_294_967_295 {
        return Err(Memory);
    }
    put_u32(out, length as u32)
}
