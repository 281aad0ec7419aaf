ghost use Rattle.std.specs.Prelude.{◌≡◌, ◌≤◌, ◌<◌, ◌^◌, ◌++◌, ◌∷◌, [], true, length, IfOk, OnOk, OnErr};
ghost use Rattle.rg_bytes.specs.Keeps.{Keeps};
ghost use Rattle.rg_state.specs.Changes.{now_bytes};
ghost use Rattle.rg_state.specs.Kepts.{seen, shown, are_sound};
ghost use Rattle.rg_state.specs.Sheets.{is_wanted, row_bytes, sheets_bytes, sheets_rows, IsReady, Gets, AreBlank};
ghost use Rattle.rg_state.specs.States.{held_of};

use crate::key_rows::Kept;
use crate::state::AggState;
use rg_bytes::{Memory, put_bytes, put_u8, put_u32};
use rg_group::Key;
use std::alloc::Global;

/// The bytes of the rows of a node, and how many rows they are.
#[derive(Debug, Drop)]
pub(crate) struct Sheet {
    pub(crate) bytes: Vec<u8>,
    pub(crate) rows: u64,
}

/// So many sheets with nothing on them, in the room of used ones where there are some.
pub(crate) fn blank_sheets(
    alloc: Global,
    nodes: u64,
    used: &mut Vec<Sheet>,
) -> Result<Vec<Sheet>, Memory>
    ensures { IfOk result (λ sheets. AreBlank nodes sheets.items) }
{
    let mut sheets = Vec::new(alloc);
    for _ in 0..nodes {
        let bytes = room_of_last(alloc, used);
        sheets.push(Sheet { bytes, rows: 0 })?;
    }
    Ok(sheets)
}

/// The room of the last used sheet, with no bytes in it.
fn room_of_last(alloc: Global, used: &mut Vec<Sheet>) -> Vec<u8>
    ensures { result.items ≡ [] }
{
    match used.pop() {
        None => Vec::new(alloc),
        Some(sheet) => {
            let Sheet { mut bytes, .. } = sheet;
            bytes.clear();
            bytes
        }
    }
}

/// Which rows are written.
#[derive(Clone, Copy, Debug, PartialEq, Eq, Hash)]
pub(crate) enum Wanted {
    /// All that are there.
    Rows,
    /// Those that changed since the mark, also where they are gone.
    Changes,
}

/// Writes each row of a key that is wanted on its node's sheet. Where memory runs out some of them may
/// stand there.
pub(crate) fn put_key(
    wanted: Wanted,
    key: &Key,
    kepts: &[Kept],
    sheets: &mut Vec<Sheet>,
) -> Result<(), Memory>
    requires sound { are_sound kepts.now ≡ true }
    requires ready { IsReady wanted key.now kepts.now sheets.old.items }
    ensures { OnOk result (Gets wanted key.now kepts.now sheets.old.items sheets.new.items) }
{
    for kept in kepts {
        put_row(wanted, key, kept, sheets)?;
    }
    Ok(())
}

/// Writes a row of a key on its node's sheet, where it is wanted. Where memory runs out a prefix of it may
/// stand there.
fn put_row(wanted: Wanted, key: &Key, kept: &Kept, sheets: &mut Vec<Sheet>) -> Result<(), Memory>
    requires { IsReady wanted key.now (kept.now ∷ []) sheets.old.items }
    ensures { OnOk result (Gets wanted key.now (kept.now ∷ []) sheets.old.items sheets.new.items) }
{
    if !is_wanted(wanted, kept) {
        return Ok(());
    }
    let sheet = &mut sheets[kept.node as usize];
    write_row(wanted, key, kept, &mut sheet.bytes)?;
    sheet.rows += 1;
    Ok(())
}

/// Whether a row is one of those that are wanted.
fn is_wanted(wanted: Wanted, kept: &Kept) -> bool
    ensures { result ≡ is_wanted wanted (seen kept.now) }
{
    match wanted {
        Wanted::Rows => kept.is_there(),
        Wanted::Changes => kept.is_changed(),
    }
}

/// Writes a row that is wanted at the end. Where memory runs out a prefix of it may stand there.
fn write_row(wanted: Wanted, key: &Key, kept: &Kept, out: &mut Vec<u8>) -> Result<(), Memory>
    requires short { length key.now ≤ 2056 }
    requires wanted { is_wanted wanted (seen kept.now) ≡ true }
    ensures { OnOk result (out.new.items ≡ out.old.items ++ row_bytes wanted key.now kept.now) }
{
    let bytes = key.as_slice();
    put_u32(out, kept.node)?;
    put_u32(out, bytes.len() as u32)?;
    put_bytes(out, bytes)?;
    match wanted {
        Wanted::Rows => kept.state.encode(out),
        Wanted::Changes => write_now(&kept.state, out),
    }
}

/// Writes 00 for an empty state, and else 01 and the state. Where memory runs out a prefix of it may
/// stand there.
fn write_now(state: &AggState, out: &mut Vec<u8>) -> Result<(), Memory>
    ensures { OnOk result (out.new.items ≡ out.old.items ++ now_bytes (shown (held_of state.now))) }
{
    if state.is_empty() {
        return put_u8(out, 0);
    }
    put_u8(out, 1)?;
    state.encode(out)
}

/// How many rows stand on all sheets.
pub(crate) fn count_rows(sheets: &[Sheet]) -> u64
    requires { sheets_rows sheets.now < 2 ^ 64 }
    ensures { result ≡ sheets_rows sheets.now }
{
    let mut count = 0;
    for sheet in sheets {
        count += sheet.rows;
    }
    count
}

/// How many bytes stand on all sheets, for the room that they are written into.
pub(crate) fn count_bytes(sheets: &[Sheet]) -> usize {
    let mut count: usize = 0;
    for sheet in sheets {
        count = count.saturating_add(sheet.bytes.len());
    }
    count
}

/// Writes all sheets at the end, one after another. Where memory runs out some of them may stand there.
pub(crate) fn put_sheets(sheets: &[Sheet], out: &mut Vec<u8>) -> Result<(), Memory>
    ensures ok { OnOk result (out.new.items ≡ out.old.items ++ sheets_bytes sheets.now) }
    ensures err { OnErr result (Keeps out.old.items out.new.items) }
{
    for sheet in sheets {
        put_bytes(out, &sheet.bytes)?;
    }
    Ok(())
}
