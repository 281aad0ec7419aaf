ghost use Rattle.std.specs.Prelude.{◌≡◌, ◌≤◌, ◌<◌, ◌^◌, ◌++◌, ℕ, false, length, IfOk, IsTrue, OnOk, OnErr};
ghost use Rattle.rg_bytes.specs.Keeps.{Keeps};
ghost use Rattle.rg_state.specs.Cells.{AreBelow, row_at, key_at};
ghost use Rattle.rg_state.specs.Sheets.{is_wanted, pairs_of, AreInOrder, AreWritten, IsReadyAt, GetsAt, WritesSpans};

use crate::ahead::Ahead;
use crate::sheets::{Sheet, Wanted, blank_sheets, count_bytes, count_rows, put_key, put_sheets};
use crate::slots::Slots;
use rg_bytes::{Memory, put_u64};
use std::alloc::Global;

/// Writes the number of the rows that are wanted in 8 bytes at the end, and those of the nodes below this
/// number, which are all. Where memory runs out a prefix of them may stand there. The sheets are `used`
/// then, whose room the next ones take. Answers what was made of the looks at the rows.
pub(crate) fn write_counted(
    alloc: Global,
    wanted: Wanted,
    nodes: u64,
    slots: &Slots,
    used: &mut Vec<Sheet>,
    out: &mut Vec<u8>,
) -> Result<u64, Memory>
    requires few { nodes ≤ 2 ^ 32 }
    requires below { AreBelow nodes slots.now.rows.items }
    ensures ok { OnOk result (WritesSpans wanted nodes slots.now.rows.items out.old.items out.new.items) }
    ensures err { OnErr result (Keeps out.old.items out.new.items) }
{
    let filled = fill(alloc, wanted, nodes, slots, used)?;
    out.reserve(count_bytes(&filled.sheets).saturating_add(8))?;
    put_u64(out, count_rows(&filled.sheets))?;
    put_sheets(&filled.sheets, out)?;
    let Filled { sheets, seen } = filled;
    *used = sheets;
    Ok(seen)
}

/// The rows that are wanted on their nodes' sheets, and what was made of the looks at them.
#[derive(Drop)]
struct Filled {
    sheets: Vec<Sheet>,
    seen: u64,
}

/// A sheet for each node below this number, with all its rows that are wanted.
fn fill(
    alloc: Global,
    wanted: Wanted,
    nodes: u64,
    slots: &Slots,
    used: &mut Vec<Sheet>,
) -> Result<Filled, Memory>
    requires { AreBelow nodes slots.now.rows.items }
    ensures { IfOk result (λ filled. AreWritten wanted nodes slots.now.rows.items filled.sheets.items) }
{
    let list = slots.wanted(alloc, wanted)?;
    fill_listed(alloc, wanted, nodes, slots, &list, used)
}

/// Fills the sheets from these slots, in which the rows that are wanted are, their keys rising.
fn fill_listed(
    alloc: Global,
    wanted: Wanted,
    nodes: u64,
    slots: &Slots,
    list: &[u32],
    used: &mut Vec<Sheet>,
) -> Result<Filled, Memory>
    requires below { AreBelow nodes slots.now.rows.items }
    requires order { AreInOrder wanted slots.now.rows.items (pairs_of slots.now.rows.items list.now) }
    requires few { length list.now < 2 ^ 32 }
    ensures { IfOk result (λ filled. AreWritten wanted nodes slots.now.rows.items filled.sheets.items) }
{
    let mut sheets = blank_sheets(alloc, nodes, used)?;
    let mut ahead = Ahead::new(slots, list);
    for slot in list {
        ahead.turn();
        put_slot(wanted, *slot, slots, &mut sheets)?;
    }
    Ok(Filled {
        sheets,
        seen: ahead.seen,
    })
}

/// Writes the rows in a slot that are wanted on their nodes' sheets. Where memory runs out some of them may
/// stand there.
fn put_slot(wanted: Wanted, slot: u32, slots: &Slots, sheets: &mut Vec<Sheet>) -> Result<(), Memory>
    requires { IsReadyAt wanted (key_at slots.now.rows.items slot) slots.now.rows.items slot sheets.old.items }
    ensures { OnOk result (GetsAt wanted (key_at slots.now.rows.items slot) slots.now.rows.items slot sheets.old.items sheets.new.items) }
{
    let rows = &slots.rows[slot as usize];
    put_key(wanted, &rows.key, &rows.kept, sheets)?;
    Ok(())
}
