ghost use Rattle.std.specs.Prelude.{◌≡◌, ◌↔◌, ◌<◌, ◌≤◌, ◌+◌, ◌^◌, ℕ, List, None, max, true, IfOk, OnOk, OnErr, IsErrOf};
ghost use Rattle.rg_bytes.specs.Counts.{Rose};
ghost use Rattle.rg_event.specs.declared.value.Value.{Value};
ghost use Rattle.rg_metric.specs.Answers.{answer_of};
ghost use Rattle.rg_state.specs.Cells.{cell_in, named_in, there_in, AreBelow};
ghost use Rattle.rg_state.specs.Changes.{SameMarks, OtherMarks, NoMarks, IsNamed, was_there};
ghost use Rattle.rg_state.specs.Rows.{RowStands, Changed, Counts, Suits, Unfit, IsRefused, IsOf, Same, Others};
ghost use Rattle.rg_metric.specs.Admitted.{IsAdmitted};

use crate::one::Refusal;
use crate::sheets::{Sheet, Wanted};
use crate::slots::Slots;
use crate::state::AggState;
use crate::table::{Change, Table, TableFault};
use crate::writing::write_counted;
use rg_event::Value;
use rg_group::Key;
use rg_metric::{Answer, Func};
use std::alloc::Global;

/// A table whose rows stand in memory: an index leads from each key to its slot, and a slot has the states
/// of its key by node, each with what is remembered of its row since the mark. It takes at most 2^32 - 1
/// keys at a time, and none of more than 2,056 bytes: more of them is refused as memory.
#[derive(Drop)]
pub struct MemTable {
    alloc: Global,
    slots: Slots,
    /// One above the greatest node that was named in a change or put in.
    nodes: u64,
    /// The sheets that rows were written on last, for their room.
    used: Vec<Sheet>,
    /// What was made of the looks at the rows that were written last. Nothing asks for it.
    seen: u64,
    ghost few: { nodes ≤ 2 ^ 32 },
    ghost below: { AreBelow nodes slots.rows.items },
}

impl MemTable {
    /// A table without a row.
    pub fn new(alloc: Global) -> MemTable
        // A new table in memory has no rows and no marks, tells its rows, and has no disk.
        ensures none { (node : ℕ) (key : List ℕ) → ⟦<MemTable as Table>⟧.cell result node key ≡ None }
        ensures none_named { NoMarks (⟦<MemTable as Table>⟧.named result) }
        ensures none_there { NoMarks (⟦<MemTable as Table>⟧.there result) }
        ensures tells { ⟦<MemTable as Table>⟧.tells result }
        ensures faults { ⟦<MemTable as Table>⟧.faults result ≡ 0 }
    {
        MemTable {
            alloc,
            slots: Slots::new(alloc),
            nodes: 0,
            used: Vec::new(alloc),
            seen: 0,
        }
    }
}

/// The number of nodes, or one above this node where that is more.
fn reach(nodes: u64, node: u32) -> u64
    ensures { result ≡ max nodes (node + 1) }
{
    let above = node as u64 + 1;
    if nodes < above {
        return above;
    }
    nodes
}

impl Table for MemTable {
    ghost use Rattle.std.specs.Prelude.{⊤};
    ghost use Rattle.rg_state.specs.Cells.{cell_in, named_in, there_in, held_row, entries_from, pairs_from};
    ghost use Rattle.rg_state.specs.CellLaws.{filled_cell, state_cell, bounded_cell, there_cell, bounded_there, lists_all};

    ghost cell = { λ table. cell_in table.slots.rows.items };

    ghost named = { λ table. named_in table.slots.rows.items };

    ghost there = { λ table. there_in table.slots.rows.items };

    ghost tells = { λ _. ⊤ };

    ghost faults = { λ _. 0 };

    fn change(
        &mut self,
        node: u32,
        key: &Key,
        func: Func,
        change: Change,
        value: &Value,
    ) -> Result<(), TableFault>
        requires { IsAdmitted func value.now }
        ensures changed { ⟦<MemTable as Table>⟧.tells self.old → OnOk result (Changed func change value.now (⟦<MemTable as Table>⟧.cell self.old node key.now) (⟦<MemTable as Table>⟧.cell self.new node key.now)) }
        ensures suits { ⟦<MemTable as Table>⟧.tells self.old → OnOk result (Suits func change value.now (⟦<MemTable as Table>⟧.cell self.old node key.now)) }
        ensures own { ⟦<MemTable as Table>⟧.tells self.old → OnOk result (IsOf func (⟦<MemTable as Table>⟧.cell self.new node key.now)) }
        ensures size { ⟦<MemTable as Table>⟧.tells self.old → OnOk result (Counts change (⟦<MemTable as Table>⟧.cell self.old node key.now) (⟦<MemTable as Table>⟧.cell self.new node key.now)) }
        ensures others { ⟦<MemTable as Table>⟧.tells self.old → Others node key.now (⟦<MemTable as Table>⟧.cell self.old) (⟦<MemTable as Table>⟧.cell self.new) }
        ensures err { ⟦<MemTable as Table>⟧.tells self.old → OnErr result (Same (⟦<MemTable as Table>⟧.cell self.old) (⟦<MemTable as Table>⟧.cell self.new)) }
        ensures named { ⟦<MemTable as Table>⟧.tells self.old → OnOk result (IsNamed (⟦<MemTable as Table>⟧.named self.new node key.now) (⟦<MemTable as Table>⟧.there self.new node key.now) (⟦<MemTable as Table>⟧.cell self.new node key.now)) }
        ensures there { ⟦<MemTable as Table>⟧.tells self.old → OnOk result (⟦<MemTable as Table>⟧.there self.new node key.now ≡ was_there (⟦<MemTable as Table>⟧.named self.old node key.now) (⟦<MemTable as Table>⟧.there self.old node key.now) (⟦<MemTable as Table>⟧.cell self.old node key.now)) }
        ensures other_named { ⟦<MemTable as Table>⟧.tells self.old → OtherMarks node key.now (⟦<MemTable as Table>⟧.named self.old) (⟦<MemTable as Table>⟧.named self.new) }
        ensures other_there { ⟦<MemTable as Table>⟧.tells self.old → OtherMarks node key.now (⟦<MemTable as Table>⟧.there self.old) (⟦<MemTable as Table>⟧.there self.new) }
        ensures same_named { ⟦<MemTable as Table>⟧.tells self.old → OnErr result (SameMarks (⟦<MemTable as Table>⟧.named self.old) (⟦<MemTable as Table>⟧.named self.new)) }
        ensures same_there { ⟦<MemTable as Table>⟧.tells self.old → OnErr result (SameMarks (⟦<MemTable as Table>⟧.there self.old) (⟦<MemTable as Table>⟧.there self.new)) }
        ensures bad { (n : ℕ) → IsErrOf result (TableFault.BadState n) → n ≡ node }
        ensures unfit { (n : ℕ) → IsErrOf result (TableFault.BadState n) → ⟦<MemTable as Table>⟧.tells self.old → Unfit func change value.now (⟦<MemTable as Table>⟧.cell self.old node key.now) }
        ensures causes { (n : ℕ) → IsErrOf result (TableFault.BadState n) → ⟦<MemTable as Table>⟧.tells self.old → IsRefused func change value.now (⟦<MemTable as Table>⟧.cell self.old node key.now) }
        ensures disk { IsErrOf result TableFault.Disk → Rose (⟦<MemTable as Table>⟧.faults self.old) (⟦<MemTable as Table>⟧.faults self.new) }
        ensures tells { ⟦<MemTable as Table>⟧.tells self.new ↔ ⟦<MemTable as Table>⟧.tells self.old }
        ensures later { ⟦<MemTable as Table>⟧.faults self.old ≤ ⟦<MemTable as Table>⟧.faults self.new }

        // A removal takes no memory.
        ensures no_memory { change ≡ Change.Remove → IsErrOf result TableFault.Memory → ⊥ }
    {
        self.nodes = reach(self.nodes, node);
        match change {
            Change::Add => match self.slots.add(self.alloc, node, key, func, value) {
                Ok(()) => Ok(()),
                Err(Refusal::Unfit) => Err(TableFault::BadState(node)),
                Err(Refusal::Memory) => Err(TableFault::Memory),
            },
            Change::Remove => match self.slots.remove(node, key, func, value) {
                Ok(()) => Ok(()),
                Err(_) => Err(TableFault::BadState(node)),
            },
        }
    }

    fn answer(&mut self, node: u32, key: &Key, func: Func) -> Result<Answer, TableFault>
        ensures answer { ⟦<MemTable as Table>⟧.tells self.old → (values : List Value) → RowStands func (⟦<MemTable as Table>⟧.cell self.old node key.now) values → IfOk result (λ answer. answer ≡ answer_of func values) }
        ensures own { ⟦<MemTable as Table>⟧.tells self.old → OnOk result (IsOf func (⟦<MemTable as Table>⟧.cell self.old node key.now)) }
        ensures same { ⟦<MemTable as Table>⟧.tells self.old → Same (⟦<MemTable as Table>⟧.cell self.old) (⟦<MemTable as Table>⟧.cell self.new) }
        ensures same_named { ⟦<MemTable as Table>⟧.tells self.old → SameMarks (⟦<MemTable as Table>⟧.named self.old) (⟦<MemTable as Table>⟧.named self.new) }
        ensures same_there { ⟦<MemTable as Table>⟧.tells self.old → SameMarks (⟦<MemTable as Table>⟧.there self.old) (⟦<MemTable as Table>⟧.there self.new) }
        ensures bad { (n : ℕ) → IsErrOf result (TableFault.BadState n) → n ≡ node }
        ensures unfit { (n : ℕ) → IsErrOf result (TableFault.BadState n) → ⟦<MemTable as Table>⟧.tells self.old → (values : List Value) → RowStands func (⟦<MemTable as Table>⟧.cell self.old node key.now) values → ⊥ }
        ensures causes { (n : ℕ) → IsErrOf result (TableFault.BadState n) → ⟦<MemTable as Table>⟧.tells self.old → IsOf func (⟦<MemTable as Table>⟧.cell self.old node key.now) → ⊥ }
        ensures disk { IsErrOf result TableFault.Disk → Rose (⟦<MemTable as Table>⟧.faults self.old) (⟦<MemTable as Table>⟧.faults self.new) }
        ensures tells { ⟦<MemTable as Table>⟧.tells self.new ↔ ⟦<MemTable as Table>⟧.tells self.old }
        ensures later { ⟦<MemTable as Table>⟧.faults self.old ≤ ⟦<MemTable as Table>⟧.faults self.new }

        // An answer takes no memory.
        ensures no_memory { IsErrOf result TableFault.Memory → ⊥ }
    {
        match self.slots.answer(node, key, func) {
            Some(answer) => Ok(answer),
            None => Err(TableFault::BadState(node)),
        }
    }

    fn insert(&mut self, node: u32, key: Key, state: AggState) -> Result<(), TableFault> {
        self.nodes = reach(self.nodes, node);
        match self.slots.insert(self.alloc, node, key, state) {
            Ok(()) => Ok(()),
            Err(_) => Err(TableFault::Memory),
        }
    }

    fn write_rows(&mut self, out: &mut Vec<u8>) -> Result<(), TableFault> {
        let start = out.len();
        match write_counted(
            self.alloc,
            Wanted::Rows,
            self.nodes,
            &self.slots,
            &mut self.used,
            out,
        ) {
            Ok(seen) => {
                self.seen = seen;
                Ok(())
            }
            Err(_) => {
                out.truncate(start);
                Err(TableFault::Memory)
            }
        }
    }

    fn mark(&mut self) {
        self.slots.settle();
    }

    fn write_changes(&mut self, out: &mut Vec<u8>) -> Result<(), TableFault> {
        let start = out.len();
        match write_counted(
            self.alloc,
            Wanted::Changes,
            self.nodes,
            &self.slots,
            &mut self.used,
            out,
        ) {
            Ok(seen) => {
                self.seen = seen;
                Ok(())
            }
            Err(_) => {
                out.truncate(start);
                Err(TableFault::Memory)
            }
        }
    }

    ghost filled = { λ table node key held _ found. filled_cell table.slots.rows.items node key held found };

    ghost states = { λ table node key held _ found. state_cell table.slots.rows.items node key held found };

    ghost bounded = { λ table node key held _ found. bounded_cell table.slots.rows.items table.nodes node key held table.few table.slots.bound table.below found };

    ghost there_named = { λ table node key _ is. there_cell table.slots.rows.items node key is };

    ghost there_bounded = { λ table node key _ is. bounded_there table.slots.rows.items table.nodes node key table.few table.slots.bound table.below is };

    ghost finite = { λ table _. (entries_from (held_row table.slots.rows.items) 0 table.nodes (pairs_from 0 table.slots.rows.items), lists_all table.slots.rows.items table.nodes table.slots.bound table.below) };
}
