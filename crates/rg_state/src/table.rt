ghost use Rattle.std.specs.Prelude.{◌≡◌, ◌↔◌, ℕ, ◌≤◌, ◌<◌, ◌^◌, ◌++◌, List, Some, None, Option, Bool, true, length, IfOk, OnOk, OnErr, IsErrOf};
ghost use Rattle.rg_bytes.specs.Counts.{Rose};
ghost use Rattle.rg_event.specs.declared.value.Value.{Value};
ghost use Rattle.rg_agg.specs.Held.{Held};
ghost use Rattle.rg_agg.specs.Standing.{size_in};
ghost use Rattle.rg_metric.specs.Answers.{answer_of};
ghost use Rattle.rg_state.specs.Changes.{SameMarks, OtherMarks, NoMarks, IsNamed, was_there, WritesChanges};
ghost use Rattle.rg_state.specs.Counted.{WritesCounted};
ghost use Rattle.rg_state.specs.Rows.{RowStands, Changed, Counts, Suits, Unfit, IsRefused, IsOf, Same, Others, Entry, Lists};
ghost use Rattle.rg_state.specs.States.{held_of, IsHeld};
ghost use Rattle.rg_metric.specs.Admitted.{IsAdmitted};

use crate::state::AggState;
use rg_event::Value;
use rg_group::Key;
use rg_metric::{Answer, Func};

/// What becomes of a row.
#[derive(Clone, Copy, Debug, PartialEq, Eq, Hash)]
pub enum Change {
    /// A value is added at the back.
    Add,
    /// The first value is taken away.
    Remove,
}

/// Why a call on a table was refused.
#[derive(Clone, Copy, Debug, PartialEq, Eq, Hash)]
pub enum TableFault {
    /// The row of that node is not one that the call could change or answer from.
    BadState(u32),
    /// Memory ran out.
    Memory,
    /// A call on the table's disk failed.
    Disk,
}

/// States by node and key. A row is there exactly where its state stands for some values.
pub trait Table {
    /// What the row of a node and a key keeps, where there is one.
    ghost cell: { Self → ℕ → List ℕ → Option Held };

    /// The row was named by a change or an insert since the table was marked last. One that wasn't there
    /// then and isn't there now needn't be.
    ghost named: { Self → ℕ → List ℕ → Bool };

    /// The row was named, and it was there when the table was marked last.
    ghost there: { Self → ℕ → List ℕ → Bool };

    /// The table tells its rows.
    ghost tells: { Self → Type 0 };

    /// How often a call on its disk has failed, up to 2^64 - 1.
    ghost faults: { Self → ℕ };

    /// Adds a value to the row of a node and a key, or takes it away. A row that becomes empty is gone.
    /// A refusal leaves each row as it was.
    fn change(
        &mut self,
        node: u32,
        key: &Key,
        func: Func,
        change: Change,
        value: &Value,
    ) -> Result<(), TableFault>
        requires { IsAdmitted func value.now }
        // One row changes, by the lists that it stands for before and after; a row without values is gone.
        ensures changed { tells self.old → OnOk result (Changed func change value.now (cell self.old node key.now) (cell self.new node key.now)) }
        ensures suits { tells self.old → OnOk result (Suits func change value.now (cell self.old node key.now)) }

        // The row is of that function afterwards, with one value more or fewer.
        ensures own { tells self.old → OnOk result (IsOf func (cell self.new node key.now)) }
        ensures size { tells self.old → OnOk result (Counts change (cell self.old node key.now) (cell self.new node key.now)) }

        // Each other row stays.
        ensures others { tells self.old → Others node key.now (cell self.old) (cell self.new) }

        // A refusal leaves all rows.
        ensures err { tells self.old → OnErr result (Same (cell self.old) (cell self.new)) }

        // The row is told as changed since the mark, and whether it was there then.
        ensures named { tells self.old → OnOk result (IsNamed (named self.new node key.now) (there self.new node key.now) (cell self.new node key.now)) }
        ensures there { tells self.old → OnOk result (there self.new node key.now ≡ was_there (named self.old node key.now) (there self.old node key.now) (cell self.old node key.now)) }
        ensures other_named { tells self.old → OtherMarks node key.now (named self.old) (named self.new) }
        ensures other_there { tells self.old → OtherMarks node key.now (there self.old) (there self.new) }

        // A refusal leaves the marks.
        ensures same_named { tells self.old → OnErr result (SameMarks (named self.old) (named self.new)) }
        ensures same_there { tells self.old → OnErr result (SameMarks (there self.old) (there self.new)) }

        // A bad state is told of this node alone.
        ensures bad { (n : ℕ) → IsErrOf result (TableFault.BadState n) → n ≡ node }

        // It is told only of a row that the change doesn't fit.
        ensures unfit { (n : ℕ) → IsErrOf result (TableFault.BadState n) → tells self.old → Unfit func change value.now (cell self.old node key.now) }
        ensures causes { (n : ℕ) → IsErrOf result (TableFault.BadState n) → tells self.old → IsRefused func change value.now (cell self.old node key.now) }

        // Disk comes only where the table's count of failed calls rose.
        ensures disk { IsErrOf result TableFault.Disk → Rose (faults self.old) (faults self.new) }
        ensures tells { tells self.new ↔ tells self.old }
        ensures later { faults self.old ≤ faults self.new };

    /// The answer of the row of a node and a key. Without one it is that of no values.
    fn answer(&mut self, node: u32, key: &Key, func: Func) -> Result<Answer, TableFault>
        // The answer is the definition's over the row's values.
        ensures answer { tells self.old → (values : List Value) → RowStands func (cell self.old node key.now) values → IfOk result (λ answer. answer ≡ answer_of func values) }
        ensures own { tells self.old → OnOk result (IsOf func (cell self.old node key.now)) }

        // Rows and marks stay.
        ensures same { tells self.old → Same (cell self.old) (cell self.new) }
        ensures same_named { tells self.old → SameMarks (named self.old) (named self.new) }
        ensures same_there { tells self.old → SameMarks (there self.old) (there self.new) }

        // A bad state is told of this node alone, and only of a row of another function.
        ensures bad { (n : ℕ) → IsErrOf result (TableFault.BadState n) → n ≡ node }
        ensures unfit { (n : ℕ) → IsErrOf result (TableFault.BadState n) → tells self.old → (values : List Value) → RowStands func (cell self.old node key.now) values → ⊥ }
        ensures causes { (n : ℕ) → IsErrOf result (TableFault.BadState n) → tells self.old → IsOf func (cell self.old node key.now) → ⊥ }
        ensures disk { IsErrOf result TableFault.Disk → Rose (faults self.old) (faults self.new) }
        ensures tells { tells self.new ↔ tells self.old }
        ensures later { faults self.old ≤ faults self.new };

    /// Puts a state that isn't empty where there is no row. A refusal leaves each row as it was.
    fn insert(&mut self, node: u32, key: Key, state: AggState) -> Result<(), TableFault>
        requires free { tells self.old → cell self.old node key ≡ None }
        requires some { 0 < size_in (held_of state) }
        // The state stands in the row.
        ensures row { tells self.old → OnOk result (cell self.new node key ≡ Some (held_of state)) }

        // Each other row stays, and all of them at a refusal.
        ensures others { tells self.old → Others node key (cell self.old) (cell self.new) }
        ensures err { tells self.old → OnErr result (Same (cell self.old) (cell self.new)) }

        // The row is told as changed since the mark, and whether it was there then.
        ensures named { tells self.old → OnOk result (IsNamed (named self.new node key) (there self.new node key) (cell self.new node key)) }
        ensures there { tells self.old → OnOk result (there self.new node key ≡ was_there (named self.old node key) (there self.old node key) (cell self.old node key)) }
        ensures other_named { tells self.old → OtherMarks node key (named self.old) (named self.new) }
        ensures other_there { tells self.old → OtherMarks node key (there self.old) (there self.new) }

        // A refusal leaves the marks.
        ensures same_named { tells self.old → OnErr result (SameMarks (named self.old) (named self.new)) }
        ensures same_there { tells self.old → OnErr result (SameMarks (there self.old) (there self.new)) }
        ensures no_bad { (n : ℕ) → IsErrOf result (TableFault.BadState n) → ⊥ }
        ensures disk { IsErrOf result TableFault.Disk → Rose (faults self.old) (faults self.new) }
        ensures tells { tells self.new ↔ tells self.old }
        ensures later { faults self.old ≤ faults self.new };

    /// Writes the number of the rows in 8 bytes at the end, and then all rows, rising by node and key: the
    /// node in 4 bytes, the key's length in 4 and its bytes, and the state. A refusal leaves `out` as it was.
    fn write_rows(&mut self, out: &mut Vec<u8>) -> Result<(), TableFault>
        // The rows are written behind their number, rising by node and key.
        ensures written { tells self.old → OnOk result (WritesCounted (cell self.old) out.old.items out.new.items) }
        ensures appended { OnOk result ((written : List ℕ) × (out.new.items ≡ out.old.items ++ written)) }

        // Rows and marks stay.
        ensures same { tells self.old → Same (cell self.old) (cell self.new) }
        ensures same_named { tells self.old → SameMarks (named self.old) (named self.new) }
        ensures same_there { tells self.old → SameMarks (there self.old) (there self.new) }
        ensures err { OnErr result (out.new.items ≡ out.old.items) }
        ensures no_bad { (n : ℕ) → IsErrOf result (TableFault.BadState n) → ⊥ }
        ensures disk { IsErrOf result TableFault.Disk → Rose (faults self.old) (faults self.new) }
        ensures tells { tells self.new ↔ tells self.old }
        ensures later { faults self.old ≤ faults self.new };

    /// Makes this the mark: no row was named since. The rows stay. It takes no memory.
    fn mark(&mut self)
        // The rows stay, and then no row was named.
        ensures same { tells self.old → Same (cell self.old) (cell self.new) }
        ensures none_named { tells self.old → NoMarks (named self.new) }
        ensures none_there { tells self.old → NoMarks (there self.new) }
        ensures tells { tells self.new ↔ tells self.old }
        ensures later { faults self.old ≤ faults self.new };

    /// Writes what changed since the mark at the end: in 8 bytes how many rows that are, and the rows that
    /// were named and are there or were, rising by node and key: the node in 4 bytes, the key's length in 4
    /// and its bytes, and 00 for a row that is gone, or 01 and the state. A refusal leaves `out` as it was.
    fn write_changes(&mut self, out: &mut Vec<u8>) -> Result<(), TableFault>
        // Exactly the rows that were named and are there or were are written, as they are now or as gone.
        ensures written { tells self.old → OnOk result ((written : List ℕ) × WritesChanges (named self.old) (there self.old) (cell self.old) written × (out.new.items ≡ out.old.items ++ written)) }
        ensures appended { OnOk result ((written : List ℕ) × (out.new.items ≡ out.old.items ++ written)) }

        // Rows and marks stay.
        ensures same { tells self.old → Same (cell self.old) (cell self.new) }
        ensures same_named { tells self.old → SameMarks (named self.old) (named self.new) }
        ensures same_there { tells self.old → SameMarks (there self.old) (there self.new) }
        ensures err { OnErr result (out.new.items ≡ out.old.items) }
        ensures no_bad { (n : ℕ) → IsErrOf result (TableFault.BadState n) → ⊥ }
        ensures disk { IsErrOf result TableFault.Disk → Rose (faults self.old) (faults self.new) }
        ensures tells { tells self.new ↔ tells self.old }
        ensures later { faults self.old ≤ faults self.new };

    /// No row is empty.
    ghost filled: { (table : Self) (node : ℕ) (key : List ℕ) (held : Held) → tells table → cell table node key ≡ Some held → 0 < size_in held };

    /// What a row keeps is what a state of one of the aggregators keeps.
    ghost states: { (table : Self) (node : ℕ) (key : List ℕ) (held : Held) → tells table → cell table node key ≡ Some held → IsHeld held };

    /// The number of a node fits the 4 bytes that it is written in, and a row's key has at most 257
    /// bytes for each of eight columns.
    ghost bounded: { (table : Self) (node : ℕ) (key : List ℕ) (held : Held) → tells table → cell table node key ≡ Some held → (node < 2 ^ 32) × (length key ≤ 2056) };

    /// A row that was there was named, and is one whose node and key fit.
    ghost there_named: { (table : Self) (node : ℕ) (key : List ℕ) → tells table → there table node key ≡ true → named table node key ≡ true };

    ghost there_bounded: { (table : Self) (node : ℕ) (key : List ℕ) → tells table → there table node key ≡ true → (node < 2 ^ 32) × (length key ≤ 2056) };

    /// The rows are finitely many.
    ghost finite: { (table : Self) → tells table → (entries : List Entry) × Lists (cell table) entries };
}
