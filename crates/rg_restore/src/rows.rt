ghost use Rattle.std.specs.Prelude.{◌≡◌, ℕ, OnOk, IsErrOf};
ghost use Rattle.rg_bytes.specs.Counts.{Rose};
ghost use Rattle.rg_past.specs.declared.past.PastFault.{PastFault};
ghost use Rattle.rg_state.specs.Keeping.{TableKept};
ghost use Rattle.rg_checkpoint.specs.Entries.{entries_of};
ghost use Rattle.rg_restore.specs.Opening.{AreMovable, IsEmpty};
ghost use Rattle.rg_restore.specs.Since.{IsMarkedAt};

use rg_checkpoint::Row;
use rg_engine::EngineFault;
use rg_state::{Table, TableFault};

/// Moves rows into a table without a row, and marks it once all are there. None of them is copied. After
/// a refusal the first ones of them are there.
pub(crate) fn move_rows<T: Table>(table: &mut T, rows: Vec<Row>) -> Result<(), TableFault>
    requires movable { AreMovable (entries_of rows.items) }
    requires empty { T.tells table.old → IsEmpty (T.cell table.old) }
    ensures marked { T.tells table.old → OnOk result (IsMarkedAt (entries_of rows.items) (T.named table.new) (T.there table.new) (T.cell table.new)) }
    ensures no_bad { (n : ℕ) → IsErrOf result (TableFault.BadState n) → ⊥ }
    ensures disk { IsErrOf result TableFault.Disk → Rose (T.faults table.old) (T.faults table.new) }
    ensures kept { TableKept T.tells T.faults table.old table.new }
{
    'rows: for row in rows {
        let Row { node, key, state } = row;
        match table.insert(node, key, state) {
            Err(fault) => return Err(fault),
            Ok(()) => {}
        }
    }
    table.mark();
    Ok(())
}

/// What a fault of inserting rows is called.
pub(crate) fn engine_fault(fault: TableFault) -> EngineFault
    ensures disk { result ≡ EngineFault.Table → fault ≡ TableFault.Disk }
    ensures bad { (n : ℕ) → result ≡ EngineFault.BadState n → fault ≡ TableFault.BadState n }
    ensures not_past { (cause : PastFault) → result ≡ EngineFault.Past cause → ⊥ }
    ensures not_ended { result ≡ EngineFault.Ended → ⊥ }
{
    match fault {
        TableFault::BadState(node) => EngineFault::BadState(node),
        TableFault::Memory => EngineFault::Memory,
        TableFault::Disk => EngineFault::Table,
    }
}
