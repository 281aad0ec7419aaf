ghost use Rattle.std.specs.Prelude.{◌≡◌, ℕ};
ghost use Rattle.rg_past.specs.declared.past.PastFault.{PastFault};
ghost use Rattle.rg_engine.specs.Carrying.{is_ending};
ghost use Rattle.rg_engine.specs.Faults.{table_fault_of, move_fault_of};

use rg_past::PastFault;
use rg_state::TableFault;
use rg_window::MoveFault;

/// Why an event wasn't answered.
#[derive(Clone, Copy, Debug, PartialEq, Eq, Hash)]
pub enum EngineFault {
    /// A call on the past was refused.
    Past(PastFault),
    /// The rows of the node of that number don't stand for the past.
    BadState(u32),
    /// Memory ran out.
    Memory,
    /// An earlier failure ended the engine.
    Ended,
    /// A call on the disk of the table failed.
    Table,
}

/// What a table's fault is called.
pub(crate) fn table_fault(fault: TableFault) -> EngineFault
    ensures called { result ≡ table_fault_of fault }
    ensures bad { (n : ℕ) → result ≡ EngineFault.BadState n → fault ≡ TableFault.BadState n }
    ensures disk { result ≡ EngineFault.Table → fault ≡ TableFault.Disk }
    ensures not_past { (fault : PastFault) → result ≡ EngineFault.Past fault → ⊥ }
    ensures not_ended { result ≡ EngineFault.Ended → ⊥ }
{
    match fault {
        TableFault::BadState(node) => EngineFault::BadState(node),
        TableFault::Memory => EngineFault::Memory,
        TableFault::Disk => EngineFault::Table,
    }
}

/// What a fault of a move is called.
pub(crate) fn move_fault(fault: MoveFault<TableFault>) -> EngineFault
    ensures called { result ≡ move_fault_of fault }
    ensures bad { (n : ℕ) → result ≡ EngineFault.BadState n → fault ≡ MoveFault.Visit (TableFault.BadState n) }
    ensures disk { result ≡ EngineFault.Table → fault ≡ MoveFault.Visit TableFault.Disk }
    ensures past { (cause : PastFault) → result ≡ EngineFault.Past cause → fault ≡ MoveFault.Past cause }
    ensures not_ended { result ≡ EngineFault.Ended → ⊥ }
{
    match fault {
        MoveFault::Past(fault) => EngineFault::Past(fault),
        MoveFault::Visit(fault) => table_fault(fault),
    }
}

/// Whether a refusal ends the engine: each does, but that of a full past.
pub(crate) fn is_ending(fault: EngineFault) -> bool
    ensures ends { result ≡ is_ending fault }
{
    match fault {
        EngineFault::Past(PastFault::Full) => false,
        EngineFault::Past(_) => true,
        EngineFault::BadState(_) => true,
        EngineFault::Memory => true,
        EngineFault::Ended => true,
        EngineFault::Table => true,
    }
}
