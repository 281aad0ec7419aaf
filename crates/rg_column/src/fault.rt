use rg_bytes::{Memory, Short};
use std::alloc::{AllocError, AllocFailed};
use std::error::Error;
use std::fmt;

/// Why bytes begin with no columns.
#[derive(Clone, Copy, Debug, PartialEq, Eq, Hash)]
pub enum ColumnFault {
    /// They end within a column, and no column before it is bad.
    Short,
    /// The first bad column is this one: 0 for the offsets and the times, or a column of the schema from 1.
    BadColumn(u32),
    /// Memory ran out.
    Memory,
}

impl fmt::Display for ColumnFault {
    fn fmt<W: fmt::Write>(&self, f: &mut fmt::Formatter<W>) -> fmt::Result {
        match self {
            ColumnFault::Short => f.write_str("the bytes end within a column"),
            ColumnFault::BadColumn(column) => write!(f, "column {column} is bad"),
            ColumnFault::Memory => f.write_str("out of memory"),
        }
    }
}

impl Error for ColumnFault {}

impl From<Memory> for ColumnFault {
    ghost use Rattle.std.specs.Prelude.{◌≡◌};
    ghost use Rattle.rg_column.specs.declared.fault.ColumnFault.TheVariants.{Memory};

    ghost from_gives = { λ _ fault. fault ≡ Memory };

    fn from(_memory: Memory) -> ColumnFault {
        ColumnFault::Memory
    }
}

impl From<AllocError> for ColumnFault {
    ghost use Rattle.std.specs.Prelude.{◌≡◌};
    ghost use Rattle.rg_column.specs.declared.fault.ColumnFault.TheVariants.{Memory};

    ghost from_gives = { λ _ fault. fault ≡ Memory };

    fn from(_error: AllocError) -> ColumnFault {
        ColumnFault::Memory
    }
}

impl<T: Drop> From<AllocFailed<T>> for ColumnFault {
    ghost use Rattle.std.specs.Prelude.{◌≡◌};
    ghost use Rattle.rg_column.specs.declared.fault.ColumnFault.TheVariants.{Memory};

    ghost from_gives = { λ _ fault. fault ≡ Memory };

    fn from(_failed: AllocFailed<T>) -> ColumnFault {
        ColumnFault::Memory
    }
}

impl From<Short> for ColumnFault {
    ghost use Rattle.std.specs.Prelude.{◌≡◌};
    ghost use Rattle.rg_column.specs.declared.fault.ColumnFault.TheVariants.{Short};

    ghost from_gives = { λ _ fault. fault ≡ Short };

    fn from(_short: Short) -> ColumnFault {
        ColumnFault::Short
    }
}
