ghost use Rattle.std.specs.Prelude.{◌≡◌};
ghost use Rattle.rg_chunk.specs.Faults.{event_fault as fault_in_chunk};

use rg_bytes::Memory;
use rg_column::ColumnFault;
use rg_event::EventFault;
use std::error::Error;
use std::fmt;

/// Why a payload gives no chunk.
#[derive(Clone, Copy, Debug, PartialEq, Eq, Hash)]
pub enum ChunkFault {
    /// It is no chunk payload.
    BadChunk,
    /// Memory ran out.
    Memory,
}

impl fmt::Display for ChunkFault {
    fn fmt<W: fmt::Write>(&self, f: &mut fmt::Formatter<W>) -> fmt::Result {
        match self {
            ChunkFault::BadChunk => f.write_str("the bytes are no chunk"),
            ChunkFault::Memory => f.write_str("out of memory"),
        }
    }
}

impl Error for ChunkFault {}

impl From<Memory> for ChunkFault {
    ghost use Rattle.std.specs.Prelude.{◌≡◌};
    ghost use Rattle.rg_chunk.specs.declared.fault.ChunkFault.TheVariants.{Memory};

    ghost from_gives = { λ _ fault. fault ≡ Memory };

    fn from(_memory: Memory) -> ChunkFault {
        ChunkFault::Memory
    }
}

/// A chunk whose head or events are bad is no chunk.
impl From<EventFault> for ChunkFault {
    ghost use Rattle.std.specs.Prelude.{◌≡◌};
    ghost use Rattle.rg_chunk.specs.Faults.{chunk_fault};

    ghost from_gives = { λ why fault. fault ≡ chunk_fault why };

    fn from(fault: EventFault) -> ChunkFault {
        match fault {
            EventFault::Memory => ChunkFault::Memory,
            EventFault::Short | EventFault::BadValue(_) => ChunkFault::BadChunk,
        }
    }
}

/// What a fault of columns is called in a chunk.
pub(crate) fn event_fault(fault: ColumnFault) -> EventFault
    ensures { result ≡ fault_in_chunk fault }
{
    match fault {
        ColumnFault::Short => EventFault::Short,
        ColumnFault::BadColumn(column) => EventFault::BadValue(column),
        ColumnFault::Memory => EventFault::Memory,
    }
}
