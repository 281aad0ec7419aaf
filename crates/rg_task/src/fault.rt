use rg_bytes::Memory;
use std::error::Error;
use std::fmt;

/// Why a call on a task was refused.
#[derive(Clone, Copy, Debug, PartialEq, Eq, Hash)]
pub enum TaskFault {
    /// A call on a file failed, of the store or of its table, and the task has counted it.
    Disk,
    /// The open frame of the log at that place, in bytes, is damaged.
    Damaged(u64),
    /// The rows of the node of that number don't stand for the events.
    BadState(u32),
    /// Memory ran out.
    Memory,
    /// An earlier failure ended the task.
    Ended,
}

impl fmt::Display for TaskFault {
    fn fmt<W: fmt::Write>(&self, f: &mut fmt::Formatter<W>) -> fmt::Result {
        match self {
            TaskFault::Disk => f.write_str("a call on a file failed"),
            TaskFault::Damaged(place) => write!(f, "the frame at byte {place} is damaged"),
            TaskFault::BadState(node) => write!(
                f,
                "the rows of node {node} don't stand for the events"
            ),
            TaskFault::Memory => f.write_str("out of memory"),
            TaskFault::Ended => f.write_str("an earlier call failed"),
        }
    }
}

impl Error for TaskFault {}

impl From<Memory> for TaskFault {
    ghost use Rattle.std.specs.Prelude.{◌≡◌};
    ghost use Rattle.rg_task.specs.declared.fault.TaskFault.TheVariants.{Memory};

    ghost from_gives = { λ _ fault. fault ≡ Memory };

    fn from(_memory: Memory) -> TaskFault {
        TaskFault::Memory
    }
}
