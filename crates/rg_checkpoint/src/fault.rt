use std::error::Error;
use std::fmt;

/// Why a payload gives no checkpoint.
#[derive(Clone, Copy, Debug, PartialEq, Eq, Hash)]
pub enum CheckpointFault {
    /// It is no base payload.
    BadCheckpoint,
    /// Memory ran out.
    Memory,
}

impl fmt::Display for CheckpointFault {
    fn fmt<W: fmt::Write>(&self, f: &mut fmt::Formatter<W>) -> fmt::Result {
        match self {
            CheckpointFault::BadCheckpoint => f.write_str("the bytes are no checkpoint"),
            CheckpointFault::Memory => f.write_str("out of memory"),
        }
    }
}

impl Error for CheckpointFault {}

/// Why a call on the slots was refused.
#[derive(Clone, Copy, Debug, PartialEq, Eq, Hash)]
pub enum SlotFault {
    /// A call on the disk failed, and the host has counted it.
    Disk,
    /// Memory ran out, in `attach`.
    Memory,
    /// An earlier `save` or `extend` failed.
    Ended,
}

impl fmt::Display for SlotFault {
    fn fmt<W: fmt::Write>(&self, f: &mut fmt::Formatter<W>) -> fmt::Result {
        match self {
            SlotFault::Disk => f.write_str("a call on a slot failed"),
            SlotFault::Memory => f.write_str("out of memory"),
            SlotFault::Ended => f.write_str("an earlier save or extend failed"),
        }
    }
}

impl Error for SlotFault {}
