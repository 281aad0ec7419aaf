use rg_host::Failed;
use std::error::Error;
use std::fmt;

/// Why a call on a log of frames failed.
#[derive(Clone, Copy, Debug, PartialEq, Eq, Hash)]
pub enum FrameFault {
    /// A call on the file failed, and the host has counted it.
    Disk,
    /// The gate at that place, in bytes, is open, and no whole frame and one more byte follow it.
    Damaged(u64),
    /// Memory ran out.
    Memory,
    /// An earlier `append` or `clear` of this log failed.
    Ended,
}

impl fmt::Display for FrameFault {
    fn fmt<W: fmt::Write>(&self, f: &mut fmt::Formatter<W>) -> fmt::Result {
        match self {
            FrameFault::Disk => f.write_str("a call on the file failed"),
            FrameFault::Damaged(place) => write!(f, "the frame at byte {place} is damaged"),
            FrameFault::Memory => f.write_str("out of memory"),
            FrameFault::Ended => f.write_str("an earlier append or clear of the log failed"),
        }
    }
}

impl Error for FrameFault {}

impl From<Failed> for FrameFault {
    ghost use Rattle.std.specs.Prelude.{◌≡◌};
    ghost use Rattle.rg_frame.specs.declared.fault.FrameFault.TheVariants.{Disk};

    ghost from_gives = { λ _ fault. fault ≡ Disk };

    fn from(_error: Failed) -> FrameFault {
        FrameFault::Disk
    }
}
