use std::error::Error;
use std::fmt;

/// Why a check ended before its end.
#[derive(Clone, Copy, Debug, PartialEq, Eq, Hash)]
pub enum CheckFault {
    /// Memory ran out.
    Memory,
    /// A put of the output failed, and the host has counted it.
    Write,
}

impl fmt::Display for CheckFault {
    fn fmt<W: fmt::Write>(&self, f: &mut fmt::Formatter<W>) -> fmt::Result {
        f.write_str(match self {
            CheckFault::Memory => "out of memory",
            CheckFault::Write => "a put of the output failed",
        })
    }
}

impl Error for CheckFault {}
