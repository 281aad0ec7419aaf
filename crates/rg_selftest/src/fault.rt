use std::error::Error;
use std::fmt;

/// Why the lines of a trial weren't all put.
#[derive(Clone, Copy, Debug, PartialEq, Eq, Hash)]
pub enum PrintFault {
    /// Memory ran out.
    Memory,
    /// A put of the output failed, and the host has counted it.
    Write,
}

impl fmt::Display for PrintFault {
    fn fmt<W: fmt::Write>(&self, f: &mut fmt::Formatter<W>) -> fmt::Result {
        match self {
            PrintFault::Memory => f.write_str("out of memory"),
            PrintFault::Write => f.write_str("a put of the output failed"),
        }
    }
}

impl Error for PrintFault {}
