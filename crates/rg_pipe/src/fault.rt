use std::error::Error;
use std::fmt;

/// Why a stream of requests is refused.
#[derive(Clone, Copy, Debug, PartialEq, Eq, Hash)]
pub enum PipeFault {
    /// No legal request begins at this place of the stream, in bytes, or the stream ended within one.
    Frame(u64),
}

impl fmt::Display for PipeFault {
    fn fmt<W: fmt::Write>(&self, f: &mut fmt::Formatter<W>) -> fmt::Result {
        match self {
            PipeFault::Frame(place) => write!(f, "no whole request begins at byte {place}"),
        }
    }
}

impl Error for PipeFault {}
