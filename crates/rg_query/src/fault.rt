use rg_bytes::Memory;
use std::alloc::AllocFailed;

/// Why a query's text was refused. A place is in bytes, from 0.
#[derive(Clone, Copy, Debug, PartialEq, Eq, Hash)]
pub enum QueryFault {
    /// The first token with which no query begins, the first bytes that form no token, or the end.
    Syntax(usize),
    /// The first name that is neither the stream's nor a column's past the time.
    UnknownName(usize),
    /// The first field, or literal, of a kind that isn't taken there.
    WrongKind(usize),
    /// The first span above 10^15 milliseconds, or of 0 where the window is to slide.
    BadSpan(usize),
    /// The text has more than 4,096 bytes, or more than 32 NOT and parentheses enclose each other.
    TooLarge,
    /// Memory ran out.
    Memory,
}

impl From<Memory> for QueryFault {
    ghost use Rattle.std.specs.Prelude.{◌≡◌};
    ghost use Rattle.rg_query.specs.declared.fault.QueryFault.TheVariants.{Memory};

    ghost from_gives = { λ _ fault. fault ≡ Memory };

    fn from(_memory: Memory) -> QueryFault {
        QueryFault::Memory
    }
}

impl<T: Drop> From<AllocFailed<T>> for QueryFault {
    ghost use Rattle.std.specs.Prelude.{◌≡◌};
    ghost use Rattle.rg_query.specs.declared.fault.QueryFault.TheVariants.{Memory};

    ghost from_gives = { λ _ fault. fault ≡ Memory };

    fn from(_failed: AllocFailed<T>) -> QueryFault {
        QueryFault::Memory
    }
}
