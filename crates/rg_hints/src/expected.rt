use rg_parse::{SyntaxFault, read_syntax};
use std::alloc::{AllocError, Global};

/// What may stand at some places of a query: a token of its kind, which is tried, and what is told.
#[derive(Clone, Copy)]
struct Candidate {
    tried: &'static str,
    told: &'static str,
}

/// The name of no column, which stands where a name may.
const NAME: Candidate = Candidate {
    tried: "a_name",
    told: "a name",
};

/// Plain words: where a name may stand, each of them is read as one.
const WORDS: [Candidate; 2] = [
    Candidate {
        tried: "sum",
        told: "a function (count, sum, avg, sumsq, min, max, countDistinct, first, last, median, pct)",
    },
    Candidate {
        tried: "ms",
        told: "a unit (ms, second, minute, hour or day, also with an s)",
    },
];

/// Words and signs of the language, and literals.
const TOKENS: [Candidate; 19] = [
    Candidate {
        tried: "SELECT",
        told: "SELECT",
    },
    Candidate {
        tried: "FROM",
        told: "FROM",
    },
    Candidate {
        tried: "WHERE",
        told: "WHERE",
    },
    Candidate {
        tried: "GROUP",
        told: "GROUP BY",
    },
    Candidate {
        tried: "BY",
        told: "BY",
    },
    Candidate {
        tried: "OVER",
        told: "OVER",
    },
    Candidate {
        tried: "SLIDING",
        told: "SLIDING",
    },
    Candidate {
        tried: "INFINITE",
        told: "INFINITE",
    },
    Candidate {
        tried: "DELAYED",
        told: "DELAYED BY",
    },
    Candidate {
        tried: "AND",
        told: "AND or OR",
    },
    Candidate {
        tried: "NOT",
        told: "NOT",
    },
    Candidate {
        tried: "=",
        told: "a comparison (=, !=, <, <=, >, >=)",
    },
    Candidate {
        tried: "7",
        told: "a whole number",
    },
    Candidate {
        tried: "'a'",
        told: "a text in single quotes",
    },
    Candidate {
        tried: "TRUE",
        told: "TRUE or FALSE",
    },
    Candidate {
        tried: ",",
        told: "a comma",
    },
    Candidate {
        tried: "(",
        told: "(",
    },
    Candidate {
        tried: ")",
        told: ")",
    },
    Candidate {
        tried: "*",
        told: "*",
    },
];

/// Whether some query goes on behind this front with this token.
pub(crate) fn goes_on(alloc: Global, front: &str, token: &str) -> Result<bool, AllocError> {
    let text = format!(in alloc; "{front} {token}")?;
    match read_syntax(alloc, text.as_bytes()) {
        Ok(_) => Ok(true),
        Err(SyntaxFault::At(place)) => Ok(place > front.len().saturating_add(1)),
        Err(SyntaxFault::TooDeep) => Ok(false),
        Err(SyntaxFault::Memory) => Err(AllocError),
    }
}

/// A list in words, which grows.
#[derive(Drop)]
struct Listed<'a> {
    out: &'a mut String,
    count: u32,
}

impl Listed<'_> {
    fn push(&mut self, told: &str) -> Result<(), AllocError> {
        let before = if self.count == 0 {
            "  here may stand: "
        } else {
            ", "
        };
        self.count = self.count.saturating_add(1);
        self.out.push_str(before)?;
        self.out.push_str(told)
    }

    /// Adds those that a query may go on with behind this front.
    fn push_each(
        &mut self,
        alloc: Global,
        front: &str,
        candidates: &[Candidate],
    ) -> Result<(), AllocError> {
        for candidate in candidates {
            if goes_on(alloc, front, candidate.tried)? {
                self.push(candidate.told)?;
            }
        }
        Ok(())
    }
}

/// Writes what may stand behind the front of a query. The parser itself is asked.
pub(crate) fn write_expected(
    alloc: Global,
    front: &str,
    out: &mut String,
) -> Result<(), AllocError> {
    let mut listed = Listed { out, count: 0 };
    if goes_on(alloc, front, NAME.tried)? {
        listed.push(NAME.told)?;
    } else {
        listed.push_each(alloc, front, &WORDS)?;
    }
    listed.push_each(alloc, front, &TOKENS)?;
    if read_syntax(alloc, front.as_bytes()).is_ok() {
        listed.push("the query's end")?;
    }
    let count = listed.count;
    drop(listed);
    if count > 0 {
        out.push_str("\n")?;
    }
    Ok(())
}
