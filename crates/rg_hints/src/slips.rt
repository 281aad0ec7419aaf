use std::alloc::AllocError;

/// What is written by mistake, and what the language has in its place.
#[derive(Clone, Copy)]
struct Slip {
    written: &'static str,
    told: &'static str,
}

const SECOND: &str = "a second is written second or seconds";

const MINUTE: &str = "a minute is written minute or minutes";

const HOUR: &str = "an hour is written hour or hours";

const DAY: &str = "a day is written day or days";

const WEEK: &str = "a week is written 7 days";

const MONTH: &str = "a month is written as days, such as 30 days";

const WINDOW: &str = "a window is OVER SLIDING N UNIT, or OVER INFINITE";

const NO_ORDER: &str = "there is no HAVING, ORDER BY or LIMIT: each payment has one answer";

const DISTINCT: &str = "different values are counted by countDistinct(column)";

const QUOTES: &str = "a text stands in single quotes";

/// Words, in any case.
const WORDS: [Slip; 39] = [
    Slip {
        written: "s",
        told: SECOND,
    },
    Slip {
        written: "sec",
        told: SECOND,
    },
    Slip {
        written: "secs",
        told: SECOND,
    },
    Slip {
        written: "m",
        told: MINUTE,
    },
    Slip {
        written: "min",
        told: MINUTE,
    },
    Slip {
        written: "mins",
        told: MINUTE,
    },
    Slip {
        written: "h",
        told: HOUR,
    },
    Slip {
        written: "hr",
        told: HOUR,
    },
    Slip {
        written: "hrs",
        told: HOUR,
    },
    Slip {
        written: "d",
        told: DAY,
    },
    Slip {
        written: "week",
        told: WEEK,
    },
    Slip {
        written: "weeks",
        told: WEEK,
    },
    Slip {
        written: "month",
        told: MONTH,
    },
    Slip {
        written: "months",
        told: MONTH,
    },
    Slip {
        written: "year",
        told: "a year is written 365 days",
    },
    Slip {
        written: "years",
        told: "a year is written as days: 365 days",
    },
    Slip {
        written: "distinct",
        told: DISTINCT,
    },
    Slip {
        written: "count_distinct",
        told: DISTINCT,
    },
    Slip {
        written: "between",
        told: "x BETWEEN a AND b is written x >= a AND x <= b",
    },
    Slip {
        written: "in",
        told: "x IN (a, b) is written x = a OR x = b",
    },
    Slip {
        written: "like",
        told: "there is no LIKE: texts are compared by = and !=",
    },
    Slip {
        written: "is",
        told: "there is no NULL: each column has a value",
    },
    Slip {
        written: "as",
        told: "answers have no names: they come in the order of the query",
    },
    Slip {
        written: "where",
        told: "WHERE stands behind the stream, before GROUP BY and OVER",
    },
    Slip {
        written: "group",
        told: "GROUP BY stands before OVER",
    },
    Slip {
        written: "having",
        told: NO_ORDER,
    },
    Slip {
        written: "order",
        told: NO_ORDER,
    },
    Slip {
        written: "limit",
        told: NO_ORDER,
    },
    Slip {
        written: "tumbling",
        told: WINDOW,
    },
    Slip {
        written: "hopping",
        told: WINDOW,
    },
    Slip {
        written: "interval",
        told: WINDOW,
    },
    Slip {
        written: "partition",
        told: "the key stands before the window: GROUP BY column OVER ..",
    },
    Slip {
        written: "rows",
        told: WINDOW,
    },
    Slip {
        written: "range",
        told: WINDOW,
    },
    Slip {
        written: "stddev",
        told: "there is no stddev: count, sum and sumsq give it",
    },
    Slip {
        written: "percentile",
        told: "a percentile is written pct(95, column), with a number from 1 to 100",
    },
    Slip {
        written: "variance",
        told: "there is no variance: count, sum and sumsq give it",
    },
    Slip {
        written: "join",
        told: "there are no joins: a query reads one stream",
    },
    Slip {
        written: "null",
        told: "there is no NULL: each column has a value",
    },
];

/// Signs.
const SIGNS: [Slip; 16] = [
    Slip {
        written: "==",
        told: "values are compared by one =",
    },
    Slip {
        written: "<>",
        told: "<> is written !=",
    },
    Slip {
        written: "&&",
        told: "&& is written AND",
    },
    Slip {
        written: "||",
        told: "|| is written OR",
    },
    Slip {
        written: "!",
        told: "! is written NOT",
    },
    Slip {
        written: "\"",
        told: QUOTES,
    },
    Slip {
        written: "\u{201c}",
        told: QUOTES,
    },
    Slip {
        written: "\u{2018}",
        told: "a text stands in plain single quotes, '",
    },
    Slip {
        written: ";",
        told: "a query has no ; at its end",
    },
    Slip {
        written: ".",
        told: "numbers are whole: 12.99 is written 1299, in cents, and 1.5 hours 90 minutes",
    },
    Slip {
        written: "--",
        told: "a query has no comments; # begins one in the plan, outside of texts",
    },
    Slip {
        written: "'",
        told: "a text ends with a single quote; within it a quote is written twice",
    },
    Slip {
        written: "/",
        told: "there is no arithmetic",
    },
    Slip {
        written: "(PARTITION",
        told: "the key stands before the window: GROUP BY column OVER ..",
    },
    Slip {
        written: "+",
        told: "there is no arithmetic, and a number has no +",
    },
    Slip {
        written: "*",
        told: "* stands in count(*) alone",
    },
];

fn is_word_byte(byte: u8) -> bool {
    byte.is_ascii_alphanumeric() || byte == b'_'
}

/// How many bytes of a word a text begins with.
fn word_length(text: &str) -> usize {
    match text.bytes().position(|byte| !is_word_byte(byte)) {
        Some(length) => length,
        None => text.len(),
    }
}

/// The word that a text begins with; empty where it begins with none.
pub(crate) fn first_word(text: &str) -> &str {
    text.get(..word_length(text)).unwrap_or("")
}

/// Whether a word is what stands behind the digits of a number like 1e6.
fn is_exponent(word: &str) -> bool {
    match word.strip_prefix(['e', 'E']) {
        Some(digits) => !digits.is_empty() && digits.bytes().all(|byte| byte.is_ascii_digit()),
        None => false,
    }
}

/// What the language has in place of what stands at this place of a text. A sign of two bytes may begin a byte before.
fn slip_at(text: &str, place: usize) -> Option<&'static str> {
    let behind = text.get(place..)?;
    let word = first_word(behind);
    for slip in &WORDS {
        if word.eq_ignore_ascii_case(slip.written) {
            return Some(slip.told);
        }
    }
    if word.starts_with('_') {
        return Some("a number has no _");
    }
    if is_exponent(word) {
        return Some("a number has digits alone: 1e6 is written 1000000");
    }
    if !word.is_empty() {
        return None;
    }
    sign_at(behind).or(sign_before(text, place))
}

/// What the language has in place of the sign that this text begins with.
fn sign_at(text: &str) -> Option<&'static str> {
    for slip in &SIGNS {
        if text.starts_with(slip.written) {
            return Some(slip.told);
        }
    }
    None
}

/// What the language has in place of a sign of two bytes, the second of which stands at this place.
fn sign_before(text: &str, place: usize) -> Option<&'static str> {
    let behind = text.get(place.saturating_sub(1)..)?;
    for slip in &SIGNS {
        if slip.written.len() == 2 && behind.starts_with(slip.written) {
            return Some(slip.told);
        }
    }
    None
}

/// Writes how to mend a common slip, where one stands at this place of a text, and answers whether one does.
pub(crate) fn write_slip(text: &str, place: usize, out: &mut String) -> Result<bool, AllocError> {
    match slip_at(text, place) {
        Some(told) => {
            write!(out, "  {told}\n")?;
            Ok(true)
        }
        None => Ok(false),
    }
}
