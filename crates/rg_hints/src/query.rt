use crate::columns::{column_named, write_columns};
use crate::excerpt::write_excerpt;
use crate::expected::write_expected;
use crate::refused::Refused;
use crate::shapes::write_shape;
use crate::slips::{first_word, write_slip};
use rg_query::QueryFault;
use std::alloc::{AllocError, Global};
use toml::Value;

/// The text of the query with this number.
fn query_text(plan: Refused<'_>, number: u32) -> Option<&'_ str> {
    let queries = plan.top.get("queries")?.as_array()?;
    queries.get(number as usize)?.as_str()
}

/// The kinds that functions take.
const CALL_KINDS: &str =
    "  sum, avg and sumsq take an int; min, max, first, last, median and pct an int or an id; countDistinct takes each kind; pct takes a number from 1 to 100 first\n";

/// The kinds of literals, and what they are compared by.
const LITERAL_KINDS: &str =
    "  a text is compared with 'a text', and a flag with TRUE or FALSE, by = or !=\n  an int is compared with a whole number from -10^12 to 10^12, an id with one from 0 to 18446744073709551615\n";

/// The lengths that windows have.
const SPANS: &str =
    "  a window is 1 to 10^15 ms long, and delayed by at most 10^15 ms; 10^15 ms are 11,574,074 days\n";

/// Whether the name of the stream stands behind this front, and not that of a column.
fn is_before_stream(front: &str) -> bool {
    let front = front.trim_end();
    let from = front.len().saturating_sub(4);
    match front.get(from..) {
        Some(word) => word.eq_ignore_ascii_case("FROM"),
        None => false,
    }
}

/// Whether the stream has been named before the end of this front.
fn is_behind_from(front: &str) -> bool {
    front
        .split_ascii_whitespace()
        .any(|word| word.eq_ignore_ascii_case("FROM"))
}

/// Writes what a name may be at the end of this front.
fn write_names(
    plan: Refused<'_>,
    front: &str,
    behind: &str,
    out: &mut String,
) -> Result<(), AllocError> {
    let word = first_word(behind);
    let stream = match plan.top.get("stream").and_then(Value::as_table) {
        Some(stream) => stream,
        None => return Ok(()),
    };
    if is_before_stream(front) {
        let name = stream.get("name").and_then(Value::as_str).unwrap_or("");
        return write!(out, "  the stream is {name}, not {word}\n");
    }
    write!(
        out,
        "  {word} is no column of a query; names keep their case\n"
    )?;
    write_columns(stream, out)
}

/// Writes of which kind the column is that stands behind this front, if one does, and what takes which kind.
fn write_kinds(
    plan: Refused<'_>,
    front: &str,
    behind: &str,
    out: &mut String,
) -> Result<(), AllocError> {
    let word = first_word(behind);
    if let Some(stream) = plan.top.get("stream").and_then(Value::as_table) {
        if let Some((name, kind)) = column_named(stream, word) {
            write!(out, "  {name} is of the kind {kind}\n")?;
        }
    }
    if is_behind_from(front) {
        return out.push_str(LITERAL_KINDS);
    }
    out.push_str(CALL_KINDS)
}

/// Writes what helps with a query of this text that goes wrong for this reason.
fn write_reason(
    alloc: Global,
    plan: Refused<'_>,
    text: &str,
    fault: QueryFault,
    out: &mut String,
) -> Result<(), AllocError> {
    let place = place_of(fault).unwrap_or(0);
    let front = text.get(..place).unwrap_or("");
    let behind = text.get(place..).unwrap_or("");
    match fault {
        QueryFault::Syntax(_) => {
            if !write_slip(text, place, out)? {
                write_shape(alloc, front, behind, out)?;
            }
            write_expected(alloc, front, out)
        }
        QueryFault::UnknownName(_) => write_names(plan, front, behind, out),
        QueryFault::WrongKind(_) => write_kinds(plan, front, behind, out),
        QueryFault::BadSpan(_) => out.push_str(SPANS),
        QueryFault::TooLarge | QueryFault::Memory => Ok(()),
    }
}

/// Where a query goes wrong, in bytes of its text.
fn place_of(fault: QueryFault) -> Option<usize> {
    match fault {
        QueryFault::Syntax(place)
        | QueryFault::UnknownName(place)
        | QueryFault::WrongKind(place)
        | QueryFault::BadSpan(place) => Some(place as usize),
        QueryFault::TooLarge | QueryFault::Memory => None,
    }
}

/// Writes the line of a refused query with a mark, and what may stand there.
pub(crate) fn query_hints(
    alloc: Global,
    plan: Refused<'_>,
    number: u32,
    fault: QueryFault,
    out: &mut String,
) -> Result<(), AllocError> {
    let (Some(text), Some(place)) = (query_text(plan, number), place_of(fault)) else {
        return Ok(());
    };
    write_excerpt(alloc, text, place, out)?;
    write_reason(alloc, plan, text, fault, out)
}
