use crate::expected::goes_on;
use crate::slips::first_word;
use std::alloc::{AllocError, Global};

/// Whether a text begins with a literal.
fn begins_with_literal(text: &str) -> bool {
    match text.as_bytes().first() {
        Some(byte) => byte.is_ascii_digit() || *byte == b'\'' || *byte == b'-',
        None => false,
    }
}

/// Whether a text begins with a word that may be a name.
fn begins_with_name(text: &str) -> bool {
    match first_word(text).as_bytes().first() {
        Some(byte) => !byte.is_ascii_digit(),
        None => false,
    }
}

/// What is said of a query that can't go on as it does behind this front, where its shape tells what was meant.
fn shape_of(alloc: Global, front: &str, behind: &str) -> Result<Option<&'static str>, AllocError> {
    if begins_with_literal(behind) && goes_on(alloc, front, "a_name")? {
        return Ok(Some("the column stands on the left: amount > 5"));
    }
    if begins_with_name(behind) && goes_on(alloc, front, "'a'")? {
        return Ok(Some("a column is compared with a value, and not with another column"));
    }
    if begins_with_name(behind) && goes_on(alloc, front, "sum")? {
        return Ok(Some("a column stands in a function or behind GROUP BY"));
    }
    if goes_on(alloc, front, "=")? {
        return Ok(Some("a flag is compared too: declined = TRUE"));
    }
    if behind.is_empty() && goes_on(alloc, front, "OVER")? {
        return Ok(Some("a query ends with its window: OVER INFINITE, or OVER SLIDING 5 minutes"));
    }
    Ok(None)
}

/// Writes what was meant by a query that can't go on as it does behind this front, where its shape tells it.
pub(crate) fn write_shape(
    alloc: Global,
    front: &str,
    behind: &str,
    out: &mut String,
) -> Result<(), AllocError> {
    match shape_of(alloc, front, behind)? {
        Some(told) => write!(out, "  {told}\n"),
        None => Ok(()),
    }
}
