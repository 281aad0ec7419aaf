use std::alloc::{AllocError, Global};

/// How many bytes of a line are shown before the mark at the most, and behind it.
const BEFORE: usize = 70;

const BEHIND: usize = 40;

/// Where the line begins that has this byte.
fn line_start(text: &str, place: usize) -> usize {
    let mut start = 0usize;
    for (at, byte) in text.as_bytes().iter().take(place).enumerate() {
        if *byte == b'\n' {
            start = at.saturating_add(1);
        }
    }
    start
}

/// A letter as it is shown: one cell.
fn shown(letter: char) -> char {
    if letter.is_ascii_control() {
        ' '
    } else {
        letter
    }
}

/// Writes the line of a text that has the byte at `place`, and a mark below that byte. Of a long line it is the part
/// round the mark.
pub(crate) fn write_excerpt(
    alloc: Global,
    text: &str,
    place: usize,
    out: &mut String,
) -> Result<(), AllocError> {
    let start = line_start(text, place).max(place.saturating_sub(BEFORE));
    let end = place.saturating_add(BEHIND);
    let mut mark = String::new(alloc);
    out.push_str("  ")?;
    for (at, letter) in text.char_indices() {
        if at >= place && (letter == '\n' || at >= end) {
            break;
        }
        if at >= start {
            out.push(shown(letter))?;
        }
        if at >= start && at < place {
            mark.push(' ')?;
        }
    }
    write!(out, "\n  {mark}^\n")
}
