ghost use Rattle.std.specs.Prelude.{◌≤◌, length};

use std::io::Write;
use std::{fmt, io};

/// The kinds of replies that are told apart, as they stand in a line behind the offset.
const KINDS: [&str; 10] = [
    "ok", "moved", "late", "full", "row", "fields", "time", "value", "long", "head",
];

/// The place in a line of what a run puts.
#[derive(Clone, Copy)]
enum Place {
    /// At the line's first byte.
    Start,
    /// Within the digits of an offset.
    Offset,
    /// Behind the offset: the kinds that the word there may still be, as bits, and how many bytes of it have come.
    Word(u32, usize),
    /// Behind all that is looked at.
    Rest,
}

/// A writer that counts the replies of each kind that pass.
#[derive(Drop)]
pub struct Counted<W: Write + Drop> {
    writer: W,
    is_on: bool,
    place: Place,
    counts: [u64; 10],
}

/// The kinds that have this byte at this place of their word, among these.
fn kept(kinds: u32, at: usize, byte: u8) -> u32 {
    let mut kept = 0;
    for i in 0..KINDS.len() {
        let bit = 1u32 << i;
        if kinds & bit != 0 && KINDS[i].as_bytes().get(at) == Some(&byte) {
            kept |= bit;
        }
    }
    kept
}

impl<W: Write + Drop> Counted<W> {
    /// A writer in front of this one, which counts only where it is on. Nothing has been counted.
    pub fn new(writer: W, is_on: bool) -> Counted<W> {
        Counted {
            writer,
            is_on,
            place: Place::Start,
            counts: [0; 10],
        }
    }

    /// Counts a word that has come whole, if it is a kind's.
    fn count(&mut self, kinds: u32, length: usize) {
        for i in 0..KINDS.len() {
            if kinds & (1u32 << i) != 0 && KINDS[i].len() == length {
                self.counts[i] = self.counts[i].saturating_add(1);
            }
        }
    }

    /// Takes in one byte of the output.
    fn take(&mut self, byte: u8) {
        let is_end = byte == b'\n';
        self.place = match self.place {
            Place::Word(kinds, length) if is_end || byte == b' ' => {
                self.count(kinds, length);
                Place::Rest
            }
            Place::Word(kinds, length) => {
                Place::Word(kept(kinds, length, byte), length.saturating_add(1))
            }
            Place::Start | Place::Offset if byte.is_ascii_digit() => Place::Offset,
            Place::Offset if byte == b' ' => Place::Word(u32::MAX, 0),
            _ => Place::Rest,
        };
        if is_end {
            self.place = Place::Start;
        }
    }
}

impl<W: Write + Drop> Write for Counted<W> {
    fn write(&mut self, buf: &[u8]) -> io::Result<usize> {
        let count = self.writer.write(buf)?;
        if self.is_on {
            for byte in buf.iter().take(count) {
                self.take(*byte);
            }
        }
        Ok(count)
    }

    fn flush(&mut self) -> io::Result<()> {
        self.writer.flush()
    }
}

impl<W: Write + Drop> fmt::Display for Counted<W> {
    fn fmt<F: fmt::Write>(&self, f: &mut fmt::Formatter<F>) -> fmt::Result {
        let mut before = "replies:";
        for i in 0..KINDS.len() {
            let count = self.counts[i];
            if count > 0 {
                let kind = KINDS[i];
                write!(f, "{before} {count} {kind}")?;
                before = ",";
            }
        }
        if before == "replies:" {
            return f.write_str("replies: none");
        }
        Ok(())
    }
}
