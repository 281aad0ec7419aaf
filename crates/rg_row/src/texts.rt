ghost use Rattle.std.specs.Prelude.{◌≡◌, ◌∷◌, [], length, MatchOption};
ghost use Rattle.rg_row.specs.Texts.{between_commas, left};

use csv::ByteRecord;
use memchr::memchr;

/// The texts of a line that are still to be read.
#[derive(Clone, Copy)]
pub enum Texts<'a> {
    /// None.
    Done,
    /// Those between the commas of bytes without a quote.
    Bare(&'a [u8]),
    /// Those of a record from this number on.
    Read(&'a ByteRecord, usize),
}

impl<'a> Texts<'a> {
    /// The first text, and the texts behind it.
    pub fn split_first(self) -> Option<(&'a [u8], Texts<'a>)>
        ensures { MatchOption result (left self.entry ≡ []) (λ parts. left self.entry ≡ parts.0.now ∷ left parts.1) }
    {
        match self {
            Texts::Done => None,
            Texts::Bare(line) => Some(cut(line)),
            Texts::Read(record, from) => match record.get(from) {
                Some(text) => Some((text, Texts::Read(record, from + 1))),
                None => None,
            },
        }
    }

    /// How many texts there are.
    pub fn len(&self) -> usize
        ensures { result ≡ length (left self.now) }
    {
        match self {
            Texts::Done => 0,
            Texts::Bare(line) => count_texts(line),
            Texts::Read(record, from) => record.len().saturating_sub(*from),
        }
    }
}

fn cut(line: &[u8]) -> (&[u8], Texts<'_>)
    ensures { between_commas line.now ≡ result.0.now ∷ left result.1 }
{
    match memchr(b',', line) {
        Some(comma) => (&line[..comma], Texts::Bare(&line[comma + 1..])),
        None => (line, Texts::Done),
    }
}

fn count_texts(line: &[u8]) -> usize
    ensures { result ≡ length (between_commas line.now) }
{
    let mut texts = 1;
    for byte in line {
        if *byte == b',' {
            texts += 1;
        }
    }
    texts
}
