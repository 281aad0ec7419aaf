ghost use Rattle.std.specs.Prelude.{◌≡◌, ◌<◌, ◌≤◌, ◌∷◌, ◌++◌, [], length, true, false, IfOk, OnErr, OnSome, IfSome, IfNone};
ghost use Rattle.rg_bytes.specs.Counts.{Rose};
ghost use Rattle.rg_host.specs.Buffered.{FillsUpTo, IsPart, IsRange, IsSearched, KeepsFirst, ReadsPart};
ghost use Rattle.rg_host.specs.Lines.{HasNoLf};

use crate::source::{Failed, Source};
use memchr::memchr;
use rg_bytes::Memory;
use std::alloc::Global;
use std::marker::Model;

/// The length in bytes of the shortest line that is too long.
pub(crate) const LONG: usize = 65_536;

/// How many bytes a buffer has.
const SIZE: usize = 131_072;

/// How many bytes a read asks for at least, where the limit leaves so many.
const PIECE: usize = 16_384;

/// Bytes that were read from a source and not yet handed out: those from `start` to `end`. Up to
/// `searched` none of them is LF. Where `has_lf` holds, the byte at `searched` is LF; where it
/// doesn't, `searched` is `end`. So no byte is looked at twice.
#[derive(Drop)]
pub(crate) struct Buffer {
    bytes: Vec<u8>,
    line_start: usize,
    line_end: usize,
    start: usize,
    searched: usize,
    end: usize,
    has_lf: bool,
}

impl Model for Buffer {
    ghost use Rattle.std.specs.Prelude.{◌-◌, slice_range};
    ghost use Rattle.rg_host.specs.Buffered.{Buffered, IsLaidOut};

    ghost Value = { Buffered };

    ghost view = { λ b. record {
      pending = slice_range b.bytes.items b.start b.end;
      line = slice_range b.bytes.items b.line_start b.line_end;
      room = 131072 - b.end;
    } };

    ghost invariant = { λ b. IsLaidOut b.bytes.items b.line_start b.line_end b.start b.searched b.end b.has_lf };
}

impl Buffer {
    /// An empty buffer, which takes its memory here and no more later.
    pub(crate) fn new(alloc: Global) -> Result<Buffer, Memory>
        ensures { IfOk result (λ buffer. buffer.pending ≡ []) }
    {
        let bytes = vec![in alloc; 0u8; SIZE]?;
        Ok(Buffer {
            bytes,
            line_start: 0,
            line_end: 0,
            start: 0,
            searched: 0,
            end: 0,
            has_lf: false,
        })
    }

    /// How many bytes are pending.
    pub(crate) fn len(&self) -> usize
        ensures { result ≡ length self.now.pending }
    {
        self.end - self.start
    }

    /// The line that was cut off last.
    pub(crate) fn line(&self) -> &[u8]
        ensures { result.now ≡ self.now.line }
    {
        &self.bytes[self.line_start..self.line_end]
    }

    /// Whether a line that LF ends is pending.
    pub(crate) fn has_line(&self) -> bool
        ensures none { result ≡ false → HasNoLf self.now.pending }
        ensures some { result ≡ true → ¬ HasNoLf self.now.pending }
    {
        self.has_lf
    }

    /// Cuts off the first line that LF ends, and answers its length in bytes.
    pub(crate) fn cut(&mut self) -> Option<usize>
        ensures line { IfSome result (λ n. (self.old.pending ≡ self.new.line ++ 10 ∷ self.new.pending) × (length self.new.line ≡ n)) }
        ensures no_lf { OnSome result (HasNoLf self.new.line) }
        ensures none { IfNone result (HasNoLf self.old.pending) }
        ensures same { IfNone result (self.new ≡ self.old) }
    {
        if !self.has_lf {
            return None;
        }
        let line_end = self.searched;
        let (searched, has_lf) = first_lf(&self.bytes, line_end + 1, self.end);
        self.line_start = self.start;
        self.line_end = line_end;
        self.start = line_end + 1;
        self.searched = searched;
        self.has_lf = has_lf;
        Some(line_end - self.line_start)
    }

    /// Cuts off all that is pending as a line, and answers its length in bytes.
    pub(crate) fn cut_rest(&mut self) -> usize
        ensures line { self.new.line ≡ self.old.pending }
        ensures length { result ≡ length self.old.pending }
        ensures pending { self.new.pending ≡ [] }
    {
        self.line_start = self.start;
        self.line_end = self.end;
        self.start = self.end;
        self.searched = self.end;
        self.has_lf = false;
        self.line_end - self.line_start
    }

    /// Drops all that is pending.
    pub(crate) fn clear(&mut self)
        ensures { self.new.pending ≡ [] }
    {
        self.line_start = 0;
        self.line_end = 0;
        self.start = 0;
        self.searched = 0;
        self.end = 0;
        self.has_lf = false;
    }

    /// Moves what is pending to the beginning where there is little room behind it.
    fn make_room(&mut self)
        requires { length self.old.pending < LONG }
        ensures pending { self.new.pending ≡ self.old.pending }
        ensures room { PIECE ≤ self.new.room }
    {
        if self.start < self.end && SIZE - self.end >= PIECE {
            return;
        }
        self.bytes.copy_within(self.start..self.end, 0);
        self.searched -= self.start;
        self.end -= self.start;
        self.start = 0;
        self.line_start = 0;
        self.line_end = 0;
    }

    /// Reads at most `most` bytes behind the pending ones, and answers how many. 0 comes only at
    /// the end of the source. After `Failed` the same bytes are pending.
    pub(crate) fn fill<S: Source>(&mut self, src: &mut S, most: u64) -> Result<usize, Failed>
        requires short { length self.old.pending < LONG }
        requires some { 0 < most }
        ensures { FillsUpTo most self.old.pending self.new.pending (S.left src.old) (S.left src.new) (S.faults src.old) (S.faults src.new) result }
    {
        self.make_room();
        let room = most.min((SIZE - self.end) as u64) as usize;
        match read_part(src, &mut self.bytes, self.end, self.end + room) {
            Err(failed) => Err(failed),
            Ok(count) => {
                let end = self.end + count;
                if !self.has_lf {
                    let (searched, has_lf) = first_lf(&self.bytes, self.end, end);
                    self.searched = searched;
                    self.has_lf = has_lf;
                }
                self.end = end;
                Ok(count)
            }
        }
    }
}

/// Looks for the first LF in the part of `bytes` that begins at `from` and ends at `to`. Answers
/// the place up to which no byte of that part is LF, and whether an LF stands there.
fn first_lf(bytes: &[u8], from: usize, to: usize) -> (usize, bool)
    requires range { IsRange bytes.now from to }
    ensures searched { IsSearched bytes.now from result.0 to result.1 }
{
    match memchr(b'\n', &bytes[from..to]) {
        None => (to, false),
        Some(place) => (from + place, true),
    }
}

/// Reads the next bytes of a source into the part of `bytes` that begins at `from` and ends at
/// `to`, and answers how many.
fn read_part<S: Source>(
    src: &mut S,
    bytes: &mut Vec<u8>,
    from: usize,
    to: usize,
) -> Result<usize, Failed>
    requires part { IsPart bytes.old.items from to }
    ensures read { IfOk result (ReadsPart bytes.new.items from to (S.left src.old) (S.left src.new)) }
    ensures first { KeepsFirst from bytes.old.items bytes.new.items }
    ensures kept { OnErr result (S.left src.new ≡ S.left src.old) }
    ensures cause { OnErr result (Rose (S.faults src.old) (S.faults src.new)) }
    ensures later { S.faults src.old ≤ S.faults src.new }
{
    src.read(&mut bytes[from..to])
}
