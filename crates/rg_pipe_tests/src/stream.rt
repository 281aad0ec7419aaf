ghost use Rattle.std.specs.Prelude.{◌≤◌, ◌+◌, ◌^◌, length};
ghost use Rattle.rg_pipe_tests.specs.Step.{IsStep};

use crate::rows::Row;
use rg_bytes::Memory;
use rg_pipe::{Pipe, PipeFault, Request};
use std::alloc::Global;

/// Bytes, so many times.
#[derive(Clone, Copy)]
pub(crate) struct Part(pub u32, pub &'static [u8]);

fn add(out: &mut Vec<u8>, part: &Part) -> Result<(), Memory> {
    for _ in 0..part.0 {
        out.extend_from_slice(part.1)?;
    }
    Ok(())
}

fn add_each(out: &mut Vec<u8>, parts: &[Part]) -> Result<(), Memory> {
    for part in parts {
        add(out, part)?;
    }
    Ok(())
}

/// The parts, one behind another.
fn joined(alloc: Global, parts: &[Part]) -> Result<Vec<u8>, Memory> {
    let mut out = Vec::new(alloc);
    match add_each(&mut out, parts) {
        Ok(()) => Ok(out),
        Err(memory) => Err(memory),
    }
}

/// What a pipe answers.
#[derive(Clone, Copy)]
pub(crate) enum Answer {
    /// A line of this offset and text.
    Line(u64, &'static [u8]),
    /// A line of this offset and so many bytes, all of this one.
    Long(u64, usize, u8),
    /// A line that was sent before.
    Again(u64),
    /// A line behind a gap, and the expected offset.
    Gap(u64, u64),
    Commit,
    Save,
    /// The stream may end, and the next line is to have this offset.
    End(u64),
    /// The stream is refused at this place.
    Frame(u64),
}

impl Answer {
    /// Whether it is this request.
    fn is_request(&self, request: Request<'_>) -> bool {
        match (self, request) {
            (Answer::Line(offset, text), Request::Line(other, line)) => {
                *offset == other && *text == line
            }
            (Answer::Long(offset, count, byte), Request::Line(other, line)) => {
                *offset == other && line.len() == *count && line.iter().all(|b| *b == *byte)
            }
            (Answer::Again(offset), Request::Again(other)) => *offset == other,
            (Answer::Gap(offset, expected), Request::Gap(other, next)) => {
                *offset == other && *expected == next
            }
            (Answer::Commit, Request::Commit) => true,
            (Answer::Save, Request::Save) => true,
            _ => false,
        }
    }

    /// Whether it is this end.
    fn is_end(&self, end: Result<u64, PipeFault>) -> bool {
        match (self, end) {
            (Answer::End(offset), Ok(other)) => *offset == other,
            (Answer::Frame(place), Err(PipeFault::Frame(other))) => *place == other,
            _ => false,
        }
    }
}

/// The answers that are still to come.
#[derive(Drop)]
struct Wanted {
    answers: &'static [Answer],
    /// Something else came.
    other: bool,
}

impl Wanted {
    /// Takes a request.
    fn take(&mut self, request: Request<'_>) {
        match self.answers {
            [first, rest @ ..] => {
                self.other = self.other || !first.is_request(request);
                self.answers = rest;
            }
            [] => self.other = true,
        }
    }

    /// Takes what `next` answers; a refusal is the last answer.
    fn take_next(&mut self, next: Result<Option<Request<'_>>, PipeFault>) {
        match next {
            Ok(None) => {}
            Ok(Some(request)) => self.take(request),
            Err(fault) => self.take_end(Err(fault)),
        }
    }

    /// Takes what is the last answer.
    fn take_end(&mut self, end: Result<u64, PipeFault>) {
        match self.answers {
            [last] => self.other = self.other || !last.is_end(end),
            _ => self.other = true,
        }
    }
}

/// Takes the first bytes of a piece, and what comes of them; with `direct`, a request that is whole in the piece comes
/// from there. Answers how many were taken.
fn step(pipe: &mut Pipe, piece: &[u8], direct: bool, wanted: &mut Wanted) -> usize
    requires { pipe.old.place + length pipe.old.pending + length piece.now ≤ 2 ^ 62 }
    ensures { IsStep pipe.old pipe.new piece.now result }
{
    if direct && let Some(whole) = pipe.next_in(piece) {
        wanted.take(whole.request);
        return whole.size;
    }
    let count = pipe.feed(piece);
    wanted.take_next(pipe.next());
    count
}

/// Takes a piece whole, unless it is refused.
fn take_piece(pipe: &mut Pipe, piece: &[u8], direct: bool, wanted: &mut Wanted)
    requires { pipe.old.place + length pipe.old.pending + length piece.now ≤ 2 ^ 62 }
    ensures { pipe.new.place + length pipe.new.pending ≤ pipe.old.place + length pipe.old.pending + length piece.now }
{
    let mut left = piece;
    'take: while !left.is_empty() {
        let count = step(pipe, left, direct, wanted);
        if count == 0 {
            return;
        }
        left = &left[count..];
    }
}

/// Takes bytes in pieces of this size.
fn take_pieces(pipe: &mut Pipe, bytes: &[u8], size: usize, direct: bool, wanted: &mut Wanted)
    requires few { pipe.old.place + length pipe.old.pending + length bytes.now ≤ 2 ^ 62 }
    requires some { 1 ≤ size }
{
    let mut left = bytes;
    'pieces: while !left.is_empty() {
        let count = left.len().min(size);
        take_piece(pipe, &left[..count], direct, wanted);
        left = &left[count..];
    }
}

/// How a stream comes.
#[derive(Clone, Copy)]
enum Way {
    /// In two pieces, of which the first has so many bytes.
    Cut(usize),
    /// In pieces of so many bytes.
    Pieces(usize),
}

/// A stream, the offset of its first line, and what comes of it.
pub(crate) struct Stream {
    pub next: u64,
    pub bytes: &'static [Part],
    pub answers: &'static [Answer],
}

/// Takes bytes this way.
fn take_by(pipe: &mut Pipe, bytes: &[u8], way: Way, direct: bool, wanted: &mut Wanted)
    requires { pipe.old.place + length pipe.old.pending + length bytes.now ≤ 2 ^ 62 }
{
    match way {
        Way::Cut(cut) => {
            let cut = cut.min(bytes.len());
            take_piece(pipe, &bytes[..cut], direct, wanted);
            take_piece(pipe, &bytes[cut..], direct, wanted);
        }
        Way::Pieces(size) => take_pieces(pipe, bytes, size.max(1), direct, wanted),
    }
}

impl Stream {
    /// Whether this comes of the stream.
    fn comes(&self, alloc: Global, bytes: &[u8], way: Way, direct: bool) -> bool {
        match Pipe::new(alloc, self.next.min(1 << 62)) {
            Ok(mut pipe) => {
                let mut wanted = Wanted {
                    answers: self.answers,
                    other: bytes.len() > 1 << 40,
                };
                if !wanted.other {
                    take_by(&mut pipe, bytes, way, direct, &mut wanted);
                }
                wanted.take_end(pipe.end());
                drop(pipe);
                !wanted.other
            }
            Err(_) => false,
        }
    }

    /// Whether it comes of the stream in copied pieces and from the pieces themselves.
    fn comes_both(&self, alloc: Global, bytes: &[u8], way: Way) -> bool {
        self.comes(alloc, bytes, way, false) && self.comes(alloc, bytes, way, true)
    }

    /// Whether it comes wherever the stream is cut within its first 64 bytes.
    fn comes_cut(&self, alloc: Global, bytes: &[u8]) -> bool {
        for cut in 0..64 {
            if !self.comes_both(alloc, bytes, Way::Cut(cut)) {
                return false;
            }
        }
        true
    }

    /// Whether it comes of pieces of 1 byte, 3, 14 and 4,096.
    fn comes_in_pieces(&self, alloc: Global, bytes: &[u8]) -> bool {
        for size in [1, 3, 14, 4_096] {
            if !self.comes_both(alloc, bytes, Way::Pieces(size)) {
                return false;
            }
        }
        true
    }
}

impl Row for Stream {
    fn is_so(&self, alloc: Global) -> bool {
        match joined(alloc, self.bytes) {
            Ok(bytes) => {
                let is_so = self.comes_cut(alloc, &bytes) && self.comes_in_pieces(alloc, &bytes);
                drop(bytes);
                is_so
            }
            Err(_) => false,
        }
    }
}
