ghost use Rattle.std.specs.Prelude.{◌≡◌, ◌≤◌, ◌+◌, ◌-◌, ◌++◌, [], min, take, drop, length, vec_capacity, IfOk, IsTrue, ◌↔◌};
ghost use Rattle.rg_pipe.specs.Hand.{size_of};
ghost use Rattle.rg_pipe.specs.Judging.{Judges};
ghost use Rattle.rg_pipe.specs.Assembling.{TakesIn};

use crate::judge::{Judged, LENGTH, has_lf_behind, judge, size_for, text_of};
use rg_bytes::{ByteReader, Memory};
use std::alloc::Global;
use std::marker::Model;

/// How many bytes the longest request has, its length included.
const LONGEST: usize = 65_548;

/// One request, as far as its bytes came. Each byte is searched for an LF once, when it comes.
#[derive(Drop)]
pub struct Buffer {
    bytes: Vec<u8>,
    /// Whether the text of a line among them has an LF.
    lf: bool,
}

impl Model for Buffer {
    ghost use Rattle.std.specs.Prelude.{List, ℕ, vec_capacity};
    ghost use Rattle.rg_pipe.specs.Assembling.{IsBuffered};

    ghost Value = { List ℕ };

    ghost view = { λ b. b.bytes.items };

    ghost invariant = { λ b. IsBuffered b.bytes.items (vec_capacity b.bytes) b.lf };
}

/// Takes the first bytes of a piece until so many are kept, and answers how many.
fn fill(bytes: &mut Vec<u8>, piece: &[u8], size: usize) -> usize
    requires most { size ≤ 65548 }
    requires room { 65548 ≤ vec_capacity bytes.old }
    ensures count { result ≡ min (length piece.now) (size - length bytes.old.items) }
    ensures taken { bytes.new.items ≡ bytes.old.items ++ take result piece.now }
    ensures room { 65548 ≤ vec_capacity bytes.new }
{
    let count = piece.len().min(size.saturating_sub(bytes.len()));
    match bytes.extend_from_slice(&piece[..count]) {
        Ok(()) => count,
        Err(_) => unreachable!(),
    }
}

/// Takes as many first bytes of a piece as the request of the kept ones lacks, and answers how many.
fn fill_request(bytes: &mut Vec<u8>, piece: &[u8]) -> usize
    requires room { 65548 ≤ vec_capacity bytes.old }
    requires sized { length bytes.old.items ≤ size_of bytes.old.items }
    ensures takes { TakesIn bytes.old.items bytes.new.items piece.now result }
    ensures room { 65548 ≤ vec_capacity bytes.new }
{
    let head = fill(bytes, piece, LENGTH);
    let mut reader = ByteReader::new(bytes);
    match reader.u32() {
        Err(_) => head,
        Ok(said) => {
            let more = fill(bytes, &piece[head..], size_for(said));
            head + more
        }
    }
}

impl Buffer {
    /// A buffer without a byte. Takes its room for one request here, and no memory later.
    pub fn new(alloc: Global) -> Result<Buffer, Memory>
        ensures { IfOk result (λ buffer. buffer ≡ []) }
    {
        let bytes = Vec::with_capacity(alloc, LONGEST)?;
        Ok(Buffer { bytes, lf: false })
    }

    /// How many bytes came.
    pub fn len(&self) -> usize
        ensures { result ≡ length self.now }
    {
        self.bytes.len()
    }

    /// Whether none came.
    pub fn is_empty(&self) -> bool
        ensures { IsTrue result ↔ (self.now ≡ []) }
    {
        self.bytes.is_empty()
    }

    /// The text of the line.
    pub fn text(&self) -> &[u8]
        ensures { result.now ≡ drop 13 self.now }
    {
        text_of(&self.bytes)
    }

    /// What the bytes are.
    pub fn judge(&self) -> Judged
        ensures { Judges result self.now }
    {
        judge(&self.bytes, self.lf)
    }

    /// Gives the bytes up.
    pub fn clear(&mut self)
        ensures { self.new ≡ [] }
    {
        self.bytes.clear();
        self.lf = false;
    }

    /// Takes as many first bytes of a piece as the request lacks, and answers how many.
    pub fn take_in(&mut self, piece: &[u8]) -> usize
        ensures { TakesIn self.old self.new piece.now result }
    {
        let before = self.bytes.len();
        let count = fill_request(&mut self.bytes, piece);
        self.lf = has_lf_behind(&self.bytes, before, self.lf);
        count
    }
}
