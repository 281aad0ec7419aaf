ghost use Rattle.std.specs.Prelude.{◌≡◌, ℕ, ◌+◌, ◌-◌, ◌<◌, ◌≤◌, ◌^◌, ◌++◌, [], length, true, false, Err, IfOk, OnOk, OnErr, IfSome, IfNone, IsTrue, IsErrOf, MatchOption};
ghost use Rattle.rg_bytes.specs.Counts.{Rose};
ghost use Rattle.rg_bytes.specs.Known.{IsAtEnd};
ghost use Rattle.rg_host.specs.Lines.{HasNoLf};
ghost use Rattle.rg_host.specs.Scan.{kind_of, Drops, MayHaveLines};

use crate::buffer::{Buffer, LONG};
use crate::lines::LineFault;
use crate::source::Source;
use rg_bytes::Memory;
use std::alloc::Global;
use std::marker::Model;

/// The greatest number of bytes that is taken from a source.
const MAX_INPUT_BYTES: u64 = 1 << 50;

/// What stands next in a source.
#[derive(Clone, Copy, Debug, PartialEq, Eq)]
pub enum Found {
    /// A line of at most 65,535 bytes.
    Text,
    /// A longer line.
    Long,
    /// The end.
    End,
}

/// Finds the lines of a source one by one, and holds the last one.
#[derive(Drop)]
pub struct Scanner {
    buffer: Buffer,
    skipping: bool,
    taken: u64,
    ended: bool,
}

impl Model for Scanner {
    ghost use Rattle.rg_host.specs.Scan.{Scan, IsCounted, reading_at};

    ghost Value = { Scan };

    ghost view = { λ s. record {
      reading = reading_at s.skipping s.buffer.pending s.taken s.ended;
      line = s.buffer.line;
    } };

    ghost invariant = { λ s. IsCounted s.buffer.pending s.skipping s.taken s.ended };
}

/// Which line it is, of which so many bytes are held.
fn kind(skipping: bool, held: usize) -> Found
    ensures { result ≡ kind_of skipping held }
{
    if skipping || held >= LONG {
        Found::Long
    } else {
        Found::Text
    }
}

impl Scanner {
    ghost use Rattle.rg_host.specs.Scan.{Cuts, CutsLast, Asks, Loads, handed_by};

    /// A scanner that has taken nothing.
    pub fn new(alloc: Global) -> Result<Scanner, Memory>
        ensures pending { IfOk result (λ scanner. scanner.reading.pending ≡ []) }
        ensures taken { IfOk result (λ scanner. scanner.reading.taken ≡ 0) }
        ensures spent { IfOk result (λ scanner. scanner.reading.spent ≡ 0) }
        ensures ended { IfOk result (λ scanner. scanner.reading.ended ≡ false) }
    {
        let buffer = Buffer::new(alloc)?;
        Ok(Scanner {
            buffer,
            skipping: false,
            taken: 0,
            ended: false,
        })
    }

    /// The text of the line that was found last.
    pub fn line(&self) -> &[u8]
        ensures { result.now ≡ self.now.line }
    {
        self.buffer.line()
    }

    /// Whether a line has come whole.
    pub fn has_line(&self) -> bool
        ensures none { result ≡ false → HasNoLf self.now.reading.pending }
        ensures some { result ≡ true → ¬ HasNoLf self.now.reading.pending }
    {
        self.buffer.has_line()
    }

    /// Finds a line that has come whole.
    fn find(&mut self) -> Option<Found>
        ensures line { IfSome result (λ found. MatchOption (handed_by found self.new.line) ⊥ (λ item. Cuts self.old.reading self.new.reading item)) }
        ensures none { IfNone result (HasNoLf self.old.reading.pending) }
        ensures same { IfNone result (self.new ≡ self.old) }
    {
        let held = match self.buffer.cut() {
            None => return None,
            Some(held) => held,
        };
        let found = kind(self.skipping, held);
        self.skipping = false;
        Some(found)
    }

    /// Finds what is left at the end of the source: a last line, where there is a byte of it.
    fn finish(&mut self) -> Found
        requires no_lf { HasNoLf self.old.reading.pending }
        requires limit { self.old.reading.taken ≤ 2 ^ 50 }
        ensures line { MatchOption (handed_by result self.new.line) (self.old.reading.pending ≡ []) (λ item. CutsLast self.old.reading self.new.reading item) }
        ensures end { result ≡ Found.End → self.new.reading ≡ record self.old.reading { ended = true } }
        ensures all_spent { result ≡ Found.End → self.new.reading.spent ≡ self.new.reading.taken }
    {
        self.ended = true;
        if !self.skipping && self.buffer.len() == 0 {
            return Found::End;
        }
        let held = self.buffer.cut_rest();
        let found = kind(self.skipping, held);
        self.skipping = false;
        found
    }

    /// Takes more bytes, where the limit leaves some, and answers whether there were any.
    fn fill<S: Source>(&mut self, src: &mut S) -> Result<bool, LineFault>
        requires no_lf { HasNoLf self.old.reading.pending }
        requires limit { self.old.reading.taken < 2 ^ 50 }
        requires not_ended { self.old.reading.ended ≡ false }
        ensures asks { Asks self.old.reading self.new.reading (S.left src.old) (S.left src.new) result }
        ensures cause { IsErrOf result LineFault.Read → Rose (S.faults src.old) (S.faults src.new) }
        ensures later { S.faults src.old ≤ S.faults src.new }
    {
        self.skipping = drop_long(&mut self.buffer, self.skipping);
        match self.buffer.fill(src, MAX_INPUT_BYTES - self.taken) {
            Err(_) => Err(LineFault::Read),
            Ok(0) => Ok(false),
            Ok(count) => {
                self.taken += count as u64;
                Ok(true)
            }
        }
    }

    /// Asks for a byte past the limit. `false` says that there is none.
    fn probe<S: Source>(&mut self, src: &mut S) -> Result<bool, LineFault>
        requires no_lf { HasNoLf self.old.reading.pending }
        requires limit { self.old.reading.taken ≡ 2 ^ 50 }
        requires not_ended { self.old.reading.ended ≡ false }
        ensures asks { Asks self.old.reading self.new.reading (S.left src.old) (S.left src.new) result }
        ensures cause { IsErrOf result LineFault.Read → Rose (S.faults src.old) (S.faults src.new) }
        ensures later { S.faults src.old ≤ S.faults src.new }
    {
        let mut byte = [0u8; 1];
        match src.read(&mut byte) {
            Err(_) => Err(LineFault::Read),
            Ok(0) => Ok(false),
            Ok(_) => {
                self.taken += 1;
                Err(LineFault::Limit)
            }
        }
    }

    /// Asks for more bytes, and answers whether there were any.
    fn ask<S: Source>(&mut self, src: &mut S) -> Result<bool, LineFault>
        requires no_lf { HasNoLf self.old.reading.pending }
        requires limit { self.old.reading.taken ≤ 2 ^ 50 }
        requires not_ended { self.old.reading.ended ≡ false }
        ensures asks { Asks self.old.reading self.new.reading (S.left src.old) (S.left src.new) result }
        ensures cause { IsErrOf result LineFault.Read → Rose (S.faults src.old) (S.faults src.new) }
        ensures later { S.faults src.old ≤ S.faults src.new }
    {
        if self.taken < MAX_INPUT_BYTES {
            self.fill(src)
        } else {
            self.probe(src)
        }
    }

    /// Looks for the next line, and asks for more bytes until it is found.
    fn search<S: Source>(&mut self, src: &mut S) -> Result<Found, LineFault>
        requires going { MayHaveLines self.old.reading }
        ensures next { Loads self.old.reading self.new.reading self.new.line (S.left src.old) (S.left src.new) result }
        ensures cause { IsErrOf result LineFault.Read → Rose (S.faults src.old) (S.faults src.new) }
        ensures later { S.faults src.old ≤ S.faults src.new }
        ensures held { ¬ HasNoLf self.old.reading.pending → src.new ≡ src.old }
    {
        'lines: loop {
            if let Some(found) = self.find() {
                return Ok(found);
            }
            match self.ask(src) {
                Err(fault) => return Err(fault),
                Ok(false) => return Ok(self.finish()),
                Ok(true) => {}
            }
        }
    }

    /// Finds what stands next in the source. The text of a line is then `line`.
    pub fn load<S: Source>(&mut self, src: &mut S) -> Result<Found, LineFault>
        ensures next { Loads self.old.reading self.new.reading self.new.line (S.left src.old) (S.left src.new) result }
        ensures cause { IsErrOf result LineFault.Read → Rose (S.faults src.old) (S.faults src.new) }
        ensures later { S.faults src.old ≤ S.faults src.new }
        ensures after_end { self.old.reading.ended ≡ true → src.new ≡ src.old }
        ensures after_limit { 2 ^ 50 < self.old.reading.taken → src.new ≡ src.old }
        ensures held { ¬ HasNoLf self.old.reading.pending → src.new ≡ src.old }
    {
        if self.ended {
            return Ok(Found::End);
        }
        if self.taken > MAX_INPUT_BYTES {
            return Err(LineFault::Limit);
        }
        self.search(src)
    }
}

/// Drops what is held of a line that is too long already, and answers whether the line is read
/// past.
fn drop_long(buffer: &mut Buffer, skipping: bool) -> bool
    ensures { Drops skipping buffer.old.pending result buffer.new.pending }
{
    if skipping || buffer.len() >= LONG {
        buffer.clear();
        return true;
    }
    false
}
