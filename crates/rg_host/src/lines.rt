ghost use Rattle.std.specs.Prelude.{◌≡◌, ◌<◌, ◌≤◌, ◌^◌, [], true, false, IfOk, IsErrOf};
ghost use Rattle.rg_bytes.specs.Counts.{Rose};
ghost use Rattle.rg_host.specs.Lines.{HasNoLf};

use crate::scanner::{Found, Scanner};
use crate::source::Source;
use rg_bytes::Memory;
use std::alloc::Global;
use std::marker::Model;

/// Why `Lines::next` refused.
#[derive(Clone, Copy, Debug, PartialEq, Eq, Hash)]
pub enum LineFault {
    /// A read of the source failed. Nothing is lost, and a later call goes on.
    Read,
    /// The source gave a byte past the limit of 2^50 bytes. This stays.
    Limit,
}

/// A line of a source, without its LF.
#[derive(Clone, Copy, Debug, PartialEq, Eq)]
pub enum Line<'a> {
    /// A line of at most 65,535 bytes.
    Text(&'a [u8]),
    /// A longer line, which was read past.
    Long,
    /// The end of the source, which stays.
    End,
}

/// The lines of a source.
#[derive(Drop)]
pub struct Lines {
    scanner: Scanner,
}

impl Model for Lines {
    ghost use Rattle.rg_host.specs.Reading.{Reading};

    ghost Value = { Reading };

    ghost view = { λ lines. lines.scanner.reading };
}

impl Lines {
    ghost use Rattle.std.specs.Borrow.{sem};
    ghost use Rattle.std.specs.Io.BufRead.{Rests};
    ghost use Rattle.rg_host.specs.Reading.{Next};
    ghost use Rattle.rg_host.specs.contracts.lines.Lines.{the_row};

    /// Takes its buffer of 128 KiB here, and no memory later.
    pub fn new(alloc: Global) -> Result<Lines, Memory>
        ensures pending { IfOk result (λ lines. lines.pending ≡ []) }
        ensures taken { IfOk result (λ lines. lines.taken ≡ 0) }
        ensures spent { IfOk result (λ lines. lines.spent ≡ 0) }
        ensures ended { IfOk result (λ lines. lines.ended ≡ false) }
    {
        let scanner = Scanner::new(alloc)?;
        Ok(Lines { scanner })
    }

    /// Whether a line that LF ends has come whole: then `next` hands it out and asks the source for
    /// nothing.
    pub fn has_line(&self) -> bool
        // It tells whether a line is held whole.
        ensures none { result ≡ false → HasNoLf self.now.pending }
        ensures some { result ≡ true → ¬ HasNoLf self.now.pending }
    {
        self.scanner.has_line()
    }

    /// Hands out the next line of the source, without its LF. A last text without LF is a line
    /// where it has a byte. At most 2^50 bytes are taken, and no memory. After `Read` the same
    /// lines are to come. Once the source was at its end, or gave a byte past the limit, it is
    /// asked for nothing more.
    pub fn next<S: Source>(&mut self, src: &mut S) -> Result<Line<'_>, LineFault>
        // What is handed out is the first of the lines to come, whatever comes behind it; a last text without LF is one
        // only at the end.
        ensures* after { sem 𝓛 (Rests the_row self.entry (λ new. Next self.old new (S.left src.old) (S.left src.new) result)) }

        // Each refusal has its cause, and the count of faults doesn't fall.
        ensures cause { IsErrOf result LineFault.Read → Rose (S.faults src.old) (S.faults src.new) }
        ensures later { S.faults src.old ≤ S.faults src.new }

        // The end and the limit stay.
        ensures after_end { self.old.ended ≡ true → src.new ≡ src.old }
        ensures after_limit { 2 ^ 50 < self.old.taken → src.new ≡ src.old }

        // A line that is held whole is handed out without a read of the source.
        ensures held { ¬ HasNoLf self.old.pending → src.new ≡ src.old }
    {
        match self.scanner.load(src) {
            Err(fault) => Err(fault),
            Ok(Found::Text) => Ok(Line::Text(self.scanner.line())),
            Ok(Found::Long) => Ok(Line::Long),
            Ok(Found::End) => Ok(Line::End),
        }
    }
}
