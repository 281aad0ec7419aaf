ghost use Rattle.std.specs.Prelude.{◌≡◌, ◌≢◌, ◌⊎◌, ◌≤◌, ◌+◌, ◌^◌, [], length, false, true, IfOk, IsTrue};

use crate::buffer::Buffer;
use crate::fault::PipeFault;
use crate::judge::{Judged, first_request};
use crate::progress::{Found, Progress};
use rg_bytes::Memory;
use std::alloc::Global;
use std::marker::Model;

/// The request in hand, as far as its bytes came, and how far the stream before it was handed out.
#[derive(Drop)]
pub struct Assembly {
    buffer: Buffer,
    /// Whether what the buffer has was handed out.
    spent: bool,
    progress: Progress,
    refused: bool,
}

impl Model for Assembly {
    ghost use Rattle.std.specs.Prelude.{drop};
    ghost use Rattle.rg_pipe.specs.State.{Assembled};
    ghost use Rattle.rg_pipe.specs.Assembling.{in_hand, IsCounted};

    ghost Value = { Assembled };

    ghost view = { λ a. record {
      pipe = record { pending = in_hand a.spent a.buffer; place = a.progress.place; expected = a.progress.expected; refused = a.refused };
      text = drop 13 a.buffer;
    } };

    ghost invariant = { λ a. IsCounted (in_hand a.spent a.buffer) a.progress.place a.progress.expected };
}

impl Assembly {
    ghost use Rattle.rg_pipe.specs.Handing.{Feeds, Finds, LoadsFrom, Ends};

    /// An assembly that has nothing in hand, before a stream whose next line is to have this offset. Takes its
    /// room for one request here, and no memory later.
    pub fn new(alloc: Global, next: u64) -> Result<Assembly, Memory>
        requires { next ≤ 2 ^ 62 }
        ensures { IfOk result (λ assembly. assembly.pipe ≡ record {
          pending = [];
          place = 0;
          expected = next;
          refused = false;
        }) }
    {
        let buffer = Buffer::new(alloc)?;
        Ok(Assembly {
            buffer,
            spent: false,
            progress: Progress {
                place: 0,
                expected: next,
            },
            refused: false,
        })
    }

    /// The text of the line that was handed out last.
    pub fn text(&self) -> &[u8]
        ensures { result.now ≡ self.now.text }
    {
        self.buffer.text()
    }

    /// Takes as many first bytes of a piece as the request in hand lacks, and answers how many.
    pub fn feed(&mut self, piece: &[u8]) -> usize
        requires { self.old.pipe.place + length self.old.pipe.pending + length piece.now ≤ 2 ^ 62 }
        ensures { Feeds self.old.pipe self.new.pipe piece.now result }
    {
        if self.refused {
            return 0;
        }
        if self.spent {
            self.buffer.clear();
            self.spent = false;
        }
        self.buffer.take_in(piece)
    }

    /// Hands out the request in hand, where it has come whole.
    pub fn load(&mut self) -> Result<Option<Found>, PipeFault>
        ensures { Finds self.old.pipe self.new.pipe self.new.text result }
    {
        if self.spent {
            return Ok(None);
        }
        match self.buffer.judge() {
            Judged::Part => Ok(None),
            Judged::Never => {
                self.refused = true;
                Err(PipeFault::Frame(self.progress.place))
            }
            Judged::Whole(kind) => {
                self.spent = true;
                Ok(Some(self.progress.pass(kind, self.buffer.len())))
            }
        }
    }

    /// Hands out the request at the front of a piece, with its bytes, where nothing is in hand and the piece has it
    /// whole.
    pub fn load_from<'p>(&mut self, piece: &'p [u8]) -> Option<(Found, &'p [u8])>
        requires { self.old.pipe.place + length self.old.pipe.pending + length piece.now ≤ 2 ^ 62 }
        ensures { LoadsFrom self.old.pipe self.new.pipe piece.now result }
    {
        if !self.is_idle() {
            return None;
        }
        let (kind, bytes) = first_request(piece)?;
        Some((self.progress.pass(kind, bytes.len()), bytes))
    }

    /// Whether nothing is in hand, and nothing was refused.
    fn is_idle(&self) -> bool
        ensures idle { IsTrue result → (self.now.pipe.pending ≡ []) × (self.now.pipe.refused ≡ false) }
        ensures busy { result ≡ false → (self.now.pipe.pending ≢ []) ⊎ (self.now.pipe.refused ≡ true) }
    {
        if self.refused {
            return false;
        }
        self.spent || self.buffer.is_empty()
    }

    /// The offset of the next line, where the stream may end here.
    pub fn end(&self) -> Result<u64, PipeFault>
        ensures { Ends self.now.pipe result }
    {
        if self.refused {
            return Err(PipeFault::Frame(self.progress.place));
        }
        if self.spent || self.buffer.is_empty() {
            return Ok(self.progress.expected);
        }
        match self.buffer.judge() {
            Judged::Part => Err(PipeFault::Frame(self.progress.place)),
            _ => Ok(self.progress.expected),
        }
    }
}
