ghost use Rattle.std.specs.Prelude.{◌≡◌, ◌+◌, ◌≤◌, ◌^◌, [], false, length, IfOk};

use crate::assembly::Assembly;
use crate::fault::PipeFault;
use crate::judge::text_of;
use crate::progress::Found;
use crate::request::{Request, Whole};
use rg_bytes::Memory;
use std::alloc::Global;
use std::marker::Model;

/// A stream of requests that comes in pieces.
#[derive(Drop)]
pub struct Pipe {
    assembly: Assembly,
}

impl Model for Pipe {
    ghost use Rattle.rg_pipe.specs.State.{PipeState};

    ghost Value = { PipeState };

    ghost view = { λ pipe. pipe.assembly.pipe };
}

impl Pipe {
    ghost use Rattle.std.specs.Borrow.{sem};
    ghost use Rattle.std.specs.Io.BufRead.{Rests};
    ghost use Rattle.rg_pipe.specs.Handing.{Feeds, Next, NextIn, Ends};
    ghost use Rattle.rg_pipe.specs.contracts.pipe.Pipe.{the_row};

    /// A pipe before its stream, whose next line is to have the offset `next`, at most 2^62. Takes its room of 65,548
    /// bytes here, and no memory later.
    pub fn new(alloc: Global, next: u64) -> Result<Pipe, Memory>
        requires { next ≤ 2 ^ 62 }
        ensures { IfOk result (λ pipe. pipe ≡ record {
          pending = [];
          place = 0;
          expected = next;
          refused = false;
        }) }
    {
        let assembly = Assembly::new(alloc, next)?;
        Ok(Pipe { assembly })
    }

    /// Takes as many first bytes of a piece as the request in hand lacks, and answers how many. After a refusal of
    /// `next` it takes none. A stream has at most 2^62 bytes.
    pub fn feed(&mut self, piece: &[u8]) -> usize
        requires { self.old.place + length self.old.pending + length piece.now ≤ 2 ^ 62 }
        ensures { Feeds self.old self.new piece.now result }
    {
        self.assembly.feed(piece)
    }

    /// Hands out the request in hand, where it has come whole. A refusal leaves the pipe as it was, but that `feed`
    /// takes nothing more.
    pub fn next(&mut self) -> Result<Option<Request<'_>>, PipeFault>
        ensures* after { sem 𝓛 (Rests the_row self.entry (λ new. Next self.old new result)) }
    {
        match self.assembly.load() {
            Err(fault) => Err(fault),
            Ok(None) => Ok(None),
            Ok(Some(Found::Line(offset))) => Ok(Some(Request::Line(offset, self.assembly.text()))),
            Ok(Some(Found::Again(offset))) => Ok(Some(Request::Again(offset))),
            Ok(Some(Found::Gap(offset, expected))) => Ok(Some(Request::Gap(offset, expected))),
            Ok(Some(Found::Commit)) => Ok(Some(Request::Commit)),
            Ok(Some(Found::Save)) => Ok(Some(Request::Save)),
        }
    }

    /// Hands out the request at the front of a piece, where nothing is in hand and the piece has it whole: as `feed` of
    /// its bytes and then `next` would, but the text of a line is the piece's own and isn't copied. Where nothing is
    /// handed out the pipe stays as it was; `feed` and `next` go on from there.
    pub fn next_in<'p>(&mut self, piece: &'p [u8]) -> Option<Whole<'p>>
        requires { self.old.place + length self.old.pending + length piece.now ≤ 2 ^ 62 }
        ensures { NextIn self.old self.new piece.now result }
    {
        let (found, bytes) = self.assembly.load_from(piece)?;
        let request = match found {
            Found::Line(offset) => Request::Line(offset, text_of(bytes)),
            Found::Again(offset) => Request::Again(offset),
            Found::Gap(offset, expected) => Request::Gap(offset, expected),
            Found::Commit => Request::Commit,
            Found::Save => Request::Save,
        };
        Some(Whole {
            size: bytes.len(),
            request,
        })
    }

    /// The offset that the next line is to have, at the end of the stream. Refused where the stream ended within a
    /// request, or where `next` was refused.
    pub fn end(&self) -> Result<u64, PipeFault>
        ensures { Ends self.now result }
    {
        self.assembly.end()
    }
}
