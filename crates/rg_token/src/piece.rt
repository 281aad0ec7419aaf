ghost use Rattle.std.specs.Prelude.{◌≡◌, [], ◌∷◌, ◌++◌, OnOk, OnErr};

use rg_bytes::Memory;
use rg_keywords::Symbol;
use std::alloc::Global;
use std::marker::Model;

/// What a token is.
#[derive(Clone, Copy, Debug, PartialEq, Eq)]
pub enum Shape {
    /// A letter or `_`, and then letters, digits or `_`, all ASCII.
    Word,
    /// 1 to 20 digits, or a `-` and so many.
    Number,
    /// Any bytes between single quotes, each quote among them twice.
    Text,
    /// A sign of the language.
    Sign(Symbol),
}

/// A token: what it is, and where it lies in the text, in bytes.
#[derive(Clone, Copy, Debug, PartialEq, Eq)]
pub struct Piece {
    /// The place of its first byte.
    pub start: usize,
    /// The place behind its last byte.
    pub end: usize,
    pub shape: Shape,
}

/// A list of tokens.
#[derive(Debug, Drop)]
pub struct Pieces {
    list: Vec<Piece>,
}

impl Model for Pieces {
    ghost use Rattle.std.specs.Prelude.{List};
    ghost use Rattle.rg_token.specs.declared.piece.Piece.{Piece as ThePiece};

    ghost Value = { List ThePiece };

    ghost view = { λ p. p.list.items };
}

impl Pieces {
    /// No tokens.
    pub(crate) fn new(alloc: Global) -> Pieces
        ensures { result ≡ [] }
    {
        Pieces {
            list: Vec::new(alloc),
        }
    }

    /// Adds a token at the end.
    pub(crate) fn push(&mut self, piece: Piece) -> Result<(), Memory>
        ensures ok { OnOk result (self.new ≡ self.old ++ piece ∷ []) }
        ensures err { OnErr result (self.new ≡ self.old) }
    {
        self.list.push(piece)?;
        Ok(())
    }

    pub fn as_slice(&self) -> &[Piece]
        ensures { result.now ≡ self.now }
    {
        &self.list
    }
}
