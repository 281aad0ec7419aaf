ghost use Rattle.std.specs.Prelude.{◌≡◌, ◌≤◌, ℕ, List, length, All, IfOk};
ghost use Rattle.rg_token.specs.Lexing.{Lexes, IsInside, IsToken, is_blank as blank_test, skip as skip_of};
ghost use Rattle.rg_token.specs.Layout.{Item, IsLaid, layout, placed};
ghost use Rattle.rg_token.specs.declared.piece.Piece.{Piece as ThePiece};

use crate::automaton::longest;
use crate::piece::{Piece, Pieces};
use rg_bytes::Memory;
use std::alloc::Global;

/// The tokens of a text, and where they end.
#[derive(Debug, Drop)]
pub struct Lexed {
    pub pieces: Pieces,
    /// The first place, blanks skipped, from which no token begins: the length of the text where
    /// all of it is tokens and blanks.
    pub end: usize,
}

fn is_blank(byte: u8) -> bool
    ensures { result ≡ blank_test byte }
{
    byte == b' ' || byte == b'\t' || byte == b'\r' || byte == b'\n'
}

/// The first place from here on that isn't blank.
fn skip(text: &[u8], from: usize) -> usize
    requires { from ≤ length text.now }
    ensures place { result ≡ skip_of text.now from }
    ensures within { (from ≤ result) × (result ≤ length text.now) }
{
    let mut at = from;
    while at < text.len() && is_blank(text[at]) {
        at += 1;
    }
    at
}

/// The tokens of the text. Space, tab, CR and LF stand between tokens and mean nothing, and at each
/// place the longest token is taken, until none begins. The only error is for want of memory.
pub fn pieces(alloc: Global, text: &[u8]) -> Result<Lexed, Memory>
    // The tokens are the longest at each place, up to where none begins.
    ensures lexes { IfOk result (λ lexed. Lexes text.now 0 lexed.pieces lexed.end) }

    // Each piece lies in the text and is a token of its shape.
    ensures inside { IfOk result (λ lexed. All (IsInside text.now) lexed.pieces) }
    ensures spelled { IfOk result (λ lexed. All (IsToken text.now) lexed.pieces) }
    ensures end { IfOk result (λ lexed. lexed.end ≤ length text.now) }

    // No text has two lists of tokens, nor two ends of them.
    ensures one { (pieces more : List ThePiece) (end also : ℕ)
        → Lexes text.now 0 pieces end → Lexes text.now 0 more also → (pieces ≡ more) × (end ≡ also) }
{
    let mut pieces = Pieces::new(alloc);
    let mut at = 0;
    'tokens: loop {
        let start = skip(text, at);
        match longest(text, start) {
            None => return Ok(Lexed { pieces, end: start }),
            Some(found) => {
                pieces.push(Piece {
                    start,
                    end: found.end,
                    shape: found.shape,
                })?;
                at = found.end;
            }
        }
    }
}

/// A laid out text has the tokens that were laid out, and no others.
pub fn law_layout()
    ensures { (items : List Item) → IsLaid items → Lexes (layout items) 0 (placed 0 items) (length (layout items)) }
{}
