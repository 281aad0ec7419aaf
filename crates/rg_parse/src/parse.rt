ghost use Rattle.std.specs.Prelude.{◌≡◌, All, IfOk, List, ℕ};
ghost use Rattle.rg_grammar.specs.Machine.{run, at_start};
ghost use Rattle.rg_parse.specs.Tokens.{tokens_of};
ghost use Rattle.rg_parse.specs.Texts.{Syntax, Reads, ReadsAs};
ghost use Rattle.rg_parse.specs.Parts.{IsPiece, IsMadeOf};
ghost use Rattle.rg_parse.specs.Outcomes.{Answers};

use crate::refusal::Refusal;
use crate::state::State;
use crate::step::{finish, step};
use crate::syntax::Raw;
use crate::token::token_of;
use rg_token::{Piece, pieces};
use std::alloc::Global;

/// Why a text is no query.
#[derive(Clone, Copy, Debug, PartialEq, Eq, Hash)]
pub enum SyntaxFault {
    /// It goes wrong at this place, in bytes: at the first token with which what was read begins no
    /// query, at the first bytes that form no token, or at its end.
    At(usize),
    /// A `NOT` or a parenthesis opens inside 32 others before it goes wrong.
    TooDeep,
    /// Memory ran out.
    Memory,
}

/// The query that the tokens are; `end` is where they end.
fn read(alloc: Global, text: &[u8], pieces: &[Piece], end: usize) -> Result<Raw, SyntaxFault>
    requires { All (IsPiece text.now) pieces.now }
    ensures answers { Answers text.now pieces.now end result (run 32 at_start (tokens_of text.now pieces.now)) }
    ensures made { IfOk result (λ raw. IsMadeOf text.now raw) }
{
    let mut state = State::Start;
    for i in 0..pieces.len() {
        state = match step(alloc, text, state, token_of(text, pieces[i])) {
            Ok(state) => state,
            Err(Refusal::Syntax) => return Err(SyntaxFault::At(pieces[i].start)),
            Err(Refusal::TooDeep) => return Err(SyntaxFault::TooDeep),
            Err(Refusal::Memory) => return Err(SyntaxFault::Memory),
        };
    }
    match finish(state) {
        Some(raw) => Ok(raw),
        None => Err(SyntaxFault::At(end)),
    }
}

/// The query that a text is. The text is read from the left, once, and never recursed on.
pub fn read_syntax(alloc: Global, text: &[u8]) -> Result<Raw, SyntaxFault>
    // What is answered is what the text is: a query, a place where it goes wrong, or too deep.
    ensures sound { ReadsAs text.now result }

    // No text is two of these.
    ensures unambiguous { (syntax other : Syntax) → Reads text.now syntax → Reads text.now other → syntax ≡ other }

    // Every text is one of these.
    ensures says { (any : List ℕ) → (syntax : Syntax) × Reads any syntax }

    // Each part of the query lies in the text, and is a word, a number or a string there.
    ensures spelled { IfOk result (λ raw. IsMadeOf text.now raw) }
{
    let lexed = match pieces(alloc, text) {
        Ok(lexed) => lexed,
        Err(_) => return Err(SyntaxFault::Memory),
    };
    match read(alloc, text, lexed.pieces.as_slice(), lexed.end) {
        Ok(raw) => {
            if lexed.end < text.len() {
                Err(SyntaxFault::At(lexed.end))
            } else {
                Ok(raw)
            }
        }
        Err(fault) => Err(fault),
    }
}
