//! The tokens of a query text.
#![tactic(auto)]

mod automaton;
mod lex;
mod piece;

pub use lex::{Lexed, law_layout, pieces};
pub use piece::{Piece, Pieces, Shape};
