ghost use Rattle.std.specs.Prelude.{◌≡◌};
ghost use Rattle.rg_parse.specs.Views.{text_at, token as token_view};
ghost use Rattle.rg_parse.specs.Parts.{IsName, IsPiece};
ghost use Rattle.rg_parse.specs.Steps.{IsToken};
ghost use Rattle.rg_parse.specs.Tokens.{word_token, token_of as piece_token};

use crate::syntax::{Literal, Span};
use rg_keywords::{Keyword, Symbol, truth};
use rg_token::{Piece, Shape};

/// A token, told from its keyword or its shape.
#[derive(Clone, Copy, Debug, PartialEq, Eq)]
pub enum Token {
    Reserved(Keyword),
    Sign(Symbol),
    Word(Span),
    Literal(Literal),
}

/// The token that a word is: a keyword, a flag or a name.
fn token_of_word(text: &[u8], span: Span) -> Token
    requires { IsName text.now span }
    ensures token { token_view text.now result ≡ word_token span.start (text_at text.now span) }
    ensures made { IsToken text.now result }
{
    let word = &text[span.start..span.end];
    match Keyword::named(word) {
        Some(keyword) => Token::Reserved(keyword),
        None => match truth(word) {
            Some(flag) => Token::Literal(Literal::Truth(span.start, flag)),
            None => Token::Word(span),
        },
    }
}

/// The token that a piece of the text is.
pub fn token_of(text: &[u8], piece: Piece) -> Token
    requires { IsPiece text.now piece }
    ensures token { token_view text.now result ≡ piece_token text.now piece }
    ensures made { IsToken text.now result }
{
    let span = Span {
        start: piece.start,
        end: piece.end,
    };
    match piece.shape {
        Shape::Word => token_of_word(text, span),
        Shape::Number => Token::Literal(Literal::Number(span)),
        Shape::Text => Token::Literal(Literal::Text(span)),
        Shape::Sign(symbol) => Token::Sign(symbol),
    }
}
