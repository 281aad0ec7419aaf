ghost use Rattle.std.specs.Prelude.{◌≡◌, ◌+◌, ◌<◌, ◌≤◌, ℕ, List, None, drop, length, slice_range, IfSome, IfNone};
ghost use Rattle.rg_token.specs.Token.{is_letter as letter_test, is_word_byte as word_byte_test, Spelled};
ghost use Rattle.rg_token.specs.Lexing.{IsLongest, NoToken};
ghost use Rattle.rg_token.specs.Automaton.{mode_if as mode_when, first as first_mode, next as next_mode, shape_at as shape_there, better as better_of, best_of, Reads};
ghost use Rattle.rg_token.specs.declared.piece.Shape.{Shape as TheShape};

use crate::piece::Shape;
use rg_keywords::{Op, Symbol};

/// The greatest number of digits in a number.
const MOST_DIGITS: u8 = 20;

/// How far a token is read.
#[derive(Clone, Copy, Debug, PartialEq, Eq)]
enum Mode {
    Start,
    /// In a word.
    InWord,
    /// Behind the sign of a number.
    Minus,
    /// Behind so many digits.
    Digits(u8),
    /// Behind the first quote.
    InText,
    /// Behind a quote that is the last one, or the first of two.
    Quote,
    /// Behind `!`.
    Bang,
    /// Behind `<`.
    Less,
    /// Behind `>`.
    Greater,
    /// Behind a sign that doesn't go on.
    Done(Symbol),
}

/// Where a token ends, and what it is.
#[derive(Clone, Copy, Debug, PartialEq, Eq)]
pub(crate) struct Found {
    /// The place behind its last byte.
    pub end: usize,
    pub shape: Shape,
}

fn is_letter(byte: u8) -> bool
    ensures { result ≡ letter_test byte }
{
    byte.is_ascii_alphabetic() || byte == b'_'
}

fn is_word_byte(byte: u8) -> bool
    ensures { result ≡ word_byte_test byte }
{
    is_letter(byte) || byte.is_ascii_digit()
}

fn mode_if(holds: bool, mode: Mode) -> Option<Mode>
    ensures { result ≡ mode_when holds mode }
{
    if holds { Some(mode) } else { None }
}

/// The mode behind the first byte of a token.
#[tactic(auto, unfolding(crate::specs::Automaton::first))]
fn first(byte: u8) -> Option<Mode>
    ensures { result ≡ first_mode byte }
{
    if is_letter(byte) {
        Some(Mode::InWord)
    } else if byte.is_ascii_digit() {
        Some(Mode::Digits(1))
    } else if byte == b'-' {
        Some(Mode::Minus)
    } else if byte == b'\'' {
        Some(Mode::InText)
    } else if byte == b'(' {
        Some(Mode::Done(Symbol::Open))
    } else if byte == b')' {
        Some(Mode::Done(Symbol::Close))
    } else if byte == b',' {
        Some(Mode::Done(Symbol::Comma))
    } else if byte == b'*' {
        Some(Mode::Done(Symbol::Star))
    } else if byte == b'=' {
        Some(Mode::Done(Symbol::Compare(Op::Eq)))
    } else if byte == b'!' {
        Some(Mode::Bang)
    } else if byte == b'<' {
        Some(Mode::Less)
    } else if byte == b'>' {
        Some(Mode::Greater)
    } else {
        None
    }
}

/// The mode behind one byte more.
#[tactic(auto, unfolding(crate::specs::Automaton::next))]
fn next(mode: Mode, byte: u8) -> Option<Mode>
    ensures { result ≡ next_mode mode byte }
{
    match mode {
        Mode::Start => first(byte),
        Mode::InWord => mode_if(is_word_byte(byte), Mode::InWord),
        Mode::Minus => mode_if(byte.is_ascii_digit(), Mode::Digits(1)),
        Mode::Digits(count) => {
            if count < MOST_DIGITS {
                mode_if(byte.is_ascii_digit(), Mode::Digits(count + 1))
            } else {
                None
            }
        }
        Mode::InText => {
            if byte == b'\'' {
                Some(Mode::Quote)
            } else {
                Some(Mode::InText)
            }
        }
        Mode::Quote => mode_if(byte == b'\'', Mode::InText),
        Mode::Bang => mode_if(byte == b'=', Mode::Done(Symbol::Compare(Op::Ne))),
        Mode::Less => mode_if(byte == b'=', Mode::Done(Symbol::Compare(Op::Le))),
        Mode::Greater => mode_if(byte == b'=', Mode::Done(Symbol::Compare(Op::Ge))),
        Mode::Done(_) => None,
    }
}

/// What the bytes are a token of, if they may end here.
fn shape_at(mode: Mode) -> Option<Shape>
    ensures { result ≡ shape_there mode }
{
    match mode {
        Mode::InWord => Some(Shape::Word),
        Mode::Digits(_) => Some(Shape::Number),
        Mode::Quote => Some(Shape::Text),
        Mode::Less => Some(Shape::Sign(Symbol::Compare(Op::Lt))),
        Mode::Greater => Some(Shape::Sign(Symbol::Compare(Op::Gt))),
        Mode::Done(symbol) => Some(Shape::Sign(symbol)),
        _ => None,
    }
}

/// The token that ends here, or else the best before.
fn better(mode: Mode, at: usize, best: Option<Found>) -> Option<Found>
    ensures { result ≡ better_of mode at best }
{
    match shape_at(mode) {
        Some(shape) => Some(Found { end: at, shape }),
        None => best,
    }
}

/// The last token that the bytes from here on pass as they are read.
fn last_passed(text: &[u8], from: usize) -> Option<Found>
    requires { from ≤ length text.now }
    ensures { result ≡ best_of Mode.Start (drop from text.now) from None }
{
    let mut mode = Mode::Start;
    let mut best = None;
    for at in from..text.len() {
        best = better(mode, at, best);
        match next(mode, text[at]) {
            Some(then) => mode = then,
            None => return best,
        }
    }
    better(mode, text.len(), best)
}

/// The longest token that begins here.
pub(crate) fn longest(text: &[u8], from: usize) -> Option<Found>
    requires { from ≤ length text.now }
    ensures found { IfSome result
        (λ found. (size : ℕ) × (found.end ≡ from + size) × IsLongest (drop from text.now) size found.shape) }
    ensures within { IfSome result (λ found. (from < found.end) × (found.end ≤ length text.now)) }
    ensures spelled { IfSome result (λ found. Spelled (slice_range text.now from found.end) found.shape) }
    ensures none { IfNone result (NoToken (drop from text.now)) }
{
    last_passed(text, from)
}

/// The tokens are what is read byte by byte.
fn law_spelled()
    ensures read { (bytes : List ℕ) (shape : TheShape) → Spelled bytes shape → Reads bytes shape }
    ensures only { (bytes : List ℕ) (shape : TheShape) → Reads bytes shape → Spelled bytes shape }
{}
