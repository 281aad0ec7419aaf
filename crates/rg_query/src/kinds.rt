ghost use Rattle.std.specs.Prelude.{◌≡◌, ℕ, List, IfOk};
ghost use Rattle.rg_parse.specs.Parts.{IsLiteral};
ghost use Rattle.rg_parse.specs.Views.{literal as literal_of};
ghost use Rattle.rg_query.specs.Resolving.{is_ordered, literal_value as value_of, id_of, literal_place, inside, unquoted as unquoted_of};

use crate::names::bytes_at;
use rg_bytes::{Memory, read_whole};
use rg_event::{Kind, Value, parse_value};
use rg_metric::Op;
use rg_parse::Literal;
use std::alloc::Global;

/// Whether values of this kind are compared so: flags have no order.
pub(crate) fn compares(kind: Kind, op: Op) -> bool
    ensures { result ≡ is_ordered kind op }
{
    kind != Kind::Flag || op == Op::Eq || op == Op::Ne
}

/// The place of a literal.
pub(crate) fn place_of(literal: Literal) -> usize
    ensures { (text : List ℕ) → result ≡ literal_place (literal_of text literal) }
{
    match literal {
        Literal::Number(part) | Literal::Text(part) => part.start,
        Literal::Truth(place, _) => place,
    }
}

/// What a literal is as a value of a kind. It answers `None` where it is none of that kind.
pub(crate) fn literal_value(
    alloc: Global,
    kind: Kind,
    text: &[u8],
    literal: Literal,
) -> Result<Option<Value>, Memory>
    requires { IsLiteral text.now literal }
    ensures { IfOk result (λ value. value ≡ value_of kind (literal_of text.now literal)) }
{
    match (kind, literal) {
        (Kind::Int, Literal::Number(part)) => parse_value(alloc, Kind::Int, bytes_at(text, part)),
        (Kind::Id, Literal::Number(part)) => Ok(read_id(bytes_at(text, part)).map(Value::Id)),
        (Kind::Text, Literal::Text(part)) => {
            parse_value(alloc, Kind::Text, &unquoted(alloc, bytes_at(text, part))?)
        }
        (Kind::Flag, Literal::Truth(_, flag)) => Ok(Some(Value::Flag(flag))),
        _ => Ok(None),
    }
}

/// The number of an id: digits, or a minus before a 0.
fn read_id(text: &[u8]) -> Option<u64>
    ensures { result ≡ id_of text.now }
{
    match text {
        [b'-', digits @ ..] => read_whole(digits).filter(|number| *number == 0),
        _ => read_whole(text),
    }
}

/// The bytes of a string, without the quotes around it and with each two inside as one.
fn unquoted(alloc: Global, text: &[u8]) -> Result<Vec<u8>, Memory>
    ensures { IfOk result (λ bytes. bytes.items ≡ unquoted_of text.now) }
{
    match text {
        [_, inner @ ..] => undoubled(alloc, inner),
        [] => Ok(Vec::new(alloc)),
    }
}

/// The bytes up to the quote that ends them, with each two quotes as one.
#[tactic(auto, using(crate::proofs::Strings::second, crate::proofs::Strings::first, crate::proofs::Strings::other))]
fn undoubled(alloc: Global, text: &[u8]) -> Result<Vec<u8>, Memory>
    ensures { IfOk result (λ bytes. bytes.items ≡ inside text.now) }
{
    let mut bytes = Vec::new(alloc);
    let mut is_behind_quote = false;
    for byte in text {
        if is_behind_quote {
            bytes.push(b'\'')?;
            is_behind_quote = false;
        } else if *byte == b'\'' {
            is_behind_quote = true;
        } else {
            bytes.push(*byte)?;
        }
    }
    Ok(bytes)
}
