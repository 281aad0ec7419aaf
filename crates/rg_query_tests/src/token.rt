use crate::rows::{Checks, Row, assert_each};
use rg_bytes::Memory;
use rg_keywords::{Op, Symbol};
use rg_token::{Piece, Shape, pieces};
use std::alloc::Global;
use std::test::Fail;

const LESS_OR_EQUAL: Shape = Shape::Sign(Symbol::Compare(Op::Le));

const NOT_EQUAL: Shape = Shape::Sign(Symbol::Compare(Op::Ne));

/// A token: where it begins and ends, and what it is.
#[derive(Clone, Copy)]
struct Token(usize, usize, Shape);

fn is(piece: &Piece, token: Token, checks: &mut Checks) -> bool {
    let came = (piece.start, piece.end, piece.shape);
    checks.same("token", came, (token.0, token.1, token.2))
}

/// Whether the pieces are these tokens.
fn are(pieces: &[Piece], tokens: &[Token], checks: &mut Checks) -> bool {
    for (piece, token) in pieces.iter().zip(tokens) {
        if !is(piece, *token, checks) {
            return false;
        }
    }
    checks.same("tokens", pieces.len(), tokens.len())
}

/// A text has these tokens, and they end there.
#[derive(Clone, Copy)]
struct Case(&'static [u8], &'static [Token], usize);

impl Row for Case {
    fn is_so(&self, alloc: Global, checks: &mut Checks) -> Result<bool, Memory> {
        let lexed = pieces(alloc, self.0)?;
        let is_so = are(lexed.pieces.as_slice(), self.1, checks)
            && checks.same("end", lexed.end, self.2);
        drop(lexed);
        Ok(is_so)
    }
}

#[test]
fn a_text_has_its_longest_tokens_and_they_end_where_none_begins(
    rt: HostRuntime,
) -> Result<(), Fail> {
    assert_each(
        &rt,
        &[
            Case(
                b"SELECT count(*) FROM p WHERE a<=-3 AND b!='x''y'",
                &[
                    Token(0, 6, Shape::Word),
                    Token(7, 12, Shape::Word),
                    Token(12, 13, Shape::Sign(Symbol::Open)),
                    Token(13, 14, Shape::Sign(Symbol::Star)),
                    Token(14, 15, Shape::Sign(Symbol::Close)),
                    Token(16, 20, Shape::Word),
                    Token(21, 22, Shape::Word),
                    Token(23, 28, Shape::Word),
                    Token(29, 30, Shape::Word),
                    Token(30, 32, LESS_OR_EQUAL),
                    Token(32, 34, Shape::Number),
                    Token(35, 38, Shape::Word),
                    Token(39, 40, Shape::Word),
                    Token(40, 42, NOT_EQUAL),
                    Token(42, 48, Shape::Text),
                ],
                48,
            ),
            // A text ends at its last quote that closes.
            Case(b"'abc''d", &[Token(0, 5, Shape::Text)], 5),
            Case(
                b"123456789012345678901",
                &[Token(0, 20, Shape::Number), Token(20, 21, Shape::Number)],
                21,
            ),
            Case(b"-", &[], 0),
            Case(b"", &[], 0),
            Case(b"a ! b", &[Token(0, 1, Shape::Word)], 2),
        ],
    )
}
