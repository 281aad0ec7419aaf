use crate::built::{Times, put_parts};
use crate::rows::{Checks, Row, assert_each};
use rg_bytes::Memory;
use rg_keywords::{Func, TimeUnit};
use rg_parse::{Call, Duration, Expr, Raw, Span, SyntaxFault, read_syntax};
use std::alloc::Global;
use std::test::Fail;

/// A query of every clause.
const EVERY_CLAUSE: &[u8] =
    b"select COUNT(*), sum(amount) FROM payments where a = 1 AND NOT (b != 'x''y' OR c<=-3) group by card, shop OVER sliding 5 minutes delayed BY 10 ms";

/// The span of its sum's field.
const AMOUNT: Span = Span { start: 21, end: 27 };

/// That of its stream.
const PAYMENTS: Span = Span { start: 34, end: 42 };

/// Those of the columns of its key.
const CARD: Span = Span { start: 95, end: 99 };

const SHOP: Span = Span {
    start: 101,
    end: 105,
};

/// How long its window is, and how late.
const LENGTH: Duration = Duration {
    number: Span {
        start: 119,
        end: 120,
    },
    unit: TimeUnit::Minute,
};

const DELAY: Duration = Duration {
    number: Span {
        start: 140,
        end: 142,
    },
    unit: TimeUnit::Millisecond,
};

/// Whether its calls are a count and a sum of the amount.
fn are_calls(calls: &[Call], checks: &mut Checks) -> bool {
    match calls {
        [Call::CountAll, Call::Field(Func::Sum, field)] => checks.same("field", *field, AMOUNT),
        _ => checks.fails("calls", calls, "a count and a sum"),
    }
}

/// Whether a filter is of two conditions that hold.
fn is_filter(filter: &Option<Expr>, checks: &mut Checks) -> bool {
    matches!(filter, Some(Expr::And(_, _))) || checks.fails("filter", filter, "an AND")
}

/// Whether a query has every clause of that one, where two conditions hold.
fn is_of_every_clause(raw: &Raw, checks: &mut Checks) -> bool {
    are_calls(raw.calls.as_slice(), checks)
        && checks.same("stream", raw.stream, PAYMENTS)
        && is_filter(&raw.filter, checks)
        && checks.same("key", raw.group.as_slice(), [CARD, SHOP].as_slice())
        && checks.same("length", raw.length, Some(LENGTH))
        && checks.same("delay", raw.delay, Some(DELAY))
}

/// Whether that query is read.
fn is_read(alloc: Global, checks: &mut Checks) -> bool {
    match read_syntax(alloc, EVERY_CLAUSE) {
        Ok(raw) => {
            let is_so = is_of_every_clause(&raw, checks);
            drop(raw);
            is_so
        }
        Err(fault) => checks.fails("query", fault, "one of every clause"),
    }
}

/// Whether a text is a query, or none for this cause.
fn is_read_so(alloc: Global, text: &[u8], want: Option<SyntaxFault>, checks: &mut Checks) -> bool {
    checks.same("fault", read_syntax(alloc, text).err(), want)
}

/// Whether the text of these parts is no query for this cause.
fn is_built_so(
    alloc: Global,
    parts: &[Times],
    fault: SyntaxFault,
    checks: &mut Checks,
) -> Result<bool, Memory> {
    let mut text = Vec::new(alloc);
    let put = put_parts(&mut text, parts);
    let is_so = is_read_so(alloc, &text, Some(fault), checks);
    drop(text);
    put?;
    Ok(is_so)
}

/// What a text is.
#[derive(Clone, Copy)]
enum Case {
    /// The query of every clause is one.
    EveryClause,
    /// It is a query.
    Read(&'static [u8]),
    /// It is none, and goes wrong there.
    Wrong(&'static [u8], usize),
    /// Of these parts it is no query.
    Nested(&'static [Times], SyntaxFault),
}

impl Row for Case {
    fn is_so(&self, alloc: Global, checks: &mut Checks) -> Result<bool, Memory> {
        match self {
            Case::EveryClause => Ok(is_read(alloc, checks)),
            Case::Read(text) => Ok(is_read_so(alloc, text, None, checks)),
            Case::Wrong(text, place) => {
                Ok(is_read_so(alloc, text, Some(SyntaxFault::At(*place)), checks))
            }
            Case::Nested(parts, fault) => is_built_so(alloc, parts, *fault, checks),
        }
    }
}

#[test]
fn a_query_is_read_or_goes_wrong_at_its_first_wrong_token(rt: HostRuntime) -> Result<(), Fail> {
    assert_each(
        &rt,
        &[
            Case::EveryClause,
            // A query without a filter or a key.
            Case::Read(b"SELECT count(*) FROM p OVER INFINITE DELAYED BY 1 day"),
            Case::Wrong(b"", 0),
            Case::Wrong(b"SELECT count(*)", 15),
            Case::Wrong(b"SELECT sum(*) FROM payments OVER INFINITE", 11),
            Case::Wrong(b"SELECT count(*) FROM p WHERE a = 'x OVER INFINITE", 33),
            Case::Wrong(b"SELECT count(*) FROM p WHERE a = 1) OVER INFINITE", 34),
            Case::Wrong(b"SELECT count(*) FROM p OVER SLIDING -5 ms", 36),
            Case::Wrong(b"SELECT count(*) FROM p OVER INFINITE DELAYED 1 day", 45),
            Case::Wrong(b"SELECT count(*) FROM p OVER INFINITE ~", 37),
            // A condition nests 32 deep and no deeper.
            Case::Nested(
                &[
                    Times(1, b"SELECT count(*) FROM p WHERE "),
                    Times(33, b"("),
                    Times(1, b"a = 1"),
                    Times(33, b")"),
                ],
                SyntaxFault::TooDeep,
            ),
            Case::Nested(
                &[
                    Times(1, b"SELECT count(*) FROM p WHERE "),
                    Times(32, b"("),
                    Times(1, b"a = 1"),
                    Times(31, b")"),
                ],
                SyntaxFault::At(97),
            ),
        ],
    )
}
