use crate::built::{Times, put_parts};
use crate::rows::{Checks, Row, assert_each};
use crate::schema::schema_of;
use rg_bytes::Memory;
use rg_event::{Schema, Value};
use rg_metric::{Agg, Condition, Func, Op, Query, Window};
use rg_query::{QueryFault, parse};
use std::alloc::Global;
use std::test::Fail;

/// Payments of a text, a text, an int, an id and a flag.
const PAYMENTS: &[u8] = b"payments(ts,card:text,merchant:text,amount:int,terminal:id,online:flag)";

/// A query of every clause.
const EVERY_CLAUSE: &[u8] =
    b"select COUNT(*), Sum(amount), countdistinct(card) from payments\n\twhere terminal >= -0 AND not (card = 'it''s' or online != false)\n\tGroup BY card, terminal over sliding 2 Minutes delayed by 7 MS";

/// Its aggregators.
const AGGS: &[Agg] = &[
    Agg {
        func: Func::Count,
        field: 0,
    },
    Agg {
        func: Func::Sum,
        field: 3,
    },
    Agg {
        func: Func::CountDistinct,
        field: 1,
    },
];

const WINDOW: Window = Window {
    delay: 7,
    length: Some(120_000),
};

/// Whether a condition is `terminal >= 0`.
fn is_of_terminal(condition: &Condition) -> bool {
    matches!(condition, Condition::Compare(4, Op::Ge, Value::Id(0)))
}

/// Whether it is `online != FALSE`.
fn is_of_online(condition: &Condition) -> bool {
    matches!(condition, Condition::Compare(5, Op::Ne, Value::Flag(false)))
}

/// Whether it is `card = 'it''s'`.
fn is_of_card(condition: &Condition) -> bool {
    match condition {
        Condition::Compare(1, Op::Eq, Value::Text(word)) => word.as_bytes() == b"it's".as_slice(),
        _ => false,
    }
}

/// Whether it is `card = 'it''s' OR online != FALSE`.
fn is_choice(condition: &Condition) -> bool {
    match condition {
        Condition::Or(left, right) => is_of_card(left) && is_of_online(right),
        _ => false,
    }
}

/// Whether it is `NOT (card = 'it''s' OR online != FALSE)`.
fn is_no_choice(condition: &Condition) -> bool {
    match condition {
        Condition::Not(inner) => is_choice(inner),
        _ => false,
    }
}

/// The query's filter.
const FILTER: &str = "terminal >= 0 AND NOT (card = 'it''s' OR online != FALSE)";

/// Whether a query's filter is `terminal >= 0 AND NOT (card = 'it''s' OR online != FALSE)`.
fn is_filter(query: &Query) -> bool {
    match &query.filter {
        Some(Condition::And(left, right)) => is_of_terminal(left) && is_no_choice(right),
        _ => false,
    }
}

/// Whether a query is what the text of every clause says.
fn is_of_every_clause(query: &Query, checks: &mut Checks) -> bool {
    checks.same("aggregators", query.aggs.as_slice(), AGGS)
        && checks.same("key", query.group.as_slice(), [1, 4].as_slice())
        && checks.same("window", query.window, WINDOW)
        && (is_filter(query) || checks.fails("filter", &query.filter, FILTER))
}

/// Whether a copy of a query is.
fn is_copied(alloc: Global, query: &Query, checks: &mut Checks) -> Result<bool, Memory> {
    let copy = query.copy(alloc)?;
    let is_so = is_of_every_clause(&copy, checks);
    drop(copy);
    Ok(is_so)
}

/// Whether the query of every clause is what its text says.
fn is_said(alloc: Global, schema: &Schema, checks: &mut Checks) -> Result<bool, Memory> {
    match parse(alloc, schema, EVERY_CLAUSE) {
        Ok(query) => {
            let is_copied = is_copied(alloc, &query, checks);
            drop(query);
            is_copied
        }
        Err(fault) => Ok(checks.fails("query", fault, "one of every clause")),
    }
}

/// Whether a text is a query, or none for this cause.
fn is_read_so(
    alloc: Global,
    schema: &Schema,
    text: &[u8],
    want: Option<QueryFault>,
    checks: &mut Checks,
) -> bool {
    checks.same("fault", parse(alloc, schema, text).err(), want)
}

/// Whether these parts are a text of this length that is no query for this cause, if for any.
fn is_built(
    alloc: Global,
    schema: &Schema,
    parts: &[Times],
    length: usize,
    fault: Option<QueryFault>,
    checks: &mut Checks,
) -> Result<bool, Memory> {
    let mut text = Vec::new(alloc);
    let put = put_parts(&mut text, parts);
    let is_so = checks.same("length", text.len(), length)
        && is_read_so(alloc, schema, &text, fault, checks);
    drop(text);
    put?;
    Ok(is_so)
}

/// What a text over payments is.
#[derive(Clone, Copy)]
enum Case {
    /// The query of every clause.
    EveryClause,
    Read(&'static [u8]),
    /// No query, for this cause.
    Faulty(&'static [u8], QueryFault),
    /// Of these parts it has this length, and is no query for this cause, if for any.
    Built(&'static [Times], usize, Option<QueryFault>),
}

fn is_so_of(
    alloc: Global,
    schema: &Schema,
    case: &Case,
    checks: &mut Checks,
) -> Result<bool, Memory> {
    match case {
        Case::EveryClause => is_said(alloc, schema, checks),
        Case::Read(text) => Ok(is_read_so(alloc, schema, text, None, checks)),
        Case::Faulty(text, fault) => { Ok(is_read_so(alloc, schema, text, Some(*fault), checks)) }
        Case::Built(parts, length, fault) => {
            is_built(alloc, schema, parts, *length, *fault, checks)
        }
    }
}

impl Row for Case {
    fn is_so(&self, alloc: Global, checks: &mut Checks) -> Result<bool, Memory> {
        let schema = schema_of(alloc, PAYMENTS)?;
        let is_so = is_so_of(alloc, &schema, self, checks);
        drop(schema);
        is_so
    }
}

/// The query of every clause, and texts of one fault or several, with the one that is told.
const FAULTY: &[Case] = &[
    Case::EveryClause,
    // Syntax comes first, then names, then kinds, then spans.
    Case::Faulty(b"", QueryFault::Syntax(0)),
    Case::Faulty(b"SELECT count(*)", QueryFault::Syntax(15)),
    Case::Faulty(
        b"SELECT count(amount) FROM payments OVER INFINITE",
        QueryFault::Syntax(13),
    ),
    Case::Faulty(
        b"SELECT sum(x) FROM payments OVER SLIDING 0 weeks",
        QueryFault::Syntax(43),
    ),
    Case::Faulty(
        b"SELECT sum(card) FROM payments WHERE x = 1 OVER SLIDING 0 ms",
        QueryFault::UnknownName(37),
    ),
    Case::Faulty(
        b"SELECT sum(card) FROM payments OVER SLIDING 0 ms",
        QueryFault::WrongKind(11),
    ),
    Case::Faulty(
        b"SELECT count(*) FROM payments OVER SLIDING 0 ms",
        QueryFault::BadSpan(43),
    ),
    // The first name that nothing has, or field of a wrong kind, is told.
    Case::Faulty(
        b"SELECT sum(Amount) FROM payments OVER INFINITE",
        QueryFault::UnknownName(11),
    ),
    Case::Faulty(
        b"SELECT sum(x) FROM y OVER INFINITE",
        QueryFault::UnknownName(11),
    ),
    Case::Faulty(
        b"SELECT count(*) FROM sales WHERE x = 1 OVER INFINITE",
        QueryFault::UnknownName(21),
    ),
    Case::Faulty(
        b"SELECT count(*) FROM payments WHERE ts > 5 OVER INFINITE",
        QueryFault::UnknownName(36),
    ),
    Case::Faulty(
        b"SELECT count(*) FROM payments GROUP BY card, ts OVER INFINITE",
        QueryFault::UnknownName(45),
    ),
    Case::Faulty(
        b"SELECT sum(card) FROM payments OVER INFINITE",
        QueryFault::WrongKind(11),
    ),
    Case::Faulty(
        b"SELECT sum(terminal) FROM payments OVER INFINITE",
        QueryFault::WrongKind(11),
    ),
    Case::Faulty(
        b"SELECT max(terminal), last(card) FROM payments OVER INFINITE",
        QueryFault::WrongKind(27),
    ),
    Case::Faulty(
        b"SELECT count(*) FROM payments WHERE online < 1 OVER INFINITE",
        QueryFault::WrongKind(36),
    ),
];

/// Ranks, and the percents and fields of them that are refused.
const RANKS: &[Case] = &[
    Case::Read(
        b"SELECT median(amount), PCT(1, terminal), pct(100, amount) FROM payments OVER INFINITE",
    ),
    Case::Read(b"SELECT pct(00000000000000000050, amount) FROM payments OVER INFINITE"),
    // A percent is from 1 to 100, whatever its field is.
    Case::Faulty(
        b"SELECT pct(0, amount) FROM payments OVER INFINITE",
        QueryFault::WrongKind(11),
    ),
    Case::Faulty(
        b"SELECT pct(101, card) FROM payments OVER INFINITE",
        QueryFault::WrongKind(11),
    ),
    Case::Faulty(
        b"SELECT pct(99999999999999999999, amount) FROM payments OVER INFINITE",
        QueryFault::WrongKind(11),
    ),
    Case::Faulty(
        b"SELECT pct(0, x) FROM payments OVER INFINITE",
        QueryFault::UnknownName(14),
    ),
    // The field is an int or an id.
    Case::Faulty(
        b"SELECT pct(1, card) FROM payments OVER INFINITE",
        QueryFault::WrongKind(14),
    ),
    Case::Faulty(
        b"SELECT median(card) FROM payments OVER INFINITE",
        QueryFault::WrongKind(14),
    ),
    // A percent has no minus, and stands in front of a comma and a field.
    Case::Faulty(
        b"SELECT pct(-1, amount) FROM payments OVER INFINITE",
        QueryFault::Syntax(11),
    ),
    Case::Faulty(
        b"SELECT pct(amount) FROM payments OVER INFINITE",
        QueryFault::Syntax(11),
    ),
    Case::Faulty(
        b"SELECT pct(50 amount) FROM payments OVER INFINITE",
        QueryFault::Syntax(14),
    ),
    Case::Faulty(
        b"SELECT pct(50) FROM payments OVER INFINITE",
        QueryFault::Syntax(13),
    ),
    Case::Faulty(
        b"SELECT median(50, amount) FROM payments OVER INFINITE",
        QueryFault::Syntax(14),
    ),
];

#[test]
fn a_rank_has_a_percent_from_1_to_100_and_a_number_as_its_field(
    rt: HostRuntime,
) -> Result<(), Fail> {
    assert_each(&rt, RANKS)
}

#[test]
fn syntax_comes_first_then_the_first_wrong_name_then_kinds(rt: HostRuntime) -> Result<(), Fail> {
    assert_each(&rt, FAULTY)
}

/// Literals of a column's kind or another one, and spans, texts and parentheses up to their limits and past them.
const LITERALS_AND_LIMITS: &[Case] = &[
    // A literal is one of its column's kind.
    Case::Read(b"SELECT count(*) FROM payments WHERE amount > -1000000000000 OVER INFINITE"),
    Case::Faulty(
        b"SELECT count(*) FROM payments WHERE amount > 1000000000001 OVER INFINITE",
        QueryFault::WrongKind(45),
    ),
    Case::Faulty(
        b"SELECT count(*) FROM payments WHERE card = 5 OVER INFINITE",
        QueryFault::WrongKind(43),
    ),
    Case::Faulty(
        b"SELECT count(*) FROM payments WHERE card = '\xff' OVER INFINITE",
        QueryFault::WrongKind(43),
    ),
    Case::Faulty(
        b"SELECT count(*) FROM payments WHERE terminal = -1 OVER INFINITE",
        QueryFault::WrongKind(47),
    ),
    Case::Read(
        b"SELECT count(*) FROM payments WHERE terminal = 18446744073709551615 OVER INFINITE",
    ),
    Case::Faulty(
        b"SELECT count(*) FROM payments WHERE terminal = 18446744073709551616 OVER INFINITE",
        QueryFault::WrongKind(47),
    ),
    Case::Faulty(
        b"SELECT count(*) FROM payments WHERE online = 1 OVER INFINITE",
        QueryFault::WrongKind(45),
    ),
    // A span has at most 10^15 milliseconds.
    Case::Read(b"SELECT count(*) FROM payments OVER SLIDING 11574074 days"),
    Case::Faulty(
        b"SELECT count(*) FROM payments OVER SLIDING 11574075 days",
        QueryFault::BadSpan(43),
    ),
    Case::Read(b"SELECT count(*) FROM payments OVER SLIDING 1000000000000000 ms"),
    Case::Faulty(
        b"SELECT count(*) FROM payments OVER SLIDING 99999999999999999999 ms",
        QueryFault::BadSpan(43),
    ),
    Case::Read(b"SELECT count(*) FROM payments OVER INFINITE DELAYED BY 0 ms"),
    Case::Faulty(
        b"SELECT count(*) FROM payments OVER INFINITE DELAYED BY 1000000000000001 ms",
        QueryFault::BadSpan(55),
    ),
    Case::Faulty(
        b"SELECT count(*) FROM payments OVER SLIDING 1 ms DELAYED BY 16666666667 minutes",
        QueryFault::BadSpan(59),
    ),
    // A text has 4,096 bytes at most.
    Case::Built(
        &[
            Times(4_053, b" "),
            Times(1, b"SELECT count(*) FROM payments OVER INFINITE"),
        ],
        4_096,
        None,
    ),
    Case::Built(
        &[
            Times(4_054, b" "),
            Times(1, b"SELECT count(*) FROM payments OVER INFINITE"),
        ],
        4_097,
        Some(QueryFault::TooLarge),
    ),
    // A condition stands in 32 parentheses at most.
    Case::Built(
        &[
            Times(1, b"SELECT count(*) FROM payments WHERE "),
            Times(32, b"("),
            Times(1, b"amount = 1"),
            Times(32, b")"),
            Times(1, b" OVER INFINITE"),
        ],
        124,
        None,
    ),
    Case::Built(
        &[
            Times(1, b"SELECT count(*) FROM payments WHERE "),
            Times(33, b"("),
            Times(1, b"amount = 1"),
            Times(33, b")"),
            Times(1, b" OVER INFINITE"),
        ],
        126,
        Some(QueryFault::TooLarge),
    ),
];

#[test]
fn a_literal_is_of_its_columns_kind_and_spans_texts_and_parentheses_have_a_limit(
    rt: HostRuntime,
) -> Result<(), Fail> {
    assert_each(&rt, LITERALS_AND_LIMITS)
}
