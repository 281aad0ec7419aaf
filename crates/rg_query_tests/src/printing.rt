use crate::rows::{Checks, Row, assert_each};
use crate::schema::schema_of;
use crate::written::{Written, is_written};
use rg_bytes::Memory;
use rg_event::Schema;
use rg_metric::{Agg, Func, Query};
use rg_query::parse;
use std::alloc::Global;
use std::test::Fail;

/// The stream that the tests ask of: six numbers, and then a text and a flag.
const STREAM: &[u8] = b"p(ts,a:int,b:int,c:int,d:int,e:int,f:int,card:text,safe:flag)";

/// What is printed, and how.
#[derive(Clone, Copy)]
enum Case {
    /// The query that a text says.
    Query(&'static [u8], &'static [u8]),
    /// Its condition.
    Condition(&'static [u8], &'static [u8]),
    Agg(Agg, &'static [u8]),
}

/// Whether a query, or its condition, is printed as the case says.
fn is_said(
    alloc: Global,
    schema: &Schema,
    query: &Query,
    case: &Case,
    checks: &mut Checks,
) -> Result<bool, Memory> {
    match case {
        Case::Query(_, want) => is_written(alloc, Written::Query(schema, query), want, checks),
        Case::Condition(_, want) => {
            is_written(alloc, Written::Condition(schema, query), want, checks)
        }
        Case::Agg(agg, _) => Ok(checks.fails("printed", query, *agg)),
    }
}

/// Whether the query that a text says is printed so.
fn is_read(
    alloc: Global,
    schema: &Schema,
    text: &[u8],
    case: &Case,
    checks: &mut Checks,
) -> Result<bool, Memory> {
    match parse(alloc, schema, text) {
        Ok(query) => {
            let is_so = is_said(alloc, schema, &query, case, checks);
            drop(query);
            is_so
        }
        Err(fault) => Ok(checks.fails("query", fault, "one that is read")),
    }
}

fn is_so_of(
    alloc: Global,
    schema: &Schema,
    case: &Case,
    checks: &mut Checks,
) -> Result<bool, Memory> {
    match case {
        Case::Query(text, _) | Case::Condition(text, _) => {
            is_read(alloc, schema, text, case, checks)
        }
        Case::Agg(agg, want) => is_written(alloc, Written::Agg(schema, agg), want, checks),
    }
}

impl Row for Case {
    fn is_so(&self, alloc: Global, checks: &mut Checks) -> Result<bool, Memory> {
        let schema = schema_of(alloc, STREAM)?;
        let is_so = is_so_of(alloc, &schema, self, checks);
        drop(schema);
        is_so
    }
}

/// Queries, conditions and an aggregator, and what each is printed as.
const PRINTED: &[Case] = &[
    // A delay of 0 isn't printed.
    Case::Query(
        b"select count(*),Sum(b) from p group by card over sliding 5 minutes delayed by 0 days",
        b"SELECT count(*), sum(b) FROM p GROUP BY card OVER SLIDING 300000 ms",
    ),
    Case::Query(
        b"SELECT count(*), COUNTDISTINCT(card) FROM p WHERE b=7 GROUP BY card, a OVER infinite DELAYED BY 5 ms",
        b"SELECT count(*), countDistinct(card) FROM p WHERE b = 7 GROUP BY card, a OVER INFINITE DELAYED BY 5 ms",
    ),
    Case::Query(
        b"select MEDIAN(b),Pct( 05 ,b ) from p over infinite",
        b"SELECT median(b), pct(5, b) FROM p OVER INFINITE",
    ),
    // Parentheses stand where they are needed.
    Case::Condition(
        b"SELECT count(*) FROM p WHERE (a = 1 OR b = 2) AND NOT (c = 3 AND d = 4) AND (e = 5 AND f = 6) OVER INFINITE",
        b"(a = 1 OR b = 2) AND NOT (c = 3 AND d = 4) AND (e = 5 AND f = 6)",
    ),
    // An OR on the right of an OR, and on its left.
    Case::Condition(
        b"SELECT count(*) FROM p WHERE a = 1 OR (b = 2 OR c = 3) OVER INFINITE",
        b"a = 1 OR (b = 2 OR c = 3)",
    ),
    Case::Condition(
        b"SELECT count(*) FROM p WHERE (a = 1 OR b = 2) OR c = 3 OVER INFINITE",
        b"a = 1 OR b = 2 OR c = 3",
    ),
    Case::Condition(
        b"SELECT count(*) FROM p WHERE (a = 1 AND b = 2) OR (c = 3 AND d = 4) OVER INFINITE",
        b"a = 1 AND b = 2 OR c = 3 AND d = 4",
    ),
    Case::Condition(
        b"SELECT count(*) FROM p WHERE not (not (a = 1)) or (a=2) OVER INFINITE",
        b"NOT NOT a = 1 OR a = 2",
    ),
    // Texts, numbers and flags are literals.
    Case::Condition(
        b"SELECT count(*) FROM p WHERE card!='it''s ''so''' OVER INFINITE",
        b"card != 'it''s ''so'''",
    ),
    Case::Condition(
        b"SELECT count(*) FROM p WHERE a>=-05 OVER INFINITE",
        b"a >= -5",
    ),
    Case::Condition(
        b"SELECT count(*) FROM p WHERE safe = true OVER INFINITE",
        b"safe = TRUE",
    ),
    Case::Condition(
        b"SELECT count(*) FROM p WHERE not(safe != False) OVER INFINITE",
        b"NOT safe != FALSE",
    ),
    // An aggregator is printed alone.
    Case::Agg(
        Agg {
            func: Func::SumSq,
            field: 6,
        },
        b"sumsq(f)",
    ),
];

#[test]
fn a_query_a_condition_and_an_aggregator_are_printed_in_their_one_form(
    rt: HostRuntime,
) -> Result<(), Fail> {
    assert_each(&rt, PRINTED)
}
