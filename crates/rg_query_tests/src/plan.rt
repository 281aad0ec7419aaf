ghost use Rattle.std.specs.Prelude.{◌≡◌, map, false, All, IsTrue};
ghost use Rattle.rg_metric.specs.Queries.{asked, Asked};
ghost use Rattle.rg_plan.specs.Offsets.{IsMeasured};

use crate::built::Times;
use crate::rows::{Checks, Row, assert_each};
use crate::schema::schema_of;
use rg_bytes::Memory;
use rg_event::Schema;
use rg_metric::{Query, Window};
use rg_plan::{PlanFault, TaskPlan, compile};
use rg_query::parse;
use std::alloc::Global;
use std::test::Fail;

fn are_measured(queries: &[Query]) -> bool
    ensures { IsTrue result → All (λ (q : Asked). IsMeasured q.window) (map asked queries.now) }
{
    for query in queries {
        if is_too_long(query.window) {
            return false;
        }
    }
    true
}

fn is_too_long(window: Window) -> bool
    ensures { result ≡ false → IsMeasured window }
{
    if window.delay > 1000000000000000 {
        return true;
    }
    match window.length {
        None => false,
        Some(length) => length > 1000000000000000,
    }
}

/// How many windows, filters, groups and aggregators a plan has.
fn sizes(plan: &TaskPlan) -> [usize; 4] {
    [
        plan.windows().len(),
        plan.filters().len(),
        plan.groups().len(),
        plan.aggs().len(),
    ]
}

/// Whether each path of the plan of those alike leads where it is to.
fn has_paths(plan: &TaskPlan, checks: &mut Checks) -> bool {
    let paths = (plan.path(0, 0), plan.path(1, 0), plan.path(1, 1));
    let others = (plan.path(1, 2), plan.path(2, 0));
    checks.same("paths", paths, (Some(0), Some(1), Some(0)))
        && checks.same("paths of no aggregator", others, (None, None))
}

/// Whether a plan of 64 queries of 16 aggregators shares nothing.
fn shares_nothing(plan: &TaskPlan, checks: &mut Checks) -> bool {
    let paths = (plan.path(0, 15), plan.path(1, 0), plan.path(63, 15));
    checks.same("queries", plan.queries(), 64)
        && checks.same("sizes", sizes(plan), [64, 64, 64, 1024])
        && checks.same("paths", paths, (Some(15), Some(16), Some(1023)))
        && checks.same("there are nodes 64", plan.nodes(64).is_some(), false)
}

/// The plan of some queries.
#[derive(Clone, Copy)]
enum Case {
    /// It has so many windows, filters, groups and aggregators, and these offsets.
    Has(&'static [Times], &'static [usize], &'static [u64]),
    /// Each path leads to an aggregator of a query.
    Paths(&'static [Times]),
    /// Where each query has a window of its own it shares nothing.
    Apart(&'static [Times]),
    /// There is none, for this cause.
    Faulty(&'static [Times], PlanFault),
}

impl Case {
    /// The texts of its queries.
    fn texts(&self) -> &'static [Times] {
        match self {
            Case::Has(texts, _, _)
            | Case::Paths(texts)
            | Case::Apart(texts)
            | Case::Faulty(texts, _) => texts,
        }
    }

    fn is_of(&self, plan: &TaskPlan, checks: &mut Checks) -> bool {
        match self {
            Case::Has(_, nodes, offsets) => {
                checks.same("sizes", sizes(plan).as_slice(), *nodes)
                    && checks.same("offsets", plan.offsets(), *offsets)
            }
            Case::Paths(_) => has_paths(plan, checks),
            Case::Apart(_) => shares_nothing(plan, checks),
            Case::Faulty(_, fault) => checks.fails("plan", plan, *fault),
        }
    }

    fn has_fault(&self, fault: PlanFault, checks: &mut Checks) -> bool {
        match self {
            Case::Faulty(_, want) => checks.same("fault", fault, *want),
            _ => checks.fails("fault", fault, "a plan"),
        }
    }
}

/// Adds the query that a text says so many times; no memory where it says none.
fn push_times(
    alloc: Global,
    schema: &Schema,
    queries: &mut Vec<Query>,
    text: Times,
) -> Result<(), Memory> {
    for _ in 0..text.0 {
        match parse(alloc, schema, text.1) {
            Ok(query) => queries.push(query)?,
            Err(_) => return Err(Memory),
        }
    }
    Ok(())
}

fn push_all(
    alloc: Global,
    schema: &Schema,
    queries: &mut Vec<Query>,
    texts: &[Times],
) -> Result<(), Memory> {
    for text in texts {
        push_times(alloc, schema, queries, *text)?;
    }
    Ok(())
}

/// Gives each query a window of its own.
fn set_apart(queries: &mut [Query]) {
    for (delay, query) in queries.iter_mut().enumerate() {
        query.window.delay = delay as u64;
    }
}

/// Whether a copy of a plan is as the case says.
fn is_copied(
    alloc: Global,
    plan: &TaskPlan,
    case: &Case,
    checks: &mut Checks,
) -> Result<bool, Memory> {
    let copy = plan.copy(alloc)?;
    let is_so = case.is_of(&copy, checks);
    drop(copy);
    Ok(is_so)
}

/// Whether the plan of queries is so, whose windows are measured.
fn is_planned(
    alloc: Global,
    queries: &[Query],
    case: &Case,
    checks: &mut Checks,
) -> Result<bool, Memory> {
    if !are_measured(queries) {
        return Ok(checks.fails("windows", queries, "measured ones"));
    }
    match compile(alloc, queries) {
        Ok(plan) => {
            let is_so = is_copied(alloc, &plan, case, checks);
            drop(plan);
            is_so
        }
        Err(fault) => Ok(case.has_fault(fault, checks)),
    }
}

/// Whether the plan of the queries of the case is so, which are pushed to none.
fn is_pushed(
    alloc: Global,
    schema: &Schema,
    queries: &mut Vec<Query>,
    case: &Case,
    checks: &mut Checks,
) -> Result<bool, Memory> {
    push_all(alloc, schema, queries, case.texts())?;
    if let Case::Apart(_) = case {
        set_apart(queries);
    }
    is_planned(alloc, queries, case, checks)
}

/// Whether the case is so over a schema.
fn is_so_of(
    alloc: Global,
    schema: &Schema,
    case: &Case,
    checks: &mut Checks,
) -> Result<bool, Memory> {
    let mut queries = Vec::new(alloc);
    let is_so = is_pushed(alloc, schema, &mut queries, case, checks);
    drop(queries);
    is_so
}

impl Row for Case {
    fn is_so(&self, alloc: Global, checks: &mut Checks) -> Result<bool, Memory> {
        let schema = schema_of(alloc, b"p(ts,card:text,a:int,b:int)")?;
        let is_so = is_so_of(alloc, &schema, self, checks);
        drop(schema);
        is_so
    }
}

/// A count by a key over a window.
const COUNT: &[u8] = b"SELECT count(*) FROM p GROUP BY card OVER SLIDING 5 minutes";

/// That count, and a sum and that count, by the same key over the same window.
const ALIKE: &[Times] = &[
    Times(1, COUNT),
    Times(
        1,
        b"SELECT sum(a), count(*) FROM p GROUP BY card OVER SLIDING 5 minutes",
    ),
];

/// A query with the most aggregators.
const WIDE: &[u8] =
    b"SELECT sum(a), sum(b), avg(a), avg(b), sumsq(a), sumsq(b), min(a), min(b), max(a), max(b), first(a), first(b), last(a), last(b), countDistinct(a), countDistinct(b) FROM p OVER SLIDING 5 ms";

/// Lists of queries, and what their plan has, or why there is none.
const PLANS: &[Case] = &[
    Case::Has(ALIKE, &[1, 1, 1, 2], &[0, 300000]),
    // Three queries, of which two have one condition and two one key.
    Case::Has(
        &[
            Times(1, b"SELECT count(*) FROM p WHERE a > 100 OVER SLIDING 5 ms"),
            Times(1, b"SELECT count(*) FROM p WHERE a > 200 OVER SLIDING 5 ms"),
            Times(
                1,
                b"SELECT count(*) FROM p WHERE a > 100 GROUP BY card OVER SLIDING 5 ms",
            ),
        ],
        &[1, 2, 3, 3],
        &[0, 5],
    ),
    // Two windows.
    Case::Has(
        &[
            Times(
                1,
                b"SELECT count(*) FROM p OVER SLIDING 10 ms DELAYED BY 5 ms",
            ),
            Times(1, b"SELECT count(*) FROM p OVER SLIDING 5 ms"),
        ],
        &[2, 2, 2, 2],
        &[0, 5, 15],
    ),
    Case::Has(&[Times(64, WIDE)], &[1, 1, 1, 16], &[0, 5]),
    Case::Paths(ALIKE),
    Case::Apart(&[Times(64, WIDE)]),
    // Too many parts of a query, and the query behind 64.
    Case::Faulty(
        &[
            Times(1, WIDE),
            Times(
                1,
                b"SELECT count(*), count(*), count(*), count(*), count(*), count(*), count(*), count(*), count(*), count(*), count(*), count(*), count(*), count(*), count(*), count(*), count(*) FROM p OVER INFINITE",
            ),
        ],
        PlanFault::TooMany(1),
    ),
    Case::Faulty(&[Times(65, COUNT)], PlanFault::TooMany(64)),
];

#[test]
fn queries_share_what_they_have_in_common_and_too_many_are_refused(
    rt: HostRuntime,
) -> Result<(), Fail> {
    assert_each(&rt, PLANS)
}
