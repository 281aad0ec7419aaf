ghost use Rattle.std.specs.Prelude.{◌≡◌, map, false, All, IsTrue};
ghost use Rattle.rg_metric.specs.Queries.{asked, Asked};
ghost use Rattle.rg_plan.specs.Offsets.{IsMeasured};

use rg_event::Value;
use rg_metric::{Agg, Aggs, Columns, Condition, Op, Query, Window};
use rg_plan::{TaskPlan, compile};
use std::alloc::Global;

/// What is asked of payments, by columns and over a window.
#[derive(Clone, Copy)]
pub(crate) struct Ask {
    pub(crate) aggs: &'static [Agg],
    /// Of those alone whose amount, the third column, is above this.
    pub(crate) above: Option<i64>,
    pub(crate) columns: &'static [u32],
    pub(crate) window: Window,
}

fn push_aggs(aggs: &mut Aggs, list: &[Agg]) -> bool {
    for agg in list {
        if aggs.push(*agg).is_err() {
            return false;
        }
    }
    true
}

fn push_columns(columns: &mut Columns, list: &[u32]) -> bool {
    for column in list {
        if columns.push(*column).is_err() {
            return false;
        }
    }
    true
}

/// The condition that the third column is above a number, where one is given.
fn above(number: Option<i64>) -> Option<Condition> {
    match number {
        None => None,
        Some(number) => Some(Condition::Compare(3, Op::Gt, Value::Int(number))),
    }
}

fn push_query(alloc: Global, queries: &mut Vec<Query>, ask: &Ask) -> bool {
    let mut aggs = Aggs::new(alloc);
    let mut group = Columns::new(alloc);
    let is_filled = push_aggs(&mut aggs, ask.aggs) && push_columns(&mut group, ask.columns);
    let query = Query {
        aggs,
        filter: above(ask.above),
        group,
        window: ask.window,
    };
    queries.push(query).is_ok() && is_filled
}

fn push_queries(alloc: Global, queries: &mut Vec<Query>, asks: &[Ask]) -> bool {
    for ask in asks {
        if !push_query(alloc, queries, ask) {
            return false;
        }
    }
    true
}

/// The plan of queries whose windows are measured.
fn compiled(alloc: Global, queries: &[Query]) -> Option<TaskPlan> {
    if !are_measured(queries) {
        return None;
    }
    compile(alloc, queries).ok()
}

/// The plan of what is asked; none without memory, or where a window is too long for one.
pub(crate) fn plan_of(alloc: Global, asks: &[Ask]) -> Option<TaskPlan> {
    let mut queries = Vec::new(alloc);
    let plan = if push_queries(alloc, &mut queries, asks) {
        compiled(alloc, &queries)
    } else {
        None
    };
    drop(queries);
    plan
}

fn are_measured(queries: &[Query]) -> bool
    ensures { IsTrue result → All (λ (q : Asked). IsMeasured q.window) (map asked queries.now) }
{
    for query in queries {
        if is_too_long(query.window) {
            return false;
        }
    }
    true
}

fn is_too_long(window: Window) -> bool
    ensures { result ≡ false → IsMeasured window }
{
    if window.delay > 1000000000000000 {
        return true;
    }
    match window.length {
        None => false,
        Some(length) => length > 1000000000000000,
    }
}
