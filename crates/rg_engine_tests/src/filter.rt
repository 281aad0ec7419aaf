ghost use Rattle.std.specs.Prelude.{◌≡◌, ◌<◌};

use crate::common::{Checks, Item, Subject, assert_goes, event_of, value_of};
use rg_event::{Event, Steps};
use rg_filter::Filter;
use rg_metric::{Condition, Op};
use std::alloc::Global;
use std::marker::Brand;
use std::sync::ledger::{Blank, Ledger};
use std::test::Fail;

/// What a filter asks.
#[derive(Clone, Copy)]
enum Asks {
    Nothing,
    /// That the first column's value stands to a literal as the sign asks.
    First,
    /// The same of the second column's.
    Second,
    /// That the first column's value doesn't stand so.
    Not,
}

/// What a filter asks of an event of this value alone, by a sign and a literal, and whether it passes.
#[derive(Clone, Copy)]
pub(crate) struct Row(Asks, &'static Item, Op, &'static Item, bool);

/// A filter that asks that a condition doesn't hold.
fn not(alloc: Global, condition: Condition) -> Option<Filter> {
    let inner = Box::new(alloc, condition).ok()?;
    Some(Filter::new(Some(Condition::Not(inner))))
}

fn compare(alloc: Global, column: u32, row: &Row) -> Option<Condition> {
    Some(Condition::Compare(column, row.2, value_of(alloc, row.3)?))
}

fn filter_of(alloc: Global, row: &Row) -> Option<Filter> {
    match row.0 {
        Asks::Nothing => Some(Filter::new(None)),
        Asks::First => Some(Filter::new(Some(compare(alloc, 1, row)?))),
        Asks::Second => Some(Filter::new(Some(compare(alloc, 2, row)?))),
        Asks::Not => not(alloc, compare(alloc, 1, row)?),
    }
}

/// Whether a filter passes an event, over a ledger that nobody reads.
fn is_held<L: Ledger>(blank: Blank, filter: &Filter, event: &Event) -> bool
    requires named { blank.name ≡ L.name }
    requires parts { blank.parts ≡ L.parts }
    requires whole { 0 < blank.parts }
{
    let mut steps = Steps::<L>::new(blank);
    filter.holds(event, &mut steps)
}

/// Whether a filter passes an event of this value.
fn passes(alloc: Global, filter: &Filter, item: &'static Item) -> Option<bool> {
    let event = event_of(alloc, 0, 0, &[*item])?;
    let is_passed = is_held::<Brand>(Blank::new(1), filter, &event);
    drop(event);
    Some(is_passed)
}

/// Whether a row's filter passes its event.
fn row_passes(alloc: Global, row: &Row) -> Option<bool> {
    let filter = filter_of(alloc, row)?;
    let is_passed = passes(alloc, &filter, row.1);
    drop(filter);
    is_passed
}

/// Filters, each of one row.
#[derive(Drop)]
struct Filters;

impl Subject for Filters {
    type Step = Row;

    fn start(_alloc: Global) -> Option<Filters> {
        Some(Filters)
    }

    fn goes(&mut self, alloc: Global, row: &Row, checks: &mut Checks) -> bool {
        checks.same("passes", row_passes(alloc, row), Some(row.4))
    }
}

/// What is asked of values by each sign and of each kind, and whether it passes.
const FILTERED: &[Row] = &[
    // Each sign is tried around equality.
    Row(Asks::First, &Item::Int(-6), Op::Eq, &Item::Int(-5), false),
    Row(Asks::First, &Item::Int(-5), Op::Eq, &Item::Int(-5), true),
    Row(Asks::First, &Item::Int(-4), Op::Eq, &Item::Int(-5), false),
    Row(Asks::First, &Item::Int(-6), Op::Ne, &Item::Int(-5), true),
    Row(Asks::First, &Item::Int(-5), Op::Ne, &Item::Int(-5), false),
    Row(Asks::First, &Item::Int(-4), Op::Ne, &Item::Int(-5), true),
    Row(Asks::First, &Item::Int(-6), Op::Lt, &Item::Int(-5), true),
    Row(Asks::First, &Item::Int(-5), Op::Lt, &Item::Int(-5), false),
    Row(Asks::First, &Item::Int(-4), Op::Lt, &Item::Int(-5), false),
    Row(Asks::First, &Item::Int(-6), Op::Le, &Item::Int(-5), true),
    Row(Asks::First, &Item::Int(-5), Op::Le, &Item::Int(-5), true),
    Row(Asks::First, &Item::Int(-4), Op::Le, &Item::Int(-5), false),
    Row(Asks::First, &Item::Int(-6), Op::Gt, &Item::Int(-5), false),
    Row(Asks::First, &Item::Int(-5), Op::Gt, &Item::Int(-5), false),
    Row(Asks::First, &Item::Int(-4), Op::Gt, &Item::Int(-5), true),
    Row(Asks::First, &Item::Int(-6), Op::Ge, &Item::Int(-5), false),
    Row(Asks::First, &Item::Int(-5), Op::Ge, &Item::Int(-5), true),
    Row(Asks::First, &Item::Int(-4), Op::Ge, &Item::Int(-5), true),
    // Ids past the half keep their order.
    Row(
        Asks::First,
        &Item::Id(9_223_372_036_854_775_809),
        Op::Lt,
        &Item::Id(9_223_372_036_854_775_810),
        true,
    ),
    Row(
        Asks::First,
        &Item::Id(1),
        Op::Lt,
        &Item::Id(9_223_372_036_854_775_808),
        true,
    ),
    // Texts compare by their bytes.
    Row(
        Asks::First,
        &Item::Text(b"Z"),
        Op::Lt,
        &Item::Text(b"a"),
        true,
    ),
    Row(
        Asks::First,
        &Item::Text(b"aa"),
        Op::Lt,
        &Item::Text(b"b"),
        true,
    ),
    Row(
        Asks::First,
        &Item::Text(b"a"),
        Op::Lt,
        &Item::Text(b"aa"),
        true,
    ),
    // A comparison with a missing column or another kind doesn't hold.
    Row(Asks::Second, &Item::Id(1), Op::Ne, &Item::Id(7), false),
    Row(Asks::Not, &Item::Id(1), Op::Eq, &Item::Int(1), true),
    // Flags are equal and have no order.
    Row(
        Asks::First,
        &Item::Flag(true),
        Op::Ge,
        &Item::Flag(true),
        false,
    ),
    Row(
        Asks::First,
        &Item::Flag(true),
        Op::Eq,
        &Item::Flag(true),
        true,
    ),
    // No condition passes every event.
    Row(
        Asks::Nothing,
        &Item::Flag(false),
        Op::Eq,
        &Item::Flag(true),
        true,
    ),
];

#[test]
fn a_filter_passes_what_its_condition_holds_of(rt: HostRuntime) -> Result<(), Fail> {
    assert_goes::<Filters>(&rt, FILTERED)
}
