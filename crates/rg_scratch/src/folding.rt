ghost use Rattle.std.specs.Prelude.{◌≡◌, ◌+◌, ◌<◌, ◌≤◌, ◌^◌, length, List, [], ◌∷◌, ◌++◌, IfOk, if◌then◌else◌};
ghost use Rattle.std.specs.List.{filter, list_any};
ghost use Rattle.rg_event.specs.declared.event.Event.{Event};
ghost use Rattle.rg_metric.specs.Answers.{distinct_after, numbers, percentile};
ghost use Rattle.rg_metric.specs.Replies.{agg_answer, counts_for};
ghost use Rattle.rg_metric.specs.Same.{same_value};
ghost use Rattle.rg_scratch.specs.Asking.{counted, listed, query_of, value_counted};
ghost use Rattle.rg_scratch.specs.Tallies.{IsExact, IsTally};

use crate::asking::Asking;
use crate::comparing::are_same;
use crate::counting::value_counted;
use crate::sorting::{at_percent, sorted};
use crate::tally::Tally;
use rg_bytes::Memory;
use rg_event::{Event, Value};
use rg_metric::{Answer, Func};
use std::alloc::Global;

/// What an aggregator answers to an event over these events. A sum of squares is exact below 2^127.
pub(crate) fn answer(
    alloc: Global,
    asking: &Asking<'_>,
    answered: &Event,
    events: &[Event],
) -> Result<Answer, Memory>
    requires { length events.now ≤ 2 ^ 40 }
    ensures { IsExact asking.now.agg.func (counted asking.now answered.now events.now) →
        IfOk result (λ answer. answer ≡ agg_answer asking.now.agg (filter (counts_for (query_of asking.now) answered.now) events.now)) }
{
    match asking.agg.func {
        Func::CountDistinct => Ok(Answer::Number(i128::from(different(asking, answered, events)))),
        Func::Median => rank(alloc, asking, answered, events, 50),
        Func::Pct(percent) => rank(alloc, asking, answered, events, percent),
        func => Ok(tally(asking, answered, events).answer(func)),
    }
}

/// The number at so many hundredths of those of the events that count.
fn rank(
    alloc: Global,
    asking: &Asking<'_>,
    answered: &Event,
    events: &[Event],
    percent: u32,
) -> Result<Answer, Memory>
    ensures { IfOk result (λ answer. answer ≡ percentile percent (numbers (counted asking.now answered.now events.now))) }
{
    let sorted = sorted(alloc, asking, answered, events)?;
    Ok(at_percent(&sorted, percent))
}

/// The tally of the values of the events that count.
fn tally(asking: &Asking<'_>, answered: &Event, events: &[Event]) -> Tally
    requires { length events.now ≤ 2 ^ 40 }
    ensures { IsTally result.count result.sum result.squares result.ends (counted asking.now answered.now events.now) }
{
    let mut tally = Tally::new();
    'places: for place in 0..events.len() {
        add_counted(&mut tally, asking, answered, &events[place]);
    }
    tally
}

/// Adds the value of an event to a tally, where the event counts and has one.
fn add_counted(tally: &mut Tally, asking: &Asking<'_>, answered: &Event, event: &Event)
    requires { tally.old.count < 2 ^ 40 }
    ensures tally { (front : List Event) →
        IsTally tally.old.count tally.old.sum tally.old.squares tally.old.ends (counted asking.now answered.now front) →
        IsTally tally.new.count tally.new.sum tally.new.squares tally.new.ends (counted asking.now answered.now (front ++ event.now ∷ [])) }
    ensures count { tally.new.count ≤ tally.old.count + 1 }
{
    let flag = Value::Flag(true);
    match value_counted(asking, answered, event, &flag) {
        None => {}
        Some(value) => tally.add(value),
    }
}

/// How many values of the events that count stand at no earlier place.
fn different(asking: &Asking<'_>, answered: &Event, events: &[Event]) -> u64
    requires { length events.now ≤ 2 ^ 40 }
    ensures { result ≡ distinct_after [] (counted asking.now answered.now events.now) }
{
    let mut count = 0;
    'places: for place in 0..events.len() {
        if is_new(asking, answered, &events[..place], &events[place]) {
            count += 1;
        }
    }
    count
}

/// Whether an event counts, and has a value that no event that counts and stands before it has.
fn is_new(asking: &Asking<'_>, answered: &Event, before: &[Event], event: &Event) -> bool
    ensures { distinct_after [] (counted asking.now answered.now (before.now ++ event.now ∷ []))
        ≡ distinct_after [] (counted asking.now answered.now before.now) + (if result then 1 else 0) }
{
    let flag = Value::Flag(true);
    match value_counted(asking, answered, event, &flag) {
        None => return false,
        Some(value) => return !stands_among(asking, answered, before, value),
    }
}

/// Whether the value is one of those of the events that count.
fn stands_among(asking: &Asking<'_>, answered: &Event, events: &[Event], value: &Value) -> bool
    ensures { result ≡ list_any (same_value value.now) (counted asking.now answered.now events.now) }
{
    'places: for place in 0..events.len() {
        if counts_with(asking, answered, &events[place], value) {
            return true;
        }
    }
    false
}

/// Whether an event counts and has this value.
fn counts_with(asking: &Asking<'_>, answered: &Event, event: &Event, value: &Value) -> bool
    ensures { result ≡ list_any (same_value value.now) (listed (value_counted asking.now answered.now event.now)) }
{
    let flag = Value::Flag(true);
    match value_counted(asking, answered, event, &flag) {
        None => false,
        Some(other) => are_same(value, other),
    }
}
