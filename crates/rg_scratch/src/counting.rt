ghost use Rattle.std.specs.Prelude.{◌≡◌, true, slice_get};
ghost use Rattle.std.specs.Option.{option_copied};
ghost use Rattle.rg_event.specs.declared.value.Value.TheVariants.{Flag};
ghost use Rattle.rg_metric.specs.Replies.{counts_for, in_window, key_of};
ghost use Rattle.rg_metric.specs.Same.{same_values};
ghost use Rattle.rg_scratch.specs.Asking.{alike, query_of, value_counted};

use crate::asking::Asking;
use crate::comparing::{are_same, is_met};
use rg_event::{Event, Value};
use rg_metric::{Window, column_value};

/// What the aggregator is handed of an event, where the event counts for the one that is answered: its
/// value in the column, where it has one, or this flag, which is true, where events are counted.
pub(crate) fn value_counted<'a>(
    asking: &Asking<'_>,
    answered: &Event,
    event: &'a Event,
    flag: &'a Value,
) -> Option<&'a Value>
    requires { flag.now ≡ Flag true }
    ensures { option_copied result ≡ value_counted asking.now answered.now event.now }
{
    if !counts(asking, answered, event) {
        return None;
    }
    if asking.agg.field == 0 {
        return Some(flag);
    }
    column_value(event, asking.agg.field)
}

/// Whether an event counts for the one that is answered: it is in the window at that one's time, meets
/// the condition and has that one's key.
fn counts(asking: &Asking<'_>, answered: &Event, event: &Event) -> bool
    ensures { result ≡ counts_for (query_of asking.now) answered.now event.now }
{
    is_in(asking.window, event, answered.time)
        && is_met(asking.condition, event)
        && have_same_key(asking.columns, event, answered)
}

/// Whether the event is in the window at this time: it has entered, and hasn't left.
fn is_in(window: Window, event: &Event, time: u64) -> bool
    ensures { result ≡ in_window window event.now time }
{
    let since = u128::from(event.time) + u128::from(window.delay);
    let now = u128::from(time);
    let has_left = match window.length {
        None => false,
        Some(length) => since + u128::from(length) <= now,
    };
    since <= now && !has_left
}

/// Whether two events have the same key in these columns, value by value.
fn have_same_key(columns: &[u32], one: &Event, other: &Event) -> bool
    ensures { result ≡ same_values (key_of columns.now one.now) (key_of columns.now other.now) }
{
    'places: for place in 0..columns.len() {
        if !are_alike(part(columns, one, place), part(columns, other, place)) {
            return false;
        }
    }
    true
}

/// Whether there are two values and they are the same, or there is none.
fn are_alike(one: Option<&Value>, other: Option<&Value>) -> bool
    ensures { result ≡ alike (option_copied one.entry) (option_copied other.entry) }
{
    match (one, other) {
        (Some(x), Some(y)) => are_same(x, y),
        (None, None) => true,
        _ => false,
    }
}

/// The value at a place of an event's key, where it has so many. A column that it lacks adds none.
fn part<'a>(columns: &[u32], event: &'a Event, place: usize) -> Option<&'a Value>
    ensures { option_copied result ≡ slice_get (key_of columns.now event.now) place }
{
    let mut left = place;
    'columns: for column in columns {
        if let Some(value) = column_value(event, *column) {
            if left == 0 {
                return Some(value);
            }
            left -= 1;
        }
    }
    None
}
