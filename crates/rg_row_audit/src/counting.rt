ghost use Rattle.std.specs.Prelude.{◌≡◌, ◌++◌, [], true, IfOk, OnOk};
ghost use Rattle.std.specs.Option.{option_copied};
ghost use Rattle.rg_event.specs.declared.value.Value.TheVariants.{Flag};
ghost use Rattle.rg_metric.specs.Conditions.{value_in};
ghost use Rattle.rg_metric.specs.Replies.{in_window, key_of as key_values};
ghost use Rattle.rg_group.specs.Keys.{key_bytes, part_bytes};
ghost use Rattle.rg_engine.specs.Deeds.{handed};
ghost use Rattle.rg_row_audit.specs.Gathering.{node_of, is_counted};

use crate::asking::Asking;
use rg_bytes::Memory;
use rg_event::{Event, Value, put_tagged};
use rg_filter::passes;
use rg_group::Key;
use rg_metric::{Window, column_value};
use std::alloc::Global;

/// Whether the event is in the node's window at this time and meets its condition.
pub(crate) fn counts(asking: &Asking<'_>, time: u64, event: &Event) -> bool
    ensures { result ≡ is_counted (node_of asking.now) time event.now }
{
    is_in(asking.window, event, time) && passes(asking.condition, event)
}

/// Whether the event is in the window at this time: it has entered, and hasn't left.
fn is_in(window: Window, event: &Event, time: u64) -> bool
    ensures { result ≡ in_window window event.now time }
{
    let since = u128::from(event.time) + u128::from(window.delay);
    let now = u128::from(time);
    let has_left = match window.length {
        None => false,
        Some(length) => since + u128::from(length) <= now,
    };
    since <= now && !has_left
}

/// What an aggregator of this column is handed of an event: its value there, where it has one, or this
/// flag, which is true, where events are counted.
pub(crate) fn handed<'a>(column: u32, event: &'a Event, flag: &'a Value) -> Option<&'a Value>
    requires { flag.now ≡ Flag true }
    ensures { option_copied result ≡ handed column event.now }
{
    if column == 0 {
        return Some(flag);
    }
    column_value(event, column)
}

/// The key of an event by these columns: its values there, each tagged by its kind, one after another.
pub(crate) fn key_of(alloc: Global, columns: &[u32], event: &Event) -> Result<Key, Memory>
    ensures { IfOk result (λ key. key ≡ key_bytes (key_values columns.now event.now)) }
{
    let mut bytes = Vec::new(alloc);
    'columns: for column in columns {
        put_part(*column, event, &mut bytes)?;
    }
    Ok(Key::from(bytes))
}

/// Writes the event's part of its key in a column at the end. A column that it lacks adds nothing.
fn put_part(column: u32, event: &Event, out: &mut Vec<u8>) -> Result<(), Memory>
    ensures { OnOk result (out.new.items ≡ out.old.items ++ part_bytes (value_in column event.now.values)) }
{
    match column_value(event, column) {
        None => Ok(()),
        Some(value) => put_tagged(value, out),
    }
}
