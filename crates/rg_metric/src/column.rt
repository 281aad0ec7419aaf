ghost use Rattle.std.specs.Prelude.{◌≡◌};
ghost use Rattle.std.specs.Option.{option_copied};
ghost use Rattle.rg_metric.specs.Conditions.{value_in};

use rg_event::{Event, Value};

/// The value of an event in a column, counted from 1, where the event has one there.
pub fn column_value(event: &Event, column: u32) -> Option<&Value>
    ensures { option_copied result ≡ value_in column event.now.values }
{
    if column == 0 {
        return None;
    }
    event.values.as_slice().get(column as usize - 1)
}
