ghost use Rattle.std.specs.Prelude.{◌≡◌, [], length, IfOk, OnOk};
ghost use Rattle.rg_column.specs.Columns.{started, widened};

use rg_bytes::Memory;
use rg_event::{Event, Value, Values};
use std::alloc::Global;

/// Events of these offsets and times that have no value yet, each with room for so many.
pub(crate) fn start_events(
    alloc: Global,
    offsets: &[u64],
    times: &[u64],
    columns: usize,
) -> Result<Vec<Event>, Memory>
    requires { length offsets.now ≡ length times.now }
    ensures { IfOk result (λ events. events.items ≡ started offsets.now times.now) }
{
    let mut events = Vec::with_capacity(alloc, offsets.len())?;
    for (i, offset) in offsets.iter().enumerate() {
        events.push(Event {
            offset: *offset,
            time: times[i],
            values: Values::with_capacity(alloc, columns)?,
        })?;
    }
    Ok(events)
}

/// Puts one value more behind those of each event. An error leaves some of them so.
pub(crate) fn widen(events: &mut Vec<Event>, values: Vec<Value>) -> Result<(), Memory>
    requires { length events.old.items ≡ length values.items }
    ensures { OnOk result (events.new.items ≡ widened events.old.items values.items) }
{
    let mut index = 0;
    for value in values {
        events[index].values.push(value)?;
        index += 1;
    }
    Ok(())
}
