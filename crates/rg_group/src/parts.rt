ghost use Rattle.std.specs.Prelude.{◌≡◌, ◌≤◌, ◌*◌, ◌++◌, [], length, OnOk};
ghost use Rattle.rg_event.specs.declared.event.Event.{Event};
ghost use Rattle.rg_metric.specs.Conditions.{value_in};
ghost use Rattle.rg_metric.specs.Replies.{key_of as key_values};
ghost use Rattle.rg_group.specs.Keys.{key_bytes, part_bytes, AreStorable, IsStorablePart};

use rg_bytes::Memory;
use rg_event::{Event, put_tagged};
use rg_metric::column_value;

/// Writes a key into bytes that are empty. Where memory runs out any prefix of it is there.
pub(crate) fn put_parts(fields: &[u32], event: &Event, bytes: &mut Vec<u8>) -> Result<(), Memory>
    requires { bytes.old.items ≡ [] }
    ensures written { OnOk result (bytes.new.items ≡ key_bytes (key_values fields.now event.now)) }
    ensures storable { OnOk result (AreStorable (key_values fields.now event.now)) }
    ensures short { OnOk result (length bytes.new.items ≤ 257 * length fields.now) }
{
    for field in fields {
        put_part(*field, event, bytes)?;
    }
    Ok(())
}

/// Writes the event's part of its key in a column at the end.
fn put_part(column: u32, event: &Event, out: &mut Vec<u8>) -> Result<(), Memory>
    ensures written { OnOk result (out.new.items ≡ out.old.items ++ part_bytes (value_in column event.now.values)) }
    ensures storable { OnOk result (IsStorablePart (value_in column event.now.values)) }
{
    match column_value(event, column) {
        None => Ok(()),
        Some(value) => put_tagged(value, out),
    }
}
