ghost use Rattle.std.specs.Prelude.{◌≡◌, ◌≤◌, ◌++◌, ◌∷◌, length, OnOk, OnErr};
ghost use Rattle.rg_event.specs.Codec.{value_bytes, values_bytes, event_bytes};
ghost use Rattle.rg_bytes.specs.Keeps.{Keeps};

use crate::event::Event;
use crate::value::Value;
use rg_bytes::{Memory, put_bytes, put_i64, put_u8, put_u64};

/// Writes the bytes of an event at the end. Where memory runs out `out` holds what it held.
pub fn encode(event: &Event, out: &mut Vec<u8>) -> Result<(), Memory>
    // The bytes of an event are put behind what stands, or nothing is.
    ensures ok { OnOk result (out.new.items ≡ out.old.items ++ event_bytes event.now) }
    ensures err { OnErr result (out.new.items ≡ out.old.items) }
{
    let start = out.len();
    match put_event(event, out) {
        Ok(()) => Ok(()),
        Err(memory) => {
            out.truncate(start);
            Err(memory)
        }
    }
}

fn put_event(event: &Event, out: &mut Vec<u8>) -> Result<(), Memory>
    ensures ok { OnOk result (out.new.items ≡ out.old.items ++ event_bytes event.now) }
    ensures err { OnErr result (Keeps out.old.items out.new.items) }
{
    put_u64(out, event.offset)?;
    put_u64(out, event.time)?;
    put_values(event.values.as_slice(), out)
}

fn put_values(values: &[Value], out: &mut Vec<u8>) -> Result<(), Memory>
    ensures ok { OnOk result (out.new.items ≡ out.old.items ++ values_bytes values.now) }
    ensures err { OnErr result (Keeps out.old.items out.new.items) }
{
    for value in values {
        put_value(value, out)?;
    }
    Ok(())
}

/// Writes the bytes of a value at the end. An error leaves them begun.
pub(crate) fn put_value(value: &Value, out: &mut Vec<u8>) -> Result<(), Memory>
    ensures ok { OnOk result (out.new.items ≡ out.old.items ++ value_bytes value.now) }
    ensures err { OnErr result (Keeps out.old.items out.new.items) }
{
    match value {
        Value::Int(number) => put_i64(out, *number),
        Value::Id(number) => put_u64(out, *number),
        Value::Text(word) => put_text(word.as_bytes(), out),
        Value::Flag(flag) => put_u8(out, u8::from(*flag)),
    }
}

fn put_text(text: &[u8], out: &mut Vec<u8>) -> Result<(), Memory>
    requires { length text.now ≤ 255 }
    ensures ok { OnOk result (out.new.items ≡ out.old.items ++ length text.now ∷ text.now) }
    ensures err { OnErr result (Keeps out.old.items out.new.items) }
{
    put_u8(out, text.len() as u8)?;
    put_bytes(out, text)
}
