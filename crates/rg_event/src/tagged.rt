ghost use Rattle.std.specs.Prelude.{◌≡◌, ◌⊎◌, ◌∷◌, ◌++◌, ℕ, List, Ok, Err, IfOk, OnOk, OnErr};
ghost use Rattle.rg_event.specs.Codec.{Agrees};
ghost use Rattle.rg_bytes.specs.Keeps.{Keeps};
ghost use Rattle.rg_event.specs.Tagged.{IsLegal, IsStorable, tag_of, kind_of, tagged_bytes, tagged_at};
ghost use Rattle.rg_event.specs.declared.value.Value.{Value};

use crate::codec::{EventFault, put_value, read_value};
use crate::value::{Kind, Value};
use rg_bytes::{ByteReader, Memory, put_u8};
use std::alloc::Global;

/// The tag of an int, which stands before the value.
pub const INT_TAG: u8 = 1;

/// The tag of an id, which stands before the value.
pub const ID_TAG: u8 = 2;

/// The tag of a text, which stands before the value.
pub const TEXT_TAG: u8 = 3;

/// The tag of a flag, which stands before the value.
pub const FLAG_TAG: u8 = 4;

/// Writes a value at the end with the tag of its kind in front. Where memory runs out `out` holds
/// what it held.
pub fn put_tagged(value: &Value, out: &mut Vec<u8>) -> Result<(), Memory>
    // A value by itself is put with its tag, or nothing is.
    ensures ok { OnOk result (out.new.items ≡ out.old.items ++ tagged_bytes value.now) }
    ensures err { OnErr result (out.new.items ≡ out.old.items) }
    ensures storable { IsStorable value.now }
    ensures reads_back { (value : Value) (rest : List ℕ) → IsLegal value → tagged_at (tagged_bytes value ++ rest) ≡ Ok (value, rest) }

    // No tagged value begins another.
    ensures prefix_free { (first second : Value) (behind rest : List ℕ) → IsStorable first → IsStorable second → tagged_bytes first ++ behind ≡ tagged_bytes second ++ rest → (first ≡ second) × (behind ≡ rest) }
{
    let start = out.len();
    match put_tag_and_value(value, out) {
        Ok(()) => Ok(()),
        Err(memory) => {
            out.truncate(start);
            Err(memory)
        }
    }
}

fn put_tag_and_value(value: &Value, out: &mut Vec<u8>) -> Result<(), Memory>
    ensures ok { OnOk result (out.new.items ≡ out.old.items ++ tagged_bytes value.now) }
    ensures err { OnErr result (Keeps out.old.items out.new.items) }
    ensures storable { IsStorable value.now }
{
    put_u8(out, tag(value.kind()))?;
    put_value(value, out)
}

/// Takes a tagged value, as `put_tagged` writes it: `BadValue(0)` comes where the tag is unknown or the
/// value is out of its kind's range. A refusal leaves the reader as it was.
pub fn get_tagged(alloc: Global, from: &mut ByteReader<'_>) -> Result<Value, EventFault>
    // Short bytes, an unknown tag and a value out of its kind's range are told exactly.
    ensures agrees { Agrees (tagged_at from.old) result from.new }
    ensures ok { IfOk result (λ value. from.old ≡ tagged_bytes value ++ from.new) }
    ensures legal { IfOk result IsLegal }

    // A tagged value is read back, whatever follows.
    ensures reads_back { (value : Value) (rest : List ℕ) → IsLegal value → from.old ≡ tagged_bytes value ++ rest → ((result ≡ Ok value) × (from.new ≡ rest)) ⊎ (result ≡ Err EventFault.Memory) }

    // A refusal leaves the reader as it was.
    ensures err { OnErr result (from.new ≡ from.old) }
{
    // All that is left, so that a refusal can put it back.
    let bytes = from.bytes(from.left())?;
    let mut left = ByteReader::new(bytes);
    match read_tagged(alloc, &mut left) {
        Ok(value) => {
            *from = left;
            Ok(value)
        }
        Err(fault) => {
            *from = ByteReader::new(bytes);
            Err(fault)
        }
    }
}

fn read_tagged(alloc: Global, from: &mut ByteReader<'_>) -> Result<Value, EventFault>
    ensures agrees { Agrees (tagged_at from.old) result from.new }
    ensures ok { IfOk result (λ value. from.old ≡ tagged_bytes value ++ from.new) }
    ensures legal { IfOk result IsLegal }
{
    match kind_said(from.u8()?) {
        Some(kind) => read_value(alloc, kind, 0, from),
        None => Err(EventFault::BadValue(0)),
    }
}

/// The byte that says a kind.
pub(crate) fn tag(kind: Kind) -> u8
    ensures { result ≡ tag_of kind }
{
    match kind {
        Kind::Int => INT_TAG,
        Kind::Id => ID_TAG,
        Kind::Text => TEXT_TAG,
        Kind::Flag => FLAG_TAG,
    }
}

/// The kind that a byte says.
fn kind_said(tag: u8) -> Option<Kind>
    ensures { result ≡ kind_of tag }
{
    match tag {
        INT_TAG => Some(Kind::Int),
        ID_TAG => Some(Kind::Id),
        TEXT_TAG => Some(Kind::Text),
        FLAG_TAG => Some(Kind::Flag),
        _ => None,
    }
}
