ghost use Rattle.std.specs.Prelude.{◌≡◌, ◌++◌, IfOk, OnOk, OnErr};
ghost use Rattle.rg_bytes.specs.Keeps.{Keeps};
ghost use Rattle.rg_bytes.specs.Reading.{list_bytes};
ghost use Rattle.rg_event.specs.Codec.{AreValuesOf, IsValueOf};
ghost use Rattle.rg_event.specs.Tagged.{tagged_bytes, value_kind};
ghost use Rattle.rg_growth.specs.Growing.{is_kind};
ghost use Rattle.rg_growth.specs.Payloads.{AgreesAt, value_at, values_at};

use crate::fault::GrowthFault;
use rg_bytes::{ByteReader, Memory};
use rg_event::{Field, Kind, Value, Values, get_tagged, put_tagged};
use std::alloc::Global;

/// Takes a value for each column. A refusal may leave the reader in mid-way.
pub(crate) fn take_values(
    alloc: Global,
    fields: &[Field],
    from: &mut ByteReader<'_>,
) -> Result<Values, GrowthFault>
    ensures agrees { AgreesAt (values_at fields.now from.old) result from.new }
    ensures ok { IfOk result (λ values. from.old ≡ list_bytes tagged_bytes values ++ from.new) }
    ensures of { IfOk result (AreValuesOf fields.now) }
{
    let mut values = match Values::with_capacity(alloc, fields.len()) {
        Ok(values) => values,
        Err(_) => return Err(GrowthFault::Memory),
    };
    for field in fields {
        let value = match take_value(alloc, field.kind, from) {
            Ok(value) => value,
            Err(fault) => return Err(fault),
        };
        match values.push(value) {
            Ok(()) => {}
            Err(_) => return Err(GrowthFault::Memory),
        }
    }
    Ok(values)
}

/// Takes a value of this kind.
fn take_value(alloc: Global, kind: Kind, from: &mut ByteReader<'_>) -> Result<Value, GrowthFault>
    ensures agrees { AgreesAt (value_at kind from.old) result from.new }
    ensures ok { IfOk result (λ value. from.old ≡ tagged_bytes value ++ from.new) }
    ensures of { IfOk result (IsValueOf kind) }
{
    let value = match get_tagged(alloc, from) {
        Ok(value) => value,
        Err(fault) => return Err(GrowthFault::from(fault)),
    };
    if !is_of(&value, kind) {
        return Err(GrowthFault::BadGrowth);
    }
    Ok(value)
}

/// Whether the value is of this kind.
fn is_of(value: &Value, kind: Kind) -> bool
    ensures { result ≡ is_kind (value_kind value.now) kind }
{
    value.kind() == kind
}

/// Writes the values with their tags at the end. An error leaves them begun.
pub(crate) fn put_values(values: &[Value], out: &mut Vec<u8>) -> Result<(), Memory>
    ensures ok { OnOk result (out.new.items ≡ out.old.items ++ list_bytes tagged_bytes values.now) }
    ensures err { OnErr result (Keeps out.old.items out.new.items) }
{
    for value in values {
        put_tagged(value, out)?;
    }
    Ok(())
}
