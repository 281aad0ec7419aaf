ghost use Rattle.std.specs.Prelude.{◌≡◌, ◌<◌, ◌≤◌, ◌^◌, ◌∷◌, ◌++◌, IfOk, OnOk, OnErr};
ghost use Rattle.std.specs.Int.{w64, to_be_bytes};
ghost use Rattle.rg_agg.specs.Held.{size_behind_at, number_value_at, Agrees};
ghost use Rattle.rg_agg.specs.Numbers.{value_of};
ghost use Rattle.rg_agg.specs.Stands.{IsNumber};
ghost use Rattle.rg_bytes.specs.Keeps.{Keeps};
ghost use Rattle.rg_event.specs.Tagged.{tagged_bytes};

use crate::fault::StateFault;
use crate::number::Number;
use rg_bytes::{ByteReader, Memory, put_u8, put_u64};
use rg_event::{MAX_EVENTS, get_tagged};
use std::alloc::Global;

/// Writes a tag and the number of values at the end. Where memory runs out a front of it may stand there.
pub fn put_size(tag: u8, size: u64, out: &mut Vec<u8>) -> Result<(), Memory>
    ensures ok { OnOk result (out.new.items ≡ out.old.items ++ (tag ∷ to_be_bytes w64 size)) }
    ensures err { OnErr result (Keeps out.old.items out.new.items) }
{
    put_u8(out, tag)?;
    put_u64(out, size)
}

/// Takes a tag and the number of values, from 1 to 2^40. A refusal may leave the reader in mid-way.
pub fn read_size(tag: u8, from: &mut ByteReader<'_>) -> Result<u64, StateFault>
    ensures agrees { Agrees (λ size. size) (size_behind_at tag from.old) result from.new }
    ensures ok { IfOk result (λ size. from.old ≡ tag ∷ (to_be_bytes w64 size ++ from.new)) }
    ensures some { IfOk result (λ size. 0 < size) }
    ensures few { IfOk result (λ size. size ≤ 2 ^ 40) }
{
    if from.u8()? != tag {
        return Err(StateFault::Unfit);
    }
    let size = from.u64()?;
    if size == 0 || MAX_EVENTS < size {
        return Err(StateFault::Unfit);
    }
    Ok(size)
}

/// Takes an int or an id with the tag of its kind. A refusal may leave the reader in mid-way.
pub fn read_number(alloc: Global, from: &mut ByteReader<'_>) -> Result<Number, StateFault>
    ensures agrees { Agrees value_of (number_value_at from.old) result from.new }
    ensures ok { IfOk result (λ number. from.old ≡ tagged_bytes (value_of number) ++ from.new) }
    ensures legal { IfOk result (λ number. IsNumber (value_of number)) }
{
    let value = get_tagged(alloc, from)?;
    match Number::of(&value) {
        Some(number) => Ok(number),
        None => Err(StateFault::Unfit),
    }
}
