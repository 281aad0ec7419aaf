ghost use Rattle.std.specs.Prelude.{◌≡◌, ◌++◌, drop, OnOk, IfOk};

use rg_bytes::Memory;
use rg_event::{Value, Values};
use std::alloc::Global;

/// Adds copies of the values at the end. An error leaves them begun.
pub(crate) fn put_copies(alloc: Global, values: &[Value], out: &mut Values) -> Result<(), Memory>
    ensures { OnOk result (out.new ≡ out.old ++ values.now) }
{
    for value in values {
        out.push(value.copy(alloc)?)?;
    }
    Ok(())
}

/// The values behind so many of them.
#[tactic(auto, using(crate::proofs::Behind::values_left))]
pub(crate) fn values_behind(alloc: Global, values: &[Value], count: usize) -> Result<Values, Memory>
    ensures { IfOk result (λ left. left ≡ drop count values.now) }
{
    let mut left = Values::new(alloc);
    if values.len() <= count {
        return Ok(left);
    }
    put_copies(alloc, &values[count..], &mut left)?;
    Ok(left)
}
