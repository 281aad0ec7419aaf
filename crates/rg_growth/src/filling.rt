ghost use Rattle.std.specs.Prelude.{◌≡◌, ◌≤◌, length, drop, IfOk, IfSome, option_map};
ghost use Rattle.rg_growth.specs.Filling.{IsFilled, all_given, filled, growth_to};
ghost use Rattle.rg_growth.specs.Growing.{AreDefaultsOf};
ghost use Rattle.rg_growth.specs.declared.growth.Growth.{Growth as TheGrowth};

use crate::defaults::Defaults;
use crate::grows::grows_to;
use crate::growth::Growth;
use rg_bytes::Memory;
use rg_event::{Schema, Value, Values};
use std::alloc::Global;

impl Growth {
    /// The growth of a schema to another one by the defaults of the columns that it lacks. `defaults` has one member for
    /// each column of the other schema past the time, and each default is of its column's kind. None comes exactly where
    /// the schema doesn't grow to the other one, or a column that it lacks has no default.
    pub fn filled(
        alloc: Global,
        from: &Schema,
        to: &Schema,
        defaults: &Defaults,
    ) -> Result<Option<Growth>, Memory>
        requires { AreDefaultsOf to.now.fields defaults.now }
        // A growth is made exactly where the schema grows to the other and each column that it lacks has a default.
        ensures values { IfOk result (λ found. option_map (λ (growth : TheGrowth). growth.values) found ≡ filled from.now to.now defaults.now) }

        // It has just these values, whatever the defaults of its own columns are.
        ensures growth { IfOk result (λ found. IfSome found (λ growth. (growth ≡ growth_to to.now growth.values) × IsFilled from.now to.now defaults.now growth.values)) }
    {
        if !grows_to(from, to) {
            return Ok(None);
        }
        let Some(values) = given(alloc, lacking(from, defaults))? else {
            return Ok(None);
        };
        Ok(Some(Growth {
            to: to.copy(alloc)?,
            values,
        }))
    }
}

/// The defaults of the columns that the schema lacks.
fn lacking<'a>(from: &Schema, defaults: &'a Defaults) -> &'a [Option<Value>]
    requires { length from.now.fields ≤ length defaults.now }
    ensures { result.now ≡ drop (length from.now.fields) defaults.now }
{
    &defaults.as_slice()[from.fields().len()..]
}

/// All of these defaults, where each is there.
#[tactic(auto, using(crate::proofs::Filled::given_start, crate::proofs::Filled::given_more, crate::proofs::Filled::given_stop, crate::proofs::Filled::given_end))]
fn given(alloc: Global, defaults: &[Option<Value>]) -> Result<Option<Values>, Memory>
    ensures { IfOk result (λ found. found ≡ all_given defaults.now) }
{
    let mut values = Values::with_capacity(alloc, defaults.len())?;
    for default in defaults {
        match default {
            Some(value) => values.push(value.copy(alloc)?)?,
            None => return Ok(None),
        }
    }
    Ok(Some(values))
}
