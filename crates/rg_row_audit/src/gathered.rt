ghost use Rattle.std.specs.Prelude.{◌≡◌, ◌<◌, [], ◌∷◌, ◌++◌, List, Some, length, IfOk, OnOk, IsTrue, ◌↔◌};
ghost use Rattle.rg_agg.specs.Held.{held_bytes};
ghost use Rattle.rg_agg.specs.Standing.{size_in};
ghost use Rattle.rg_event.specs.declared.value.Value.{Value as TheValue};
ghost use Rattle.rg_state.specs.Rows.{RowStands};
ghost use Rattle.rg_state.specs.States.{held_of};
ghost use Rattle.rg_row_audit.specs.Gathering.{Suits, Holds};

use rg_bytes::Memory;
use rg_event::Value;
use rg_metric::{Func, is_admitted};
use rg_state::{AggState, Refusal};
use std::alloc::Global;

/// A state that serves a function, into which the values for a key are put, one behind another.
#[derive(Debug, Drop)]
pub(crate) struct Gathered {
    pub(crate) state: AggState,
    /// A value came that no state of the function stands for behind those before it.
    pub(crate) spoilt: bool,
}

/// Whether two states are written by the same bytes.
fn have_same_bytes(alloc: Global, ours: &AggState, theirs: &AggState) -> Result<bool, Memory>
    requires ours { 0 < size_in (held_of ours.now) }
    requires theirs { 0 < size_in (held_of theirs.now) }
    ensures { IfOk result (λ same. IsTrue same ↔ (held_bytes (held_of ours.now) ≡ held_bytes (held_of theirs.now))) }
{
    let mut our_bytes = Vec::new(alloc);
    ours.encode(&mut our_bytes)?;
    let mut their_bytes = Vec::new(alloc);
    theirs.encode(&mut their_bytes)?;
    Ok(our_bytes.as_slice() == their_bytes.as_slice())
}

impl Gathered {
    /// No values.
    pub(crate) fn new(alloc: Global, func: Func) -> Result<Gathered, Memory>
        ensures { IfOk result (λ gathered. Holds func gathered []) }
    {
        Ok(Gathered {
            state: AggState::empty(alloc, func)?,
            spoilt: false,
        })
    }

    /// Puts a value behind the others. Where memory runs out it says nothing more.
    pub(crate) fn add(&mut self, value: &Value) -> Result<(), Memory>
        ensures { OnOk result ((func : Func) (values : List TheValue) → Holds func self.old values → Holds func self.new (values ++ value.now ∷ [])) }
    {
        if self.spoilt {
            return Ok(());
        }
        let func = self.state.func();
        if !is_admitted(func, value) {
            self.spoilt = true;
            return Ok(());
        }
        match self.state.add_fit(func, value) {
            Ok(()) => Ok(()),
            Err(Refusal::Memory) => Err(Memory),
            Err(Refusal::Unfit) => {
                self.spoilt = true;
                Ok(())
            }
        }
    }

    /// Whether a row's state stands for the values: whether its bytes are those of the state that was made of them.
    pub(crate) fn is_kept_by(&self, alloc: Global, state: &AggState) -> Result<bool, Memory>
        requires { 0 < size_in (held_of state.now) }
        ensures { IfOk result (λ is. (func : Func) (values : List TheValue) → Holds func self.now values → Suits func values → 0 < length values → IsTrue is ↔ RowStands func (Some (held_of state.now)) values) }
    {
        if self.spoilt || self.state.is_empty() {
            return Ok(false);
        }
        have_same_bytes(alloc, &self.state, state)
    }
}
