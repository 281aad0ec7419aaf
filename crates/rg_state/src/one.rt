ghost use Rattle.std.specs.Prelude.{◌↔◌, IsTrue};
ghost use Rattle.rg_agg.specs.Standing.{func_of, kind_in};
ghost use Rattle.rg_metric.specs.Admitted.{IsAdmitted};
ghost use Rattle.rg_state.specs.Kinds.{IsSame};
ghost use Rattle.rg_state.specs.Stepping.{Comes, Drops, HasRoom};

use rg_agg::{Aggregate, is_like};
use rg_event::{Kind, MAX_EVENTS, Value};

/// Why a state stays as it is.
#[derive(Clone, Copy, Debug, PartialEq, Eq, Hash)]
pub enum Refusal {
    /// It stands for no list of values that could be changed so.
    Unfit,
    /// Memory ran out.
    Memory,
}

/// Whether one aggregator's state has room for a value more: it stands for fewer than 2^40, of its kind.
fn has_room<A: Aggregate>(state: &A, value: &Value) -> bool
    ensures { HasRoom value.now (A.held state.now) result }
{
    if state.size() >= MAX_EVENTS {
        return false;
    }
    is_like(state.kind(), value)
}

/// Adds a value at the back of one aggregator's state, where there is room for it. A refusal leaves what it
/// keeps.
pub(crate) fn add_to<A: Aggregate>(state: &mut A, value: &Value) -> Result<(), Refusal>
    requires { IsAdmitted A.func value.now }
    ensures { Comes (func_of (A.held state.old)) value.now (A.held state.old) (A.held state.new) result }
{
    if !has_room(state, value) {
        return Err(Refusal::Unfit);
    }
    match state.add(value) {
        Ok(()) => Ok(()),
        Err(_) => Err(Refusal::Memory),
    }
}

/// Takes the first value of one aggregator's state away. A refusal leaves what it keeps.
pub(crate) fn take_from<A: Aggregate>(state: &mut A, value: &Value) -> Result<(), Refusal>
    ensures { Drops value.now (A.held state.old) (A.held state.new) result }
{
    match state.remove(value) {
        Ok(()) => Ok(()),
        Err(_) => Err(Refusal::Unfit),
    }
}

/// Whether one aggregator's state keeps no value itself, or the first that it keeps is of this kind.
pub(crate) fn keeps_kind<A: Aggregate>(state: &A, kind: Option<Kind>) -> bool
    ensures { IsTrue result ↔ IsSame kind (kind_in (A.held state.now)) }
{
    match state.kind() {
        Some(kept) => kind == Some(kept),
        None => true,
    }
}
