ghost use Rattle.std.specs.Prelude.{◌≡◌, None, Some, List, [], IsSome, IsNone, IfOk};
ghost use Rattle.rg_agg.specs.Sharing.{kept_as as kept_func};
ghost use Rattle.rg_agg.specs.Standing.{func_of, size_in};
ghost use Rattle.rg_event.specs.declared.value.Value.{Value};
ghost use Rattle.rg_metric.specs.Answers.{answer_of};
ghost use Rattle.rg_state.specs.Rows.{RowStands, Changed, IsOf};
ghost use Rattle.rg_state.specs.States.{held_of};
ghost use Rattle.rg_metric.specs.Admitted.{IsAdmitted};

use crate::state::AggState;
use crate::table::Change;
use rg_agg::kept_as;
use rg_bytes::Memory;
use rg_event::Value;
use rg_metric::{Answer, Func};
use std::alloc::Global;

/// The state of one value that serves a function. It is the first one of a new row.
#[inline(always)]
pub fn first_state(alloc: Global, func: Func, value: &Value) -> Result<AggState, Memory>
    requires { IsAdmitted func value.now }
    ensures changed { IfOk result (λ state. Changed func Change.Add value.now None (Some (held_of state))) }
    ensures own { IfOk result (λ state. func_of (held_of state) ≡ kept_func func) }
    ensures size { IfOk result (λ state. size_in (held_of state) ≡ 1) }
{
    let mut state = AggState::empty(alloc, func)?;
    match state.add(value) {
        Ok(()) => Ok(state),
        Err(memory) => Err(memory),
    }
}

/// The answer of a row's state, where that serves the function.
pub(crate) fn own_answer(state: &AggState, func: Func) -> Option<Answer>
    ensures answer { (values : List Value) → RowStands func (Some (held_of state.now)) values → result ≡ Some (answer_of func values) }
    ensures own { IsSome result → IsOf func (Some (held_of state.now)) }
    ensures causes { IsNone result → IsOf func (Some (held_of state.now)) → ⊥ }
{
    if state.func() != kept_as(func) {
        return None;
    }
    Some(state.answer(func))
}

/// The answer of no values.
pub(crate) fn blank_answer(func: Func) -> Answer
    ensures { result ≡ answer_of func [] }
{
    match func {
        Func::Count | Func::Sum | Func::SumSq | Func::CountDistinct => Answer::Number(0),
        Func::Avg
        | Func::Min
        | Func::Max
        | Func::First
        | Func::Last
        | Func::Median
        | Func::Pct(_) => Answer::Dash,
    }
}
