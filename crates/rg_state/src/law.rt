ghost use Rattle.std.specs.Prelude.{◌≡◌, ◌⊎◌, List, Option, Some, All};
ghost use Rattle.rg_agg.specs.Held.{Held};
ghost use Rattle.rg_agg.specs.Standing.{func_of, Stands};
ghost use Rattle.rg_event.specs.declared.value.Kind.{Kind};
ghost use Rattle.rg_event.specs.declared.value.Value.{Value};
ghost use Rattle.rg_keywords.specs.declared.func.Func.{Func};
ghost use Rattle.rg_keywords.specs.declared.func.Func.TheVariants.{Count};
ghost use Rattle.rg_state.specs.Rows.{RowStands};
ghost use Rattle.rg_state.specs.States.{held_of, HasKind, IsFor};
ghost use Rattle.rg_state.specs.declared.state.AggState.{AggState};

/// A row that stands for values of one kind passes the test of `AggState::fits` at that kind, and a row
/// of a count at any. Two states of one function that stand for one list keep the same, so their bytes
/// are the same.
#[tactic(auto, using(crate::proofs::Settled::keep_same))]
pub fn law_states()
    // A row of values of one kind is of that kind.
    ensures fits { (func : Func) (kind : Option Kind) (held : Held) (values : List Value) → RowStands func (Some held) values →
        (func ≡ Count) ⊎ All (HasKind kind) values → IsFor func kind held }

    // States of one function that stand for one list have the same bytes.
    ensures same { (state other : AggState) (values : List Value) → func_of (held_of state) ≡ func_of (held_of other) →
        Stands (held_of state) values → Stands (held_of other) values → held_of state ≡ held_of other }
{}
