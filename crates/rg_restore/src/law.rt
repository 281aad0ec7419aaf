ghost use Rattle.std.specs.Prelude.{◌≡◌, ℕ, List, length, slice_get, Some, All};
ghost use Rattle.rg_event.specs.Codec.{IsEventOf};
ghost use Rattle.rg_event.specs.declared.event.Event.{Event};
ghost use Rattle.rg_event.specs.declared.schema.Field.{Field};
ghost use Rattle.rg_past.specs.declared.past.Spot.{Spot};
ghost use Rattle.rg_plan.specs.Plans.{Tasks};
ghost use Rattle.rg_state.specs.Rows.{Cells, Lists};
ghost use Rattle.rg_window.specs.Placed.{IsSpelledAt, numbers_of};
ghost use Rattle.rg_engine.specs.Carrying.{CarriesOn};
ghost use Rattle.rg_engine.specs.Feeding.{Serves};
ghost use Rattle.rg_engine.specs.Passed.{AreAtPositions};
ghost use Rattle.rg_engine.specs.Standing.{NodeStands};
ghost use Rattle.rg_checkpoint.specs.declared.base.Checkpoint.{Checkpoint};
ghost use Rattle.rg_restore.specs.Fit.{IsFit};
ghost use Rattle.rg_restore.specs.Opening.{CanStand};
ghost use Rattle.rg_restore.specs.Truthful.{EngineStands, IsTruthful};

use crate::names::Names;
use rg_past::Past;
use rg_state::Table;

/// Each node of an engine that stands for the events of a past can be carried on to more events: this is
/// what `Engine::take` and `Engine::replay` ask to answer as from scratch.
#[tactic(auto, using(crate::proofs::Standing::carries))]
pub fn law_carries<P: Past, T: Table>()
    ensures { (past : P) (table : T) (plan : Tasks) (all : List Event) (spots : List Spot) (n : ℕ) →
        CanStand (P.sound past) (T.tells table) plan all →
        EngineStands (P.spells past) plan (P.events past) (T.cell table) spots →
        CarriesOn plan n (P.sound past) (P.spells past) (T.tells table) (P.events past) all (P.events past) (T.cell table) spots }
{}

/// An engine stands for the events of a past where each node does, each edge is at its position, and each
/// spot is spelled: this is what `Engine::take` and `Engine::replay` leave.
pub fn law_stands<P: Past, T: Table>()
    ensures { (past : P) (table : T) (plan : Tasks) (spots : List Spot) → length spots ≡ length plan.offsets →
        ((n : ℕ) → NodeStands plan n (P.events past) (T.cell table) (numbers_of spots)) →
        AreAtPositions plan (P.events past) (numbers_of spots) →
        ((edge offset : ℕ) → slice_get plan.offsets edge ≡ Some offset → IsSpelledAt (P.spells past) spots edge) →
        EngineStands (P.spells past) plan (P.events past) (T.cell table) spots }
{}

/// What is saved of an engine that stands for the events of a past is true of them, and stays true of
/// each later state of the past.
#[tactic(auto, using(crate::proofs::Saving::saved, crate::proofs::Saving::later_past))]
pub fn law_saved<P: Past>()
    ensures saved { (past : P) (plan : Tasks) (cells : Cells) (checkpoint : Checkpoint) →
        EngineStands (P.spells past) plan (P.events past) cells checkpoint.spots → Lists cells checkpoint.rows →
        checkpoint.count ≡ length (P.events past) →
        IsTruthful (P.spells past) plan (P.events past) checkpoint }
    ensures later { (past next : P) (plan : Tasks) (checkpoint : Checkpoint) → P.goes past next → P.sound past →
        IsTruthful (P.spells past) plan (P.events past) checkpoint → IsTruthful (P.spells next) plan (P.events next) checkpoint }
{}

/// A checkpoint of a plan's queries that is true of the events of a sound past is fit, where they are of
/// columns that serve the plan.
pub fn law_fit<P: Names>()
    // A true checkpoint of the plan's queries is fit.
    ensures { (past : P) (queries : List (List ℕ)) (fields : List Field) (plan : Tasks) (checkpoint : Checkpoint) → P.Past.sound past →
        Serves fields plan → All (IsEventOf fields) (P.Past.events past) → checkpoint.queries ≡ queries →
        IsTruthful (P.Past.spells past) plan (P.Past.events past) checkpoint →
        IsFit (P.named past) queries fields plan (length (P.Past.events past)) checkpoint }
{}
