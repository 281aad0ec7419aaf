ghost use Rattle.std.specs.Prelude.{◌≡◌, ℕ, ◌+◌, List, length, All, take, IfOk, IfErr};
ghost use Rattle.rg_bytes.specs.Counts.{Rose};
ghost use Rattle.rg_event.specs.Rising.{last_time};
ghost use Rattle.rg_past.specs.Keeping.{Kept, HasCause};
ghost use Rattle.rg_past.specs.declared.past.PastFault.{PastFault};
ghost use Rattle.rg_state.specs.Keeping.{TableKept};
ghost use Rattle.rg_window.specs.Placed.{numbers_of};
ghost use Rattle.rg_engine.specs.Passed.{passed_count};
ghost use Rattle.rg_engine.specs.Standing.{come};
ghost use Rattle.rg_checkpoint.specs.declared.base.Checkpoint.{Checkpoint};
ghost use Rattle.rg_restore.specs.Fit.{IsFit};
ghost use Rattle.rg_restore.specs.Opening.{CanStand, IsEmpty, IsGoing};
ghost use Rattle.rg_restore.specs.Since.{IsSinceSlot};
ghost use Rattle.rg_restore.specs.Slots.{slot_in, AreTruthful, HaveBegun, IsBest, IsFrom};
ghost use Rattle.rg_restore.specs.Truthful.{EngineStands, NodeGoes, NodeIsTrue};

use crate::choosing::{Saved, begin};
use crate::names::Names;
use crate::restoring::restore;
use rg_engine::{Engine, EngineFault};
use rg_event::{Field, Steps, Texts};
use rg_past::{Past, PastFault};
use rg_plan::TaskPlan;
use rg_state::Table;
use std::alloc::Global;
use std::sync::ledger::Ledger;

/// From where an engine went on.
#[derive(Clone, Copy, Debug, PartialEq, Eq, Hash)]
pub struct Origin {
    /// The slot of the checkpoint; none where all events were passed from the start.
    pub slot: Option<u32>,
    /// How many events the checkpoint is of; 0 without one.
    pub from: u64,
}

/// An engine that stands for all events of a past, over a table without a row. It goes on from the fit
/// checkpoint of the greatest count, slot 0 where both have it, and from the start where none is fit;
/// only the events behind that are passed. `fields` are the columns of the events, `queries` the
/// printed texts of the plan's queries, and `last` is the time of the last event, in milliseconds, and
/// 0 where there is none. A refusal hands the table back as it then is.
pub fn resume<P: Names, T: Table, L: Ledger>(
    alloc: Global,
    past: &mut P,
    plan: TaskPlan,
    fields: &[Field],
    queries: &Texts,
    table: T,
    saved: Saved,
    last: u64,
    steps: &mut Steps<L>,
) -> Result<(Engine<T>, Origin), (EngineFault, T)>
    requires ready { P.is_ready past.old }
    requires empty { T.tells table → IsEmpty (T.cell table) }

    // Where each checkpoint of the queries is true of the events, the engine stands for all of them, whichever is used.
    ensures stands { CanStand (P.Past.sound past.old) (T.tells table) plan (P.Past.events past.old) → (P.Past.ended past.old → ⊥) →
        last_time (P.Past.events past.old) ≡ last →
        AreTruthful (P.Past.spells past.old) queries.now plan (P.Past.events past.old) (slot_in saved) →
        IfOk result (λ r. EngineStands (P.Past.spells past.new) plan (P.Past.events past.new) (T.cell r.0.table) r.0.spots) }
    ensures never_bad { (n : ℕ) → CanStand (P.Past.sound past.old) (T.tells table) plan (P.Past.events past.old) → (P.Past.ended past.old → ⊥) →
        AreTruthful (P.Past.spells past.old) queries.now plan (P.Past.events past.old) (slot_in saved) →
        IfErr result (λ refused. refused.0 ≡ EngineFault.BadState n → ⊥) }

    // Exactly what lies behind the checkpoint used is crossed again.
    ensures passed { P.Past.sound past.old → (P.Past.ended past.old → ⊥) → last_time (P.Past.events past.old) ≡ last →
        AreTruthful (P.Past.spells past.old) queries.now plan (P.Past.events past.old) (slot_in saved) →
        IfOk result (λ r. steps.new ≡ steps.old + passed_count plan (take r.1.from (P.Past.events past.old)) (P.Past.events past.new)) }

    // Over any others it is known which is used, what is passed, and whose rows and spots are to blame.
    ensures from { P.told past.old → IfOk result (λ r.
        IsFrom (IsFit (P.named past.old) queries.now fields.now plan (length (P.Past.events past.old))) (slot_in saved) r.1.slot r.1.from) }
    ensures ticks { IfOk result (λ r. (before : List ℕ) × HaveBegun plan.offsets (slot_in saved) r.1.slot before
        × (steps.new + come plan before ≡ steps.old + come plan (numbers_of r.0.spots))) }

    // A bad state is told only of a node whose rows and spots in the used checkpoint are true of no prefix.
    ensures bad { (n : ℕ) → CanStand (P.Past.sound past.old) (T.tells table) plan (P.Past.events past.old) → (P.Past.ended past.old → ⊥) →
        IfErr result (λ refused. refused.0 ≡ EngineFault.BadState n → (i : ℕ) × (used : Checkpoint)
        × IsBest (IsFit (P.named past.old) queries.now fields.now plan (length (P.Past.events past.old))) (slot_in saved) i used
        × (NodeIsTrue (P.Past.spells past.old) plan n (P.Past.events past.old) used → ⊥)) }

    // A node that the engine doesn't stand for isn't true in the checkpoint that was used.
    ensures node { (n : ℕ) → CanStand (P.Past.sound past.old) (T.tells table) plan (P.Past.events past.old) → (P.Past.ended past.old → ⊥) →
        last_time (P.Past.events past.old) ≡ last →
        IfOk result (λ r. (NodeGoes (P.Past.spells past.new) plan n (P.Past.events past.new) (T.cell r.0.table) r.0.spots → ⊥) → (i : ℕ) × (used : Checkpoint)
        × IsBest (IsFit (P.named past.old) queries.now fields.now plan (length (P.Past.events past.old))) (slot_in saved) i used
        × (NodeIsTrue (P.Past.spells past.old) plan n (P.Past.events past.old) used → ⊥)) }

    // Whichever is used, each edge stands at a spelled spot over a sound past.
    ensures spelled { P.Past.sound past.old → (P.Past.ended past.old → ⊥) → IfOk result (λ r. All (P.Past.spells past.new) r.0.spots) }

    ensures cause { (fault : PastFault) → IfErr result (λ refused. refused.0 ≡ EngineFault.Past fault →
        HasCause (P.damaged past.new) ⊥ (P.Past.ended past.old) (P.Past.faults past.old) (P.Past.faults past.new) fault) }
    ensures never_damaged { (place : ℕ) → P.Past.sound past.old → (P.Past.ended past.old → ⊥) →
        IfErr result (λ refused. refused.0 ≡ EngineFault.Past (PastFault.Damaged place) → ⊥) }
    ensures disk { IfErr result (λ refused. refused.0 ≡ EngineFault.Table → Rose (T.faults table) (T.faults refused.1)) }
    ensures not_ended { IfErr result (λ refused. refused.0 ≡ EngineFault.Ended → ⊥) }

    ensures engine { IfOk result (λ r. IsGoing plan (length (P.Past.events past.new)) r.0) }

    // What changed in the table is told since the rows of the checkpoint that was used; without one, since it had none.
    ensures since { T.tells table → IfOk result (λ r. IsSinceSlot (slot_in saved) r.1.slot (T.named r.0.table) (T.there r.0.table) (T.cell r.0.table)) }
    ensures table { IfOk result (λ r. TableKept T.tells T.faults table r.0.table) }
    ensures back { IfErr result (λ refused. TableKept T.tells T.faults table refused.1) }
    ensures events { P.Past.events past.new ≡ P.Past.events past.old }
    ensures room { P.Past.has_room past.old → P.Past.has_room past.new }
    ensures past { Kept P.Past.goes P.Past.sound P.Past.ended P.Past.faults past.old past.new }
{
    let begun = match begin(alloc, past, &plan, fields, queries, saved) {
        Err(fault) => return Err((fault, table)),
        Ok(begun) => begun,
    };
    let from = begun.checkpoint.count;
    let origin = Origin {
        slot: begun.slot,
        from,
    };
    match restore(alloc, past, plan, table, begun.checkpoint, last, steps) {
        Err(refused) => return Err(refused),
        Ok(engine) => Ok((engine, origin)),
    }
}
