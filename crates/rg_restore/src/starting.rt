ghost use Rattle.std.specs.Prelude.{◌≡◌, ℕ, ◌+◌, [], length, map, IfOk, IfErr};
ghost use Rattle.rg_bytes.specs.Counts.{Rose};
ghost use Rattle.rg_event.specs.Rising.{last_time};
ghost use Rattle.rg_past.specs.Keeping.{Kept, HasCause};
ghost use Rattle.rg_past.specs.declared.past.PastFault.{PastFault};
ghost use Rattle.rg_state.specs.Changes.{IsSince};
ghost use Rattle.rg_state.specs.Keeping.{TableKept};
ghost use Rattle.rg_state.specs.Rows.{at_in};
ghost use Rattle.rg_window.specs.Placed.{numbers_of};
ghost use Rattle.rg_engine.specs.Passed.{passed_count};
ghost use Rattle.rg_engine.specs.Standing.{come};
ghost use Rattle.rg_restore.specs.Opening.{CanStand, IsEmpty, IsGoing, IsUsable};
ghost use Rattle.rg_restore.specs.Truthful.{EngineStands, IsTruthful};

use crate::restoring::restore;
use rg_bytes::Memory;
use rg_checkpoint::{Checkpoint, Rows};
use rg_engine::{Engine, EngineFault};
use rg_event::{Steps, Texts};
use rg_past::{Past, PastFault, Spots};
use rg_plan::TaskPlan;
use rg_state::Table;
use std::alloc::Global;
use std::sync::ledger::Ledger;

/// The checkpoint of no events: each edge stands at the start, and there are no rows. It names no
/// queries.
pub(crate) fn at_start<P: Past>(
    alloc: Global,
    past: &P,
    plan: &TaskPlan,
) -> Result<Checkpoint, Memory>
    ensures count { IfOk result (λ checkpoint. checkpoint.count ≡ 0) }
    ensures none { IfOk result (λ checkpoint. checkpoint.rows ≡ []) }
    ensures zeros { IfOk result (λ checkpoint. numbers_of checkpoint.spots ≡ map (λ _. 0) plan.now.offsets) }
    ensures usable { IfOk result (λ checkpoint. IsUsable plan.now (length (P.events past.now)) checkpoint) }
    ensures truthful { P.sound past.now → (P.ended past.now → ⊥) →
        IfOk result (λ checkpoint. IsTruthful (P.spells past.now) plan.now (P.events past.now) checkpoint) }
{
    let spots = match vec![in alloc; past.start(); plan.offsets().len()] {
        Err(_) => return Err(Memory),
        Ok(spots) => spots,
    };
    Ok(Checkpoint {
        queries: Texts::new(alloc),
        count: 0,
        spots: Spots::from(spots),
        rows: Rows::new(Vec::new(alloc)),
    })
}

/// An engine that is made without a checkpoint: all events are passed from the start to `last`, the
/// time of the last one, in milliseconds, and 0 where there is none. A refusal hands the table back as
/// it then is.
pub fn start<P: Past, T: Table, L: Ledger>(
    alloc: Global,
    past: &mut P,
    plan: TaskPlan,
    table: T,
    last: u64,
    steps: &mut Steps<L>,
) -> Result<Engine<T>, (EngineFault, T)>
    requires empty { T.tells table → IsEmpty (T.cell table) }
    ensures stands { CanStand (P.sound past.old) (T.tells table) plan (P.events past.old) → (P.ended past.old → ⊥) →
        last_time (P.events past.old) ≡ last →
        IfOk result (λ engine. EngineStands (P.spells past.new) plan (P.events past.new) (T.cell engine.table) engine.spots) }
    ensures never_bad { (n : ℕ) → CanStand (P.sound past.old) (T.tells table) plan (P.events past.old) → (P.ended past.old → ⊥) →
        IfErr result (λ refused. refused.0 ≡ EngineFault.BadState n → ⊥) }
    ensures passed { P.sound past.old → (P.ended past.old → ⊥) → last_time (P.events past.old) ≡ last →
        IfOk result (λ engine. steps.new ≡ steps.old + passed_count plan [] (P.events past.new)) }
    ensures ticks { IfOk result (λ engine. steps.new + come plan (map (λ _. 0) plan.offsets) ≡ steps.old + come plan (numbers_of engine.spots)) }

    ensures cause { (fault : PastFault) → IfErr result (λ refused. refused.0 ≡ EngineFault.Past fault →
        HasCause (P.illegal past.new) ⊥ (P.ended past.old) (P.faults past.old) (P.faults past.new) fault) }
    ensures never_damaged { (place : ℕ) → P.sound past.old → (P.ended past.old → ⊥) →
        IfErr result (λ refused. refused.0 ≡ EngineFault.Past (PastFault.Damaged place) → ⊥) }
    ensures disk { IfErr result (λ refused. refused.0 ≡ EngineFault.Table → Rose (T.faults table) (T.faults refused.1)) }
    ensures not_ended { IfErr result (λ refused. refused.0 ≡ EngineFault.Ended → ⊥) }

    ensures engine { IfOk result (λ engine. IsGoing plan (length (P.events past.new)) engine) }

    // What changed in the table is told since it had no row.
    ensures since { T.tells table → IfOk result (λ engine. IsSince (at_in []) (T.named engine.table) (T.there engine.table) (T.cell engine.table)) }
    ensures table { IfOk result (λ engine. TableKept T.tells T.faults table engine.table) }
    ensures back { IfErr result (λ refused. TableKept T.tells T.faults table refused.1) }
    ensures events { P.events past.new ≡ P.events past.old }
    ensures room { P.has_room past.old → P.has_room past.new }
    ensures past { Kept P.goes P.sound P.ended P.faults past.old past.new }
{
    let checkpoint = match at_start(alloc, past, &plan) {
        Err(_) => return Err((EngineFault::Memory, table)),
        Ok(checkpoint) => checkpoint,
    };
    restore(alloc, past, plan, table, checkpoint, last, steps)
}
