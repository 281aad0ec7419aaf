ghost use Rattle.std.specs.Prelude.{◌≡◌, ℕ, ◌+◌, length, take, All, IfOk, IfErr};
ghost use Rattle.rg_bytes.specs.Counts.{Rose};
ghost use Rattle.rg_event.specs.Rising.{last_time};
ghost use Rattle.rg_past.specs.Keeping.{Kept, HasCause};
ghost use Rattle.rg_past.specs.declared.past.PastFault.{PastFault};
ghost use Rattle.rg_state.specs.Changes.{IsSince};
ghost use Rattle.rg_state.specs.Keeping.{TableKept};
ghost use Rattle.rg_state.specs.Rows.{at_in};
ghost use Rattle.rg_window.specs.Placed.{numbers_of};
ghost use Rattle.rg_engine.specs.Passed.{passed_count};
ghost use Rattle.rg_engine.specs.Standing.{IsTold, NodeStands, come};
ghost use Rattle.rg_restore.specs.Opening.{CanStand, IsEmpty, IsGoing, IsUsable};
ghost use Rattle.rg_restore.specs.Truthful.{EngineStands, IsTruthful, NodeIsTrue};

use crate::going::go_on;
use crate::rows::{engine_fault, move_rows};
use rg_checkpoint::Checkpoint;
use rg_engine::{Engine, EngineFault};
use rg_event::Steps;
use rg_past::{Past, PastFault};
use rg_plan::TaskPlan;
use rg_state::Table;
use std::alloc::Global;
use std::sync::ledger::Ledger;

/// An engine that goes on from a checkpoint, over a table without a row: the rows are moved into the
/// table, which is marked then, and the edges are moved on from their spots to `last`, the time of the
/// past's last event, in milliseconds, and 0 where there is none. Its count and its queries are not
/// looked at.
///
/// Where the checkpoint is true of the past's events, the engine stands for all of them, and only those
/// behind the checkpoint are passed. Each node is promised by itself, whatever the rows and spots of
/// the others are. A refusal hands the table back as it then is.
pub fn restore<P: Past, T: Table, L: Ledger>(
    alloc: Global,
    past: &mut P,
    plan: TaskPlan,
    table: T,
    checkpoint: Checkpoint,
    last: u64,
    steps: &mut Steps<L>,
) -> Result<Engine<T>, (EngineFault, T)>
    requires empty { T.tells table → IsEmpty (T.cell table) }
    requires usable { IsUsable plan (length (P.events past.old)) checkpoint }

    // From a checkpoint that is true of the events the engine stands for all of them.
    ensures stands { CanStand (P.sound past.old) (T.tells table) plan (P.events past.old) → last_time (P.events past.old) ≡ last →
        IsTruthful (P.spells past.old) plan (P.events past.old) checkpoint →
        IfOk result (λ engine. EngineStands (P.spells past.new) plan (P.events past.new) (T.cell engine.table) engine.spots) }
    ensures never_bad { (n : ℕ) → CanStand (P.sound past.old) (T.tells table) plan (P.events past.old) →
        IsTruthful (P.spells past.old) plan (P.events past.old) checkpoint →
        IfErr result (λ refused. refused.0 ≡ EngineFault.BadState n → ⊥) }
    ensures passed { P.sound past.old → last_time (P.events past.old) ≡ last →
        IsTruthful (P.spells past.old) plan (P.events past.old) checkpoint →
        IfOk result (λ engine. steps.new ≡ steps.old + passed_count plan (take checkpoint.count (P.events past.old)) (P.events past.new)) }

    // From any other one this holds of each node that is true of them.
    ensures node { (n : ℕ) → CanStand (P.sound past.old) (T.tells table) plan (P.events past.old) → last_time (P.events past.old) ≡ last →
        NodeIsTrue (P.spells past.old) plan n (P.events past.old) checkpoint →
        IfOk result (λ engine. NodeStands plan n (P.events past.new) (T.cell engine.table) (numbers_of engine.spots)) }
    ensures told { (n : ℕ) → P.sound past.old → IsTold plan n (P.spells past.old) checkpoint.spots →
        IfOk result (λ engine. IsTold plan n (P.spells past.new) engine.spots) }
    ensures spelled { P.sound past.old → All (P.spells past.old) checkpoint.spots → IfOk result (λ engine. All (P.spells past.new) engine.spots) }
    ensures bad { (n : ℕ) → CanStand (P.sound past.old) (T.tells table) plan (P.events past.old) →
        NodeIsTrue (P.spells past.old) plan n (P.events past.old) checkpoint →
        IfErr result (λ refused. refused.0 ≡ EngineFault.BadState n → ⊥) }
    ensures ticks { IfOk result (λ engine. steps.new + come plan (numbers_of checkpoint.spots) ≡ steps.old + come plan (numbers_of engine.spots)) }

    ensures cause { (fault : PastFault) → IfErr result (λ refused. refused.0 ≡ EngineFault.Past fault →
        HasCause (P.illegal past.new) ⊥ (P.ended past.old) (P.faults past.old) (P.faults past.new) fault) }
    ensures never_damaged { (place : ℕ) → P.sound past.old → All (P.spells past.old) checkpoint.spots →
        IfErr result (λ refused. refused.0 ≡ EngineFault.Past (PastFault.Damaged place) → ⊥) }
    ensures disk { IfErr result (λ refused. refused.0 ≡ EngineFault.Table → Rose (T.faults table) (T.faults refused.1)) }
    ensures not_ended { IfErr result (λ refused. refused.0 ≡ EngineFault.Ended → ⊥) }

    ensures engine { IfOk result (λ engine. IsGoing plan (length (P.events past.new)) engine) }

    // What changed in the table is told since the rows of the checkpoint.
    ensures since { T.tells table → IfOk result (λ engine. IsSince (at_in checkpoint.rows) (T.named engine.table) (T.there engine.table) (T.cell engine.table)) }
    ensures table { IfOk result (λ engine. TableKept T.tells T.faults table engine.table) }
    ensures back { IfErr result (λ refused. TableKept T.tells T.faults table refused.1) }
    ensures events { P.events past.new ≡ P.events past.old }
    ensures room { P.has_room past.old → P.has_room past.new }
    ensures past { Kept P.goes P.sound P.ended P.faults past.old past.new }
{
    let Checkpoint { spots, rows, .. } = checkpoint;
    let mut table = table;
    match move_rows(&mut table, rows.into_vec()) {
        Err(fault) => return Err((engine_fault(fault), table)),
        Ok(()) => {}
    }
    go_on(alloc, past, plan, table, spots.as_slice(), last, steps)
}
