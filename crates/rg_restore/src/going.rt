ghost use Rattle.std.specs.Prelude.{◌≡◌, length, All, IfOk, IfErr};
ghost use Rattle.rg_bytes.specs.Counts.{Rose};
ghost use Rattle.rg_state.specs.Keeping.{TableKept};
ghost use Rattle.rg_window.specs.Placed.{AreWithin};
ghost use Rattle.rg_restore.specs.Asked.{IsRefused, IsUnmade, KeepsEvents};
ghost use Rattle.rg_restore.specs.GoneOn.{HasGoneOn, NodeStood};

use rg_engine::{Engine, EngineFault};
use rg_event::Steps;
use rg_past::{Past, Spot};
use rg_plan::TaskPlan;
use rg_state::Table;
use std::alloc::Global;
use std::sync::ledger::Ledger;

/// An engine over a table with rows and edges at these spots, moved on to the last event of the past.
/// A refusal hands the table back as it then is.
pub(crate) fn go_on<P: Past, T: Table, L: Ledger>(
    alloc: Global,
    past: &mut P,
    plan: TaskPlan,
    table: T,
    spots: &[Spot],
    last: u64,
    steps: &mut Steps<L>,
) -> Result<Engine<T>, (EngineFault, T)>
    requires same { length spots.now ≡ length plan.offsets }
    requires within { AreWithin spots.now (length (P.events past.old)) }
    ensures gone { IfOk result (HasGoneOn T.tells T.faults T.named T.there T.cell (P.sound past.old) (P.spells past.old) (P.spells past.new) (P.events past.old) (P.events past.new) plan spots.now last table steps.old steps.new) }
    ensures cause { IfErr result (λ refused. IsUnmade
        (IsRefused (P.illegal past.new) (P.sound past.old × All (P.spells past.old) spots.now) (P.ended past.old) (P.faults past.old) (P.faults past.new))
        (λ n. NodeStood T.tells T.faults T.named T.there T.cell (P.sound past.old) (P.spells past.old) (P.spells past.new) (P.events past.old) (P.events past.new) plan spots.now last table n → ⊥)
        (Rose (T.faults table) (T.faults refused.1)) refused.0) }
    ensures back { IfErr result (λ refused. TableKept T.tells T.faults table refused.1) }
    ensures past { KeepsEvents P.events P.has_room P.goes P.sound P.ended P.faults past.old past.new }
{
    let mut engine = match Engine::new(alloc, plan, table, spots) {
        Err((_, table)) => return Err((EngineFault::Memory, table)),
        Ok(engine) => engine,
    };
    match engine.replay(past, last, steps) {
        Err(fault) => return Err((fault, engine.into_table())),
        Ok(()) => {}
    }
    // an engine has a spot for each offset of its plan
    let _spots = engine.spots();
    Ok(engine)
}
