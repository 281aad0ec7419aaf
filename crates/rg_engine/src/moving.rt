ghost use Rattle.rg_engine.specs.Moving.{IsMovable, RowsMove, MoveRefuses, PastStays, RowsStay, EdgesStay};

use crate::changer::{Changer, Rows};
use crate::fault::{EngineFault, move_fault};
use rg_event::Steps;
use rg_past::Past;
use rg_plan::TaskPlan;
use rg_state::Table;
use rg_window::Edges;
use std::sync::ledger::Ledger;

/// Moves the edges of a plan to time t, and changes the rows of its nodes by each event that an edge
/// passes.
pub(crate) fn move_rows<P: Past, T: Table, L: Ledger>(
    plan: &TaskPlan,
    edges: &mut Edges,
    rows: &mut Rows<T>,
    past: &mut P,
    t: u64,
    steps: &mut Steps<L>,
) -> Result<(), EngineFault>
    requires { IsMovable plan.now edges.old rows.old.parts.items (P.events past.old) }
    ensures moves { RowsMove plan.now t (P.sound past.old) (P.spells past.old) (T.tells rows.old.table) (P.events past.old)
        (T.cell rows.old.table) (T.cell rows.new.table) edges.old.spots edges.new.spots steps.old steps.new result }
    ensures refuses { MoveRefuses plan.now (P.sound past.old) (P.spells past.old) (P.asks_illegal past.old) (P.illegal past.new)
        (P.ended past.old) (P.faults past.old) (P.faults past.new) (T.faults rows.old.table) (T.faults rows.new.table) edges.old.spots result }
    ensures past { PastStays P.goes P.sound P.ended P.has_room P.events P.faults past.old past.new }
    ensures rows { RowsStay T.tells T.named T.there T.cell T.faults rows.old.table rows.new.table }
    ensures edges { EdgesStay (P.sound past.old) (P.spells past.old) (P.spells past.new) (P.events past.new)
        edges.old edges.new rows.old.parts.items rows.new.parts.items }
{
    let mut changer = Changer { plan, rows, steps };
    match edges.move_to(past, t, &mut changer) {
        Err(fault) => Err(move_fault(fault)),
        Ok(()) => Ok(()),
    }
}
