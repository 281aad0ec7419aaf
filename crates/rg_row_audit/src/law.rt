ghost use Rattle.std.specs.Prelude.{◌↔◌, List};
ghost use Rattle.rg_event.specs.declared.event.Event.{Event};
ghost use Rattle.rg_plan.specs.Plans.{Tasks};
ghost use Rattle.rg_restore.specs.Truthful.{AreRowsFor};
ghost use Rattle.rg_state.specs.Rows.{Entry, AreRising};
ghost use Rattle.rg_row_audit.specs.Rows.{AreAllRight};

/// Rows that rise by node and key stand for events, as those of an engine do that goes on from them,
/// exactly where the rows of each node do.
#[tactic(auto, using(crate::proofs::Listed::all_right))]
pub fn law_rows()
    // Rows that rise stand for events, as an engine's do, exactly where the rows of each node do.
    ensures { (rows : List Entry) (plan : Tasks) (events : List Event) → AreRising rows → AreAllRight rows plan events ↔ AreRowsFor rows plan events }
{}
