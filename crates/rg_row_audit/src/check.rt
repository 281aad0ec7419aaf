ghost use Rattle.std.specs.Prelude.{◌≡◌, ◌↔◌, ◌<◌, ◌≤◌, ℕ, List, None, Some, length, take, IfOk, IfNone, IfSome, IsTrue};
ghost use Rattle.rg_agg.specs.Held.{Held};
ghost use Rattle.rg_checkpoint.specs.Entries.{entries_of, AreFilled};
ghost use Rattle.rg_event.specs.Rising.{last_time};
ghost use Rattle.rg_restore.specs.Truthful.{AreRowsFor};
ghost use Rattle.rg_plan.specs.Whole.{IsWhole};
ghost use Rattle.rg_state.specs.Rows.{AreRising};
ghost use Rattle.rg_row_audit.specs.Rows.{row_in, AreRight, AreAllRight, AreServed, IsLeastWrong};

use crate::asking::asking_of;
use crate::gathering::gather;
use crate::keeping::are_kept;
use rg_bytes::Memory;
use rg_checkpoint::{Checkpoint, Row};
use rg_event::Event;
use rg_plan::TaskPlan;
use std::alloc::Global;

/// The least node whose rows in a checkpoint don't stand for the first `count` of these events, by a wrong,
/// a missing or an extra row; none where those of all nodes do.
///
/// The events are of one schema, whose columns serve the plan; over others the answer says nothing. For one
/// node after another it takes the states of that node's keys, made anew of its values in the window at the time of
/// the last event, and the bytes of one state at a time.
pub fn check_rows(
    alloc: Global,
    plan: &TaskPlan,
    events: &[Event],
    checkpoint: &Checkpoint,
) -> Result<Option<u32>, Memory>
    requires within { checkpoint.now.count ≤ length events.now }
    // None is answered where the rows of each node stand for the first events, as many as the checkpoint is of.
    ensures right { AreServed plan.now (take checkpoint.now.count events.now) →
        IfOk result (λ found. IfNone found (AreRowsFor checkpoint.now.rows plan.now (take checkpoint.now.count events.now))) }

    // Else the least node is told whose rows don't: by a wrong row, a missing or an extra one.
    ensures wrong { AreServed plan.now (take checkpoint.now.count events.now) →
        IfOk result (λ found. IfSome found (IsLeastWrong checkpoint.now.rows plan.now (take checkpoint.now.count events.now))) }
{
    least_wrong(alloc, plan, events, checkpoint)
}

/// The least node whose rows don't stand for the first events.
fn least_wrong(
    alloc: Global,
    plan: &TaskPlan,
    events: &[Event],
    checkpoint: &Checkpoint,
) -> Result<Option<u32>, Memory>
    requires within { checkpoint.now.count ≤ length events.now }
    ensures right { AreServed plan.now (take checkpoint.now.count events.now) →
        IfOk result (λ found. IfNone found (AreAllRight checkpoint.now.rows plan.now (take checkpoint.now.count events.now))) }
    ensures wrong { AreServed plan.now (take checkpoint.now.count events.now) →
        IfOk result (λ found. IfSome found (IsLeastWrong checkpoint.now.rows plan.now (take checkpoint.now.count events.now))) }
    ensures rising { AreRising checkpoint.now.rows }
{
    let first = &events[..checkpoint.count as usize];
    first_wrong(alloc, plan, first, checkpoint.rows.as_slice())
}

/// The least node whose rows don't stand for all of these events.
fn first_wrong(
    alloc: Global,
    plan: &TaskPlan,
    events: &[Event],
    rows: &[Row],
) -> Result<Option<u32>, Memory>
    requires rising { AreRising (entries_of rows.now) }
    requires filled { AreFilled (entries_of rows.now) }
    ensures right { AreServed plan.now events.now → IfOk result (λ found. IfNone found (AreAllRight (entries_of rows.now) plan.now events.now)) }
    ensures wrong { AreServed plan.now events.now → IfOk result (λ found. IfSome found (IsLeastWrong (entries_of rows.now) plan.now events.now)) }
{
    let count = plan.aggs().len();
    'nodes: for node in 0..count {
        if !is_right(alloc, plan, node as u32, events, rows)? {
            return Ok(Some(node as u32));
        }
    }
    Ok(first_beyond(rows, count))
}

/// Whether the rows of one node stand for these events.
fn is_right(
    alloc: Global,
    plan: &TaskPlan,
    node: u32,
    events: &[Event],
    rows: &[Row],
) -> Result<bool, Memory>
    requires rising { AreRising (entries_of rows.now) }
    requires filled { AreFilled (entries_of rows.now) }
    requires whole { IsWhole plan.now }
    requires there { node < length plan.now.aggs }
    ensures { AreServed plan.now events.now → IfOk result (λ is. IsTrue is ↔ AreRight (entries_of rows.now) plan.now events.now node) }
{
    match asking_of(plan, node) {
        None => Ok(false),
        Some(asking) => {
            let gathered = gather(alloc, &asking, time_of(events), events)?;
            are_kept(alloc, node, rows, gathered)
        }
    }
}

/// The time of the last event, and 0 where there is none.
fn time_of(events: &[Event]) -> u64
    ensures { result ≡ last_time events.now }
{
    if events.is_empty() {
        return 0;
    }
    events[events.len() - 1].time
}

/// The node of the first row whose node is at least this number.
fn first_beyond(rows: &[Row], count: usize) -> Option<u32>
    requires { AreRising (entries_of rows.now) }
    ensures none { IfNone result ((n : ℕ) (key : List ℕ) → count ≤ n → row_in (entries_of rows.now) n key ≡ None) }
    ensures some { IfSome result (λ n. (count ≤ n) × ((key : List ℕ) × (held : Held) × (row_in (entries_of rows.now) n key ≡ Some held))) }
    ensures least { IfSome result (λ n. (m : ℕ) (key : List ℕ) → count ≤ m → m < n → row_in (entries_of rows.now) m key ≡ None) }
{
    'rows: for row in rows {
        if row.node as usize >= count {
            return Some(row.node);
        }
    }
    None
}
