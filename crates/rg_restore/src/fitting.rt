ghost use Rattle.std.specs.Prelude.{◌≡◌, ◌↔◌, IsTrue, slice_get};
ghost use Rattle.rg_checkpoint.specs.Entries.{entry_of, entries_of};
ghost use Rattle.rg_restore.specs.Fit.{kind_at, AreRowsOf, IsRowUnder};

use rg_checkpoint::Row;
use rg_event::{Field, Kind};
use rg_plan::{AggNode, TaskPlan};

/// Whether each row is of a node of the plan, and its state of that node's function and of the kind of
/// its column's values, these being the columns of the events.
pub fn fits_plan(plan: &TaskPlan, fields: &[Field], rows: &[Row]) -> bool
    ensures { IsTrue result ↔ AreRowsOf fields.now plan.now (entries_of rows.now) }
{
    let aggs = plan.aggs();
    'rows: for row in rows {
        if !fits_node(aggs, fields, row) {
            return false;
        }
    }
    true
}

/// Whether one row is of the function and kind of its node.
fn fits_node(aggs: &[AggNode], fields: &[Field], row: &Row) -> bool
    ensures { IsTrue result ↔ IsRowUnder fields.now (slice_get aggs.now row.now.node) (entry_of row.now) }
{
    match aggs.get(row.node as usize) {
        None => false,
        Some(node) => row
            .state
            .fits(node.agg.func, kind_of(fields, node.agg.field)),
    }
}

/// The kind of a column's values, counted from 1. Column 0 has none.
fn kind_of(fields: &[Field], column: u32) -> Option<Kind>
    ensures { result ≡ kind_at fields.now column }
{
    if column == 0 {
        return None;
    }
    match fields.get(column as usize - 1) {
        None => None,
        Some(field) => Some(field.kind),
    }
}
