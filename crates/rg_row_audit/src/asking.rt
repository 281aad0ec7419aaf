ghost use Rattle.std.specs.Prelude.{◌≡◌, option_map};
ghost use Rattle.rg_plan.specs.Named.{node_at};
ghost use Rattle.rg_row_audit.specs.Gathering.{node_of};

use rg_metric::{Agg, Condition, Window};
use rg_plan::TaskPlan;

/// An aggregator of a task plan, with all that it is asked over.
#[derive(Drop)]
pub(crate) struct Asking<'a> {
    pub(crate) agg: Agg,
    /// The columns of the key, each counted from 1.
    pub(crate) columns: &'a [u32],
    pub(crate) condition: &'a Option<Condition>,
    pub(crate) window: Window,
}

/// What the node of this number of a plan asks, where there is such a node.
pub(crate) fn asking_of(plan: &TaskPlan, number: u32) -> Option<Asking<'_>>
    ensures { option_map node_of result ≡ node_at plan.now number }
{
    let agg = plan.aggs().get(number as usize)?;
    let group = plan.groups().get(agg.group as usize)?;
    let filter = plan.filters().get(group.filter as usize)?;
    let window = plan.windows().get(filter.window as usize)?;
    Some(Asking {
        agg: agg.agg,
        columns: group.columns.as_slice(),
        condition: &filter.condition,
        window: *window,
    })
}
