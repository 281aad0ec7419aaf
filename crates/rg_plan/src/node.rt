ghost use Rattle.std.specs.Prelude.{◌≡◌, IfOk};
ghost use Rattle.rg_metric.specs.Queries.{filter_test};
ghost use Rattle.rg_plan.specs.Nodes.{filtered};

use crate::feed::feed_condition;
use crate::same::is_same_condition;
use rg_bytes::Memory;
use rg_metric::{Agg, Columns, Condition};
use std::alloc::Global;
use std::hash::{Hash, Hasher};

/// The events of a window that meet a condition.
#[derive(Debug, Drop)]
pub struct FilterNode {
    /// The number of the window.
    pub window: u32,
    /// What its events meet; without one it has all events of the window.
    pub condition: Option<Condition>,
}

impl PartialEq for FilterNode {
    ghost use Rattle.std.specs.Cmp.{partial_equiv_from_equiv};
    ghost use Rattle.rg_plan.specs.Nodes.{filtered, same_filter};
    ghost use Rattle.rg_plan.specs.SameLaws.{filter_equiv};

    ghost eq = { λ a b. same_filter (filtered a) (filtered b) };

    ghost laws = { partial_equiv_from_equiv filter_equiv };

    fn eq(&self, other: &FilterNode) -> bool {
        self.window == other.window && is_same_condition(&self.condition, &other.condition)
    }
}

impl Eq for FilterNode {
    ghost use Rattle.rg_plan.specs.SameLaws.{filter_equiv};

    ghost laws = { filter_equiv };
}

impl Hash for FilterNode {
    ghost use Rattle.rg_plan.specs.Nodes.{filtered};
    ghost use Rattle.rg_plan.specs.Fed.{filter_fed};
    ghost use Rattle.rg_plan.specs.SameLaws.{filters_feed_alike};

    ghost hash_input = { λ node. filter_fed (filtered node) };

    ghost respects_eq = { filters_feed_alike };

    fn hash<H: Hasher>(&self, state: &mut H) {
        self.window.hash(state);
        feed_condition(&self.condition, state);
    }
}

impl FilterNode {
    /// An equal node.
    pub fn copy(&self, alloc: Global) -> Result<FilterNode, Memory>
        ensures { IfOk result (λ copy. filtered copy ≡ filtered self.now) }
    {
        Ok(FilterNode {
            window: self.window,
            condition: copy_condition(alloc, &self.condition)?,
        })
    }
}

/// An equal condition, or none where there is none.
pub(crate) fn copy_condition(
    alloc: Global,
    condition: &Option<Condition>,
) -> Result<Option<Condition>, Memory>
    ensures { IfOk result (λ copy. filter_test copy ≡ filter_test condition.now) }
{
    match condition {
        None => Ok(None),
        Some(condition) => Ok(Some(condition.copy(alloc)?)),
    }
}

/// The events of a filter node, by their values in some columns.
#[derive(Debug, Drop)]
pub struct GroupNode {
    /// The number of the filter node.
    pub filter: u32,
    /// The columns of the key; without any all events have one key.
    pub columns: Columns,
}

impl PartialEq for GroupNode {
    ghost use Rattle.std.specs.Cmp.{partial_equiv_from_equiv};
    ghost use Rattle.rg_plan.specs.Nodes.{same_group};
    ghost use Rattle.rg_plan.specs.SameLaws.{group_equiv};

    ghost eq = { same_group };

    ghost laws = { partial_equiv_from_equiv group_equiv };

    fn eq(&self, other: &GroupNode) -> bool {
        self.filter == other.filter && self.columns.as_slice() == other.columns.as_slice()
    }
}

impl Eq for GroupNode {
    ghost use Rattle.rg_plan.specs.SameLaws.{group_equiv};

    ghost laws = { group_equiv };
}

impl Hash for GroupNode {
    ghost use Rattle.rg_plan.specs.Fed.{group_fed};
    ghost use Rattle.rg_plan.specs.SameLaws.{groups_feed_alike};

    ghost hash_input = { group_fed };

    ghost respects_eq = { groups_feed_alike };

    fn hash<H: Hasher>(&self, state: &mut H) {
        self.filter.hash(state);
        self.columns.as_slice().hash(state);
    }
}

impl GroupNode {
    /// An equal node.
    pub fn copy(&self, alloc: Global) -> Result<GroupNode, Memory>
        ensures { IfOk result (λ copy. copy ≡ self.now) }
    {
        Ok(GroupNode {
            filter: self.filter,
            columns: self.columns.copy(alloc)?,
        })
    }
}

/// An aggregator over the events of a group node that have one key.
#[derive(Clone, Copy, Debug, PartialEq, Eq, Hash)]
pub struct AggNode {
    /// The number of the group node.
    pub group: u32,
    /// What is answered of them.
    pub agg: Agg,
}
