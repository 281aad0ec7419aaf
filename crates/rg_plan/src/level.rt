ghost use Rattle.std.specs.Prelude.{◌≡◌, ◌+◌, ◌<◌, ◌^◌, [], ◌∷◌, ◌++◌, fold, length, map, List, None, IfOk, OnOk};
ghost use Rattle.rg_metric.specs.Queries.{asked, Asked};
ghost use Rattle.rg_plan.specs.Nodes.{with_use, same_agg};
ghost use Rattle.rg_plan.specs.Plans.{aggs_under, path_among, excess};
ghost use Rattle.rg_plan.specs.Levels.{IsNumbering};

use crate::node::{AggNode, FilterNode, GroupNode, copy_condition};
use crate::number::{filter_number, number_of};
use crate::path::Path;
use indexmap::IndexSet;
use rg_bytes::Memory;
use rg_metric::{Agg, Query, Window};
use std::alloc::Global;

/// The nodes of some queries, each once, and the numbers of each query's aggregator nodes.
#[derive(Drop)]
pub(crate) struct Levels {
    pub(crate) windows: IndexSet<Window>,
    pub(crate) filters: IndexSet<FilterNode>,
    pub(crate) groups: IndexSet<GroupNode>,
    pub(crate) aggs: IndexSet<AggNode>,
    pub(crate) paths: Vec<Path>,
}

impl Levels {
    /// Those of no query.
    pub(crate) fn new(alloc: Global) -> Levels
        ensures { IsNumbering [] result }
    {
        Levels {
            windows: IndexSet::new(alloc),
            filters: IndexSet::new(alloc),
            groups: IndexSet::new(alloc),
            aggs: IndexSet::new(alloc),
            paths: Vec::new(alloc),
        }
    }

    /// Adds those of one more query.
    pub(crate) fn add(&mut self, alloc: Global, query: &Query) -> Result<(), Memory>
        requires windows { length self.old.windows.keys + 1 < 2 ^ 32 }
        requires filters { length self.old.filters.keys + 1 < 2 ^ 32 }
        requires groups { length self.old.groups.keys + 1 < 2 ^ 32 }
        requires aggs { length self.old.aggs.keys + length query.now.aggs < 2 ^ 32 }
        ensures { (queries : List Asked) → IsNumbering queries self.old →
            OnOk result (IsNumbering (queries ++ asked query.now ∷ []) self.new) }
    {
        let window = number_of(&mut self.windows, query.window)?;
        let condition = copy_condition(alloc, &query.filter)?;
        let filter = filter_number(&mut self.filters, FilterNode { window, condition })?;
        let columns = query.group.copy(alloc)?;
        let group = number_of(&mut self.groups, GroupNode { filter, columns })?;
        let path = path_of(alloc, &mut self.aggs, group, query.aggs.as_slice())?;
        self.paths.push(path)?;
        Ok(())
    }
}

/// The nodes of queries that are few enough.
pub(crate) fn levels_of(alloc: Global, queries: &[Query]) -> Result<Levels, Memory>
    requires { excess (map asked queries.now) ≡ None }
    ensures { IfOk result (λ levels. IsNumbering (map asked queries.now) levels) }
{
    let mut levels = Levels::new(alloc);
    for query in queries {
        levels.add(alloc, query)?;
    }
    Ok(levels)
}

/// The numbers of these aggregators' nodes under a group node, which go last where they are new.
fn path_of(
    alloc: Global,
    nodes: &mut IndexSet<AggNode>,
    group: u32,
    aggs: &[Agg],
) -> Result<Path, Memory>
    requires { length nodes.old.keys + length aggs.now < 2 ^ 32 }
    ensures nodes { OnOk result
        (nodes.new.keys ≡ fold (with_use same_agg) nodes.old.keys (aggs_under group aggs.now)) }
    ensures path { IfOk result (λ path. path ≡ path_among nodes.new.keys (aggs_under group aggs.now)) }
{
    let mut path = Path::new(alloc);
    for agg in aggs {
        path.push(number_of(nodes, AggNode { group, agg: *agg })?)?;
    }
    Ok(path)
}
