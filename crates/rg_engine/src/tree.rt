ghost use Rattle.std.specs.Prelude.{◌≡◌, ℕ, ◌<◌, ◌^◌, List, Option, Some, length, map, slice_get, All, IfOk, flat_map};
ghost use Rattle.rg_metric.specs.declared.query.Window.{Window};
ghost use Rattle.rg_metric.specs.Conditions.{Test};
ghost use Rattle.rg_plan.specs.Nodes.{Filtered, filtered};
ghost use Rattle.rg_plan.specs.Whole.{IsWhole};
ghost use Rattle.rg_engine.specs.declared.part.FilterPart.{FilterPart};
ghost use Rattle.rg_engine.specs.Answering.{nodes_asked};
ghost use Rattle.rg_engine.specs.Parts.{agg_nodes, group_nodes, nodes_numbered, made_of, agg_if, group_if, node_in_agg, ArePartsOf};

use crate::part::{AggPart, FilterPart, GroupPart};
use rg_bytes::Memory;
use rg_filter::Filter;
use rg_group::Key;
use rg_metric::Window;
use rg_plan::{AggNode, FilterNode, GroupNode, TaskPlan};
use std::alloc::Global;

/// The nodes of a plan as a tree.
pub(crate) fn tree_of(alloc: Global, plan: &TaskPlan) -> Result<Vec<FilterPart>, Memory>
    requires { IsWhole plan.now }
    ensures { IfOk result (λ parts. ArePartsOf plan.now parts.items) }
{
    match filter_parts(
        alloc,
        plan.windows(),
        plan.filters(),
        plan.groups(),
        plan.aggs(),
    ) {
        Err(memory) => return Err(memory),
        Ok(parts) => Ok(parts),
    }
}

/// The filter nodes, in order, each with what is under it.
fn filter_parts(
    alloc: Global,
    windows: &[Window],
    filters: &[FilterNode],
    groups: &[GroupNode],
    aggs: &[AggNode],
) -> Result<Vec<FilterPart>, Memory>
    requires few_filters { length filters.now < 2 ^ 32 }
    requires few_groups { length groups.now < 2 ^ 32 }
    requires few_aggs { length aggs.now < 2 ^ 32 }
    requires windows { All (λ (filter : Filtered). filter.window < length windows.now) (map filtered filters.now) }
    ensures nodes { IfOk result (λ parts. (n : ℕ) → nodes_numbered n parts.items ≡
        made_of (node_in_agg windows.now (map filtered filters.now) groups.now) (slice_get aggs.now n)) }
    ensures windows { IfOk result (λ parts. map (λ (part : FilterPart). Some part.window) parts.items ≡
        map (λ (filter : Filtered). slice_get windows.now filter.window) (map filtered filters.now)) }
{
    let mut parts = Vec::new(alloc);
    'filters: for filter in 0..filters.len() {
        match filter_part(
            alloc,
            windows,
            &filters[filter],
            filter as u32,
            groups,
            aggs,
        ) {
            Err(memory) => return Err(memory),
            Ok(part) => parts.push(part)?,
        }
    }
    Ok(parts)
}

/// A filter node of that number, with what is under it.
fn filter_part(
    alloc: Global,
    windows: &[Window],
    node: &FilterNode,
    number: u32,
    groups: &[GroupNode],
    aggs: &[AggNode],
) -> Result<FilterPart, Memory>
    requires few_groups { length groups.now < 2 ^ 32 }
    requires few_aggs { length aggs.now < 2 ^ 32 }
    requires window { node.now.window < length windows.now }
    ensures window { IfOk result (λ part. slice_get windows.now node.now.window ≡ Some part.window) }
    ensures condition { IfOk result (λ part. part.filter ≡ (filtered node.now).condition) }
    ensures nodes { IfOk result (λ part. (window : Window) (condition : Option Test) (n : ℕ) →
        group_nodes window condition n part.groups.items ≡
        made_of (λ agg. made_of (group_if window condition number agg.agg) (slice_get groups.now agg.group)) (slice_get aggs.now n)) }
{
    let window = windows[node.window as usize];
    let copy = node.copy(alloc)?;
    let groups = group_parts(alloc, groups, aggs, number)?;
    Ok(FilterPart {
        window,
        filter: Filter::new(copy.condition),
        groups,
    })
}

/// The group nodes under a filter node, each with what is under it.
fn group_parts(
    alloc: Global,
    groups: &[GroupNode],
    aggs: &[AggNode],
    filter: u32,
) -> Result<Vec<GroupPart>, Memory>
    requires few_groups { length groups.now < 2 ^ 32 }
    requires few_aggs { length aggs.now < 2 ^ 32 }
    ensures { IfOk result (λ parts. (window : Window) (condition : Option Test) (n : ℕ) →
        group_nodes window condition n parts.items ≡
        made_of (λ agg. made_of (group_if window condition filter agg.agg) (slice_get groups.now agg.group)) (slice_get aggs.now n)) }
{
    let mut parts = Vec::new(alloc);
    'groups: for group in 0..groups.len() {
        let node = &groups[group];
        if node.filter != filter {
            continue;
        }
        let columns = node.columns.copy(alloc)?;
        let under = agg_parts(alloc, aggs, group as u32)?;
        parts.push(GroupPart {
            columns,
            aggs: under,
        })?;
    }
    Ok(parts)
}

/// The aggregators under a group node, with their nodes' numbers.
fn agg_parts(alloc: Global, aggs: &[AggNode], group: u32) -> Result<Vec<AggPart>, Memory>
    requires { length aggs.now < 2 ^ 32 }
    ensures { IfOk result (λ parts. (window : Window) (condition : Option Test) (columns : List ℕ) (n : ℕ) →
        agg_nodes window condition columns n parts.items ≡
        made_of (agg_if window condition columns group) (slice_get aggs.now n)) }
{
    let mut parts = Vec::new(alloc);
    'aggs: for agg in 0..aggs.len() {
        let node = aggs[agg];
        if node.group != group {
            continue;
        }
        parts.push(AggPart {
            node: agg as u32,
            agg: node.agg,
        })?;
    }
    Ok(parts)
}

/// The numbers of the nodes of all queries, in order.
pub(crate) fn nodes_of(alloc: Global, plan: &TaskPlan) -> Result<Vec<u32>, Memory>
    ensures { IfOk result (λ nodes. nodes.items ≡ nodes_asked plan.now) }
{
    let mut nodes = Vec::new(alloc);
    'queries: for query in 0..plan.queries() {
        match plan.nodes(query) {
            None => continue,
            Some(path) => nodes.extend_from_slice(path)?,
        }
    }
    Ok(nodes)
}

/// A key for each group node, still without bytes.
pub(crate) fn empty_keys(alloc: Global, plan: &TaskPlan) -> Result<Vec<Key>, Memory>
    ensures { IfOk result (λ keys. length keys.items ≡ length plan.now.groups) }
{
    let mut keys = Vec::new(alloc);
    for _group in plan.groups() {
        keys.push(Key::from(Vec::new(alloc)))?;
    }
    Ok(keys)
}
