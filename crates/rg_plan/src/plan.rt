ghost use Rattle.std.specs.Prelude.{◌≡◌, ◌↔◌, map, flat_map, option_map, length, slice_get, option_copied, List, None, All, IfOk, IfErr, OnOk};
ghost use Rattle.rg_metric.specs.Queries.{asked, Asked};
ghost use Rattle.rg_plan.specs.Beginnings.{AreBegun};
ghost use Rattle.rg_plan.specs.Nodes.{filtered};
ghost use Rattle.rg_plan.specs.Named.{IsMade, HasAgg, node_at, nodes_of, asked_by, asked_agg, asked_node};
ghost use Rattle.rg_plan.specs.Offsets.{IsMeasured, AreRising, offsets_of as offsets_at, rising};
ghost use Rattle.rg_plan.specs.Plans.{plan_for, path_at, excess, fault_of};
ghost use Rattle.rg_plan.specs.Whole.{IsWhole};

use crate::fault::PlanFault;
use crate::level::levels_of;
use crate::node::{AggNode, FilterNode, GroupNode};
use crate::number::in_order;
use crate::offset::offsets_of;
use crate::path::Path;
use crate::size::first_too_many;
use indexmap::IndexSet;
use rg_bytes::Memory;
use rg_metric::{Query, Window};
use std::alloc::Global;
use std::marker::Model;

/// The nodes that answer some queries, each once, numbered from 0 in order of first use.
#[derive(Debug, Drop)]
pub struct TaskPlan {
    offsets: Vec<u64>,
    windows: Vec<Window>,
    filters: Vec<FilterNode>,
    groups: Vec<GroupNode>,
    aggs: Vec<AggNode>,
    paths: Vec<Path>,
}

impl Model for TaskPlan {
    ghost use Rattle.std.specs.Prelude.{map};
    ghost use Rattle.rg_plan.specs.Nodes.{filtered};
    ghost use Rattle.rg_plan.specs.Plans.{Tasks};
    ghost use Rattle.rg_plan.specs.Named.{IsMade};
    ghost use Rattle.rg_plan.specs.Codes.{planned_code};

    ghost Value = { Tasks };

    ghost coded = { planned_code };

    ghost view = { λ p. record { offsets = p.offsets.items; windows = p.windows.items; filters = map filtered p.filters.items; groups = p.groups.items; aggs = p.aggs.items; paths = p.paths.items } };

    ghost invariant = { λ p. IsMade (record { offsets = p.offsets.items; windows = p.windows.items; filters = map filtered p.filters.items; groups = p.groups.items; aggs = p.aggs.items; paths = p.paths.items }) };
}

/// The plan of these queries, whose windows have delays and lengths of at most 10^15 milliseconds.
///
/// `TooMany` names the first query with more than 16 aggregators or 8 columns, or the one behind
/// 64 others, and is answered before any memory is taken. `Memory` comes only where memory runs out.
#[tactic(auto, using(crate::proofs::Compiled::is_named, crate::proofs::Compiled::is_asked))]
pub fn compile(alloc: Global, queries: &[Query]) -> Result<TaskPlan, PlanFault>
    requires { All (λ (q : Asked). IsMeasured q.window) (map asked queries.now) }
    // The plan is the one that the definitions give for these queries.
    ensures plan { IfOk result (λ plan. plan ≡ plan_for (map asked queries.now)) }

    // Each node is there once, the offsets rise and are those of the windows, and each number is that of a node.
    ensures whole { IfOk result (λ plan. IsWhole plan) }
    // The nodes are the distinct beginnings of the queries, in order of first use.
    ensures begun { IfOk result (λ plan. AreBegun (map asked queries.now) plan) }
    // The node at each number of a query's path is an aggregator of that query, with its window, its
    // condition and its columns, in order.
    ensures named { IfOk result (λ plan. map (λ path. map (node_at plan) path) plan.paths ≡ map nodes_of (map asked queries.now)) }
    // Queries that each have an aggregator are read back from their plan.
    ensures read_back { All HasAgg (map asked queries.now) → IfOk result (λ plan. asked_by plan ≡ map asked queries.now) }

    // The first query past its bounds is told, and no other refusal comes.
    ensures within { OnOk result (excess (map asked queries.now) ≡ None) }
    ensures fault { IfErr result (λ fault. fault ≡ fault_of (excess (map asked queries.now))) }
{
    if let Some(query) = first_too_many(queries) {
        return Err(PlanFault::TooMany(query));
    }
    Ok(plan_of(alloc, queries)?)
}

/// The plan of queries that are few enough.
fn plan_of(alloc: Global, queries: &[Query]) -> Result<TaskPlan, Memory>
    requires measured { All (λ (q : Asked). IsMeasured q.window) (map asked queries.now) }
    requires within { excess (map asked queries.now) ≡ None }
    ensures { IfOk result (λ plan. plan ≡ plan_for (map asked queries.now)) }
{
    let levels = levels_of(alloc, queries)?;
    let timed = timed_of(alloc, levels.windows)?;
    let nodes = nodes_below(alloc, levels.filters, levels.groups, levels.aggs)?;
    Ok(TaskPlan {
        offsets: timed.offsets,
        windows: timed.windows,
        filters: nodes.filters,
        groups: nodes.groups,
        aggs: nodes.aggs,
        paths: levels.paths,
    })
}

/// Some windows and their offsets.
#[derive(Drop)]
struct Timed {
    windows: Vec<Window>,
    offsets: Vec<u64>,
}

/// The members, in order, and their offsets.
fn timed_of(alloc: Global, members: IndexSet<Window>) -> Result<Timed, Memory>
    requires { All IsMeasured members.keys }
    ensures windows { IfOk result (λ timed. timed.windows.items ≡ members.keys) }
    ensures offsets { IfOk result (λ timed. timed.offsets.items ≡ rising (flat_map offsets_at members.keys)) }
{
    let windows = in_order(alloc, members)?;
    let offsets = offsets_of(alloc, &windows)?;
    Ok(Timed { windows, offsets })
}

/// The nodes below some windows.
#[derive(Drop)]
struct Nodes {
    filters: Vec<FilterNode>,
    groups: Vec<GroupNode>,
    aggs: Vec<AggNode>,
}

/// The members, in order.
fn nodes_below(
    alloc: Global,
    filters: IndexSet<FilterNode>,
    groups: IndexSet<GroupNode>,
    aggs: IndexSet<AggNode>,
) -> Result<Nodes, Memory>
    ensures filters { IfOk result (λ nodes. nodes.filters.items ≡ filters.keys) }
    ensures groups { IfOk result (λ nodes. nodes.groups.items ≡ groups.keys) }
    ensures aggs { IfOk result (λ nodes. nodes.aggs.items ≡ aggs.keys) }
{
    let filters = in_order(alloc, filters)?;
    let groups = in_order(alloc, groups)?;
    let aggs = in_order(alloc, aggs)?;
    Ok(Nodes {
        filters,
        groups,
        aggs,
    })
}

impl TaskPlan {
    /// How many queries it is the plan of.
    pub fn queries(&self) -> u32
        ensures count { result ≡ length self.now.paths }
        ensures made { IsMade self.now }
    {
        self.paths.len() as u32
    }

    /// The numbers of the nodes of a query's aggregators, in order. There are none exactly where
    /// there is no such query, these being counted from 0.
    pub fn nodes(&self, query: u32) -> Option<&[u32]>
        ensures { option_copied result ≡ slice_get self.now.paths query }
    {
        match self.paths.get(query as usize) {
            None => None,
            Some(path) => Some(path.as_slice()),
        }
    }

    /// The distinct offsets, in milliseconds, at which events enter and leave the windows: how old
    /// an event is then. They rise.
    pub fn offsets(&self) -> &[u64]
        ensures offsets { result.now ≡ self.now.offsets }

        // The offsets rise.
        ensures rising { AreRising result.now }
        ensures whole { IsWhole self.now }
    {
        &self.offsets
    }

    /// The distinct windows of the queries.
    pub fn windows(&self) -> &[Window]
        ensures { result.now ≡ self.now.windows }
    {
        &self.windows
    }

    /// The distinct conditions under each window.
    pub fn filters(&self) -> &[FilterNode]
        ensures { map filtered result.now ≡ self.now.filters }
    {
        &self.filters
    }

    /// The distinct columns of keys under each filter node.
    pub fn groups(&self) -> &[GroupNode]
        ensures { result.now ≡ self.now.groups }
    {
        &self.groups
    }

    /// The distinct aggregators under each group node.
    pub fn aggs(&self) -> &[AggNode]
        ensures aggs { result.now ≡ self.now.aggs }
        ensures whole { IsWhole self.now }
    {
        &self.aggs
    }

    /// The number of the node of an aggregator of a query, both counted from 0. There is none
    /// exactly where there is no such aggregator.
    pub fn path(&self, query: u32, agg: u32) -> Option<u32>
        // The number of that node, and none exactly where there is no such aggregator.
        ensures number { result ≡ path_at self.now.paths query agg }
        ensures none { (queries : List Asked) → self.now ≡ plan_for queries → (result ≡ None) ↔ (asked_agg queries query agg ≡ None) }
        ensures node { (queries : List Asked) → self.now ≡ plan_for queries → option_map (node_at self.now) result ≡ asked_node queries query agg }
    {
        match self.nodes(query) {
            None => None,
            Some(nodes) => number_at(nodes, agg),
        }
    }

    /// An equal plan.
    pub fn copy(&self, alloc: Global) -> Result<TaskPlan, Memory>
        ensures { IfOk result (λ copy. copy ≡ self.now) }
    {
        Ok(TaskPlan {
            offsets: Vec::from_slice(alloc, &self.offsets)?,
            windows: Vec::from_slice(alloc, &self.windows)?,
            filters: copy_filters(alloc, &self.filters)?,
            groups: copy_groups(alloc, &self.groups)?,
            aggs: Vec::from_slice(alloc, &self.aggs)?,
            paths: copy_paths(alloc, &self.paths)?,
        })
    }
}

/// The number at a place, where there is one.
fn number_at(nodes: &[u32], agg: u32) -> Option<u32>
    ensures { result ≡ slice_get nodes.now agg }
{
    nodes.get(agg as usize).copied()
}

fn copy_filters(alloc: Global, filters: &[FilterNode]) -> Result<Vec<FilterNode>, Memory>
    ensures { IfOk result (λ copies. map filtered copies.items ≡ map filtered filters.now) }
{
    let mut copies = Vec::new(alloc);
    for filter in filters {
        copies.push(filter.copy(alloc)?)?;
    }
    Ok(copies)
}

fn copy_groups(alloc: Global, groups: &[GroupNode]) -> Result<Vec<GroupNode>, Memory>
    ensures { IfOk result (λ copies. copies.items ≡ groups.now) }
{
    let mut copies = Vec::new(alloc);
    for group in groups {
        copies.push(group.copy(alloc)?)?;
    }
    Ok(copies)
}

fn copy_paths(alloc: Global, paths: &[Path]) -> Result<Vec<Path>, Memory>
    ensures { IfOk result (λ copies. copies.items ≡ paths.now) }
{
    let mut copies = Vec::new(alloc);
    for path in paths {
        copies.push(path.copy(alloc)?)?;
    }
    Ok(copies)
}
