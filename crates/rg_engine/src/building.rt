ghost use Rattle.std.specs.Prelude.{◌≡◌, length, IfOk};
ghost use Rattle.rg_engine.specs.Building.{IsBuilt};

use crate::part::FilterPart;
use crate::tree::{empty_keys, nodes_of, tree_of};
use rg_bytes::Memory;
use rg_group::Key;
use rg_past::Spot;
use rg_plan::TaskPlan;
use rg_window::Edges;
use std::alloc::Global;

/// What is made once for a plan.
#[derive(Drop)]
pub(crate) struct Made {
    pub(crate) edges: Edges,
    pub(crate) parts: Vec<FilterPart>,
    pub(crate) key: Key,
    pub(crate) nodes: Vec<u32>,
    pub(crate) keys: Vec<Key>,
}

/// What a plan needs, with edges at these spots, one for each of its offsets.
pub(crate) fn set_up(alloc: Global, plan: &TaskPlan, at: &[Spot]) -> Result<Made, Memory>
    requires { length at.now ≡ length plan.now.offsets }
    ensures built { IfOk result (λ made. IsBuilt plan.now made.edges made.parts.items made.nodes.items made.keys.items) }
    ensures spots { IfOk result (λ made. made.edges.spots ≡ at.now) }
{
    let edges = Edges::new(alloc, plan.offsets(), at)?;
    let parts = tree_of(alloc, plan)?;
    let nodes = nodes_of(alloc, plan)?;
    let keys = empty_keys(alloc, plan)?;
    Ok(Made {
        edges,
        parts,
        key: Key::from(Vec::new(alloc)),
        nodes,
        keys,
    })
}
