//! The plan of some queries: those that begin alike share their nodes.
//!
//! A query is answered by its window, its condition, the columns of its key and each of its
//! aggregators, one below the other. At each level equal nodes under the same node are one.
//! `compile` takes queries and gives their plan: its clauses say that each distinct beginning of a
//! query is one node, that a query's path leads to its own aggregators, and that the offsets rise.
#![tactic(auto)]

mod fault;
mod feed;
mod level;
mod node;
mod number;
mod offset;
mod path;
mod plan;
mod same;
mod size;

pub use fault::PlanFault;
pub use node::{AggNode, FilterNode, GroupNode};
pub use plan::{TaskPlan, compile};
pub use size::{MAX_AGGS, MAX_COLUMNS, MAX_QUERIES};
