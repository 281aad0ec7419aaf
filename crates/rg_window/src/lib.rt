//! Edges that move over a past, each shared by all the windows that begin or end at its offset.
#![tactic(auto)]

mod edges;
mod visit;

pub use edges::{Edges, MoveFault};
pub use visit::Visit;
