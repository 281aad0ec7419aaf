//! The events of a run: closed chunks in the log of a host, read through a bounded cache, and one
//! open chunk in memory.
//!
//! Events come in one after another; a commit writes the open chunk as one frame behind the log.
//! Upward: over a host that tells its image and a legal log each spelled spot shows the list's
//! event, and whatever fails and wherever a run stops, the log has the events committed before, or
//! these and the whole open chunk.
#![tactic(auto)]

mod ahead;
mod fault;
mod fetch;
mod first;
mod growing;
mod heads;
mod kept;
mod last;
mod law;
mod names;
mod reservoir;
mod stored;
mod view;
mod walk;

pub use fault::{ReservoirFault, past_fault};
pub use law::{law_spells, law_views};
pub use reservoir::Reservoir;
pub use stored::Stored;
pub use walk::{Stage, Walk};
