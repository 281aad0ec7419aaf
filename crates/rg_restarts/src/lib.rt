//! Runs of one input over one store, one behind the other, where all but the last are stopped.
//!
//! What comes in are the words, plan and input of a run, a host in memory, after how many of its calls
//! the run is stopped, and which of the bytes that were pending then are left. What goes out is the host
//! that a crash left then, or that of a second run over it. Upward: nothing that a run said is stored is
//! lost by either stop, a run over what is left goes on as one that was never stopped, and it may be
//! stopped again. No layer below is looked into: all follows from the clauses of `railgun` and of hosts.
#![tactic(auto)]

mod laws;
mod slice_source;
mod twice;

pub use laws::law_new_store;
pub use twice::{Stopped, run_stopped, run_twice};
