//! What is put out for a plan alone: its queries as they are printed, and then its task plan, a line each.
//!
//! A plan that was read and a host come in. Upward: what is put is the text that the definitions give
//! for the plan, or where the call ends early nothing, or a prefix of it after a failed put; no file is
//! written.
#![tactic(auto)]

mod checking;
mod fault;
mod listing;

pub use checking::check;
pub use fault::CheckFault;
