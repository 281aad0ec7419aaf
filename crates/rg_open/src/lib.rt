//! The opening of a store. In come a host, a plan and a table without a row; out come a reservoir over
//! the log and an engine that stands for its events, and from where that went on. Upward: what an
//! earlier run left is settled first; each image that a crash might leave on the way is truthful where
//! those at the start were, and has the same events; no more is passed again than what lies behind the
//! fit checkpoint of the greatest count.
//!
//! In `specs/`, `Truth` says when an image of the files is truthful, `Stores` what images say to the runs of
//! a plan, and `Opened` when a reservoir and an engine are in step with the files. The laws of `store` say
//! that each image that a commit, a save or an opening may leave is truthful and has the events that it
//! should; none of them does anything when it is called.
#![tactic(auto)]

mod fault;
mod finding;
mod law;
mod opening;
mod settling;
mod starting;
mod store;

pub use fault::OpenFault;
pub use law::law_from;
pub use opening::{Opened, Resumed, open_store};
pub use settling::settle;
pub use store::{law_checkpoints, law_steps, law_truthful};
