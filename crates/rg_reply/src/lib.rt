//! The text of replies and marks. A `Reply` is what a line is answered with: its answers, or why it was
//! refused.
#![tactic(auto)]

mod mark;
mod part;
mod reply;

pub use mark::{Mark, write_mark};
pub use reply::{Reply, write_reply};
