//! A task: what takes lines one after another and answers them, over a store that its caller knows only by
//! what images say to the runs of a plan. What comes in are cleaned lines and bytes to put; what goes out
//! are replies, and how far the events are stored. Upward: a task that runs answers each line as from
//! scratch, and at each moment of a call the images that a crash might leave are within a step of its store.
#![tactic(auto)]

mod fault;
mod task;

pub use fault::TaskFault;
pub use task::Task;
