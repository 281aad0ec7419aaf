//! The parts of a trial of the whole program on lines that are made from a seed.
//!
//! What comes in are a number of lines and a seed, and then the text of a run. What goes out are the made
//! lines as one input, the plan of the trial, and four numbers: the lines, the accepted events, and the bytes
//! of the run's text and their sum. Upward: of the text that the definitions give the numbers are those that
//! it has, and a host is put exactly their four lines.
#![tactic(auto)]

mod fault;
mod input;
mod number;
mod printing;
mod trials;

pub use fault::PrintFault;
pub use input::{made_input, plan_bytes};
pub use printing::print;
pub use trials::{Trial, count};
