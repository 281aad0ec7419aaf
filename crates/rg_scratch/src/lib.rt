//! Made lines, and answers that are worked out anew.
//!
//! `make_line` makes the lines of a large trial from a seed. `answer_from_scratch` answers an event by a
//! walk over all events for each aggregator of each query. It shares no code with the engine, which it
//! is to be compared with.
#![tactic(auto)]

mod answer;
mod asking;
mod comparing;
mod counting;
mod folding;
mod line;
mod sorting;
mod tally;

pub use answer::answer_from_scratch;
pub use line::make_line;
