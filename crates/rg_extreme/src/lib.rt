//! The least and the greatest of values that come at the back and go from the front. A state keeps only those values that
//! no later one beats, equal neighbours as one pair of a value and a count: a value that comes takes the pairs that it
//! beats off the back, and one that goes lowers the first pair's count where it is that pair's value. So a run of additions
//! takes off no more pairs than there were values, and a removal takes no memory.
#![tactic(auto)]

mod deque;
mod max;
mod min;
mod pairs;
mod reading;
mod side;

pub use max::Max;
pub use min::Min;
pub use rg_agg::Aggregate;
