//! Values with how often each is there, in order.
#![tactic(auto)]

mod map;
mod pair_list;
mod ranked;
mod reading;
mod tally;
mod value;

pub use pair_list::PairList;
pub use ranked::Ranked;
pub use reading::{read_length, read_list, read_pairs};
pub use tally::Tally;
