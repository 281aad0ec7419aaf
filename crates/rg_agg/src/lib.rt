//! Aggregators whose states add at the back and take from the front.
#![tactic(auto)]

mod aggregate;
mod amount;
mod avg;
mod count;
mod fault;
mod first;
mod kinds;
mod last;
mod number;
mod reading;
mod sharing;
mod sum;
mod sum_sq;
mod total;
mod wide;

pub use aggregate::Aggregate;
pub use avg::Avg;
pub use count::Count;
pub use fault::{StateFault, Unfit};
pub use first::First;
pub use kinds::is_like;
pub use last::Last;
pub use number::Number;
pub use reading::{put_size, read_number, read_size};
pub use rg_metric::{Answer, Answers};
pub use sharing::kept_as;
pub use sum::Sum;
pub use sum_sq::SumSq;
