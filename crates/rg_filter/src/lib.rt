//! Which events a condition holds of.
#![tactic(auto)]

mod compare;
mod filter;

pub use filter::{Filter, passes};
pub use rg_metric::{Condition, Op};
