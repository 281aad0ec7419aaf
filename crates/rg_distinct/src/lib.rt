//! How many values differ, exact as values come and go.
#![tactic(auto)]

mod distinct;

pub use distinct::Distinct;
pub use rg_agg::Aggregate;
