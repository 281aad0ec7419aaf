//! From a query's text to what it asks, and back.
#![tactic(auto)]

mod building;
mod fault;
mod kinds;
mod names;
mod parsing;
mod printing;
mod spans;

pub use fault::QueryFault;
pub use parsing::parse;
pub use printing::{column_name, print, print_agg, print_condition};
pub use rg_metric::{Agg, Aggs, Columns, Func, Query, Window};
