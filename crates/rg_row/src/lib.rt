//! From a line to an event.
#![tactic(auto)]

mod ends;
mod fault;
mod line;
mod plain;
mod quotes;
mod row;
mod texts;
mod time;

pub use fault::RowFault;
pub use line::clean;
pub use row::read_row;
