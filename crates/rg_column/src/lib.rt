//! Columns of events: the bytes of a list of events, column by column. The offsets come first, then the times, then
//! each column of the schema. A column of numbers is its least value, a width, and how far each number is above the
//! least, in as few bytes as hold the greatest distance. Upward: what is read is exactly what the bytes say, each
//! fault is named at its column, and what is written is read back, whatever follows.
#![tactic(auto)]

mod columns;
mod fault;
mod numbers;
mod rows;
mod series;
mod values;
mod width;

pub use columns::{decode_columns, encode_columns};
pub use fault::ColumnFault;
pub use series::Series;
pub use width::Width;
