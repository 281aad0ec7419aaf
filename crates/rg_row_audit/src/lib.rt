//! Rows against payments: whether the rows of a checkpoint stand for the first payments of a log.
//!
//! A task plan, payments and a checkpoint come in; the least node with a wrong, a missing or an extra
//! row goes out. Upward: the answer is exact, by the relation that rows of the engine meet. Each
//! value is gathered anew by the definition, from window, condition and key of each payment: no edge
//! moves, no value is taken away again, and no table is asked. With the engine it shares the states of
//! the aggregators alone, which are made here by adding the values in order.
#![tactic(auto)]

mod asking;
mod check;
mod counting;
mod gathered;
mod gathering;
mod keeping;
mod law;

pub use check::check_rows;
pub use law::law_rows;
