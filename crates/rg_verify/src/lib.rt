//! Checkpoints held against the payments: whether each slot of a store is what its log gives.
//!
//! A host comes in, whose files 0 and 1 are the slots and whose file 2 is the log, and the columns, their
//! defaults and the queries of a plan; a line for each slot is put out, once the whole log was read. Upward:
//! what is put is the text that the definitions give for the log's payments and the two checkpoints, where the
//! payments have the defaults of the columns that the log lacks; a damaged log is told by its first damaged
//! place and puts nothing, and no file is written.
#![tactic(auto)]

mod fault;
mod finding;
mod fitting;
mod judging;
mod longer;
mod payments;
mod store;
mod text;
mod verdict;

pub use fault::VerifyFault;
pub use store::verify;
pub use verdict::Verdict;
