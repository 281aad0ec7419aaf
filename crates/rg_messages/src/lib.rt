//! How a call of the program ends, and what standard error says of it.
//!
//! A status and what went wrong come in. Upward: the number and the last line of each status are those of the
//! definitions. What standard error says, the forms of the words, where a plan is refused, and which file
//! failed with the system's reason, is tested and promised by no clause.
#![tactic(auto)]

mod refusal;
mod report;
mod status;

pub use refusal::{Refusal, TomlFault};
pub use report::{FailedFile, Report};
pub use status::Status;
