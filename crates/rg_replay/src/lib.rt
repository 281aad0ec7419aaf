//! The stored payments answered again, by any queries, each by the payments up to and with it.
//!
//! A host comes in, whose file 2 is the log, and the plan of some queries over its columns; the lines are put
//! out payment by payment, as a run puts them. Upward: what is put is the text that the definitions give for the
//! log's events, each answer from scratch, and no file is written.
#![tactic(auto)]

mod fault;
mod law;
mod replaying;
mod stepping;
mod storing;
mod turning;
mod whole;
mod writing;

pub use fault::ReplayFault;
pub use law::law_same_as_run;
pub use replaying::replay;
pub use stepping::{Told, step};
pub use whole::law_whole_text;
