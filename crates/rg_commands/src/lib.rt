//! The one call that does all: words, a plan, an input and a host go in, and what goes out are the text
//! that is put, the files of a store, and a status. Each command is a call of its own as well. Upward:
//! each call puts what the definitions give for its plan, store and input, at each moment and at its end,
//! and each status has its cause (`specs/Commands.antt` has a row for each command).
#![tactic(auto)]

mod call;
mod check_command;
mod command;
mod dump_command;
mod ending;
mod info_command;
mod last_line;
mod load;
mod refused;
mod replay_command;
mod run_command;
mod self_command;
mod verify_command;

pub use call::railgun;
pub use check_command::check;
pub use command::Command;
pub use dump_command::dump;
pub use info_command::info;
pub use replay_command::replay;
pub use run_command::run;
pub use self_command::{TrialFault, run_trial, selftest};
pub use verify_command::verify;
