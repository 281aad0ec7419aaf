//! A whole run: the lines of an input are answered in turn by a task, what is due is stored before the reply
//! to a line is put with its marks, and the end is put. What comes in are a plan, a source and a task over an
//! opened store; what goes out are the lines of the run's text. Upward: from a moment between two lines each
//! turn leads to the next one, and the end of the input to a store that has all events, with the whole text
//! put; and at each moment the image that a crash might leave and what was put are on the course of the run.
#![tactic(auto)]

mod ahead;
mod due;
mod fault;
mod finish;
mod gather;
mod load;
mod obey;
mod running;
mod save;
mod settle;
mod store;
mod tell;
mod telling;
mod text;
mod turn;
mod turning;

pub use due::{Due, due_at};
pub use fault::{RunFault, TurnFault};
pub use obey::due_asked;
pub use running::run;
pub use text::{write_end, write_turn};
pub use turn::{is_header, reply_to_long};
pub use turning::Turning;
