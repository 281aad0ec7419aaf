//! The requests of an input are answered in frames, over a task: each by one reply. What comes in are a plan, a source
//! and a task over an opened store; what goes out are the frames of the replies. Upward: from a moment between two
//! requests each leads to the next one, and the end of the input to a store that has all events, with all replies put;
//! and at each moment whole frames say no more than the image has that a crash might leave.
#![tactic(auto)]

mod asked;
mod decided;
mod ending;
mod fault;
mod frame;
mod gather;
mod intake;
mod line;
mod load;
mod next;
mod opening;
mod plain;
mod reading;
mod request;
mod row;
mod running;
mod settle;
mod step;
mod tell;
mod turn;

pub use ending::finish;
pub use fault::ServeFault;
pub use intake::Intake;
pub use opening::open_serve;
pub use request::answer_request;
pub use running::serve;
