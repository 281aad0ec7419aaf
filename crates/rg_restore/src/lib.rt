//! An engine that goes on from a checkpoint. In come a past, a task plan, a table without a row and
//! what the two slots hold; out comes an engine that stands for all events of the past, and from
//! where it went on. Upward: whichever checkpoint is used, the newer one, the older one or none, the
//! engine stands for the same events, and only what lies behind the checkpoint is passed again. An
//! unfit checkpoint is passed over, and a checkpoint is judged whole before its first row is used.
#![tactic(auto)]

mod choosing;
mod fitting;
mod going;
mod judging;
mod law;
mod names;
mod restoring;
mod resuming;
mod rows;
mod starting;
mod stored_names;
mod vec_names;

pub use choosing::Saved;
pub use fitting::fits_plan;
pub use law::{law_carries, law_fit, law_saved, law_stands};
pub use names::Names;
pub use restoring::restore;
pub use resuming::{Origin, resume};
pub use rg_checkpoint::{Checkpoint, Row, Rows};
pub use starting::start;
