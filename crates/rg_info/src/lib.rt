//! What a store has: its events and frames, and the checkpoints of its slots.
//!
//! A host comes in, whose files 0 and 1 are the slots and whose file 2 is the log; six lines are put
//! out, once the whole log was read. Upward: what is put is the text that the definitions give for
//! the image, a damaged log puts nothing and is told, and no file is written.
#![tactic(auto)]

mod fault;
mod law;
mod print;
mod summary;
mod text;

pub use fault::InfoFault;
pub use law::law_info;
pub use print::info;
