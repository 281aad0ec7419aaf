//! Checkpoints: the spots and rows of an engine after some events, their bytes, and the two slots
//! that hold them. What comes in are a payload, or the queries, spots and table of an engine, and a
//! host; what goes out are a checkpoint and its payload. Upward: a payload says one checkpoint and
//! is read exactly where it says one; at every moment of a save the kept slot is as it was, and the
//! other one holds its old checkpoint, none, or the new one; at every moment of an extension by
//! changes that apply, the slot holds its old checkpoint or the new one.
#![tactic(auto)]

mod applying;
mod base;
mod decode;
mod encode;
mod fault;
mod law;
mod sizes;
mod slot;
mod slot_law;
mod slots;
mod update;

pub use applying::apply_changes;
pub use base::{Checkpoint, Row, Rows};
pub use decode::decode_checkpoint;
pub use encode::{encode_changes, encode_checkpoint};
pub use fault::{CheckpointFault, SlotFault};
pub use law::law_changes;
pub use rg_event::Texts;
pub use rg_past::{Spot, Spots};
pub use rg_state::{AggState, Key, Table, TableFault};
pub use sizes::SlotSizes;
pub use slot_law::law_slots;
pub use slots::Slots;
