//! An index of slots by key: guesses in buckets, and a map of those that found no place.
#![tactic(auto)]

mod guess;
mod index;

pub use guess::slot_of;
pub use index::SlotIndex;
