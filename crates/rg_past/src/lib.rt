//! The events so far, read through spots.
//!
//! Events come in one after another, and come out again at a spot, which says an event's number and where it
//! is stored. Over a sound past each spelled spot shows the list's event; a past that goes on keeps its events
//! and its spelled spots.
#![tactic(auto)]

mod past;
mod spots;
mod vec_past;

pub use past::{Past, PastFault, Spot};
pub use spots::Spots;
pub use vec_past::VecPast;
