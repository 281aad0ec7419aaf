//! Frames in a file of a host: each payload stands behind a gate, which is opened once the frame
//! and a closed gate behind it are on the disk. What comes in are payloads and a host; what goes
//! out are the payloads of a file up to its first closed gate. Upward: whatever fails and wherever
//! a run stops, an append leaves the old frame list or that and the new payload, a clear leaves the
//! old one or none, and neither touches another file or the output.
#![tactic(auto)]

mod fault;
mod law;
mod log;
mod look;
mod write;

pub use fault::FrameFault;
pub use law::{law_frames, law_places};
pub use log::{FrameLog, Head};
