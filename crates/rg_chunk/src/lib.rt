//! Chunks of events: up to 4,096 events as one payload, which is written by columns, and read as rows or by columns.
//! An open chunk takes events in memory and writes their payload; a chunk is the events that a payload says, and its
//! head can be read alone. Upward: what is read is exactly what the payload says, each fault of the payload is named
//! as one, and what is written is read back.
#![tactic(auto)]

mod chunk;
mod fault;
mod head;
mod legal;
mod longer;
mod open;
mod written;

pub use chunk::Chunk;
pub use fault::ChunkFault;
pub use head::{ChunkHead, Layout, read_head};
pub use open::OpenChunk;
pub use written::Written;
