//! Numbers in bytes and in text, and the words that the crates above share.
#![tactic(auto)]

mod memory;
mod number;
mod put;
mod reader;

pub use memory::Memory;
pub use number::{read_signed, read_whole, write_signed, write_whole};
pub use put::{put_bytes, put_i64, put_i128, put_u8, put_u32, put_u64};
pub use reader::{ByteReader, Short};
