//! The outside: a source of bytes and its lines, and a host with files and an output.
//!
//! Bytes come in by `Source`, whole or as `Lines`; files are read and written and lines are put by
//! `Host`. Upward it promises what each call took, wrote and put, also where it failed, and for
//! each moment which images of the files a crash could have left, with what had been put then.
//! `MemSource`, `MemHost` and `FuseHost` are the outside in memory, with calls that fail.
#![tactic(auto)]

mod buffer;
mod call;
mod call_trace;
mod count;
mod file_list;
mod fuse_host;
mod host;
mod image;
mod lines;
mod memory_host;
mod memory_source;
mod pick;
mod replay;
mod scanner;
mod source;

pub use fuse_host::FuseHost;
pub use host::{Host, put_all};
pub use image::Image;
pub use lines::{Line, LineFault, Lines};
pub use memory_host::MemHost;
pub use memory_source::MemSource;
pub use pick::Pick;
pub use source::{AllFault, Failed, Source, read_all};
