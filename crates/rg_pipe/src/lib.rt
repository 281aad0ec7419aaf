//! Requests in frames, in whatever pieces they come. What comes in are pieces of a stream of bytes; what goes out are
//! its requests, in order, each once. Upward: the requests that are handed out are those of the stream's grammar,
//! wherever the stream is cut, and a stream that begins no request, or ends within one, is refused at its first byte.
#![tactic(auto)]

mod assembly;
mod buffer;
mod fault;
mod judge;
mod law;
mod pipe;
mod progress;
mod request;

pub use fault::PipeFault;
pub use law::{law_next, law_pieces, law_stream};
pub use pipe::Pipe;
pub use request::{Request, Whole};
