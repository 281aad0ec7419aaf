//! The real outside: a file and a reader as sources, and a host over a folder and a writer.
//!
//! std's files and streams come in. Upward: what std gives for a call is the answer, or the call
//! has failed, is counted, and why the last one did is kept; where the folder is only read each
//! write and each sync fails; once a sync of a file failed each later one of it does; and no write
//! past a file's greatest place succeeds. Nothing is told of the bytes themselves: that std's calls
//! do what `Source` and `Host` say is believed.
#![tactic(auto)]

mod counted;
mod failures;
mod files;
mod first_line;
mod folder;
mod open_files;
mod place;
mod progress;
mod source;

pub use counted::Counted;
pub use failures::Failure;
pub use files::{Access, Hold};
pub use first_line::FirstLine;
pub use folder::FolderHost;
pub use source::{FileSource, ReaderSource};
