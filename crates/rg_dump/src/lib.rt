//! The dump of a log: the text of the schema in force at its end, and then a row of `csv` for each event.
//!
//! A host comes in, whose file 2 is the log. It is read twice: first for that schema and for the values of the growths, and
//! then the lines are put out, frame by frame. Upward: what is put is the text that the definitions give for the file's bytes,
//! the first damaged place ends it and is told, and no file is written.
#![tactic(auto)]

mod fault;
mod frames;
mod law;
mod row;
mod survey;
mod values;

pub use fault::DumpFault;
pub use frames::dump;
pub use law::law_dump;
