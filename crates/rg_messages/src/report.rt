use crate::refusal::Refusal;
use crate::status::Status;
use std::{fmt, io};

/// The forms of the words, and the version.
const USAGE: &str =
    "usage: railgun run PLAN STORE [FIRST]\n       railgun replay PLAN STORE [FIRST]\n       railgun verify PLAN STORE\n       railgun check PLAN\n       railgun dump STORE\n       railgun info STORE\n       railgun self N SEED\nrailgun 0.1.0";

/// A file or stream that failed, and the system's reason.
#[derive(Clone, Copy)]
pub struct FailedFile<'a> {
    /// The path of the file's folder. It is empty where the name says all.
    pub folder: &'a str,
    pub name: &'a str,
    pub error: io::Error,
}

impl fmt::Display for FailedFile<'_> {
    fn fmt<W: fmt::Write>(&self, f: &mut fmt::Formatter<W>) -> fmt::Result {
        if !self.folder.is_empty() {
            write!(f, "{}/", self.folder)?;
        }
        write!(f, "{}: {}", self.name, self.error)
    }
}

/// What is said of a call that ended early: what went wrong, and where.
#[derive(Drop)]
pub struct Report<'a> {
    pub status: Status,
    /// The name of the plan's file.
    pub plan: &'a str,
    pub refusal: Option<Refusal>,
    pub failure: Option<FailedFile<'a>>,
}

impl fmt::Display for Report<'_> {
    fn fmt<W: fmt::Write>(&self, f: &mut fmt::Formatter<W>) -> fmt::Result {
        match self.status {
            Status::Usage => f.write_str(USAGE),
            Status::Plan => match &self.refusal {
                Some(refusal) => write!(f, "{}: {refusal}", self.plan),
                None => write!(f, "{}: the plan is refused", self.plan),
            },
            Status::Read | Status::Write | Status::Disk => match &self.failure {
                Some(failed) => write!(f, "{failed}"),
                None => f.write_str("a file or stream failed"),
            },
            Status::Limit => f.write_str(
                "the plan is longer than 65536 bytes, or the input than 1125899906842624",
            ),
            Status::Memory => f.write_str("out of memory"),
            Status::Store => f.write_str("the store is damaged, or isn't the plan's"),
            Status::Gap => f.write_str("the input begins behind what the store has"),
            Status::Differs => f.write_str("a checkpoint isn't what the events give"),
            Status::Ok => Ok(()),
        }
    }
}
