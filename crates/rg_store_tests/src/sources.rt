ghost use Rattle.std.specs.Prelude.{None};

use crate::parts::{Part, joined};
use crate::rows::{Checks, Row, assert_each};
use rg_bytes::Memory;
use rg_host::{AllFault, Failed, Line, LineFault, Lines, MemSource, Source, read_all};
use std::alloc::Global;
use std::test::Fail;

/// A source that gives at most `piece` bytes a read. The read of number `fail` fails.
#[derive(Drop)]
struct Pieces<'a> {
    bytes: &'a [u8],
    piece: usize,
    fail: u64,
    reads: u64,
    failed: u64,
}

impl Source for Pieces<'_> {
    ghost left = { λ _. None };

    ghost faults = { λ source. source.failed };

    fn read(&mut self, buf: &mut [u8]) -> Result<usize, Failed> {
        let read = self.reads;
        self.reads = read.saturating_add(1);
        if read == self.fail {
            self.failed = self.failed.saturating_add(1);
            return Err(Failed);
        }
        let count = self.piece.min(buf.len()).min(self.bytes.len());
        buf[..count].copy_from_slice(&self.bytes[..count]);
        self.bytes = &self.bytes[count..];
        Ok(count)
    }
}

/// What comes of a source, or what is known of it.
#[derive(Clone, Copy)]
enum Step {
    /// A line of this text comes.
    Text(&'static [u8]),
    /// A line of the first so many bytes of the source.
    First(usize),
    /// A line that is too long.
    Long,
    /// The end.
    End,
    /// A failed read.
    Fault,
    /// Whether a line is held.
    Held(bool),
    /// How many reads there were.
    Reads(u64),
    /// How many of them failed.
    Failed(u64),
    /// All of the bytes are read up to this limit, of a source in memory.
    All(usize),
    /// They are above this limit.
    Above(usize),
    /// Up to this limit, a read fails.
    Unread(usize),
}

/// Whether this line comes next, or none, for a failed read.
fn is_next(
    lines: &mut Lines,
    source: &mut Pieces<'_>,
    want: Option<Line<'_>>,
    checks: &mut Checks,
) -> bool {
    match (lines.next(source), want) {
        (Ok(Line::Text(text)), Some(Line::Text(want))) => checks.same_bytes("line", text, want),
        (line, want) => checks.same("line", line, want.ok_or(LineFault::Read)),
    }
}

fn source_of(alloc: Global, bytes: &[u8], fail: u64) -> Result<MemSource, Memory> {
    let fail = [fail].to_vec(alloc)?;
    match bytes.to_vec(alloc) {
        Ok(bytes) => Ok(MemSource::new(bytes, fail)),
        Err(_) => Err(Memory),
    }
}

/// Whether all of these bytes are read of a source, or why not.
fn is_read(
    alloc: Global,
    source: &mut MemSource,
    bytes: &[u8],
    limit: usize,
    fault: Option<AllFault>,
    checks: &mut Checks,
) -> bool {
    match read_all(alloc, source, limit) {
        Ok(all) => {
            let is_all = checks.same_bytes("all bytes", &all, bytes);
            drop(all);
            is_all && checks.same("fault of read_all", None, fault)
        }
        Err(other) => checks.same("fault of read_all", Some(other), fault),
    }
}

/// Whether they are of a source in memory, whose read of that number fails.
fn reads(
    alloc: Global,
    bytes: &[u8],
    fail: u64,
    limit: usize,
    fault: Option<AllFault>,
    checks: &mut Checks,
) -> bool {
    match source_of(alloc, bytes, fail) {
        Ok(mut source) => {
            let is_read = is_read(alloc, &mut source, bytes, limit, fault, checks);
            drop(source);
            is_read
        }
        Err(_) => false,
    }
}

/// Bytes of a source, and what comes of it.
struct Given {
    bytes: &'static [Part],
    /// A read by lines gives at most so many.
    piece: usize,
    /// The number of the read that fails, counted from 0.
    fail: u64,
    steps: &'static [Step],
}

impl Given {
    /// Whether this comes next of the lines of a source of these bytes, or is so.
    fn comes(
        &self,
        alloc: Global,
        lines: &mut Lines,
        source: &mut Pieces<'_>,
        bytes: &[u8],
        step: &Step,
        checks: &mut Checks,
    ) -> bool {
        match step {
            Step::Text(text) => is_next(lines, source, Some(Line::Text(text)), checks),
            Step::First(count) => {
                let text = bytes.get(..*count).unwrap_or(b"");
                is_next(lines, source, Some(Line::Text(text)), checks)
            }
            Step::Long => is_next(lines, source, Some(Line::Long), checks),
            Step::End => is_next(lines, source, Some(Line::End), checks),
            Step::Fault => is_next(lines, source, None, checks),
            Step::Held(held) => checks.same("has_line", lines.has_line(), *held),
            Step::Reads(reads) => checks.same("reads", source.reads, *reads),
            Step::Failed(failed) => checks.same("failed reads", source.failed, *failed),
            Step::All(limit) => reads(alloc, bytes, self.fail, *limit, None, checks),
            Step::Above(limit) => reads(
                alloc,
                bytes,
                self.fail,
                *limit,
                Some(AllFault::Limit),
                checks,
            ),
            Step::Unread(limit) => reads(
                alloc,
                bytes,
                self.fail,
                *limit,
                Some(AllFault::Read),
                checks,
            ),
        }
    }

    /// Whether all comes so.
    fn come(&self, alloc: Global, lines: &mut Lines, bytes: &[u8], checks: &mut Checks) -> bool {
        let mut source = Pieces {
            bytes,
            piece: self.piece,
            fail: self.fail,
            reads: 0,
            failed: 0,
        };
        for (number, step) in self.steps.iter().enumerate() {
            let comes = self.comes(alloc, lines, &mut source, bytes, step, checks);
            if !checks.at(comes, "step", number) {
                return false;
            }
        }
        true
    }

    fn is_so_of(&self, alloc: Global, bytes: &[u8], checks: &mut Checks) -> Result<bool, Memory> {
        let mut lines = Lines::new(alloc)?;
        let do_come = self.come(alloc, &mut lines, bytes, checks);
        drop(lines);
        Ok(do_come)
    }
}

impl Row for Given {
    fn is_so(&self, alloc: Global, checks: &mut Checks) -> Result<bool, Memory> {
        let bytes = joined(alloc, self.bytes)?;
        let is_so = self.is_so_of(alloc, &bytes, checks);
        drop(bytes);
        is_so
    }
}

/// Sources that are read by lines, and such as are read whole.
const SOURCES: &[Given] = &[
    // Lines go over the borders of pieces.
    Given {
        bytes: &[Part::Bytes(b"one\n\nthree\nlast")],
        piece: 2,
        fail: 99,
        steps: &[
            Step::Text(b"one"),
            Step::Text(b""),
            Step::Text(b"three"),
            Step::Text(b"last"),
            Step::End,
            Step::End,
        ],
    },
    // The same lines come after a failed read.
    Given {
        bytes: &[Part::Bytes(b"one\ntwo\n")],
        piece: 2,
        fail: 1,
        steps: &[
            Step::Fault,
            Step::Text(b"one"),
            Step::Text(b"two"),
            Step::End,
        ],
    },
    // Nothing is read behind a last text.
    Given {
        bytes: &[Part::Bytes(b"a")],
        piece: 2,
        fail: 2,
        steps: &[
            Step::Text(b"a"),
            Step::End,
            Step::End,
            Step::Reads(2),
            Step::Failed(0),
        ],
    },
    // A line is held once its line feed has come.
    Given {
        bytes: &[Part::Bytes(b"one\ntwo\nla")],
        piece: 8,
        fail: 2,
        steps: &[
            Step::Held(false),
            Step::Text(b"one"),
            Step::Reads(1),
            Step::Held(true),
            Step::Text(b"two"),
            Step::Reads(1),
            Step::Held(false),
            Step::Fault,
            Step::Reads(3),
            Step::Held(false),
            Step::Text(b"la"),
            Step::Reads(4),
            Step::Held(false),
            Step::End,
            Step::Reads(4),
        ],
    },
    // A line of 65,535 bytes comes whole, and one of 65,536 as a long one.
    Given {
        bytes: &[
            Part::Times(65_535, b"a"),
            Part::Bytes(b"\n"),
            Part::Times(65_536, b"b"),
            Part::Bytes(b"\nc"),
        ],
        piece: 40_000,
        fail: 99,
        steps: &[Step::First(65_535), Step::Long, Step::Text(b"c"), Step::End],
    },
    // All of 10,000 bytes is read up to the limit, in two pieces and a last call that finds the end; one byte less is
    // too low a limit, and a failed call is told.
    Given {
        bytes: &[Part::Times(10_000, b"\x07")],
        piece: 1,
        fail: 3,
        steps: &[Step::All(10_000)],
    },
    Given {
        bytes: &[Part::Times(10_000, b"\x07")],
        piece: 1,
        fail: u64::MAX,
        steps: &[Step::Above(9_999)],
    },
    Given {
        bytes: &[Part::Times(10_000, b"\x07")],
        piece: 1,
        fail: 2,
        steps: &[Step::Unread(10_000)],
    },
];

#[test]
fn sources_give_their_lines_or_all_bytes(rt: HostRuntime) -> Result<(), Fail> {
    assert_each(&rt, SOURCES)
}
