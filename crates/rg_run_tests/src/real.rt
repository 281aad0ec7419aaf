ghost use Rattle.std.specs.Prelude.{◌<◌};

use crate::rows::{Checks, Row, assert_each};
use rg_bytes::Memory;
use rg_host::{Failed, Host, Source};
use rg_os::{Access, Failure, FileSource, FolderHost, ReaderSource};
use std::io::{Read, Write};
use std::os::unix::fs::symlink;
use std::rt::Files;
use std::test::Fail;
use std::{fs, io};

/// Gives and takes one byte a call, but fails at its second.
#[derive(Drop)]
struct FailsOnce {
    calls: u8,
}

impl FailsOnce {
    fn call(&mut self, length: usize) -> io::Result<usize> {
        self.calls = self.calls.saturating_add(1);
        if self.calls == 2 {
            return Err(io::Error::from_raw_os_error(5));
        }
        Ok(length.min(1))
    }
}

impl Read for FailsOnce {
    fn read(&mut self, buf: &mut [u8]) -> io::Result<usize> {
        let count = self.call(buf.len())?;
        Ok(count.min(buf.len()))
    }
}

impl Write for FailsOnce {
    fn write(&mut self, buf: &[u8]) -> io::Result<usize> {
        let count = self.call(buf.len())?;
        Ok(count.min(buf.len()))
    }

    fn flush(&mut self) -> io::Result<()> {
        Ok(())
    }
}

/// The number of the system's error.
fn number_of(failure: Option<Failure<'_>>) -> Option<i32> {
    match failure {
        Some(failure) => failure.error.raw_os_error(),
        None => None,
    }
}

/// A source that tells why a read failed.
trait Telling: Source {
    /// The number of the system's error of the last read that failed.
    fn number(&self) -> Option<i32>;
}

impl<R: Read + Drop> Telling for ReaderSource<R> {
    fn number(&self) -> Option<i32> {
        number_of(self.failure())
    }
}

impl<R: Files> Telling for FileSource<'_, R> {
    fn number(&self) -> Option<i32> {
        number_of(self.failure())
    }
}

/// A read into four bytes of which two or all are lent, what it answers, what they then are, and the number of the
/// error of the last read that failed.
#[derive(Clone, Copy)]
struct Reading {
    is_wide: bool,
    count: Result<usize, Failed>,
    bytes: &'static [u8],
    number: Option<i32>,
}

/// Four bytes into which none was read.
const NONE: &[u8] = &[0; 4];

/// The end.
const END: Reading = Reading {
    is_wide: false,
    count: Ok(0),
    bytes: NONE,
    number: None,
};

fn is_read(source: &mut impl Telling, reading: &Reading, checks: &mut Checks) -> bool {
    let mut buf = [0; 4];
    let count = if reading.is_wide {
        source.read(&mut buf)
    } else {
        source.read(&mut buf[..2])
    };
    checks.same("count of a read", count, reading.count)
        && checks.same_bytes("bytes of a read", &buf, reading.bytes)
        && checks.same("error of a read", source.number(), reading.number)
}

fn all_are_read(source: &mut impl Telling, all: &[Reading], checks: &mut Checks) -> bool {
    for (number, reading) in all.iter().enumerate() {
        let is_read = is_read(source, reading, checks);
        if !checks.at(is_read, "read", number) {
            return false;
        }
    }
    true
}

/// Whether a source gives all of these, one after the other.
fn gives<S: Telling + Drop>(mut source: S, all: &[Reading], checks: &mut Checks) -> bool {
    let are_read = all_are_read(&mut source, all, checks);
    drop(source);
    are_read
}

/// A call on a host over a folder, and what it answers.
#[derive(Clone, Copy)]
enum HostCall {
    Length(u32, Result<u64, Failed>),
    /// A read into four bytes of the file, from the place on, and what they then are.
    Read(u32, u64, Result<usize, Failed>, &'static [u8]),
    Write(u32, u64, &'static [u8], Result<(), Failed>),
    Sync(u32, Result<(), Failed>),
    /// And the number of the error of the last put that failed.
    Put(&'static [u8], Result<usize, Failed>, Option<i32>),
    /// The last call on a file that failed was on this one.
    HasFailed(&'static str),
}

/// A host over a folder, whose output fails once.
type Folder<'a> = FolderHost<'a, HostRuntime, FailsOnce>;

fn reads(
    host: &mut Folder<'_>,
    file: u32,
    at: u64,
    count: Result<usize, Failed>,
    bytes: &[u8],
    checks: &mut Checks,
) -> bool
    requires { file < 8 }
{
    let mut buf = [0; 4];
    checks.same("count of a read", host.read_at(file, at, &mut buf), count)
        && checks.same_bytes("bytes of a read", &buf, bytes)
}

/// Whether the last call on a file that failed was on this one.
fn has_failed(host: &Folder<'_>, name: &str, checks: &mut Checks) -> bool {
    match host.disk_failure() {
        Some(failure) => checks.same("file of the failure", failure.name, name),
        None => checks.fails("file of the failure", "none", name),
    }
}

fn answers(host: &mut Folder<'_>, call: &HostCall, checks: &mut Checks) -> bool {
    match *call {
        HostCall::Length(file, wanted) => file < 8 && checks.same("len", host.len(file), wanted),
        HostCall::Read(file, at, count, bytes) => {
            file < 8 && reads(host, file, at, count, bytes, checks)
        }
        HostCall::Write(file, at, bytes, wanted) => {
            file < 8 && checks.same("write_at", host.write_at(file, at, bytes), wanted)
        }
        HostCall::Sync(file, wanted) => file < 8 && checks.same("sync", host.sync(file), wanted),
        HostCall::Put(bytes, wanted, number) => {
            checks.same("put", host.put(bytes), wanted)
                && checks.same("error of a put", number_of(host.failure()), number)
        }
        HostCall::HasFailed(name) => has_failed(host, name, checks),
    }
}

fn answers_all(host: &mut Folder<'_>, calls: &[HostCall], checks: &mut Checks) -> bool {
    for (number, call) in calls.iter().enumerate() {
        let do_answer = answers(host, call, checks);
        if !checks.at(do_answer, "call", number) {
            return false;
        }
    }
    true
}

/// A change to the folder that a test runs in.
#[derive(Clone, Copy)]
enum Change {
    /// A folder is made.
    Make(&'static str),
    /// A file is written.
    Fill(&'static str, &'static [u8]),
    /// A link to the first is made.
    Link(&'static str, &'static str),
    /// The first gets a second name.
    Name(&'static str, &'static str),
    /// A name is removed.
    Remove(&'static str),
}

fn make(rt: &HostRuntime, change: Change) -> io::Result<()> {
    match change {
        Change::Make(path) => fs::create_dir(rt, path),
        Change::Fill(path, bytes) => fs::write(rt, path, bytes),
        Change::Link(to, path) => symlink(rt, to, path),
        Change::Name(first, path) => fs::hard_link(rt, first, path),
        Change::Remove(path) => fs::remove_file(rt, path),
    }
}

/// What is looked at.
#[derive(Clone, Copy)]
enum Look {
    Nothing,
    /// What a reader of bytes in memory gives.
    Bytes(&'static [u8], &'static [Reading]),
    /// What a reader that fails once gives.
    Failing(&'static [Reading]),
    /// What a file gives.
    File(&'static str, &'static [Reading]),
    /// What a host over a folder answers.
    Host(&'static str, Access, &'static [HostCall]),
    /// That there is no such folder.
    Missing(&'static str),
    /// That a change is made.
    Changed(Change),
}

/// Whether a host over a folder answers all of these, one after the other.
fn visits(
    rt: &HostRuntime,
    folder: &str,
    access: Access,
    calls: &[HostCall],
    checks: &mut Checks,
) -> bool {
    let mut host = FolderHost::new(rt, rt.alloc(), folder, access, FailsOnce { calls: 0 });
    answers_all(&mut host, calls, checks)
}

fn is_seen(rt: &HostRuntime, look: Look, checks: &mut Checks) -> bool {
    match look {
        Look::Nothing => true,
        Look::Bytes(bytes, all) => gives(ReaderSource::new(bytes), all, checks),
        Look::Failing(all) => gives(ReaderSource::new(FailsOnce { calls: 0 }), all, checks),
        Look::File(path, all) => gives(FileSource::new(rt, path), all, checks),
        Look::Host(folder, access, calls) => visits(rt, folder, access, calls, checks),
        Look::Missing(path) => checks.same("exists", fs::exists(rt, path).ok(), Some(false)),
        Look::Changed(change) => checks.same("a change is made", make(rt, change).is_ok(), true),
    }
}

/// Calls on a host over a folder that is to be written, which isn't made where there are none, and what is seen while
/// the host is there.
#[derive(Clone, Copy)]
struct Step {
    folder: &'static str,
    calls: &'static [HostCall],
    look: Look,
}

const STEP: Step = Step {
    folder: "none",
    calls: &[],
    look: Look::Nothing,
};

impl Row for Step {
    fn is_so(&self, rt: HostRuntime, checks: &mut Checks) -> Result<bool, Memory> {
        let writer = FailsOnce { calls: 0 };
        let mut host = FolderHost::new(&rt, rt.alloc(), self.folder, Access::Write, writer);
        let answers = answers_all(&mut host, self.calls, checks);
        let is_seen = is_seen(&rt, self.look, checks);
        Ok(answers && is_seen)
    }
}

const SOURCES: &[Step] = &[
    // three bytes, two at a time, and then their end
    Step {
        look: Look::Bytes(
            b"abc",
            &[
                Reading {
                    count: Ok(2),
                    bytes: b"ab\0\0",
                    ..END
                },
                Reading {
                    count: Ok(1),
                    bytes: b"c\0\0\0",
                    ..END
                },
                END,
            ],
        ),
        ..STEP
    },
    // the second one of three reads fails, and alone
    Step {
        look: Look::Failing(&[
            Reading {
                count: Ok(1),
                ..END
            },
            Reading {
                count: Err(Failed),
                number: Some(5),
                ..END
            },
            Reading {
                count: Ok(1),
                number: Some(5),
                ..END
            },
        ]),
        ..STEP
    },
    // a file that is missing fails
    Step {
        look: Look::File(
            "no such file",
            &[Reading {
                count: Err(Failed),
                number: Some(2),
                ..END
            }],
        ),
        ..STEP
    },
    // a log of three bytes is read as a file, up to its end
    Step {
        folder: "given",
        calls: &[
            HostCall::Write(2, 0, b"abc", Ok(())),
            HostCall::Sync(2, Ok(())),
        ],
        look: Look::File(
            "given/events",
            &[
                Reading {
                    is_wide: true,
                    count: Ok(3),
                    bytes: b"abc\0",
                    ..END
                },
                Reading {
                    is_wide: true,
                    ..END
                },
            ],
        ),
    },
];

#[test]
fn a_source_gives_its_bytes_and_then_its_end_or_a_failure(rt: HostRuntime) -> Result<(), Fail> {
    assert_each(&rt, rt, SOURCES)
}

const HOSTS: &[Step] = &[
    // the second one of three puts fails, and alone, and is told
    Step {
        look: Look::Host(
            "no such folder",
            Access::Read,
            &[
                HostCall::Put(b"ab", Ok(1), None),
                HostCall::Put(b"b", Err(Failed), Some(5)),
                HostCall::Put(b"b", Ok(1), Some(5)),
            ],
        ),
        ..STEP
    },
    // what is written is read again by its writer, and by another
    Step {
        folder: "written",
        calls: &[
            HostCall::Length(2, Ok(0)),
            HostCall::Write(2, 0, b"abc", Ok(())),
            HostCall::Sync(2, Ok(())),
            HostCall::Write(2, 1, b"xyz", Ok(())),
            HostCall::Sync(2, Ok(())),
            HostCall::Read(2, 1, Ok(3), b"xyz\0"),
        ],
        look: Look::Host(
            "written",
            Access::Read,
            &[
                HostCall::Length(2, Ok(4)),
                HostCall::Length(0, Ok(0)),
                HostCall::Read(2, 0, Ok(4), b"axyz"),
            ],
        ),
    },
    // a folder that is missing reads as empty, and takes nothing, which is told, and isn't made by a reader
    Step {
        look: Look::Host(
            "unmade",
            Access::Read,
            &[
                HostCall::Length(2, Ok(0)),
                HostCall::Read(2, 0, Ok(0), NONE),
                HostCall::Write(2, 0, b"a", Err(Failed)),
                HostCall::Sync(2, Err(Failed)),
                HostCall::HasFailed("events"),
            ],
        ),
        ..STEP
    },
    Step {
        look: Look::Missing("unmade"),
        ..STEP
    },
    // a store is written by one host at a time
    Step {
        folder: "held",
        calls: &[HostCall::Sync(0, Ok(()))],
        look: Look::Host("held", Access::Write, &[HostCall::Length(2, Err(Failed))]),
    },
    Step {
        folder: "held",
        calls: &[HostCall::Length(2, Ok(0))],
        ..STEP
    },
    // a write past the greatest place fails, and leaves the log
    Step {
        folder: "long",
        calls: &[
            HostCall::Write(2, 1 << 62, b"a", Err(Failed)),
            HostCall::Length(2, Ok(0)),
        ],
        ..STEP
    },
];

#[test]
fn a_host_over_a_folder_answers_and_fails_as_the_system_does(rt: HostRuntime) -> Result<(), Fail> {
    assert_each(&rt, rt, HOSTS)
}

/// Each call on this file of this folder fails for a writer and for a reader, and is told.
macro_rules! refused {
    ($folder:literal, $file:literal, $name:literal) => {
        Step {
            folder: $folder,
            calls: &[
                HostCall::Write($file, 0, b"a", Err(Failed)),
                HostCall::Sync($file, Err(Failed)),
                HostCall::HasFailed($name),
            ],
            look: Look::Host(
                $folder,
                Access::Read,
                &[
                    HostCall::Length($file, Err(Failed)),
                    HostCall::Read($file, 0, Err(Failed), NONE),
                    HostCall::HasFailed($name),
                ],
            ),
        }
    };
}

/// A change that is made.
macro_rules! changed {
    ($change:expr) => {
        Step {
            look: Look::Changed($change),
            ..STEP
        }
    };
}

const ODD_FILES: &[Step] = &[
    // a link to a file, and one to nothing
    changed!(Change::Make("linked")),
    changed!(Change::Fill("linked/other", b"abc")),
    changed!(Change::Link("other", "linked/slot0")),
    changed!(Change::Link("nowhere", "linked/slot1")),
    // a file with two names
    changed!(Change::Make("twice")),
    changed!(Change::Fill("twice/events", b"abc")),
    changed!(Change::Name("twice/events", "twice/slot1")),
    // a folder in place of a file
    changed!(Change::Make("odd")),
    changed!(Change::Make("odd/events")),
    refused!("linked", 0, "slot0"),
    refused!("linked", 1, "slot1"),
    refused!("twice", 1, "slot1"),
    refused!("twice", 2, "events"),
    refused!("odd", 2, "events"),
    // nothing was written, and with one name the file is taken
    changed!(Change::Remove("twice/slot1")),
    Step {
        folder: "twice",
        calls: &[HostCall::Length(2, Ok(3))],
        ..STEP
    },
];

#[test]
fn what_is_no_plain_file_with_one_name_is_refused(rt: HostRuntime) -> Result<(), Fail> {
    assert_each(&rt, rt, ODD_FILES)
}
