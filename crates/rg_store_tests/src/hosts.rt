ghost use Rattle.std.specs.Prelude.{◌<◌};

use crate::parts::Part;
use crate::rows::{Checks, Row, assert_each};
use crate::store::{Left, leaves, store};
use rg_bytes::Memory;
use rg_host::{Failed, FuseHost, Host, MemHost, Pick, put_all};
use std::alloc::Global;
use std::test::Fail;

/// What a call answers that fails.
const FAILS: u64 = u64::MAX;

/// A call on a host, of one of its files, and what it answers: 0 where it has no number to tell.
enum Call {
    Len(u64),
    /// Of four bytes from a place on; these then stand there where it doesn't fail.
    Read(u64, &'static [u8], u64),
    /// At the start of the file.
    Write(&'static [u8], u64),
    /// Behind the first two bytes of the file.
    WriteBehind(&'static [u8], u64),
    Sync(u64),
    Put(&'static [u8], u64),
    PutAll(&'static [u8], u64),
}

fn done(done: Result<(), Failed>) -> u64 {
    match done {
        Ok(()) => 0,
        Err(_) => FAILS,
    }
}

fn counted(count: Result<usize, Failed>) -> u64 {
    match count {
        Ok(count) => count as u64,
        Err(_) => FAILS,
    }
}

/// Whether so many of four bytes are read, and these stand there then.
fn reads<H: Host>(
    host: &mut H,
    file: u32,
    at: u64,
    bytes: &[u8],
    want: u64,
    checks: &mut Checks,
) -> bool
    requires { file < 8 }
{
    let mut buf = [0; 4];
    let count = counted(host.read_at(file, at, &mut buf));
    checks.same("count of a read", count, want)
        && (count == FAILS || checks.same_bytes("bytes of a read", &buf, bytes))
}

/// Whether a host answers so; a write behind two bytes is none of its calls.
fn answers<H: Host>(host: &mut H, file: u32, call: &Call, checks: &mut Checks) -> bool
    requires { file < 8 }
{
    match call {
        Call::Len(want) => checks.same("len", host.len(file).unwrap_or(FAILS), *want),
        Call::Read(at, bytes, want) => reads(host, file, *at, bytes, *want, checks),
        Call::Write(bytes, want) => {
            checks.same("write_at", done(host.write_at(file, 0, bytes)), *want)
        }
        Call::WriteBehind(..) => checks.fails("call", "write behind two bytes", "another"),
        Call::Sync(want) => checks.same("sync", done(host.sync(file)), *want),
        Call::Put(bytes, want) => checks.same("put", counted(host.put(bytes)), *want),
        Call::PutAll(bytes, want) => checks.same("put_all", done(put_all(host, bytes)), *want),
    }
}

/// Whether a fuse before a host answers so of file 1.
fn answers_by_fuse(fuse: &mut FuseHost<MemHost>, calls: &[Call], checks: &mut Checks) -> bool {
    for (number, call) in calls.iter().enumerate() {
        let do_answer = answers(fuse, 1, call, checks);
        if !checks.at(do_answer, "call", number) {
            return false;
        }
    }
    true
}

/// Whether two bytes of file 2 are there to write behind, and the write answers so.
fn answers_behind(host: &mut MemHost, bytes: &[u8], want: u64, checks: &mut Checks) -> bool {
    if host.file(2).len() < 2 {
        return checks.fails("bytes of file 2", host.file(2).len(), 2);
    }
    checks.same(
        "write_at behind two bytes",
        done(host.write_at(2, 2, bytes)),
        want,
    )
}

/// Whether a host in memory answers so of file 2.
fn answers_in_memory(host: &mut MemHost, calls: &[Call], checks: &mut Checks) -> bool {
    for (number, call) in calls.iter().enumerate() {
        let do_answer = match call {
            Call::WriteBehind(bytes, want) => answers_behind(host, bytes, *want, checks),
            _ => answers(host, 2, call, checks),
        };
        if !checks.at(do_answer, "call", number) {
            return false;
        }
    }
    true
}

/// A stop behind so many calls, and the bytes of file 2 that it leaves by a pick.
enum Stop {
    Old(u64, &'static [u8]),
    New(u64, &'static [u8]),
    Torn(u8, u64, &'static [u8]),
}

/// The bytes of file 2 that a stop leaves, where no call was made and nothing was put.
#[derive(Clone, Copy)]
struct Clean<'a> {
    bytes: &'a [u8],
}

impl Left for Clean<'_> {
    fn may_be(
        &mut self,
        _alloc: Global,
        left: &mut MemHost,
        _call: u64,
        checks: &mut Checks,
    ) -> bool {
        checks.same_bytes("file 2", left.file(2), self.bytes)
            && checks.same_bytes("output", left.output(), b"")
            && checks.same("calls", left.calls(), 0)
    }
}

/// Calls on a host, and what it has then.
#[derive(Clone, Copy)]
struct Called {
    /// How many calls a fuse before the host passes, where there is one.
    fuse: Option<u64>,
    /// From file 2 on.
    files: &'static [&'static [Part]],
    /// The numbers of the calls that fail.
    failing: &'static [u64],
    calls: &'static [Call],
    /// What it has then: the bytes of the file, what was put, and how many calls there were, how many of them were reads,
    /// and how many found no memory.
    bytes: &'static [u8],
    output: &'static [u8],
    count: u64,
    reads: u64,
    starved: u64,
    /// None where there is a fuse.
    stops: &'static [Stop],
}

/// Whether a host has what it should in that file, and nothing in file 7.
fn is_left(host: &MemHost, file: u32, called: &Called, checks: &mut Checks) -> bool
    requires { file < 8 }
{
    checks.same_bytes("the file", host.file(file), called.bytes)
        && checks.same_bytes("file 7", host.file(7), b"")
        && checks.same_bytes("output", host.output(), called.output)
        && checks.same("calls", host.calls(), called.count)
        && checks.same("reads", host.count_reads(), called.reads)
        && checks.same("starved calls", host.starved(), called.starved)
}

/// Whether a stop leaves these bytes, and nothing else.
fn leaves_bytes(
    alloc: Global,
    host: &MemHost,
    call: u64,
    pick: Pick,
    bytes: &'static [u8],
    checks: &mut Checks,
) -> bool {
    let mut clean = Clean { bytes };
    leaves(alloc, host, call, pick, &mut clean, checks)
}

fn leaves_so(alloc: Global, host: &MemHost, stop: &Stop, checks: &mut Checks) -> bool {
    match stop {
        Stop::Old(call, bytes) => leaves_bytes(alloc, host, *call, Pick::Old, bytes, checks),
        Stop::New(call, bytes) => leaves_bytes(alloc, host, *call, Pick::New, bytes, checks),
        Stop::Torn(byte, call, bytes) => {
            leaves_bytes(alloc, host, *call, Pick::Torn(*byte), bytes, checks)
        }
    }
}

fn leaves_each(alloc: Global, host: &MemHost, stops: &[Stop], checks: &mut Checks) -> bool {
    for stop in stops {
        if !leaves_so(alloc, host, stop, checks) {
            return false;
        }
    }
    true
}

/// Whether a host in memory does so.
fn does(alloc: Global, host: &mut MemHost, called: &Called, checks: &mut Checks) -> bool {
    answers_in_memory(host, called.calls, checks)
        && is_left(host, 2, called, checks)
        && leaves_each(alloc, host, called.stops, checks)
}

/// Whether a fuse of so many calls before a host does so; no stop is asked of it.
fn does_by_fuse(host: MemHost, calls: u64, called: &Called, checks: &mut Checks) -> bool {
    let mut fuse = FuseHost::new(host, calls);
    let do_answer = answers_by_fuse(&mut fuse, called.calls, checks);
    let host = fuse.into_inner();
    let is_left = is_left(&host, 1, called, checks);
    drop(host);
    do_answer && is_left && checks.same("stops of a fuse", called.stops.len(), 0)
}

impl Row for Called {
    fn is_so(&self, alloc: Global, checks: &mut Checks) -> Result<bool, Memory> {
        let mut host = store(alloc, 2, self.files, self.failing)?;
        match self.fuse {
            Some(calls) => Ok(does_by_fuse(host, calls, self, checks)),
            None => {
                let does = does(alloc, &mut host, self, checks);
                drop(host);
                Ok(does)
            }
        }
    }
}

/// A host with the bytes 1, 2, 3 in file 2.
const OF_THREE: Called = Called {
    fuse: None,
    files: &[&[Part::Bytes(&[1, 2, 3])]],
    failing: &[],
    calls: &[],
    bytes: b"",
    output: b"",
    count: 0,
    reads: 0,
    starved: 0,
    stops: &[],
};

/// A fuse of two calls before an empty host.
const FUSE: Called = Called {
    fuse: Some(2),
    files: &[],
    ..OF_THREE
};

/// One call on such a fuse.
const ONE: Called = Called { count: 1, ..FUSE };

/// Hosts in memory that are called, and stopped, and fuses before them.
const HOSTS: &[Called] = &[
    // Each call does its work with ample memory.
    Called {
        calls: &[
            Call::Len(3),
            Call::WriteBehind(&[7, 8], 0),
            Call::Read(1, &[2, 7, 8, 0], 3),
            Call::Sync(0),
            Call::Put(b"stored 1\n", 9),
        ],
        bytes: &[1, 2, 7, 8],
        output: b"stored 1\n",
        count: 5,
        reads: 1,
        starved: 0,
        ..OF_THREE
    },
    // A listed call fails and does nothing.
    Called {
        failing: &[0, 1, 2, 3, 5],
        calls: &[
            Call::Len(FAILS),
            Call::Read(0, &[0, 0, 0, 0], FAILS),
            Call::Write(&[9], FAILS),
            Call::Sync(FAILS),
            Call::PutAll(b"stored 1\n", 0),
            Call::PutAll(b"stored 2\n", FAILS),
            Call::PutAll(b"stored 3\n", 0),
        ],
        bytes: &[1, 2, 3],
        output: b"stored 1\nstored 3\n",
        count: 7,
        reads: 1,
        starved: 0,
        ..OF_THREE
    },
    // A stop leaves what was settled, and of the rest what the pick says.
    Called {
        calls: &[
            Call::Write(&[1, 2, 7, 8], 0),
            Call::Put(b"stored 1\n", 9),
            Call::Sync(0),
            Call::Write(&[9], 0),
        ],
        bytes: &[9, 2, 7, 8],
        output: b"stored 1\n",
        count: 4,
        reads: 0,
        starved: 0,
        stops: &[
            // Before the first write, after the put, after the sync, and after the last write.
            Stop::New(0, &[1, 2, 3]),
            Stop::Old(2, &[1, 2, 3]),
            Stop::New(2, &[1, 2, 7, 8]),
            Stop::Torn(5, 2, &[5, 5, 5, 5]),
            Stop::Old(3, &[1, 2, 7, 8]),
            Stop::Torn(5, 3, &[1, 2, 7, 8]),
            Stop::Old(4, &[1, 2, 7, 8]),
            Stop::Torn(5, 4, &[5, 2, 7, 8]),
            Stop::New(4, &[9, 2, 7, 8]),
        ],
        ..OF_THREE
    },
    // A fuse of two calls passes two.
    Called {
        calls: &[
            Call::Write(&[4], 0),
            Call::Sync(0),
            Call::Len(FAILS),
            Call::Write(&[5], FAILS),
        ],
        bytes: &[4],
        count: 2,
        ..FUSE
    },
    // Each of the five calls is one call on the other host.
    Called {
        calls: &[Call::Len(0)],
        ..ONE
    },
    Called {
        calls: &[Call::Read(0, &[0, 0, 0, 0], 0)],
        reads: 1,
        ..ONE
    },
    Called {
        calls: &[Call::Write(&[4], 0)],
        bytes: &[4],
        ..ONE
    },
    Called {
        calls: &[Call::Sync(0)],
        ..ONE
    },
    Called {
        calls: &[Call::Put(b"a", 1)],
        output: b"a",
        ..ONE
    },
    // A fuse of no calls passes no put.
    Called {
        fuse: Some(0),
        calls: &[Call::Put(b"a", FAILS)],
        ..FUSE
    },
];

#[test]
fn hosts_answer_calls_and_leave_what_a_pick_says(rt: HostRuntime) -> Result<(), Fail> {
    assert_each(&rt, HOSTS)
}
