ghost use Rattle.std.specs.Prelude.{◌≡◌, true};
ghost use Rattle.rg_frame.specs.LogState.{ReachesEnd};

use crate::parts::Part;
use crate::rows::{Checks, Row, assert_each};
use crate::store::{Left, leaves_by_each, store};
use rg_bytes::Memory;
use rg_frame::{FrameFault, FrameLog, Head};
use rg_host::{Host, MemHost, Pick};
use std::alloc::Global;
use std::test::Fail;

/// Two frames.
const TWO: &[&[u8]] = &[b"ab", b"c"];

const PICKS: &[Pick] = &[
    Pick::Old,
    Pick::New,
    Pick::Torn(0),
    Pick::Torn(1),
    Pick::Torn(0x37),
];

/// The place where a list of frames ends, or that of the damage behind the last one.
type End = Result<u64, u64>;

/// It has other frames.
const OTHER: End = Err(u64::MAX);

/// The end at this place of a log, where nothing is found, or the damage.
fn end_at(place: u64, is_none: Result<bool, FrameFault>) -> End {
    match is_none {
        Ok(true) => Ok(place),
        Err(FrameFault::Damaged(place)) => Err(place),
        _ => OTHER,
    }
}

fn is_none<T: Copy>(next: Result<Option<T>, FrameFault>) -> Result<bool, FrameFault> {
    match next {
        Ok(next) => Ok(next.is_none()),
        Err(fault) => Err(fault),
    }
}

/// Where file 2 ends that has these payloads.
fn end_behind(host: &mut MemHost, read: &mut Vec<u8>, payloads: &[&[u8]]) -> End {
    let log = FrameLog::new(2);
    let mut place = 0;
    for payload in payloads {
        match log.read(host, place, read) {
            Ok(Some(next)) => place = next,
            _ => return OTHER,
        }
        if read.as_slice() != *payload {
            return OTHER;
        }
    }
    end_at(place, is_none(log.read(host, place, read)))
}

fn listed(alloc: Global, host: &mut MemHost, payloads: &[&[u8]]) -> End {
    let mut read = Vec::new(alloc);
    let end = end_behind(host, &mut read, payloads);
    drop(read);
    end
}

/// Whether no frame is read at the end of the file.
fn has_end(alloc: Global, host: &mut MemHost, checks: &mut Checks) -> bool {
    let length = host.file(2).len() as u64;
    let mut read = Vec::new(alloc);
    let next = FrameLog::new(2).read(host, length, &mut read);
    drop(read);
    checks.same("read at the end of the file", next, Ok(None))
}

/// A frame that is stepped over, and what stands in two bytes then.
struct Step {
    head: Head,
    bytes: &'static [u8],
}

/// The two frames; the second has one byte.
const STEPS: &[Step] = &[
    Step {
        head: Head {
            place: 0,
            length: 2,
            next: 11,
        },
        bytes: b"ab",
    },
    Step {
        head: Head {
            place: 11,
            length: 1,
            next: 21,
        },
        bytes: b"cb",
    },
];

/// Where a log ends once so many of the two frames are stepped over.
fn stepped(host: &mut MemHost, count: usize) -> End {
    let mut log = FrameLog::new(2);
    let mut head = [7u8; 2];
    for step in STEPS.get(..count).unwrap_or(STEPS) {
        if log.step(host, &mut head) != Ok(Some(step.head)) || head.as_slice() != step.bytes {
            return OTHER;
        }
    }
    let is_none = is_none(log.step(host, &mut head));
    end_at(log.end(), is_none)
}

/// What stands in file 2.
enum File {
    /// These, one behind another.
    Parts(&'static [Part]),
    /// A front of the two frames: each one that has so many bytes at the least and at the most.
    Fronts(usize, usize),
}

/// A log, and how many of the two frames it has.
struct Found {
    file: File,
    count: usize,
    end: End,
}

impl Found {
    fn is_in(&self, alloc: Global, host: &mut MemHost, checks: &mut Checks) -> bool {
        let payloads = TWO.get(..self.count).unwrap_or(TWO);
        checks.same("end of the steps", stepped(host, self.count), self.end)
            && checks.same("end of the frames", listed(alloc, host, payloads), self.end)
            && has_end(alloc, host, checks)
    }

    /// Whether it is found where these stand in file 2.
    fn is_of(&self, alloc: Global, parts: &[Part], checks: &mut Checks) -> Result<bool, Memory> {
        let mut host = store(alloc, 2, &[parts], &[])?;
        let is_so = self.is_in(alloc, &mut host, checks);
        drop(host);
        Ok(is_so)
    }

    /// Whether it is in each front of the two frames of these lengths.
    fn is_of_fronts(
        &self,
        alloc: Global,
        least: usize,
        most: usize,
        checks: &mut Checks,
    ) -> Result<bool, Memory> {
        for length in least..=most {
            let is_so = self.is_of(alloc, &[Part::Frames(0, length)], checks)?;
            if !checks.at(is_so, "length", length) {
                return Ok(false);
            }
        }
        Ok(true)
    }
}

impl Row for Found {
    fn is_so(&self, alloc: Global, checks: &mut Checks) -> Result<bool, Memory> {
        match &self.file {
            File::Parts(parts) => self.is_of(alloc, parts, checks),
            File::Fronts(least, most) => self.is_of_fronts(alloc, *least, *most, checks),
        }
    }
}

/// Cut frames, gates of other values, and lengths past the file.
const LOGS: &[Found] = &[
    // A cut file is damaged at the cut frame.
    Found {
        file: File::Fronts(0, 1),
        count: 0,
        end: Ok(0),
    },
    Found {
        file: File::Fronts(2, 11),
        count: 0,
        end: Err(0),
    },
    Found {
        file: File::Fronts(12, 21),
        count: 1,
        end: Err(11),
    },
    Found {
        file: File::Fronts(22, 22),
        count: 2,
        end: Ok(21),
    },
    // A gate of another value ends the list.
    Found {
        file: File::Parts(&[Part::Frames(0, 11), Part::Bytes(&[0]), Part::Frames(12, 22)]),
        count: 1,
        end: Ok(11),
    },
    Found {
        file: File::Parts(&[
            Part::Bytes(&[0]),
            Part::Frames(1, 11),
            Part::Bytes(&[0]),
            Part::Frames(12, 22),
        ]),
        count: 0,
        end: Ok(0),
    },
    Found {
        file: File::Parts(&[Part::Frames(0, 11), Part::Bytes(&[2]), Part::Frames(12, 22)]),
        count: 1,
        end: Ok(11),
    },
    Found {
        file: File::Parts(&[
            Part::Bytes(&[2]),
            Part::Frames(1, 11),
            Part::Bytes(&[2]),
            Part::Frames(12, 22),
        ]),
        count: 0,
        end: Ok(0),
    },
    Found {
        file: File::Parts(&[
            Part::Frames(0, 11),
            Part::Bytes(&[0x37]),
            Part::Frames(12, 22),
        ]),
        count: 1,
        end: Ok(11),
    },
    Found {
        file: File::Parts(&[
            Part::Bytes(&[0x37]),
            Part::Frames(1, 11),
            Part::Bytes(&[0x37]),
            Part::Frames(12, 22),
        ]),
        count: 0,
        end: Ok(0),
    },
    Found {
        file: File::Parts(&[
            Part::Frames(0, 11),
            Part::Bytes(&[0xff]),
            Part::Frames(12, 22),
        ]),
        count: 1,
        end: Ok(11),
    },
    Found {
        file: File::Parts(&[
            Part::Bytes(&[0xff]),
            Part::Frames(1, 11),
            Part::Bytes(&[0xff]),
            Part::Frames(12, 22),
        ]),
        count: 0,
        end: Ok(0),
    },
    // A length past the file is damage.
    Found {
        file: File::Parts(&[Part::Bytes(&[
            1, 0xff, 0xff, 0xff, 0xff, 0xff, 0xff, 0xff, 0xff, 5, 0,
        ])]),
        count: 0,
        end: Err(0),
    },
    Found {
        file: File::Parts(&[Part::Bytes(&[
            1, 0xff, 0xff, 0xff, 0xff, 0xff, 0xff, 0xff, 0xfe, 5, 0,
        ])]),
        count: 0,
        end: Err(0),
    },
    Found {
        file: File::Parts(&[Part::Bytes(&[
            1, 0xff, 0xff, 0xff, 0xff, 0xff, 0xff, 0xff, 0xf7, 5, 0,
        ])]),
        count: 0,
        end: Err(0),
    },
    Found {
        file: File::Parts(&[Part::Bytes(&[
            1, 0xff, 0xff, 0xff, 0xff, 0xff, 0xff, 0xff, 0xf6, 5, 0,
        ])]),
        count: 0,
        end: Err(0),
    },
];

#[test]
fn frames_are_read_and_stepped_over_up_to_their_end_or_damage(rt: HostRuntime) -> Result<(), Fail> {
    assert_each(&rt, LOGS)
}

/// Appends these payloads, at most two; more are refused. Answers where the first stands, and where the second does or
/// would.
fn append(
    host: &mut MemHost,
    log: &mut FrameLog,
    payloads: &[&[u8]],
) -> Result<(u64, u64), FrameFault>
    requires ready { log.old.ready ≡ true }
    requires reaches { ReachesEnd log.old (⟦<MemHost as Host>⟧.now host.old) }
    ensures ready { log.new.ready ≡ true }
    ensures reaches { ReachesEnd log.new (⟦<MemHost as Host>⟧.now host.new) }
{
    if payloads.len() > 2 {
        return Err(FrameFault::Memory);
    }
    let Some(one) = payloads.get(0) else {
        return Ok((0, log.end()));
    };
    let place = log.append(host, one)?;
    match payloads.get(1) {
        None => Ok((place, log.end())),
        Some(two) => Ok((place, log.append(host, two)?)),
    }
}

/// Whether a log has ended.
fn has_ended(host: &mut MemHost, log: &mut FrameLog) -> bool
    requires ready { log.old.ready ≡ true }
    requires reaches { ReachesEnd log.old (⟦<MemHost as Host>⟧.now host.old) }
{
    log.append(host, b"ab") == Err(FrameFault::Ended) && log.clear(host) == Err(FrameFault::Ended)
}

/// Clears a log and appends to it. Answers where its frames stand, or why it has ended.
fn fill(host: &mut MemHost, payloads: &[&[u8]]) -> Result<(u64, u64), FrameFault> {
    let mut log = FrameLog::new(2);
    log.clear(host)?;
    let places = append(host, &mut log, payloads);
    if places.is_err() && !has_ended(host, &mut log) {
        return Err(FrameFault::Memory);
    }
    places
}

/// A log is cleared, and payloads are appended.
#[derive(Clone, Copy)]
struct Filled {
    /// From file 2 on.
    files: &'static [&'static [Part]],
    /// The numbers of the calls that fail.
    failing: &'static [u64],
    payloads: &'static [&'static [u8]],
    /// Where the first one stands, and where the second does or would.
    place: u64,
    end: u64,
    /// Whether a call fails.
    fails: bool,
    /// Behind so many calls the first one stands.
    settled: u64,
    /// How many calls there were, and what the file has then, where that is asked.
    calls: u64,
    bytes: &'static [u8],
}

/// Whether the file has these bytes, where some are given.
fn has_bytes(host: &MemHost, bytes: &[u8], checks: &mut Checks) -> bool {
    bytes.is_empty() || checks.same_bytes("file 2", host.file(2), bytes)
}

impl Filled {
    /// The two lists that a stop behind so many calls may leave.
    fn lists_at(&self, call: u64) -> (&'static [&'static [u8]], &'static [&'static [u8]]) {
        if self.payloads.is_empty() {
            return (&[], TWO);
        }
        let first = self.payloads.get(..1).unwrap_or(TWO);
        if call < self.settled {
            (&[], first)
        } else {
            (first, self.payloads)
        }
    }

    /// Whether a host is filled so, by so many calls, and has these bytes then.
    fn fills(&self, host: &mut MemHost, checks: &mut Checks) -> bool {
        let wanted = if self.fails {
            Err(FrameFault::Disk)
        } else {
            Ok((self.place, self.end))
        };
        checks.same("places of the frames", fill(host, self.payloads), wanted)
            && has_bytes(host, self.bytes, checks)
            && checks.same("calls", host.calls(), self.calls)
    }

    /// Whether what was appended stands, where no call fails.
    fn stands(&self, alloc: Global, host: &mut MemHost, checks: &mut Checks) -> bool {
        if self.fails || self.payloads.is_empty() {
            return true;
        }
        let end = listed(alloc, host, self.payloads);
        checks.same("frames with these payloads", end.is_ok(), true)
    }

    /// Whether a host is filled, each stop then leaves one of its lists, and what was appended stands.
    fn is_so_of(&self, alloc: Global, host: &mut MemHost, checks: &mut Checks) -> bool {
        let mut want = *self;
        self.fills(host, checks)
            && leaves_by_each(alloc, host, 0, PICKS, &mut want, checks)
            && self.stands(alloc, host, checks)
    }
}

impl Left for Filled {
    fn may_be(
        &mut self,
        alloc: Global,
        left: &mut MemHost,
        call: u64,
        checks: &mut Checks,
    ) -> bool {
        let (old, new) = self.lists_at(call);
        let is_one = listed(alloc, left, old).is_ok() || listed(alloc, left, new).is_ok();
        is_one || checks.fails("lists", left.file(2), (old, new))
    }
}

impl Row for Filled {
    fn is_so(&self, alloc: Global, checks: &mut Checks) -> Result<bool, Memory> {
        let mut host = store(alloc, 2, self.files, self.failing)?;
        let is_so = self.is_so_of(alloc, &mut host, checks);
        drop(host);
        Ok(is_so)
    }
}

/// Two payloads are appended to an empty file.
const FILLED: Filled = Filled {
    files: &[],
    failing: &[],
    payloads: &[b"ab", b"c"],
    place: 0,
    end: 11,
    fails: false,
    settled: 10,
    calls: 17,
    bytes: b"",
};

/// The second one fails.
const ONE_FAILS: Filled = Filled {
    fails: true,
    ..FILLED
};

/// The clear or the first one fails.
const BOTH_FAIL: Filled = Filled {
    settled: u64::MAX,
    ..ONE_FAILS
};

/// Two frames aren't cleared.
const UNCLEARED: Filled = Filled {
    files: &[&[Part::Frames(0, 22)]],
    payloads: &[],
    ..ONE_FAILS
};

/// A log is cleared.
const CLEARED: Filled = Filled {
    end: 0,
    fails: false,
    ..UNCLEARED
};

/// A log whose gate is closed is cleared by one read.
const CLOSED: Filled = Filled {
    calls: 1,
    ..CLEARED
};

/// Appends and clears that are whole, or in which a call fails.
const FILLS: &[Filled] = &[
    // A frame is written as the format says, and one behind it: a clear is one read, and the first append has three
    // syncs.
    Filled {
        payloads: &[b"Spayments(ts,card:text,merchant:text,amount:int)"],
        end: 57,
        calls: 10,
        bytes: &[
            0x01, 0x00, 0x00, 0x00, 0x00, 0x00, 0x00, 0x00, 0x30, 0x53, 0x70, 0x61, 0x79, 0x6d,
            0x65, 0x6e, 0x74, 0x73, 0x28, 0x74, 0x73, 0x2c, 0x63, 0x61, 0x72, 0x64, 0x3a, 0x74,
            0x65, 0x78, 0x74, 0x2c, 0x6d, 0x65, 0x72, 0x63, 0x68, 0x61, 0x6e, 0x74, 0x3a, 0x74,
            0x65, 0x78, 0x74, 0x2c, 0x61, 0x6d, 0x6f, 0x75, 0x6e, 0x74, 0x3a, 0x69, 0x6e, 0x74,
            0x29, 0x00,
        ],
        ..FILLED
    },
    Filled {
        payloads: &[b"Spayments(ts,card:text,merchant:text,amount:int)", b"c"],
        end: 57,
        ..FILLED
    },
    FILLED,
    // Each call that fails ends the appends, and, once the log was cleared, the log.
    Filled {
        failing: &[0],
        calls: 1,
        ..BOTH_FAIL
    },
    Filled {
        failing: &[1],
        calls: 2,
        ..BOTH_FAIL
    },
    Filled {
        failing: &[2],
        calls: 3,
        ..BOTH_FAIL
    },
    Filled {
        failing: &[3],
        calls: 4,
        ..BOTH_FAIL
    },
    Filled {
        failing: &[4],
        calls: 5,
        ..BOTH_FAIL
    },
    Filled {
        failing: &[5],
        calls: 6,
        ..BOTH_FAIL
    },
    Filled {
        failing: &[6],
        calls: 7,
        ..BOTH_FAIL
    },
    Filled {
        failing: &[7],
        calls: 8,
        ..BOTH_FAIL
    },
    Filled {
        failing: &[8],
        calls: 9,
        ..BOTH_FAIL
    },
    Filled {
        failing: &[9],
        calls: 10,
        ..BOTH_FAIL
    },
    Filled {
        failing: &[10],
        calls: 11,
        ..ONE_FAILS
    },
    Filled {
        failing: &[11],
        calls: 12,
        ..ONE_FAILS
    },
    Filled {
        failing: &[12],
        calls: 13,
        ..ONE_FAILS
    },
    Filled {
        failing: &[13],
        calls: 14,
        ..ONE_FAILS
    },
    Filled {
        failing: &[14],
        calls: 15,
        ..ONE_FAILS
    },
    Filled {
        failing: &[15],
        calls: 16,
        ..ONE_FAILS
    },
    Filled {
        failing: &[16],
        calls: 17,
        ..ONE_FAILS
    },
    // A stop in a clear leaves the old list or none.
    Filled {
        failing: &[0],
        calls: 1,
        ..UNCLEARED
    },
    Filled {
        failing: &[1],
        calls: 2,
        ..UNCLEARED
    },
    Filled {
        failing: &[2],
        calls: 3,
        ..UNCLEARED
    },
    Filled {
        failing: &[3],
        calls: 3,
        ..CLEARED
    },
    // A closed gate is not written by a clear.
    Filled {
        files: &[&[Part::Bytes(&[0]), Part::Frames(1, 22)]],
        bytes: &[
            0, 0, 0, 0, 0, 0, 0, 0, 2, b'a', b'b', 1, 0, 0, 0, 0, 0, 0, 0, 1, b'c', 0,
        ],
        ..CLOSED
    },
    Filled {
        files: &[&[Part::Bytes(&[2]), Part::Frames(1, 22)]],
        bytes: &[
            2, 0, 0, 0, 0, 0, 0, 0, 2, b'a', b'b', 1, 0, 0, 0, 0, 0, 0, 0, 1, b'c', 0,
        ],
        ..CLOSED
    },
    Filled {
        files: &[&[Part::Bytes(&[0x37]), Part::Frames(1, 22)]],
        bytes: &[
            0x37, 0, 0, 0, 0, 0, 0, 0, 2, b'a', b'b', 1, 0, 0, 0, 0, 0, 0, 0, 1, b'c', 0,
        ],
        ..CLOSED
    },
    Filled {
        files: &[&[Part::Bytes(&[0xff]), Part::Frames(1, 22)]],
        bytes: &[
            0xff, 0, 0, 0, 0, 0, 0, 0, 2, b'a', b'b', 1, 0, 0, 0, 0, 0, 0, 0, 1, b'c', 0,
        ],
        ..CLOSED
    },
];

#[test]
fn appends_and_clears_leave_the_old_list_or_the_new_one_at_each_stop(
    rt: HostRuntime,
) -> Result<(), Fail> {
    assert_each(&rt, FILLS)
}
