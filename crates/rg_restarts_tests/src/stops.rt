use rg_bytes::Memory;
use rg_host::{Image, MemHost, Pick};
use rg_messages::Status;
use rg_restarts::{Stopped, run_stopped, run_twice};
use std::alloc::Global;
use std::process::Abort;
use std::str;
use std::test::Fail;

/// A run to its end.
#[derive(Clone, Copy)]
struct Run {
    /// The next offset that it finds in the store, 0 for a new one.
    next: u64,
    /// What it puts.
    put: &'static str,
}

/// A plan, some lines, and what runs over them put.
#[derive(Clone, Copy)]
struct Case {
    plan: &'static [u8],
    lines: &'static [u8],
    /// The runs to their end that there may be, first that over a new store. One that goes on puts the same for the lines
    /// from the store's next offset on.
    runs: &'static [Run],
    /// The numbers of calls after which a run is stopped: from this one to that, as far as there are so many calls.
    from: u64,
    to: u64,
}

/// Three payments of one card, of which the third meets a window of five minutes without the first. They
/// go into chunks of two; a commit follows each two, a checkpoint each four.
static PAYMENTS: Case = Case {
    plan: b"queries = [\"SELECT count(*), sum(amount) FROM payments GROUP BY card OVER SLIDING 5 minutes\"]\n\n[stream]\nname = \"payments\"\ncolumns = [\"ts\", \"card:text\", \"merchant:text\", \"amount:int\"]\n\n[settings]\ncache = 1\nchunk = 2\ncommit = 2\nsave = 4\n",
    lines: b"0,c1,m1,100\n299999,c1,m2,200\n300000,c1,m1,50\n",
    runs: &[
        Run {
            next: 0,
            put: "open 0 0 0\n\
                0 ok 1 100\n\
                1 ok 2 300\n\
                stored 2\n\
                2 ok 2 250\n\
                stored 3\n\
                saved 3\n\
                done 3 3\n",
        },
        Run {
            next: 2,
            put: "open 2 2 0\n\
                2 ok 2 250\n\
                stored 3\n\
                saved 3\n\
                done 3 3\n",
        },
        Run {
            next: 3,
            put: "open 3 3 0\n\
                stored 3\n\
                saved 3\n\
                done 3 3\n",
        },
        Run {
            next: 3,
            put: "open 3 3 3\n\
                stored 3\n\
                saved 3\n\
                done 3 3\n",
        },
    ],
    from: 0,
    to: u64::MAX,
};

/// Such payments between control lines, where one may be late by ten milliseconds, as the last one is.
const CONTROLLED: Case = Case {
    plan: b"queries = [\"SELECT count(*), sum(amount) FROM payments GROUP BY card OVER SLIDING 5 minutes\"]\n\n[stream]\nname = \"payments\"\ncolumns = [\"ts\", \"card:text\", \"merchant:text\", \"amount:int\"]\n\n[settings]\ncache = 1\nchunk = 2\ncommit = 2\nsave = 4\ngrace = 10\n",
    lines: b"0,c1,m1,100\n!commit\n299999,c1,m2,200\n!save\n!ahead\n300000,c1,m1,50\n299995,c1,m3,7\n",
    runs: &[
        Run {
            next: 0,
            put: "open 0 0 0\n\
                0 ok 1 100\n\
                1 done\n\
                stored 1\n\
                2 ok 2 300\n\
                stored 3\n\
                3 done\n\
                stored 3\n\
                saved 2\n\
                4 done\n\
                5 ok 2 250\n\
                6 moved 3 257\n\
                stored 7\n\
                saved 4\n\
                stored 7\n\
                saved 4\n\
                done 7 4\n",
        },
        Run {
            next: 1,
            put: "open 1 1 0\n\
                1 done\n\
                stored 1\n\
                2 ok 2 300\n\
                stored 3\n\
                3 done\n\
                stored 3\n\
                saved 2\n\
                4 done\n\
                5 ok 2 250\n\
                6 moved 3 257\n\
                stored 7\n\
                saved 4\n\
                stored 7\n\
                saved 4\n\
                done 7 4\n",
        },
        Run {
            next: 3,
            put: "open 3 2 0\n\
                3 done\n\
                stored 3\n\
                saved 2\n\
                4 done\n\
                5 ok 2 250\n\
                6 moved 3 257\n\
                stored 7\n\
                saved 4\n\
                stored 7\n\
                saved 4\n\
                done 7 4\n",
        },
        Run {
            next: 3,
            put: "open 3 2 2\n\
                3 done\n\
                stored 3\n\
                saved 2\n\
                4 done\n\
                5 ok 2 250\n\
                6 moved 3 257\n\
                stored 7\n\
                saved 4\n\
                stored 7\n\
                saved 4\n\
                done 7 4\n",
        },
        Run {
            next: 7,
            put: "open 7 4 2\n\
                stored 7\n\
                saved 4\n\
                done 7 4\n",
        },
        Run {
            next: 7,
            put: "open 7 4 4\n\
                stored 7\n\
                saved 4\n\
                done 7 4\n",
        },
    ],
    from: 0,
    to: u64::MAX,
};

/// The early stops of that.
static EARLY: Case = Case {
    to: 38,
    ..CONTROLLED
};

/// The later ones.
static LATE: Case = Case {
    from: 39,
    ..CONTROLLED
};

/// After how many calls a run that goes on is stopped again, at most.
const MOST_AGAIN: u64 = 12;

/// What may be left of the bytes that were pending: the old ones, the new ones, or others.
const PICKS: &[Pick] = &[
    Pick::Old,
    Pick::New,
    Pick::Torn(0),
    Pick::Torn(1),
    Pick::Torn(255),
];

/// What a run did.
#[derive(Clone, Copy)]
struct Did {
    /// The offset below which it said last that all is stored.
    told: u64,
    /// The next offset that it found in the store, where it came to its end and put just what it should.
    found: Option<u64>,
    /// Whether a call that failed ended it.
    is_cut: bool,
    calls: u64,
}

/// What a run did, and what its stop left.
#[derive(Drop)]
struct Ran {
    did: Did,
    left: MemHost,
}

/// Files over which each run goes on as it should, and the next offset that is found there. Two runs over the same files
/// are the same.
#[derive(Drop)]
struct Left {
    files: MemHost,
    next: u64,
}

/// The text that was put; none, where it is no text.
fn text(host: &MemHost) -> &str {
    str::from_utf8(host.output()).unwrap_or("")
}

/// The number of the last whole line that says what is stored; 0 without one.
fn told(put: &str) -> u64 {
    let mut told = 0;
    for line in put.split_inclusive('\n') {
        let Some(rest) = line.strip_prefix("stored ") else {
            continue;
        };
        if let Some(number) = rest.strip_suffix('\n') {
            told = number.parse().unwrap_or(u64::MAX);
        }
    }
    told
}

/// The next offset that a run found in the store, where it came to its end and put just what it should.
fn next_found(case: &Case, status: Status, put: &[u8]) -> Option<u64> {
    if status != Status::Ok {
        return None;
    }
    for run in case.runs {
        if run.put.as_bytes() == put {
            return Some(run.next);
        }
    }
    None
}

/// Whether this is a front of what a run over a new store puts.
fn is_front(case: &Case, put: &[u8]) -> bool {
    match case.runs.first() {
        Some(run) => run.put.as_bytes().starts_with(put),
        None => false,
    }
}

/// What a run of this case did, which left this host.
fn done_by(case: &Case, status: Status, host: &MemHost) -> Did {
    Did {
        told: told(text(host)),
        found: next_found(case, status, host.output()),
        is_cut: status == Status::Write || status == Status::Disk,
        calls: host.calls(),
    }
}

fn have_same_bytes(one: &MemHost, other: &MemHost) -> bool {
    one.file(0) == other.file(0) && one.file(1) == other.file(1) && one.file(2) == other.file(2)
}

/// What was found in these files before.
fn known(seen: &[Left], files: &MemHost) -> Option<u64> {
    for left in seen {
        if have_same_bytes(&left.files, files) {
            return Some(left.next);
        }
    }
    None
}

/// A host of these files, or a new one, on which no call was made.
fn host_of(alloc: Global, files: Option<&MemHost>) -> Result<MemHost, Memory> {
    match files {
        Some(files) => files.stop_image(0, Pick::Old),
        None => MemHost::new(alloc, Image::new(alloc), Vec::new(alloc)),
    }
}

/// Whether a run found no less than this, and than what was told before.
fn is_kept(found: Option<u64>, least: u64, told: u64) -> bool {
    match found {
        Some(next) => least <= next && told <= next,
        None => false,
    }
}

/// A case, and the words of its runs.
#[derive(Clone, Copy)]
struct Trial<'a> {
    alloc: Global,
    words: &'a [String],
    case: &'a Case,
}

impl Trial<'_> {
    /// What a run did, and what its stop left.
    fn ran(&self, stopped: Stopped) -> Ran {
        let Stopped { host, left, status } = stopped;
        let did = done_by(self.case, status, &host);
        drop(host);
        Ran { did, left }
    }

    /// Runs over these files, or over a new store, up to so many calls.
    fn run(&self, files: Option<&MemHost>, stop: u64, pick: Pick) -> Result<Ran, Memory> {
        let host = host_of(self.alloc, files)?;
        let Case { plan, lines, .. } = *self.case;
        match run_stopped(self.alloc, self.words, plan, lines, host, stop, pick) {
            Ok(stopped) => Ok(self.ran(stopped)),
            Err(memory) => Err(memory),
        }
    }

    /// What a run to its end does; none without memory.
    fn does(&self, files: Option<&MemHost>) -> Option<Did> {
        match self.run(files, u64::MAX, Pick::New) {
            Ok(ran) => {
                let did = ran.did;
                drop(ran);
                Some(did)
            }
            Err(_) => None,
        }
    }

    /// The next offset that a run to its end finds in these files, where it puts what it should.
    fn found_in(&self, files: &MemHost) -> Option<u64> {
        match self.does(Some(files)) {
            Some(did) => did.found,
            None => None,
        }
    }

    /// Whether a run over these files, whose next offset is this, is stopped again after so many calls,
    /// and the next one then goes on with all that is said to be stored.
    fn goes_on_again(&self, files: &MemHost, next: u64, again: u64) -> bool {
        match self.run(Some(files), again, Pick::Torn(1)) {
            Ok(ran) => {
                let is_kept = is_kept(self.found_in(&ran.left), next, ran.did.told);
                drop(ran);
                is_kept
            }
            Err(_) => false,
        }
    }

    /// Whether that is so after each of the first calls.
    fn goes_on_from(&self, files: &MemHost, next: u64) -> bool {
        for again in 0..=MOST_AGAIN {
            if !self.goes_on_again(files, next, again) {
                return false;
            }
        }
        true
    }

    /// The next offset of these files, where each run over them goes on as it should, also one that is
    /// stopped again. They weren't seen before.
    fn next_in(&self, seen: &mut Vec<Left>, files: MemHost) -> Option<u64> {
        let next = match self.found_in(&files) {
            Some(next) => next,
            None => u64::MAX,
        };
        if next == u64::MAX || !self.goes_on_from(&files, next) {
            drop(files);
            return None;
        }
        match seen.push(Left { files, next }) {
            Ok(()) => Some(next),
            Err(_) => None,
        }
    }

    /// The same, of files of which some were seen before.
    fn next_left(&self, seen: &mut Vec<Left>, files: MemHost) -> Option<u64> {
        match known(seen, &files) {
            Some(next) => {
                drop(files);
                Some(next)
            }
            None => self.next_in(seen, files),
        }
    }

    /// Whether a run over a new store is stopped after just so many calls of so many, and the runs over
    /// what that leaves go on with all that is said to be stored.
    fn goes_on(&self, seen: &mut Vec<Left>, calls: u64, stop: u64, pick: Pick) -> bool {
        match self.run(None, stop, pick) {
            Ok(Ran { did, left }) => {
                let is_whole = did.found == Some(0);
                let is_there = did.calls == stop
                    && did.is_cut != is_whole
                    && is_whole == (stop == calls);
                is_kept(self.next_left(seen, left), 0, did.told) && is_there
            }
            Err(_) => false,
        }
    }

    /// The same, whatever is left of the bytes that were pending.
    fn goes_on_always(&self, seen: &mut Vec<Left>, calls: u64, stop: u64) -> bool {
        for pick in PICKS {
            if !self.goes_on(seen, calls, stop, *pick) {
                return false;
            }
        }
        true
    }

    /// Whether two runs, of which the first left this host and the second that one, put what they should.
    fn are_put(&self, first: &MemHost, status: Status, second: &MemHost, end: Status) -> bool {
        let did = done_by(self.case, status, first);
        let found = next_found(self.case, end, second.output());
        let is_whole = did.found == Some(0);
        is_kept(found, 0, did.told)
            && is_front(self.case, first.output())
            && is_whole == (status == Status::Ok)
    }

    /// The same, where the first run is stopped so.
    fn put_both(&self, stop: u64) -> bool {
        let Case { plan, lines, .. } = *self.case;
        let pick = Pick::Torn(1);
        match host_of(self.alloc, None) {
            Ok(host) => {
                match run_twice(self.alloc, self.words, plan, lines, host, stop, pick) {
                    Ok((first, second, status, end)) => {
                        let are_put = self.are_put(&first, status, &second, end);
                        drop(first);
                        drop(second);
                        are_put
                    }
                    Err(_) => false,
                }
            }
            Err(_) => false,
        }
    }

    /// A number of calls of those that are asked, of so many, after which a run, stopped so, isn't followed by runs that
    /// go on as they should, or two runs don't put what they should.
    fn lost_of(&self, seen: &mut Vec<Left>, calls: u64) -> Option<u64> {
        if calls < self.case.from {
            return Some(calls);
        }
        for stop in self.case.from..=self.case.to.min(calls) {
            if !self.goes_on_always(seen, calls, stop) || !self.put_both(stop) {
                return Some(stop);
            }
        }
        None
    }

    /// Such a number.
    fn lost(&self) -> Option<u64> {
        match self.does(None) {
            Some(did) => {
                let mut seen = Vec::new(self.alloc);
                let lost = self.lost_of(&mut seen, did.calls);
                drop(seen);
                lost
            }
            None => Some(u64::MAX),
        }
    }
}

fn add(alloc: Global, words: &mut Vec<String>, word: &str) -> Result<(), Memory> {
    let word = String::from_str(alloc, word)?;
    words.push(word)?;
    Ok(())
}

/// Adds the words of a run.
fn add_words(alloc: Global, words: &mut Vec<String>) -> Result<(), Memory> {
    add(alloc, words, "run")?;
    add(alloc, words, "plan")?;
    add(alloc, words, "store")
}

/// Such a number of this case, with the words of a run.
fn lost_in(alloc: Global, case: &Case) -> Option<u64> {
    let mut words = Vec::new(alloc);
    let lost = match add_words(alloc, &mut words) {
        Ok(()) => (Trial {
            alloc,
            words: &words,
            case,
        })
        .lost(),
        Err(_) => Some(u64::MAX),
    };
    drop(words);
    lost
}

/// Each stop of this case that is asked is gone on from, whatever is left of the bytes that were pending, and two runs
/// put what they should.
fn assert_goes_on(rt: &(impl Abort + AllocGlobal), case: &'static Case) -> Result<(), Fail> {
    let lost = lost_in(rt.alloc(), case);
    assert_eq!(rt; lost, None);
    Ok(())
}

#[test]
fn a_run_goes_on_from_each_stop(rt: HostRuntime) -> Result<(), Fail> {
    assert_goes_on(&rt, &PAYMENTS)
}

#[test]
fn a_run_with_control_lines_goes_on_from_each_early_stop(rt: HostRuntime) -> Result<(), Fail> {
    assert_goes_on(&rt, &EARLY)
}

#[test]
fn a_run_with_control_lines_goes_on_from_each_late_stop(rt: HostRuntime) -> Result<(), Fail> {
    assert_goes_on(&rt, &LATE)
}
