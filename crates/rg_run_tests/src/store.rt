ghost use Rattle.std.specs.Prelude.{◌<◌};

use crate::bytes::{Pieces, put_pieces};
use crate::payload::{
    AMOUNTS, BASE, BASE_ELSEWHERE, CARDS, CHANGE, CHANGE_CUT, CHANGE_OF_NONE, COUNTRY, GONE,
    NARROW, NARROW_TWO, OTHER, SCHEMA, THIRD, TWO,
};
use crate::rows::{Checks, Row, assert_each};
use crate::started::{Call, answers_by};
use File::{Missing, Of};
use rg_bytes::{Memory, put_bytes, put_u64};
use rg_explain::CheckFault;
use rg_host::{Image, MemHost};
use rg_open::{OpenFault, Resumed};
use std::alloc::Global;
use std::test::Fail;

/// The bytes of a file.
#[derive(Clone, Copy)]
pub(crate) enum File {
    /// None.
    Missing,
    /// Open frames with these payloads, and a closed gate.
    Of(&'static [Pieces]),
    /// The first bytes of that, so many.
    First(usize, &'static [Pieces]),
    /// The same of one payload, and so many times another.
    Repeated(Pieces, u32, Pieces),
}

/// The length of joined pieces.
fn length_of(pieces: Pieces) -> u64 {
    let mut length: u64 = 0;
    for piece in pieces {
        length = length.saturating_add(piece.len() as u64);
    }
    length
}

/// Adds an open frame with a payload.
fn put_frame(bytes: &mut Vec<u8>, payload: Pieces) -> Result<(), Memory> {
    put_bytes(bytes, &[1])?;
    put_u64(bytes, length_of(payload))?;
    put_pieces(bytes, payload)
}

/// Adds open frames with these payloads, and a closed gate.
fn put_frames(bytes: &mut Vec<u8>, payloads: &[Pieces]) -> Result<(), Memory> {
    for payload in payloads {
        put_frame(bytes, payload)?;
    }
    put_bytes(bytes, &[0])
}

/// Adds an open frame with one payload, so many with another, and a closed gate.
fn put_repeated(
    bytes: &mut Vec<u8>,
    first: Pieces,
    times: u32,
    payload: Pieces,
) -> Result<(), Memory> {
    put_frame(bytes, first)?;
    for _ in 0..times {
        put_frame(bytes, payload)?;
    }
    put_bytes(bytes, &[0])
}

/// Adds the bytes of a file to none.
fn put_file(bytes: &mut Vec<u8>, file: File) -> Result<(), Memory> {
    match file {
        Missing => Ok(()),
        Of(payloads) => put_frames(bytes, payloads),
        File::First(length, payloads) => {
            let done = put_frames(bytes, payloads);
            bytes.truncate(length);
            done
        }
        File::Repeated(first, times, payload) => put_repeated(bytes, first, times, payload),
    }
}

fn bytes_of(alloc: Global, file: File) -> Result<Vec<u8>, Memory> {
    let mut bytes = Vec::new(alloc);
    match put_file(&mut bytes, file) {
        Ok(()) => Ok(bytes),
        Err(memory) => Err(memory),
    }
}

/// The two slots, and the log behind them.
pub(crate) type Files = &'static [File];

/// The files of a new store.
pub(crate) const EMPTY: Files = &[Missing, Missing, Missing];

/// Sets a file of an image.
fn set(alloc: Global, image: &mut Image, number: u32, file: File) -> Result<(), Memory>
    requires { number < 8 }
{
    let bytes = bytes_of(alloc, file)?;
    image.set(number, bytes)
}

fn set_all(alloc: Global, image: &mut Image, files: Files) -> Result<(), Memory> {
    match files {
        [first, second, log] => {
            set(alloc, image, 0, *first)?;
            set(alloc, image, 1, *second)?;
            set(alloc, image, 2, *log)
        }
        _ => Err(Memory),
    }
}

/// A host with these files, whose calls of these numbers fail.
pub(crate) fn host_of(alloc: Global, files: Files, failing: &[u64]) -> Result<MemHost, Memory> {
    let failing = failing.to_vec(alloc)?;
    let mut image = Image::new(alloc);
    match set_all(alloc, &mut image, files) {
        Ok(()) => MemHost::new(alloc, image, failing),
        Err(memory) => Err(memory),
    }
}

/// How many calls a host with these files has had once this one answers so; none where it doesn't.
pub(crate) fn calls_of(
    alloc: Global,
    files: Files,
    plan: &str,
    call: Call<'_>,
    checks: &mut Checks,
) -> Result<Option<u64>, Memory> {
    let mut host = host_of(alloc, files, &[])?;
    let answers = answers_by(alloc, plan, call, &mut host, checks);
    let calls = host.calls();
    drop(host);
    match answers {
        Ok(true) => Ok(Some(calls)),
        Ok(false) => Ok(None),
        Err(memory) => Err(memory),
    }
}

/// A call on a host with these files, whose calls of these numbers fail, what it puts, and the log that it leaves,
/// where that is looked at.
#[derive(Clone, Copy)]
struct StoreCall {
    plan: &'static str,
    files: Files,
    failing: &'static [u64],
    call: Call<'static>,
    put: &'static [u8],
    left: Option<File>,
}

/// The number and the sum of a card's payments within five minutes.
const TOTALS: &str =
    "queries = [\"SELECT count(*), sum(amount) FROM payments GROUP BY card OVER SLIDING 5 minutes\"]\n\n[stream]\nname = \"payments\"\ncolumns = [\"ts\", \"card:text\", \"merchant:text\", \"amount:int\"]\n";

const START: Resumed = Resumed {
    next: 0,
    count: 0,
    from: 0,
};

/// Two payments, of which none is in a checkpoint, and three.
pub(crate) const AT_TWO: Resumed = Resumed {
    next: 2,
    count: 2,
    from: 0,
};

const AT_THREE: Resumed = Resumed {
    next: 3,
    count: 3,
    from: 0,
};

/// An opening by the totals.
const OPENING: StoreCall = StoreCall {
    plan: TOTALS,
    files: EMPTY,
    failing: &[],
    call: Call::Open(Ok(START)),
    put: b"",
    left: None,
};

/// Whether the call of a row on this host answers and leaves what it is to.
fn is_so_on(
    alloc: Global,
    row: StoreCall,
    host: &mut MemHost,
    checks: &mut Checks,
) -> Result<bool, Memory> {
    let answers = answers_by(alloc, row.plan, row.call, host, checks)?;
    let is_left = is_left(alloc, host, row.left, checks)?;
    Ok(answers && is_left && checks.same_bytes("output", host.output(), row.put))
}

/// Whether a host has that log.
fn is_left(
    alloc: Global,
    host: &MemHost,
    left: Option<File>,
    checks: &mut Checks,
) -> Result<bool, Memory> {
    match left {
        None => Ok(true),
        Some(file) => {
            let log = bytes_of(alloc, file)?;
            Ok(checks.same_bytes("log", host.file(2), &log))
        }
    }
}

impl Row for StoreCall {
    fn is_so(&self, rt: HostRuntime, checks: &mut Checks) -> Result<bool, Memory> {
        let mut host = host_of(rt.alloc(), self.files, self.failing)?;
        let is_so = is_so_on(rt.alloc(), *self, &mut host, checks);
        drop(host);
        is_so
    }
}

/// The logs of the first two payments, of these once they have a country, and of all three.
pub(crate) const OF_TWO: File = Of(&[SCHEMA, TWO]);

pub(crate) const OF_TWO_LONGER: File = Of(&[SCHEMA, TWO, COUNTRY]);

const OF_THREE: File = Of(&[SCHEMA, TWO, THIRD]);

/// The log of the three payments, of which the first two came before there were amounts.
const OF_GROWN: File = Of(&[NARROW, NARROW_TWO, AMOUNTS, THIRD]);

const OF_LOGS: &[StoreCall] = &[
    // an empty store is given the schema
    StoreCall {
        left: Some(Of(&[SCHEMA])),
        ..OPENING
    },
    StoreCall {
        files: &[Missing, Missing, Of(&[SCHEMA])],
        left: Some(Of(&[SCHEMA])),
        ..OPENING
    },
    // a checkpoint of another query is passed over
    StoreCall {
        files: &[Missing, Missing, OF_TWO],
        call: Call::Open(Ok(AT_TWO)),
        left: Some(OF_TWO),
        ..OPENING
    },
    StoreCall {
        files: &[Of(&[OTHER]), Missing, OF_TWO],
        call: Call::Open(Ok(AT_TWO)),
        left: Some(OF_TWO),
        ..OPENING
    },
    // a log that is cut is refused
    StoreCall {
        files: &[Missing, Missing, File::First(100, &[SCHEMA, TWO])],
        call: Call::Open(Err(OpenFault::Damaged(57))),
        left: Some(File::First(100, &[SCHEMA, TWO])),
        ..OPENING
    },
    // and one of another schema
    StoreCall {
        files: &[Missing, Missing, Of(&[CARDS])],
        call: Call::Open(Err(OpenFault::SchemaDiffers)),
        left: Some(Of(&[CARDS])),
        ..OPENING
    },
    // an opening goes over a log whose schema grew, from the start and from the base of the first payment, whose
    // spots have to be of that log
    StoreCall {
        files: &[Of(&[]), Of(&[]), OF_GROWN],
        call: Call::Open(Ok(AT_THREE)),
        ..OPENING
    },
    StoreCall {
        files: &[Of(&[BASE_ELSEWHERE]), Of(&[]), OF_GROWN],
        call: Call::Open(Ok(Resumed {
            from: 1,
            ..AT_THREE
        })),
        ..OPENING
    },
    StoreCall {
        files: &[Of(&[BASE]), Of(&[]), OF_GROWN],
        call: Call::Open(Ok(AT_THREE)),
        ..OPENING
    },
    // damage is told before another schema
    StoreCall {
        files: &[Of(&[]), Of(&[]), Of(&[NARROW, NARROW_TWO])],
        call: Call::Open(Err(OpenFault::SchemaDiffers)),
        ..OPENING
    },
    StoreCall {
        files: &[Of(&[]), Of(&[]), Of(&[NARROW, NARROW_TWO, &[b"x"]])],
        call: Call::Open(Err(OpenFault::Damaged(136))),
        ..OPENING
    },
];

#[test]
fn an_opening_takes_the_log_that_is_there_or_refuses_it(rt: HostRuntime) -> Result<(), Fail> {
    assert_each(&rt, rt, OF_LOGS)
}

const OF_CHANGES: &[StoreCall] = &[
    // an opening goes on from the changes behind a base, in whichever slot they are
    StoreCall {
        files: &[Of(&[BASE]), Of(&[]), OF_TWO],
        call: Call::Open(Ok(Resumed { from: 1, ..AT_TWO })),
        ..OPENING
    },
    StoreCall {
        files: &[Of(&[BASE, CHANGE]), Of(&[BASE]), OF_TWO],
        call: Call::Open(Ok(Resumed { from: 2, ..AT_TWO })),
        ..OPENING
    },
    StoreCall {
        files: &[Of(&[BASE]), Of(&[BASE, CHANGE]), OF_TWO],
        call: Call::Open(Ok(Resumed { from: 2, ..AT_TWO })),
        ..OPENING
    },
    StoreCall {
        files: &[Of(&[BASE, CHANGE]), Of(&[]), OF_THREE],
        call: Call::Open(Ok(Resumed {
            from: 2,
            ..AT_THREE
        })),
        ..OPENING
    },
    // and from 65 of them
    StoreCall {
        files: &[File::Repeated(BASE, 65, CHANGE), Of(&[BASE]), OF_TWO],
        call: Call::Open(Ok(Resumed { from: 2, ..AT_TWO })),
        ..OPENING
    },
    // changes behind a base of another query are passed over
    StoreCall {
        files: &[Of(&[OTHER, CHANGE]), Of(&[]), OF_TWO],
        call: Call::Open(Ok(AT_TWO)),
        ..OPENING
    },
    StoreCall {
        files: &[Of(&[OTHER, CHANGE]), Of(&[BASE]), OF_TWO],
        call: Call::Open(Ok(Resumed { from: 1, ..AT_TWO })),
        ..OPENING
    },
    // so is a slot whose change is cut, is of no more payments than the base, or is a base
    StoreCall {
        files: &[Of(&[BASE, CHANGE_CUT]), Of(&[BASE]), OF_TWO],
        call: Call::Open(Ok(Resumed { from: 1, ..AT_TWO })),
        ..OPENING
    },
    StoreCall {
        files: &[Of(&[BASE, CHANGE_OF_NONE]), Of(&[BASE]), OF_TWO],
        call: Call::Open(Ok(Resumed { from: 1, ..AT_TWO })),
        ..OPENING
    },
    StoreCall {
        files: &[Of(&[BASE, BASE]), Of(&[BASE]), OF_TWO],
        call: Call::Open(Ok(Resumed { from: 1, ..AT_TWO })),
        ..OPENING
    },
    // changes that the payments don't bear out are told where the payments behind them are met
    StoreCall {
        files: &[Of(&[BASE, GONE]), Of(&[]), OF_TWO],
        call: Call::Open(Ok(Resumed { from: 2, ..AT_TWO })),
        ..OPENING
    },
    StoreCall {
        files: &[Of(&[BASE, GONE]), Of(&[]), OF_THREE],
        call: Call::Open(Err(OpenFault::BadState(0))),
        ..OPENING
    },
];

#[test]
fn an_opening_goes_on_from_changes_or_passes_them_over(rt: HostRuntime) -> Result<(), Fail> {
    assert_each(&rt, rt, OF_CHANGES)
}

/// The plan of queries over payments.
macro_rules! over_payments {
    ($queries:literal) => {
        concat!(
            "queries = [",
            $queries,
            "]\n[stream]\nname = \"payments\"\ncolumns = [\"ts\", \"card:text\", \"merchant:text\", \"amount:int\"]\n"
        )
    };
}

const DEAR: &str = over_payments!(
    "\"SELECT count(*) FROM payments WHERE amount > 100 GROUP BY card OVER SLIDING 5 minutes\""
);

const BY_TWO: &str = over_payments!(
    "\"SELECT count(*) FROM payments GROUP BY card, merchant OVER INFINITE DELAYED BY 5 ms\""
);

const NODES_SHARED: &str = over_payments!(
    "\"SELECT count(*) FROM payments GROUP BY card OVER SLIDING 5 minutes\", \"SELECT sum(amount), count(*) FROM payments GROUP BY card OVER SLIDING 300 seconds\""
);

const WINDOW_SHARED: &str = over_payments!(
    "\"SELECT count(*), sum(amount) FROM payments GROUP BY card OVER SLIDING 5 minutes\", \"SELECT count(*) FROM payments GROUP BY merchant OVER SLIDING 5 minutes\""
);

const OFFSET_SHARED: &str = over_payments!(
    "\"select count(*) from payments over sliding 5 ms\", \"SELECT count(*) FROM payments OVER SLIDING 10 ms DELAYED BY 5 ms\""
);

/// A check of the plan of one query.
const CHECKING: StoreCall = StoreCall {
    plan: DEAR,
    files: EMPTY,
    failing: &[],
    call: Call::Check(Ok(())),
    put: b"",
    left: None,
};

const CHECKS: &[StoreCall] = &[
    // a query and its nodes
    StoreCall {
        put: b"query 0 SELECT count(*) FROM payments WHERE amount > 100 GROUP BY card OVER SLIDING 300000 ms\noffset 0\noffset 300000\nwindow 0 0 300000\nfilter 0 0 amount > 100\ngroup 0 0 card\nagg 0 0 count(*)\n",
        ..CHECKING
    },
    StoreCall {
        plan: BY_TWO,
        put: b"query 0 SELECT count(*) FROM payments GROUP BY card, merchant OVER INFINITE DELAYED BY 5 ms\noffset 5\nwindow 0 5 -\nfilter 0 0 all\ngroup 0 0 card,merchant\nagg 0 0 count(*)\n",
        ..CHECKING
    },
    // two that share all nodes but one
    StoreCall {
        plan: NODES_SHARED,
        put: b"query 0 SELECT count(*) FROM payments GROUP BY card OVER SLIDING 300000 ms\nquery 1 SELECT sum(amount), count(*) FROM payments GROUP BY card OVER SLIDING 300000 ms\noffset 0\noffset 300000\nwindow 0 0 300000\nfilter 0 0 all\ngroup 0 0 card\nagg 0 0 count(*)\nagg 1 0 sum(amount)\n",
        ..CHECKING
    },
    // two that share a window and its filter
    StoreCall {
        plan: WINDOW_SHARED,
        put: b"query 0 SELECT count(*), sum(amount) FROM payments GROUP BY card OVER SLIDING 300000 ms\nquery 1 SELECT count(*) FROM payments GROUP BY merchant OVER SLIDING 300000 ms\noffset 0\noffset 300000\nwindow 0 0 300000\nfilter 0 0 all\ngroup 0 0 card\ngroup 1 0 merchant\nagg 0 0 count(*)\nagg 1 0 sum(amount)\nagg 2 1 count(*)\n",
        ..CHECKING
    },
    // a window that begins at the offset at which another ends
    StoreCall {
        plan: OFFSET_SHARED,
        put: b"query 0 SELECT count(*) FROM payments OVER SLIDING 5 ms\nquery 1 SELECT count(*) FROM payments OVER SLIDING 10 ms DELAYED BY 5 ms\noffset 0\noffset 5\noffset 15\nwindow 0 0 5\nwindow 1 5 15\nfilter 0 0 all\nfilter 1 1 all\ngroup 0 0 -\ngroup 1 1 -\nagg 0 0 count(*)\nagg 1 1 count(*)\n",
        ..CHECKING
    },
    // a put that fails is told
    StoreCall {
        failing: &[0],
        call: Call::Check(Err(CheckFault::Write)),
        ..CHECKING
    },
];

#[test]
fn a_check_lists_queries_and_their_nodes_once(rt: HostRuntime) -> Result<(), Fail> {
    assert_each(&rt, rt, CHECKS)
}

/// The number of a card's payments within five minutes.
const COUNTS: &str =
    "queries = [\"SELECT count(*) FROM payments GROUP BY card OVER SLIDING 5 minutes\"]\n\n[stream]\nname = \"payments\"\ncolumns = [\"ts\", \"card:text\"]\n";

/// Four payments, each in five bytes.
const PAYMENTS: &[u8] = b"0,c1\n1,c1\n2,c1\n3,c1\n";

/// A run over an empty store, which reads them at once, and what it puts.
const RUNNING: StoreCall = StoreCall {
    plan: COUNTS,
    files: EMPTY,
    failing: &[],
    call: Call::Run(PAYMENTS, 20),
    put: b"open 0 0 0\n0 ok 1\n1 ok 2\n2 ok 3\n3 ok 4\nstored 4\nsaved 4\ndone 4 4\n",
    left: None,
};

const RUNS: &[StoreCall] = &[
    RUNNING,
    StoreCall {
        call: Call::Run(PAYMENTS, 5),
        ..RUNNING
    },
    StoreCall {
        call: Call::Run(PAYMENTS, 10),
        ..RUNNING
    },
    StoreCall {
        call: Call::Run(PAYMENTS, 7),
        ..RUNNING
    },
    StoreCall {
        call: Call::Run(PAYMENTS, 1),
        ..RUNNING
    },
    StoreCall {
        call: Call::Run(PAYMENTS, 100),
        ..RUNNING
    },
];

#[test]
fn a_run_puts_the_same_however_its_lines_are_read(rt: HostRuntime) -> Result<(), Fail> {
    assert_each(&rt, rt, RUNS)
}

/// So many bytes a read, and how often more replies are put than where one read has all four lines. The store is
/// opened, written and closed by the same calls, however the lines come: so the calls that a run makes more than
/// another one are puts.
#[derive(Clone, Copy)]
struct Gathered {
    most: usize,
    more: u64,
}

/// How many calls of the host such a run makes.
fn calls_of_run(alloc: Global, most: usize, checks: &mut Checks) -> Result<Option<u64>, Memory> {
    calls_of(alloc, EMPTY, COUNTS, Call::Run(PAYMENTS, most), checks)
}

impl Row for Gathered {
    fn is_so(&self, rt: HostRuntime, checks: &mut Checks) -> Result<bool, Memory> {
        let at_once = calls_of_run(rt.alloc(), 20, checks)?;
        let calls = calls_of_run(rt.alloc(), self.most, checks)?;
        match (at_once, calls) {
            (Some(at_once), Some(calls)) => {
                Ok(checks.same("calls", calls, at_once.saturating_add(self.more)))
            }
            _ => Ok(false),
        }
    }
}

const ALL_GATHERED: &[Gathered] = &[
    Gathered { most: 5, more: 3 },
    Gathered { most: 10, more: 1 },
    // the third read ends one line, and the fourth one the last two
    Gathered { most: 7, more: 2 },
    Gathered { most: 1, more: 3 },
    Gathered { most: 100, more: 0 },
];

#[test]
fn lines_that_are_read_at_once_are_put_at_once(rt: HostRuntime) -> Result<(), Fail> {
    assert_each(&rt, rt, ALL_GATHERED)
}
