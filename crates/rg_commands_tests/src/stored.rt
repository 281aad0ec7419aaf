use super::scenario::{EMPTY, Left, Scenario, assert_all, host_of, left_by};
use super::setting::{
    Call, DAMAGED_LOG, DUMP, LOG, RUN, RUN_THREE, Row, THREE, THREE_PUT, assert_row, status_on,
    text_behind,
};
use rg_messages::Status;
use std::process::Abort;
use std::test::Fail;

/// A run over three payments into a store of at most two.
const TWO_AT_MOST: Call<'static> = Call {
    settings: "cache = 1\nchunk = 2\ncommit = 2\nsave = 4\nevents = 2\n",
    input: THREE,
    wanted: "open 2 2 2\n2 full\nstored 2\nsaved 2\ndone 3 2\n",
    ..RUN
};

/// A run without a line that is refused for its words.
const REFUSED: Call<'static> = Call {
    wanted: "refused usage\n",
    ends: Status::Usage,
    ..RUN
};

const STORED: &[Scenario<'static>] = &[
    Scenario {
        says: "a run puts its marks",
        calls: &[
            Call {
                wanted: "open 0 0 0\nstored 0\nsaved 0\ndone 0 0\n",
                ..RUN
            },
            RUN_THREE,
            Call {
                input: b"7,c1,m1,1\n7,c1,m1,1\n",
                wanted: "open 0 0 0\n0 ok 1 1\n1 ok 2 2\nstored 2\nstored 2\nsaved 2\ndone 2 2\n",
                ..RUN
            },
            Call {
                input: b"10,c1,m1,1\n9,c1,m1,1\n10,c1,m1,1\n",
                wanted: "open 0 0 0\n0 ok 1 1\n1 late\n2 ok 2 2\nstored 3\nstored 3\nsaved 2\ndone 3 2\n",
                ..RUN
            },
        ],
        ..EMPTY
    },
    Scenario {
        says: "a later run goes on",
        runs: &[
            RUN_THREE,
            Call {
                input: THREE,
                wanted: "open 3 3 3\nstored 3\nsaved 3\ndone 3 3\n",
                ..RUN
            },
            Call {
                words: &["run", "plan", "store", "5"],
                input: THREE,
                wanted: "refused gap 5 3\n",
                ends: Status::Gap,
                ..RUN
            },
            Call {
                words: &["run", "plan", "store", "3"],
                query: "SELECT sum(amount) FROM payments OVER INFINITE",
                input: b"300001,c9,m9,1\n",
                wanted: "open 3 3 0\n3 ok 351\nstored 4\nsaved 4\nstored 4\nsaved 4\ndone 4 4\n",
                ..RUN
            },
            Call {
                query: "SELECT count(*) FROM payments GROUP BY card OVER SLIDING 10 ms",
                columns: "\"ts\", \"card:text\"",
                input: THREE,
                wanted: "refused store schema\n",
                ends: Status::Store,
                ..RUN
            },
        ],
        ..EMPTY
    },
    Scenario {
        says: "a full store accepts no more",
        runs: &[
            Call {
                wanted: "open 0 0 0\n0 ok 1 100\n1 ok 2 300\nstored 2\n2 full\nstored 2\nsaved 2\ndone 3 2\n",
                ..TWO_AT_MOST
            },
            TWO_AT_MOST,
            Call {
                settings: "cache = 1\nchunk = 2\ncommit = 2\nsave = 4\nevents = 1\n",
                ..TWO_AT_MOST
            },
        ],
        ..EMPTY
    },
    Scenario {
        says: "a damaged store is refused",
        log: DAMAGED_LOG,
        runs: &[Call {
            input: THREE,
            wanted: "refused store damaged 0\n",
            ends: Status::Store,
            ..RUN
        }],
        ..EMPTY
    },
    Scenario {
        says: "a first line is a number up to a limit",
        calls: &[
            Call {
                words: &["run", "plan", "store", "0"],
                wanted: "open 0 0 0\nstored 0\nsaved 0\ndone 0 0\n",
                ..RUN
            },
            Call {
                words: &["run", "plan", "store", "000"],
                wanted: "open 0 0 0\nstored 0\nsaved 0\ndone 0 0\n",
                ..RUN
            },
            Call {
                words: &["run", "plan", "store", "2305843009213693952"],
                wanted: "refused gap 2305843009213693952 0\n",
                ends: Status::Gap,
                ..RUN
            },
            Call {
                words: &["run", "plan", "store", "2305843009213693953"],
                ..REFUSED
            },
            Call {
                words: &["run", "plan", "store", "-1"],
                ..REFUSED
            },
            Call {
                words: &["run", "plan", "store", ""],
                ..REFUSED
            },
            Call {
                words: &["run", "plan", "store", "x"],
                ..REFUSED
            },
        ],
        ..EMPTY
    },
    // the gates of three frames and of the end, and the tags of two chunks
    Scenario {
        says: "a run writes its payments by columns",
        runs: &[RUN_THREE],
        left: &[
            Left::At(2, 0, &[1]),
            Left::At(2, 57, &[1]),
            Left::At(2, 66, &[0x4b]),
            Left::At(2, 154, &[1]),
            Left::At(2, 163, &[0x4b]),
            Left::End(2, 236, &[0]),
        ],
        ..EMPTY
    },
    // two payments by rows, and a third one by columns behind them
    Scenario {
        says: "a run goes on by columns where a log has rows",
        log: LOG,
        runs: &[
            Call {
                input: THREE,
                wanted: "open 2 2 0\n2 ok 2 250\nstored 3\nsaved 3\ndone 3 3\n",
                ..RUN
            },
            Call {
                wanted: "payments(ts,card:text,merchant:text,amount:int)\n0,0,c1,m1,100\n1,299999,c1,m2,200\n2,300000,c1,m1,50\n",
                ..DUMP
            },
        ],
        left: &[
            Left::Front(2, 163, LOG),
            Left::At(2, 172, &[0x4b]),
            Left::End(2, 246, b""),
        ],
        ..EMPTY
    },
];

#[test]
fn a_run_puts_its_marks_and_a_later_one_goes_on(rt: HostRuntime) -> Result<(), Fail> {
    assert_all(&rt, STORED)
}

/// A run over three payments.
static OVER_THREE: Call<'static> = RUN_THREE;

/// That run alone.
static WHOLE: Scenario<'static> = Scenario {
    says: "a run over three payments",
    runs: &[RUN_THREE],
    ..EMPTY
};

/// The text behind the first line.
fn behind_open(text: &str) -> &str {
    match text.split_once('\n') {
        Some((_, rest)) => rest,
        None => "",
    }
}

/// Whether a run refuses a log that was cut, or puts the end of what it put for the three payments.
fn is_read_or_refused(text: &str, status: Status) -> bool {
    match status {
        Status::Store => text.starts_with("refused store damaged "),
        Status::Ok => text.ends_with("done 3 3\n") && THREE_PUT.ends_with(behind_open(text)),
        _ => false,
    }
}

/// A run over a store with this log does so.
fn assert_cut_well(rt: &(impl Abort + AllocGlobal), log: &[u8]) -> Result<(), Fail> {
    let mut host = host_of(rt.alloc(), log, &[])?;
    let status = status_on(rt.alloc(), &OVER_THREE, &mut host);
    let text = text_behind(&host, 0);
    let is_well = match &status {
        Ok(status) => is_read_or_refused(text, *status),
        Err(_) => false,
    };
    drop(host);
    status?;
    let row = Row {
        says: "a log that is cut",
        number: log.len(),
    };
    assert_row(rt, row, "it is read or refused", is_well)
}

/// A run over each front of this log does so.
fn assert_each_front(rt: &(impl Abort + AllocGlobal), log: &[u8]) -> Result<(), Fail> {
    for length in 0..log.len() {
        assert_cut_well(rt, &log[..length])?;
    }
    Ok(())
}

#[test]
fn a_log_cut_short_is_read_or_refused(rt: HostRuntime) -> Result<(), Fail> {
    let whole = left_by(&rt, &WHOLE)?;
    let done = assert_each_front(&rt, whole.file(2));
    drop(whole);
    done
}
