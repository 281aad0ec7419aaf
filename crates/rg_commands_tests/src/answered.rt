use super::pieces::Piece;
use super::scenario::{EMPTY, Scenario, assert_all};
use super::setting::{CARDS, Call, PLAIN, SMALL, THREE};
use rg_messages::Status;
use std::test::Fail;

/// A run of a count of a card's payments within five minutes.
const MINUTES: Call<'static> = Call {
    query: "SELECT count(*) FROM payments GROUP BY card OVER SLIDING 5 minutes",
    ..PLAIN
};

/// A run of a count of a card's rows within ten milliseconds, which have the card alone.
const TEN: Call<'static> = Call {
    query: "SELECT count(*) FROM payments GROUP BY card OVER SLIDING 10 ms",
    columns: CARDS,
    ..PLAIN
};

/// A run of a count under a condition.
const DEAR: Call<'static> = Call {
    query: "SELECT count(*) FROM payments WHERE amount > 100 GROUP BY card OVER SLIDING 5 minutes",
    ..PLAIN
};

/// A run over one row that is refused for its plan.
const REFUSED: Call<'static> = Call {
    input: b"1,c1\n",
    ends: Status::Plan,
    ..TEN
};

#[test]
fn refusals_have_their_numbers(rt: HostRuntime) -> Result<(), Fail> {
    let numbers = [
        Status::Usage.number(),
        Status::Limit.number(),
        Status::Read.number(),
    ];
    assert_eq!(rt; numbers, [2, 8, 5]);
    Ok(())
}

const ANSWERED: &[Scenario<'static>] = &[
    Scenario {
        says: "lines are answered in order",
        calls: &[
            Call {
                columns: CARDS,
                input: b"0,c1\n299999,c1\n300000,c1\n300000,c2\n",
                wanted: "open 0 0 0\n0 ok 1\n1 ok 2\n2 ok 2\n3 ok 1\nstored 4\nsaved 4\ndone 4 4\n",
                ..MINUTES
            },
            Call {
                input: b"10,c1\n9,c1\nx\n20,c1\n",
                wanted: "open 0 0 0\n0 ok 1\n1 late\n2 fields\n3 ok 1\nstored 4\nsaved 2\ndone 4 2\n",
                ..TEN
            },
            Call {
                input: b"10,c1\n9,c1\n9,c1\n10,c1\n",
                wanted: "open 0 0 0\n0 ok 1\n1 late\n2 late\n3 ok 2\nstored 4\nsaved 2\ndone 4 2\n",
                ..TEN
            },
            Call {
                wanted: "open 0 0 0\nstored 0\nsaved 0\ndone 0 0\n",
                ..TEN
            },
        ],
        ..EMPTY
    },
    Scenario {
        says: "a query has a condition and a delay",
        calls: &[
            Call {
                settings: SMALL,
                input: b"0,c1,m1,100\n1,c1,m1,101\n2,c2,m1,500\n",
                wanted: "open 0 0 0\n0 ok 0\n1 ok 1\nstored 2\n2 ok 1\nstored 3\nsaved 3\ndone 3 3\n",
                ..DEAR
            },
            Call {
                query: "SELECT count(*) FROM payments OVER SLIDING 10 ms DELAYED BY 5 ms",
                input: b"0,c1\n5,c1\n15,c1\n",
                wanted: "open 0 0 0\n0 ok 0\n1 ok 1\n2 ok 1\nstored 3\nsaved 3\ndone 3 3\n",
                ..TEN
            },
            Call {
                query: "SELECT count(*) FROM payments OVER SLIDING 1 ms DELAYED BY 5 ms",
                input: b"0,c1\n100,c1\n",
                wanted: "open 0 0 0\n0 ok 0\n1 ok 0\nstored 2\nsaved 2\ndone 2 2\n",
                ..TEN
            },
        ],
        ..EMPTY
    },
    Scenario {
        says: "sums are answered beside counts",
        calls: &[
            Call {
                input: THREE,
                wanted: "open 0 0 0\n0 ok 1 100\n1 ok 2 300\n2 ok 2 250\nstored 3\nsaved 3\ndone 3 3\n",
                ..PLAIN
            },
            Call {
                query: "SELECT count(*), sum(amount) FROM payments GROUP BY card OVER SLIDING 5 minutes\", \"SELECT count(*) FROM payments GROUP BY merchant OVER SLIDING 5 minutes",
                input: THREE,
                wanted: "open 0 0 0\n0 ok 1 100 1\n1 ok 2 300 1\n2 ok 2 250 1\nstored 3\nsaved 3\ndone 3 3\n",
                ..PLAIN
            },
            Call {
                input: b"7,c1,m1,1\n7,c1,m1,1\n",
                wanted: "open 0 0 0\n0 ok 1 1\n1 ok 2 2\nstored 2\nsaved 2\ndone 2 2\n",
                ..PLAIN
            },
            Call {
                input: b"10,c1,m1,1\n9,c1,m1,1\n10,c1,m1,1\n",
                wanted: "open 0 0 0\n0 ok 1 1\n1 late\n2 ok 2 2\nstored 3\nsaved 2\ndone 3 2\n",
                ..PLAIN
            },
            Call {
                query: "SELECT count(*), sum(amount) FROM payments WHERE amount > 100 GROUP BY card OVER SLIDING 5 minutes",
                input: b"0,c1,m1,50\n",
                wanted: "open 0 0 0\n0 ok 0 0\nstored 1\nsaved 1\ndone 1 1\n",
                ..PLAIN
            },
        ],
        ..EMPTY
    },
    Scenario {
        says: "extremes and distinct counts are answered",
        calls: &[
            Call {
                query: "SELECT min(amount), avg(amount) FROM payments WHERE amount >= 100 OVER SLIDING 10 ms",
                input: b"0,c1,m1,50\n1,c1,m1,100\n2,c1,m1,200\n",
                wanted: "open 0 0 0\n0 ok - -\n1 ok 100 100/1\n2 ok 100 300/2\nstored 3\nsaved 3\ndone 3 3\n",
                ..PLAIN
            },
            Call {
                query: "SELECT countDistinct(merchant) FROM payments GROUP BY card OVER SLIDING 10 ms",
                input: b"0,c1,m1,1\n5,c1,m2,1\n9,c1,m1,1\n10,c1,m2,1\n19,c1,m2,1\n",
                wanted: "open 0 0 0\n0 ok 1\n1 ok 2\n2 ok 2\n3 ok 2\n4 ok 1\nstored 5\nsaved 5\ndone 5 5\n",
                ..PLAIN
            },
            Call {
                query: "SELECT count(*), sum(amount) FROM payments GROUP BY card OVER SLIDING 5 minutes\", \"SELECT countDistinct(merchant), max(amount) FROM payments WHERE amount >= 5000 GROUP BY card OVER SLIDING 1 hour DELAYED BY 1 minute\", \"SELECT avg(amount) FROM payments OVER INFINITE",
                input: b"693,c4,m90,8095\n1133,c35,m37,1750\n",
                wanted: "open 0 0 0\n0 ok 1 8095 0 - 8095/1\n1 ok 1 1750 0 - 9845/2\nstored 2\nsaved 2\ndone 2 2\n",
                ..PLAIN
            },
        ],
        ..EMPTY
    },
    Scenario {
        says: "numbers at their limits are answered",
        calls: &[Call {
            query: "SELECT max(b), sum(a), sumsq(a), first(a), last(b) FROM payments OVER INFINITE",
            columns: "\"ts\", \"a:int\", \"b:id\"",
            input: b"1000000000000000,-1000000000000,18446744073709551615\n1000000000000001,1,1\n1000000000000000,1000000000001,1\n",
            wanted: "open 0 0 0\n0 ok 18446744073709551615 -1000000000000 1000000000000000000000000 -1000000000000 18446744073709551615\n1 time\n2 value 1\nstored 1\nsaved 1\ndone 3 1\n",
            ..PLAIN
        }],
        ..EMPTY
    },
    Scenario {
        says: "no more events are accepted than the plan allows",
        calls: &[Call {
            settings: "events = 2\n",
            input: b"0,c1,m1,100\n1,c1,m1,101\n2,c2,m1,500\n",
            wanted: "open 0 0 0\n0 ok 0\n1 ok 1\n2 full\nstored 2\nsaved 2\ndone 3 2\n",
            ..DEAR
        }],
        ..EMPTY
    },
];

#[test]
fn lines_are_answered_in_order(rt: HostRuntime) -> Result<(), Fail> {
    assert_all(&rt, ANSWERED)
}

const LINES: &[Scenario<'static>] = &[
    Scenario {
        says: "a line is refused by its first fault",
        calls: &[Call {
            input: b"1,\"c,1\",m1,7\n1,\"c1,m1,7\n\n1,c1,m1\n1000000000000001,c1,m1,1\n2,c1,m1,1000000000001\n",
            more_input: &[Piece::Times(65_536, "1"), Piece::Is("\n")],
            wanted: "open 0 0 0\n0 ok 1\n1 row\n2 row\n3 fields\n4 time\n5 value 3\n6 long\nstored 1\nsaved 1\ndone 7 1\n",
            ..MINUTES
        }],
        ..EMPTY
    },
    Scenario {
        says: "a line behind one that is too long is answered",
        calls: &[Call {
            more_input: &[Piece::Times(65_536, "1"), Piece::Is("\n1,c1,m1,7\n")],
            wanted: "open 0 0 0\n0 long\n1 ok 1\nstored 2\nsaved 1\ndone 2 1\n",
            ..MINUTES
        }],
        ..EMPTY
    },
    Scenario {
        says: "a line with an odd quote or byte is refused",
        calls: &[Call {
            input: b"1,c\"1\",m1,7\n1,c\r1,m1,7\n1,\xff,m1,7\n1,c1,m1,7\r\n",
            wanted: "open 0 0 0\n0 row\n1 row\n2 value 1\n3 ok 1\nstored 4\nsaved 1\ndone 4 1\n",
            ..MINUTES
        }],
        ..EMPTY
    },
    Scenario {
        says: "a first line is cleaned and may be a header",
        calls: &[
            Call {
                settings: "header = true\n",
                input: b"ts,card,merchant,amount\r\n5,c1,m1,1\r\n",
                wanted: "open 0 0 0\n0 head\n1 ok 1\nstored 2\nsaved 1\ndone 2 1\n",
                ..MINUTES
            },
            Call {
                input: b"\xef\xbb\xbf5,c1,m1,1\n\xef\xbb\xbf6,c1,m1,1\n",
                wanted: "open 0 0 0\n0 ok 1\n1 row\nstored 1\nsaved 1\ndone 2 1\n",
                ..MINUTES
            },
        ],
        ..EMPTY
    },
];

#[test]
fn lines_are_refused_or_cleaned(rt: HostRuntime) -> Result<(), Fail> {
    assert_all(&rt, LINES)
}

const REFUSALS: &[Scenario<'static>] = &[
    Scenario {
        says: "a check prints the queries and leaves the input alone",
        calls: &[Call {
            words: &["check", "plan"],
            settings: SMALL,
            input: b"0,c1,m1,100\n",
            failing_reads: &[0],
            wanted: "query 0 SELECT count(*) FROM payments WHERE amount > 100 GROUP BY card OVER SLIDING 300000 ms\noffset 0\noffset 300000\nwindow 0 0 300000\nfilter 0 0 amount > 100\ngroup 0 0 card\nagg 0 0 count(*)\n",
            ..DEAR
        }],
        ..EMPTY
    },
    Scenario {
        says: "a plan is refused by its first fault",
        calls: &[
            Call {
                plan: &[Piece::Is("x")],
                wanted: "refused plan toml\n",
                ..REFUSED
            },
            Call {
                columns: "\"ts\", \"card:word\"",
                settings: "cache = 0\n",
                wanted: "refused plan stream\n",
                ..REFUSED
            },
            Call {
                settings: "cache = 0\n",
                wanted: "refused plan settings\n",
                ..REFUSED
            },
            Call {
                words: &["check", "plan"],
                query: "SELECT sum(card) FROM payments OVER SLIDING 10 ms",
                wanted: "refused plan query 0\n",
                ..REFUSED
            },
        ],
        ..EMPTY
    },
    Scenario {
        says: "a call that is refused says so last",
        calls: &[
            Call {
                words: &["run"],
                wanted: "refused usage\n",
                ends: Status::Usage,
                ..REFUSED
            },
            Call {
                failing_plan_reads: &[0],
                wanted: "failed read\n",
                ends: Status::Read,
                ..REFUSED
            },
            Call {
                plan: &[Piece::Times(65_537, "1")],
                wanted: "failed limit\n",
                ends: Status::Limit,
                ..REFUSED
            },
        ],
        ..EMPTY
    },
    Scenario {
        says: "a failed read ends a run",
        calls: &[
            Call {
                input: b"1,c1\n",
                failing_reads: &[0],
                wanted: "open 0 0 0\nfailed read\n",
                ends: Status::Read,
                ..TEN
            },
            // the reply to the first line is out before the second read
            Call {
                input: b"1,c1\n2,c",
                failing_reads: &[1],
                wanted: "open 0 0 0\n0 ok 1\nfailed read\n",
                ends: Status::Read,
                ..TEN
            },
        ],
        ..EMPTY
    },
];

#[test]
fn a_call_that_is_refused_says_why(rt: HostRuntime) -> Result<(), Fail> {
    assert_all(&rt, REFUSALS)
}
