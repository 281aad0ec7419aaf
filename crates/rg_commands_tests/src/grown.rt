use super::changes::Change;
use super::scenario::{EMPTY, Left, STAYS, Scenario, assert_all, is_left, left_by};
use super::setting::{COUNTRIES, Call, DUMP, INFO, LOG, RUN, RUN_THREE, Row, SMALL, assert_row};
use rg_host::{MemHost, Pick};
use rg_messages::Status;
use std::process::Abort;
use std::test::Fail;

/// The columns of payments that have a country and a fee behind it.
const FEES: &str =
    "\"ts\", \"card:text\", \"merchant:text\", \"amount:int\", \"country:text\", \"fee:int\"";

/// Small settings, and what stands for the country in earlier payments.
const UNKNOWN: &str =
    "cache = 1\nchunk = 2\ncommit = 2\nsave = 4\n[stream.defaults]\ncountry = \"??\"\n";

/// The same with a default of a column that the store has, and of the fee.
const ALL_KNOWN: &str =
    "cache = 1\nchunk = 2\ncommit = 2\nsave = 4\n[stream.defaults]\ncard = \"c9\"\ncountry = \"??\"\nfee = \"-3\"\n";

/// A run that begins with line 3, over a payment that has a country.
const GROWS: Call<'static> = Call {
    words: &["run", "plan", "store", "3"],
    query: "SELECT count(*), countDistinct(country) FROM payments GROUP BY country OVER INFINITE",
    columns: COUNTRIES,
    settings: UNKNOWN,
    input: b"300001,c1,m1,9,??\n",
    wanted: "open 3 3 0\n3 ok 4 1\nstored 4\nsaved 4\nstored 4\nsaved 4\ndone 4 4\n",
    ..RUN
};

/// The same once that payment is in the store, and the checkpoint of all four.
const GROWN: Call<'static> = Call {
    wanted: "open 4 4 4\nstored 4\nsaved 4\ndone 4 4\n",
    ..GROWS
};

/// A run of the first queries that begins with line 3, by the schema with a country.
const OLD_QUERIES: Call<'static> = Call {
    words: &["run", "plan", "store", "3"],
    columns: COUNTRIES,
    settings: UNKNOWN,
    wanted: "open 3 3 3\nstored 3\nsaved 3\ndone 3 3\n",
    ..RUN
};

/// A run that is refused for its schema.
const REFUSED: Call<'static> = Call {
    wanted: "refused store schema\n",
    ends: Status::Store,
    ..RUN
};

/// By hand, from place 236 of a log of three payments on: the frame of the growth by the country, with 69 bytes of payload, that
/// of a chunk of one payment by columns, with 76, and a closed gate.
const GROWTH_AND_PAYMENT: &[u8] =
    b"\x01\0\0\0\0\0\0\0\x45G\0\0\0\x3cpayments(ts,card:text,merchant:text,amount:int,country:text)\x03\x02??\x01\0\0\0\0\0\0\0\x4cK\0\0\0\x01\0\0\0\0\0\0\0\x03\0\0\0\0\0\x04\x93\xe1\0\0\0\0\0\0\0\x03\0\0\0\0\0\x04\x93\xe1\0\0\0\0\0\0\0\x03\x01\0\0\0\0\0\0\x04\x93\xe1\x01\0\x02c1\x02m1\0\0\0\0\0\0\0\x09\x01\0\x02??\0";

/// A run of both further columns over a payment that has them, over a store that has one of them.
const GROWS_AGAIN: Call<'static> = Call {
    words: &["run", "plan", "store", "4"],
    columns: FEES,
    settings: ALL_KNOWN,
    input: b"300002,c1,m1,1,NL,7\n",
    wanted: "open 4 4 4\n4 ok 1 1\nstored 5\nsaved 5\ndone 5 5\n",
    ..GROWS
};

/// A run over a store of rows that grows, over four payments, of which two are in the store.
const RUN_FOUR: Call<'static> = Call {
    query: "SELECT count(*), sum(amount) FROM payments GROUP BY card, country OVER SLIDING 5 minutes",
    columns: COUNTRIES,
    settings: UNKNOWN,
    input: b"0,c1,m1,100,??\n299999,c1,m2,200,??\n300000,c1,m1,50,??\n300000,c1,m1,1,NL\n",
    wanted: "open 2 2 0\n2 ok 2 250\n3 ok 1 1\nstored 4\nsaved 4\nstored 4\nsaved 4\ndone 4 4\n",
    ..RUN
};

/// A run of the first queries without an input, where there is no payment.
const NONE: Call<'static> = Call {
    wanted: "open 0 0 0\nstored 0\nsaved 0\ndone 0 0\n",
    ..RUN
};

/// The same over two payments with a country.
const FROM_NONE: Call<'static> = Call {
    columns: COUNTRIES,
    settings: UNKNOWN,
    input: b"0,c1,m1,100,NL\n300000,c1,m1,50,NL\n",
    wanted: "open 0 0 0\n0 ok 1 100\n1 ok 1 50\nstored 2\nstored 2\nsaved 2\ndone 2 2\n",
    ..RUN
};

/// A run with a default of the country that is refused for its schema.
const OTHER: Call<'static> = Call {
    query: "SELECT count(*) FROM payments GROUP BY card OVER INFINITE",
    settings: UNKNOWN,
    ..REFUSED
};

const GROWN_STORES: &[Scenario<'static>] = &[
    Scenario {
        says: "a run writes one growth and earlier payments have its default",
        runs: &[
            RUN_THREE,
            GROWS,
            Call {
                wanted: "payments(ts,card:text,merchant:text,amount:int,country:text)\n0,0,c1,m1,100,??\n1,299999,c1,m2,200,??\n2,300000,c1,m1,50,??\n3,300001,c1,m1,9,??\n",
                ..DUMP
            },
            Call {
                wanted: "events 4\nnext 4\ntime 300001\nframes 5\nslot 0 4 1\nslot 1 none\n",
                ..INFO
            },
            Call {
                words: &["replay", "plan", "store"],
                wanted: "0 ok 1 1\n1 ok 2 1\n2 ok 3 1\n3 ok 4 1\ndone 4 4\n",
                ..GROWS
            },
            Call {
                words: &["verify", "plan", "store"],
                wanted: "slot 0 ok 4\nslot 1 none\n",
                ..GROWS
            },
            REFUSED,
            GROWN,
        ],
        left: &[Left::End(2, 236, GROWTH_AND_PAYMENT)],
        ..EMPTY
    },
    Scenario {
        says: "the old queries go on from their checkpoint",
        runs: &[
            RUN_THREE,
            // with the growth; over the grown store; and with one more, and defaults of columns that are there
            OLD_QUERIES,
            OLD_QUERIES,
            Call {
                columns: FEES,
                settings: ALL_KNOWN,
                ..OLD_QUERIES
            },
            Call {
                wanted: "events 3\nnext 3\ntime 300000\nframes 5\nslot 0 3 1\nslot 1 none\n",
                ..INFO
            },
            Call {
                wanted: "payments(ts,card:text,merchant:text,amount:int,country:text,fee:int)\n0,0,c1,m1,100,??,-3\n1,299999,c1,m2,200,??,-3\n2,300000,c1,m1,50,??,-3\n",
                ..DUMP
            },
        ],
        ..EMPTY
    },
    Scenario {
        says: "a store grows again behind further payments",
        runs: &[
            RUN_THREE,
            GROWS,
            GROWS_AGAIN,
            Call {
                wanted: "payments(ts,card:text,merchant:text,amount:int,country:text,fee:int)\n0,0,c1,m1,100,??,-3\n1,299999,c1,m2,200,??,-3\n2,300000,c1,m1,50,??,-3\n3,300001,c1,m1,9,??,-3\n4,300002,c1,m1,1,NL,7\n",
                ..DUMP
            },
            Call {
                words: &["replay", "plan", "store"],
                query: "SELECT count(*), sum(fee) FROM payments GROUP BY country OVER INFINITE",
                wanted: "0 ok 1 -3\n1 ok 2 -6\n2 ok 3 -9\n3 ok 4 -12\n4 ok 1 7\ndone 5 5\n",
                ..GROWS_AGAIN
            },
            Call {
                wanted: "refused store schema\n",
                ends: Status::Store,
                ..GROWS
            },
        ],
        ..EMPTY
    },
];

#[test]
fn a_store_grows_to_a_longer_plan(rt: HostRuntime) -> Result<(), Fail> {
    assert_all(&rt, GROWN_STORES)
}

const GROWN_OTHERS: &[Scenario<'static>] = &[
    Scenario {
        says: "a store of rows grows",
        log: LOG,
        runs: &[
            RUN_FOUR,
            Call {
                wanted: "payments(ts,card:text,merchant:text,amount:int,country:text)\n0,0,c1,m1,100,??\n1,299999,c1,m2,200,??\n2,300000,c1,m1,50,??\n3,300000,c1,m1,1,NL\n",
                ..DUMP
            },
            Call {
                words: &["replay", "plan", "store"],
                wanted: "0 ok 1 100\n1 ok 2 300\n2 ok 2 250\n3 ok 1 1\ndone 4 4\n",
                ..RUN_FOUR
            },
        ],
        ..EMPTY
    },
    // the first schema alone, and the growth behind it
    Scenario {
        says: "a log without a payment grows",
        runs: &[
            NONE,
            FROM_NONE,
            Call {
                wanted: "events 2\nnext 2\ntime 300000\nframes 3\nslot 0 2 1\nslot 1 none\n",
                ..INFO
            },
        ],
        ..EMPTY
    },
    // the longer schema alone
    Scenario {
        says: "a log without a frame begins with the longer schema",
        runs: &[
            FROM_NONE,
            Call {
                wanted: "events 2\nnext 2\ntime 300000\nframes 2\nslot 0 2 1\nslot 1 none\n",
                ..INFO
            },
        ],
        ..EMPTY
    },
    Scenario {
        says: "a run that is refused behind the opening leaves the growth",
        runs: &[
            RUN_THREE,
            Call {
                words: &["run", "plan", "store", "9"],
                wanted: "refused gap 9 3\n",
                ends: Status::Gap,
                ..GROWS
            },
            Call {
                wanted: "events 3\nnext 3\ntime 300000\nframes 4\nslot 0 3 1\nslot 1 none\n",
                ..INFO
            },
        ],
        ..EMPTY
    },
];

#[test]
fn a_store_of_rows_or_without_a_payment_grows(rt: HostRuntime) -> Result<(), Fail> {
    assert_all(&rt, GROWN_OTHERS)
}

const LEFT_STORES: &[Scenario<'static>] = &[
    Scenario {
        says: "a plan to which the store does not grow is refused",
        runs: &[RUN_THREE],
        calls: &[
            // no default, and none of the second further column
            Call {
                columns: COUNTRIES,
                settings: SMALL,
                ..OTHER
            },
            Call {
                columns: FEES,
                ..OTHER
            },
            // a column less, one of another name, one of another kind, two in another order, and one between them
            Call {
                columns: "\"ts\", \"card:text\", \"amount:int\", \"country:text\"",
                ..OTHER
            },
            Call {
                columns: "\"ts\", \"card:text\", \"shop:text\", \"amount:int\", \"country:text\"",
                ..OTHER
            },
            Call {
                columns: "\"ts\", \"card:text\", \"merchant:text\", \"amount:id\", \"country:text\"",
                ..OTHER
            },
            Call {
                columns: "\"ts\", \"merchant:text\", \"card:text\", \"amount:int\", \"country:text\"",
                ..OTHER
            },
            Call {
                columns: "\"ts\", \"card:text\", \"country:text\", \"merchant:text\", \"amount:int\"",
                ..OTHER
            },
        ],
        ..STAYS
    },
    Scenario {
        says: "a damaged log does not grow",
        log: LOG,
        calls: &[Call {
            log: &[Change::Front(100)],
            wanted: "refused store damaged 57\n",
            ends: Status::Store,
            ..GROWS
        }],
        ..STAYS
    },
];

#[test]
fn a_store_that_does_not_grow_is_left(rt: HostRuntime) -> Result<(), Fail> {
    assert_all(&rt, LEFT_STORES)
}

/// By hand, from place 236 of a log of three payments on: the frame of the growth by the country, with 69 bytes of payload, and
/// a closed gate.
const GROWTH: Left<'static> = Left::End(
    2,
    236,
    b"\x01\0\0\0\0\0\0\0\x45G\0\0\0\x3cpayments(ts,card:text,merchant:text,amount:int,country:text)\x03\x02??\0",
);

/// A run that adds a column, and whose input can't be read: it puts the open line and the last one.
const OPENED: Scenario<'static> = Scenario {
    says: "a growth stands in the log from the open line on",
    runs: &[
        RUN_THREE,
        Call {
            failing_reads: &[0],
            wanted: "open 3 3 0\nfailed read\n",
            ends: Status::Read,
            ..GROWS
        },
    ],
    ..EMPTY
};

/// What a stop in front of this host's last call leaves, which puts the last line, has the growth, by any pick.
fn assert_grown(rt: &impl Abort, host: &MemHost) -> Result<(), Fail> {
    let calls = host.calls().saturating_sub(1);
    for (number, pick) in [Pick::Old, Pick::New, Pick::Torn(1)].iter().enumerate() {
        let left = host.stop_image(calls, *pick)?;
        let stands = is_left(&left, GROWTH);
        drop(left);
        let says = OPENED.says;
        assert_row(rt, Row { says, number }, "it is left", stands)?;
    }
    Ok(())
}

#[test]
fn a_growth_stands_in_the_log_from_the_open_line_on(rt: HostRuntime) -> Result<(), Fail> {
    let host = left_by(&rt, &OPENED)?;
    let done = assert_grown(&rt, &host);
    drop(host);
    done
}
