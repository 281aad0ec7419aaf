use super::changes::Change;
use super::scenario::{STAYS, Scenario, assert_all};
use super::setting::{
    CARDS, COUNTRIES, Call, Compared, MERCHANTS, REPLAY, REPLAY_THREE, ROWS, RUN_THREE,
};
use rg_messages::Status;
use std::test::Fail;

/// A replay that is refused for its words.
const REFUSED: Call<'static> = Call {
    wanted: "refused usage\n",
    ends: Status::Usage,
    ..REPLAY
};

/// A replay of a damaged log.
const DAMAGED: Call<'static> = Call {
    ends: Status::Store,
    ..REPLAY
};

/// A replay by a plan with a column more, of which earlier payments have a default.
const LONGER: Call<'static> = Call {
    query: "SELECT count(*), countDistinct(country) FROM payments GROUP BY country OVER INFINITE",
    columns: COUNTRIES,
    settings: "[stream.defaults]\ncountry = \"??\"\n",
    ..REPLAY
};

/// A run by that plan over a payment more, by which the store grows.
const GROWS: Call<'static> = Call {
    words: &["run", "plan", "store", "3"],
    input: b"300001,c1,m1,9,NL\n",
    failing_reads: &[],
    wanted: "open 3 3 0\n3 ok 1 1\nstored 4\nsaved 4\ndone 4 4\n",
    ..LONGER
};

const REPLAYED: &[Scenario<'static>] = &[
    // with the slot of the run, and without it
    Scenario {
        says: "a replay puts the replies of its run, over a store by columns",
        runs: &[RUN_THREE],
        calls: &[
            REPLAY_THREE,
            Call {
                slot: &[Change::Front(0)],
                ..REPLAY_THREE
            },
        ],
        ..STAYS
    },
    Scenario {
        says: "a replay puts the replies of its run, over a store of rows",
        log: ROWS,
        calls: &[REPLAY_THREE],
        ..STAYS
    },
    Scenario {
        says: "a replay by another plan has its answers",
        log: ROWS,
        calls: &[Call {
            query: MERCHANTS,
            settings: "",
            wanted: "0 ok 1\n1 ok 1\n2 ok 2\ndone 3 3\n",
            ..REPLAY
        }],
        ..STAYS
    },
    Scenario {
        says: "a replay begins at an offset",
        log: ROWS,
        calls: &[
            Call {
                words: &["replay", "plan", "store", "0"],
                ..REPLAY_THREE
            },
            Call {
                words: &["replay", "plan", "store", "1"],
                wanted: "1 ok 2 300\n2 ok 2 250\ndone 3 3\n",
                ..REPLAY
            },
            Call {
                words: &["replay", "plan", "store", "3"],
                wanted: "done 3 3\n",
                ..REPLAY
            },
            Call {
                words: &["replay", "plan", "store", "4611686018427387904"],
                wanted: "done 3 3\n",
                ..REPLAY
            },
            Call {
                words: &["replay", "plan", "store", "4611686018427387905"],
                ..REFUSED
            },
            Call {
                words: &["replay", "plan", "store", "-1"],
                ..REFUSED
            },
            Call {
                words: &["replay", "plan", "store", ""],
                ..REFUSED
            },
        ],
        ..STAYS
    },
    Scenario {
        says: "a replay of no store puts its end",
        calls: &[Call {
            wanted: "done 0 0\n",
            ..REPLAY
        }],
        ..STAYS
    },
    Scenario {
        says: "a replay of an unfit store says why",
        log: ROWS,
        calls: &[
            Call {
                query: "SELECT count(*) FROM payments GROUP BY card OVER SLIDING 10 ms",
                columns: CARDS,
                settings: "",
                log: &[Change::Front(163), Change::More(&[0])],
                wanted: "refused store schema\n",
                ..DAMAGED
            },
            Call {
                log: &[
                    Change::Front(0),
                    Change::More(&[1, 0, 0, 0, 0, 0, 0, 0, 0xff, 0]),
                ],
                wanted: "refused store damaged 0\n",
                ..DAMAGED
            },
            // what the heads show is refused before the first line
            Call {
                log: &[Change::Front(100)],
                wanted: "refused store damaged 57\n",
                ..DAMAGED
            },
        ],
        ..STAYS
    },
    Scenario {
        says: "a longer plan replays no store that has not grown",
        log: ROWS,
        calls: &[Call {
            wanted: "refused store schema\n",
            ends: Status::Store,
            ..LONGER
        }],
        ..STAYS
    },
    Scenario {
        says: "a longer plan replays a store that a run has grown",
        runs: &[RUN_THREE, GROWS],
        calls: &[
            Call {
                wanted: "0 ok 1 1\n1 ok 2 1\n2 ok 3 1\n3 ok 1 1\ndone 4 4\n",
                ..LONGER
            },
            Call {
                words: &["replay", "plan", "store", "2"],
                query: "SELECT count(*), sum(amount) FROM payments GROUP BY card OVER SLIDING 5 minutes",
                wanted: "2 ok 2 250\n3 ok 3 259\ndone 4 4\n",
                ..LONGER
            },
            Call {
                wanted: "refused store schema\n",
                ends: Status::Store,
                ..REPLAY
            },
        ],
        ..STAYS
    },
    // the length of the first text of the last payment is another one
    Scenario {
        says: "a chunk with a bad inside is told behind whole lines",
        log: ROWS,
        calls: &[Call {
            log: &[Change::Byte(225, 9)],
            compared: Compared::FrontAndLast,
            last: "refused store damaged 163\n",
            ends: Status::Store,
            ..REPLAY_THREE
        }],
        ..STAYS
    },
];

#[test]
fn a_replay_puts_the_replies_of_its_run(rt: HostRuntime) -> Result<(), Fail> {
    assert_all(&rt, REPLAYED)
}
