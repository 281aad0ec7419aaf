use super::scenario::{STAYS, Scenario, assert_all};
use super::setting::{Call, GRACED, MERCHANTS, REPLAY, REPLAY_THREE, RUN, RUN_EIGHT, RUN_THREE};
use std::test::Fail;

/// A run over five payments, of which one is moved, and between them lines that are refused or ask for something.
const MIXED: Call<'static> = Call {
    settings: GRACED,
    input: b"10,c1,m1,1\n9,c1,m1,2\n!commit\nx\n7,c1,m1,4\n10,c2,m1,8\n300009,c1,m2,16\n300010,c1,m1,32\n",
    wanted: "open 0 0 0\n0 ok 1 1\n1 moved 2 3\nstored 2\n2 done\nstored 2\n3 fields\n4 late\n5 ok 1 8\n6 ok 3 19\nstored 7\nsaved 4\n7 ok 2 48\nstored 8\nsaved 5\ndone 8 5\n",
    ..RUN
};

/// A replay of what `MIXED` leaves.
const MIXED_AGAIN: Call<'static> = Call {
    settings: GRACED,
    ..REPLAY
};

/// A run over four payments of one time, in two chunks.
const AT_ONCE: Call<'static> = Call {
    input: b"7,c1,m1,1\n7,c2,m1,2\n7,c1,m2,4\n7,c1,m1,8\n",
    wanted: "open 0 0 0\n0 ok 1 1\n1 ok 1 2\nstored 2\n2 ok 2 5\n3 ok 3 13\nstored 4\nsaved 4\nstored 4\nsaved 4\ndone 4 4\n",
    ..RUN
};

const AGAIN: &[Scenario<'static>] = &[
    Scenario {
        says: "no reply of a run without a payment",
        runs: &[Call {
            wanted: "open 0 0 0\nstored 0\nsaved 0\ndone 0 0\n",
            ..RUN
        }],
        calls: &[Call {
            wanted: "done 0 0\n",
            ..REPLAY
        }],
        ..STAYS
    },
    Scenario {
        says: "the replies of a run over three payments",
        runs: &[RUN_THREE],
        calls: &[REPLAY_THREE],
        ..STAYS
    },
    Scenario {
        says: "the replies of a run over eight payments",
        runs: &[RUN_EIGHT],
        calls: &[Call {
            wanted: "0 ok 1 1\n1 ok 2 2\n2 ok 3 3\n3 ok 4 4\n4 ok 5 5\n5 ok 6 6\n6 ok 7 7\n7 ok 8 8\ndone 8 8\n",
            ..REPLAY
        }],
        ..STAYS
    },
    Scenario {
        says: "lines without a payment have no reply again",
        runs: &[MIXED],
        calls: &[
            Call {
                wanted: "0 ok 1 1\n1 ok 2 3\n5 ok 1 8\n6 ok 3 19\n7 ok 2 48\ndone 8 5\n",
                ..MIXED_AGAIN
            },
            Call {
                words: &["replay", "plan", "store", "0"],
                wanted: "0 ok 1 1\n1 ok 2 3\n5 ok 1 8\n6 ok 3 19\n7 ok 2 48\ndone 8 5\n",
                ..MIXED_AGAIN
            },
            Call {
                words: &["replay", "plan", "store", "2"],
                wanted: "5 ok 1 8\n6 ok 3 19\n7 ok 2 48\ndone 8 5\n",
                ..MIXED_AGAIN
            },
            Call {
                words: &["replay", "plan", "store", "7"],
                wanted: "7 ok 2 48\ndone 8 5\n",
                ..MIXED_AGAIN
            },
            Call {
                words: &["replay", "plan", "store", "8"],
                wanted: "done 8 5\n",
                ..MIXED_AGAIN
            },
        ],
        ..STAYS
    },
    Scenario {
        says: "an answer sees no later payment of the same time",
        runs: &[AT_ONCE],
        calls: &[
            Call {
                wanted: "0 ok 1 1\n1 ok 1 2\n2 ok 2 5\n3 ok 3 13\ndone 4 4\n",
                ..REPLAY
            },
            Call {
                query: MERCHANTS,
                wanted: "0 ok 1\n1 ok 1\n2 ok 2\n3 ok 2\ndone 4 4\n",
                ..REPLAY
            },
            Call {
                query: "SELECT count(*), sum(amount) FROM payments OVER SLIDING 1 ms",
                wanted: "0 ok 1 1\n1 ok 2 3\n2 ok 3 7\n3 ok 4 15\ndone 4 4\n",
                ..REPLAY
            },
            Call {
                query: "SELECT last(amount), max(amount) FROM payments OVER INFINITE",
                wanted: "0 ok 1 1\n1 ok 2 2\n2 ok 4 4\n3 ok 8 8\ndone 4 4\n",
                ..REPLAY
            },
            Call {
                query: "SELECT count(*) FROM payments OVER SLIDING 10 ms DELAYED BY 5 ms",
                wanted: "0 ok 0\n1 ok 0\n2 ok 0\n3 ok 0\ndone 4 4\n",
                ..REPLAY
            },
        ],
        ..STAYS
    },
];

/// A replay puts the run's own replies to payments that were accepted, each with `ok`, and then its end.
#[test]
fn the_replies_of_a_run_are_put_again(rt: HostRuntime) -> Result<(), Fail> {
    assert_all(&rt, AGAIN)
}
