use super::scenario::{EMPTY, Scenario, assert_all};
use super::setting::{Call, GRACED, PLAIN, RUN, SMALL, THREE, THREE_PUT};
use rg_messages::Status;
use std::test::Fail;

/// A run in small chunks, in which a payment may be earlier than the last one by one millisecond.
const RUN_GRACED: Call<'static> = Call {
    settings: GRACED,
    ..RUN
};

/// Such a run over three payments, of which the second is earlier than the first by one millisecond.
const EARLY: Call<'static> = Call {
    input: b"10,c1,m1,1\n9,c1,m1,1\n10,c1,m1,1\n",
    wanted: "open 0 0 0\n0 ok 1 1\n1 moved 2 2\nstored 2\n2 ok 3 3\nstored 3\nsaved 3\ndone 3 3\n",
    ..RUN_GRACED
};

/// What a run puts where the second payment is late.
const LATE_PUT: &str =
    "open 0 0 0\n0 ok 1 1\n1 late\n2 ok 2 2\nstored 3\nstored 3\nsaved 2\ndone 3 2\n";

/// A run that is refused for its settings.
const REFUSED: Call<'static> = Call {
    wanted: "refused plan settings\n",
    ends: Status::Plan,
    ..EARLY
};

const MOVED: &[Scenario<'static>] = &[
    Scenario {
        says: "a payment within the grace is moved",
        calls: &[
            EARLY,
            Call {
                settings: SMALL,
                wanted: LATE_PUT,
                ..EARLY
            },
            Call {
                input: b"10,c1,m1,1\n8,c1,m1,1\n10,c1,m1,1\n",
                wanted: LATE_PUT,
                ..RUN_GRACED
            },
            Call {
                settings: "commit = 2\ngrace = 1_000_000_000_000_000\n",
                input: b"1000000000000000,c1,m1,1\n0,c1,m1,1\n",
                wanted: "open 0 0 0\n0 ok 1 1\n1 moved 2 2\nstored 2\nstored 2\nsaved 2\ndone 2 2\n",
                ..PLAIN
            },
        ],
        ..EMPTY
    },
    Scenario {
        says: "a moved payment is stored with the last time",
        runs: &[
            EARLY,
            Call {
                words: &["dump", "store"],
                wanted: "payments(ts,card:text,merchant:text,amount:int)\n0,10,c1,m1,1\n1,10,c1,m1,1\n2,10,c1,m1,1\n",
                ..EARLY
            },
            Call {
                words: &["replay", "plan", "store"],
                wanted: "0 ok 1 1\n1 ok 2 2\n2 ok 3 3\ndone 3 3\n",
                ..EARLY
            },
        ],
        ..EMPTY
    },
    Scenario {
        says: "a payment within the grace of a full store is one too many",
        calls: &[Call {
            settings: "events = 1\ngrace = 1\n",
            input: b"10,c1,m1,1\n9,c1,m1,1\n8,c1,m1,1\n",
            wanted: "open 0 0 0\n0 ok 1 1\n1 full\n2 late\nstored 1\nsaved 1\ndone 3 1\n",
            ..PLAIN
        }],
        ..EMPTY
    },
    Scenario {
        says: "the first payment of a later run may be moved",
        runs: &[
            Call {
                input: THREE,
                wanted: THREE_PUT,
                ..RUN_GRACED
            },
            Call {
                words: &["run", "plan", "store", "3"],
                input: b"299999,c1,m1,7\n",
                wanted: "open 3 3 3\n3 moved 3 257\nstored 4\nsaved 4\nstored 4\nsaved 4\ndone 4 4\n",
                ..RUN_GRACED
            },
        ],
        ..EMPTY
    },
    Scenario {
        says: "a grace out of its range is refused",
        calls: &[
            Call {
                settings: "grace = -1\n",
                ..REFUSED
            },
            Call {
                settings: "grace = 1_000_000_000_000_001\n",
                ..REFUSED
            },
        ],
        ..EMPTY
    },
];

#[test]
fn a_payment_within_the_grace_is_moved(rt: HostRuntime) -> Result<(), Fail> {
    assert_all(&rt, MOVED)
}
