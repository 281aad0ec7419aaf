use super::changes::{COUNT, COUNT_AT, Change, SPOT_AT, SUM};
use super::scenario::{EMPTY, Failing, STAYS, Scenario, assert_all};
use super::setting::{CARDS, COUNTRIES, Call, LOG, RUN_SIXTEEN, RUN_THREE, VERIFY, VERIFY_THREE};
use rg_messages::Status;
use std::test::Fail;

/// A verify that finds a row of node 0 wrong.
const WRONG: Call<'static> = Call {
    wanted: "slot 0 wrong 0\nslot 1 none\n",
    ends: Status::Differs,
    ..VERIFY
};

/// The count 3 in place of 2.
const OTHER_COUNT: Change<'static> = Change::Behind(COUNT, 12, 3);

/// The sum 251 in place of 250.
const OTHER_SUM: Change<'static> = Change::Behind(SUM, 28, 251);

/// A verify that finds a slot of other queries.
const OTHER: Call<'static> = Call {
    wanted: "slot 0 other 3\nslot 1 none\n",
    ..VERIFY
};

/// A verify of a log that is damaged at its second frame.
const DAMAGED: Call<'static> = Call {
    wanted: "refused store damaged 57\n",
    ends: Status::Store,
    ..VERIFY
};

/// A verify of a log of another schema.
const OTHER_SCHEMA: Call<'static> = Call {
    query: "SELECT count(*) FROM payments GROUP BY card OVER SLIDING 10 ms",
    columns: CARDS,
    settings: "",
    wanted: "refused store schema\n",
    ends: Status::Store,
    ..VERIFY
};

/// A verify by a plan with a column more, of which earlier payments have a default.
const LONGER: Call<'static> = Call {
    columns: COUNTRIES,
    settings: "[stream.defaults]\ncountry = \"??\"\n",
    ..VERIFY_THREE
};

/// The same of a query by country, whose window a payment enters when it is a millisecond old.
const BY_COUNTRY: Call<'static> = Call {
    query: "SELECT count(*) FROM payments GROUP BY country OVER INFINITE DELAYED BY 1 ms",
    ..LONGER
};

/// A run of that query, by which the store grows. It saves a checkpoint of three payments, two of which are in the window.
const GROWS: Call<'static> = Call {
    words: &["run", "plan", "store", "3"],
    failing_reads: &[],
    wanted: "open 3 3 0\nstored 3\nsaved 3\ndone 3 3\n",
    ..BY_COUNTRY
};

/// The log of the three payments before it grew.
const BEFORE: &[Change<'static>] = &[Change::Front(236), Change::More(&[0])];

const VERIFIED: &[Scenario<'static>] = &[
    Scenario {
        says: "a sound store is verified",
        runs: &[RUN_THREE],
        calls: &[VERIFY_THREE],
        ..STAYS
    },
    Scenario {
        says: "a sound store of two checkpoints is verified",
        runs: &[RUN_SIXTEEN],
        calls: &[Call {
            wanted: "slot 0 ok 8\nslot 1 ok 16\n",
            ..VERIFY
        }],
        ..STAYS
    },
    Scenario {
        says: "wrong rows are told by their least node",
        runs: &[RUN_THREE],
        calls: &[
            Call {
                slot: &[OTHER_COUNT],
                ..WRONG
            },
            Call {
                slot: &[OTHER_SUM],
                wanted: "slot 0 wrong 1\nslot 1 none\n",
                ..WRONG
            },
            Call {
                slot: &[OTHER_COUNT, OTHER_SUM],
                ..WRONG
            },
            Call {
                slot: &[Change::NoFirstRow],
                ..WRONG
            },
        ],
        ..STAYS
    },
    Scenario {
        says: "an unfit slot is told",
        runs: &[RUN_THREE],
        calls: &[
            // more payments than there are, and a spot at a place where nothing begins
            Call {
                slot: &[Change::Byte(COUNT_AT, 4)],
                wanted: "slot 0 unfit 4\nslot 1 none\n",
                ends: Status::Differs,
                ..VERIFY
            },
            Call {
                slot: &[Change::Byte(SPOT_AT, 1)],
                wanted: "slot 0 unfit 3\nslot 1 none\n",
                ends: Status::Differs,
                ..VERIFY
            },
            // a slot that isn't complete is none
            Call {
                slot: &[Change::Front(20)],
                wanted: "slot 0 none\nslot 1 none\n",
                ..VERIFY
            },
        ],
        ..STAYS
    },
    Scenario {
        says: "a slot of other queries is told",
        runs: &[RUN_THREE],
        calls: &[
            Call {
                query: "SELECT count(*), sum(amount) FROM payments WHERE amount > 100 GROUP BY card OVER SLIDING 5 minutes",
                ..OTHER
            },
            Call {
                query: "SELECT count(*), sum(amount) FROM payments GROUP BY card OVER SLIDING 5 minutes\", \"SELECT count(*) FROM payments GROUP BY merchant OVER SLIDING 5 minutes",
                ..OTHER
            },
        ],
        ..STAYS
    },
    Scenario {
        says: "a slot beside a log without a frame is unfit",
        runs: &[RUN_THREE],
        calls: &[Call {
            log: &[Change::Front(0)],
            wanted: "slot 0 unfit 3\nslot 1 none\n",
            ends: Status::Differs,
            ..VERIFY
        }],
        ..STAYS
    },
    Scenario {
        says: "an unfit log is told before a slot",
        log: LOG,
        calls: &[
            OTHER_SCHEMA,
            // a damaged log has no schema at its end
            Call {
                log: &[Change::Front(100)],
                wanted: "refused store damaged 57\n",
                ..OTHER_SCHEMA
            },
            Call {
                log: &[Change::Front(100)],
                ..DAMAGED
            },
            // a chunk whose head is good and whose inside isn't
            Call {
                log: &[Change::Byte(119, 0xff)],
                ..DAMAGED
            },
        ],
        ..STAYS
    },
    Scenario {
        says: "a verify whose calls fail says so",
        runs: &[RUN_THREE],
        fails: &[Failing {
            whole: VERIFY_THREE,
            disk: Call {
                wanted: "failed disk\n",
                ends: Status::Disk,
                ..VERIFY
            },
            put: Call {
                wanted: "",
                ends: Status::Write,
                ..VERIFY
            },
            puts: 1,
            puts_last: true,
        }],
        ..EMPTY
    },
];

#[test]
fn the_slots_of_a_store_are_held_against_its_log(rt: HostRuntime) -> Result<(), Fail> {
    assert_all(&rt, VERIFIED)
}

const GROWING: &[Scenario<'static>] = &[
    Scenario {
        says: "a store that would grow is verified and left",
        runs: &[RUN_THREE],
        calls: &[
            LONGER,
            Call {
                wanted: "slot 0 other 3\nslot 1 none\n",
                ..BY_COUNTRY
            },
            Call {
                slot: &[OTHER_COUNT],
                wanted: "slot 0 wrong 0\nslot 1 none\n",
                ends: Status::Differs,
                ..LONGER
            },
            // without the default, and damaged besides
            Call {
                settings: "",
                wanted: "refused store schema\n",
                ends: Status::Store,
                ..LONGER
            },
            Call {
                settings: "",
                log: &[Change::Front(100)],
                wanted: "refused store damaged 57\n",
                ends: Status::Store,
                ..LONGER
            },
        ],
        ..STAYS
    },
    Scenario {
        says: "the values of a growth and its defaults are verified alike",
        runs: &[RUN_THREE, GROWS],
        calls: &[
            BY_COUNTRY,
            Call {
                log: BEFORE,
                ..BY_COUNTRY
            },
            // another default is used only before the store grew
            Call {
                settings: "[stream.defaults]\ncountry = \"NL\"\n",
                ..BY_COUNTRY
            },
            Call {
                settings: "[stream.defaults]\ncountry = \"NL\"\n",
                log: BEFORE,
                wanted: "slot 0 wrong 0\nslot 1 none\n",
                ends: Status::Differs,
                ..BY_COUNTRY
            },
            Call {
                wanted: "refused store schema\n",
                ends: Status::Store,
                ..VERIFY
            },
        ],
        ..STAYS
    },
];

#[test]
fn a_store_that_would_grow_is_verified_and_left(rt: HostRuntime) -> Result<(), Fail> {
    assert_all(&rt, GROWING)
}
