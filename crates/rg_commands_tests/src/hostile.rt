use super::changes::{COUNT, COUNT_AT, Change, SPOT_AT};
use super::scenario::{EMPTY, Scenario, assert_all};
use super::setting::{Call, LOG, RUN, RUN_THREE, VERIFY};
use rg_messages::Status;
use std::test::Fail;

/// Where the length of the first card's text stands in the first chunk, by columns: behind the schema's frame
/// of 57 bytes, 9 of the chunk's own, its head of 37, and the columns of two offsets and of two times of 0.
const FIRST_LENGTH_AT: usize = 125;

/// Where the tag of a slot's payload stands, behind the gate and the length.
const TAG_AT: usize = 9;

/// A run without input over a store that is refused.
const REFUSED: Call<'static> = Call {
    ends: Status::Store,
    ..RUN
};

/// A run without input over a store without a payment.
const NO_PAYMENT: Call<'static> = Call {
    wanted: "open 0 0 0\nstored 0\nsaved 0\ndone 0 0\n",
    ..RUN
};

/// A run without input that goes on from no slot.
const REPLAYED: Call<'static> = Call {
    wanted: "open 3 3 0\nstored 3\nsaved 3\ndone 0 3\n",
    ..RUN
};

/// A verify to which no slot is complete.
const NONE: Call<'static> = Call {
    wanted: "slot 0 none\nslot 1 none\n",
    ..VERIFY
};

/// A payload of another kind.
const OTHER_KIND: Change<'static> = Change::Byte(TAG_AT, 0x41);

/// A state with a tag that was once written.
const OLD_STATE: Change<'static> = Change::Behind(COUNT, 4, 5);

/// Another one.
const OLDER_STATE: Change<'static> = Change::Behind(COUNT, 4, 6);

/// A run whose first line has the offset 3.
const FROM_THREE: Call<'static> = Call {
    words: &["run", "plan", "store", "3"],
    ..RUN
};

const HOSTILE: &[Scenario<'static>] = &[
    Scenario {
        says: "a log of any bytes is opened or refused",
        calls: &[
            Call {
                log: &[Change::More(&[1])],
                ..NO_PAYMENT
            },
            Call {
                log: &[Change::More(&[1, 0, 0])],
                wanted: "refused store damaged 0\n",
                ..REFUSED
            },
            Call {
                log: &[Change::More(&[1, 0xff, 0xff, 0xff, 0xff, 0xff, 0xff, 0xff, 0xff, 0])],
                wanted: "refused store damaged 0\n",
                ..REFUSED
            },
            Call {
                log: &[Change::More(&[1, 0, 0, 0, 0, 0, 0, 0, 1, 0x54, 0])],
                wanted: "refused store damaged 0\n",
                ..REFUSED
            },
            Call {
                log: &[Change::More(&[
                    1, 0, 0, 0, 0, 0, 0, 0, 6, 0x53, b'q', b'(', b't', b's', b')', 0,
                ])],
                wanted: "refused store schema\n",
                ..REFUSED
            },
        ],
        ..EMPTY
    },
    Scenario {
        says: "a log with other bytes behind its schema is refused",
        log: LOG,
        calls: &[
            // a gate alone
            Call {
                log: &[Change::Front(57), Change::More(&[1])],
                wanted: "refused store damaged 57\n",
                ..REFUSED
            },
            // 5,000 payments by the head of the chunk
            Call {
                log: &[Change::Byte(69, 0x13), Change::Byte(70, 0x88)],
                wanted: "refused store damaged 57\n",
                ..REFUSED
            },
            // the chunk twice
            Call {
                log: &[Change::Front(163), Change::Again(57), Change::More(&[0])],
                wanted: "refused store damaged 163\n",
                ..REFUSED
            },
            Call {
                log: &[Change::Byte(119, 0xff)],
                wanted: "refused store damaged 57\n",
                ..REFUSED
            },
        ],
        ..EMPTY
    },
    Scenario {
        says: "an unfit slot is passed over",
        runs: &[RUN_THREE],
        calls: &[
            Call {
                slot: &[Change::Byte(COUNT_AT, 4)],
                ..REPLAYED
            },
            Call {
                slot: &[Change::Byte(SPOT_AT, 1)],
                ..REPLAYED
            },
        ],
        ..EMPTY
    },
    Scenario {
        says: "a slot of an older kind is none",
        runs: &[RUN_THREE],
        calls: &[
            Call {
                slot: &[OTHER_KIND],
                ..NONE
            },
            Call {
                slot: &[OTHER_KIND],
                ..REPLAYED
            },
            Call {
                slot: &[OLD_STATE],
                ..NONE
            },
            Call {
                slot: &[OLD_STATE],
                ..REPLAYED
            },
            Call {
                slot: &[OLDER_STATE],
                ..NONE
            },
            Call {
                slot: &[OLDER_STATE],
                ..REPLAYED
            },
        ],
        ..EMPTY
    },
    Scenario {
        says: "a payment that leaves no row is told",
        runs: &[RUN_THREE],
        calls: &[Call {
            slot: &[Change::NoFirstRow],
            input: b"600000,c1,m1,1\n",
            wanted: "open 3 3 3\nrefused store state 0\n",
            ends: Status::Store,
            ..FROM_THREE
        }],
        ..EMPTY
    },
    Scenario {
        says: "a chunk behind all edges is never read",
        runs: &[Call {
            input: b"0,c1,m1,100\n0,c1,m2,200\n300000,c1,m1,50\n",
            wanted: "open 0 0 0\n0 ok 1 100\n1 ok 2 300\nstored 2\n2 ok 1 50\nstored 3\nsaved 3\ndone 3 3\n",
            ..RUN
        }],
        calls: &[Call {
            log: &[Change::Byte(FIRST_LENGTH_AT, 0xff)],
            input: b"300001,c9,m9,1\n",
            wanted: "open 3 3 3\n3 ok 1 1\nstored 4\nsaved 4\nstored 4\nsaved 4\ndone 4 4\n",
            ..FROM_THREE
        }],
        ..EMPTY
    },
];

#[test]
fn a_store_of_any_bytes_is_opened_or_refused(rt: HostRuntime) -> Result<(), Fail> {
    assert_all(&rt, HOSTILE)
}
