use super::changes::Change;
use super::scenario::{EMPTY, Failing, Left, STAYS, Scenario, assert_all};
use super::setting::{Call, DAMAGED_LOG, INFO, LOG, RUN_EIGHT, RUN_SIXTEEN, RUN_THREE};
use rg_messages::Status;
use std::test::Fail;

const INFORMED: &[Scenario<'static>] = &[
    Scenario {
        says: "info puts what a store has",
        runs: &[RUN_THREE],
        calls: &[INFO],
        ..STAYS
    },
    // the schema's frame and four chunks of two payments; a base of 206 bytes after the fourth, and 121 bytes
    // of changes behind it after the eighth
    Scenario {
        says: "info puts the newest checkpoint of a slot",
        runs: &[RUN_EIGHT],
        // two frames, each a gate of one byte, a length of eight and its payload, and a closed gate
        left: &[
            Left::At(0, 0, &[1, 0, 0, 0, 0, 0, 0, 0, 206, 0x42]),
            Left::At(0, 215, &[1, 0, 0, 0, 0, 0, 0, 0, 121, 0x44]),
            Left::End(0, 9 + 206 + 9 + 121 + 1, b""),
            Left::End(1, 0, b""),
        ],
        calls: &[Call {
            wanted: "events 8\nnext 8\ntime 7\nframes 5\nslot 0 8 1\nslot 1 none\n",
            ..INFO
        }],
        ..STAYS
    },
    // 242 bytes of changes are more than the base: a base in the other slot after the twelfth, and changes
    // behind it after the last
    Scenario {
        says: "info puts the newest checkpoint of each slot",
        runs: &[RUN_SIXTEEN],
        calls: &[Call {
            wanted: "events 16\nnext 16\ntime 15\nframes 9\nslot 0 8 1\nslot 1 16 1\n",
            ..INFO
        }],
        ..STAYS
    },
    Scenario {
        says: "info of no store says so",
        calls: &[Call {
            wanted: "events 0\nnext 0\ntime -\nframes 0\nslot 0 none\nslot 1 none\n",
            ..INFO
        }],
        ..STAYS
    },
    Scenario {
        says: "info of a damaged log says the place alone",
        log: DAMAGED_LOG,
        calls: &[Call {
            wanted: "refused store damaged 0\n",
            ends: Status::Store,
            ..INFO
        }],
        ..STAYS
    },
    Scenario {
        says: "info of a log that is cut says the place alone",
        log: LOG,
        calls: &[Call {
            log: &[Change::Front(100)],
            wanted: "refused store damaged 57\n",
            ends: Status::Store,
            ..INFO
        }],
        ..STAYS
    },
    Scenario {
        says: "info whose calls fail says so",
        runs: &[RUN_THREE],
        fails: &[Failing {
            whole: INFO,
            disk: Call {
                wanted: "failed disk\n",
                ends: Status::Disk,
                ..INFO
            },
            put: Call {
                wanted: "",
                ends: Status::Write,
                ..INFO
            },
            puts: 1,
            puts_last: true,
        }],
        ..EMPTY
    },
    Scenario {
        says: "info of other words is refused",
        calls: &[
            Call {
                words: &["info"],
                wanted: "refused usage\n",
                ends: Status::Usage,
                ..INFO
            },
            Call {
                words: &["info", "a", "b"],
                wanted: "refused usage\n",
                ends: Status::Usage,
                ..INFO
            },
        ],
        ..STAYS
    },
];

#[test]
fn info_puts_what_a_store_has(rt: HostRuntime) -> Result<(), Fail> {
    assert_all(&rt, INFORMED)
}
