use super::changes::Change;
use super::scenario::{EMPTY, Failing, STAYS, Scenario, assert_all};
use super::setting::{Call, Compared, DAMAGED_LOG, DUMP, LOG};
use rg_messages::Status;
use std::test::Fail;

const TEXT: &str =
    "payments(ts,card:text,merchant:text,amount:int)\n0,0,c1,m1,100\n1,299999,c1,m2,200\n";

const DUMPED: &[Scenario<'static>] = &[
    Scenario {
        says: "a dump prints the schema and the payments",
        log: LOG,
        calls: &[Call {
            wanted: TEXT,
            ..DUMP
        }],
        ..STAYS
    },
    Scenario {
        says: "a dump of no store prints nothing",
        calls: &[DUMP],
        ..STAYS
    },
    Scenario {
        says: "a damaged log is dumped up to its damage",
        log: DAMAGED_LOG,
        calls: &[Call {
            wanted: "refused store damaged 0\n",
            ends: Status::Store,
            ..DUMP
        }],
        ..STAYS
    },
    Scenario {
        says: "a log that is cut is dumped up to its damage",
        log: LOG,
        calls: &[Call {
            log: &[Change::Front(100)],
            wanted: "payments(ts,card:text,merchant:text,amount:int)\nrefused store damaged 57\n",
            ends: Status::Store,
            ..DUMP
        }],
        ..STAYS
    },
    Scenario {
        says: "a dump whose first call fails, which is on the file, says so",
        log: LOG,
        failing: &[0],
        runs: &[Call {
            wanted: "failed disk\n",
            ends: Status::Disk,
            ..DUMP
        }],
        ..EMPTY
    },
    Scenario {
        says: "a dump whose calls fail says so",
        log: LOG,
        fails: &[Failing {
            whole: Call {
                wanted: TEXT,
                ..DUMP
            },
            disk: Call {
                wanted: TEXT,
                compared: Compared::FrontAndLast,
                last: "failed disk\n",
                ends: Status::Disk,
                ..DUMP
            },
            put: Call {
                wanted: TEXT,
                compared: Compared::FrontAndLast,
                ends: Status::Write,
                ..DUMP
            },
            puts: 2,
            puts_last: false,
        }],
        ..EMPTY
    },
];

#[test]
fn a_dump_prints_the_schema_and_the_payments(rt: HostRuntime) -> Result<(), Fail> {
    assert_all(&rt, DUMPED)
}
