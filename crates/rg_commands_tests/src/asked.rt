use super::scenario::{EMPTY, Scenario, assert_all};
use super::setting::{Call, PLAIN, RUN, RUN_THREE};
use rg_messages::Status;
use std::test::Fail;

/// A run with a commit between two payments.
const COMMITTED: Call<'static> = Call {
    input: b"0,c1,m1,5\n!commit\n1,c1,m1,7\n",
    ..PLAIN
};

const ASKED: &[Scenario<'static>] = &[
    Scenario {
        says: "a commit and a save are done where they are asked for",
        calls: &[
            Call {
                input: b"0,c1,m1,1\n!commit\n!save\n",
                wanted: "open 0 0 0\n0 ok 1 1\n1 done\nstored 1\n2 done\nstored 1\nsaved 1\nstored 1\nsaved 1\ndone 3 1\n",
                ..RUN
            },
            Call {
                input: b"!ahead\n!save\n!commit\n",
                wanted: "open 0 0 0\n0 done\n1 done\nstored 0\nsaved 0\n2 done\nstored 0\nstored 0\nsaved 0\ndone 3 0\n",
                ..RUN
            },
        ],
        ..EMPTY
    },
    Scenario {
        says: "only a line that is just that word asks for something",
        calls: &[
            Call {
                input: b"\xef\xbb\xbf!commit\r\n!Commit\n !commit\n!commit \n!commit,\n!\n!save\r\r\n",
                wanted: "open 0 0 0\n0 done\nstored 0\n1 fields\n2 fields\n3 fields\n4 fields\n5 fields\n6 row\nstored 0\nsaved 0\ndone 7 0\n",
                ..RUN
            },
            Call {
                settings: "header = true\n",
                input: b"!commit\n!commit\n",
                wanted: "open 0 0 0\n0 head\n1 done\nstored 0\nstored 0\nsaved 0\ndone 2 0\n",
                ..PLAIN
            },
        ],
        ..EMPTY
    },
    Scenario {
        says: "a line below the next offset asks for nothing",
        runs: &[
            RUN_THREE,
            Call {
                input: b"!commit\n!save\n!commit\n!commit\n!save\n",
                wanted: "open 3 3 3\n3 done\nstored 3\n4 done\nstored 3\nsaved 3\nstored 3\nsaved 3\ndone 5 3\n",
                ..RUN
            },
        ],
        ..EMPTY
    },
    Scenario {
        says: "a payment with a commit behind it is not lost",
        runs: &[
            Call {
                failing_reads: &[1],
                wanted: "open 0 0 0\n0 ok 1 5\n1 done\nstored 1\n2 ok 2 12\nfailed read\n",
                ends: Status::Read,
                ..COMMITTED
            },
            Call {
                wanted: "open 1 1 0\n1 done\nstored 1\n2 ok 2 12\nstored 3\nsaved 2\ndone 3 2\n",
                ..COMMITTED
            },
        ],
        ..EMPTY
    },
];

#[test]
fn a_line_may_ask_for_a_commit_or_a_save(rt: HostRuntime) -> Result<(), Fail> {
    assert_all(&rt, ASKED)
}
