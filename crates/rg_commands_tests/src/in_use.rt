use super::changes::Change;
use super::scenario::{STAYS, Scenario, assert_all};
use super::setting::{Call, REPLAY, ROWS};
use std::test::Fail;

/// A replay of no payment.
const NONE: Call<'static> = Call {
    wanted: "done 0 0\n",
    ..REPLAY
};

const IN_USE: &[Scenario<'static>] = &[Scenario {
    says: "what is not committed is not replayed",
    log: ROWS,
    calls: &[
        // no frame yet: a gate alone, and the schema behind a closed one
        Call {
            log: &[Change::Front(0), Change::More(&[0])],
            ..NONE
        },
        Call {
            log: &[Change::Front(0), Change::More(&[1])],
            ..NONE
        },
        Call {
            log: &[Change::Front(163), Change::More(&[0]), Change::Byte(0, 0)],
            ..NONE
        },
        // a chunk behind a closed gate
        Call {
            log: &[Change::Front(163), Change::More(&[0]), Change::Byte(57, 0)],
            ..NONE
        },
        Call {
            log: &[Change::Byte(163, 0)],
            wanted: "0 ok 1 100\n1 ok 2 300\ndone 2 2\n",
            ..REPLAY
        },
    ],
    ..STAYS
}];

/// What stands behind a closed gate, as another process writes it before it opens that, is no payment yet.
#[test]
fn what_is_not_committed_is_not_replayed(rt: HostRuntime) -> Result<(), Fail> {
    assert_all(&rt, IN_USE)
}
