use super::scenario::{EMPTY, Left, Scenario, assert_all};
use super::setting::{Call, RUN};
use rg_messages::Status;
use std::test::Fail;

/// A trial of no line, which fails where it reads a plan or an input.
const TRIAL: Call<'static> = Call {
    words: &["self", "0", "0"],
    failing_plan_reads: &[0],
    failing_reads: &[0],
    wanted: "lines 0\nevents 0\nbytes 37\nsum 2644\n",
    ..RUN
};

/// A trial of two lines.
const OF_TWO: Call<'static> = Call {
    words: &["self", "2", "0"],
    wanted: "lines 2\nevents 2\nbytes 83\nsum 4917\n",
    ..TRIAL
};

/// A trial that is refused for its words.
const REFUSED: Call<'static> = Call {
    wanted: "refused usage\n",
    ends: Status::Usage,
    ..TRIAL
};

const TRIED: &[Scenario<'static>] = &[
    // four lines are one put, and no file is asked for
    Scenario {
        says: "a trial of no line puts its numbers",
        runs: &[TRIAL],
        left: &[Left::Calls(1)],
        ..EMPTY
    },
    Scenario {
        says: "a trial of two lines puts its numbers",
        runs: &[OF_TWO],
        left: &[Left::Calls(1)],
        ..EMPTY
    },
    Scenario {
        says: "a trial of another seed puts its numbers",
        runs: &[Call {
            words: &["self", "000", "18446744073709551615"],
            ..TRIAL
        }],
        left: &[Left::Calls(1)],
        ..EMPTY
    },
    Scenario {
        says: "a trial whose put fails says so",
        failing: &[0],
        runs: &[Call {
            wanted: "",
            ends: Status::Write,
            ..OF_TWO
        }],
        left: &[Left::Calls(1)],
        ..EMPTY
    },
    Scenario {
        says: "a trial of other words is refused",
        calls: &[
            Call {
                words: &["self"],
                ..REFUSED
            },
            Call {
                words: &["self", "2"],
                ..REFUSED
            },
            Call {
                words: &["self", "2", "0", "0"],
                ..REFUSED
            },
            Call {
                words: &["self", "200001", "0"],
                ..REFUSED
            },
            Call {
                words: &["self", "2", "18446744073709551616"],
                ..REFUSED
            },
            Call {
                words: &["self", "-1", "0"],
                ..REFUSED
            },
            Call {
                words: &["self", "", "0"],
                ..REFUSED
            },
            Call {
                words: &["self", "2", ""],
                ..REFUSED
            },
            Call {
                words: &["Self", "2", "0"],
                ..REFUSED
            },
        ],
        ..EMPTY
    },
];

#[test]
fn a_trial_puts_its_numbers_by_one_put(rt: HostRuntime) -> Result<(), Fail> {
    assert_all(&rt, TRIED)
}
