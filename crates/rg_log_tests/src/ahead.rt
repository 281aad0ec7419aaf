use crate::payments::{BARE, FILE, PAYMENTS, PUT_THREE, WRITTEN};
use crate::row::{Does, EMPTY, ROW, Row, assert_rows};
use crate::store::Changed;
use crate::tried::{Ask, Case};
use rg_past::Spot;
use rg_reservoir::ReservoirFault;
use std::test::Fail;

/// A reservoir that writes a log whose three chunks stand at 22, 88 and 154, and which ends at 220.
const MANY: Case<'_> = Case {
    cache: 64,
    ..PUT_THREE
};

/// Loads ahead for spots of the three events.
const LOADS: &[Row<'_>] = &[
    // The chunk of a spot and the one behind: that at 22, and the one at 88.
    Row {
        does: Does::Opens(Case {
            asks: &[Ask::Ahead(&[spot!(22, 0, 0)], Ok(())), Ask::Loads(2, 2)],
            ..MANY
        }),
        ..EMPTY
    },
    // The spot's, that of its event at 88, and the one behind at 154.
    Row {
        does: Does::Opens(Case {
            asks: &[Ask::Ahead(&[spot!(22, 1, 1)], Ok(())), Ask::Loads(3, 3)],
            ..MANY
        }),
        ..EMPTY
    },
    Row {
        does: Does::Opens(Case {
            asks: &[Ask::Ahead(&[spot!(88, 0, 1)], Ok(())), Ask::Loads(2, 2)],
            ..MANY
        }),
        ..EMPTY
    },
    // Behind the last chunk is the open one.
    Row {
        does: Does::Opens(Case {
            asks: &[Ask::Ahead(&[spot!(154, 0, 2)], Ok(())), Ask::Loads(1, 1)],
            ..MANY
        }),
        ..EMPTY
    },
    Row {
        does: Does::Opens(Case {
            asks: &[Ask::Ahead(&[spot!(220, 0, 3)], Ok(())), Ask::Loads(0, 0)],
            ..MANY
        }),
        ..EMPTY
    },
    // From spot to spot: 22, 88, 154; and once more 22 and 88, which one chunk in memory has lost.
    Row {
        does: Does::Opens(Case {
            asks: &[
                Ask::Ahead(
                    &[
                        spot!(22, 0, 0),
                        spot!(154, 0, 2),
                        spot!(220, 0, 3),
                        spot!(22, 0, 0),
                    ],
                    Ok(()),
                ),
                Ask::Loads(3, 3),
            ],
            ..MANY
        }),
        ..EMPTY
    },
    Row {
        does: Does::Opens(Case {
            asks: &[
                Ask::Ahead(
                    &[
                        spot!(22, 0, 0),
                        spot!(154, 0, 2),
                        spot!(220, 0, 3),
                        spot!(22, 0, 0),
                    ],
                    Ok(()),
                ),
                Ask::Loads(5, 1),
            ],
            ..PUT_THREE
        }),
        ..EMPTY
    },
    Row {
        does: Does::Opens(Case {
            asks: &[Ask::Ahead(&[], Ok(())), Ask::Loads(0, 0)],
            ..MANY
        }),
        ..EMPTY
    },
    // What was loaded ahead is not read again, and the log is as it was.
    Row {
        does: Does::Opens(Case {
            cache: 2,
            asks: &[
                Ask::Ahead(&[spot!(22, 0, 0)], Ok(())),
                Ask::Shows(spot!(22, 0, 0), 0),
                Ask::Still,
                Ask::Shows(spot!(88, 0, 1), 1),
                Ask::Still,
                Ask::Ahead(&[spot!(22, 0, 0)], Ok(())),
                Ask::Still,
                Ask::Log(BARE),
            ],
            ..PUT_THREE
        }),
        ..EMPTY
    },
];

#[test]
fn a_load_ahead_loads_the_chunk_of_a_spot_and_the_one_behind(rt: HostRuntime) -> Result<(), Fail> {
    assert_rows(&rt, LOADS)
}

/// Loads ahead for the first payment.
const REFUSALS: &[Row<'_>] = &[
    // A bad chunk, where it stands, and a good one.
    Row {
        rest: WRITTEN,
        changes: &[Changed(110, 1)],
        does: Does::Opens(Case {
            asks: &[Ask::Ahead(&[spot!(57, 0, 0)], Err(ReservoirFault::Damaged(57)))],
            ..PAYMENTS
        }),
        ..ROW
    },
    Row {
        rest: WRITTEN,
        does: Does::Opens(Case {
            asks: &[Ask::Ahead(&[spot!(57, 0, 0)], Ok(()))],
            ..PAYMENTS
        }),
        ..ROW
    },
    // The load ahead fails at its first call, behind the 14 of the opening.
    Row {
        rest: FILE,
        does: Does::Opens(Case {
            failing: &[14],
            asks: &[Ask::Ahead(&[spot!(57, 0, 0)], Err(ReservoirFault::Disk))],
            ..PAYMENTS
        }),
        ..ROW
    },
];

#[test]
fn a_load_ahead_of_a_bad_chunk_or_a_failed_read_is_refused(rt: HostRuntime) -> Result<(), Fail> {
    assert_rows(&rt, REFUSALS)
}
