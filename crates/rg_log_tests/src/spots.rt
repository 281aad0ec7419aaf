use crate::payments::{BARE, FILE, PAYMENTS, SCHEMA, THREE};
use crate::row::{Does, EMPTY, ROW, Row, assert_rows};
use crate::tried::{Ask, Case};
use rg_past::Spot;
use rg_reservoir::ReservoirFault;
use std::test::Fail;

/// Logs and spots in them.
const ROWS: &[Row<'_>] = &[
    Row {
        rest: BARE,
        does: Does::Opens(Case {
            asks: &[
                // Each of its spellings names an event or the end.
                Ask::Names(&[spot!(22, 0, 0)], Ok(true)),
                Ask::Names(&[spot!(22, 1, 1)], Ok(true)),
                Ask::Names(&[spot!(88, 0, 1)], Ok(true)),
                Ask::Names(&[spot!(88, 1, 2)], Ok(true)),
                Ask::Names(&[spot!(154, 0, 2)], Ok(true)),
                Ask::Names(&[spot!(154, 1, 3)], Ok(true)),
                Ask::Names(&[spot!(220, 0, 3)], Ok(true)),
                // Another number, a place inside a chunk and one inside a frame's length.
                Ask::Names(&[spot!(22, 0, 1)], Ok(false)),
                Ask::Names(&[spot!(88, 0, 0)], Ok(false)),
                Ask::Names(&[spot!(60, 0, 0)], Ok(false)),
                Ask::Names(&[spot!(23, 0, 0)], Ok(false)),
                // An index one past the count, the schema's frame, and what is behind the end.
                Ask::Names(&[spot!(22, 2, 2)], Ok(false)),
                Ask::Names(&[spot!(0, 0, 0)], Ok(false)),
                Ask::Names(&[spot!(220, 1, 3)], Ok(false)),
                Ask::Names(&[spot!(220, 0, 4)], Ok(false)),
                Ask::Names(&[spot!(221, 0, 3)], Ok(false)),
                // No chunk is loaded for that.
                Ask::Loads(0, 0),
            ],
            ..THREE
        }),
        ..ROW
    },
    // Each spot of a list is looked at.
    Row {
        rest: FILE,
        does: Does::Opens(Case {
            schema: SCHEMA,
            asks: &[
                Ask::Names(&[], Ok(true)),
                Ask::Names(
                    &[
                        spot!(57, 0, 0),
                        spot!(57, 1, 1),
                        spot!(57, 2, 2),
                        spot!(163, 0, 2),
                    ],
                    Ok(true),
                ),
                Ask::Names(&[spot!(57, 1, 1), spot!(57, 1, 1)], Ok(true)),
                Ask::Names(&[spot!(57, 0, 0), spot!(57, 3, 3)], Ok(false)),
                Ask::Names(&[spot!(57, 3, 2), spot!(57, 0, 0)], Ok(false)),
                Ask::Names(
                    &[spot!(57, 0, 0), spot!(58, 0, 0), spot!(57, 1, 1)],
                    Ok(false),
                ),
                Ask::Loads(0, 0),
            ],
            ..THREE
        }),
        ..ROW
    },
    // Without a chunk the end is behind the first frame.
    Row {
        does: Does::Opens(Case {
            asks: &[
                Ask::Names(&[spot!(22, 0, 0)], Ok(true)),
                Ask::Names(&[spot!(0, 0, 0)], Ok(false)),
                Ask::Names(&[spot!(22, 1, 0)], Ok(false)),
                Ask::Loads(0, 0),
            ],
            ..THREE
        }),
        ..EMPTY
    },
    // A read that fails is no answer: the fourth call, behind the 14 of the opening.
    Row {
        rest: FILE,
        does: Does::Opens(Case {
            failing: &[17],
            asks: &[Ask::Names(&[spot!(57, 0, 0)], Err(ReservoirFault::Disk))],
            ..PAYMENTS
        }),
        ..ROW
    },
];

#[test]
fn a_spot_is_named_in_each_of_its_spellings_and_no_other_is(rt: HostRuntime) -> Result<(), Fail> {
    assert_rows(&rt, ROWS)
}
