use crate::payments::{
    BARE, COLUMNS_FRAME, FILE, PAYMENTS, PUT_THIRD, PUT_THREE, PUT_TWO, SCHEMA_FRAME, THIRD_FRAME,
    TWO_FRAME, WRITTEN,
};
use crate::row::{Does, EMPTY, ROW, Row, assert_rows};
use crate::tried::{Ask, Case, Met};
use rg_past::Spot;
use std::test::Fail;

/// What logs are before and behind what is written.
const LOGS: &[Row<'_>] = &[
    // A new log, and two payments in it.
    Row {
        does: Does::Opens(Case {
            asks: &[Ask::Tells(0, 0, 0, None), Ask::Log(&[SCHEMA_FRAME, b"\0"])],
            ..PAYMENTS
        }),
        ..EMPTY
    },
    Row {
        does: Does::Opens(Case {
            puts: PUT_TWO,
            asks: &[Ask::Log(WRITTEN)],
            ..PAYMENTS
        }),
        ..EMPTY
    },
    // A log of two chunks has its gates where the format says.
    Row {
        does: Does::Opens(Case {
            before: PUT_TWO,
            puts: PUT_THIRD,
            asks: &[Ask::Log(&[SCHEMA_FRAME, COLUMNS_FRAME, THIRD_FRAME, b"\0"])],
            ..PAYMENTS
        }),
        ..EMPTY
    },
    // A log of rows goes on by columns.
    Row {
        rest: FILE,
        does: Does::Opens(Case {
            before: PUT_THIRD,
            asks: &[
                Ask::Log(&[SCHEMA_FRAME, TWO_FRAME, THIRD_FRAME, b"\0"]),
                Ask::Meets(&[Met(0, b""), Met(1, b""), Met(2, b"")]),
            ],
            ..PAYMENTS
        }),
        ..ROW
    },
    // A log is attached again.
    Row {
        rest: FILE,
        does: Does::Opens(Case {
            asks: &[Ask::Tells(2, 2, 2, Some(299_999)), Ask::Log(FILE)],
            ..PAYMENTS
        }),
        ..ROW
    },
    // A chunk for each of three events without columns.
    Row {
        does: Does::Opens(Case {
            asks: &[Ask::Log(BARE)],
            ..PUT_THREE
        }),
        ..EMPTY
    },
];

#[test]
fn a_log_is_written_as_the_format_says(rt: HostRuntime) -> Result<(), Fail> {
    assert_rows(&rt, LOGS)
}

/// Looks at the three events.
const LOOKS: &[Row<'_>] = &[
    // A cache of one loads a chunk again.
    Row {
        does: Does::Opens(Case {
            asks: &[
                Ask::Shows(spot!(22, 0, 0), 0),
                Ask::Shows(spot!(154, 0, 2), 2),
                Ask::Shows(spot!(22, 0, 0), 0),
                Ask::Shows(spot!(154, 0, 2), 2),
                Ask::Shows(spot!(154, 0, 2), 2),
                Ask::Still,
                Ask::Loads(4, 1),
            ],
            ..PUT_THREE
        }),
        ..EMPTY
    },
    Row {
        does: Does::Opens(Case {
            cache: 2,
            asks: &[
                Ask::Shows(spot!(22, 0, 0), 0),
                Ask::Shows(spot!(154, 0, 2), 2),
                Ask::Shows(spot!(22, 0, 0), 0),
                Ask::Shows(spot!(154, 0, 2), 2),
                Ask::Shows(spot!(154, 0, 2), 2),
                Ask::Still,
                Ask::Loads(2, 2),
            ],
            ..PUT_THREE
        }),
        ..EMPTY
    },
    // A past over a disk meets each event.
    Row {
        does: Does::Opens(Case {
            asks: &[Ask::Meets(&[Met(0, b""), Met(1, b""), Met(2, b"")])],
            ..PUT_THREE
        }),
        ..EMPTY
    },
];

#[test]
fn a_look_shows_the_event_of_its_spot(rt: HostRuntime) -> Result<(), Fail> {
    assert_rows(&rt, LOOKS)
}
