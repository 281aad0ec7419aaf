use crate::payments::{ONE_PLACED, PLACE, SCHEMA, SCHEMA_PAYLOAD, THREE, TWO};
use crate::row::{Does, ROW, Row, assert_rows};
use crate::tried::{Ask, Case, Met};
use rg_past::Spot;
use rg_reservoir::ReservoirFault;
use std::test::Fail;

/// A reservoir of the schema that the payments grow to.
const PLACED: Case<'_> = Case {
    schema: b"payments(ts,card:text,merchant:text,amount:int,place:text)",
    ..THREE
};

/// A log whose frames stand at 0, 57, 163 and 239, and which ends at 317: two payments, the growth by their place, and
/// a payment more.
const GROWN: Row<'_> = Row {
    frames: &[SCHEMA_PAYLOAD, TWO, PLACE, ONE_PLACED],
    ..ROW
};

/// Logs that grew.
const ROWS: &[Row<'_>] = &[
    // The schema of a log is the one that it grew to.
    Row {
        does: Does::Opens(Case { limit: 2, ..PLACED }),
        ..GROWN
    },
    Row {
        does: Does::Opens(Case {
            limit: 2,
            schema: SCHEMA,
            fault: Some(ReservoirFault::SchemaDiffers),
            ..PLACED
        }),
        ..GROWN
    },
    // A growth of another schema is refused where it stands: one that has grown doesn't grow so once more.
    Row {
        frames: &[SCHEMA_PAYLOAD, TWO, PLACE, PLACE],
        does: Does::Opens(Case {
            limit: 2,
            fault: Some(ReservoirFault::Damaged(239)),
            ..PLACED
        }),
        ..ROW
    },
    // Damage is told before another schema: the second chunk doesn't continue the first one.
    Row {
        frames: &[SCHEMA_PAYLOAD, TWO, TWO],
        does: Does::Opens(Case {
            limit: 2,
            fault: Some(ReservoirFault::Damaged(163)),
            ..PLACED
        }),
        ..ROW
    },
    // Events before a growth have its value behind their own.
    Row {
        does: Does::Opens(Case {
            asks: &[Ask::Meets(&[Met(0, b"??"), Met(1, b"??"), Met(2, b"p")])],
            ..PLACED
        }),
        ..GROWN
    },
    // The place of a growth spells what follows it.
    Row {
        does: Does::Opens(Case {
            asks: &[
                // Behind the first chunk, at the growth, at the chunk behind it, and at the end.
                Ask::Names(&[spot!(57, 2, 2)], Ok(true)),
                Ask::Names(&[spot!(163, 0, 2)], Ok(true)),
                Ask::Names(&[spot!(239, 0, 2)], Ok(true)),
                Ask::Names(&[spot!(317, 0, 3)], Ok(true)),
                // An index behind a growth, another number there, and a place inside it.
                Ask::Names(&[spot!(163, 1, 3)], Ok(false)),
                Ask::Names(&[spot!(163, 0, 3)], Ok(false)),
                Ask::Names(&[spot!(164, 0, 2)], Ok(false)),
                Ask::Loads(0, 0),
            ],
            ..PLACED
        }),
        ..GROWN
    },
];

#[test]
fn a_log_that_grew_is_of_its_last_schema(rt: HostRuntime) -> Result<(), Fail> {
    assert_rows(&rt, ROWS)
}
