use crate::payments::{BARE, THREE};
use crate::row::{Does, ROW, Row, assert_rows};
use crate::store::Changed;
use crate::tried::Case;
use rg_reservoir::ReservoirFault;
use std::test::Fail;

/// A reservoir of two events at most.
const FEW: Case<'_> = Case { limit: 2, ..THREE };

/// The log of three events, which is attached.
const SOUND: Row<'_> = Row {
    rest: BARE,
    does: Does::Opens(FEW),
    ..ROW
};

/// That log, where it is changed or cut.
const ROWS: &[Row<'_>] = &[
    // It is attached where a gate is closed: the end's, which is so, and that of the first chunk.
    Row {
        changes: &[Changed(220, 0)],
        ..SOUND
    },
    Row {
        changes: &[Changed(22, 0)],
        ..SOUND
    },
    // The first bad frame.
    Row {
        changes: &[Changed(9, 0x43)],
        does: Does::Opens(Case {
            fault: Some(ReservoirFault::Damaged(0)),
            ..FEW
        }),
        ..SOUND
    },
    Row {
        changes: &[Changed(30, 0xff)],
        does: Does::Opens(Case {
            fault: Some(ReservoirFault::Damaged(22)),
            ..FEW
        }),
        ..SOUND
    },
    Row {
        changes: &[Changed(31, 0x44)],
        does: Does::Opens(Case {
            fault: Some(ReservoirFault::Damaged(22)),
            ..FEW
        }),
        ..SOUND
    },
    Row {
        changes: &[Changed(35, 0)],
        does: Does::Opens(Case {
            fault: Some(ReservoirFault::Damaged(22)),
            ..FEW
        }),
        ..SOUND
    },
    Row {
        changes: &[Changed(109, 0)],
        does: Does::Opens(Case {
            fault: Some(ReservoirFault::Damaged(88)),
            ..FEW
        }),
        ..SOUND
    },
    Row {
        changes: &[Changed(183, 9)],
        does: Does::Opens(Case {
            fault: Some(ReservoirFault::Damaged(154)),
            ..FEW
        }),
        ..SOUND
    },
    // A cut log.
    Row {
        least: 22,
        most: 22,
        does: Does::Opens(Case {
            fault: Some(ReservoirFault::Damaged(0)),
            ..FEW
        }),
        ..SOUND
    },
    Row {
        least: 87,
        most: 87,
        does: Does::Opens(Case {
            fault: Some(ReservoirFault::Damaged(22)),
            ..FEW
        }),
        ..SOUND
    },
    Row {
        least: 220,
        most: 220,
        does: Does::Opens(Case {
            fault: Some(ReservoirFault::Damaged(154)),
            ..FEW
        }),
        ..SOUND
    },
    // Another schema.
    Row {
        does: Does::Opens(Case {
            schema: b"payments(at)",
            fault: Some(ReservoirFault::SchemaDiffers),
            ..FEW
        }),
        ..SOUND
    },
];

#[test]
fn a_bad_log_is_refused_at_its_first_bad_frame(rt: HostRuntime) -> Result<(), Fail> {
    assert_rows(&rt, ROWS)
}
