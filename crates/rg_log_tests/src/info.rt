use crate::payments::{FEE, ONE, ONE_BY_COLUMNS, ONE_PLACED, PLACE, SCHEMA_PAYLOAD, TWO};
use crate::printed::{INFO, Print};
use crate::row::{Does, EMPTY, ROW, Row, assert_rows};
use crate::store::Changed;
use rg_dump::DumpFault;
use std::test::Fail;

/// A slot of a checkpoint of three payments: one query, whose text is `q`, no spot and no row.
const SLOT: &[u8] = b"\
    \x01\0\0\0\0\0\0\0\x1eB\0\0\0\x01\0\0\0\x01q\0\0\0\0\0\0\0\x03\0\0\0\0\0\0\0\0\0\0\0\0\0";

/// The same without its last byte.
const CUT_SLOT: &[u8] = b"\
    \x01\0\0\0\0\0\0\0\x1eB\0\0\0\x01\0\0\0\x01q\0\0\0\0\0\0\0\x03\0\0\0\0\0\0\0\0\0\0\0\0";

/// The info of a store whose first slot has the checkpoint.
const FIRST: Print<'_> = Print {
    first: SLOT,
    ..INFO
};

/// The log of three payments, and the checkpoint of them.
const WHOLE: Row<'_> = Row {
    frames: &[SCHEMA_PAYLOAD, TWO, ONE],
    does: Does::Prints(Print {
        text: b"events 3\nnext 3\ntime 300000\nframes 3\nslot 0 3 1\nslot 1 none\n",
        ..FIRST
    }),
    ..ROW
};

/// Stores that are told.
const TOLD: &[Row<'_>] = &[
    // Three payments and a checkpoint, in the first slot or the second one.
    WHOLE,
    Row {
        does: Does::Prints(Print {
            second: SLOT,
            text: b"events 3\nnext 3\ntime 300000\nframes 3\nslot 0 none\nslot 1 3 1\n",
            ..INFO
        }),
        ..WHOLE
    },
    // A chunk by columns counts as one of rows.
    Row {
        frames: &[SCHEMA_PAYLOAD, TWO, ONE_BY_COLUMNS],
        ..WHOLE
    },
    // A growth counts as a frame.
    Row {
        frames: &[SCHEMA_PAYLOAD, TWO, PLACE, ONE_PLACED, FEE],
        does: Does::Prints(Print {
            text: b"events 3\nnext 3\ntime 300000\nframes 5\nslot 0 3 1\nslot 1 none\n",
            ..FIRST
        }),
        ..ROW
    },
    // A store without payments has none.
    Row {
        does: Does::Prints(Print {
            text: b"events 0\nnext 0\ntime -\nframes 0\nslot 0 none\nslot 1 none\n",
            ..INFO
        }),
        ..EMPTY
    },
    Row {
        frames: &[SCHEMA_PAYLOAD],
        does: Does::Prints(Print {
            text: b"events 0\nnext 0\ntime -\nframes 1\nslot 0 none\nslot 1 none\n",
            ..INFO
        }),
        ..ROW
    },
    // A slot that is cut is none.
    Row {
        frames: &[SCHEMA_PAYLOAD],
        does: Does::Prints(Print {
            first: CUT_SLOT,
            second: SLOT,
            text: b"events 0\nnext 0\ntime -\nframes 1\nslot 0 none\nslot 1 3 1\n",
            ..INFO
        }),
        ..ROW
    },
];

#[test]
fn what_a_store_has_is_told(rt: HostRuntime) -> Result<(), Fail> {
    assert_rows(&rt, TOLD)
}

/// Stores of which nothing is told.
const UNTOLD: &[Row<'_>] = &[
    // A chunk of bad columns: no difference in its last byte is 0, so the base isn't the least amount.
    Row {
        frames: &[SCHEMA_PAYLOAD, TWO, ONE_BY_COLUMNS],
        changes: &[Changed(244, 1)],
        does: Does::Prints(Print {
            ends: Err(DumpFault::Damaged(163)),
            ..FIRST
        }),
        ..ROW
    },
    // The log of three payments, cut anywhere.
    Row {
        does: Does::Has(240),
        ..WHOLE
    },
    Row {
        least: 2,
        most: 57,
        does: Does::Prints(Print {
            ends: Err(DumpFault::Damaged(0)),
            ..FIRST
        }),
        ..WHOLE
    },
    Row {
        least: 58,
        most: 163,
        does: Does::Prints(Print {
            ends: Err(DumpFault::Damaged(57)),
            ..FIRST
        }),
        ..WHOLE
    },
    Row {
        least: 164,
        most: 239,
        does: Does::Prints(Print {
            ends: Err(DumpFault::Damaged(163)),
            ..FIRST
        }),
        ..WHOLE
    },
    // Each call that fails; the last one is the put.
    Row {
        does: Does::Prints(Print {
            fails: true,
            ends: Err(DumpFault::Write),
            ..FIRST
        }),
        ..WHOLE
    },
];

#[test]
fn of_a_damaged_log_or_where_a_call_fails_nothing_is_put(rt: HostRuntime) -> Result<(), Fail> {
    assert_rows(&rt, UNTOLD)
}
