use crate::payments::{
    FEE, ONE, ONE_BY_COLUMNS, ONE_PLACED, PLACE, SCHEMA_PAYLOAD, TWO, TWO_BY_COLUMNS,
};
use crate::printed::{DUMP, Print};
use crate::row::{Does, ROW, Row, assert_rows};
use rg_dump::DumpFault;
use std::test::Fail;

const SCHEMA_LINE: &[u8] = b"payments(ts,card:text,merchant:text,amount:int)\n";

const TWO_ROWS: &[u8] =
    b"payments(ts,card:text,merchant:text,amount:int)\n0,0,c1,m1,100\n1,299999,c1,m2,200\n";

const THREE_ROWS: &[u8] =
    b"payments(ts,card:text,merchant:text,amount:int)\n0,0,c1,m1,100\n1,299999,c1,m2,200\n2,300000,c1,m1,50\n";

/// The two payments where the schema has grown once.
const TWO_PLACED_ROWS: &[u8] =
    b"payments(ts,card:text,merchant:text,amount:int,place:text)\n0,0,c1,m1,100,??\n1,299999,c1,m2,200,??\n";

/// The payment of `ONE` by columns, without its last byte.
const ONE_CUT: &[u8] = b"\
    K\0\0\0\x01\0\0\0\0\0\0\0\x02\0\0\0\0\0\x04\x93\xe0\0\0\0\0\0\0\0\x02\0\0\0\0\0\x04\x93\xe0\
    \0\0\0\0\0\0\0\x02\x01\0\0\0\0\0\0\x04\x93\xe0\x01\0\x02c1\x02m1\0\0\0\0\0\0\0\x32\x01";

/// The payments of `TWO` by columns, with amounts that are wider than they need to be.
const WIDE: &[u8] = b"\
    K\0\0\0\x02\0\0\0\0\0\0\0\0\0\0\0\0\0\0\0\0\0\0\0\0\0\0\0\x01\0\0\0\0\0\x04\x93\xdf\0\0\0\0\
    \0\0\0\0\x01\0\x01\0\0\0\0\0\0\0\0\x04\0\0\0\0\0\x04\x93\xdf\x02\x02c1c1\x02\x02m1m2\0\0\0\0\
    \0\0\0\x64\x02\0\0\0\x64";

/// A chunk of one event at offset 7 and time 5, of the columns `text`, `flag`, `flag`, `id` and `int`: the text is
/// `a,"b` and a CR, the flags are true and false, the id is 2^64 - 1 and the int -3.
const KINDS: &[u8] = b"\
    C\0\0\0\x01\0\0\0\0\0\0\0\x07\0\0\0\0\0\0\0\x05\0\0\0\0\0\0\0\x07\0\0\0\0\0\0\0\x05\0\0\0\0\
    \0\0\0\x07\0\0\0\0\0\0\0\x05\x05a,\"b\r\x01\0\xff\xff\xff\xff\xff\xff\xff\xff\xff\xff\xff\
    \xff\xff\xff\xff\xfd";

/// The same event by columns.
const KINDS_BY_COLUMNS: &[u8] = b"\
    K\0\0\0\x01\0\0\0\0\0\0\0\x07\0\0\0\0\0\0\0\x05\0\0\0\0\0\0\0\x07\0\0\0\0\0\0\0\x05\0\0\0\0\
    \0\0\0\x07\x01\0\0\0\0\0\0\0\0\x05\x01\0\x05a,\"b\r\x01\0\xff\xff\xff\xff\xff\xff\xff\xff\
    \x01\0\xff\xff\xff\xff\xff\xff\xff\xfd\x01\0";

/// The dump of that event.
const KINDS_DUMPED: &[u8] =
    b"p(ts,t:text,f:flag,g:flag,i:id,n:int)\n7,5,\"a,\"\"b\r\",true,false,18446744073709551615,-3\n";

/// The log of three payments, which is dumped so.
const THREE: Row<'_> = Row {
    frames: &[SCHEMA_PAYLOAD, TWO, ONE],
    does: Does::Prints(Print {
        text: THREE_ROWS,
        ..DUMP
    }),
    ..ROW
};

/// A log of which nothing is printed.
const NOTHING: Row<'_> = Row {
    does: Does::Prints(DUMP),
    ..ROW
};

/// Logs that are dumped whole.
const WHOLE: &[Row<'_>] = &[
    // Three payments are three rows, be they rows or columns in the log.
    Row {
        frames: &[SCHEMA_PAYLOAD, TWO, ONE],
        does: Does::Has(240),
        ..ROW
    },
    THREE,
    Row {
        frames: &[SCHEMA_PAYLOAD, TWO, ONE_BY_COLUMNS],
        does: Does::Has(246),
        ..ROW
    },
    Row {
        frames: &[SCHEMA_PAYLOAD, TWO, ONE_BY_COLUMNS],
        ..THREE
    },
    Row {
        frames: &[SCHEMA_PAYLOAD, TWO_BY_COLUMNS, ONE],
        does: Does::Has(231),
        ..ROW
    },
    Row {
        frames: &[SCHEMA_PAYLOAD, TWO_BY_COLUMNS, ONE],
        ..THREE
    },
    Row {
        frames: &[SCHEMA_PAYLOAD, TWO_BY_COLUMNS, ONE_BY_COLUMNS],
        does: Does::Has(237),
        ..ROW
    },
    Row {
        frames: &[SCHEMA_PAYLOAD, TWO_BY_COLUMNS, ONE_BY_COLUMNS],
        ..THREE
    },
    // A log that grew is dumped by its last schema.
    Row {
        frames: &[SCHEMA_PAYLOAD, PLACE, ONE_PLACED],
        does: Does::Prints(Print {
            text: b"payments(ts,card:text,merchant:text,amount:int,place:text)\n2,300000,c1,m1,50,p\n",
            ..DUMP
        }),
        ..ROW
    },
    Row {
        frames: &[SCHEMA_PAYLOAD, TWO, PLACE],
        does: Does::Prints(Print {
            text: TWO_PLACED_ROWS,
            ..DUMP
        }),
        ..ROW
    },
    Row {
        frames: &[SCHEMA_PAYLOAD, TWO_BY_COLUMNS, PLACE, FEE],
        does: Does::Prints(Print {
            text: b"payments(ts,card:text,merchant:text,amount:int,place:text,fee:int)\n0,0,c1,m1,100,??,-3\n1,299999,c1,m2,200,??,-3\n",
            ..DUMP
        }),
        ..ROW
    },
    Row {
        frames: &[SCHEMA_PAYLOAD, TWO, PLACE, ONE_PLACED, FEE],
        does: Does::Prints(Print {
            text: b"payments(ts,card:text,merchant:text,amount:int,place:text,fee:int)\n0,0,c1,m1,100,??,-3\n1,299999,c1,m2,200,??,-3\n2,300000,c1,m1,50,p,-3\n",
            ..DUMP
        }),
        ..ROW
    },
    // Each kind of value is printed.
    Row {
        frames: &[b"Sp(ts,t:text,f:flag,g:flag,i:id,n:int)", KINDS],
        does: Does::Prints(Print {
            text: KINDS_DUMPED,
            ..DUMP
        }),
        ..ROW
    },
    Row {
        frames: &[b"Sp(ts,t:text,f:flag,g:flag,i:id,n:int)", KINDS_BY_COLUMNS],
        does: Does::Prints(Print {
            text: KINDS_DUMPED,
            ..DUMP
        }),
        ..ROW
    },
];

#[test]
fn each_event_is_dumped_as_a_row_of_the_last_schema(rt: HostRuntime) -> Result<(), Fail> {
    assert_rows(&rt, WHOLE)
}

/// Logs without frames, that are cut, or whose dump fails.
const CUT: &[Row<'_>] = &[
    // Nothing is put for a log without frames.
    Row {
        rest: &[b""],
        ..NOTHING
    },
    Row {
        rest: &[b"\x01"],
        ..NOTHING
    },
    Row {
        rest: &[b"\0"],
        ..NOTHING
    },
    Row {
        rest: &[b"\0\x01\x02"],
        ..NOTHING
    },
    // The log of three payments, cut anywhere.
    Row {
        least: 0,
        most: 1,
        does: Does::Prints(DUMP),
        ..THREE
    },
    Row {
        least: 2,
        most: 57,
        does: Does::Prints(Print {
            ends: Err(DumpFault::Damaged(0)),
            text: b"",
            ..DUMP
        }),
        ..THREE
    },
    Row {
        least: 58,
        most: 163,
        does: Does::Prints(Print {
            ends: Err(DumpFault::Damaged(57)),
            text: SCHEMA_LINE,
            ..DUMP
        }),
        ..THREE
    },
    Row {
        least: 164,
        most: 239,
        does: Does::Prints(Print {
            ends: Err(DumpFault::Damaged(163)),
            text: TWO_ROWS,
            ..DUMP
        }),
        ..THREE
    },
    Row {
        least: 240,
        most: 240,
        ..THREE
    },
    // Each call that fails ends its dump; the last one finds the gate closed.
    Row {
        does: Does::Prints(Print {
            fails: true,
            ends: Err(DumpFault::Disk),
            text: THREE_ROWS,
            ..DUMP
        }),
        ..THREE
    },
];

#[test]
fn a_log_is_dumped_up_to_its_damage_or_a_call_that_fails(rt: HostRuntime) -> Result<(), Fail> {
    assert_rows(&rt, CUT)
}

/// Logs of frames that aren't what they should be.
const DAMAGED: &[Row<'_>] = &[
    // No schema.
    Row {
        frames: &[b"\xff"],
        does: Does::Prints(Print {
            ends: Err(DumpFault::Damaged(0)),
            text: b"",
            ..DUMP
        }),
        ..ROW
    },
    Row {
        frames: &[TWO],
        does: Does::Prints(Print {
            ends: Err(DumpFault::Damaged(0)),
            text: b"",
            ..DUMP
        }),
        ..ROW
    },
    // No chunk.
    Row {
        frames: &[SCHEMA_PAYLOAD, SCHEMA_PAYLOAD],
        does: Does::Prints(Print {
            ends: Err(DumpFault::Damaged(57)),
            text: SCHEMA_LINE,
            ..DUMP
        }),
        ..ROW
    },
    // No columns.
    Row {
        frames: &[SCHEMA_PAYLOAD, WIDE],
        does: Does::Prints(Print {
            ends: Err(DumpFault::Damaged(57)),
            text: SCHEMA_LINE,
            ..DUMP
        }),
        ..ROW
    },
    Row {
        frames: &[SCHEMA_PAYLOAD, TWO, ONE_CUT],
        does: Does::Prints(Print {
            ends: Err(DumpFault::Damaged(163)),
            text: TWO_ROWS,
            ..DUMP
        }),
        ..ROW
    },
    // Offsets that don't rise from one chunk to the next.
    Row {
        frames: &[SCHEMA_PAYLOAD, TWO, TWO],
        does: Does::Prints(Print {
            ends: Err(DumpFault::Damaged(163)),
            text: TWO_ROWS,
            ..DUMP
        }),
        ..ROW
    },
    Row {
        frames: &[SCHEMA_PAYLOAD, TWO, TWO_BY_COLUMNS],
        does: Does::Prints(Print {
            ends: Err(DumpFault::Damaged(163)),
            text: TWO_ROWS,
            ..DUMP
        }),
        ..ROW
    },
    Row {
        frames: &[SCHEMA_PAYLOAD, ONE, TWO],
        does: Does::Prints(Print {
            ends: Err(DumpFault::Damaged(133)),
            text: b"payments(ts,card:text,merchant:text,amount:int)\n2,300000,c1,m1,50\n",
            ..DUMP
        }),
        ..ROW
    },
    // No growth of the schema in force.
    Row {
        frames: &[SCHEMA_PAYLOAD, TWO, FEE],
        does: Does::Prints(Print {
            ends: Err(DumpFault::Damaged(163)),
            text: TWO_ROWS,
            ..DUMP
        }),
        ..ROW
    },
    // No chunk of it.
    Row {
        frames: &[SCHEMA_PAYLOAD, TWO, PLACE, ONE],
        does: Does::Prints(Print {
            ends: Err(DumpFault::Damaged(239)),
            text: TWO_PLACED_ROWS,
            ..DUMP
        }),
        ..ROW
    },
];

#[test]
fn a_frame_that_is_not_what_it_should_be_is_damage(rt: HostRuntime) -> Result<(), Fail> {
    assert_rows(&rt, DAMAGED)
}
