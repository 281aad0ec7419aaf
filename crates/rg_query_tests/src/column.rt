use crate::rows::{Checks, Row, assert_each};
use crate::schema::schema_of;
use crate::written::{Written, is_written};
use rg_bytes::{ByteReader, Memory, put_bytes};
use rg_column::{ColumnFault, Width, decode_columns};
use rg_event::{Events, Schema};
use std::alloc::Global;
use std::test::Fail;

/// The columns of the payments below.
const PAYMENTS: &[u8] = b"payments(ts,card:text,merchant:text,amount:int)";

/// Two payments with the card c1: 100 at time 0 to m1, and 200 at time 299,999 to m2. The widths stand at 8, 19 and
/// 48.
const COLUMNS: &[u8] = b"\0\0\0\0\0\0\0\0\x01\0\x01\
    \0\0\0\0\0\0\0\0\x04\0\0\0\0\0\x04\x93\xdf\
    \x02\x02c1c1\
    \x02\x02m1m2\
    \0\0\0\0\0\0\0\x64\x01\0\x64";

/// The same payments one behind another: offset, time and values.
const ROWS: &[u8] = b"\0\0\0\0\0\0\0\0\0\0\0\0\0\0\0\0\x02c1\x02m1\0\0\0\0\0\0\0\x64\
    \0\0\0\0\0\0\0\x01\0\0\0\0\0\x04\x93\xdf\x02c1\x02m2\0\0\0\0\0\0\0\xc8";

/// Whether events are written as these rows, and as these columns.
fn are_written(
    alloc: Global,
    schema: &Schema,
    events: &Events,
    columns: &[u8],
    rows: &[u8],
    checks: &mut Checks,
) -> Result<bool, Memory> {
    let events = events.as_slice();
    let are_columns = is_written(alloc, Written::Columns(schema, events), columns, checks)?;
    Ok(is_written(alloc, Written::Events(events), rows, checks)? && are_columns)
}

/// Whether two events are read of these columns that are written as these rows, and as the columns again.
fn are_read(
    alloc: Global,
    schema: &Schema,
    columns: &[u8],
    rows: &[u8],
    checks: &mut Checks,
) -> Result<bool, Memory> {
    match decode_columns(alloc, schema, 2, &mut ByteReader::new(columns)) {
        Ok(events) => {
            let are_written = are_written(alloc, schema, &events, columns, rows, checks);
            drop(events);
            are_written
        }
        Err(fault) => Ok(checks.fails("columns", fault, "two events")),
    }
}

/// Whether they are of columns of this schema.
fn are_kept(
    alloc: Global,
    schema: &[u8],
    columns: &[u8],
    rows: &[u8],
    checks: &mut Checks,
) -> Result<bool, Memory> {
    let schema = schema_of(alloc, schema)?;
    let are_read = are_read(alloc, &schema, columns, rows, checks);
    drop(schema);
    are_read
}

/// The fault of two events that begin these bytes, if there is one, and how many bytes are left.
fn read_two(
    alloc: Global,
    schema: &[u8],
    bytes: &[u8],
) -> Result<(Option<ColumnFault>, usize), Memory> {
    let schema = schema_of(alloc, schema)?;
    let mut from = ByteReader::new(bytes);
    let fault = decode_columns(alloc, &schema, 2, &mut from).err();
    drop(schema);
    Ok((fault, from.left()))
}

/// Whether two events that these bytes begin have this fault, and the reader stays.
fn are_faulty(
    alloc: Global,
    schema: &[u8],
    bytes: &[u8],
    fault: ColumnFault,
    checks: &mut Checks,
) -> Result<bool, Memory> {
    let read = read_two(alloc, schema, bytes)?;
    Ok(checks.same("fault and bytes left", read, (Some(fault), bytes.len())))
}

/// Puts the columns of the two payments with other bytes from a place on.
fn put_changed(out: &mut Vec<u8>, at: usize, bytes: &[u8]) -> Result<(), Memory> {
    put_bytes(out, COLUMNS.get(..at).unwrap_or(b""))?;
    put_bytes(out, bytes)?;
    let behind = COLUMNS.get(at..).unwrap_or(b"");
    put_bytes(out, behind.get(bytes.len()..).unwrap_or(b""))
}

/// Whether the columns of the two payments with other bytes from a place on have this fault, or none.
fn is_changed(
    alloc: Global,
    at: usize,
    bytes: &[u8],
    fault: Option<ColumnFault>,
    checks: &mut Checks,
) -> Result<bool, Memory> {
    let mut columns = Vec::new(alloc);
    let read = match put_changed(&mut columns, at, bytes) {
        Ok(()) => read_two(alloc, PAYMENTS, &columns),
        Err(memory) => Err(memory),
    };
    drop(columns);
    Ok(checks.same("fault", read?.0, fault))
}

/// Whether a number is written in its least width as these bytes, and the width is told by the byte that says it.
fn is_least(alloc: Global, number: u64, bytes: &[u8], checks: &mut Checks) -> Result<bool, Memory> {
    let width = Width::least(number);
    if checks.same("width", Width::from_byte(width.byte()), Some(width)) {
        is_written(alloc, Written::Least(number), bytes, checks)
    } else {
        Ok(false)
    }
}

/// Whether each front of the columns of the two payments is short, and the reader stays.
fn are_cut(alloc: Global, checks: &mut Checks) -> Result<bool, Memory> {
    for end in 0..COLUMNS.len() {
        let front = COLUMNS.get(..end).unwrap_or(b"");
        let is_short = are_faulty(alloc, PAYMENTS, front, ColumnFault::Short, checks)?;
        if !checks.at(is_short, "length", end) {
            return Ok(false);
        }
    }
    Ok(true)
}

/// What columns are, or a number.
#[derive(Clone, Copy)]
enum Case {
    /// The two payments' columns are read as their rows, and written back.
    Payments,
    /// Those of this schema are read as these rows, and written back.
    Kept(&'static [u8], &'static [u8], &'static [u8]),
    /// They are bad at their first column.
    Bad(&'static [u8], &'static [u8]),
    /// With these bytes from a place on the columns of the two payments are bad at this one.
    BadAt(usize, &'static [u8], u32),
    /// With these they are read, or have another fault.
    Changed(usize, &'static [u8], Option<ColumnFault>),
    /// A number is written in its least width as these bytes, and the width is told by the byte that says it.
    Least(u64, &'static [u8]),
    /// Each front of the two payments' columns is short, and the reader stays.
    Cut,
}

impl Row for Case {
    fn is_so(&self, alloc: Global, checks: &mut Checks) -> Result<bool, Memory> {
        match self {
            Case::Payments => are_kept(alloc, PAYMENTS, COLUMNS, ROWS, checks),
            Case::Kept(schema, columns, rows) => are_kept(alloc, schema, columns, rows, checks),
            Case::Bad(schema, columns) => {
                are_faulty(alloc, schema, columns, ColumnFault::BadColumn(1), checks)
            }
            Case::BadAt(at, bytes, column) => {
                let fault = ColumnFault::BadColumn(*column);
                is_changed(alloc, *at, bytes, Some(fault), checks)
            }
            Case::Changed(at, bytes, fault) => is_changed(alloc, *at, bytes, *fault, checks),
            Case::Least(number, bytes) => is_least(alloc, *number, bytes, checks),
            Case::Cut => are_cut(alloc, checks),
        }
    }
}

/// Columns that are read or bad, and numbers in their least widths.
const COLUMNS_AND_NUMBERS: &[Case] = &[
    Case::Payments,
    // Numbers as far apart as they can be: the events have offsets 0 and 1 and time 0.
    Case::Kept(
        b"s(ts,who:id)",
        b"\0\0\0\0\0\0\0\0\x01\0\x01\0\0\0\0\0\0\0\0\x01\0\0\0\0\0\0\0\0\0\0\x08\0\0\0\0\0\0\0\0\xff\xff\xff\xff\xff\xff\xff\xff",
        b"\0\0\0\0\0\0\0\0\0\0\0\0\0\0\0\0\0\0\0\0\0\0\0\0\0\0\0\0\0\0\0\x01\0\0\0\0\0\0\0\0\xff\xff\xff\xff\xff\xff\xff\xff",
    ),
    Case::Kept(
        b"s(ts,sum:int)",
        b"\0\0\0\0\0\0\0\0\x01\0\x01\0\0\0\0\0\0\0\0\x01\0\0\xff\xff\xff\x17\x2b\x5a\xf0\0\x08\0\0\x01\xd1\xa9\x4a\x20\0\0\0\0\0\0\0\0\0",
        b"\0\0\0\0\0\0\0\0\0\0\0\0\0\0\0\0\0\0\0\xe8\xd4\xa5\x10\0\0\0\0\0\0\0\0\x01\0\0\0\0\0\0\0\0\xff\xff\xff\x17\x2b\x5a\xf0\0",
    ),
    Case::Kept(
        b"s(ts,paid:flag)",
        b"\0\0\0\0\0\0\0\0\x01\0\x01\0\0\0\0\0\0\0\0\x01\0\0\x01\0",
        b"\0\0\0\0\0\0\0\0\0\0\0\0\0\0\0\0\x01\0\0\0\0\0\0\0\x01\0\0\0\0\0\0\0\0\0",
    ),
    // Numbers past 64 bits and other flags are bad, and the reader stays.
    Case::Bad(
        b"s(ts,who:id)",
        b"\0\0\0\0\0\0\0\0\x01\0\x01\0\0\0\0\0\0\0\0\x01\0\0\0\0\0\0\0\0\0\x01\x08\0\0\0\0\0\0\0\0\xff\xff\xff\xff\xff\xff\xff\xff",
    ),
    Case::Bad(
        b"s(ts,paid:flag)",
        b"\0\0\0\0\0\0\0\0\x01\0\x01\0\0\0\0\0\0\0\0\x01\0\0\x01\x02",
    ),
    // No such width, at the offsets and at the amounts.
    Case::BadAt(8, b"\x03", 0),
    Case::BadAt(48, b"\0", 3),
    // No difference is 0, so the base isn't the least offset, time or amount.
    Case::BadAt(9, b"\x01\x02", 0),
    Case::BadAt(23, b"\x01", 0),
    Case::BadAt(49, b"\x01", 3),
    // The times need 2 bytes alone, and the amounts 1.
    Case::BadAt(25, b"\0", 0),
    Case::BadAt(48, b"\x02\0\0\0\x64", 3),
    // An offset above 2^62 - 1, a time above 10^15, and amounts above 10^12 and below -10^12.
    Case::Changed(0, b"", None),
    Case::BadAt(0, b"\x40", 0),
    Case::BadAt(12, b"\x7f", 0),
    Case::BadAt(40, b"\x7f", 3),
    Case::BadAt(40, b"\x80", 3),
    // A merchant that is no UTF-8, and a card that is longer than what is left.
    Case::BadAt(36, b"\xff", 2),
    Case::Changed(28, b"\xff", Some(ColumnFault::Short)),
    // A number is written in its least width.
    Case::Least(0, b"\0"),
    Case::Least(255, b"\xff"),
    Case::Least(256, b"\x01\0"),
    Case::Least(65_535, b"\xff\xff"),
    Case::Least(65_536, b"\0\x01\0\0"),
    Case::Least(4_294_967_295, b"\xff\xff\xff\xff"),
    Case::Least(4_294_967_296, b"\0\0\0\x01\0\0\0\0"),
];

#[test]
fn columns_are_read_as_events_and_written_back_and_others_are_bad(
    rt: HostRuntime,
) -> Result<(), Fail> {
    assert_each(&rt, COLUMNS_AND_NUMBERS)
}

#[test]
fn columns_that_are_cut_are_short_and_the_reader_stays(rt: HostRuntime) -> Result<(), Fail> {
    assert_each(&rt, &[Case::Cut])
}
