use crate::rows::{Checks, Row, assert_each};
use crate::schema::schema_of;
use crate::written::{Written, is_written};
use rg_bytes::{ByteReader, Memory};
use rg_event::{Event, EventFault, Schema, Value, decode};
use std::alloc::Global;
use std::test::Fail;

/// A column of each kind.
const EACH_KIND: &[u8] = b"s(t,a:int,b:id,c:text,d:flag)";

/// The event of offset 40 and time 7 with the values -3, 2^64 - 1, `card` and true.
const EVENT: &[u8] =
    b"\0\0\0\0\0\0\0\x28\0\0\0\0\0\0\0\x07\xff\xff\xff\xff\xff\xff\xff\xfd\xff\xff\xff\xff\xff\xff\xff\xff\x04card\x01";

/// Whether an event is the one of those bytes.
fn is_of_each_kind(event: &Event, checks: &mut Checks) -> bool {
    let are_values = match event.values.as_slice() {
        [
            Value::Int(-3),
            Value::Id(u64::MAX),
            Value::Text(word),
            Value::Flag(true),
        ] => checks.same_bytes("text", word.as_bytes(), b"card"),
        values => checks.fails("values", values, "-3, 2^64 - 1, card and true"),
    };
    are_values && checks.same("offset", event.offset, 40) && checks.same("time", event.time, 7)
}

/// Whether an event is that one, and a copy of it is written as these bytes.
fn is_kept(
    alloc: Global,
    event: &Event,
    bytes: &[u8],
    checks: &mut Checks,
) -> Result<bool, Memory> {
    let copy = event.copy(alloc)?;
    let is_so = is_written(alloc, Written::Event(&copy), bytes, checks);
    drop(copy);
    Ok(is_so? && is_of_each_kind(event, checks))
}

/// Whether bytes begin with that event, a copy of which is written as they are.
fn is_read(
    alloc: Global,
    schema: &Schema,
    bytes: &[u8],
    checks: &mut Checks,
) -> Result<bool, Memory> {
    match decode(alloc, schema, &mut ByteReader::new(bytes)) {
        Ok(event) => {
            let is_kept = is_kept(alloc, &event, bytes, checks);
            drop(event);
            is_kept
        }
        Err(fault) => Ok(checks.fails("event", fault, "one of each kind")),
    }
}

/// Whether bytes of this schema do so.
fn is_read_of(
    alloc: Global,
    schema: &[u8],
    bytes: &[u8],
    checks: &mut Checks,
) -> Result<bool, Memory> {
    let schema = schema_of(alloc, schema)?;
    let is_read = is_read(alloc, &schema, bytes, checks);
    drop(schema);
    is_read
}

/// Whether some bytes begin with an event of this schema, or with none for this cause.
fn begin(
    alloc: Global,
    schema: &[u8],
    bytes: &[u8],
    want: Option<EventFault>,
    checks: &mut Checks,
) -> Result<bool, Memory> {
    let schema = schema_of(alloc, schema)?;
    let fault = decode(alloc, &schema, &mut ByteReader::new(bytes)).err();
    drop(schema);
    Ok(checks.same("fault", fault, want))
}

/// What bytes are of a schema.
#[derive(Clone, Copy)]
enum Case {
    /// Those of that event, which is written as they are.
    EachKind,
    /// They begin with an event, or have this fault.
    Begins(&'static [u8], &'static [u8], Option<EventFault>),
}

impl Row for Case {
    fn is_so(&self, alloc: Global, checks: &mut Checks) -> Result<bool, Memory> {
        match self {
            Case::EachKind => is_read_of(alloc, EACH_KIND, EVENT, checks),
            Case::Begins(schema, bytes, fault) => begin(alloc, schema, bytes, *fault, checks),
        }
    }
}

/// A flag, and a column of this kind.
const INT: &[u8] = b"s(t,a:flag,b:int)";

const ID: &[u8] = b"s(t,a:flag,b:id)";

const TEXT: &[u8] = b"s(t,a:flag,b:text)";

const FLAG: &[u8] = b"s(t,a:flag,b:flag)";

const SHORT: Option<EventFault> = Some(EventFault::Short);

/// Why the offset or the time is bad, and the second column.
const BAD_HEAD: Option<EventFault> = Some(EventFault::BadValue(0));

const BAD_SECOND: Option<EventFault> = Some(EventFault::BadValue(2));

/// Bytes that begin with an event of a schema, and bytes that don't.
const EVENTS: &[Case] = &[
    Case::EachKind,
    // The offset and the time come first.
    Case::Begins(
        b"s(t)",
        b"\x3f\xff\xff\xff\xff\xff\xff\xff\0\x03\x8d\x7e\xa4\xc6\x80\0x",
        None,
    ),
    Case::Begins(
        b"s(t)",
        b"\x3f\xff\xff\xff\xff\xff\xff\xff\0\x03\x8d\x7e\xa4\xc6\x80",
        SHORT,
    ),
    Case::Begins(b"s(t)", b"", SHORT),
    Case::Begins(b"s(t)", b"\x40\0\0\0\0\0\0\0", BAD_HEAD),
    Case::Begins(
        b"s(t)",
        b"\0\0\0\0\0\0\0\0\0\x03\x8d\x7e\xa4\xc6\x80\x01",
        BAD_HEAD,
    ),
    // A value is one of its kind: the offset, the time and the flag before it are zeros.
    Case::Begins(
        INT,
        b"\0\0\0\0\0\0\0\0\0\0\0\0\0\0\0\0\0\0\0\0\xe8\xd4\xa5\x10\0",
        None,
    ),
    Case::Begins(
        INT,
        b"\0\0\0\0\0\0\0\0\0\0\0\0\0\0\0\0\0\0\0\0\xe8\xd4\xa5\x10\x01",
        BAD_SECOND,
    ),
    Case::Begins(
        INT,
        b"\0\0\0\0\0\0\0\0\0\0\0\0\0\0\0\0\0\xff\xff\xff\x17\x2b\x5a\xef\xff",
        BAD_SECOND,
    ),
    Case::Begins(
        ID,
        b"\0\0\0\0\0\0\0\0\0\0\0\0\0\0\0\0\0\0\0\0\0\0\0\0",
        SHORT,
    ),
    Case::Begins(
        TEXT,
        b"\0\0\0\0\0\0\0\0\0\0\0\0\0\0\0\0\0\x01\xff",
        BAD_SECOND,
    ),
    Case::Begins(TEXT, b"\0\0\0\0\0\0\0\0\0\0\0\0\0\0\0\0\0\x03c1", SHORT),
    Case::Begins(FLAG, b"\0\0\0\0\0\0\0\0\0\0\0\0\0\0\0\0\0\x02", BAD_SECOND),
    Case::Begins(FLAG, b"\0\0\0\0\0\0\0\0\0\0\0\0\0\0\0\0\0", SHORT),
];

#[test]
fn an_event_has_its_offset_its_time_and_a_value_of_each_columns_kind(
    rt: HostRuntime,
) -> Result<(), Fail> {
    assert_each(&rt, EVENTS)
}
