use crate::rows::{Checks, Row, assert_each};
use crate::written::{Written, is_written};
use rg_bytes::{ByteReader, Memory};
use rg_event::{EventFault, Kind, Value, get_tagged, parse_value};
use std::alloc::Global;
use std::cmp::Ordering;
use std::test::Fail;

/// Whether a text is a value of this kind that has these bytes, tag and all; where there are none, that it is no
/// value.
fn is_value(
    alloc: Global,
    kind: Kind,
    text: &[u8],
    want: &[u8],
    checks: &mut Checks,
) -> Result<bool, Memory> {
    match parse_value(alloc, kind, text)? {
        Some(value) => {
            let is_so = is_written(alloc, Written::Value(&value), want, checks);
            drop(value);
            is_so
        }
        None => Ok(want.is_empty() || checks.fails("value", "none", want)),
    }
}

/// Whether a text of so many letters is a value, or isn't.
fn is_long(
    alloc: Global,
    letters: usize,
    is_one: bool,
    checks: &mut Checks,
) -> Result<bool, Memory> {
    let text = [b'a'; 256];
    let mut tagged = [b'a'; 257];
    tagged[0] = 3;
    tagged[1] = 255;
    let want = if is_one { tagged.as_slice() } else { b"" };
    is_value(
        alloc,
        Kind::Text,
        text.get(..letters).unwrap_or(b""),
        want,
        checks,
    )
}

/// The value that these bytes are, tag and all, or why they are none.
fn value_of(alloc: Global, bytes: &[u8]) -> Result<Value, EventFault> {
    get_tagged(alloc, &mut ByteReader::new(bytes))
}

/// How a value compares with the one that these bytes are.
fn order_of(alloc: Global, first: &Value, second: &[u8]) -> Result<Ordering, EventFault> {
    let second = value_of(alloc, second)?;
    let order = first.cmp(&second);
    drop(second);
    Ok(order)
}

/// How two values compare that these bytes are.
fn order_of_both(alloc: Global, first: &[u8], second: &[u8]) -> Result<Ordering, EventFault> {
    let first = value_of(alloc, first)?;
    let order = order_of(alloc, &first, second);
    drop(first);
    order
}

/// Whether they compare so.
fn compare(
    alloc: Global,
    first: &[u8],
    second: &[u8],
    want: Ordering,
    checks: &mut Checks,
) -> bool {
    checks.same("order", order_of_both(alloc, first, second), Ok(want))
}

/// Whether these bytes are no value for this cause.
fn is_faulty(alloc: Global, bytes: &[u8], want: EventFault, checks: &mut Checks) -> bool {
    match value_of(alloc, bytes) {
        Ok(value) => {
            checks.fails("tagged value", &value, want);
            drop(value);
            false
        }
        Err(fault) => checks.same("fault", fault, want),
    }
}

/// What a text or bytes are.
#[derive(Clone, Copy)]
enum Case {
    /// A text is a value of this kind that has these bytes, tag and all, or none where there are no bytes.
    Says(Kind, &'static [u8], &'static [u8]),
    /// A text of so many letters is a value, or isn't.
    Long(usize, bool),
    /// Two values compare so that these bytes are, tag and all.
    Compares(&'static [u8], &'static [u8], Ordering),
    /// The bytes are no tagged value.
    Faulty(&'static [u8], EventFault),
}

impl Row for Case {
    fn is_so(&self, alloc: Global, checks: &mut Checks) -> Result<bool, Memory> {
        match self {
            Case::Says(kind, text, want) => is_value(alloc, *kind, text, want, checks),
            Case::Long(letters, is_one) => is_long(alloc, *letters, *is_one, checks),
            Case::Compares(first, second, want) => {
                Ok(compare(alloc, first, second, *want, checks))
            }
            Case::Faulty(bytes, fault) => Ok(is_faulty(alloc, bytes, *fault, checks)),
        }
    }
}

#[test]
fn a_text_says_a_value_of_its_kind(rt: HostRuntime) -> Result<(), Fail> {
    assert_each(
        &rt,
        &[
            // An int lies within a million millions.
            Case::Says(Kind::Int, b"1000000000000", b"\x01\0\0\0\xe8\xd4\xa5\x10\0"),
            Case::Says(
                Kind::Int,
                b"-1000000000000",
                b"\x01\xff\xff\xff\x17\x2b\x5a\xf0\0",
            ),
            Case::Says(Kind::Int, b"1000000000001", b""),
            Case::Says(Kind::Int, b"-1000000000001", b""),
            Case::Says(Kind::Int, b"+1", b"\x01\0\0\0\0\0\0\0\x01"),
            Case::Says(Kind::Int, b"-0", b"\x01\0\0\0\0\0\0\0\0"),
            Case::Says(Kind::Int, b"1.5", b""),
            Case::Says(Kind::Int, b"", b""),
            // An id has no sign, and a flag is one of four words.
            Case::Says(
                Kind::Id,
                b"18446744073709551615",
                b"\x02\xff\xff\xff\xff\xff\xff\xff\xff",
            ),
            Case::Says(Kind::Id, b"18446744073709551616", b""),
            Case::Says(Kind::Id, b"+1", b""),
            Case::Says(Kind::Flag, b"true", b"\x04\x01"),
            Case::Says(Kind::Flag, b"1", b"\x04\x01"),
            Case::Says(Kind::Flag, b"false", b"\x04\0"),
            Case::Says(Kind::Flag, b"0", b"\x04\0"),
            Case::Says(Kind::Flag, b"TRUE", b""),
            // A text is UTF-8 of at most 255 bytes.
            Case::Says(Kind::Text, b"", b"\x03\0"),
            Case::Says(Kind::Text, b"caf\xc3\xa9", b"\x03\x05caf\xc3\xa9"),
            Case::Long(255, true),
            Case::Long(256, false),
            Case::Says(Kind::Text, b"caf\xc3", b""),
        ],
    )
}

#[test]
fn tagged_bytes_are_a_value_and_its_order(rt: HostRuntime) -> Result<(), Fail> {
    assert_each(
        &rt,
        &[
            Case::Compares(b"\x03\x01b", b"\x03\x02aa", Ordering::Less),
            Case::Compares(b"\x03\x02ab", b"\x03\x02aa", Ordering::Greater),
            Case::Compares(b"\x03\x02aa", b"\x03\x02aa", Ordering::Equal),
            // 1 and -1, and -2 and -1.
            Case::Compares(
                b"\x01\0\0\0\0\0\0\0\x01",
                b"\x01\xff\xff\xff\xff\xff\xff\xff\xff",
                Ordering::Less,
            ),
            Case::Compares(
                b"\x01\xff\xff\xff\xff\xff\xff\xff\xfe",
                b"\x01\xff\xff\xff\xff\xff\xff\xff\xff",
                Ordering::Less,
            ),
            // -1 and an id of 258.
            Case::Compares(
                b"\x01\xff\xff\xff\xff\xff\xff\xff\xff",
                b"\x02\0\0\0\0\0\0\x01\x02",
                Ordering::Less,
            ),
            Case::Compares(b"\x04\x01", b"\x04\0", Ordering::Greater),
            Case::Compares(
                b"\x02\0\0\0\0\0\0\0\x07",
                b"\x02\0\0\0\0\0\0\0\x07",
                Ordering::Equal,
            ),
            // What is no tagged value is refused.
            Case::Faulty(b"", EventFault::Short),
            Case::Faulty(b"\x03\x03c1", EventFault::Short),
            Case::Faulty(b"\x05\x01", EventFault::BadValue(0)),
            Case::Faulty(b"\x04\x02", EventFault::BadValue(0)),
        ],
    )
}
