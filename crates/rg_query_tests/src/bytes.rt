use crate::rows::{Checks, Row, assert_each};
use crate::written::{Written, is_written};
use rg_bytes::{ByteReader, Memory, read_signed, read_whole};
use std::alloc::Global;
use std::test::Fail;

/// A number of each width, and three bytes behind them: the greatest byte of a number comes first.
const NUMBERS: &[u8] =
    b"\xc8\x01\x02\x03\x04\xff\xff\xff\xff\xff\xff\xff\xfe\xff\xff\xff\xff\xff\xff\xff\xfe\
    \x80\0\0\0\0\0\0\0\0\0\0\0\0\0\0\x03end";

/// Whether those numbers are read, and then the three bytes.
fn are_next(mut reader: ByteReader<'_>, checks: &mut Checks) -> bool {
    checks.same("u8", reader.u8(), Ok(200))
        && checks.same("u32", reader.u32(), Ok(0x01020304))
        && checks.same("u64", reader.u64(), Ok(u64::MAX - 1))
        && checks.same("i64", reader.i64(), Ok(-2))
        && checks.same("i128", reader.i128(), Ok(i128::MIN + 3))
        && checks.same("bytes", reader.bytes(3), Ok(b"end".as_slice()))
}

/// Numbers as text or bytes.
#[derive(Clone, Copy)]
enum Case {
    /// A text is read as this number, by either call.
    Both(&'static [u8], i64),
    /// It is read as these: as a number without a sign, and as one that may have a sign.
    Apart(&'static [u8], Option<u64>, Option<i64>),
    /// It is read as no number by either.
    Neither(&'static [u8]),
    /// Five numbers are written as this text.
    AsText(&'static [u8]),
    /// Numbers of each width are written as those bytes, and read of them.
    AsBytes,
}

fn is_read(text: &[u8], whole: Option<u64>, signed: Option<i64>, checks: &mut Checks) -> bool {
    checks.same("read_whole", read_whole(text), whole)
        && checks.same("read_signed", read_signed(text), signed)
}

/// Whether the numbers of each width are written as those bytes, and read of them.
fn are_bytes(alloc: Global, checks: &mut Checks) -> Result<bool, Memory> {
    if are_next(ByteReader::new(NUMBERS), checks) {
        is_written(alloc, Written::Numbers, NUMBERS, checks)
    } else {
        Ok(false)
    }
}

impl Row for Case {
    fn is_so(&self, alloc: Global, checks: &mut Checks) -> Result<bool, Memory> {
        match self {
            Case::Both(text, number) => {
                Ok(is_read(text, Some(number.unsigned_abs()), Some(*number), checks))
            }
            Case::Apart(text, whole, signed) => Ok(is_read(text, *whole, *signed, checks)),
            Case::Neither(text) => Ok(is_read(text, None, None, checks)),
            Case::AsText(text) => is_written(alloc, Written::Texts, text, checks),
            Case::AsBytes => are_bytes(alloc, checks),
        }
    }
}

#[test]
fn numbers_are_read_and_written_as_text_and_as_bytes(rt: HostRuntime) -> Result<(), Fail> {
    assert_each(
        &rt,
        &[
            // A number of up to twenty digits is read.
            Case::Both(b"0", 0),
            Case::Both(b"12345", 12345),
            Case::Both(b"1700000000000", 1700000000000),
            Case::Both(b"9223372036854775807", 9223372036854775807),
            Case::Both(b"00000000000000000042", 42),
            // A sign or a 64th bit is read in one way alone.
            Case::Apart(b"9223372036854775808", Some(9223372036854775808), None),
            Case::Apart(b"18446744073709551615", Some(18446744073709551615), None),
            Case::Apart(b"+1", None, Some(1)),
            Case::Apart(b"-0", None, Some(0)),
            Case::Apart(b"-9223372036854775807", None, Some(-9223372036854775807)),
            Case::Apart(b"-00000000000000000042", None, Some(-42)),
            // What is no number isn't read.
            Case::Neither(b""),
            Case::Neither(b"18446744073709551616"),
            Case::Neither(b"000000000000000000042"),
            Case::Neither(b"-"),
            Case::Neither(b"+-1"),
            Case::Neither(b"-9223372036854775808"),
            Case::Neither(b"+9223372036854775808"),
            Case::Neither(b"-000000000000000000042"),
            Case::Neither(b"1/"),
            Case::Neither(b":1"),
            Case::Neither(b" 1"),
            Case::AsText(
                b"018446744073709551615-59223372036854775808-170141183460469231731687303715884105728",
            ),
            Case::AsBytes,
        ],
    )
}
