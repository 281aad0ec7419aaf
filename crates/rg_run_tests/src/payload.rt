use crate::bytes::Pieces;

/// The payload of the schema's frame: the tag `S` and the text.
pub(crate) const SCHEMA: Pieces = &[b"Spayments(ts,card:text,merchant:text,amount:int)"];

/// That of another schema.
pub(crate) const CARDS: Pieces = &[b"Scards(ts,card:text)"];

/// A chunk of the payments `0,c1,m1,100` and `299999,c1,m2,200` at offsets 0 and 1.
pub(crate) const TWO: Pieces = &[
    b"C\0\0\0\x02\0\0\0\0\0\0\0\0\0\0\0\0\0\0\0\0\0\0\0\0\0\0\0\x01\0\0\0\0\0\x04\x93\xdf\0\0\0\
    \0\0\0\0\0\0\0\0\0\0\0\0\0\x02c1\x02m1\0\0\0\0\0\0\0d\0\0\0\0\0\0\0\x01\0\0\0\0\0\x04\x93\
    \xdf\x02c1\x02m2\0\0\0\0\0\0\0\xc8",
];

/// A chunk of the payment `300000,c2,m1,50` at offset 2: the first one leaves its window then.
pub(crate) const THIRD: Pieces = &[
    b"C\0\0\0\x01\0\0\0\0\0\0\0\x02\0\0\0\0\0\x04\x93\xe0\0\0\0\0\0\0\0\x02\0\0\0\0\0\x04\x93\
    \xe0\0\0\0\0\0\0\0\x02\0\0\0\0\0\x04\x93\xe0\x02c2\x02m1\0\0\0\0\0\0\0\x32",
];

/// A base up to the last byte of the place of its first spot.
const BASE_HEAD: &[u8] =
    b"B\0\0\0\x01\0\0\0OSELECT count(*), sum(amount) FROM payments GROUP BY card OVER SLIDING 30\
    0000 ms\0\0\0\0\0\0\0\x01\0\0\0\x02\0\0\0\0\0\0\0";

/// Between that and the last byte of the place of the second.
const BASE_SPOT: &[u8] = b"\0\0\0\x01\0\0\0\0\0\0\0\x01\0\0\0\0\0\0\0";

/// Behind that.
const BASE_ROWS: &[u8] =
    b"\0\0\0\0\0\0\0\0\0\0\0\0\0\0\0\0\0\0\0\x02\0\0\0\0\0\0\0\x04\x03\x02c1\x01\0\0\0\0\0\0\0\
    \x01\0\0\0\x01\0\0\0\x04\x03\x02c1\x02\0\0\0\0\0\0\0\x01\0\0\0\0\0\0\0\0\0\0\0\0\0\0\0d";

/// The checkpoint of the first payment: the card `c1` has one of 100 in all.
pub(crate) const BASE: Pieces = &[BASE_HEAD, &[57], BASE_SPOT, &[57], BASE_ROWS];

/// The same with its spots at another place.
pub(crate) const BASE_ELSEWHERE: Pieces = &[BASE_HEAD, &[46], BASE_SPOT, &[46], BASE_ROWS];

/// A change up to the last byte of its count.
const CHANGE_HEAD: &[u8] = b"D\0\0\0\0\0\0\0";

/// Between that and the last byte of all.
const CHANGE_ROWS: &[u8] =
    b"\0\0\0\x02\0\0\0\0\0\0\0\x39\0\0\0\x02\0\0\0\0\0\0\0\x02\0\0\0\0\0\0\0\x39\0\0\0\0\0\0\0\0\0\0\0\
    \0\0\0\0\0\0\0\0\x02\0\0\0\0\0\0\0\x04\x03\x02c1\x01\x01\0\0\0\0\0\0\0\x02\0\0\0\x01\0\0\0\
    \x04\x03\x02c1\x01\x02\0\0\0\0\0\0\0\x02\0\0\0\0\0\0\0\0\0\0\0\0\0\0\x01";

/// What the second payment changes of the base: the card has two of 300 in all.
pub(crate) const CHANGE: Pieces = &[CHANGE_HEAD, &[2], CHANGE_ROWS, &[0x2c]];

/// The same cut.
pub(crate) const CHANGE_CUT: Pieces = &[CHANGE_HEAD, &[2], CHANGE_ROWS];

/// The same of no payment.
pub(crate) const CHANGE_OF_NONE: Pieces = &[CHANGE_HEAD, &[0], CHANGE_ROWS, &[0x2c]];

/// A change that the payments don't bear out: the card's rows are gone.
pub(crate) const GONE: Pieces = &[
    b"D\0\0\0\0\0\0\0\x02\0\0\0\x02\0\0\0\0\0\0\0\x39\0\0\0\x02\0\0\0\0\0\0\0\x02\0\0\0\0\0\0\0\x39\0\
    \0\0\0\0\0\0\0\0\0\0\0\0\0\0\0\0\0\0\x02\0\0\0\0\0\0\0\x04\x03\x02c1\0\0\0\0\x01\0\0\0\x04\
    \x03\x02c1\0",
];

/// A checkpoint of two payments: one query, whose text is `q`, no spot and no row.
pub(crate) const OTHER: Pieces = &[
    b"B\0\0\0\x01\0\0\0\x01q\0\0\0\0\0\0\0\x02\0\0\0\0\0\0\0\0\0\0\0\0",
];

/// The payload of a schema without amounts.
pub(crate) const NARROW: Pieces = &[b"Spayments(ts,card:text,merchant:text)"];

/// A chunk of the payments `0,c1,m1` and `299999,c1,m2` of that schema at offsets 0 and 1.
pub(crate) const NARROW_TWO: Pieces = &[
    b"C\0\0\0\x02\0\0\0\0\0\0\0\0\0\0\0\0\0\0\0\0\0\0\0\0\0\0\0\x01\0\0\0\0\0\x04\x93\xdf\0\0\0\
    \0\0\0\0\0\0\0\0\0\0\0\0\0\x02c1\x02m1\0\0\0\0\0\0\0\x01\0\0\0\0\0\x04\x93\xdf\x02c1\x02m2",
];

/// The growth of that schema by the amounts: each payment before it has 100.
pub(crate) const AMOUNTS: Pieces = &[
    b"G\0\0\0\x2fpayments(ts,card:text,merchant:text,amount:int)\x01\0\0\0\0\0\0\0d",
];

/// The growth of the payments by a country, which is `??` in each payment before it: by hand, the tag, the length of
/// the new schema's text, the text, and the tag, the length and the bytes of the value.
pub(crate) const COUNTRY: Pieces = &[
    b"G\0\0\0\x3cpayments(ts,card:text,merchant:text,amount:int,country:text)\x03\x02??",
];
