use crate::events::Item;
use crate::tried::{CASE, Case, Put};

/// The schema of the payments below.
pub(crate) const SCHEMA: &[u8] = b"payments(ts,card:text,merchant:text,amount:int)";

/// The payload of its frame: the tag `S` and the text.
pub(crate) const SCHEMA_PAYLOAD: &[u8] = b"Spayments(ts,card:text,merchant:text,amount:int)";

/// A chunk of the payments `0,c1,m1,100` and `299999,c1,m2,200` at offsets 0 and 1.
pub(crate) const TWO: &[u8] = b"\
    C\0\0\0\x02\0\0\0\0\0\0\0\0\0\0\0\0\0\0\0\0\0\0\0\0\0\0\0\x01\0\0\0\0\0\x04\x93\xdf\0\0\0\0\
    \0\0\0\0\0\0\0\0\0\0\0\0\x02c1\x02m1\0\0\0\0\0\0\0\x64\0\0\0\0\0\0\0\x01\0\0\0\0\0\x04\x93\
    \xdf\x02c1\x02m2\0\0\0\0\0\0\0\xc8";

/// A chunk of the payment `300000,c1,m1,50` at offset 2.
pub(crate) const ONE: &[u8] = b"\
    C\0\0\0\x01\0\0\0\0\0\0\0\x02\0\0\0\0\0\x04\x93\xe0\0\0\0\0\0\0\0\x02\0\0\0\0\0\x04\x93\xe0\
    \0\0\0\0\0\0\0\x02\0\0\0\0\0\x04\x93\xe0\x02c1\x02m1\0\0\0\0\0\0\0\x32";

/// The payments of `TWO` by columns: the offsets, the times, the cards, the merchants and the amounts.
pub(crate) const TWO_BY_COLUMNS: &[u8] = b"\
    K\0\0\0\x02\0\0\0\0\0\0\0\0\0\0\0\0\0\0\0\0\0\0\0\0\0\0\0\x01\0\0\0\0\0\x04\x93\xdf\0\0\0\0\
    \0\0\0\0\x01\0\x01\0\0\0\0\0\0\0\0\x04\0\0\0\0\0\x04\x93\xdf\x02\x02c1c1\x02\x02m1m2\0\0\0\0\
    \0\0\0\x64\x01\0\x64";

/// The payment of `ONE` by columns.
pub(crate) const ONE_BY_COLUMNS: &[u8] = b"\
    K\0\0\0\x01\0\0\0\0\0\0\0\x02\0\0\0\0\0\x04\x93\xe0\0\0\0\0\0\0\0\x02\0\0\0\0\0\x04\x93\xe0\
    \0\0\0\0\0\0\0\x02\x01\0\0\0\0\0\0\x04\x93\xe0\x01\0\x02c1\x02m1\0\0\0\0\0\0\0\x32\x01\0";

/// A growth of that schema: the column `place`, a text, which is `??` in the payments before it.
pub(crate) const PLACE: &[u8] =
    b"G\0\0\0\x3apayments(ts,card:text,merchant:text,amount:int,place:text)\x03\x02??";

/// One more: the column `fee`, an int, which is -3 in the payments before it.
pub(crate) const FEE: &[u8] =
    b"G\0\0\0\x42payments(ts,card:text,merchant:text,amount:int,place:text,fee:int)\x01\xff\xff\xff\xff\xff\xff\xff\xfd";

/// A chunk of the payment of `ONE` where there are places: its place is `p`.
pub(crate) const ONE_PLACED: &[u8] = b"\
    C\0\0\0\x01\0\0\0\0\0\0\0\x02\0\0\0\0\0\x04\x93\xe0\0\0\0\0\0\0\0\x02\0\0\0\0\0\x04\x93\xe0\
    \0\0\0\0\0\0\0\x02\0\0\0\0\0\x04\x93\xe0\x02c1\x02m1\0\0\0\0\0\0\0\x32\x01p";

/// The open frame of that schema.
pub(crate) const SCHEMA_FRAME: &[u8] = b"\
    \x01\0\0\0\0\0\0\0\x30Spayments(ts,card:text,merchant:text,amount:int)";

/// The open frame of `TWO`.
pub(crate) const TWO_FRAME: &[u8] = b"\
    \x01\0\0\0\0\0\0\0\x61C\0\0\0\x02\0\0\0\0\0\0\0\0\0\0\0\0\0\0\0\0\0\0\0\0\0\0\0\x01\0\0\0\0\
    \0\x04\x93\xdf\0\0\0\0\0\0\0\0\0\0\0\0\0\0\0\0\x02c1\x02m1\0\0\0\0\0\0\0\x64\0\0\0\0\0\0\0\
    \x01\0\0\0\0\0\x04\x93\xdf\x02c1\x02m2\0\0\0\0\0\0\0\xc8";

/// The open frame of `TWO_BY_COLUMNS`.
pub(crate) const COLUMNS_FRAME: &[u8] = b"\
    \x01\0\0\0\0\0\0\0\x58K\0\0\0\x02\0\0\0\0\0\0\0\0\0\0\0\0\0\0\0\0\0\0\0\0\0\0\0\x01\0\0\0\0\
    \0\x04\x93\xdf\0\0\0\0\0\0\0\0\x01\0\x01\0\0\0\0\0\0\0\0\x04\0\0\0\0\0\x04\x93\xdf\x02\x02\
    c1c1\x02\x02m1m2\0\0\0\0\0\0\0\x64\x01\0\x64";

/// The open frame of `ONE_BY_COLUMNS`.
pub(crate) const THIRD_FRAME: &[u8] = b"\
    \x01\0\0\0\0\0\0\0\x49K\0\0\0\x01\0\0\0\0\0\0\0\x02\0\0\0\0\0\x04\x93\xe0\0\0\0\0\0\0\0\x02\
    \0\0\0\0\0\x04\x93\xe0\0\0\0\0\0\0\0\x02\x01\0\0\0\0\0\0\x04\x93\xe0\x01\0\x02c1\x02m1\0\0\0\
    \0\0\0\0\x32\x01\0";

/// The log of two payments as rows.
pub(crate) const FILE: &[&[u8]] = &[SCHEMA_FRAME, TWO_FRAME, b"\0"];

/// The same as a run writes it, by columns.
pub(crate) const WRITTEN: &[&[u8]] = &[SCHEMA_FRAME, COLUMNS_FRAME, b"\0"];

/// A log whose frames stand at 0, 22, 88 and 154, and which ends at 220: three events without columns, in a chunk each.
pub(crate) const BARE: &[&[u8]] = &[
    b"\x01\0\0\0\0\0\0\0\x0dSpayments(ts)",
    b"\
        \x01\0\0\0\0\0\0\0\x39K\0\0\0\x01\0\0\0\0\0\0\0\0\0\0\0\0\0\0\0\x0a\0\0\0\0\0\0\0\0\0\0\0\0\
        \0\0\0\x0a\0\0\0\0\0\0\0\0\x01\0\0\0\0\0\0\0\0\x0a\x01\0",
    b"\
        \x01\0\0\0\0\0\0\0\x39K\0\0\0\x01\0\0\0\0\0\0\0\x01\0\0\0\0\0\0\0\x0a\0\0\0\0\0\0\0\x01\0\0\
        \0\0\0\0\0\x0a\0\0\0\0\0\0\0\x01\x01\0\0\0\0\0\0\0\0\x0a\x01\0",
    b"\
        \x01\0\0\0\0\0\0\0\x39K\0\0\0\x01\0\0\0\0\0\0\0\x02\0\0\0\0\0\0\0\x0a\0\0\0\0\0\0\0\x02\0\0\
        \0\0\0\0\0\x0a\0\0\0\0\0\0\0\x02\x01\0\0\0\0\0\0\0\0\x0a\x01\0",
    b"\0",
];

/// The two payments in one chunk.
pub(crate) const PUT_TWO: &[Put<'_>] = &[
    Put::Event(
        0,
        0,
        &[Item::Text(b"c1"), Item::Text(b"m1"), Item::Int(100)],
    ),
    Put::Event(
        1,
        299_999,
        &[Item::Text(b"c1"), Item::Text(b"m2"), Item::Int(200)],
    ),
    Put::Commit,
];

/// The payment behind them in a chunk of its own.
pub(crate) const PUT_THIRD: &[Put<'_>] = &[
    Put::Event(
        2,
        300_000,
        &[Item::Text(b"c1"), Item::Text(b"m1"), Item::Int(50)],
    ),
    Put::Commit,
];

/// The three events without columns.
pub(crate) const PUT_BARE: &[Put<'_>] = &[
    Put::Event(0, 10, &[]),
    Put::Commit,
    Put::Event(1, 10, &[]),
    Put::Commit,
    Put::Event(2, 10, &[]),
    Put::Commit,
];

/// A reservoir of payments, with chunks of two events.
pub(crate) const PAYMENTS: Case<'_> = Case {
    schema: SCHEMA,
    chunk: 2,
    ..CASE
};

/// One over the log of three events without columns, which is there.
pub(crate) const THREE: Case<'_> = Case {
    schema: b"payments(ts)",
    ..CASE
};

/// One that writes them first.
pub(crate) const PUT_THREE: Case<'_> = Case {
    puts: PUT_BARE,
    ..THREE
};
