ghost use Rattle.std.specs.Prelude.{◌≡◌, ◌==◌};
ghost use Rattle.std.specs.List.{list_any};

use crate::bytes::{Pieces, put_pieces};
use crate::rows::{Checks, Row, assert_each};
use rg_bytes::Memory;
use rg_event::{Event, Schema, Value};
use rg_row::{RowFault, clean, read_row};
use std::alloc::Global;
use std::test::Fail;

fn has_lf(line: &[u8]) -> bool
    ensures { result ≡ list_any (λ byte. byte == 10) line.now }
{
    line.iter().any(|byte| *byte == 10)
}

/// The event of a line; one with LF is no row.
pub(crate) fn event_of(
    alloc: Global,
    schema: &Schema,
    offset: u64,
    line: &[u8],
) -> Result<Event, RowFault> {
    if has_lf(line) {
        return Err(RowFault::Row);
    }
    read_row(alloc, schema, offset, line)
}

/// What a line gives.
#[derive(Clone, Copy, Debug)]
enum Given {
    Event,
    /// The event of offset 40, time 12, this card, the merchant m1 and the amount -7.
    Of(&'static [u8]),
    Fault(RowFault),
}

/// A line of payments, and what it gives.
#[derive(Clone, Copy)]
struct Parsed {
    offset: u64,
    line: Pieces,
    given: Given,
}

const PARSED: Parsed = Parsed {
    offset: 0,
    line: &[],
    given: Given::Event,
};

/// Whether an event has this card and what else the lines have.
fn is_of(event: &Event, card: &[u8], checks: &mut Checks) -> bool {
    let are_read = match event.values.as_slice() {
        [Value::Text(text), Value::Text(merchant), Value::Int(-7)] => {
            checks.same_bytes("card", text.as_bytes(), card)
                && checks.same_bytes("merchant", merchant.as_bytes(), b"m1")
        }
        values => checks.fails("values", values, "two texts and -7"),
    };
    checks.same("offset", event.offset, 40) && checks.same("time", event.time, 12) && are_read
}

fn is_given(read: Result<Event, RowFault>, given: Given, checks: &mut Checks) -> bool {
    match read {
        Err(fault) => {
            matches!(given, Given::Fault(wanted) if wanted == fault)
                || checks.fails("line", fault, given)
        }
        Ok(event) => {
            let is_given = match given {
                Given::Event => true,
                Given::Of(card) => is_of(&event, card, checks),
                Given::Fault(fault) => checks.fails("line", &event, fault),
            };
            drop(event);
            is_given
        }
    }
}

/// Whether a line of payments gives this.
fn gives(alloc: Global, offset: u64, line: &[u8], given: Given, checks: &mut Checks) -> bool {
    match Schema::parse(alloc, b"payments(ts,card:text,merchant:text,amount:int)") {
        Ok(schema) => {
            let read = event_of(alloc, &schema, offset, line);
            drop(schema);
            is_given(read, given, checks)
        }
        Err(_) => false,
    }
}

impl Row for Parsed {
    fn is_so(&self, rt: HostRuntime, checks: &mut Checks) -> Result<bool, Memory> {
        let mut line = Vec::new(rt.alloc());
        let joined = put_pieces(&mut line, self.line);
        let gives = gives(rt.alloc(), self.offset, &line, self.given, checks);
        drop(line);
        joined?;
        Ok(gives)
    }
}

const ALL_PARSED: &[Parsed] = &[
    Parsed {
        line: &[b"1,c1,m1,7"],
        ..PARSED
    },
    Parsed {
        line: &[b"1,\"c,1\",m1,7"],
        ..PARSED
    },
    Parsed {
        line: &[b"1,\"a\"\"b\",m1,7"],
        ..PARSED
    },
    Parsed {
        line: &[b"\"1\",\"\",,\"7\""],
        ..PARSED
    },
    Parsed {
        line: &[b"1000000000000000,c1,m1,-1"],
        ..PARSED
    },
    Parsed {
        line: &[b""],
        given: Given::Fault(RowFault::Row),
        ..PARSED
    },
    Parsed {
        line: &[b"1,\"c1,m1,7"],
        given: Given::Fault(RowFault::Row),
        ..PARSED
    },
    Parsed {
        line: &[b"1,c\"1\",m1,7"],
        given: Given::Fault(RowFault::Row),
        ..PARSED
    },
    Parsed {
        line: &[b"1,\"c1\"x,m1,7"],
        given: Given::Fault(RowFault::Row),
        ..PARSED
    },
    Parsed {
        line: &[b"1,c\r1,m1,7"],
        given: Given::Fault(RowFault::Row),
        ..PARSED
    },
    Parsed {
        line: &[b"1,\"c\r1\",m1,7"],
        given: Given::Fault(RowFault::Row),
        ..PARSED
    },
    Parsed {
        line: &[b"\xef\xbb\xbf1,c1,m1,7"],
        given: Given::Fault(RowFault::Row),
        ..PARSED
    },
    Parsed {
        line: &[b"1,c1,m1"],
        given: Given::Fault(RowFault::Fields),
        ..PARSED
    },
    Parsed {
        line: &[b"1,c1,m1,7,8"],
        given: Given::Fault(RowFault::Fields),
        ..PARSED
    },
    Parsed {
        line: &[b"x,\"c1\",m1,y,8"],
        given: Given::Fault(RowFault::Fields),
        ..PARSED
    },
    Parsed {
        line: &[b"1000000000000001,c1,m1,1"],
        given: Given::Fault(RowFault::Time),
        ..PARSED
    },
    Parsed {
        line: &[b"-1,c1,m1,1"],
        given: Given::Fault(RowFault::Time),
        ..PARSED
    },
    Parsed {
        line: &[b",c1,m1,x"],
        given: Given::Fault(RowFault::Time),
        ..PARSED
    },
    Parsed {
        line: &[b"2,c1,m1,1000000000001"],
        given: Given::Fault(RowFault::Value(3)),
        ..PARSED
    },
    Parsed {
        line: &[b"2,\"c1\",m1,x"],
        given: Given::Fault(RowFault::Value(3)),
        ..PARSED
    },
    Parsed {
        line: &[b"2,\xff,m1,x"],
        given: Given::Fault(RowFault::Value(1)),
        ..PARSED
    },
    Parsed {
        line: &[b"2,c1,\xff,x"],
        given: Given::Fault(RowFault::Value(2)),
        ..PARSED
    },
    // a card has at most 255 bytes
    Parsed {
        line: &[b"2,", &[b'a'; 255], b",m1,7"],
        ..PARSED
    },
    Parsed {
        line: &[b"2,", &[b'a'; 256], b",m1,7"],
        given: Given::Fault(RowFault::Value(1)),
        ..PARSED
    },
    // an event has the texts of its line
    Parsed {
        offset: 40,
        line: &[b"12,c1,m1,-7"],
        given: Given::Of(b"c1"),
    },
    Parsed {
        offset: 40,
        line: &[b"12,\"c,1\",m1,-7"],
        given: Given::Of(b"c,1"),
    },
    Parsed {
        offset: 40,
        line: &[b"12,\"a\"\"b\",m1,-7"],
        given: Given::Of(b"a\"b"),
    },
];

#[test]
fn a_line_gives_an_event_or_its_first_fault(rt: HostRuntime) -> Result<(), Fail> {
    assert_each(&rt, rt, ALL_PARSED)
}

/// A line with an offset, and the same cleaned.
#[derive(Clone, Copy)]
struct Cleaned {
    offset: u64,
    line: &'static [u8],
    cleaned: &'static [u8],
}

impl Row for Cleaned {
    fn is_so(&self, _rt: HostRuntime, checks: &mut Checks) -> Result<bool, Memory> {
        Ok(checks.same_bytes("line", clean(self.offset, self.line), self.cleaned))
    }
}

const ALL_CLEANED: &[Cleaned] = &[
    Cleaned {
        offset: 0,
        line: b"",
        cleaned: b"",
    },
    Cleaned {
        offset: 9,
        line: b"a,b",
        cleaned: b"a,b",
    },
    Cleaned {
        offset: 9,
        line: b"a\r",
        cleaned: b"a",
    },
    Cleaned {
        offset: 9,
        line: b"a\r\r",
        cleaned: b"a\r",
    },
    Cleaned {
        offset: 9,
        line: b"\ra",
        cleaned: b"\ra",
    },
    Cleaned {
        offset: 0,
        line: b"\xef\xbb\xbfa\r",
        cleaned: b"a",
    },
    Cleaned {
        offset: 1,
        line: b"\xef\xbb\xbfa\r",
        cleaned: b"\xef\xbb\xbfa",
    },
    Cleaned {
        offset: 0,
        line: b"\xef\xbb\r",
        cleaned: b"\xef\xbb",
    },
];

#[test]
fn a_line_is_cleaned_of_one_cr_and_of_the_first_mark(rt: HostRuntime) -> Result<(), Fail> {
    assert_each(&rt, rt, ALL_CLEANED)
}
