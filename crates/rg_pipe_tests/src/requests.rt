use crate::rows::assert_each;
use crate::stream::{Answer, Part, Stream};
use std::alloc::Global;
use std::test::Fail;

/// A line of offset 0 and the text `0,c1,m1,100`.
const FIRST: Part = Part(1, b"\0\0\0\x14\x01\0\0\0\0\0\0\0\00,c1,m1,100");

/// A line of offset 2 and that text.
const THIRD: Part = Part(1, b"\0\0\0\x14\x01\0\0\0\0\0\0\0\x020,c1,m1,100");

const COMMIT: Part = Part(1, b"\0\0\0\x01\x02");

const SAVE: Part = Part(1, b"\0\0\0\x01\x03");

/// Streams of whole requests.
const WHOLE: &[Stream] = &[
    Stream {
        next: 7,
        bytes: &[],
        answers: &[Answer::End(7)],
    },
    // A line, it again, one behind a gap, a commit and a save.
    Stream {
        next: 0,
        bytes: &[FIRST, FIRST, THIRD, COMMIT, SAVE],
        answers: &[
            Answer::Line(0, b"0,c1,m1,100"),
            Answer::Again(0),
            Answer::Gap(2, 1),
            Answer::Commit,
            Answer::Save,
            Answer::End(1),
        ],
    },
    // A line of no byte, and one whose length and offset have the byte of an LF.
    Stream {
        next: 9,
        bytes: &[
            Part(1, b"\0\0\0\x09\x01\0\0\0\0\0\0\0\x09"),
            Part(1, b"\0\0\0\x0a\x01\0\0\0\0\0\0\0\x0aa"),
        ],
        answers: &[
            Answer::Line(9, b""),
            Answer::Line(10, b"a"),
            Answer::End(11),
        ],
    },
    // The greatest offset: expected, and behind a gap.
    Stream {
        next: (1 << 62) - 1,
        bytes: &[
            Part(2, b"\0\0\0\x0a\x01\x3f\xff\xff\xff\xff\xff\xff\xffa"),
            COMMIT,
        ],
        answers: &[
            Answer::Line((1 << 62) - 1, b"a"),
            Answer::Again((1 << 62) - 1),
            Answer::Commit,
            Answer::End(1 << 62),
        ],
    },
    Stream {
        next: 0,
        bytes: &[Part(1, b"\0\0\0\x0a\x01\x3f\xff\xff\xff\xff\xff\xff\xffa")],
        answers: &[Answer::Gap((1 << 62) - 1, 0), Answer::End(0)],
    },
    // The longest line, of 65,535 bytes, and a request behind it.
    Stream {
        next: 0,
        bytes: &[
            Part(1, b"\0\x01\0\x08\x01\0\0\0\0\0\0\0\0"),
            Part(65_535, b"b"),
            SAVE,
        ],
        answers: &[Answer::Long(0, 65_535, b'b'), Answer::Save, Answer::End(1)],
    },
];

#[test]
fn requests_come_in_order_however_the_stream_is_cut(rt: HostRuntime) -> Result<(), Fail> {
    assert_each(&rt, WHOLE)
}

/// Lengths that no request has, kinds that there are none of, offsets that are too great, and an LF in a line.
const ILLEGAL: &[Stream] = &[
    Stream {
        next: 0,
        bytes: &[Part(1, b"\0\0\0\0")],
        answers: &[Answer::Frame(0)],
    },
    Stream {
        next: 0,
        bytes: &[COMMIT, FIRST, Part(1, b"\0\x01\0\x0a\x01")],
        answers: &[
            Answer::Commit,
            Answer::Line(0, b"0,c1,m1,100"),
            Answer::Frame(29),
        ],
    },
    Stream {
        next: 0,
        bytes: &[SAVE, Part(9, b"\xff")],
        answers: &[Answer::Save, Answer::Frame(5)],
    },
    Stream {
        next: 0,
        bytes: &[Part(5_000, b"\x02")],
        answers: &[Answer::Frame(0)],
    },
    Stream {
        next: 0,
        bytes: &[Part(1, b"\0\0\0\x01\0")],
        answers: &[Answer::Frame(0)],
    },
    Stream {
        next: 0,
        bytes: &[Part(1, b"\0\0\0\x01\x04")],
        answers: &[Answer::Frame(0)],
    },
    Stream {
        next: 0,
        bytes: &[Part(1, b"\0\0\0\x0a\xff\0\0\0\0\0\0\0\0a")],
        answers: &[Answer::Frame(0)],
    },
    Stream {
        next: 0,
        bytes: &[Part(1, b"\0\0\0\x0a\x01\x40\0\0\0\0\0\0\0a")],
        answers: &[Answer::Frame(0)],
    },
    Stream {
        next: 0,
        bytes: &[FIRST, Part(1, b"\0\0\0\x0c\x01\0\0\0\0\0\0\0\x01a\nb")],
        answers: &[Answer::Line(0, b"0,c1,m1,100"), Answer::Frame(24)],
    },
    Stream {
        next: 0,
        bytes: &[
            Part(1, b"\0\x01\0\x08\x01\0\0\0\0\0\0\0\0"),
            Part(65_534, b"b"),
            Part(1, b"\n"),
        ],
        answers: &[Answer::Frame(0)],
    },
];

#[test]
fn a_stream_that_begins_no_request_is_refused_at_its_first_byte(
    rt: HostRuntime,
) -> Result<(), Fail> {
    assert_each(&rt, ILLEGAL)
}

/// Streams that end within a request.
const CUT: &[Stream] = &[
    Stream {
        next: 0,
        bytes: &[Part(1, b"\0\0\0\x14\x01")],
        answers: &[Answer::Frame(0)],
    },
    Stream {
        next: 0,
        bytes: &[COMMIT, Part(1, b"\0")],
        answers: &[Answer::Commit, Answer::Frame(5)],
    },
    Stream {
        next: 0,
        bytes: &[
            FIRST,
            Part(1, b"\0\0\0\x14\x01\0\0\0\0\0\0\0\x010,c1,m1,10"),
        ],
        answers: &[Answer::Line(0, b"0,c1,m1,100"), Answer::Frame(24)],
    },
];

#[test]
fn a_stream_that_ends_within_a_request_is_refused_at_its_first_byte(
    rt: HostRuntime,
) -> Result<(), Fail> {
    assert_each(&rt, CUT)
}
