use crate::agg::Step;
use crate::common::{Item, assert_goes};
use rg_agg::{Answer, StateFault};
use rg_event::Kind;
use rg_state::{AggState, Func};
use std::test::Fail;

/// What is added to and removed from counts, sums, means, sums of squares, and first and last values, and what they say.
const SUMS_AND_SINGLE_VALUES: &[Step<'static>] = &[
    // A count is nine bytes and a sum 25, a mean is unreduced, and the square of the least int is 10^24.
    Step::New(Func::Count),
    Step::Add(&Item::Flag(true)),
    Step::Add(&Item::Flag(true)),
    Step::Writes(b"\x01\0\0\0\0\0\0\0\x02"),
    Step::Is(None),
    Step::Answers(Answer::Number(2)),
    Step::New(Func::Sum),
    Step::Add(&Item::Int(200)),
    Step::Add(&Item::Int(50)),
    Step::Writes(b"\x02\0\0\0\0\0\0\0\x02\0\0\0\0\0\0\0\0\0\0\0\0\0\0\0\xfa"),
    Step::Answers(Answer::Number(250)),
    Step::New(Func::Avg),
    Step::Answers(Answer::Dash),
    Step::Add(&Item::Int(200)),
    Step::Add(&Item::Int(50)),
    Step::Answers(Answer::Ratio(250, 2)),
    Step::Remove(&Item::Int(200)),
    Step::Answers(Answer::Ratio(50, 1)),
    Step::New(Func::SumSq),
    Step::Add(&Item::Int(-1_000_000_000_000)),
    Step::Answers(Answer::Number(1_000_000_000_000_000_000_000_000)),
    Step::Remove(&Item::Int(-1_000_000_000_000)),
    Step::Answers(Answer::Number(0)),
    // The last value stays and the first one gives way.
    Step::New(Func::Last),
    Step::Add(&Item::Id(7)),
    Step::Add(&Item::Id(18_446_744_073_709_551_615)),
    Step::Remove(&Item::Id(7)),
    Step::Answers(Answer::Number(18_446_744_073_709_551_615)),
    Step::Is(Some(Kind::Id)),
    Step::Remove(&Item::Id(18_446_744_073_709_551_615)),
    Step::Answers(Answer::Dash),
    Step::Refuse(&Item::Id(7)),
    Step::New(Func::First),
    Step::Answers(Answer::Dash),
    Step::Add(&Item::Id(7)),
    Step::Add(&Item::Id(2)),
    Step::Answers(Answer::Number(7)),
    Step::Is(Some(Kind::Id)),
    Step::Refuse(&Item::Id(2)),
    Step::Remove(&Item::Id(7)),
    Step::Answers(Answer::Number(2)),
    // A first value is written with those behind it.
    Step::Writes(b"\x08\0\0\0\0\0\0\0\x01\x02\0\0\0\0\0\0\0\x02"),
];

#[test]
fn sums_and_single_values_are_of_what_is_there(rt: HostRuntime) -> Result<(), Fail> {
    assert_goes::<AggState>(&rt, SUMS_AND_SINGLE_VALUES)
}

#[test]
fn a_text_is_written_once_and_forgotten_at_its_last_removal(rt: HostRuntime) -> Result<(), Fail> {
    assert_goes::<AggState>(
        &rt,
        &[
            Step::New(Func::CountDistinct),
            Step::IsEmpty,
            Step::Answers(Answer::Number(0)),
            Step::Add(&Item::Text(b"m1")),
            Step::Add(&Item::Text(b"m2")),
            Step::Add(&Item::Text(b"m1")),
            Step::Writes(
                b"\x07\0\0\0\0\0\0\0\x02\x03\x02m1\0\0\0\0\0\0\0\x02\x03\x02m2\0\0\0\0\0\0\0\x01",
            ),
            Step::Remove(&Item::Text(b"m1")),
            Step::Writes(
                b"\x07\0\0\0\0\0\0\0\x02\x03\x02m1\0\0\0\0\0\0\0\x01\x03\x02m2\0\0\0\0\0\0\0\x01",
            ),
            Step::Answers(Answer::Number(2)),
            Step::Counts(2),
            Step::Is(Some(Kind::Text)),
            Step::Remove(&Item::Text(b"m1")),
            Step::Answers(Answer::Number(1)),
            Step::Refuse(&Item::Text(b"m1")),
            // Ints stand by their bytes.
            Step::New(Func::CountDistinct),
            Step::Add(&Item::Int(-1)),
            Step::Add(&Item::Int(1)),
            Step::Writes(
                b"\x07\0\0\0\0\0\0\0\x02\x01\0\0\0\0\0\0\0\x01\0\0\0\0\0\0\0\x01\x01\xff\xff\xff\xff\xff\xff\xff\xff\0\0\0\0\0\0\0\x01",
            ),
        ],
    )
}

/// What is added to and removed from two leasts, and what they say.
const LEASTS: &[Step<'static>] = &[
    Step::New(Func::Min),
    Step::Answers(Answer::Dash),
    Step::Add(&Item::Int(3)),
    Step::Add(&Item::Int(1)),
    Step::Add(&Item::Int(2)),
    Step::Add(&Item::Int(2)),
    // It is written as its pairs.
    Step::Writes(
        b"\x15\0\0\0\0\0\0\0\x04\0\0\0\0\0\0\0\x02\x01\0\0\0\0\0\0\0\x01\0\0\0\0\0\0\0\x01\x01\0\0\0\0\0\0\0\x02\0\0\0\0\0\0\0\x02",
    ),
    Step::Refuse(&Item::Int(0)),
    Step::Answers(Answer::Number(1)),
    Step::Counts(4),
    Step::Keeps(2),
    Step::Remove(&Item::Int(3)),
    Step::Answers(Answer::Number(1)),
    Step::Counts(3),
    Step::Keeps(2),
    Step::Remove(&Item::Int(1)),
    Step::Answers(Answer::Number(2)),
    Step::Counts(2),
    Step::Keeps(1),
    Step::Remove(&Item::Int(2)),
    Step::Answers(Answer::Number(2)),
    Step::Counts(1),
    Step::Keeps(1),
    Step::Remove(&Item::Int(2)),
    Step::Answers(Answer::Dash),
    Step::Counts(0),
    Step::Keeps(0),
    Step::Refuse(&Item::Int(2)),
    Step::Answers(Answer::Dash),
    Step::Counts(0),
    Step::Keeps(0),
    Step::IsEmpty,
    Step::New(Func::Min),
    Step::Add(&Item::Int(5)),
    Step::Add(&Item::Int(-1)),
    Step::Add(&Item::Int(-1)),
    Step::Answers(Answer::Number(-1)),
    Step::Keeps(1),
    Step::Is(Some(Kind::Int)),
    Step::Writes(
        b"\x15\0\0\0\0\0\0\0\x03\0\0\0\0\0\0\0\x01\x01\xff\xff\xff\xff\xff\xff\xff\xff\0\0\0\0\0\0\0\x02",
    ),
];

/// The least goes with its values, and ints beat each other by their signs.
#[test]
fn the_least_goes_with_its_values(rt: HostRuntime) -> Result<(), Fail> {
    assert_goes::<AggState>(&rt, LEASTS)
}

/// The pairs of the ints 3, 1, 2 and 2 where the greatest is asked.
const GREATEST: &[u8] =
    b"\x16\0\0\0\0\0\0\0\x04\0\0\0\0\0\0\0\x02\x01\0\0\0\0\0\0\0\x03\0\0\0\0\0\0\0\x01\x01\0\0\0\0\0\0\0\x02\0\0\0\0\0\0\0\x02";

/// The greatest goes with its values, is read back, and ids beat each other by their sizes.
#[test]
fn the_greatest_goes_with_its_values(rt: HostRuntime) -> Result<(), Fail> {
    assert_goes::<AggState>(
        &rt,
        &[
            Step::New(Func::Max),
            Step::Answers(Answer::Dash),
            Step::Add(&Item::Int(3)),
            Step::Add(&Item::Int(1)),
            Step::Add(&Item::Int(2)),
            Step::Add(&Item::Int(2)),
            // It is written as its pairs.
            Step::Writes(GREATEST),
            Step::Answers(Answer::Number(3)),
            Step::Keeps(2),
            Step::Remove(&Item::Int(3)),
            Step::Answers(Answer::Number(2)),
            Step::Keeps(1),
            Step::Refuse(&Item::Id(2)),
            Step::Counts(3),
            // It is read back.
            Step::Reads(b"", GREATEST),
            Step::Remove(&Item::Int(3)),
            Step::Answers(Answer::Number(2)),
            Step::Counts(3),
            Step::New(Func::Max),
            Step::Add(&Item::Id(9)),
            Step::Add(&Item::Id(10)),
            Step::Add(&Item::Id(u64::MAX)),
            Step::Answers(Answer::Number(18_446_744_073_709_551_615)),
            Step::Keeps(1),
            Step::Is(Some(Kind::Id)),
            // Mixed changes leave what a plain list has.
            Step::New(Func::Min),
            Step::Mixed(false),
            Step::New(Func::Max),
            Step::Mixed(true),
        ],
    )
}

/// Leasts that are read, and what can be removed from them and what can't.
const REMOVALS: &[Step<'static>] = &[
    Step::New(Func::Min),
    // All three values are in the pairs, so only the first one can go.
    Step::Reads(
        b"\x15",
        b"\0\0\0\0\0\0\0\x03\0\0\0\0\0\0\0\x02\x02\0\0\0\0\0\0\0\x05\0\0\0\0\0\0\0\x01\x02\0\0\0\0\0\0\0\x07\0\0\0\0\0\0\0\x02",
    ),
    Step::Remove(&Item::Id(5)),
    Step::Refuse(&Item::Int(6)),
    Step::Reads(
        b"\x15",
        b"\0\0\0\0\0\0\0\x03\0\0\0\0\0\0\0\x02\x02\0\0\0\0\0\0\0\x05\0\0\0\0\0\0\0\x01\x02\0\0\0\0\0\0\0\x07\0\0\0\0\0\0\0\x02",
    ),
    Step::Refuse(&Item::Id(7)),
    Step::Refuse(&Item::Int(6)),
    // One more is beaten: it may be the first one, and so may the least where another one is left that beats it.
    Step::Reads(
        b"\x15",
        b"\0\0\0\0\0\0\0\x04\0\0\0\0\0\0\0\x02\x02\0\0\0\0\0\0\0\x05\0\0\0\0\0\0\0\x01\x02\0\0\0\0\0\0\0\x07\0\0\0\0\0\0\0\x02",
    ),
    Step::Remove(&Item::Id(6)),
    Step::Refuse(&Item::Int(6)),
    Step::Reads(
        b"\x15",
        b"\0\0\0\0\0\0\0\x04\0\0\0\0\0\0\0\x02\x02\0\0\0\0\0\0\0\x05\0\0\0\0\0\0\0\x01\x02\0\0\0\0\0\0\0\x07\0\0\0\0\0\0\0\x02",
    ),
    Step::Remove(&Item::Id(5)),
    Step::Refuse(&Item::Int(6)),
    Step::Reads(
        b"\x15",
        b"\0\0\0\0\0\0\0\x04\0\0\0\0\0\0\0\x02\x02\0\0\0\0\0\0\0\x05\0\0\0\0\0\0\0\x01\x02\0\0\0\0\0\0\0\x07\0\0\0\0\0\0\0\x02",
    ),
    Step::Refuse(&Item::Id(4)),
    Step::Refuse(&Item::Int(6)),
    // The last value of the list is never beaten.
    Step::Reads(
        b"\x15",
        b"\0\0\0\0\0\0\0\x02\0\0\0\0\0\0\0\x01\x02\0\0\0\0\0\0\0\x05\0\0\0\0\0\0\0\x01",
    ),
    Step::Refuse(&Item::Id(5)),
    Step::Refuse(&Item::Int(6)),
    // The greatest id beats none.
    Step::Reads(
        b"\x15",
        b"\0\0\0\0\0\0\0\x03\0\0\0\0\0\0\0\x01\x02\xff\xff\xff\xff\xff\xff\xff\xff\0\0\0\0\0\0\0\x02",
    ),
    Step::Refuse(&Item::Id(u64::MAX)),
    Step::Refuse(&Item::Int(6)),
    Step::Reads(
        b"\x15",
        b"\0\0\0\0\0\0\0\x02\0\0\0\0\0\0\0\x01\x02\xff\xff\xff\xff\xff\xff\xff\xff\0\0\0\0\0\0\0\x02",
    ),
    Step::Remove(&Item::Id(u64::MAX)),
    Step::Refuse(&Item::Int(6)),
];

#[test]
fn values_of_no_list_of_the_state_stay(rt: HostRuntime) -> Result<(), Fail> {
    assert_goes::<AggState>(&rt, REMOVALS)
}

/// What stands in front of a state that is read: the first one of two values, an int.
const FIRST_OF_TWO: &[u8] = b"\x08\0\0\0\0\0\0\0\x02\x01\0\0\0\0\0\0\0\x05";

/// The first one of two pairs, a flag that is there five times.
const FLAG: &[u8] = b"\x07\0\0\0\0\0\0\0\x02\x04\x01\0\0\0\0\0\0\0\x05";

/// The first one of two pairs, an id, of four values.
const NINE: &[u8] =
    b"\x15\0\0\0\0\0\0\0\x04\0\0\0\0\0\0\0\x02\x02\0\0\0\0\0\0\0\x09\0\0\0\0\0\0\0\x01";

/// Bytes that are a state of a function, and bytes that are none.
const STATES_AND_OTHER_BYTES: &[Step<'static>] = &[
    Step::New(Func::First),
    Step::Reads(FIRST_OF_TWO, b"\x01\xff\xff\xff\xff\xff\xff\xff\xff"),
    Step::Counts(2),
    Step::Fails(StateFault::Unfit, FIRST_OF_TWO, b"\x02\0\0\0\0\0\0\0\x05"),
    Step::Fails(StateFault::Unfit, FIRST_OF_TWO, b"\x04\x01"),
    Step::Fails(StateFault::Short, FIRST_OF_TWO, b"\x01\0"),
    Step::New(Func::Count),
    Step::Reads(b"", b"\x01\0\0\x01\0\0\0\0\0x"),
    Step::Counts(1_099_511_627_776),
    Step::Fails(StateFault::Unfit, b"", b"\x01\0\0\x01\0\0\0\0\x01"),
    Step::Fails(StateFault::Unfit, b"", b"\x01\0\0\0\0\0\0\0\0"),
    Step::Fails(StateFault::Unfit, b"", b"\x02\0\0\0\0\0\0\0\x01"),
    Step::Fails(StateFault::Unfit, b"", b"\x02"),
    Step::Fails(StateFault::Short, b"", b"\x01\0\0\0\0\0\0\0"),
    Step::Fails(StateFault::Short, b"", b""),
    Step::New(Func::Sum),
    Step::Reads(
        b"",
        b"\x02\0\0\0\0\0\0\0\x01\xff\xff\xff\xff\xff\xff\xff\xff\xff\xff\xff\x17\x2b\x5a\xf0\0",
    ),
    Step::Answers(Answer::Number(-1_000_000_000_000)),
    Step::Fails(
        StateFault::Unfit,
        b"",
        b"\x02\0\0\0\0\0\0\0\x01\0\0\0\0\0\0\0\0\0\0\0\xe8\xd4\xa5\x10\x01",
    ),
    Step::Fails(
        StateFault::Short,
        b"",
        b"\x02\0\0\0\0\0\0\0\x01\0\0\0\0\0\0\0\0\0\0\0\xe8\xd4\xa5\x10",
    ),
    Step::Fails(
        StateFault::Unfit,
        b"",
        b"\x03\0\0\0\0\0\0\0\x01\0\0\0\0\0\0\0\0\0\0\0\0\0\0\0\0",
    ),
    // No distinct count is that.
    Step::New(Func::CountDistinct),
    Step::Fails(StateFault::Unfit, FLAG, b"\x04\x00\0\0\0\0\0\0\0\x01"),
    Step::Fails(StateFault::Unfit, FLAG, b"\x03\x00\0\0\0\0\0\0\0\x01"),
    Step::Fails(StateFault::Unfit, FLAG, b"\x04\x01"),
    Step::Fails(StateFault::Short, FLAG, b"\x04"),
    Step::New(Func::CountDistinct),
    Step::Reads(b"", b"\x07\0\0\0\0\0\0\0\x01\x04\x01\0\0\0\0\0\0\0\x05x"),
    Step::Counts(5),
    Step::Fails(
        StateFault::Unfit,
        b"",
        b"\x07\0\0\0\0\0\0\0\x01\x04\x01\0\0\0\0\0\0\0\0",
    ),
    Step::Fails(StateFault::Unfit, b"", b"\x05\0\0\0\0\0\0\0\x01"),
    // No extreme is that.
    Step::New(Func::Min),
    Step::Reads(NINE, b"\x02\0\0\0\0\0\0\0\x0a\0\0\0\0\0\0\0\x02"),
    Step::Counts(4),
    Step::Reads(NINE, b"\x02\0\0\0\0\0\0\0\x0a\0\0\0\0\0\0\0\x03"),
    Step::Counts(4),
    Step::Fails(
        StateFault::Unfit,
        NINE,
        b"\x02\0\0\0\0\0\0\0\x0a\0\0\0\0\0\0\0\x04",
    ),
    Step::Fails(
        StateFault::Unfit,
        NINE,
        b"\x02\0\0\0\0\0\0\0\x0a\0\0\0\0\0\0\0\0",
    ),
    Step::Fails(StateFault::Unfit, NINE, b"\x02\0\0\0\0\0\0\0\x09"),
    Step::Fails(StateFault::Unfit, NINE, b"\x02\0\0\0\0\0\0\0\x08"),
    Step::Fails(StateFault::Unfit, NINE, b"\x01\0\0\0\0\0\0\0\x0a"),
    Step::Fails(StateFault::Unfit, NINE, b"\x03\x01a"),
    Step::Fails(
        StateFault::Short,
        NINE,
        b"\x02\0\0\0\0\0\0\0\x0a\0\0\0\0\0\0\0",
    ),
    Step::Fails(StateFault::Short, NINE, b""),
    Step::New(Func::Min),
    Step::Fails(
        StateFault::Unfit,
        b"",
        b"\x05\0\0\0\0\0\0\0\x01\x01\0\0\0\0\0\0\0\x01\0\0\0\0\0\0\0\x01",
    ),
    Step::Fails(StateFault::Unfit, b"", b"\x16\0\0\0\0\0\0\0\x01"),
    Step::Fails(StateFault::Unfit, b"", b"\x15\0\0\0\0\0\0\0\0"),
    Step::Fails(StateFault::Unfit, b"", b"\x15\0\0\x01\0\0\0\0\x01"),
    Step::Fails(
        StateFault::Unfit,
        b"",
        b"\x15\0\0\0\0\0\0\0\x01\0\0\0\0\0\0\0\0",
    ),
    Step::Fails(
        StateFault::Short,
        b"",
        b"\x15\0\0\0\0\0\0\0\x01\0\0\0\0\0\0\0",
    ),
    Step::Fails(
        StateFault::Short,
        b"",
        b"\x15\0\0\0\0\0\0\0\x01\0\0\0\0\0\0\0\x02",
    ),
];

#[test]
fn what_is_no_state_is_refused(rt: HostRuntime) -> Result<(), Fail> {
    assert_goes::<AggState>(&rt, STATES_AND_OTHER_BYTES)
}
