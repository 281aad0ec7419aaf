use crate::common::{Item, assert_goes};
use crate::table::{NO_ROWS, Step, Tried, Written};
use rg_agg::{Answer, StateFault};
use rg_event::Kind;
use rg_state::{Change, Func};
use std::test::Fail;

/// The keys of two cards.
const C1: &[u8] = b"\x03\x02c1";

const C2: &[u8] = b"\x03\x02c2";

/// The number of the rows of the first table below, and the rows.
const THREE_ROWS: &[u8] = b"\
    \0\0\0\0\0\0\0\x03\
    \0\0\0\0\0\0\0\x04\x03\x02c1\x01\0\0\0\0\0\0\0\x02\
    \0\0\0\0\0\0\0\x04\x03\x02c2\x01\0\0\0\0\0\0\0\x01\
    \0\0\0\x02\0\0\0\x04\x03\x02c1\x02\0\0\0\0\0\0\0\x02\
    \0\0\0\0\0\0\0\0\0\0\0\0\0\0\0\xfa";

#[test]
fn a_row_answers_for_its_node_and_key_and_is_gone_when_it_becomes_empty(
    rt: HostRuntime,
) -> Result<(), Fail> {
    assert_goes::<Tried>(
        &rt,
        &[
            // A sum at node 2 of the first key, and two counts at node 0, of one event of the second key and of two of
            // the first.
            Step::Change(Change::Add, 2, C1, Func::Sum, &Item::Int(200)),
            Step::Change(Change::Add, 0, C2, Func::Count, &Item::Flag(true)),
            Step::Change(Change::Add, 2, C1, Func::Sum, &Item::Int(50)),
            Step::Change(Change::Add, 0, C1, Func::Count, &Item::Flag(true)),
            Step::Change(Change::Add, 0, C1, Func::Count, &Item::Flag(true)),
            Step::Answers(2, C1, Func::Sum, Answer::Number(250)),
            Step::Answers(0, C1, Func::Count, Answer::Number(2)),
            Step::Answers(1, C1, Func::Avg, Answer::Dash),
            Step::Writes(Written::Count, b"\0\0\0\0\0\0\0\x03"),
            // Rows are written by node and key.
            Step::Writes(Written::Rows, THREE_ROWS),
            // A row comes and goes with its values.
            Step::Empty,
            Step::Change(Change::Add, 3, C1, Func::First, &Item::Id(7)),
            Step::Answers(3, C1, Func::First, Answer::Number(7)),
            Step::Change(Change::Add, 3, C1, Func::First, &Item::Id(2)),
            Step::Answers(3, C1, Func::First, Answer::Number(7)),
            Step::Refuse(Change::Remove, 3, C1, Func::First, &Item::Id(2)),
            Step::Answers(3, C1, Func::First, Answer::Number(7)),
            Step::Change(Change::Remove, 3, C1, Func::First, &Item::Id(7)),
            Step::Answers(3, C1, Func::First, Answer::Number(2)),
            Step::Change(Change::Remove, 3, C1, Func::First, &Item::Id(2)),
            Step::Answers(3, C1, Func::First, Answer::Dash),
            Step::Refuse(Change::Remove, 3, C1, Func::First, &Item::Id(2)),
            Step::Answers(3, C1, Func::First, Answer::Dash),
            Step::Writes(Written::Count, NO_ROWS),
        ],
    )
}

/// A sum of two ints.
const SUM: &[u8] = b"\x02\0\0\0\0\0\0\0\x02\0\0\0\0\0\0\0\0\0\0\0\0\0\0\0\xfa";

#[test]
fn a_row_refuses_another_function_or_kind_and_follows_a_removal(
    rt: HostRuntime,
) -> Result<(), Fail> {
    assert_goes::<Tried>(
        &rt,
        &[
            // A row of the last value refuses a sum, a value of another kind and an answer of another function.
            Step::Change(Change::Add, 1, b"", Func::Last, &Item::Int(5)),
            Step::Refuse(Change::Add, 1, b"", Func::Sum, &Item::Int(5)),
            Step::Refuse(Change::Add, 1, b"", Func::Last, &Item::Id(5)),
            Step::RefuseAnswer(1, b"", Func::First),
            // Extremes and distinct counts follow a removal.
            Step::Empty,
            Step::Change(Change::Add, 0, b"", Func::Max, &Item::Int(3)),
            Step::Change(Change::Add, 0, b"", Func::Max, &Item::Int(1)),
            Step::Change(Change::Add, 0, b"", Func::Max, &Item::Int(2)),
            Step::Answers(0, b"", Func::Max, Answer::Number(3)),
            Step::Change(Change::Remove, 0, b"", Func::Max, &Item::Int(3)),
            Step::Answers(0, b"", Func::Max, Answer::Number(2)),
            Step::Change(Change::Add, 1, b"", Func::Min, &Item::Int(3)),
            Step::Change(Change::Add, 1, b"", Func::Min, &Item::Int(1)),
            Step::Change(Change::Add, 1, b"", Func::Min, &Item::Int(2)),
            Step::Answers(1, b"", Func::Min, Answer::Number(1)),
            Step::Change(Change::Remove, 1, b"", Func::Min, &Item::Int(3)),
            Step::Answers(1, b"", Func::Min, Answer::Number(1)),
            Step::Change(Change::Add, 2, b"", Func::CountDistinct, &Item::Int(3)),
            Step::Change(Change::Add, 2, b"", Func::CountDistinct, &Item::Int(1)),
            Step::Change(Change::Add, 2, b"", Func::CountDistinct, &Item::Int(2)),
            Step::Answers(2, b"", Func::CountDistinct, Answer::Number(3)),
            Step::Change(Change::Remove, 2, b"", Func::CountDistinct, &Item::Int(3)),
            Step::Answers(2, b"", Func::CountDistinct, Answer::Number(2)),
            // A state that is put in answers and changes.
            Step::Begin(4, C1, SUM),
            Step::Answers(4, C1, Func::Sum, Answer::Number(250)),
            Step::Change(Change::Remove, 4, C1, Func::Sum, &Item::Int(200)),
            Step::Answers(4, C1, Func::Sum, Answer::Number(50)),
        ],
    )
}

/// A state of each function, which is read and copied, and bytes that are no state.
const STATES: &[Step] = &[
    Step::Fits(SUM, Func::Sum, Kind::Int, true),
    Step::Fits(SUM, Func::Avg, Kind::Int, false),
    Step::Fits(SUM, Func::Sum, Kind::Id, false),
    Step::Begin(0, b"", SUM),
    Step::Copies(
        Func::Count,
        b"\x01\0\0\0\0\0\0\0\x02",
        Answer::Number(2),
        Answer::Number(1),
    ),
    Step::Copies(
        Func::Sum,
        b"\x02\0\0\0\0\0\0\0\x02\0\0\0\0\0\0\0\0\0\0\0\0\0\0\0\x0d",
        Answer::Number(13),
        Answer::Number(8),
    ),
    Step::Copies(
        Func::Avg,
        b"\x03\0\0\0\0\0\0\0\x02\0\0\0\0\0\0\0\0\0\0\0\0\0\0\0\x0d",
        Answer::Ratio(13, 2),
        Answer::Ratio(8, 1),
    ),
    Step::Copies(
        Func::SumSq,
        b"\x04\0\0\0\0\0\0\0\x02\0\0\0\0\0\0\0\0\0\0\0\0\0\0\0\x59",
        Answer::Number(89),
        Answer::Number(64),
    ),
    Step::Copies(
        Func::Min,
        b"\x15\0\0\0\0\0\0\0\x02\0\0\0\0\0\0\0\x02\x01\0\0\0\0\0\0\0\x05\0\0\0\0\0\0\0\x01\x01\0\0\0\0\0\0\0\x08\0\0\0\0\0\0\0\x01",
        Answer::Number(5),
        Answer::Number(8),
    ),
    Step::Copies(
        Func::Max,
        b"\x16\0\0\0\0\0\0\0\x02\0\0\0\0\0\0\0\x02\x01\0\0\0\0\0\0\0\x05\0\0\0\0\0\0\0\x01\x01\0\0\0\0\0\0\0\x03\0\0\0\0\0\0\0\x01",
        Answer::Number(5),
        Answer::Number(3),
    ),
    Step::Copies(
        Func::CountDistinct,
        b"\x07\0\0\0\0\0\0\0\x02\x01\0\0\0\0\0\0\0\x05\0\0\0\0\0\0\0\x01\x01\0\0\0\0\0\0\0\x08\0\0\0\0\0\0\0\x02",
        Answer::Number(2),
        Answer::Number(1),
    ),
    // A state of a rank answers the median and each percentile.
    Step::Copies(
        Func::Median,
        b"\x17\0\0\0\0\0\0\0\x02\x01\0\0\0\0\0\0\0\x05\0\0\0\0\0\0\0\x01\x01\0\0\0\0\0\0\0\x08\0\0\0\0\0\0\0\x01",
        Answer::Number(5),
        Answer::Number(8),
    ),
    Step::Copies(
        Func::Pct(90),
        b"\x17\0\0\0\0\0\0\0\x02\x01\0\0\0\0\0\0\0\x05\0\0\0\0\0\0\0\x01\x01\0\0\0\0\0\0\0\x08\0\0\0\0\0\0\0\x01",
        Answer::Number(8),
        Answer::Number(8),
    ),
    Step::Copies(
        Func::First,
        b"\x08\0\0\0\0\0\0\0\x02\x01\0\0\0\0\0\0\0\x05\x01\0\0\0\0\0\0\0\x08",
        Answer::Number(5),
        Answer::Number(8),
    ),
    Step::Copies(
        Func::Last,
        b"\x09\0\0\0\0\0\0\0\x01\x01\0\0\0\0\0\0\0\x05",
        Answer::Number(5),
        Answer::Dash,
    ),
    // What is no state is refused; the first one has tags of an earlier version.
    Step::Fails(StateFault::Short, b""),
    Step::Fails(
        StateFault::Unfit,
        b"\x05\0\0\0\0\0\0\0\x01\x01\0\0\0\0\0\0\0\x05\0\0\0\0\0\0\0\x01",
    ),
    Step::Fails(StateFault::Unfit, b"\x06"),
    Step::Fails(StateFault::Unfit, b"\x0a\0\0\0\0\0\0\0\x01"),
    Step::Fails(StateFault::Unfit, b"\x01\0\0\0\0\0\0\0\0"),
    Step::Fails(StateFault::Short, b"\x03\0\0\0\0\0\0\0\x01\0"),
];

#[test]
fn a_state_is_written_as_read_and_a_copy_stays_where_its_source_changes(
    rt: HostRuntime,
) -> Result<(), Fail> {
    assert_goes::<Tried>(&rt, STATES)
}

/// What a table writes as changed: that the row of the first card at node 0 is gone, and that it counts one event.
const GONE: &[u8] = b"\0\0\0\0\0\0\0\x01\0\0\0\0\0\0\0\x04\x03\x02c1\0";

const ONE: &[u8] = b"\0\0\0\0\0\0\0\x01\0\0\0\0\0\0\0\x04\x03\x02c1\x01\x01\0\0\0\0\0\0\0\x01";

/// What a table writes where three rows of eighty changed: the card `c07` is gone, and `c33` and `c50` count
/// two events.
const CHANGED: &[u8] = b"\0\0\0\0\0\0\0\x03\
    \0\0\0\0\0\0\0\x05\x03\x03c07\0\
    \0\0\0\0\0\0\0\x05\x03\x03c33\x01\x01\0\0\0\0\0\0\0\x02\
    \0\0\0\0\0\0\0\x05\x03\x03c50\x01\x01\0\0\0\0\0\0\0\x02";

/// Changes before and after a mark, and what is written of them.
const CHANGES_AND_MARKS: &[Step] = &[
    // A row that was there is written as it is or as gone.
    Step::Change(Change::Add, 0, C1, Func::Count, &Item::Flag(true)),
    Step::Writes(Written::Changes, ONE),
    Step::Mark,
    Step::Writes(Written::Changes, NO_ROWS),
    Step::Change(Change::Remove, 0, C1, Func::Count, &Item::Flag(true)),
    Step::Writes(Written::Changes, GONE),
    Step::Change(Change::Add, 0, C1, Func::Count, &Item::Flag(true)),
    Step::Writes(Written::Changes, ONE),
    // A row that came and went since the mark is not written.
    Step::Empty,
    Step::Change(Change::Add, 0, C1, Func::Count, &Item::Flag(true)),
    Step::Change(Change::Remove, 0, C1, Func::Count, &Item::Flag(true)),
    Step::Writes(Written::Changes, NO_ROWS),
    Step::Change(Change::Add, 0, C1, Func::Count, &Item::Flag(true)),
    Step::Writes(Written::Changes, ONE),
    Step::Mark,
    Step::Change(Change::Remove, 0, C1, Func::Count, &Item::Flag(true)),
    Step::Writes(Written::Changes, GONE),
    Step::Mark,
    Step::Writes(Written::Changes, NO_ROWS),
    // Few rows that changed among many are written by their keys.
    Step::Empty,
    Step::Cards(80),
    Step::Mark,
    Step::Change(
        Change::Add,
        0,
        b"\x03\x03c50",
        Func::Count,
        &Item::Flag(true),
    ),
    Step::Change(
        Change::Remove,
        0,
        b"\x03\x03c07",
        Func::Count,
        &Item::Flag(true),
    ),
    Step::Change(
        Change::Add,
        0,
        b"\x03\x03c33",
        Func::Count,
        &Item::Flag(true),
    ),
    Step::Writes(Written::Changes, CHANGED),
    Step::Mark,
    Step::Writes(Written::Changes, NO_ROWS),
];

#[test]
fn what_changed_since_the_mark_is_written_as_it_is_or_as_gone(rt: HostRuntime) -> Result<(), Fail> {
    assert_goes::<Tried>(&rt, CHANGES_AND_MARKS)
}
