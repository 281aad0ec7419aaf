ghost use Rattle.std.specs.Prelude.{◌≡◌, ◌<◌};

use crate::common::{Checks, Subject, assert_goes};
use rg_agg::{Aggregate, StateFault, Unfit, is_like};
use rg_bytes::ByteReader;
use rg_event::{Steps, Value};
use rg_metric::{Answer, Func, is_admitted};
use rg_rank::Rank;
use std::alloc::Global;
use std::marker::Brand;
use std::sync::ledger::{Blank, Ledger};
use std::test::Fail;

/// What is done to a rank, or what it says.
#[derive(Clone, Copy)]
pub(crate) enum Step {
    Add(i64),
    Remove(i64),
    /// A removal that is refused.
    Refuse(i64),
    Answers(Answer),
    /// The number at so many hundredths.
    Percent(u32, Answer),
    /// How many values it stands for, and how many pairs it keeps.
    Counts(u64, u64),
    Writes(&'static [u8]),
    /// A state is read of these bytes, which takes the place of the one before.
    Reads(&'static [u8]),
    Fails(StateFault, &'static [u8]),
}

fn adds(state: &mut Rank, value: &Value) -> bool {
    is_admitted(Func::Median, value)
        && state.size() < 1_000_000
        && is_like(state.kind(), value)
        && state.add(value).is_ok()
}

/// Whether it is this number at so many hundredths, also where steps are counted.
fn is_at<L: Ledger>(
    state: &Rank,
    percent: u32,
    answer: Answer,
    blank: Blank,
    checks: &mut Checks,
) -> bool
    requires named { blank.name ≡ L.name }
    requires parts { blank.parts ≡ L.parts }
    requires whole { 0 < blank.parts }
{
    if !checks.same("percentile", state.percentile(percent), answer) {
        return false;
    }
    if percent == 0 || 100 < percent {
        return true;
    }
    let counted = state.at(percent, &mut Steps::<L>::new(blank));
    checks.same("percentile with steps", counted, answer)
}

fn is_written(alloc: Global, state: &Rank, want: &[u8], checks: &mut Checks) -> bool {
    if state.is_empty() {
        return checks.fails("state", "of no values", want);
    }
    let mut out = Vec::new(alloc);
    let is_so = state.encode(&mut out).is_ok() && checks.same_bytes("written", &out, want);
    drop(out);
    is_so
}

/// Whether reading a state of these bytes ends so. One that is read takes the place of the one before.
fn reads(
    alloc: Global,
    bytes: &[u8],
    state: &mut Rank,
    want: Option<StateFault>,
    checks: &mut Checks,
) -> bool {
    match Rank::decode(alloc, &mut ByteReader::new(bytes)) {
        Ok(read) => {
            *state = read;
            checks.same("fault", None, want)
        }
        Err(fault) => checks.same("fault", Some(fault), want),
    }
}

impl Subject for Rank {
    type Step = Step;

    fn start(alloc: Global) -> Option<Rank> {
        Some(Rank::empty(alloc))
    }

    fn goes(&mut self, alloc: Global, step: &Step, checks: &mut Checks) -> bool {
        match *step {
            Step::Add(number) => adds(self, &Value::Int(number)),
            Step::Remove(number) => {
                checks.same("removal", self.remove(&Value::Int(number)), Ok(()))
            }
            Step::Refuse(number) => {
                checks.same("removal", self.remove(&Value::Int(number)), Err(Unfit))
            }
            Step::Answers(answer) => checks.same("answer", self.answer(), answer),
            Step::Percent(part, answer) => {
                is_at::<Brand>(self, part, answer, Blank::new(1), checks)
            }
            Step::Counts(size, pairs) => {
                checks.same("size and pairs", (self.size(), self.pairs()), (size, pairs))
            }
            Step::Writes(bytes) => is_written(alloc, self, bytes, checks),
            Step::Reads(bytes) => reads(alloc, bytes, self, None, checks),
            Step::Fails(want, bytes) => reads(alloc, bytes, self, Some(want), checks),
        }
    }
}

const WORKED_ROWS: &[Step] = &[
    Step::Answers(Answer::Dash),
    Step::Percent(90, Answer::Dash),
    Step::Refuse(5),
    Step::Add(5),
    Step::Answers(Answer::Number(5)),
    Step::Percent(90, Answer::Number(5)),
    Step::Add(1),
    Step::Answers(Answer::Number(1)),
    Step::Percent(90, Answer::Number(5)),
    Step::Add(9),
    Step::Answers(Answer::Number(5)),
    Step::Percent(90, Answer::Number(9)),
    Step::Add(1),
    Step::Answers(Answer::Number(1)),
    Step::Percent(90, Answer::Number(9)),
    Step::Counts(4, 3),
    Step::Writes(
        b"\x17\0\0\0\0\0\0\0\x03\x01\0\0\0\0\0\0\0\x01\0\0\0\0\0\0\0\x02\x01\0\0\0\0\0\0\0\x05\0\0\0\0\0\0\0\x01\x01\0\0\0\0\0\0\0\x09\0\0\0\0\0\0\0\x01",
    ),
    Step::Remove(1),
    Step::Counts(3, 3),
    Step::Remove(1),
    Step::Refuse(1),
    Step::Counts(2, 2),
    Step::Answers(Answer::Number(5)),
    Step::Percent(100, Answer::Number(9)),
    Step::Percent(1, Answer::Number(5)),
    Step::Percent(0, Answer::Dash),
    Step::Percent(101, Answer::Dash),
    // Two ints that rise, one of them twice.
    Step::Reads(
        b"\x17\0\0\0\0\0\0\0\x02\x01\0\0\0\0\0\0\0\x01\0\0\0\0\0\0\0\x02\x01\0\0\0\0\0\0\0\x05\0\0\0\0\0\0\0\x01",
    ),
    Step::Counts(3, 2),
    Step::Answers(Answer::Number(1)),
    // No pair, a count of none, ints that are the same, ints that fall, kinds that differ, a text, counts above 2^40
    // in sum, another tag, and bytes that end.
    Step::Fails(StateFault::Unfit, b"\x17\0\0\0\0\0\0\0\0"),
    Step::Fails(
        StateFault::Unfit,
        b"\x17\0\0\0\0\0\0\0\x01\x01\0\0\0\0\0\0\0\x01\0\0\0\0\0\0\0\0",
    ),
    Step::Fails(
        StateFault::Unfit,
        b"\x17\0\0\0\0\0\0\0\x02\x01\0\0\0\0\0\0\0\x05\0\0\0\0\0\0\0\x02\x01\0\0\0\0\0\0\0\x05\0\0\0\0\0\0\0\x01",
    ),
    Step::Fails(
        StateFault::Unfit,
        b"\x17\0\0\0\0\0\0\0\x02\x01\0\0\0\0\0\0\0\x05\0\0\0\0\0\0\0\x02\x01\0\0\0\0\0\0\0\x01\0\0\0\0\0\0\0\x01",
    ),
    Step::Fails(
        StateFault::Unfit,
        b"\x17\0\0\0\0\0\0\0\x02\x01\0\0\0\0\0\0\0\x05\0\0\0\0\0\0\0\x02\x02\0\0\0\0\0\0\0\x06\0\0\0\0\0\0\0\x01",
    ),
    Step::Fails(
        StateFault::Unfit,
        b"\x17\0\0\0\0\0\0\0\x01\x03\x01a\0\0\0\0\0\0\0\x01",
    ),
    Step::Fails(
        StateFault::Unfit,
        b"\x17\0\0\0\0\0\0\0\x02\x01\0\0\0\0\0\0\0\x05\0\0\x01\0\0\0\0\0\x01\0\0\0\0\0\0\0\x06\0\0\0\0\0\0\0\x01",
    ),
    Step::Fails(StateFault::Unfit, b"\x07\0\0\0\0\0\0\0\x01"),
    Step::Fails(StateFault::Short, b"\x17\0\0\0\0\0\0\0\x01\x01\0\0"),
];

#[test]
fn ranks_of_the_worked_rows(rt: HostRuntime) -> Result<(), Fail> {
    assert_goes::<Rank>(&rt, WORKED_ROWS)
}

/// Each number once, rising, and then taken out from both ends: the middle stays, and a path is short.
/// Whether the first number and the last one of those that are left can be taken away.
fn takes_ends(state: &mut Rank, number: u16) -> bool {
    state.remove(&Value::Int(i64::from(number))).is_ok()
        && state.remove(&Value::Int(1_000 - i64::from(number))).is_ok()
}

/// The rank of 0 to 1,000, which come in rising order; none where memory runs out.
fn rising(alloc: Global) -> Option<Rank> {
    let mut state = Rank::empty(alloc);
    for number in 0..1_001u16 {
        if !adds(&mut state, &Value::Int(i64::from(number))) {
            return None;
        }
    }
    Some(state)
}

/// Where the median of those that are left isn't 500, while the ends are taken away: how many were taken from each.
fn first_wrong(state: &mut Rank) -> Option<u16> {
    for number in 0..500u16 {
        if !takes_ends(state, number) || state.answer() != Answer::Number(500) {
            return Some(number);
        }
    }
    None
}

#[test]
fn ranks_of_rising_numbers(rt: HostRuntime) -> Result<(), Fail> {
    let Some(mut state) = rising(rt.alloc()) else {
        return Err(Fail::from("memory"));
    };
    assert_eq!(rt; state.answer(), Answer::Number(500));
    assert_eq!(rt; first_wrong(&mut state), None);
    assert_eq!(rt; state.pairs(), 1);
    Ok(())
}
