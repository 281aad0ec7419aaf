ghost use Rattle.std.specs.Prelude.{◌≡◌, ◌+◌, ◌*◌, ◌+ℤ◌, ◌*ℤ◌, ◌<◌, ◌≤◌, ◌^◌, int_lt, unsigned_abs, if◌then◌else◌, [], ◌∷◌, ◌++◌, List};
ghost use Rattle.std.specs.Int.{w128, int_wrap};
ghost use Rattle.rg_event.specs.declared.value.Value.{Value};
ghost use Rattle.rg_metric.specs.Answers.{answer_of, number_of};
ghost use Rattle.rg_scratch.specs.Tallies.{IsExact, IsTallied, IsTally, ends_with};

use rg_event::Value;
use rg_metric::{Answer, Func};

/// What the functions of sums and of ends answer from, over a list of values.
#[derive(Drop)]
pub(crate) struct Tally {
    /// How many values there are, at most 2^40.
    count: u64,
    sum: i128,
    /// The sum of their squares, which wraps round at 2^127.
    squares: i128,
    ends: Option<Ends>,
    ghost few: { count ≤ 2 ^ 40 },
    ghost bound: { unsigned_abs sum ≤ count * 18446744073709551616 },
}

/// The ends of some numbers, by their size and by their place.
#[derive(Clone, Copy)]
pub(crate) struct Ends {
    least: i128,
    greatest: i128,
    first: i128,
    last: i128,
}

impl Tally {
    /// Of no values.
    pub(crate) fn new() -> Tally
        ensures tally { IsTally result.count result.sum result.squares result.ends [] }
        ensures count { result.count ≡ 0 }
    {
        Tally {
            count: 0,
            sum: 0,
            squares: 0,
            ends: None,
        }
    }

    /// Of one value more, behind the others.
    pub(crate) fn add(&mut self, value: &Value)
        requires { self.old.count < 2 ^ 40 }
        ensures tally { (values : List Value) → IsTally self.old.count self.old.sum self.old.squares self.old.ends values → IsTally self.new.count self.new.sum self.new.squares self.new.ends (values ++ value.now ∷ []) }
        ensures count { self.new.count ≡ self.old.count + 1 }
    {
        let number = number(value);
        *self = Tally {
            count: self.count + 1,
            sum: self.sum + number,
            squares: with_square(self.squares, number),
            ends: Some(with_last(self.ends, number)),
        };
    }

    /// What a function answers over the values. A sum of squares is exact where it is below 2^127.
    pub(crate) fn answer(&self, func: Func) -> Answer
        requires { IsTallied func }
        ensures { (values : List Value) → IsTally self.now.count self.now.sum self.now.squares self.now.ends values → IsExact func values → result ≡ answer_of func values }
    {
        match func {
            Func::Count => Answer::Number(i128::from(self.count)),
            Func::Sum => Answer::Number(self.sum),
            Func::SumSq => Answer::Number(self.squares),
            Func::CountDistinct | Func::Median | Func::Pct(_) => unreachable!(),
            Func::Avg => match self.ends {
                None => Answer::Dash,
                Some(_) => Answer::Ratio(self.sum, self.count),
            },
            Func::Min => match self.ends {
                None => Answer::Dash,
                Some(ends) => Answer::Number(ends.least),
            },
            Func::Max => match self.ends {
                None => Answer::Dash,
                Some(ends) => Answer::Number(ends.greatest),
            },
            Func::First => match self.ends {
                None => Answer::Dash,
                Some(ends) => Answer::Number(ends.first),
            },
            Func::Last => match self.ends {
                None => Answer::Dash,
                Some(ends) => Answer::Number(ends.last),
            },
        }
    }
}

/// The ends with one number more, behind the others.
fn with_last(ends: Option<Ends>, number: i128) -> Ends
    ensures { result ≡ ends_with ends number }
{
    match ends {
        None => Ends {
            least: number,
            greatest: number,
            first: number,
            last: number,
        },
        Some(ends) => Ends {
            least: lesser(number, ends.least),
            greatest: greater(ends.greatest, number),
            first: ends.first,
            last: number,
        },
    }
}

/// The sum of squares with one more, which wraps round at 2^127.
fn with_square(squares: i128, number: i128) -> i128
    ensures { result ≡ int_wrap w128 (squares +ℤ number *ℤ number) }
{
    let square = number.wrapping_mul(number);
    squares.wrapping_add(square)
}

/// The first number where it is less than the second, and else the second.
fn lesser(one: i128, other: i128) -> i128
    ensures { result ≡ (if int_lt one other then one else other) }
{
    if one < other { one } else { other }
}

/// The second number where it is greater than the first, and else the first.
fn greater(one: i128, other: i128) -> i128
    ensures { result ≡ (if int_lt one other then other else one) }
{
    if one < other { other } else { one }
}

/// The number that a value is; 0 for a text or a flag.
pub(crate) fn number(value: &Value) -> i128
    ensures number { result ≡ number_of value.now }
    ensures small { unsigned_abs result < 18446744073709551616 }
{
    match value {
        Value::Int(number) => i128::from(*number),
        Value::Id(number) => i128::from(*number),
        _ => 0,
    }
}
