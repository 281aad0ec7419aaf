ghost use Rattle.std.specs.Prelude.{◌≡◌, ◌↔◌, IsTrue, ◌<◌, ◌^◌, ◌==◌, None, List, [], ◌++◌, IfOk, OnOk, OnErr};
ghost use Rattle.rg_agg.specs.Held.{held_bytes};
ghost use Rattle.rg_agg.specs.Sharing.{kept_as as kept_func};
ghost use Rattle.rg_agg.specs.Standing.{Stands, IsLike, func_of, size_in, kind_in};
ghost use Rattle.rg_event.specs.declared.value.Value.{Value};
ghost use Rattle.rg_metric.specs.Answers.{answer_of};
ghost use Rattle.rg_state.specs.States.{held_of, IsFor, IsOfKind};
ghost use Rattle.rg_state.specs.Stepping.{Adds, Comes, Drops};
ghost use Rattle.rg_metric.specs.Admitted.{IsAdmitted};

use crate::one::{Refusal, add_to, keeps_kind, take_from};
use rg_agg::{Aggregate, Avg, Count, First, Last, Sum, SumSq, kept_as};
use rg_bytes::Memory;
use rg_distinct::Distinct;
use rg_event::{Kind, Value};
use rg_extreme::{Max, Min};
use rg_metric::{Answer, Func};
use rg_rank::Rank;
use std::alloc::Global;

/// The state of one of the aggregators. A state that keeps values stands in memory of its own, so that a row
/// of the others is small.
#[derive(Debug, Drop)]
pub enum AggState {
    /// How many values there are.
    Count(Count),
    /// The sum of ints.
    Sum(Sum),
    /// The mean of ints.
    Avg(Avg),
    /// The sum of the squares of ints.
    SumSq(SumSq),
    /// The least int or id.
    Min(Box<Min>),
    /// The greatest int or id.
    Max(Box<Max>),
    /// How many distinct values there are.
    Distinct(Box<Distinct>),
    /// The ints or ids in rising order: a median, and each percentile.
    Rank(Box<Rank>),
    /// The first int or id.
    First(Box<First>),
    /// The last int or id.
    Last(Box<Last>),
}

/// What is done with the state of each aggregator. A call of a method goes through a box by itself; any other
/// call is written a second time, for the states in a box.
macro_rules! each {
    ($of:expr, $state:ident => $done:expr, $boxed:expr) => {
        match $of {
            AggState::Count($state) => $done,
            AggState::Sum($state) => $done,
            AggState::Avg($state) => $done,
            AggState::SumSq($state) => $done,
            AggState::Min($state) => $boxed,
            AggState::Max($state) => $boxed,
            AggState::Distinct($state) => $boxed,
            AggState::Rank($state) => $boxed,
            AggState::First($state) => $boxed,
            AggState::Last($state) => $boxed,
        }
    };
    ($of:expr, $state:ident => $done:expr) => {
        each!($of, $state => $done, $done)
    };
}

impl AggState {
    /// The state of no values that serves a function.
    pub fn empty(alloc: Global, func: Func) -> Result<AggState, Memory>
        ensures stands { IfOk result (λ state. Stands (held_of state) []) }
        ensures func { IfOk result (λ state. func_of (held_of state) ≡ kept_func func) }
        ensures size { IfOk result (λ state. size_in (held_of state) ≡ 0) }
        ensures kind { IfOk result (λ state. kind_in (held_of state) ≡ None) }
    {
        match func {
            Func::Count => Ok(AggState::Count(Count::empty(alloc))),
            Func::Sum => Ok(AggState::Sum(Sum::empty(alloc))),
            Func::Avg => Ok(AggState::Avg(Avg::empty(alloc))),
            Func::SumSq => Ok(AggState::SumSq(SumSq::empty(alloc))),
            Func::Min => Ok(AggState::Min(Box::new(alloc, Min::empty(alloc))?)),
            Func::Max => Ok(AggState::Max(Box::new(alloc, Max::empty(alloc))?)),
            Func::CountDistinct => Ok(AggState::Distinct(Box::new(alloc, Distinct::empty(alloc))?)),
            Func::Median | Func::Pct(_) => Ok(AggState::Rank(Box::new(alloc, Rank::empty(alloc))?)),
            Func::First => Ok(AggState::First(Box::new(alloc, First::empty(alloc))?)),
            Func::Last => Ok(AggState::Last(Box::new(alloc, Last::empty(alloc))?)),
        }
    }

    /// The function whose state it is: the median's serves each percentile.
    pub fn func(&self) -> Func
        ensures { result ≡ func_of (held_of self.now) }
    {
        match self {
            AggState::Count(_) => Func::Count,
            AggState::Sum(_) => Func::Sum,
            AggState::Avg(_) => Func::Avg,
            AggState::SumSq(_) => Func::SumSq,
            AggState::Min(_) => Func::Min,
            AggState::Max(_) => Func::Max,
            AggState::Distinct(_) => Func::CountDistinct,
            AggState::Rank(_) => Func::Median,
            AggState::First(_) => Func::First,
            AggState::Last(_) => Func::Last,
        }
    }

    /// A state that keeps the same.
    pub fn copy(&self, alloc: Global) -> Result<AggState, Memory>
        // A copy keeps the same.
        ensures { IfOk result (λ copy. held_of copy ≡ held_of self.now) }
    {
        match self {
            AggState::Count(state) => Ok(AggState::Count(state.copy(alloc)?)),
            AggState::Sum(state) => Ok(AggState::Sum(state.copy(alloc)?)),
            AggState::Avg(state) => Ok(AggState::Avg(state.copy(alloc)?)),
            AggState::SumSq(state) => Ok(AggState::SumSq(state.copy(alloc)?)),
            AggState::Min(state) => Ok(AggState::Min(Box::new(alloc, state.copy(alloc)?)?)),
            AggState::Max(state) => Ok(AggState::Max(Box::new(alloc, state.copy(alloc)?)?)),
            AggState::Distinct(state) => Ok(AggState::Distinct(Box::new(
                alloc,
                state.copy(alloc)?,
            )?)),
            AggState::Rank(state) => Ok(AggState::Rank(Box::new(alloc, state.copy(alloc)?)?)),
            AggState::First(state) => Ok(AggState::First(Box::new(alloc, state.copy(alloc)?)?)),
            AggState::Last(state) => Ok(AggState::Last(Box::new(alloc, state.copy(alloc)?)?)),
        }
    }

    /// Whether it stands for no values.
    pub fn is_empty(&self) -> bool
        ensures { result ≡ (size_in (held_of self.now) == 0) }
    {
        each!(self, state => state.is_empty())
    }

    /// How many values it stands for, at most 2^40.
    pub fn size(&self) -> u64
        ensures { result ≡ size_in (held_of self.now) }
    {
        each!(self, state => state.size())
    }

    /// The answer of a function that it serves, over the values that it stands for.
    pub fn answer(&self, func: Func) -> Answer
        requires { func_of (held_of self.now) ≡ kept_func func }
        ensures { (values : List Value) → Stands (held_of self.now) values → result ≡ answer_of func values }
    {
        match (self, func) {
            (AggState::Rank(state), Func::Pct(percent)) => state.percentile(percent),
            _ => self.own_answer(),
        }
    }

    /// The answer of the function whose state it is.
    fn own_answer(&self) -> Answer
        ensures { (values : List Value) → Stands (held_of self.now) values → result ≡ answer_of (func_of (held_of self.now)) values }
    {
        each!(self, state => state.answer())
    }

    /// Whether it is a state that serves this function and each value that it holds is of this kind. A count
    /// holds none, and a sum is of ints.
    pub fn fits(&self, func: Func, kind: Option<Kind>) -> bool
        // It tells whether the state is of this function and kind.
        ensures { IsTrue result ↔ IsFor func kind (held_of self.now) }
    {
        self.func() == kept_as(func) && self.is_of(kind)
    }

    /// Whether each value that it holds is of this kind.
    fn is_of(&self, kind: Option<Kind>) -> bool
        ensures { IsTrue result ↔ IsOfKind kind (held_of self.now) }
    {
        match self {
            AggState::Count(_) => true,
            AggState::Sum(_) | AggState::Avg(_) | AggState::SumSq(_) => kind == Some(Kind::Int),
            AggState::Min(state) => keeps_kind(&**state, kind),
            AggState::Max(state) => keeps_kind(&**state, kind),
            AggState::Distinct(state) => keeps_kind(&**state, kind),
            AggState::Rank(state) => keeps_kind(&**state, kind),
            AggState::First(state) => keeps_kind(&**state, kind),
            AggState::Last(state) => keeps_kind(&**state, kind),
        }
    }

    /// Adds a value at the back, where it is a state that serves this function and has room for it. A refusal
    /// leaves what it keeps.
    pub fn add_fit(&mut self, func: Func, value: &Value) -> Result<(), Refusal>
        requires { IsAdmitted func value.now }
        ensures { Comes func value.now (held_of self.old) (held_of self.new) result }
    {
        if self.func() != kept_as(func) {
            return Err(Refusal::Unfit);
        }
        self.add_with_room(value)
    }

    /// Adds a value at the back, where there is room for it. A refusal leaves what it keeps.
    fn add_with_room(&mut self, value: &Value) -> Result<(), Refusal>
        requires { IsAdmitted (func_of (held_of self.old)) value.now }
        ensures { Comes (func_of (held_of self.old)) value.now (held_of self.old) (held_of self.new) result }
    {
        each!(self, state => add_to(state, value), add_to(&mut **state, value))
    }

    /// Adds a value at the back. Where memory runs out it keeps what it kept.
    pub fn add(&mut self, value: &Value) -> Result<(), Memory>
        requires room { size_in (held_of self.old) < 2 ^ 40 }
        requires takes { IsAdmitted (func_of (held_of self.old)) value.now }
        requires like { IsLike (kind_in (held_of self.old)) value.now }
        ensures func { func_of (held_of self.new) ≡ func_of (held_of self.old) }
        ensures adds { Adds value.now (held_of self.old) (held_of self.new) result }
    {
        each!(self, state => state.add(value))
    }

    /// Takes the first value away. A refusal leaves what it keeps, and comes of a state that stands for
    /// no list that begins with the value.
    pub fn remove(&mut self, value: &Value) -> Result<(), Refusal>
        ensures func { func_of (held_of self.new) ≡ func_of (held_of self.old) }
        ensures drops { Drops value.now (held_of self.old) (held_of self.new) result }
    {
        each!(self, state => take_from(state, value), take_from(&mut **state, value))
    }

    /// Writes the state at the end. Where memory runs out `out` holds what it held.
    pub fn encode(&self, out: &mut Vec<u8>) -> Result<(), Memory>
        requires { 0 < size_in (held_of self.now) }
        // The bytes of the state are written by their grammar, or nothing is.
        ensures ok { OnOk result (out.new.items ≡ out.old.items ++ held_bytes (held_of self.now)) }
        ensures err { OnErr result (out.new.items ≡ out.old.items) }
    {
        each!(self, state => state.encode(out))
    }
}
