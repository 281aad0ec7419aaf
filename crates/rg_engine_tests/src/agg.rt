use crate::common::{Checks, Item, Subject, value_of};
use crate::mixed::mixes;
use rg_agg::{Aggregate, Answer, StateFault, Unfit};
use rg_bytes::ByteReader;
use rg_event::{Kind, Value};
use rg_metric::is_admitted;
use rg_state::{AggState, Func};
use std::alloc::Global;

/// What is done to a state, or what it says.
#[derive(Clone, Copy)]
pub(crate) enum Step<'a> {
    /// A state of no values of this function takes the place of the one before.
    New(Func),
    Add(&'a Item),
    Remove(&'a Item),
    /// A removal that is refused.
    Refuse(&'a Item),
    /// The bytes that it is written as.
    Writes(&'static [u8]),
    Answers(Answer),
    /// How many values it stands for.
    Counts(u64),
    /// How many pairs of a value and a count an extreme keeps.
    Keeps(u64),
    Is(Option<Kind>),
    /// Each of 400 mixed changes leaves the greatest of a plain list, or, where that is false, the least.
    Mixed(bool),
    /// It stands for no values.
    IsEmpty,
    /// A state is read of these bytes and those behind them, which takes the place of the one before.
    Reads(&'static [u8], &'static [u8]),
    /// No state is read of these, by this fault.
    Fails(StateFault, &'static [u8], &'static [u8]),
}

/// Whether a value is added, where the state's function takes it.
fn adds(state: &mut AggState, value: &Value, checks: &mut Checks) -> bool {
    let func = state.func();
    if !is_admitted(func, value) {
        return checks.fails("value", value, func);
    }
    checks.same("addition", state.add_fit(func, value), Ok(()))
}

/// Whether a value that is made for it is added.
pub(crate) fn adds_item(
    alloc: Global,
    state: &mut AggState,
    item: &Item,
    checks: &mut Checks,
) -> bool {
    match value_of(alloc, item) {
        Some(value) => {
            let is_so = adds(state, &value, checks);
            drop(value);
            is_so
        }
        None => false,
    }
}

/// Whether a removal of the value ends so.
fn removes<A: Aggregate>(
    alloc: Global,
    state: &mut A,
    item: &Item,
    want: Result<(), Unfit>,
    checks: &mut Checks,
) -> bool {
    match value_of(alloc, item) {
        Some(value) => {
            let is_so = checks.same("removal", state.remove(&value), want);
            drop(value);
            is_so
        }
        None => false,
    }
}

/// Whether a state of some values is written as these bytes.
fn is_written<A: Aggregate>(alloc: Global, state: &A, want: &[u8], checks: &mut Checks) -> bool {
    if state.is_empty() {
        return checks.fails("state", "of no values", want);
    }
    let mut out = Vec::new(alloc);
    let is_so = state.encode(&mut out).is_ok() && checks.same_bytes("written", &out, want);
    drop(out);
    is_so
}

/// Whether reading a state of these bytes ends so. One that is read takes the place of the one before.
fn reads<A: Aggregate + Drop>(
    alloc: Global,
    bytes: &[u8],
    state: &mut A,
    want: Option<StateFault>,
    checks: &mut Checks,
) -> bool {
    match A::decode(alloc, &mut ByteReader::new(bytes)) {
        Ok(read) => {
            *state = read;
            checks.same("fault", None, want)
        }
        Err(fault) => checks.same("fault", Some(fault), want),
    }
}

/// Whether reading one of these bytes and others behind them does.
fn reads_behind<A: Aggregate + Drop>(
    alloc: Global,
    front: &[u8],
    bytes: &[u8],
    state: &mut A,
    want: Option<StateFault>,
    checks: &mut Checks,
) -> bool {
    let mut all = Vec::new(alloc);
    let is_so = all.extend_from_slice(front).is_ok()
        && all.extend_from_slice(bytes).is_ok()
        && reads(alloc, &all, state, want, checks);
    drop(all);
    is_so
}

/// Whether a state does or says so.
fn does<A: Aggregate + Drop>(
    alloc: Global,
    state: &mut A,
    step: &Step<'_>,
    checks: &mut Checks,
) -> bool {
    match step {
        Step::Remove(item) => removes(alloc, state, item, Ok(()), checks),
        Step::Refuse(item) => removes(alloc, state, item, Err(Unfit), checks),
        Step::Writes(bytes) => is_written(alloc, state, bytes, checks),
        Step::Answers(answer) => checks.same("answer", state.answer(), *answer),
        Step::Counts(size) => checks.same("size", state.size(), *size),
        Step::Is(kind) => checks.same("kind", state.kind(), *kind),
        Step::IsEmpty => checks.same("is_empty", state.is_empty(), true),
        Step::Reads(front, bytes) => reads_behind(alloc, front, bytes, state, None, checks),
        Step::Fails(fault, front, bytes) => {
            reads_behind(alloc, front, bytes, state, Some(*fault), checks)
        }
        _ => false,
    }
}

/// Whether the state of one of the aggregators does or says so.
pub(crate) fn state_does(
    alloc: Global,
    state: &mut AggState,
    step: &Step<'_>,
    checks: &mut Checks,
) -> bool {
    match state {
        AggState::Count(state) => does(alloc, state, step, checks),
        AggState::Sum(state) => does(alloc, state, step, checks),
        AggState::Avg(state) => does(alloc, state, step, checks),
        AggState::SumSq(state) => does(alloc, state, step, checks),
        AggState::Min(state) => does(alloc, &mut **state, step, checks),
        AggState::Max(state) => does(alloc, &mut **state, step, checks),
        AggState::Distinct(state) => does(alloc, &mut **state, step, checks),
        AggState::Rank(state) => does(alloc, &mut **state, step, checks),
        AggState::First(state) => does(alloc, &mut **state, step, checks),
        AggState::Last(state) => does(alloc, &mut **state, step, checks),
    }
}

/// Whether an extreme keeps so many pairs.
pub(crate) fn keeps(state: &AggState, pairs: u64, checks: &mut Checks) -> bool {
    match state {
        AggState::Min(state) => checks.same("pairs", state.pairs(), pairs),
        AggState::Max(state) => checks.same("pairs", state.pairs(), pairs),
        _ => checks.fails("pairs", "none", pairs),
    }
}

impl Subject for AggState {
    type Step = Step<'static>;

    fn start(alloc: Global) -> Option<AggState> {
        AggState::empty(alloc, Func::Count).ok()
    }

    fn goes(&mut self, alloc: Global, step: &Step<'static>, checks: &mut Checks) -> bool {
        match step {
            Step::New(func) => match AggState::empty(alloc, *func).ok() {
                Some(state) => {
                    *self = state;
                    true
                }
                None => false,
            },
            Step::Add(item) => adds_item(alloc, self, item, checks),
            Step::Keeps(pairs) => keeps(self, *pairs, checks),
            Step::Mixed(greatest) => mixes(alloc, self, *greatest, checks),
            _ => state_does(alloc, self, step, checks),
        }
    }
}
