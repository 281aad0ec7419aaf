use crate::agg::{Step, adds_item, keeps, state_does};
use crate::common::{Checks, Item};
use rg_agg::Answer;
use rg_state::AggState;
use std::alloc::Global;

/// Whether the first number beats the second one, where the greatest is asked or the least.
fn beats(greatest: bool, first: i64, second: i64) -> bool {
    if greatest {
        second < first
    } else {
        first < second
    }
}

/// The extreme of a list, and how many of its values differ that no later one beats, by a look at each value from the
/// back.
fn told_of(greatest: bool, values: &[i64]) -> (Answer, u64) {
    let mut pairs = 0u64;
    let mut best: Option<i64> = None;
    for value in values.iter().rev() {
        let is_kept = match best {
            Some(best) => beats(greatest, *value, best),
            None => true,
        };
        if is_kept {
            pairs = pairs.wrapping_add(1);
            best = Some(*value);
        }
    }
    match best {
        Some(best) => (Answer::Number(i128::from(best)), pairs),
        None => (Answer::Dash, pairs),
    }
}

/// Whether a state has the extreme of the list, its pairs and its length.
fn is_of(
    alloc: Global,
    state: &mut AggState,
    greatest: bool,
    values: &[i64],
    checks: &mut Checks,
) -> bool {
    let (want, pairs) = told_of(greatest, values);
    let size = values.len() as u64;
    keeps(state, pairs, checks)
        && state_does(alloc, state, &Step::Answers(want), checks)
        && state_does(alloc, state, &Step::Counts(size), checks)
}

/// A list: the values from a place on.
#[derive(Drop)]
struct List {
    values: Vec<i64>,
    from: usize,
}

/// Takes the first number from the state and from the list where the one that was drawn is even and the list has one,
/// and else adds a number to both. False where the state refuses.
fn change(
    alloc: Global,
    state: &mut AggState,
    list: &mut List,
    drawn: i64,
    checks: &mut Checks,
) -> bool {
    if drawn % 2 == 0 {
        if let Some(first) = list.values.get(list.from) {
            list.from = list.from.saturating_add(1);
            return state_does(alloc, state, &Step::Remove(&Item::Int(*first)), checks);
        }
    }
    let number = 7i64.wrapping_sub(drawn);
    list.values.push(number).is_ok() && adds_item(alloc, state, &Item::Int(number), checks)
}

/// Whether a change leaves what the list has.
fn changes_so(
    alloc: Global,
    state: &mut AggState,
    list: &mut List,
    drawn: i64,
    greatest: bool,
    checks: &mut Checks,
) -> bool {
    if !change(alloc, state, list, drawn, checks) {
        return false;
    }
    match list.values.get(list.from..) {
        Some(values) => is_of(alloc, state, greatest, values, checks),
        None => checks.fails("values", list.values.len(), list.from),
    }
}

/// Whether each of 400 mixed changes does.
fn change_so(
    alloc: Global,
    state: &mut AggState,
    list: &mut List,
    greatest: bool,
    checks: &mut Checks,
) -> bool {
    let mut seed = 1u64;
    for number in 0..400u32 {
        seed = seed
            .wrapping_mul(6_364_136_223_846_793_005)
            .wrapping_add(1_442_695_040_888_963_407);
        let is_so = changes_so(alloc, state, list, (seed >> 60) as i64, greatest, checks);
        if !checks.at(is_so, "change", number) {
            return false;
        }
    }
    true
}

/// Whether they do from a state of no values and an empty list on.
pub(crate) fn mixes(
    alloc: Global,
    state: &mut AggState,
    greatest: bool,
    checks: &mut Checks,
) -> bool {
    let mut list = List {
        values: Vec::new(alloc),
        from: 0,
    };
    let is_so = change_so(alloc, state, &mut list, greatest, checks);
    drop(list);
    is_so
}
