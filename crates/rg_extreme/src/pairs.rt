ghost use Rattle.std.specs.Prelude.{◌≡◌, ◌+◌, ◌-◌, ◌<◌, ◌≤◌, ◌^◌, ◌++◌, length, drop, false, IsTrue, IfOk, OnOk, OnErr};
ghost use Rattle.std.specs.VecDeque.{deque_capacity};
ghost use Rattle.rg_agg.specs.Held.{pairs_bytes};
ghost use Rattle.rg_agg.specs.Numbers.{seen, value_of};
ghost use Rattle.rg_agg.specs.Standing.{AreThere, counts_sum};
ghost use Rattle.rg_agg.specs.Stands.{IsNumber};
ghost use Rattle.rg_bytes.specs.Keeps.{Keeps};
ghost use Rattle.rg_extreme.specs.Changes.{DropsBeaten};
ghost use Rattle.rg_extreme.specs.Deques.{first_value, is_beaten, is_same, pushed, raised, without_first};
ghost use Rattle.rg_extreme.specs.Sides.{beats};
ghost use Rattle.rg_extreme.specs.States.{as_pairs};
ghost use Rattle.rg_multiset.specs.Pairs.{IsTally};
ghost use Rattle.rg_multiset.specs.Reading.{last_kept};

use crate::side::Side;
use rg_agg::Number;
use rg_bytes::{Memory, put_u64};
use rg_event::{Steps, put_tagged};
use std::alloc::Global;
use std::collections::VecDeque;
use std::sync::ledger::Ledger;

/// A copy of the pairs, in their order.
pub(crate) fn copy_pairs(
    alloc: Global,
    pairs: &VecDeque<(Number, u64)>,
) -> Result<VecDeque<(Number, u64)>, Memory>
    ensures { IfOk result (λ copies. copies.items ≡ pairs.now.items) }
{
    let mut copies = VecDeque::new(alloc);
    for pair in pairs.iter() {
        copies.push_back(*pair)?;
    }
    Ok(copies)
}

/// The first pair's number, if there is one.
pub(crate) fn first_of(pairs: &VecDeque<(Number, u64)>) -> Option<Number>
    ensures { seen result ≡ first_value (as_pairs pairs.now.items) }
{
    match pairs.front() {
        Some((number, _)) => Some(*number),
        None => None,
    }
}

/// The number that comes first once the first pair has one value fewer, if there is one.
pub(crate) fn next_of(pairs: &VecDeque<(Number, u64)>) -> Option<Number>
    ensures { seen result ≡ first_value (without_first (as_pairs pairs.now.items)) }
{
    match pairs.front() {
        Some((number, count)) => {
            if *count == 1 {
                second_of(pairs)
            } else {
                Some(*number)
            }
        }
        None => None,
    }
}

/// The second pair's number, if there is one.
fn second_of(pairs: &VecDeque<(Number, u64)>) -> Option<Number>
    ensures { seen result ≡ first_value (as_pairs (drop 1 pairs.now.items)) }
{
    match pairs.get(1) {
        Some((number, _)) => Some(*number),
        None => None,
    }
}

/// Takes one value out of the first pair, and the pair where it was the last one.
pub(crate) fn lower_first(pairs: &mut VecDeque<(Number, u64)>)
    requires some { 0 < length pairs.old.items }
    requires above { AreThere (as_pairs pairs.old.items) }
    ensures { as_pairs pairs.new.items ≡ without_first (as_pairs pairs.old.items) }
{
    let is_last = match pairs.front_mut() {
        Some(first) => lower(&mut first.1),
        None => unreachable!(),
    };
    if is_last {
        pairs.pop_front();
    }
}

/// Lowers a count above 1; a count of 1 stays, and it answers true.
fn lower(count: &mut u64) -> bool
    requires { 0 < count.old }
    ensures last { IsTrue result → (count.old ≡ 1) × (count.new ≡ count.old) }
    ensures more { result ≡ false → (1 < count.old) × (count.new ≡ count.old - 1) }
{
    if *count == 1 {
        return true;
    }
    *count -= 1;
    false
}

/// Whether a number beats that of the last pair.
fn beats_last(side: Side, pairs: &VecDeque<(Number, u64)>, number: Number) -> bool
    ensures { result ≡ is_beaten (beats side) (last_kept (as_pairs pairs.now.items)) (value_of number) }
{
    match pairs.back() {
        Some((last, _)) => side.beats(number, *last),
        None => false,
    }
}

/// Takes the pairs that a number beats off the back, with a tick each. It answers the sum of their counts.
pub(crate) fn drop_beaten<L: Ledger>(
    side: Side,
    pairs: &mut VecDeque<(Number, u64)>,
    number: Number,
    steps: &mut Steps<L>,
) -> u64
    requires { IsTally IsNumber (beats side) (as_pairs pairs.old.items) }
    ensures { DropsBeaten side (value_of number) pairs.old.items pairs.new.items (deque_capacity pairs.old) (deque_capacity pairs.new) steps.old steps.new result }
{
    let mut gone = 0u64;
    'beaten: while beats_last(side, pairs, number) {
        match pairs.pop_back() {
            Some((_, count)) => {
                gone += count;
                steps.tick();
            }
            None => unreachable!(),
        }
    }
    gone
}

/// Joins a number with the last pair where that is the same, else puts it behind as a pair of its own. Where memory
/// runs out the pairs are as before; that is only where there is no room left.
pub(crate) fn join(pairs: &mut VecDeque<(Number, u64)>, number: Number) -> Result<(), Memory>
    requires { counts_sum (as_pairs pairs.old.items) < 2 ^ 40 }
    ensures ok { OnOk result (as_pairs pairs.new.items ≡ pushed (value_of number) (as_pairs pairs.old.items)) }
    ensures err { OnErr result (pairs.new.items ≡ pairs.old.items) }
    ensures full { OnErr result (deque_capacity pairs.old ≤ length pairs.old.items) }
{
    if is_last(pairs, number) {
        raise_last(pairs);
        return Ok(());
    }
    pairs.push_back((number, 1))?;
    Ok(())
}

/// Whether a number is that of the last pair.
fn is_last(pairs: &VecDeque<(Number, u64)>, number: Number) -> bool
    ensures { result ≡ is_same (last_kept (as_pairs pairs.now.items)) (value_of number) }
{
    match pairs.back() {
        Some((last, _)) => last.is_same(number),
        None => false,
    }
}

/// Counts one value more in the last pair.
fn raise_last(pairs: &mut VecDeque<(Number, u64)>)
    requires { counts_sum (as_pairs pairs.old.items) < 2 ^ 40 }
    ensures { as_pairs pairs.new.items ≡ raised (as_pairs pairs.old.items) }
{
    if let Some(last) = pairs.back_mut() {
        last.1 += 1;
    }
}

/// Writes each number with its kind's tag, and its count, at the end. Where memory runs out a prefix of it may stand there.
pub(crate) fn put_each(pairs: &VecDeque<(Number, u64)>, out: &mut Vec<u8>) -> Result<(), Memory>
    ensures ok { OnOk result (out.new.items ≡ out.old.items ++ pairs_bytes (as_pairs pairs.now.items)) }
    ensures err { OnErr result (Keeps out.old.items out.new.items) }
{
    for place in 0..pairs.len() {
        if let Some((number, count)) = pairs.get(place) {
            put_tagged(&number.value(), out)?;
            put_u64(out, *count)?;
        }
    }
    Ok(())
}
