ghost use Rattle.std.specs.Prelude.{◌≡◌, ◌⊎◌, ◌+◌, ◌<◌, List, [], ◌++◌, length, true, false, IfOk, OnOk, OnErr};
ghost use Rattle.std.specs.List.{All};
ghost use Rattle.rg_agg.specs.Held.{extreme_bytes};
ghost use Rattle.rg_agg.specs.Numbers.{seen, value_of};
ghost use Rattle.rg_agg.specs.Standing.{IsLike, pairs_kind};
ghost use Rattle.rg_bytes.specs.Keeps.{Keeps};
ghost use Rattle.rg_event.specs.Tagged.{value_kind};
ghost use Rattle.rg_event.specs.declared.value.Value.{Value};
ghost use Rattle.rg_extreme.specs.Changes.{Gains, Loses, LosesBeaten, LosesFirst, MayTake};
ghost use Rattle.rg_extreme.specs.Deques.{first_value, without_first};
ghost use Rattle.rg_extreme.specs.Sides.{beats, some_can_beat};
ghost use Rattle.rg_extreme.specs.States.{IsSound, StandsIn, pairs_in};
ghost use Rattle.rg_extreme.specs.declared.side.Side.{Side as SideValue};
ghost use Rattle.rg_extreme.specs.declared.side.Side.TheVariants.{Least, Greatest};
ghost use Rattle.rg_metric.specs.Answers.{answer_of};
ghost use Rattle.rg_keywords.specs.declared.func.Func.TheVariants.{Min, Max};

use crate::pairs::{copy_pairs, drop_beaten, first_of, join, lower_first, next_of, put_each};
use crate::side::Side;
use rg_agg::{Number, Unfit, put_size};
use rg_bytes::{Memory, put_u64};
use rg_event::{Kind, Steps, Value};
use rg_metric::Answer;
use std::alloc::Global;
use std::collections::VecDeque;
use std::sync::ledger::Ledger;

/// Those of some values that no later one beats, equal neighbours joined, each with its number. The first one is
/// the extreme, and each beats the next.
#[derive(Debug, Drop)]
pub(crate) struct Deque {
    pub(crate) pairs: VecDeque<(Number, u64)>,
    /// How many values there are.
    pub(crate) size: u64,
    /// How many of them are in the pairs.
    pub(crate) kept: u64,
}

impl Deque {
    /// No values.
    pub(crate) fn new(alloc: Global) -> Deque
        ensures pairs { pairs_in result ≡ [] }
        ensures size { result.size ≡ 0 }
        ensures kept { result.kept ≡ 0 }
    {
        Deque {
            pairs: VecDeque::new(alloc),
            size: 0,
            kept: 0,
        }
    }

    /// A deque that keeps the same.
    pub(crate) fn copy(&self, alloc: Global) -> Result<Deque, Memory>
        ensures pairs { IfOk result (λ copy. pairs_in copy ≡ pairs_in self.now) }
        ensures size { IfOk result (λ copy. copy.size ≡ self.now.size) }
        ensures kept { IfOk result (λ copy. copy.kept ≡ self.now.kept) }
    {
        let pairs = copy_pairs(alloc, &self.pairs)?;
        Ok(Deque {
            pairs,
            size: self.size,
            kept: self.kept,
        })
    }

    /// The kind of its values; none without values.
    pub(crate) fn kind(&self) -> Option<Kind>
        ensures kind { result ≡ pairs_kind (pairs_in self.now) }
        ensures like { (side : SideValue) (values : List Value) (value : Value) → StandsIn side self.now values → All (λ v. value_kind v ≡ value_kind value) values → IsLike result value }
    {
        match first_of(&self.pairs) {
            Some(number) => Some(number.kind()),
            None => None,
        }
    }

    /// The extreme's number; a dash without values.
    pub(crate) fn answer(&self) -> Answer
        ensures least { (values : List Value) → StandsIn Least self.now values → result ≡ answer_of Min values }
        ensures greatest { (values : List Value) → StandsIn Greatest self.now values → result ≡ answer_of Max values }
    {
        match first_of(&self.pairs) {
            Some(number) => Answer::Number(number.amount()),
            None => Answer::Dash,
        }
    }

    /// Adds a value at the back: the pairs that it beats go, with a tick each, and it is joined with the last one
    /// left or comes behind it. Where memory runs out the deque is as before, and there is no tick.
    pub(crate) fn add<L: Ledger>(
        &mut self,
        side: Side,
        value: &Value,
        steps: &mut Steps<L>,
    ) -> Result<(), Memory>
        requires { MayTake side self.old value.now }
        ensures { Gains side value.now self.old self.new steps.old steps.new result }
    {
        let Some(number) = Number::of(value) else {
            unreachable!();
        };
        let gone = drop_beaten(side, &mut self.pairs, number, steps);
        // A pair that went left room, so nothing fails once one is gone.
        join(&mut self.pairs, number)?;
        self.size += 1;
        self.kept = self.kept - gone + 1;
        Ok(())
    }

    /// Takes the first value away. A refusal leaves the deque as it was.
    pub(crate) fn remove(&mut self, side: Side, value: &Value) -> Result<(), Unfit>
        requires { IsSound side self.old }
        ensures { Loses side value.now self.old self.new result }
    {
        let Some(number) = Number::of(value) else {
            return Err(Unfit);
        };
        let Some(first) = first_of(&self.pairs) else {
            return Err(Unfit);
        };
        if !first.is_like(number) {
            return Err(Unfit);
        }
        if first.is_same(number) {
            self.remove_first(side)
        } else {
            self.remove_beaten(side, first, number)
        }
    }

    /// Takes a value away that is the first pair's.
    fn remove_first(&mut self, side: Side) -> Result<(), Unfit>
        requires sound { IsSound side self.old }
        requires some { 0 < length (pairs_in self.old) }
        ensures { LosesFirst side self.old self.new result }
    {
        if !self.can_lose_first(side) {
            return Err(Unfit);
        }
        lower_first(&mut self.pairs);
        self.size -= 1;
        self.kept -= 1;
        Ok(())
    }

    /// Whether there may be a list of the values that are left once one of the first pair's is taken away: where some
    /// of them are beaten, there is one that beats them.
    fn can_lose_first(&self, side: Side) -> bool
        requires { IsSound side self.now }
        ensures holds { result ≡ true → (self.now.kept ≡ self.now.size) ⊎ (some_can_beat side (first_value (without_first (pairs_in self.now))) ≡ true) }
        ensures more { result ≡ false → self.now.kept < self.now.size }
        ensures none { result ≡ false → some_can_beat side (first_value (without_first (pairs_in self.now))) ≡ false }
    {
        if self.kept == self.size {
            return true;
        }
        some_can_beat(side, next_of(&self.pairs))
    }

    /// Takes a value away that isn't the first pair's: one that is beaten, where there is one more than the pairs have.
    fn remove_beaten(&mut self, side: Side, first: Number, number: Number) -> Result<(), Unfit>
        requires { IsSound side self.old }
        ensures { LosesBeaten side (value_of first) (value_of number) self.old self.new result }
    {
        if self.kept == self.size || !side.beats(first, number) {
            return Err(Unfit);
        }
        self.size -= 1;
        Ok(())
    }

    /// Writes a tag, the number of values and that of pairs, and the pairs at the end. Where memory runs out `out`
    /// holds what it held.
    pub(crate) fn put(&self, tag: u8, out: &mut Vec<u8>) -> Result<(), Memory>
        ensures ok { OnOk result (out.new.items ≡ out.old.items ++ extreme_bytes tag self.now.size (pairs_in self.now)) }
        ensures err { OnErr result (out.new.items ≡ out.old.items) }
    {
        let start = out.len();
        match self.put_parts(tag, out) {
            Ok(()) => Ok(()),
            Err(memory) => {
                out.truncate(start);
                Err(memory)
            }
        }
    }

    /// Writes the same. Where memory runs out a prefix of it may stand there.
    fn put_parts(&self, tag: u8, out: &mut Vec<u8>) -> Result<(), Memory>
        ensures ok { OnOk result (out.new.items ≡ out.old.items ++ extreme_bytes tag self.now.size (pairs_in self.now)) }
        ensures err { OnErr result (Keeps out.old.items out.new.items) }
    {
        put_size(tag, self.size, out)?;
        put_u64(out, self.pairs.len() as u64)?;
        put_each(&self.pairs, out)
    }
}

/// Whether there is a number, and one that it beats.
fn some_can_beat(side: Side, number: Option<Number>) -> bool
    ensures { result ≡ some_can_beat side (seen number) }
{
    match number {
        Some(number) => side.can_beat(number),
        None => false,
    }
}
