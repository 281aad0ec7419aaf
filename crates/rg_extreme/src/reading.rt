ghost use Rattle.std.specs.Prelude.{◌≡◌, ℕ, ◌+◌, ◌<◌, ◌≤◌, ◌^◌, ◌&&◌, List, [], ◌∷◌, ◌++◌, true, IfOk, OnOk, OnErr};
ghost use Rattle.rg_agg.specs.Held.{Agrees, Returns, extreme_bytes, number_value_at, pairs_bytes};
ghost use Rattle.rg_agg.specs.Numbers.{value_of};
ghost use Rattle.rg_agg.specs.Standing.{counts_sum};
ghost use Rattle.rg_event.specs.declared.value.Value.{Value};
ghost use Rattle.rg_extreme.specs.Changes.{IsMade};
ghost use Rattle.rg_extreme.specs.Deques.{IsDeque};
ghost use Rattle.rg_extreme.specs.Extremes.{extreme_at};
ghost use Rattle.rg_extreme.specs.Sides.{beats};
ghost use Rattle.rg_extreme.specs.States.{IsSound, as_pairs, kept_by, pairs_in};
ghost use Rattle.rg_multiset.specs.Reading.{comes_behind, last_kept, more_pairs_at, same_kind};

use crate::deque::Deque;
use crate::side::Side;
use rg_agg::{Number, StateFault, read_number, read_size};
use rg_bytes::{ByteReader, Memory};
use rg_multiset::{PairList, read_length, read_pairs};
use std::alloc::Global;
use std::collections::VecDeque;

impl Deque {
    /// Takes a tag, the number of values and that of pairs, and the pairs, as `put` writes them. A refusal leaves
    /// the reader as it was.
    pub(crate) fn read(
        alloc: Global,
        side: Side,
        tag: u8,
        from: &mut ByteReader<'_>,
    ) -> Result<Deque, StateFault>
        ensures agrees { Agrees kept_by (extreme_at (beats side) tag from.old) result from.new }
        ensures ok { IfOk result (λ deque. from.old ≡ extreme_bytes tag deque.size (pairs_in deque) ++ from.new) }
        ensures sound { IfOk result (λ deque. IsSound side deque) }
        ensures some { IfOk result (λ deque. 0 < deque.size) }
        ensures reads_back { (n kept : ℕ) (pairs : List (Value × ℕ)) (rest : List ℕ) → IsDeque (beats side) n kept pairs → 0 < n → from.old ≡ extreme_bytes tag n pairs ++ rest → Returns kept_by (n, pairs) rest result from.new }
        ensures err { OnErr result (from.new ≡ from.old) }
    {
        // All that is left, so that a refusal can put it back.
        let bytes = from.bytes(from.left())?;
        let mut left = ByteReader::new(bytes);
        match read_deque(alloc, side, tag, &mut left) {
            Ok(deque) => {
                *from = left;
                Ok(deque)
            }
            Err(fault) => {
                *from = ByteReader::new(bytes);
                Err(fault)
            }
        }
    }
}

/// Takes the same. A refusal may leave the reader in mid-way.
fn read_deque(
    alloc: Global,
    side: Side,
    tag: u8,
    from: &mut ByteReader<'_>,
) -> Result<Deque, StateFault>
    ensures agrees { Agrees kept_by (extreme_at (beats side) tag from.old) result from.new }
    ensures ok { IfOk result (λ deque. from.old ≡ extreme_bytes tag deque.size (pairs_in deque) ++ from.new) }
    ensures sound { IfOk result (λ deque. IsSound side deque) }
    ensures some { IfOk result (λ deque. 0 < deque.size) }
{
    let size = read_size(tag, from)?;
    let count = read_length(from)?;
    read_filled(alloc, side, size, count, from)
}

/// Takes so many pairs, of at most so many values. A refusal may leave the reader in mid-way.
fn read_filled(
    alloc: Global,
    side: Side,
    size: u64,
    count: u64,
    from: &mut ByteReader<'_>,
) -> Result<Deque, StateFault>
    requires some { 0 < count }
    requires few { size ≤ 2 ^ 40 }
    ensures agrees { Agrees pairs_in (more_pairs_at number_value_at (beats side) size [] count from.old) result from.new }
    ensures ok { IfOk result (λ deque. from.old ≡ pairs_bytes (pairs_in deque) ++ from.new) }
    ensures made { IfOk result (λ deque. IsMade side size count deque) }
{
    let deque = Deque {
        pairs: VecDeque::new(alloc),
        size,
        kept: 0,
    };
    match read_pairs(Filling { deque, side, alloc }, count, from) {
        Ok(filling) => Ok(filling.deque),
        Err(fault) => Err(fault),
    }
}

/// A deque that is read pair by pair.
#[derive(Drop)]
struct Filling {
    deque: Deque,
    side: Side,
    alloc: Global,
    ghost sum: { deque.kept ≡ counts_sum (pairs_in deque) },
    ghost most: { deque.kept ≤ deque.size },
    ghost few: { deque.size ≤ 2 ^ 40 },
}

impl PairList for Filling {
    ghost use Rattle.rg_agg.specs.Held.{number_value_at};
    ghost use Rattle.rg_agg.specs.Numbers.{value_of as value_of_number};
    ghost use Rattle.rg_agg.specs.Stands.{IsNumber};
    ghost use Rattle.rg_extreme.specs.Sides.{beats};
    ghost use Rattle.rg_extreme.specs.States.{pairs_in};

    type Key = Number;

    ghost value_of = { value_of_number };

    ghost legal = { IsNumber };

    ghost value_at = { number_value_at };

    ghost pairs = { λ filling. pairs_in filling.deque };

    ghost below = { λ filling. beats filling.side };

    ghost most = { λ filling. filling.deque.size };

    fn read_key(&self, from: &mut ByteReader<'_>) -> Result<Number, StateFault> {
        read_number(self.alloc, from)
    }

    fn is_behind(&self, key: &Number) -> bool {
        is_behind(self.side, &self.deque.pairs, *key)
    }

    fn room(&self) -> u64 {
        self.deque.size - self.deque.kept
    }

    fn push(&mut self, key: Number, count: u64) -> Result<(), Memory> {
        push(&mut self.deque, key, count)
    }
}

/// Puts a pair behind the others. Where memory runs out the deque is as before.
fn push(deque: &mut Deque, number: Number, count: u64) -> Result<(), Memory>
    requires sum { deque.old.kept ≡ counts_sum (pairs_in deque.old) }
    requires room { deque.old.kept + count ≤ 2 ^ 40 }
    ensures pairs { OnOk result (pairs_in deque.new ≡ pairs_in deque.old ++ (value_of number, count) ∷ []) }
    ensures sum { deque.new.kept ≡ counts_sum (pairs_in deque.new) }
    ensures kept { OnOk result (deque.new.kept ≡ deque.old.kept + count) }
    ensures size { deque.new.size ≡ deque.old.size }
    ensures err { OnErr result (deque.new.kept ≡ deque.old.kept) }
{
    deque.pairs.push_back((number, count))?;
    deque.kept += count;
    Ok(())
}

/// Whether a number may stand behind the pairs: it is of the last one's kind, and that one beats it.
fn is_behind(side: Side, pairs: &VecDeque<(Number, u64)>, number: Number) -> bool
    ensures { result ≡ comes_behind (beats side) (last_kept (as_pairs pairs.now.items)) (value_of number) }
{
    match pairs.back() {
        Some((last, _)) => may_follow(side, *last, number),
        None => true,
    }
}

/// Whether a number is of the kind of another one, and that one beats it.
fn may_follow(side: Side, last: Number, number: Number) -> bool
    ensures { result ≡ (same_kind (value_of last) (value_of number) && beats side (value_of last) (value_of number)) }
{
    last.is_like(number) && side.beats(last, number)
}
