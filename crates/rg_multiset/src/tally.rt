ghost use Rattle.std.specs.Prelude.{◌≡◌, ℕ, ◌+◌, ◌<◌, ◌≤◌, ◌^◌, true, false, List, [], ◌∷◌, ◌++◌, IfOk, OnOk, OnErr, IsErr};
ghost use Rattle.std.specs.List.{All};
ghost use Rattle.rg_agg.specs.Held.{counts_bytes, Agrees, Returns};
ghost use Rattle.rg_agg.specs.Standing.{AreCounts, IsLike, counts_sum, count_in, pairs_kind};
ghost use Rattle.rg_bytes.specs.Keeps.{Keeps};
ghost use Rattle.rg_event.specs.Tagged.{value_kind};
ghost use Rattle.rg_event.specs.declared.value.Value.{Value};
ghost use Rattle.rg_metric.specs.Answers.{distinct_after};
ghost use Rattle.rg_multiset.specs.Pairs.{IsTally, OneMore};
ghost use Rattle.rg_multiset.specs.Reading.{pairs_at};

use crate::map::{add_in, copy_in, is_behind, push_in, put_each, remove_in};
use crate::pair_list::PairList;
use crate::ranked::Ranked;
use crate::reading::read_list;
use rg_agg::{StateFault, Unfit, put_size};
use rg_bytes::{ByteReader, Memory};
use rg_event::{Kind, MAX_EVENTS};
use std::alloc::Global;
use std::collections::BTreeMap;
use std::marker::Model;

/// Values with how often each is there, in the order of their keys: of one kind, at most 2^40 in all.
#[derive(Debug, Drop)]
pub struct Tally<K: Ranked> {
    map: BTreeMap<K, u64>,
    size: u64,
    alloc: Global,
}

impl<K: Ranked> Model for Tally<K> {
    ghost use Rattle.std.specs.Prelude.{List, ℕ};
    ghost use Rattle.rg_event.specs.declared.value.Value.{Value as TheValue};
    ghost use Rattle.rg_multiset.specs.Pairs.{pairs_by, IsSized};

    ghost Value = { List (TheValue × ℕ) };

    ghost view = { λ t. pairs_by K.value_of t.map.entries };

    ghost invariant = { λ t. IsSized K.legal t.size (pairs_by K.value_of t.map.entries) };
}

impl<K: Ranked> Tally<K> {
    /// No values.
    pub fn new(alloc: Global) -> Tally<K>
        ensures { result ≡ [] }
    {
        Tally {
            map: BTreeMap::new(alloc),
            size: 0,
            alloc,
        }
    }

    /// A tally of the same values, each as often as here.
    pub fn copy(&self, alloc: Global) -> Result<Tally<K>, Memory>
        // A copy has each value as often.
        ensures { IfOk result (λ copy. copy ≡ self.now) }
    {
        let map = copy_in(alloc, &self.map)?;
        Ok(Tally {
            map,
            size: self.size,
            alloc,
        })
    }

    /// How many values there are, each as often as it is there: at most 2^40.
    pub fn size(&self) -> u64
        // It tells how many values it counts.
        ensures size { result ≡ counts_sum self.now }
        ensures few { result ≤ 2 ^ 40 }
    {
        self.size
    }

    /// How many values there are that differ.
    pub fn distinct(&self) -> u64
        // It tells how many different values it counts.
        ensures { (values : List Value) → AreCounts self.now values → result ≡ distinct_after [] values }
    {
        self.map.len() as u64
    }

    /// The kind of its values; none without values.
    pub fn kind(&self) -> Option<Kind>
        ensures kind { result ≡ pairs_kind self.now }
        ensures like { (values : List Value) (value : Value) → AreCounts self.now values → All (λ v. value_kind v ≡ value_kind value) values → IsLike result value }
    {
        match self.map.first_key_value() {
            Some((key, _)) => Some(key.kind()),
            None => None,
        }
    }

    /// Counts a value once more. Where memory runs out it is as before; a value that is there takes none.
    pub fn add(&mut self, key: &K) -> Result<(), Memory>
        requires room { counts_sum self.old < 2 ^ 40 }
        requires legal { K.legal (K.value_of key.now) }
        requires like { IsLike (pairs_kind self.old) (K.value_of key.now) }
        // The value is counted once more, and each other one as often as before.
        ensures ok { OnOk result (OneMore (K.value_of key.now) self.old self.new) }
        ensures err { OnErr result (self.new ≡ self.old) }
        ensures memory { IsErr result → count_in (K.value_of key.now) self.old ≡ 0 }
        ensures sound { IsTally K.legal K.below self.new }
    {
        match add_in(self.alloc, &mut self.map, key) {
            Ok(()) => {
                self.size += 1;
                Ok(())
            }
            Err(memory) => Err(memory),
        }
    }

    /// Counts a value once less, and drops it where it was there once. A refusal leaves the tally as it was.
    pub fn remove(&mut self, key: &K) -> Result<(), Unfit>
        // The value is counted once less, and each other one as often as before.
        ensures ok { OnOk result (OneMore (K.value_of key.now) self.new self.old) }

        // A removal is refused only where the value isn't counted.
        ensures unfit { OnErr result (count_in (K.value_of key.now) self.old ≡ 0) }
        ensures err { OnErr result (self.new ≡ self.old) }
        ensures sound { IsTally K.legal K.below self.new }
    {
        if !remove_in(&mut self.map, key) {
            return Err(Unfit);
        }
        self.size -= 1;
        Ok(())
    }

    /// Writes a tag and the values with their counts at the end. Where memory runs out `out` holds what it held.
    pub fn put(&self, tag: u8, out: &mut Vec<u8>) -> Result<(), Memory>
        // The pairs are written by their grammar, in rising order, or nothing is.
        ensures ok { OnOk result (out.new.items ≡ out.old.items ++ counts_bytes tag self.now) }
        ensures err { OnErr result (out.new.items ≡ out.old.items) }
    {
        let start = out.len();
        match self.put_parts(tag, out) {
            Ok(()) => Ok(()),
            Err(memory) => {
                out.truncate(start);
                Err(memory)
            }
        }
    }

    /// Writes the same. Where memory runs out a front of it may stand there.
    fn put_parts(&self, tag: u8, out: &mut Vec<u8>) -> Result<(), Memory>
        ensures ok { OnOk result (out.new.items ≡ out.old.items ++ counts_bytes tag self.now) }
        ensures err { OnErr result (Keeps out.old.items out.new.items) }
    {
        put_size(tag, self.map.len() as u64, out)?;
        put_each(&self.map, out)
    }

    /// Takes a tag and values with their counts, as `put` writes them: values of one kind that rise, each count
    /// above 0, and the counts at most 2^40 in sum. A refusal leaves the reader as it was.
    pub fn read(alloc: Global, tag: u8, from: &mut ByteReader<'_>) -> Result<Tally<K>, StateFault>
        // Pairs are read exactly where they rise and each count is at least 1.
        ensures agrees { Agrees (λ tally. tally) (pairs_at K.value_at K.below tag from.old) result from.new }
        ensures ok { IfOk result (λ tally. from.old ≡ counts_bytes tag tally ++ from.new) }
        ensures some { IfOk result (λ tally. 0 < counts_sum tally) }
        ensures sound { IfOk result (IsTally K.legal K.below) }

        // What was written is read back, whatever follows.
        ensures reads_back { (pairs : List (Value × ℕ)) (rest : List ℕ) → IsTally K.legal K.below pairs → 0 < counts_sum pairs → from.old ≡ counts_bytes tag pairs ++ rest → Returns (λ tally. tally) pairs rest result from.new }
        ensures err { OnErr result (from.new ≡ from.old) }
    {
        read_list(Tally::new(alloc), tag, from)
    }
}

impl<K: Ranked> PairList for Tally<K> {
    type Key = K;

    ghost value_of = { K.value_of };

    ghost legal = { K.legal };

    ghost value_at = { K.value_at };

    ghost pairs = { λ tally. tally };

    ghost below = { λ _. K.below };

    ghost most = { λ _. 1099511627776 };

    fn read_key(&self, from: &mut ByteReader<'_>) -> Result<K, StateFault> {
        K::read(self.alloc, from)
    }

    fn is_behind(&self, key: &K) -> bool {
        is_behind(&self.map, key)
    }

    fn room(&self) -> u64 {
        MAX_EVENTS - self.size
    }

    fn push(&mut self, key: K, count: u64) -> Result<(), Memory> {
        match push_in(&mut self.map, key, count) {
            Ok(()) => {
                self.size += count;
                Ok(())
            }
            Err(memory) => Err(memory),
        }
    }
}
