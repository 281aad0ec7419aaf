ghost use Rattle.std.specs.Prelude.{◌≡◌, ◌≤◌, ◌*◌, ◌-◌, ◌^◌, ◌↔◌, ℕ, false, List, length, All, Contains, Some, None, IfSome, IfNone, IsTrue, IsOk, IfOk, OnOk};
ghost use Rattle.std.specs.BTreeMap.{IsOrdered, get};
ghost use Rattle.std.specs.Cmp.Lexicographic.{slice_cmp};
ghost use Rattle.std.specs.Ordering.{nat_cmp};
ghost use Rattle.std.proofs.Props.{props};
ghost use Rattle.rg_key_index.specs.Index.{start_of, bucket_in, IsPlace, IsGuessed, HasRoom, Holds};

use crate::guess::{EMPTY, SLOTS, guess_of, position_of};
use rg_bytes::Memory;
use rg_group::Key;
use std::alloc::Global;
use std::collections::BTreeMap;

/// How many guesses stand in a bucket.
const BUCKET: usize = 8;

/// How many places there are at first. It is a power of two.
const FIRST: usize = 1024;

/// An index of slots by key. A slot that was put for a key is found among the key's candidates until it is
/// removed; each key has one slot and each slot one key, which the caller sees to. Candidates are the slots of
/// the guesses in the bucket of the key's mix that have its upper bits, and the slot that overflowed. One may
/// be another key's, so who takes one compares the slot's key.
///
/// Most slots stand in a bucket and not in the overflow. One that finds its bucket full, or doesn't fit a
/// guess, stands in the overflow, so that keys that were made to fall into one bucket cost what a walk through
/// a map costs. The fields are public for the contracts of who calls it.
#[derive(Debug, Drop)]
pub struct SlotIndex {
    /// Guesses in buckets of eight: the upper eight bits of a key's mix, and its slot in 24 bits. There are
    /// a power of two of them, or none.
    pub buckets: Vec<u32>,
    /// The slots that found no place in their bucket, or don't fit a guess, by their keys.
    pub overflow: BTreeMap<Key, u32>,
    ghost ordered: { IsOrdered (slice_cmp nat_cmp) overflow } by { Prim.hlevel props },
}

impl SlotIndex {
    /// An index without places that holds nothing.
    pub fn new(alloc: Global) -> SlotIndex {
        SlotIndex {
            buckets: Vec::new(alloc),
            overflow: BTreeMap::new(alloc),
        }
    }

    /// An index that holds nothing, with two places or more for each of so many slots, all of them empty.
    pub fn with_room(alloc: Global, slots: usize) -> Result<SlotIndex, Memory>
        ensures enough { IfOk result (λ index. 2 * slots ≤ length index.buckets.items) }
        ensures empty { IfOk result (λ index. All (λ guess. guess ≡ 2 ^ 32 - 1) index.buckets.items) }
    {
        let count = match places_for(slots) {
            None => return Err(Memory),
            Some(count) => count,
        };
        let buckets = vec![in alloc; EMPTY; count]?;
        Ok(SlotIndex {
            buckets,
            overflow: BTreeMap::new(alloc),
        })
    }

    /// Whether there are two places or more for each of so many slots.
    pub fn is_enough(&self, slots: usize) -> bool
        ensures { IsTrue result ↔ (2 * slots ≤ length self.now.buckets.items) }
    {
        self.buckets.len() / 2 >= slots
    }

    /// The guesses in the bucket of a mix.
    #[inline]
    pub fn bucket(&self, mix: u64) -> &[u32]
        ensures { result.now ≡ bucket_in self.now.buckets.items mix }
    {
        let start = self.start(mix);
        match self.buckets.get(start..start.saturating_add(BUCKET)) {
            None => &[],
            Some(bucket) => bucket,
        }
    }

    /// The slot of a key that overflowed.
    pub fn overflowed(&self, key: &Key) -> Option<u32>
        ensures { result ≡ get (slice_cmp nat_cmp) self.now.overflow key.now }
    {
        if self.overflow.is_empty() {
            return None;
        }
        self.overflow.get(key).copied()
    }

    /// Holds this slot for a key from now on. What it holds for other keys stays, also where memory runs
    /// out.
    pub fn put(&mut self, alloc: Global, mix: u64, key: &Key, slot: u32) -> Result<(), Memory>
        // The slot is among the key's candidates.
        ensures held { OnOk result (Holds self.new.buckets.items self.new.overflow mix key.now slot) }
        ensures roomy { HasRoom self.old.buckets.items mix slot → IsOk result × (self.new.overflow ≡ self.old.overflow) }

        // The slots of other keys stay among theirs, also where memory runs out.
        ensures others { (m : ℕ) (k : List ℕ) (s : ℕ) → (k ≡ key.now → ⊥) → Holds self.old.buckets.items self.old.overflow m k s → Holds self.new.buckets.items self.new.overflow m k s }
    {
        if self.put_guess(mix, slot) {
            return Ok(());
        }
        self.put_overflowed(alloc, key, slot)
    }

    /// Takes a guess at the slot of a key out of the key's bucket or, where there is none, the key out of the
    /// overflow. What it holds of other slots for other keys stays.
    pub fn remove(&mut self, mix: u64, key: &Key, slot: u32)
        ensures emptied { IsGuessed self.old.buckets.items mix slot → HasRoom self.new.buckets.items mix slot }
        ensures gone { (IsGuessed self.old.buckets.items mix slot → ⊥) → get (slice_cmp nat_cmp) self.new.overflow key.now ≡ None }

        // The other slots of other keys stay among theirs.
        ensures others { (m : ℕ) (k : List ℕ) (s : ℕ) → (k ≡ key.now → ⊥) → (s ≡ slot → ⊥) → Holds self.old.buckets.items self.old.overflow m k s → Holds self.new.buckets.items self.new.overflow m k s }
    {
        if self.remove_guess(mix, slot) {
            return;
        }
        let _ = self.overflow.remove(key);
    }

    /// Puts a guess at this slot into an empty place of its bucket. It answers whether it did.
    fn put_guess(&mut self, mix: u64, slot: u32) -> bool
        ensures held { IsTrue result → IsGuessed self.new.buckets.items mix slot }
        ensures full { result ≡ false → HasRoom self.old.buckets.items mix slot → ⊥ }
        ensures others { (m : ℕ) (s : ℕ) → IsGuessed self.old.buckets.items m s → IsGuessed self.new.buckets.items m s }
        ensures overflow { self.new.overflow ≡ self.old.overflow }
    {
        if slot >= SLOTS {
            return false;
        }
        let place = match self.place_of(mix, EMPTY) {
            None => return false,
            Some(place) => place,
        };
        self.buckets[place] = guess_of(mix, slot);
        true
    }

    /// Empties the place in its bucket that has the guess at this slot. It answers whether there was one.
    fn remove_guess(&mut self, mix: u64, slot: u32) -> bool
        ensures was { IsTrue result ↔ IsGuessed self.old.buckets.items mix slot }
        ensures emptied { IsTrue result → HasRoom self.new.buckets.items mix slot }
        ensures others { (m : ℕ) (s : ℕ) → (s ≡ slot → ⊥) → IsGuessed self.old.buckets.items m s → IsGuessed self.new.buckets.items m s }
        ensures overflow { self.new.overflow ≡ self.old.overflow }
    {
        if slot >= SLOTS {
            return false;
        }
        let place = match self.place_of(mix, guess_of(mix, slot)) {
            None => return false,
            Some(place) => place,
        };
        self.buckets[place] = EMPTY;
        true
    }

    /// Puts the slot of a key into the overflow.
    fn put_overflowed(&mut self, alloc: Global, key: &Key, slot: u32) -> Result<(), Memory>
        ensures held { OnOk result (get (slice_cmp nat_cmp) self.new.overflow key.now ≡ Some slot) }
        ensures others { (k : List ℕ) → (k ≡ key.now → ⊥) → get (slice_cmp nat_cmp) self.new.overflow k ≡ get (slice_cmp nat_cmp) self.old.overflow k }
        ensures buckets { self.new.buckets.items ≡ self.old.buckets.items }
    {
        let copy = key.copy(alloc)?;
        self.overflow.insert(copy, slot)?;
        Ok(())
    }

    /// A place in the bucket of a mix at which this guess stands.
    fn place_of(&self, mix: u64, guess: u32) -> Option<usize>
        ensures none { IfNone result (Contains (bucket_in self.now.buckets.items mix) guess → ⊥) }
        ensures found { IfSome result (λ place. IsPlace self.now.buckets.items mix guess place) }
    {
        match position_of(self.bucket(mix), guess) {
            None => None,
            Some(position) => Some(self.start(mix) + position),
        }
    }

    /// Where the bucket of a mix starts.
    #[tactic(auto, unfolding(crate::specs::Index::start_of))]
    fn start(&self, mix: u64) -> usize
        ensures { result ≡ start_of (length self.now.buckets.items) mix }
    {
        let last = self.buckets.len().saturating_sub(1);
        mix as usize & last & !(BUCKET - 1)
    }
}

/// How many places there are for so many slots: a power of two, and two or more for each of them.
fn places_for(slots: usize) -> Option<usize>
    ensures { IfSome result (λ places. 2 * slots ≤ places) }
{
    let wanted = slots.checked_mul(2)?;
    wanted.max(FIRST).checked_next_power_of_two()
}
