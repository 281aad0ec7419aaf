//! A bounded cache of closed chunks by their places in the log.
//!
//! A caller touches a place, or puts an item at one. The places held are then those touched most recently, at most as
//! many as the cache was made for, and each keeps its item. What stands on the disk, and whether a cached item is
//! still what stands there, is the caller's to know.
#![tactic(auto)]

ghost use Rattle.std.specs.Prelude.{◌≡◌, ◌≢◌, ◌⊎◌, ◌≤◌, ◌++◌, [], ◌∷◌, reverse, length, slice_get, option_copied, IfOk, IfErr, IfSome, IfNone, OnOk, OnErr, Some, None, ℕ, List, false};
ghost use Rattle.std.specs.Borrow.{sem};
ghost use Rattle.rg_cache.specs.Cache.{least_recently_used, cache, places, item_at, holds_place, touches, touched};

use lru::LruCache;
use rg_bytes::Memory;
use std::alloc::{AllocFailed, Global};
use std::marker::Model;
use std::num::NonZeroUsize;

/// Items by their places: a full cache drops the one whose last touch is the longest ago.
#[derive(Drop)]
pub struct ChunkCache<T> {
    chunks: LruCache<u64, T>,
}

impl<T> Model for ChunkCache<T> {
    ghost use Rattle.std.specs.Prelude.{◌≤◌, nat_eq};
    ghost use Rattle.lru.specs.LruCache.{IsValid};
    ghost use Rattle.rg_cache.specs.Cache.{Cache, cache, cache_code};

    ghost Value = { Cache T };

    ghost coded = { cache_code T.code };

    ghost view = { λ c. cache c.chunks.entries c.chunks.cap };

    ghost invariant = { λ c. IsValid nat_eq c.chunks × (c.chunks.cap ≤ 1024) };
}

impl<T> ChunkCache<T> {
    ghost use Rattle.rg_cache.specs.Ends.{ends_touched};

    /// An empty cache of room for `cap` items, 1 to 1,024.
    pub fn new(alloc: Global, cap: u32) -> Result<ChunkCache<T>, Memory>
        requires some { 1 ≤ cap }
        requires few { cap ≤ 1024 }
        ensures { IfOk result (λ c. c ≡ cache [] cap) }
    {
        let cap = NonZeroUsize::new(cap as usize).unwrap();
        match LruCache::new(alloc, cap) {
            Ok(chunks) => Ok(ChunkCache { chunks }),
            Err(_) => Err(Memory),
        }
    }

    /// The item at a place, which is moved to the first position. `None` exactly where the place is not held; the
    /// cache stays. Takes no memory.
    pub fn touch(&mut self, place: u64) -> Option<&T>
        // The place is first afterwards, where it is held, and its item is lent.
        ensures* touches { sem 𝓛 (ends_touched T.row self.entry place) }
        ensures item { option_copied result ≡ item_at place self.old }
    {
        self.promote(place);
        self.get(place)
    }

    /// Touches a place without a look at its item, and says whether it was held. Takes no memory, and no hash where the
    /// place is in the first position already.
    pub fn promote(&mut self, place: u64) -> bool
        ensures held { result ≡ holds_place place self.old }

        // The places held are those touched, the most recent first, at most so many.
        ensures places { places self.new ≡ least_recently_used self.old.cap (touches self.old (touched place self.old)) }

        // Each item stays with its place, and a miss changes nothing.
        ensures items { (other : ℕ) → item_at other self.new ≡ item_at other self.old }
        ensures cap { self.new.cap ≡ self.old.cap }
        ensures missed { result ≡ false → self.new ≡ self.old }
    {
        if self.first(place).is_some() {
            return true;
        }
        self.chunks.promote(&place)
    }

    /// Puts an item at a place that isn't held, in the first position. A full cache drops its last item. Where memory
    /// runs out, the cache stays and the item comes back.
    pub fn put(&mut self, place: u64, item: T) -> Result<(), (T, Memory)>
    where
        T: Drop,
        requires absent { item_at place self.old ≡ None }
        // The place is first; a full cache drops the one whose last touch is the longest ago.
        ensures places { OnOk result (places self.new ≡ least_recently_used self.old.cap (touches self.old (place ∷ []))) }
        ensures item { OnOk result (item_at place self.new ≡ Some item) }

        // What else is held was held before, with the same item.
        ensures others { OnOk result ((other : ℕ) (x : T) → item_at other self.new ≡ Some x →
            ((other ≡ place) × (x ≡ item)) ⊎ (item_at other self.old ≡ Some x)) }
        ensures cap { self.new.cap ≡ self.old.cap }
        ensures handed_back { IfErr result (λ e. e.0 ≡ item) }
        ensures unchanged { OnErr result (self.new ≡ self.old) }
    {
        match self.chunks.put(place, item) {
            Ok(_) => Ok(()),
            Err(failed) => {
                let AllocFailed { value } = failed;
                let (_, item) = value;
                Err((item, Memory))
            }
        }
    }

    /// The item at a place, where it is held. It moves nothing, and takes no hash where the place is in the first
    /// position.
    pub fn get(&self, place: u64) -> Option<&T>
        ensures { option_copied result ≡ item_at place self.now }
    {
        match self.first(place) {
            Some(item) => Some(item),
            None => self.chunks.peek(&place),
        }
    }

    /// The item at a place, where that is in the first position: a touch of the place then moves nothing. It takes no
    /// hash.
    pub fn first(&self, place: u64) -> Option<&T>
        // An item is lent exactly where its place is the first one.
        ensures place { IfSome result (λ _. slice_get (places self.now) 0 ≡ Some place) }
        ensures item { IfSome result (λ item. item_at place self.now ≡ Some item.now) }
        ensures none { IfNone result (slice_get (places self.now) 0 ≢ Some place) }
        ensures stays { IfSome result (λ _. places self.now ≡ least_recently_used self.now.cap (touches self.now (place ∷ []))) }
    {
        match self.chunks.peek_mru() {
            Some((first, item)) if *first == place => Some(item),
            _ => None,
        }
    }

    /// Whether a place is held. It moves nothing.
    pub fn holds(&self, place: u64) -> bool
        ensures { result ≡ holds_place place self.now }
    {
        self.chunks.contains(&place)
    }

    /// How many places are held, at most `cap`.
    pub fn held(&self) -> u32
        ensures held { result ≡ length (places self.now) }
        ensures within { result ≤ self.now.cap }

        // Without a touch the places stay.
        ensures untouched { least_recently_used self.now.cap (touches self.now []) ≡ places self.now }
    {
        self.chunks.len() as u32
    }

    /// How many places may be held, 1 to 1,024.
    pub fn cap(&self) -> u32
        ensures cap { result ≡ self.now.cap }
        ensures some { 1 ≤ result }
        ensures few { result ≤ 1024 }
    {
        self.chunks.cap().get() as u32
    }
}

/// The places after several touches are those after the first ones, touched further.
pub fn law_touches()
    ensures { (cap : ℕ) (first more : List ℕ) →
        least_recently_used cap (reverse (least_recently_used cap first) ++ more) ≡ least_recently_used cap (first ++ more) }
{}
