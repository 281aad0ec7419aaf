ghost use Rattle.std.specs.Prelude.{◌≤◌};

use crate::row::{Does, ROW, Row, assert_rows};
use rg_bytes::Memory;
use rg_cache::ChunkCache;
use std::alloc::Global;
use std::test::Fail;

/// What is done to a cache of numbers by their places, or what it says.
#[derive(Clone, Copy)]
pub(crate) enum Step {
    /// A number is put at a place, where none is held.
    Put(u64, u64),
    /// Whether a place is held.
    Holds(u64, bool),
    /// What is held there.
    Gets(u64, Option<u64>),
    /// The same, and it was touched.
    Touches(u64, Option<u64>),
    /// Whether a place is held, and it was touched then.
    Promotes(u64, bool),
    /// What is held at a place where that was touched last.
    First(u64, Option<u64>),
    /// How many are held.
    Held(u32),
    /// For how many there is room.
    Cap(u32),
}

fn puts(cache: &mut ChunkCache<u64>, place: u64, item: u64) -> bool {
    if cache.holds(place) {
        return false;
    }
    cache.put(place, item).is_ok()
}

/// Whether a step goes so.
fn goes(cache: &mut ChunkCache<u64>, step: &Step) -> bool {
    match step {
        Step::Put(place, item) => puts(cache, *place, *item),
        Step::Holds(place, is_held) => cache.holds(*place) == *is_held,
        Step::Gets(place, item) => cache.get(*place).copied() == *item,
        Step::Touches(place, item) => cache.touch(*place).copied() == *item,
        Step::Promotes(place, is_held) => cache.promote(*place) == *is_held,
        Step::First(place, item) => cache.first(*place).copied() == *item,
        Step::Held(count) => cache.held() == *count,
        Step::Cap(count) => cache.cap() == *count,
    }
}

fn first_of(cache: &mut ChunkCache<u64>, steps: &[Step]) -> Option<usize> {
    let mut number = 0usize;
    for step in steps {
        if !goes(cache, step) {
            return Some(number);
        }
        number = number.saturating_add(1);
    }
    None
}

/// The number of the first step that goes otherwise, if one does, of a cache with room for 1 to 1,024.
pub(crate) fn wrong_in(alloc: Global, cap: u32, steps: &[Step]) -> Result<Option<usize>, Memory> {
    if cap == 0 || cap > 1024 {
        return Err(Memory);
    }
    let mut cache = ChunkCache::new(alloc, cap)?;
    let wrong = first_of(&mut cache, steps);
    drop(cache);
    Ok(wrong)
}

/// A cache of one, and a cache of two.
const CACHES: &[Row<'_>] = &[
    // Of one it holds the last place.
    Row {
        does: Does::Caches(
            1,
            &[
                Step::Put(13, 130),
                Step::Put(50, 500),
                Step::Cap(1),
                Step::Held(1),
                Step::Gets(50, Some(500)),
                Step::Holds(13, false),
                Step::Touches(50, Some(500)),
                Step::Touches(13, None),
                Step::Promotes(13, false),
                Step::First(50, Some(500)),
                Step::First(13, None),
                Step::Held(1),
            ],
        ),
        ..ROW
    },
    // Of two it drops the one that was touched longest ago, twice.
    Row {
        does: Does::Caches(
            2,
            &[
                Step::Put(13, 130),
                Step::Put(50, 500),
                Step::First(50, Some(500)),
                Step::Touches(13, Some(130)),
                Step::First(50, None),
                Step::First(13, Some(130)),
                Step::Put(90, 900),
                Step::Holds(50, false),
                Step::Holds(90, true),
                Step::Promotes(13, true),
                Step::Put(50, 501),
                Step::Gets(13, Some(130)),
                Step::Gets(50, Some(501)),
                Step::Holds(90, false),
                Step::Held(2),
            ],
        ),
        ..ROW
    },
];

#[test]
fn a_cache_drops_the_place_touched_longest_ago(rt: HostRuntime) -> Result<(), Fail> {
    assert_rows(&rt, CACHES)
}
