ghost use Rattle.std.specs.Prelude.{◌≡◌, ◌<◌, ◌↔◌, IsTrue};
ghost use Rattle.rg_reservoir.specs.Last.{IsLast};

use crate::kept::Kept;
use rg_cache::ChunkCache;
use rg_past::Spot;

/// The chunk that was touched last: its place, and how many events are in it.
#[derive(Clone, Copy, Debug)]
pub struct Last {
    pub place: u64,
    pub count: u32,
}

impl Last {
    /// The chunk at a place, where that was touched last.
    pub fn of(cache: &ChunkCache<Kept>, place: u64) -> Option<Last>
        ensures { IsLast cache.now result }
    {
        match cache.first(place) {
            Some(kept) => Some(Last {
                place,
                count: kept.chunk.count(),
            }),
            None => None,
        }
    }

    /// Whether a spot is that of an event of this chunk.
    pub fn has(&self, spot: &Spot) -> bool
        ensures { IsTrue result ↔ ((spot.now.place ≡ self.now.place) × (spot.now.index < self.now.count)) }
    {
        spot.place == self.place && spot.index < self.count
    }
}
