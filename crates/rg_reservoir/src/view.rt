ghost use Rattle.std.specs.Prelude.{◌≡◌, ◌++◌, ◌∷◌, [], OnOk, option_copied};
ghost use Rattle.rg_reservoir.specs.Views.{before, grown_at, passed};

use crate::growing::Growing;
use rg_bytes::Memory;
use rg_chunk::Chunk;
use rg_event::Schema;
use std::alloc::Global;
use std::marker::Model;

/// The growths in a log, by rising place.
#[derive(Drop)]
pub struct Growths {
    list: Vec<Growing>,
}

impl Model for Growths {
    ghost use Rattle.std.specs.Prelude.{List};
    ghost use Rattle.rg_reservoir.specs.declared.growing.Growing.{Growing as TheGrowing};

    ghost Value = { List TheGrowing };

    ghost view = { λ g. g.list.items };
}

impl Growths {
    /// Those of a log without one.
    pub fn new(alloc: Global) -> Growths
        ensures { result ≡ [] }
    {
        Growths {
            list: Vec::new(alloc),
        }
    }

    /// Adds one that stands behind the others.
    pub fn push(&mut self, growing: Growing) -> Result<(), Memory>
        ensures { OnOk result (self.new ≡ self.old ++ growing ∷ []) }
    {
        self.list.push(growing)?;
        Ok(())
    }

    /// The schema that the first growth at or behind a place found in force. None comes where no growth stands there.
    pub fn before(&self, place: u64) -> Option<&Schema>
        ensures { option_copied result ≡ before self.now place }
    {
        for growing in &self.list {
            if place <= growing.place {
                return Some(&growing.from);
            }
        }
        None
    }

    /// Puts the values of each growth at or behind a place behind those of the events of the chunk there. An error may
    /// leave it begun.
    pub fn extend(&self, place: u64, chunk: &mut Chunk) -> Result<(), Memory>
        ensures { OnOk result (chunk.new ≡ grown_at self.now place chunk.old) }
    {
        for growing in &self.list {
            if place <= growing.place {
                chunk.extend(&growing.values)?;
            }
        }
        Ok(())
    }

    /// The place behind the growths that stand at a place, one after another.
    pub fn passed(&self, place: u64) -> u64
        ensures { result ≡ passed self.now place }
    {
        let mut at = place;
        for growing in &self.list {
            if growing.place == at {
                at = growing.next;
            }
        }
        at
    }
}
