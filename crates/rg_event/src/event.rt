ghost use Rattle.std.specs.Prelude.{◌≡◌, IfOk};

use crate::value::Values;
use rg_bytes::Memory;
use std::alloc::Global;

/// A payment as it was accepted.
#[derive(Debug, Drop)]
pub struct Event {
    /// The offset of its line in the input, below 2^62.
    pub offset: u64,
    /// Its time in milliseconds, from 0 to 10^15.
    pub time: u64,
    /// Its values, one for each column.
    pub values: Values,
}

impl Event {
    /// An event with the same offset, time and values.
    pub fn copy(&self, alloc: Global) -> Result<Event, Memory>
        ensures { IfOk result (λ event. event ≡ self.now) }
    {
        Ok(Event {
            offset: self.offset,
            time: self.time,
            values: self.values.copy(alloc)?,
        })
    }
}
