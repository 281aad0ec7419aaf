ghost use Rattle.std.specs.Prelude.{◌≤◌};

use rg_event::{Schema, Values};

/// A growth in the log: where its frame stands and where it ends, the schema that was in force before it, and the values
/// that it puts behind those of each event in front of it.
#[derive(Drop)]
pub struct Growing {
    pub place: u64,
    pub next: u64,
    pub from: Schema,
    pub values: Values,
    ghost behind: { place ≤ next },
}
