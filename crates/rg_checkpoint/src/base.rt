ghost use Rattle.std.specs.Prelude.{◌≡◌};
ghost use Rattle.rg_state.specs.Rows.{AreRising};
ghost use Rattle.rg_checkpoint.specs.Entries.{entries_of, AreFilled};

use rg_event::Texts;
use rg_past::Spots;
use rg_state::{AggState, Key};
use std::marker::Model;

/// The state of an aggregator for a key.
#[derive(Debug, Drop)]
pub struct Row {
    /// The aggregator's number in the task plan.
    pub node: u32,
    /// The group's key.
    pub key: Key,
    /// The state.
    pub state: AggState,
}

/// A list of rows that rise by node and key, and of which none is empty. A contract sees them as the
/// rows of a table.
#[derive(Debug, Drop)]
pub struct Rows {
    list: Vec<Row>,
}

impl Model for Rows {
    ghost use Rattle.std.specs.Prelude.{List};
    ghost use Rattle.rg_state.specs.Rows.{Entry, AreRising};
    ghost use Rattle.rg_checkpoint.specs.Entries.{entries_of, AreFilled};

    ghost Value = { List Entry };

    ghost view = { λ r. entries_of r.list.items };

    ghost invariant = { λ r. AreRising (entries_of r.list.items) × AreFilled (entries_of r.list.items) };
}

impl Rows {
    /// The rows of a `Vec`, in the same memory.
    pub fn new(list: Vec<Row>) -> Rows
        requires rising { AreRising (entries_of list.items) }
        requires filled { AreFilled (entries_of list.items) }
        ensures rows { result ≡ entries_of list.items }
    {
        Rows { list }
    }

    pub fn as_slice(&self) -> &[Row]
        ensures rows { entries_of result.now ≡ self.now }
        ensures rising { AreRising self.now }
        ensures filled { AreFilled self.now }
    {
        &self.list
    }

    /// The rows as a `Vec`, in the same memory.
    pub fn into_vec(self) -> Vec<Row>
        ensures rows { entries_of result.items ≡ self }
        ensures rising { AreRising self }
        ensures filled { AreFilled self }
    {
        self.list
    }
}

/// What an engine has after some events: its queries, where its edges stand, and its rows.
#[derive(Debug, Drop)]
pub struct Checkpoint {
    /// The printed texts of the queries, in order.
    pub queries: Texts,
    /// How many events it is of.
    pub count: u64,
    /// A spot for each offset, by rising offset.
    pub spots: Spots,
    /// The rows, rising by node and key.
    pub rows: Rows,
}
