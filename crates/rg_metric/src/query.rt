ghost use Rattle.std.specs.Prelude.{◌≡◌, [], ◌∷◌, ◌++◌, OnOk, OnErr, IfOk};
ghost use Rattle.rg_metric.specs.Queries.{asked};

use crate::condition::Condition;
use rg_bytes::Memory;
use rg_keywords::Func;
use std::alloc::Global;
use std::marker::Model;

/// The window of a query, which ends at the event that is answered, or some time before it.
#[derive(Clone, Copy, Debug, PartialEq, Eq, Hash)]
pub struct Window {
    /// How old an event is when it enters, in milliseconds, from 0 to 10^15.
    pub delay: u64,
    /// How long it stays, in milliseconds, from 1 to 10^15; without end where there is none.
    pub length: Option<u64>,
}

/// One answer of a query.
#[derive(Clone, Copy, Debug, PartialEq, Eq, Hash)]
pub struct Agg {
    pub func: Func,
    /// The column that it is of, counted from 1, or 0 for a count of events.
    pub field: u32,
}

/// A list of aggregators.
#[derive(Debug, Drop)]
pub struct Aggs {
    list: Vec<Agg>,
}

impl Model for Aggs {
    ghost use Rattle.std.specs.Prelude.{List};
    ghost use Rattle.rg_metric.specs.declared.query.Agg.{Agg};

    ghost Value = { List Agg };

    ghost view = { λ a. a.list.items };
}

impl Aggs {
    /// No aggregators.
    pub fn new(alloc: Global) -> Aggs
        ensures { result ≡ [] }
    {
        Aggs {
            list: Vec::new(alloc),
        }
    }

    /// Adds an aggregator at the end.
    pub fn push(&mut self, agg: Agg) -> Result<(), Memory>
        ensures ok { OnOk result (self.new ≡ self.old ++ agg ∷ []) }
        ensures err { OnErr result (self.new ≡ self.old) }
    {
        self.list.push(agg)?;
        Ok(())
    }

    /// An equal list.
    pub fn copy(&self, alloc: Global) -> Result<Aggs, Memory>
        // A copy asks the same.
        ensures { IfOk result (λ aggs. aggs ≡ self.now) }
    {
        Ok(Aggs {
            list: Vec::from_slice(alloc, &self.list)?,
        })
    }

    pub fn as_slice(&self) -> &[Agg]
        ensures { result.now ≡ self.now }
    {
        &self.list
    }
}

/// A list of columns, each counted from 1.
#[derive(Debug, Drop)]
pub struct Columns {
    list: Vec<u32>,
}

impl Model for Columns {
    ghost use Rattle.std.specs.Prelude.{List, ℕ};

    ghost Value = { List ℕ };

    ghost view = { λ c. c.list.items };
}

impl Columns {
    /// No columns.
    pub fn new(alloc: Global) -> Columns
        ensures { result ≡ [] }
    {
        Columns {
            list: Vec::new(alloc),
        }
    }

    /// Adds a column at the end.
    pub fn push(&mut self, column: u32) -> Result<(), Memory>
        ensures ok { OnOk result (self.new ≡ self.old ++ column ∷ []) }
        ensures err { OnErr result (self.new ≡ self.old) }
    {
        self.list.push(column)?;
        Ok(())
    }

    /// An equal list.
    pub fn copy(&self, alloc: Global) -> Result<Columns, Memory>
        // A copy asks the same.
        ensures { IfOk result (λ columns. columns ≡ self.now) }
    {
        Ok(Columns {
            list: Vec::from_slice(alloc, &self.list)?,
        })
    }

    pub fn as_slice(&self) -> &[u32]
        ensures { result.now ≡ self.now }
    {
        &self.list
    }
}

/// What is asked of each event: aggregators over the events that are in a window that ends at it,
/// meet a condition and have its values in some columns.
#[derive(Debug, Drop)]
pub struct Query {
    pub aggs: Aggs,
    pub filter: Option<Condition>,
    pub group: Columns,
    pub window: Window,
}

impl Query {
    /// An equal query.
    pub fn copy(&self, alloc: Global) -> Result<Query, Memory>
        // A copy asks the same.
        ensures { IfOk result (λ copy. asked copy ≡ asked self.now) }
    {
        let filter = match &self.filter {
            None => None,
            Some(condition) => Some(condition.copy(alloc)?),
        };
        Ok(Query {
            aggs: self.aggs.copy(alloc)?,
            filter,
            group: self.group.copy(alloc)?,
            window: self.window,
        })
    }
}
