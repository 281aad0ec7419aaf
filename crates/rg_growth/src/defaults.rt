ghost use Rattle.std.specs.Prelude.{◌≡◌, [], ◌∷◌, ◌++◌, OnOk, OnErr, IfOk};
ghost use Rattle.rg_growth.specs.Growing.{AreDefaultsOf, no_defaults};

use rg_bytes::Memory;
use rg_event::{Field, Value};
use std::alloc::Global;
use std::marker::Model;

/// For each column past the time, what stands for its value in the events that came before the column, if something
/// does.
#[derive(Debug, Drop)]
pub struct Defaults {
    list: Vec<Option<Value>>,
}

impl Model for Defaults {
    ghost use Rattle.std.specs.Prelude.{List, Option};
    ghost use Rattle.rg_event.specs.declared.value.Value.{Value as TheValue};

    ghost Value = { List (Option TheValue) };

    ghost view = { λ d. d.list.items };
}

impl From<Vec<Option<Value>>> for Defaults {
    ghost use Rattle.std.specs.Prelude.{◌≡◌};

    ghost from_gives = { λ list defaults. defaults ≡ list.items };

    fn from(list: Vec<Option<Value>>) -> Defaults {
        Defaults { list }
    }
}

impl Defaults {
    /// Those of no column.
    pub fn new(alloc: Global) -> Defaults
        ensures { result ≡ [] }
    {
        Defaults {
            list: Vec::new(alloc),
        }
    }

    /// None for any of these columns.
    pub fn none(alloc: Global, fields: &[Field]) -> Result<Defaults, Memory>
        ensures none { IfOk result (λ defaults. defaults ≡ no_defaults fields.now) }
        ensures of { IfOk result (AreDefaultsOf fields.now) }
    {
        let mut defaults = Defaults::new(alloc);
        for _field in fields {
            defaults.push(None)?;
        }
        Ok(defaults)
    }

    /// Adds that of one more column.
    pub fn push(&mut self, default: Option<Value>) -> Result<(), Memory>
        ensures ok { OnOk result (self.new ≡ self.old ++ default ∷ []) }
        ensures err { OnErr result (self.new ≡ self.old) }
    {
        self.list.push(default)?;
        Ok(())
    }

    /// An equal list.
    pub fn copy(&self, alloc: Global) -> Result<Defaults, Memory>
        ensures { IfOk result (λ defaults. defaults ≡ self.now) }
    {
        let mut list = Vec::with_capacity(alloc, self.list.len())?;
        for default in &self.list {
            list.push(copied(alloc, default)?)?;
        }
        Ok(Defaults { list })
    }

    pub fn as_slice(&self) -> &[Option<Value>]
        ensures { result.now ≡ self.now }
    {
        &self.list
    }

    /// The list alone. It takes no memory.
    pub fn into_vec(self) -> Vec<Option<Value>>
        ensures { result.items ≡ self }
    {
        self.list
    }
}

/// A default that is equal.
fn copied(alloc: Global, default: &Option<Value>) -> Result<Option<Value>, Memory>
    ensures { IfOk result (λ copy. copy ≡ default.now) }
{
    match default {
        Some(value) => Ok(Some(value.copy(alloc)?)),
        None => Ok(None),
    }
}
