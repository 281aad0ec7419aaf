ghost use Rattle.std.specs.Prelude.{◌≡◌, ◌≢◌, [], ◌∷◌, ◌++◌, List, ℕ, None, length, IfOk, OnOk};
ghost use Rattle.std.specs.BTreeMap.{get};
ghost use Rattle.std.specs.Cmp.Lexicographic.{slice_cmp};
ghost use Rattle.std.specs.Ordering.{nat_cmp};
ghost use Rattle.rg_event.specs.declared.event.Event.{Event as TheEvent};
ghost use Rattle.rg_event.specs.declared.value.Value.{Value as TheValue};
ghost use Rattle.rg_row_audit.specs.Gathering.{node_of, Holds, IsGathered, AreGathered};

use crate::asking::Asking;
use crate::counting::{counts, handed, key_of};
use crate::gathered::Gathered;
use rg_bytes::Memory;
use rg_event::{Event, Value};
use rg_group::Key;
use rg_metric::Func;
use std::alloc::Global;
use std::collections::BTreeMap;

/// The values of a node at this time, by key: of each of these events that is in its window then and
/// meets its condition. It takes a state for each key.
pub(crate) fn gather(
    alloc: Global,
    asking: &Asking<'_>,
    time: u64,
    events: &[Event],
) -> Result<BTreeMap<Key, Gathered>, Memory>
    ensures { IfOk result (AreGathered (node_of asking.now) time events.now) }
{
    let mut map = BTreeMap::new(alloc);
    'events: for event in events {
        gather_event(alloc, &mut map, asking, time, event)?;
    }
    Ok(map)
}

/// Gathers one event more.
fn gather_event(
    alloc: Global,
    map: &mut BTreeMap<Key, Gathered>,
    asking: &Asking<'_>,
    time: u64,
    event: &Event,
) -> Result<(), Memory>
    ensures { OnOk result ((front : List TheEvent) → AreGathered (node_of asking.now) time front map.old → AreGathered (node_of asking.now) time (front ++ event.now ∷ []) map.new) }
{
    if !counts(asking, time, event) {
        return Ok(());
    }
    let flag = Value::Flag(true);
    let value = match handed(asking.agg.field, event, &flag) {
        None => return Ok(()),
        Some(value) => value,
    };
    let key = key_of(alloc, asking.columns, event)?;
    put_value(alloc, map, asking.agg.func, key, value)?;
    Ok(())
}

/// Puts a value behind those of a key.
fn put_value(
    alloc: Global,
    map: &mut BTreeMap<Key, Gathered>,
    func: Func,
    key: Key,
    value: &Value,
) -> Result<(), Memory>
    ensures at { OnOk result ((values : List TheValue) → IsGathered func (get (slice_cmp nat_cmp) map.old key) values → IsGathered func (get (slice_cmp nat_cmp) map.new key) (values ++ value.now ∷ [])) }
    ensures others { OnOk result ((other : List ℕ) → other ≢ key → get (slice_cmp nat_cmp) map.new other ≡ get (slice_cmp nat_cmp) map.old other) }
{
    let mut gathered = take_key(alloc, map, func, &key)?;
    gathered.add(value)?;
    map.insert(key, gathered)?;
    Ok(())
}

/// What was gathered for a key, which then has nothing.
fn take_key(
    alloc: Global,
    map: &mut BTreeMap<Key, Gathered>,
    func: Func,
    key: &Key,
) -> Result<Gathered, Memory>
    ensures held { (values : List TheValue) → IsGathered func (get (slice_cmp nat_cmp) map.old key.now) values → IfOk result (λ gathered. Holds func gathered values) }
    ensures others { (other : List ℕ) → other ≢ key.now → get (slice_cmp nat_cmp) map.new other ≡ get (slice_cmp nat_cmp) map.old other }
{
    match map.remove(key) {
        Some(gathered) => Ok(gathered),
        None => Gathered::new(alloc, func),
    }
}
