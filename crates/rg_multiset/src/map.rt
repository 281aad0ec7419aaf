ghost use Rattle.std.specs.Prelude.{◌≡◌, ◌+◌, ◌-◌, ◌<◌, ◌^◌, ◌==◌, true, false, Some, None, [], ◌∷◌, ◌++◌, IsTrue, IfOk, OnOk, OnErr, IsErr};
ghost use Rattle.std.specs.BTreeMap.{get, IsOrdered};
ghost use Rattle.rg_agg.specs.Held.{pairs_bytes};
ghost use Rattle.rg_agg.specs.Standing.{counts_sum, count_in};
ghost use Rattle.rg_bytes.specs.Keeps.{Keeps};
ghost use Rattle.rg_event.specs.Tagged.{tag_of, value_kind};
ghost use Rattle.rg_event.specs.declared.value.Kind.{Kind as KindValue};
ghost use Rattle.rg_multiset.specs.Pairs.{pairs_by, OneMore, AreOf, AreAlike, Raises};
ghost use Rattle.rg_multiset.specs.Reading.{last_kept, comes_behind};

use crate::ranked::Ranked;
use rg_bytes::{Memory, put_u64};
use rg_event::Kind;
use std::alloc::Global;
use std::collections::BTreeMap;

/// Counts a key once more. Where memory runs out the map is as before; it takes none for a key that is there.
pub(crate) fn add_in<K: Ranked>(
    alloc: Global,
    map: &mut BTreeMap<K, u64>,
    key: &K,
) -> Result<(), Memory>
    requires { counts_sum (pairs_by K.value_of map.old.entries) < 2 ^ 40 }
    ensures ok { OnOk result (OneMore (K.value_of key.now) (pairs_by K.value_of map.old.entries) (pairs_by K.value_of map.new.entries)) }
    ensures kept { OnOk result (K.legal (K.value_of key.now) → AreOf K.legal (value_kind (K.value_of key.now)) (pairs_by K.value_of map.old.entries) → AreOf K.legal (value_kind (K.value_of key.now)) (pairs_by K.value_of map.new.entries)) }
    ensures err { OnErr result (map.new.entries ≡ map.old.entries) }
    ensures memory { IsErr result → count_in (K.value_of key.now) (pairs_by K.value_of map.old.entries) ≡ 0 }
    ensures ordered { IsOrdered K.cmp map.new }
{
    if raise(map, key) {
        return Ok(());
    }
    let copy = match key.copy(alloc) {
        Ok(copy) => copy,
        Err(memory) => return Err(memory),
    };
    begin(map, copy)
}

/// Counts a key once more where it is there; else it answers false, and the map is as before.
fn raise<K: Ranked>(map: &mut BTreeMap<K, u64>, key: &K) -> bool
    requires { counts_sum (pairs_by K.value_of map.old.entries) < 2 ^ 40 }
    ensures { Raises K.cmp K.value_of K.legal key.now map.old map.new result }
{
    match map.get_mut(key) {
        Some(count) => {
            *count += 1;
            true
        }
        None => false,
    }
}

/// Counts a key that isn't there once. Where memory runs out the map is as before.
fn begin<K: Ranked>(map: &mut BTreeMap<K, u64>, key: K) -> Result<(), Memory>
    requires { get K.cmp map.old key ≡ None }
    ensures ok { OnOk result (OneMore (K.value_of key) (pairs_by K.value_of map.old.entries) (pairs_by K.value_of map.new.entries)) }
    ensures kept { OnOk result (K.legal (K.value_of key) → AreOf K.legal (value_kind (K.value_of key)) (pairs_by K.value_of map.old.entries) → AreOf K.legal (value_kind (K.value_of key)) (pairs_by K.value_of map.new.entries)) }
    ensures err { OnErr result (map.new.entries ≡ map.old.entries) }
    ensures ordered { IsOrdered K.cmp map.new }
{
    map.insert(key, 1)?;
    Ok(())
}

/// Counts a key once less where it is there, and drops it at none; else it answers false, and the map is as before.
pub(crate) fn remove_in<K: Ranked>(map: &mut BTreeMap<K, u64>, key: &K) -> bool
    requires { AreAlike K.legal (pairs_by K.value_of map.old.entries) }
    ensures there { IsTrue result → OneMore (K.value_of key.now) (pairs_by K.value_of map.new.entries) (pairs_by K.value_of map.old.entries) }
    ensures kept { (kind : KindValue) → AreOf K.legal kind (pairs_by K.value_of map.old.entries) → AreOf K.legal kind (pairs_by K.value_of map.new.entries) }
    ensures none { result ≡ false → count_in (K.value_of key.now) (pairs_by K.value_of map.old.entries) ≡ 0 }
    ensures same { result ≡ false → map.new.entries ≡ map.old.entries }
    ensures ordered { IsOrdered K.cmp map.new }
{
    let is_last = match map.get_mut(key) {
        Some(count) => lower(count),
        None => return false,
    };
    if is_last {
        map.remove(key);
    }
    true
}

/// Lowers a count above 1; a count of 1 stays, and it answers true.
fn lower(count: &mut u64) -> bool
    requires { 0 < count.old }
    ensures last { IsTrue result → (count.old ≡ 1) × (count.new ≡ count.old) }
    ensures more { result ≡ false → (1 < count.old) × (count.new ≡ count.old - 1) }
{
    if *count == 1 {
        return true;
    }
    *count -= 1;
    false
}

/// Whether a value may stand behind those of a map: it is of their kind and above the last one.
pub(crate) fn is_behind<K: Ranked>(map: &BTreeMap<K, u64>, key: &K) -> bool
    requires alike { AreAlike K.legal (pairs_by K.value_of map.now.entries) }
    requires legal { K.legal (K.value_of key.now) }
    ensures { result ≡ comes_behind K.below (last_kept (pairs_by K.value_of map.now.entries)) (K.value_of key.now) }
{
    match map.last_key_value() {
        Some((last, _)) => is_same(last.kind(), key.kind()) && last.cmp(key).is_lt(),
        None => true,
    }
}

fn is_same(first: Kind, second: Kind) -> bool
    ensures { result ≡ (tag_of first == tag_of second) }
{
    first == second
}

/// Puts a key behind the others. Where memory runs out the map is as before.
pub(crate) fn push_in<K: Ranked>(
    map: &mut BTreeMap<K, u64>,
    key: K,
    count: u64,
) -> Result<(), Memory>
    requires alike { AreAlike K.legal (pairs_by K.value_of map.old.entries) }
    requires legal { K.legal (K.value_of key) }
    requires behind { comes_behind K.below (last_kept (pairs_by K.value_of map.old.entries)) (K.value_of key) ≡ true }
    ensures ok { OnOk result (map.new.entries ≡ map.old.entries ++ (key, count) ∷ []) }
    ensures err { OnErr result (map.new.entries ≡ map.old.entries) }
    ensures ordered { IsOrdered K.cmp map.new }
{
    map.insert(key, count)?;
    Ok(())
}

/// A copy of the map: each key with its count.
pub(crate) fn copy_in<K: Ranked>(
    alloc: Global,
    map: &BTreeMap<K, u64>,
) -> Result<BTreeMap<K, u64>, Memory>
    ensures { IfOk result (λ copies. copies.entries ≡ map.now.entries) }
{
    let mut copies = BTreeMap::new(alloc);
    for (key, count) in map.iter() {
        let copy = key.copy(alloc)?;
        copies.insert(copy, *count)?;
    }
    Ok(copies)
}

/// Writes each value and its count at the end. Where memory runs out a front of it may stand there.
pub(crate) fn put_each<K: Ranked>(map: &BTreeMap<K, u64>, out: &mut Vec<u8>) -> Result<(), Memory>
    ensures ok { OnOk result (out.new.items ≡ out.old.items ++ pairs_bytes (pairs_by K.value_of map.now.entries)) }
    ensures err { OnErr result (Keeps out.old.items out.new.items) }
{
    for (key, count) in map.iter() {
        key.put(out)?;
        put_u64(out, *count)?;
    }
    Ok(())
}
