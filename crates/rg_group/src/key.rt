ghost use Rattle.std.specs.Prelude.{◌≡◌, ◌↔◌, ◌≤◌, ◌*◌, List, length, drop, IsTrue, IfOk, OnOk, slice_index_or, bytes_eq};
ghost use Rattle.std.specs.List.{fold};
ghost use Rattle.rg_event.specs.declared.event.Event.{Event};
ghost use Rattle.rg_event.specs.declared.value.Value.{Value};
ghost use Rattle.rg_metric.specs.Replies.{key_of as key_values};
ghost use Rattle.rg_metric.specs.Same.{same_values};
ghost use Rattle.std.specs.Cmp.Lexicographic.{slice_cmp};
ghost use Rattle.std.specs.Ordering.{nat_cmp};
ghost use Rattle.rg_group.specs.Heads.{packed, AreBytes};
ghost use Rattle.rg_group.specs.Mixes.{mix, with_byte, spread as spread_number};
ghost use Rattle.rg_group.specs.Keys.{key_bytes, AreStorable};

use crate::bytes::KeyBytes;
use crate::front::after_part;
use crate::parts::put_parts;
use rg_bytes::Memory;
use rg_event::Event;
use std::alloc::Global;
use std::cmp::Ordering;
use std::marker::Model;

/// What a number is spread by: 2^64 divided by the golden ratio.
const SPREAD: u64 = 0x9E37_79B9_7F4A_7C15;

/// The key of an event: its values in some columns, each tagged by its kind, one after another. A copy of
/// one of up to 16 bytes takes no memory of its own.
#[derive(Debug, Drop)]
pub struct Key {
    bytes: KeyBytes,
    /// The first eight bytes as a number: keys that differ in them are compared without a look at the
    /// bytes.
    head: u64,
    ghost headed: { head ≡ packed 8 0 bytes },
}

impl Model for Key {
    ghost use Rattle.std.specs.Prelude.{List, ℕ};

    ghost Value = { List ℕ };

    ghost view = { λ k. k.bytes };
}

/// Two keys are equal where their bytes are.
impl PartialEq for Key {
    ghost use Rattle.std.specs.Prelude.{bytes_eq};
    ghost use Rattle.std.specs.Cmp.Lexicographic.{nat_list_eq_equiv};
    ghost use Rattle.std.specs.Cmp.{partial_equiv_from_equiv};

    ghost eq = { bytes_eq };

    ghost laws = { partial_equiv_from_equiv nat_list_eq_equiv };

    fn eq(&self, other: &Key) -> bool {
        if self.head != other.head {
            return false;
        }
        let mine = self.bytes.as_slice();
        let others = other.bytes.as_slice();
        is_same(mine, others)
    }
}

impl Eq for Key {
    ghost use Rattle.std.specs.Cmp.Lexicographic.{nat_list_eq_equiv};

    ghost laws = { nat_list_eq_equiv };
}

/// Keys are ordered by their bytes.
impl PartialOrd for Key {
    ghost use Rattle.std.proofs.Common.{rules};
    ghost use Rattle.std.specs.Cmp.{partial_order_from_own_ties};
    ghost use Rattle.std.specs.Cmp.Rules.{comparing};
    ghost use Rattle.std.specs.Cmp.Lexicographic.{slice_cmp};
    ghost use Rattle.std.specs.Ordering.{nat_cmp, as_partial_cmp};

    ghost partial_cmp = { as_partial_cmp (slice_cmp nat_cmp) };

    ghost laws = { partial_order_from_own_ties (Prim.search (comparing, rules)) (Prim.search (comparing, rules)) };

    fn partial_cmp(&self, other: &Key) -> Option<Ordering> {
        Some(self.cmp(other))
    }
}

impl Ord for Key {
    ghost use Rattle.std.proofs.Common.{rules};
    ghost use Rattle.std.specs.Cmp.Rules.{comparing};
    ghost use Rattle.std.specs.Cmp.Lexicographic.{slice_cmp};
    ghost use Rattle.std.specs.Ordering.{nat_cmp};

    ghost cmp = { slice_cmp nat_cmp };

    ghost total = { Prim.search (comparing, rules) };

    ghost matches_partial_cmp = { Prim.search (comparing, rules) };

    ghost matches_eq = { Prim.search (comparing, rules) };

    fn cmp(&self, other: &Key) -> Ordering {
        let mine = self.bytes.as_slice();
        let others = other.bytes.as_slice();
        order(self.head, mine, other.head, others)
    }
}

impl From<Vec<u8>> for Key {
    ghost use Rattle.std.specs.Prelude.{◌≡◌};

    ghost from_gives = { λ bytes key. key ≡ bytes.items };

    fn from(bytes: Vec<u8>) -> Key {
        let head = head_of(&bytes);
        Key {
            bytes: KeyBytes::from_vec(bytes),
            head,
        }
    }
}

impl Key {
    /// A key with the same bytes.
    pub fn copy(&self, alloc: Global) -> Result<Key, Memory>
        ensures { IfOk result (λ key. key ≡ self.now) }
    {
        let bytes = KeyBytes::from_slice(alloc, self.as_slice())?;
        Ok(Key {
            bytes,
            head: self.head,
        })
    }

    /// Gives it the bytes of another key, in the room that it has where that is enough. Where memory runs
    /// out its bytes mean nothing.
    pub fn set_to(&mut self, other: &Key) -> Result<(), Memory>
        ensures bytes { OnOk result (self.new ≡ other.now) }
    {
        let set = self.bytes.set_to(other.as_slice());
        self.head = match &set {
            Ok(()) => other.head,
            Err(_) => head_of(self.bytes.as_slice()),
        };
        set
    }

    pub fn as_slice(&self) -> &[u8]
        ensures { result.now ≡ self.now }
    {
        self.bytes.as_slice()
    }

    /// Its first eight bytes as a number, the first of them the highest: keys that differ in them have the
    /// order of these numbers. Missing bytes count as 0.
    #[inline]
    pub fn head(&self) -> u64
        ensures { result ≡ packed 8 0 self.now }
    {
        self.head
    }

    /// A number by which to guess where something of the key stands: a function of its bytes, and the same
    /// for some other keys too, so that a guess is to be compared.
    pub fn mix(&self) -> u64
        ensures { result ≡ mix self.now }
    {
        mix_of(self.head, self.as_slice())
    }

    /// Makes it the key of this event by these columns, as `key_of` does, in the room that it has where
    /// that is enough. Where memory runs out its bytes mean nothing.
    pub fn set_of(&mut self, fields: &[u32], event: &Event) -> Result<(), Memory>
        // The key is the tagged bytes of the event's values in these columns.
        ensures bytes { OnOk result (self.new ≡ key_bytes (key_values fields.now event.now)) }
        ensures storable { OnOk result (AreStorable (key_values fields.now event.now)) }

        // The bytes of two keys are equal exactly where the values are.
        ensures exact { (vs ws : List Value) → AreStorable vs → AreStorable ws → key_bytes vs ≡ key_bytes ws → vs ≡ ws }
        ensures short { OnOk result (length self.new ≤ 257 * length fields.now) }
    {
        let put = self.bytes.put(fields, event);
        self.head = head_of(self.bytes.as_slice());
        put
    }

    /// Whether it is the key of this event by these columns, counted from 1. It takes no memory.
    pub fn is_of(&self, fields: &[u32], event: &Event) -> bool
        // It tells whether this is the event's key without making the event's.
        ensures value { IsTrue result ↔ (self.now ≡ key_bytes (key_values fields.now event.now)) }
        ensures same { (other : Event) → AreStorable (key_values fields.now other) → self.now ≡ key_bytes (key_values fields.now other) → result ≡ same_values (key_values fields.now event.now) (key_values fields.now other) }
    {
        let mut bytes = self.as_slice();
        for field in fields {
            match after_part(bytes, *field, event) {
                None => return false,
                Some(left) => bytes = left,
            }
        }
        bytes.is_empty()
    }
}

/// The key of an event by these columns, counted from 1. A column that the event lacks adds nothing.
pub fn key_of(alloc: Global, fields: &[u32], event: &Event) -> Result<Key, Memory>
    // The key is the tagged bytes of the event's values in these columns.
    ensures bytes { IfOk result (λ key. key ≡ key_bytes (key_values fields.now event.now)) }
    ensures storable { IfOk result (λ _. AreStorable (key_values fields.now event.now)) }

    // The bytes of two keys are equal exactly where the values are.
    ensures exact { (vs ws : List Value) → AreStorable vs → AreStorable ws → key_bytes vs ≡ key_bytes ws → vs ≡ ws }
    ensures short { IfOk result (λ key. length key ≤ 257 * length fields.now) }
{
    let mut bytes = Vec::new(alloc);
    put_parts(fields, event, &mut bytes)?;
    Ok(Key::from(bytes))
}

/// Whether bytes with the same head are the same. Up to eight of them are in the head, so that only more
/// are read.
fn is_same(bytes: &[u8], other: &[u8]) -> bool
    requires heads { packed 8 0 bytes.now ≡ packed 8 0 other.now }
    requires my_bytes { AreBytes bytes.now }
    requires other_bytes { AreBytes other.now }
    ensures { result ≡ bytes_eq bytes.now other.now }
{
    if bytes.len() != other.len() {
        return false;
    }
    if bytes.len() <= 8 {
        return true;
    }
    bytes == other
}

/// The head, the bytes behind it and their number, each spread over all bits.
fn mix_of(head: u64, bytes: &[u8]) -> u64
    requires { head ≡ packed 8 0 bytes.now }
    ensures { result ≡ mix bytes.now }
{
    let mixed = with_bytes(head, behind_head(bytes));
    spread(spread(mixed ^ bytes.len() as u64))
}

/// The bytes that don't stand in the head.
fn behind_head(bytes: &[u8]) -> &[u8]
    ensures { result.now ≡ drop 8 bytes.now }
{
    bytes.get(8..).unwrap_or(&[])
}

/// A number with these bytes behind it, spread over all bits one after another.
fn with_bytes(number: u64, bytes: &[u8]) -> u64
    ensures { result ≡ fold with_byte number bytes.now }
{
    let mut mixed = number;
    for byte in bytes {
        mixed = spread(mixed ^ u64::from(*byte));
    }
    mixed
}

/// A product whose upper half is put over the lower one.
fn spread(number: u64) -> u64
    ensures { result ≡ spread_number number }
{
    let product = number.wrapping_mul(SPREAD);
    product ^ (product >> 32)
}

/// The order of two keys with these heads. Only where those are the same are the bytes themselves read.
fn order(head: u64, bytes: &[u8], other_head: u64, other: &[u8]) -> Ordering
    requires mine { head ≡ packed 8 0 bytes.now }
    requires others { other_head ≡ packed 8 0 other.now }
    requires my_bytes { AreBytes bytes.now }
    requires other_bytes { AreBytes other.now }
    ensures { result ≡ slice_cmp nat_cmp bytes.now other.now }
{
    if head < other_head {
        return Ordering::Less;
    }
    if other_head < head {
        return Ordering::Greater;
    }
    bytes.cmp(other)
}

/// The first eight bytes as a number, the first of them the highest. Missing ones count as 0.
#[tactic(auto, using(crate::proofs::Heads::of_first))]
fn head_of(bytes: &[u8]) -> u64
    ensures { result ≡ packed 8 0 bytes.now }
{
    match bytes.first_chunk::<8>() {
        Some(first) => u64::from_be_bytes(*first),
        None => short_head(bytes),
    }
}

/// The first eight bytes as a number, missing ones as 0, one byte at a time.
fn short_head(bytes: &[u8]) -> u64
    ensures { result ≡ packed 8 0 bytes.now }
{
    let mut head = 0;
    for place in 0..8 {
        head = head * 256 + byte_at(bytes, place) as u64;
    }
    head
}

/// A byte, and 0 where there is none.
fn byte_at(bytes: &[u8], place: usize) -> u8
    ensures { result ≡ slice_index_or bytes.now place 0 }
{
    match bytes.get(place) {
        None => 0,
        Some(byte) => *byte,
    }
}
