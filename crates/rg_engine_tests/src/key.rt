use crate::common::{Checks, Item, Subject, assert_goes, event_of};
use rg_event::Event;
use rg_group::{Key, key_of};
use std::alloc::Global;
use std::test::Fail;

/// What is done to a key, or what it says, by another one or by bytes.
#[derive(Clone, Copy)]
pub(crate) enum Step {
    /// Its bytes.
    Has(&'static [u8]),
    /// It is equal to the key of these bytes.
    IsMade(&'static [u8]),
    /// It is equal to its copy.
    IsCopied,
    /// It goes so with the key of these columns of an event of these values.
    With(Other, &'static [u32], &'static [Item]),
}

/// How a key goes with another one, which changes it or is compared with it.
#[derive(Clone, Copy)]
pub(crate) enum Other {
    /// That key takes its place.
    Replaced,
    /// It becomes that key in place.
    Anew,
    /// It is that key.
    IsOf,
    IsNotOf,
    /// It isn't equal to that key.
    Differs,
    /// It is less than that key.
    IsBelow,
}

/// Whether a key goes so with another one that is made for itself; false where that is asked of an event alone.
fn goes_with(key: &mut Key, made: Key, other: Other, checks: &mut Checks) -> bool {
    let (what, goes) = match other {
        Other::Replaced => {
            *key = made;
            return true;
        }
        Other::IsBelow => ("a key below", *key < made),
        Other::Differs => ("a key that differs", *key != made),
        Other::IsOf => ("key", *key == made),
        Other::IsNotOf | Other::Anew => ("key of no event", false),
    };
    goes || checks.fails(what, key.as_slice(), made.as_slice())
}

/// Whether a key is that of these columns of an event, or isn't.
fn is_of(key: &Key, want: bool, fields: &[u32], event: &Event, checks: &mut Checks) -> bool {
    let what = if want { "key" } else { "another key" };
    key.is_of(fields, event) == want
        || checks.fails(what, key.as_slice(), (fields, event.values.as_slice()))
}

/// Whether a key goes so with that of these columns of an event, which is made for itself where it has to be.
fn goes_with_event(
    alloc: Global,
    key: &mut Key,
    other: Other,
    fields: &[u32],
    event: &Event,
    checks: &mut Checks,
) -> Option<bool> {
    match other {
        Other::Anew => Some(key.set_of(fields, event).is_ok()),
        Other::IsOf => Some(is_of(key, true, fields, event, checks)),
        Other::IsNotOf => Some(is_of(key, false, fields, event, checks)),
        _ => Some(goes_with(key, key_of(alloc, fields, event).ok()?, other, checks)),
    }
}

/// Whether it does with that of an event of these values.
fn goes_with_values(
    alloc: Global,
    key: &mut Key,
    other: Other,
    fields: &[u32],
    items: &[Item],
    checks: &mut Checks,
) -> Option<bool> {
    let event = event_of(alloc, 0, 0, items)?;
    let goes = goes_with_event(alloc, key, other, fields, &event, checks);
    drop(event);
    goes
}

fn is_copied(alloc: Global, key: &mut Key, checks: &mut Checks) -> Option<bool> {
    let copy = key.copy(alloc).ok()?;
    Some(goes_with(key, copy, Other::IsOf, checks))
}

fn is_made(alloc: Global, key: &mut Key, bytes: &[u8], checks: &mut Checks) -> Option<bool> {
    let made = Key::from(bytes.to_vec(alloc).ok()?);
    Some(goes_with(key, made, Other::IsOf, checks))
}

impl Subject for Key {
    type Step = Step;

    fn start(alloc: Global) -> Option<Key> {
        Some(Key::from(Vec::new(alloc)))
    }

    fn goes(&mut self, alloc: Global, step: &Step, checks: &mut Checks) -> bool {
        match step {
            Step::Has(bytes) => checks.same_bytes("key", self.as_slice(), bytes),
            Step::IsMade(bytes) => is_made(alloc, self, bytes, checks) == Some(true),
            Step::IsCopied => is_copied(alloc, self, checks) == Some(true),
            Step::With(other, fields, items) => {
                goes_with_values(alloc, self, *other, fields, items, checks) == Some(true)
            }
        }
    }
}

/// The values of four events: a card and a merchant, an int, an id of its number, and two texts.
const CARD: &[Item] = &[Item::Text(b"c1"), Item::Text(b"m1")];

const INT: &[Item] = &[Item::Int(1)];

const ID: &[Item] = &[Item::Id(1)];

const TEXTS: &[Item] = &[Item::Text(b"a"), Item::Text(b"b")];

/// The letters of those texts, split elsewhere.
const SPLIT: &[Item] = &[Item::Text(b"ab"), Item::Text(b"")];

#[test]
fn a_key_has_the_tagged_values_of_its_columns(rt: HostRuntime) -> Result<(), Fail> {
    assert_goes::<Key>(
        &rt,
        &[
            Step::With(Other::Replaced, &[1], CARD),
            Step::Has(b"\x03\x02c1"),
            Step::With(Other::Replaced, &[2, 3, 1], CARD),
            Step::Has(b"\x03\x02m1\x03\x02c1"),
            Step::With(Other::Replaced, &[], CARD),
            Step::Has(b""),
            // It is made anew in place.
            Step::With(Other::Replaced, &[1, 2], CARD),
            Step::With(Other::Anew, &[2], CARD),
            Step::Has(b"\x03\x02m1"),
            // An int and an id of one number have two keys.
            Step::With(Other::Replaced, &[1], INT),
            Step::With(Other::Differs, &[1], ID),
            Step::With(Other::IsBelow, &[1], ID),
            Step::With(Other::IsOf, &[1], INT),
            Step::With(Other::IsNotOf, &[1], ID),
            // Two texts differ from their letters split elsewhere.
            Step::With(Other::Replaced, &[1, 2], TEXTS),
            Step::With(Other::Differs, &[1, 2], SPLIT),
            Step::With(Other::IsNotOf, &[1, 2], SPLIT),
            Step::With(Other::IsNotOf, &[1], TEXTS),
            // It equals its copy and the key of its bytes.
            Step::IsCopied,
            Step::IsMade(b"\x03\x01a\x03\x01b"),
        ],
    )
}
