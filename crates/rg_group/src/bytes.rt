ghost use Rattle.std.specs.Prelude.{◌≡◌, ◌≤◌, ◌*◌, length, IfOk, OnOk};
ghost use Rattle.rg_event.specs.declared.event.Event.{Event};
ghost use Rattle.rg_metric.specs.Replies.{key_of as key_values};
ghost use Rattle.rg_group.specs.Keys.{key_bytes, AreStorable};

use crate::parts::put_parts;
use arrayvec::ArrayVec;
use rg_bytes::Memory;
use rg_event::Event;
use std::alloc::Global;
use std::marker::Model;

/// How many bytes stand in a key itself.
const SHORT: usize = 16;

/// Where the bytes of a key stand.
#[derive(Debug, Drop)]
enum Place {
    /// In the key itself: they take no memory of their own.
    Short(ArrayVec<u8, SHORT, Global>),
    /// In room of their own, which is kept for the bytes that come after them.
    Long(Vec<u8>),
}

/// The bytes of a key.
#[derive(Debug, Drop)]
pub(crate) struct KeyBytes {
    place: Place,
}

impl Model for KeyBytes {
    ghost use Rattle.std.specs.Prelude.{List, ℕ};
    ghost use Rattle.rg_group.specs.Places.{bytes_at};

    ghost Value = { List ℕ };

    ghost view = { λ b. bytes_at b.place };
}

impl KeyBytes {
    /// These bytes, in the key itself where they are few.
    pub(crate) fn from_slice(alloc: Global, bytes: &[u8]) -> Result<KeyBytes, Memory>
        ensures { IfOk result (λ kept. kept ≡ bytes.now) }
    {
        if bytes.len() <= SHORT {
            return Ok(KeyBytes::short(alloc, bytes));
        }
        Ok(KeyBytes::long(Vec::from_slice(alloc, bytes)?))
    }

    /// Few bytes, in the key itself.
    fn short(alloc: Global, bytes: &[u8]) -> KeyBytes
        requires { length bytes.now ≤ 16 }
        ensures { result ≡ bytes.now }
    {
        let mut short = ArrayVec::new_in(alloc);
        match short.try_extend_from_slice(bytes) {
            Ok(()) => KeyBytes {
                place: Place::Short(short),
            },
            Err(_) => unreachable!(),
        }
    }

    /// These bytes, in their own room.
    fn long(bytes: Vec<u8>) -> KeyBytes
        ensures { result ≡ bytes.items }
    {
        KeyBytes {
            place: Place::Long(bytes),
        }
    }

    /// These bytes, in the key itself where they are few.
    pub(crate) fn from_vec(bytes: Vec<u8>) -> KeyBytes
        ensures { result ≡ bytes.items }
    {
        if bytes.len() <= SHORT {
            return KeyBytes::short(*bytes.allocator(), &bytes);
        }
        KeyBytes::long(bytes)
    }

    pub(crate) fn as_slice(&self) -> &[u8]
        ensures { result.now ≡ self.now }
    {
        match &self.place {
            Place::Short(short) => short.as_slice(),
            Place::Long(room) => room.as_slice(),
        }
    }

    /// Makes them these bytes, in the room of their own where they have some. Where memory runs out they
    /// mean nothing.
    pub(crate) fn set_to(&mut self, bytes: &[u8]) -> Result<(), Memory>
        ensures { OnOk result (self.new ≡ bytes.now) }
    {
        match &mut self.place {
            Place::Long(room) => {
                room.clear();
                room.extend_from_slice(bytes)?;
            }
            Place::Short(short) => *self = KeyBytes::from_slice(*short.allocator(), bytes)?,
        }
        Ok(())
    }

    /// Makes them those of this event's key, in room of their own. Where memory runs out they mean nothing.
    pub(crate) fn put(&mut self, fields: &[u32], event: &Event) -> Result<(), Memory>
        ensures written { OnOk result (self.new ≡ key_bytes (key_values fields.now event.now)) }
        ensures storable { OnOk result (AreStorable (key_values fields.now event.now)) }
        ensures short { OnOk result (length self.new ≤ 257 * length fields.now) }
    {
        match &mut self.place {
            Place::Long(room) => {
                room.clear();
                put_parts(fields, event, room)
            }
            Place::Short(short) => {
                let mut room = Vec::new(*short.allocator());
                put_parts(fields, event, &mut room)?;
                *self = KeyBytes::long(room);
                Ok(())
            }
        }
    }
}
