use crate::key_rows::KeyRows;
use crate::slots::Slots;
use rg_group::Key;

/// How many slots are looked at together.
const TOGETHER: usize = 64;

/// Looks at the rows in the slots of a list ahead of their turn to be written, at those of 64 slots at a time. Rows lie
/// far apart, and a look waits for none before it, as writing does: so the processor fetches many rows in
/// the time of one. Each kind of look is a short loop of its own, so that more of them are under way at once.
#[derive(Drop)]
pub(crate) struct Ahead<'a> {
    slots: &'a Slots,
    list: &'a [u32],
    /// How many slots were looked at whose turn is still to come.
    left: usize,
    /// How many slots of the list were looked at.
    passed: usize,
    /// Made of all that was looked at, so that no look is left out of the program.
    pub(crate) seen: u64,
}

impl<'a> Ahead<'a> {
    /// Before the turn of the first slot of a list.
    pub(crate) fn new(slots: &'a Slots, list: &'a [u32]) -> Ahead<'a> {
        Ahead {
            slots,
            list,
            left: 0,
            passed: 0,
            seen: 0,
        }
    }

    /// The turn of the next slot comes.
    pub(crate) fn turn(&mut self) {
        if self.left == 0 {
            let near = self.next_slots();
            self.look_at_keys(near);
            self.look_at_rows(near);
            self.left = TOGETHER;
        }
        self.left = self.left.saturating_sub(1);
    }

    /// The next slots of the list.
    fn next_slots(&mut self) -> &'a [u32] {
        let end = self.passed.saturating_add(TOGETHER).min(self.list.len());
        let near = self.list.get(self.passed..end);
        self.passed = end;
        match near {
            None => &[],
            Some(near) => near,
        }
    }

    /// Looks at the keys of these slots, and at how many rows they have.
    fn look_at_keys(&mut self, near: &[u32]) {
        let mut seen = self.seen;
        for slot in near {
            seen = seen.wrapping_add(key_in(self.slots, *slot));
        }
        self.seen = seen;
    }

    /// Looks at their rows.
    fn look_at_rows(&mut self, near: &[u32]) {
        let mut seen = self.seen;
        for slot in near {
            seen = seen.wrapping_add(rows_in(self.slots, *slot));
        }
        self.seen = seen;
    }
}

/// The first byte of a slot's key and the number of its rows, added up.
fn key_in(slots: &Slots, slot: u32) -> u64 {
    match slots.rows.get(slot as usize) {
        None => 0,
        Some(rows) => front_of(&rows.key).wrapping_add(rows.kept.len() as u64),
    }
}

/// The first byte of a key.
fn front_of(key: &Key) -> u64 {
    match key.as_slice().first() {
        None => 0,
        Some(byte) => *byte as u64,
    }
}

/// Of each row in a slot its node and how many values it stands for, added up.
fn rows_in(slots: &Slots, slot: u32) -> u64 {
    match slots.rows.get(slot as usize) {
        None => 0,
        Some(rows) => seen_of(rows),
    }
}

/// Looks at the rows of a key, so that their memory is near.
fn seen_of(rows: &KeyRows) -> u64 {
    let mut seen: u64 = 0;
    for kept in &rows.kept {
        seen = seen.wrapping_add(kept.node as u64);
        seen = seen.wrapping_add(kept.state.size());
    }
    seen
}
