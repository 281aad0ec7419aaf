ghost use Rattle.std.specs.Prelude.{◌≡◌, true};
ghost use Rattle.rg_checkpoint.specs.Slots.{ReachesSlots};

use crate::parts::{BASE, Part, SLOT, are_parts};
use crate::payloads::texts;
use crate::rows::{Checks, Row, assert_each};
use crate::store::{Left, leaves_by_each, store};
use rg_bytes::Memory;
use rg_checkpoint::{SlotFault, SlotSizes, Slots, Texts};
use rg_host::{Host, MemHost, Pick};
use std::alloc::Global;
use std::test::Fail;

/// What slots tell.
#[derive(Clone, Copy, Debug, PartialEq)]
struct Told {
    /// Of how many payments the checkpoints of slots 0 and 1 are, where they are complete.
    counts: (Option<u64>, Option<u64>),
    /// How many rows the first one has.
    rows: usize,
    /// The sizes of slot 0.
    sizes: Option<SlotSizes>,
    /// The newest slot of the query of this text and up to this count.
    newest: Option<u32>,
}

/// Of how many payments the checkpoint of a slot is, and how many rows it has.
fn seen_in(slots: &Slots, i: u32) -> (Option<u64>, usize)
    requires { slots.now.fresh ≡ true }
{
    match slots.slot(i) {
        Some(checkpoint) => (Some(checkpoint.count), checkpoint.rows.as_slice().len()),
        None => (None, 0),
    }
}

/// The newest slot; 2 where there is a slot 2.
fn newest_in(slots: &Slots, queries: &Texts, below: u64) -> Option<u32>
    requires { slots.now.fresh ≡ true }
{
    if slots.slot(2).is_some() {
        return Some(2);
    }
    slots.newest(queries, below)
}

fn told_by(slots: &Slots, queries: &Texts, below: u64) -> Told
    requires { slots.now.fresh ≡ true }
{
    let (first, rows) = seen_in(slots, 0);
    let (second, _) = seen_in(slots, 1);
    Told {
        counts: (first, second),
        rows,
        sizes: slots.sizes(0),
        newest: newest_in(slots, queries, below),
    }
}

/// What the slots of a host tell, of these queries; none where they aren't read.
fn told_of(alloc: Global, host: &mut MemHost, queries: &Texts, below: u64) -> Option<Told> {
    match Slots::attach(alloc, host) {
        Ok(slots) => {
            let told = told_by(&slots, queries, below);
            drop(slots);
            Some(told)
        }
        Err(_) => None,
    }
}

/// The same of the query of this text.
fn told_at(alloc: Global, host: &mut MemHost, text: &[u8], below: u64) -> Option<Told> {
    match texts(alloc, text) {
        Ok(queries) => {
            let told = told_of(alloc, host, &queries, below);
            drop(queries);
            told
        }
        Err(_) => None,
    }
}

/// What is written into slots.
enum Write {
    /// A checkpoint of so many payments into slot 0, where none is kept.
    Save(u8),
    /// Into slot 1, where slot 0 is kept.
    SaveSecond(u8),
    /// Into slot 0, where slot 1 is kept.
    SaveFirst(u8),
    /// The change payload of the frame that begins there in the slot and ends there, behind slot 0.
    Extend(usize, usize),
}

/// The base payload of so many payments.
fn payload_of(count: u8) -> [u8; 71] {
    let mut payload = BASE;
    payload[17] = count;
    payload
}

/// Adds the payload of a frame of the slot to slot 0, where that is complete.
fn extend(slots: &mut Slots, host: &mut MemHost, from: usize, end: usize) -> Result<u32, SlotFault>
    requires { ReachesSlots slots.old (⟦<MemHost as Host>⟧.now host.old) }
    ensures { ReachesSlots slots.new (⟦<MemHost as Host>⟧.now host.new) }
{
    if slots.sizes(0).is_none() {
        return Err(SlotFault::Memory);
    }
    let payload = SLOT.get(from.saturating_add(9)..end).unwrap_or(b"");
    match slots.extend(host, 0, payload) {
        Ok(()) => Ok(0),
        Err(fault) => Err(fault),
    }
}

/// Whether it is written, into its slot.
fn do_write(slots: &mut Slots, host: &mut MemHost, write: &Write) -> Result<bool, SlotFault>
    requires { ReachesSlots slots.old (⟦<MemHost as Host>⟧.now host.old) }
    ensures { ReachesSlots slots.new (⟦<MemHost as Host>⟧.now host.new) }
{
    let (slot, done) = match write {
        Write::Save(count) => (0, slots.save(host, None, &payload_of(*count))),
        Write::SaveSecond(count) => (1, slots.save(host, Some(0), &payload_of(*count))),
        Write::SaveFirst(count) => (0, slots.save(host, Some(1), &payload_of(*count))),
        Write::Extend(from, end) => (0, extend(slots, host, *from, *end)),
    };
    match done {
        Ok(i) => Ok(i == slot),
        Err(fault) => Err(fault),
    }
}

fn write_at(
    slots: &mut Slots,
    host: &mut MemHost,
    writes: &[Write],
    number: usize,
) -> Result<bool, SlotFault>
    requires { ReachesSlots slots.old (⟦<MemHost as Host>⟧.now host.old) }
    ensures { ReachesSlots slots.new (⟦<MemHost as Host>⟧.now host.new) }
{
    match writes.get(number) {
        Some(one) => do_write(slots, host, one),
        None => Ok(true),
    }
}

/// Whether these are written, at most three.
fn write_three(slots: &mut Slots, host: &mut MemHost, writes: &[Write]) -> Result<bool, SlotFault>
    requires { ReachesSlots slots.old (⟦<MemHost as Host>⟧.now host.old) }
{
    Ok(
        writes.len() <= 3
            && write_at(slots, host, writes, 0)?
            && write_at(slots, host, writes, 1)?
            && write_at(slots, host, writes, 2)?,
    )
}

/// Slots, what is written into them, and what they tell then.
#[derive(Clone, Copy)]
struct Written {
    files: &'static [&'static [Part]],
    /// The numbers of the calls that fail.
    failing: &'static [u64],
    /// At most three.
    writes: &'static [Write],
    /// Whether a write fails.
    fails: bool,
    /// How many calls there were then, where that is asked.
    calls: Option<u64>,
    /// What slot 0 has then, where that is asked.
    bytes: &'static [Part],
    /// The count of slot 1, which is taken first, where that is asked.
    taken: Option<u64>,
    /// A query's text and a count, for the newest slot.
    text: &'static [u8],
    below: u64,
    newest: Option<u32>,
    /// The counts of both slots, and the rows of slot 0.
    first: Option<u64>,
    second: Option<u64>,
    rows: usize,
    /// The sizes of slot 0, where they are asked.
    sizes: Option<SlotSizes>,
    /// What a stop leaves of what was written, by each of these picks.
    picks: &'static [Pick],
    /// Behind so many calls and more: the counts of slot 0, and of slot 1, 0 where it isn't complete.
    from: u64,
    firsts: &'static [u64],
    seconds: &'static [u64],
    /// Behind so many calls the second slot stands.
    settled: u64,
}

/// Whether slots have ended, and make no call.
fn have_ended(slots: &mut Slots, host: &mut MemHost, checks: &mut Checks) -> bool {
    let calls = host.calls();
    let saved = slots.save(host, Some(0), &BASE);
    checks.same("save of ended slots", saved, Err(SlotFault::Ended))
        && checks.same("calls of ended slots", host.calls(), calls)
}

/// Takes slot 1, and answers its count.
fn take_second(slots: &mut Slots, host: &MemHost) -> Option<u64>
    requires fresh { slots.old.fresh ≡ true }
    requires reaches { ReachesSlots slots.old (⟦<MemHost as Host>⟧.now host.now) }
    ensures { ReachesSlots slots.new (⟦<MemHost as Host>⟧.now host.now) }
{
    match slots.take(1) {
        Some(taken) => Some(taken.count),
        None => None,
    }
}

impl Written {
    /// Whether the slots have sizes as wanted: slot 0 these, where they are asked, and slot 1 where it is complete.
    fn have_sizes(&self, slots: &Slots, checks: &mut Checks) -> bool {
        let has_sizes = self.sizes.is_none()
            || checks.same("sizes of slot 0", slots.sizes(0), self.sizes);
        let is_second = self.second.is_some();
        has_sizes && checks.same("slot 1 is complete", slots.sizes(1).is_some(), is_second)
    }

    /// Whether it is written so, or fails and ends the slots.
    fn is_written(&self, slots: &mut Slots, host: &mut MemHost, checks: &mut Checks) -> bool
        requires { ReachesSlots slots.old (⟦<MemHost as Host>⟧.now host.old) }
    {
        let wanted = if self.fails {
            Err(SlotFault::Disk)
        } else {
            Ok(true)
        };
        let written = write_three(slots, host, self.writes);
        if !checks.same("written", written, wanted) {
            return false;
        }
        if self.fails {
            return have_ended(slots, host, checks);
        }
        self.have_sizes(slots, checks)
    }

    /// Whether slot 1 is taken, where it is to be, and then all is written.
    fn is_done(&self, slots: &mut Slots, host: &mut MemHost, checks: &mut Checks) -> bool
        requires fresh { slots.old.fresh ≡ true }
        requires reaches { ReachesSlots slots.old (⟦<MemHost as Host>⟧.now host.old) }
    {
        if self.taken.is_some() && !checks.same("taken", take_second(slots, host), self.taken) {
            return false;
        }
        self.is_written(slots, host, checks)
    }

    /// Whether it is done to the slots of a host, by so many calls.
    fn writes(&self, alloc: Global, host: &mut MemHost, checks: &mut Checks) -> bool {
        match Slots::attach(alloc, host) {
            Ok(mut slots) => {
                let is_done = self.is_done(&mut slots, host, checks);
                drop(slots);
                let calls = self.calls.unwrap_or(host.calls());
                is_done && checks.same("calls", host.calls(), calls)
            }
            Err(fault) => checks.fails("attach", fault, "slots"),
        }
    }

    /// What a host is to tell then. Its sizes are those that are told where none are asked.
    fn told(&self, told: Told) -> Told {
        Told {
            counts: (self.first, self.second),
            rows: self.rows,
            sizes: self.sizes.or(told.sizes),
            newest: self.newest,
        }
    }

    /// Whether a host then tells so.
    fn tells(&self, alloc: Global, host: &mut MemHost, checks: &mut Checks) -> bool {
        match told_at(alloc, host, self.text, self.below) {
            Some(told) => checks.same("slots", told, self.told(told)),
            None => checks.fails("slots", "none", "some"),
        }
    }

    /// Whether stops leave what they may.
    fn leaves(&self, alloc: Global, host: &MemHost, checks: &mut Checks) -> bool {
        let mut stopped = Stopped {
            written: *self,
            last: host.calls(),
            before: 0,
        };
        leaves_by_each(alloc, host, self.from, self.picks, &mut stopped, checks)
    }

    /// Whether all of it is so of this host.
    fn is_so_of(&self, alloc: Global, host: &mut MemHost, checks: &mut Checks) -> bool {
        self.writes(alloc, host, checks)
            && are_parts(alloc, "file 0", host.file(0), self.bytes, checks)
            && self.leaves(alloc, host, checks)
            && self.tells(alloc, host, checks)
    }
}

/// What stops leave of what is written, one behind another.
#[derive(Clone, Copy)]
struct Stopped {
    written: Written,
    /// How many calls there were.
    last: u64,
    /// The count of the newest slot at the stop before this.
    before: u64,
}

impl Stopped {
    /// Whether the counts are old ones, none or new ones, and slot 1 stands behind its last call.
    fn are_counts(
        &self,
        counts: (Option<u64>, Option<u64>),
        call: u64,
        checks: &mut Checks,
    ) -> bool {
        let (first, second) = counts;
        let Written {
            firsts,
            seconds,
            ..
        } = self.written;
        let is_one = firsts.contains(&first.unwrap_or(0)) && seconds.contains(&second.unwrap_or(0));
        let is_settled = call < self.written.settled || second == self.written.second;
        is_one && is_settled || checks.fails("counts", counts, (firsts, seconds))
    }

    /// Whether the newest slot is the greatest and not older than before, and is of count 4 in the end.
    fn is_newest(&self, newest: Option<u64>, told: Told, call: u64, checks: &mut Checks) -> bool {
        let (first, second) = told.counts;
        let least = if call < self.last { self.before } else { 4 };
        let is_end = call < self.last || newest == Some(4);
        checks.same("count of the newest slot", newest, first.max(second))
            && (self.before <= newest.unwrap_or(0) && is_end
                || checks.fails("count of the newest slot", newest, least))
    }

    /// Whether what a stop leaves is legal.
    fn is_legal(&self, told: Told, call: u64, checks: &mut Checks) -> bool {
        let (first, second) = told.counts;
        let newest = match told.newest {
            Some(0) => first,
            Some(1) => second,
            Some(slot) => return checks.fails("newest slot", slot, "0 or 1"),
            None => None,
        };
        self.is_newest(newest, told, call, checks) && self.are_counts(told.counts, call, checks)
    }
}

impl Left for Stopped {
    fn may_be(
        &mut self,
        alloc: Global,
        left: &mut MemHost,
        call: u64,
        checks: &mut Checks,
    ) -> bool {
        if call == self.written.from {
            self.before = 0;
        }
        match told_at(alloc, left, b"q", 9) {
            Some(told) => {
                let is_legal = self.is_legal(told, call, checks);
                let (first, second) = told.counts;
                self.before = first.max(second).unwrap_or(0);
                is_legal
            }
            None => checks.fails("slots", "none", "some"),
        }
    }
}

impl Row for Written {
    fn is_so(&self, alloc: Global, checks: &mut Checks) -> Result<bool, Memory> {
        let mut host = store(alloc, 0, self.files, self.failing)?;
        let is_so = self.is_so_of(alloc, &mut host, checks);
        drop(host);
        Ok(is_so)
    }
}

/// Empty slots, into which nothing is written.
const EMPTY: Written = Written {
    files: &[],
    failing: &[],
    writes: &[],
    fails: false,
    calls: None,
    bytes: &[],
    taken: None,
    text: b"q",
    below: 9,
    newest: None,
    first: None,
    second: None,
    rows: 0,
    sizes: None,
    picks: &[],
    from: 0,
    firsts: &[],
    seconds: &[],
    settled: 0,
};

/// Slot 0 alone is complete, with one row.
const FIRST: Written = Written {
    newest: Some(0),
    first: Some(2),
    rows: 1,
    ..EMPTY
};

/// Three saves, into slot 0 of count 2, into slot 1 of count 3, and then into slot 0 of count 4.
const SAVED: Written = Written {
    writes: &[Write::Save(2), Write::SaveSecond(3), Write::SaveFirst(4)],
    first: Some(4),
    second: Some(3),
    ..FIRST
};

/// A save and two extensions, behind which the row is gone.
const EXTENDED: Written = Written {
    writes: &[
        Write::Save(2),
        Write::Extend(80, 152),
        Write::Extend(152, 215),
    ],
    first: Some(4),
    rows: 0,
    ..FIRST
};

/// One of them fails, and leaves the count 2.
const OF_TWO: Written = Written {
    fails: true,
    first: Some(2),
    rows: 1,
    ..EXTENDED
};

/// The count 3.
const OF_THREE: Written = Written {
    first: Some(3),
    ..OF_TWO
};

/// The count 4.
const OF_FOUR: Written = Written {
    first: Some(4),
    rows: 0,
    ..OF_TWO
};

/// Slots as they are read of files or saved: complete or not, the newest, and one that is taken.
const SLOTS: &[Written] = &[
    // A slot is read up to its closed gate.
    Written {
        files: &[&[Part::Slot(0, 216)]],
        first: Some(4),
        rows: 0,
        ..FIRST
    },
    Written {
        files: &[&[Part::Slot(0, 152), Part::Bytes(&[0]), Part::Slot(153, 216)]],
        first: Some(3),
        ..FIRST
    },
    Written {
        files: &[&[Part::Slot(0, 80), Part::Bytes(&[0]), Part::Slot(81, 216)]],
        ..FIRST
    },
    // A change that doesn't apply leaves no checkpoint: its count falls, it is a base behind the base, the row that is
    // gone isn't there, it has more rows than there are, and it is cut.
    Written {
        files: &[&[Part::Slot(0, 97), Part::Bytes(&[1]), Part::Slot(98, 216)]],
        ..EMPTY
    },
    Written {
        files: &[&[Part::Slot(0, 89), Part::Bytes(&[0x42]), Part::Slot(90, 216)]],
        ..EMPTY
    },
    Written {
        files: &[&[
            Part::Slot(0, 213),
            Part::Bytes(&[0x32]),
            Part::Slot(214, 216),
        ]],
        ..EMPTY
    },
    Written {
        files: &[&[Part::Slot(0, 129), Part::Bytes(&[2]), Part::Slot(130, 216)]],
        ..EMPTY
    },
    Written {
        files: &[&[
            Part::Slot(0, 160),
            Part::Bytes(&[0x37]),
            Part::Slot(161, 216),
        ]],
        ..EMPTY
    },
    // A slot of 65 changes is read.
    Written {
        files: &[&[Part::Slot(0, 80), Part::Changed(65), Part::Bytes(&[0])]],
        first: Some(3),
        sizes: Some(SlotSizes {
            base: 71,
            changes: 4095,
            frames: 65,
        }),
        ..FIRST
    },
    // A slot of no frame, of two base frames, or of one without a gate behind it isn't complete.
    EMPTY,
    Written {
        files: &[
            &[
                Part::Slot(0, 26),
                Part::Bytes(&[4]),
                Part::Slot(27, 80),
                Part::Slot(0, 26),
                Part::Bytes(&[4]),
                Part::Slot(27, 80),
                Part::Bytes(&[0]),
            ],
            &[Part::Slot(0, 26), Part::Bytes(&[4]), Part::Slot(27, 80)],
        ],
        ..EMPTY
    },
    // The newest slot is of these queries and of at most this count.
    Written {
        bytes: &[
            Part::Slot(0, 26),
            Part::Bytes(&[4]),
            Part::Slot(27, 80),
            Part::Bytes(&[0]),
        ],
        below: 4,
        ..SAVED
    },
    Written {
        below: 3,
        newest: Some(1),
        ..SAVED
    },
    Written {
        below: 2,
        newest: None,
        ..SAVED
    },
    Written {
        text: b"r",
        newest: None,
        ..SAVED
    },
    // A slot that was taken is saved anew.
    Written {
        files: &[
            &[
                Part::Slot(0, 26),
                Part::Bytes(&[4]),
                Part::Slot(27, 80),
                Part::Bytes(&[0]),
            ],
            &[
                Part::Slot(0, 26),
                Part::Bytes(&[3]),
                Part::Slot(27, 80),
                Part::Bytes(&[0]),
            ],
        ],
        taken: Some(3),
        writes: &[Write::SaveSecond(4)],
        below: 4,
        second: Some(4),
        ..SAVED
    },
];

#[test]
fn slots_are_read_up_to_their_closed_gates_where_their_changes_apply(
    rt: HostRuntime,
) -> Result<(), Fail> {
    assert_each(&rt, SLOTS)
}

/// Saves and extensions that are whole, that are stopped, and in which a call fails.
const WRITES: &[Written] = &[
    // Two saves and a third, which is stopped: it leaves its slot as it was, not complete, or saved.
    Written {
        writes: &[Write::Save(2), Write::SaveSecond(3)],
        calls: Some(22),
        first: Some(2),
        second: Some(3),
        newest: Some(1),
        ..FIRST
    },
    Written {
        picks: &[
            Pick::Old,
            Pick::New,
            Pick::Torn(0),
            Pick::Torn(1),
            Pick::Torn(0x37),
            Pick::Torn(255),
        ],
        firsts: &[0, 2, 4],
        seconds: &[0, 3],
        settled: 22,
        calls: Some(32),
        ..SAVED
    },
    // Changes are added as the format says. A save and two extensions: a stop in these leaves the old checkpoint or the
    // new one.
    Written {
        writes: &[Write::Save(2)],
        calls: Some(12),
        ..FIRST
    },
    Written {
        bytes: &[Part::Slot(0, 216)],
        calls: Some(26),
        sizes: Some(SlotSizes {
            base: 71,
            changes: 117,
            frames: 2,
        }),
        picks: &[Pick::Old, Pick::New, Pick::Torn(0), Pick::Torn(255)],
        from: 12,
        firsts: &[2, 3, 4],
        seconds: &[0],
        ..EXTENDED
    },
    // Each call that fails in the extensions ends the slots, and leaves the old checkpoint or the new one.
    Written {
        failing: &[12],
        calls: Some(13),
        ..OF_TWO
    },
    Written {
        failing: &[13],
        calls: Some(14),
        ..OF_TWO
    },
    Written {
        failing: &[14],
        calls: Some(15),
        ..OF_TWO
    },
    Written {
        failing: &[15],
        calls: Some(16),
        ..OF_TWO
    },
    Written {
        failing: &[16],
        calls: Some(17),
        ..OF_TWO
    },
    Written {
        failing: &[17],
        calls: Some(18),
        ..OF_TWO
    },
    Written {
        failing: &[18],
        calls: Some(19),
        ..OF_THREE
    },
    Written {
        failing: &[19],
        calls: Some(20),
        ..OF_THREE
    },
    Written {
        failing: &[20],
        calls: Some(21),
        ..OF_THREE
    },
    Written {
        failing: &[21],
        calls: Some(22),
        ..OF_THREE
    },
    Written {
        failing: &[22],
        calls: Some(23),
        ..OF_THREE
    },
    Written {
        failing: &[23],
        calls: Some(24),
        ..OF_THREE
    },
    Written {
        failing: &[24],
        calls: Some(25),
        ..OF_THREE
    },
    Written {
        failing: &[25],
        calls: Some(26),
        ..OF_FOUR
    },
    // Slots end where a save fails.
    Written {
        failing: &[6],
        writes: &[Write::Save(2)],
        fails: true,
        calls: Some(7),
        ..EMPTY
    },
];

#[test]
fn a_stop_or_a_failure_leaves_the_old_checkpoint_or_the_new_one(
    rt: HostRuntime,
) -> Result<(), Fail> {
    assert_each(&rt, WRITES)
}
