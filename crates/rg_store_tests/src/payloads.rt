use crate::parts::{BASE, Part, add_each, are_parts};
use crate::rows::{Checks, Row, assert_each};
use rg_bytes::Memory;
use rg_checkpoint::{
    Checkpoint, CheckpointFault, Key, Spot, Texts, apply_changes, decode_checkpoint,
    encode_changes, encode_checkpoint,
};
use rg_event::{Bytes, Value};
use rg_state::{Change, Func, MemTable, Table};
use std::alloc::Global;
use std::test::Fail;

/// A list of one text.
pub(crate) fn texts(alloc: Global, text: &[u8]) -> Result<Texts, Memory> {
    let text = Bytes::from_slice(alloc, text)?;
    let mut texts = Texts::new(alloc);
    texts.push(text)?;
    Ok(texts)
}

/// What is done to a table of counts.
enum Step {
    /// An event of the card `c1` is counted.
    First,
    /// One is taken away.
    FirstGone,
    /// The same of the card `c2`.
    Second,
    SecondGone,
    /// What changes from here on is to be written.
    Mark,
}

/// Counts an event of the card of this key, or takes one away.
fn count(alloc: Global, table: &mut MemTable, key: &[u8], change: Change) -> bool {
    match key.to_vec(alloc) {
        Ok(key) => {
            let key = Key::from(key);
            let value = Value::Flag(true);
            let done = table.change(0, &key, Func::Count, change, &value);
            drop(value);
            drop(key);
            done.is_ok()
        }
        Err(_) => false,
    }
}

fn takes(alloc: Global, table: &mut MemTable, step: &Step) -> bool {
    match step {
        Step::First => count(alloc, table, b"\x03\x02c1", Change::Add),
        Step::FirstGone => count(alloc, table, b"\x03\x02c1", Change::Remove),
        Step::Second => count(alloc, table, b"\x03\x02c2", Change::Add),
        Step::SecondGone => count(alloc, table, b"\x03\x02c2", Change::Remove),
        Step::Mark => {
            table.mark();
            true
        }
    }
}

fn takes_all(alloc: Global, table: &mut MemTable, steps: &[Step]) -> bool {
    for step in steps {
        if !takes(alloc, table, step) {
            return false;
        }
    }
    true
}

/// The spot of the first event.
const SPOT: Spot = Spot {
    place: 57,
    index: 0,
    number: 0,
};

/// Writes a checkpoint of two events of a table.
fn write_base(alloc: Global, table: &mut MemTable, out: &mut Vec<u8>) -> bool {
    match texts(alloc, b"q") {
        Ok(queries) => {
            let done = encode_checkpoint(&queries, 2, &[SPOT], table, out);
            drop(queries);
            done.is_ok()
        }
        Err(_) => false,
    }
}

/// Whether a checkpoint has the query `q` alone.
fn has_query(checkpoint: &Checkpoint, checks: &mut Checks) -> bool {
    match checkpoint.queries.as_slice() {
        [query] => checks.same_bytes("query", query.as_slice(), b"q"),
        queries => checks.fails("queries", queries.len(), 1),
    }
}

/// Whether it has the row of node 0 and this key alone.
fn has_key(checkpoint: &Checkpoint, key: &[u8], checks: &mut Checks) -> bool {
    match checkpoint.rows.as_slice() {
        [row] => {
            checks.same("node", row.node, 0) && checks.same_bytes("key", row.key.as_slice(), key)
        }
        rows => checks.fails("rows", rows.len(), 1),
    }
}

/// Whether a checkpoint has the query `q`, the spot, and the row of node 0 and this key.
fn has_row(checkpoint: &Checkpoint, key: &[u8], checks: &mut Checks) -> bool {
    has_query(checkpoint, checks)
        && has_key(checkpoint, key, checks)
        && checks.same("spots", checkpoint.spots.as_slice(), [SPOT].as_slice())
}

/// A payload, and what is read of it.
struct Payload {
    /// Whether it has changes of the checkpoint of two payments, or is a base payload.
    changes: bool,
    /// The payload, where it isn't written.
    parts: &'static [Part],
    /// What is done to a table, of which it is written, and its length then.
    steps: &'static [Step],
    length: usize,
    /// Of how many payments the checkpoint is that is read, 0 where it is refused, and how many rows it has.
    count: u64,
    rows: usize,
    /// The key of its one row, where that is asked, as its query and spot then are.
    key: &'static [u8],
    /// Whether each front of it is refused, but the one that lacks its last byte.
    fronts: bool,
}

impl Payload {
    /// Writes the payload of a table.
    fn write(&self, alloc: Global, table: &mut MemTable, out: &mut Vec<u8>) -> bool {
        if !takes_all(alloc, table, self.steps) {
            return false;
        }
        if self.changes {
            encode_changes(3, &[SPOT], table, out).is_ok()
        } else {
            write_base(alloc, table, out)
        }
    }

    /// Makes the payload behind what is there.
    fn make(&self, alloc: Global, out: &mut Vec<u8>) -> bool {
        if self.steps.is_empty() {
            return add_each(out, self.parts).is_ok();
        }
        let mut table = MemTable::new(alloc);
        let is_written = self.write(alloc, &mut table, out);
        drop(table);
        is_written
    }

    /// Whether a checkpoint is so.
    fn is_seen(&self, checkpoint: &Checkpoint, checks: &mut Checks) -> bool {
        checks.same("count", checkpoint.count, self.count)
            && checks.same("rows", checkpoint.rows.as_slice().len(), self.rows)
            && (self.key.is_empty() || has_row(checkpoint, self.key, checks))
    }

    /// Whether the checkpoint is so with these changes; none where they are refused, and it is as before.
    fn seen_with(
        &self,
        checkpoint: &mut Checkpoint,
        changes: &[u8],
        alloc: Global,
        checks: &mut Checks,
    ) -> Option<bool> {
        match apply_changes(alloc, changes, checkpoint) {
            Ok(()) => Some(self.is_seen(checkpoint, checks)),
            Err(CheckpointFault::Memory) => Some(false),
            Err(CheckpointFault::BadCheckpoint) => {
                let seen = (checkpoint.count, checkpoint.rows.as_slice().len());
                if checks.same("count and rows behind a refusal", seen, (2, 1)) {
                    None
                } else {
                    Some(false)
                }
            }
        }
    }

    /// Whether the checkpoint is so that is read of a payload; none where that is refused.
    fn seen(&self, alloc: Global, payload: &[u8], checks: &mut Checks) -> Option<bool> {
        let base = if self.changes {
            BASE.as_slice()
        } else {
            payload
        };
        match decode_checkpoint(alloc, base) {
            Ok(mut checkpoint) => {
                let seen = if self.changes {
                    self.seen_with(&mut checkpoint, payload, alloc, checks)
                } else {
                    Some(self.is_seen(&checkpoint, checks))
                };
                drop(checkpoint);
                seen
            }
            Err(CheckpointFault::Memory) => Some(false),
            Err(CheckpointFault::BadCheckpoint) => None,
        }
    }

    /// Whether a payload is seen, or refused where it isn't to be.
    fn is_seen_of(
        &self,
        alloc: Global,
        payload: &[u8],
        is_whole: bool,
        checks: &mut Checks,
    ) -> bool {
        let wanted = if is_whole { Some(true) } else { None };
        let seen = self.seen(alloc, payload, checks);
        checks.same("checkpoint of these bytes", seen, wanted)
    }

    /// Whether the front of this length is refused, or seen.
    fn is_front(&self, alloc: Global, payload: &[u8], length: usize, checks: &mut Checks) -> bool {
        let front = payload.get(..length).unwrap_or(b"");
        let is_whole = self.count > 0 && length.saturating_add(1) == payload.len();
        self.is_seen_of(alloc, front, is_whole, checks)
    }

    fn are_fronts(&self, alloc: Global, payload: &[u8], checks: &mut Checks) -> bool {
        for length in 0..=payload.len() {
            let is_front = self.is_front(alloc, payload, length, checks);
            if !checks.at(is_front, "length", length) {
                return false;
            }
        }
        true
    }

    /// Whether this was made of the steps, where there are any.
    fn is_made(&self, alloc: Global, payload: &[u8], checks: &mut Checks) -> bool {
        self.steps.is_empty()
            || (checks.same("length", payload.len(), self.length)
                && are_parts(alloc, "payload", payload, self.parts, checks))
    }

    /// Whether this was made, behind `x`, and is read so.
    fn is_read(&self, alloc: Global, out: &[u8], checks: &mut Checks) -> bool {
        let (before, payload) = out.split_at(1.min(out.len()));
        if !checks.same_bytes("bytes before the payload", before, b"x")
            || !self.is_made(alloc, payload, checks)
        {
            return false;
        }
        if self.fronts {
            return self.are_fronts(alloc, payload, checks);
        }
        self.is_seen_of(alloc, payload, self.count > 0, checks)
    }
}

impl Row for Payload {
    fn is_so(&self, alloc: Global, checks: &mut Checks) -> Result<bool, Memory> {
        let mut out = b"x".to_vec(alloc)?;
        let is_so = self.make(alloc, &mut out) && self.is_read(alloc, &out, checks);
        drop(out);
        Ok(is_so)
    }
}

/// A base payload that is refused.
const NO_BASE: Payload = Payload {
    changes: false,
    parts: &[],
    steps: &[],
    length: 0,
    count: 0,
    rows: 0,
    key: b"",
    fronts: false,
};

/// Changes that are refused.
const NO_CHANGES: Payload = Payload {
    changes: true,
    ..NO_BASE
};

/// A checkpoint of two payments, and one row.
const OF_TWO: Payload = Payload {
    count: 2,
    rows: 1,
    ..NO_BASE
};

/// One of three payments, with changes.
const OF_THREE: Payload = Payload {
    changes: true,
    count: 3,
    ..OF_TWO
};

/// Payloads that are written of a table, and such as are read or refused.
const PAYLOADS: &[Payload] = &[
    // A checkpoint and changes are written as the format says.
    Payload {
        steps: &[Step::First, Step::First],
        parts: &[Part::Base(0, 71)],
        length: 71,
        ..OF_TWO
    },
    Payload {
        steps: &[
            Step::First,
            Step::First,
            Step::Mark,
            Step::FirstGone,
            Step::FirstGone,
            Step::Second,
        ],
        parts: &[Part::Changes(0, 76)],
        length: 76,
        ..OF_THREE
    },
    // They are read back.
    Payload {
        parts: &[Part::Base(0, 71)],
        key: b"\x03\x02c1",
        ..OF_TWO
    },
    Payload {
        parts: &[Part::Changes(0, 76)],
        key: b"\x03\x02c2",
        ..OF_THREE
    },
    // What is longer or shorter than a payload is refused.
    Payload {
        parts: &[Part::Base(0, 71), Part::Bytes(b"\0")],
        fronts: true,
        ..OF_TWO
    },
    Payload {
        parts: &[Part::Changes(0, 76), Part::Bytes(b"\0")],
        fronts: true,
        ..OF_THREE
    },
    // Rows that don't rise are refused: the same row twice, and one that falls; one that rises isn't.
    Payload {
        parts: &[
            Part::Base(0, 49),
            Part::Bytes(&[2]),
            Part::Base(50, 71),
            Part::Base(50, 71),
        ],
        ..NO_BASE
    },
    Payload {
        parts: &[
            Part::Base(0, 49),
            Part::Bytes(&[2]),
            Part::Base(50, 53),
            Part::Bytes(&[1]),
            Part::Base(54, 71),
            Part::Base(50, 71),
        ],
        ..NO_BASE
    },
    Payload {
        parts: &[
            Part::Base(0, 49),
            Part::Bytes(&[2]),
            Part::Base(50, 71),
            Part::Base(50, 61),
            Part::Bytes(b"2"),
            Part::Base(62, 71),
        ],
        rows: 2,
        ..OF_TWO
    },
    // The tag of a change, no values, and another node.
    Payload {
        parts: &[Part::Bytes(&[0x44]), Part::Base(1, 71)],
        ..NO_BASE
    },
    Payload {
        parts: &[Part::Base(0, 70), Part::Bytes(&[0])],
        ..NO_BASE
    },
    Payload {
        parts: &[Part::Base(0, 53), Part::Bytes(&[9]), Part::Base(54, 71)],
        ..OF_TWO
    },
    // Numbers of queries, of a text's bytes, of spots, of rows and of a key's bytes that the bytes don't bear out.
    Payload {
        parts: &[Part::Base(0, 1), Part::Times(4, b"\xff"), Part::Base(5, 71)],
        ..NO_BASE
    },
    Payload {
        parts: &[Part::Base(0, 5), Part::Times(4, b"\xff"), Part::Base(9, 71)],
        ..NO_BASE
    },
    Payload {
        parts: &[
            Part::Base(0, 18),
            Part::Times(4, b"\xff"),
            Part::Base(22, 71),
        ],
        ..NO_BASE
    },
    Payload {
        parts: &[
            Part::Base(0, 42),
            Part::Times(8, b"\xff"),
            Part::Base(50, 71),
        ],
        ..NO_BASE
    },
    Payload {
        parts: &[
            Part::Base(0, 54),
            Part::Times(4, b"\xff"),
            Part::Base(58, 71),
        ],
        ..NO_BASE
    },
    // Only what changed between two marks is written, as it is: nothing, a row that came and went, one that came,
    // one that is gone, and one that is gone and back.
    Payload {
        steps: &[Step::First, Step::First, Step::Mark],
        length: 41,
        ..OF_THREE
    },
    Payload {
        steps: &[
            Step::First,
            Step::First,
            Step::Mark,
            Step::Second,
            Step::SecondGone,
        ],
        length: 41,
        ..OF_THREE
    },
    Payload {
        steps: &[Step::First, Step::First, Step::Mark, Step::Second],
        length: 63,
        rows: 2,
        ..OF_THREE
    },
    Payload {
        steps: &[
            Step::First,
            Step::First,
            Step::Mark,
            Step::FirstGone,
            Step::FirstGone,
        ],
        length: 54,
        rows: 0,
        ..OF_THREE
    },
    Payload {
        steps: &[
            Step::First,
            Step::First,
            Step::Mark,
            Step::FirstGone,
            Step::FirstGone,
            Step::First,
        ],
        length: 63,
        ..OF_THREE
    },
    // Changes of one payment don't fit the checkpoint, and those of two do.
    Payload {
        parts: &[Part::Changes(0, 8), Part::Bytes(&[1]), Part::Changes(9, 76)],
        ..NO_CHANGES
    },
    Payload {
        parts: &[Part::Changes(0, 8), Part::Bytes(&[2]), Part::Changes(9, 76)],
        count: 2,
        ..OF_THREE
    },
    // Nor do one row and three.
    Payload {
        parts: &[
            Part::Changes(0, 40),
            Part::Bytes(&[1]),
            Part::Changes(41, 76),
        ],
        ..NO_CHANGES
    },
    Payload {
        parts: &[
            Part::Changes(0, 40),
            Part::Bytes(&[3]),
            Part::Changes(41, 76),
        ],
        ..NO_CHANGES
    },
    // Nor does a row that goes and was never there, and rows that fall.
    Payload {
        parts: &[
            Part::Changes(0, 52),
            Part::Bytes(b"0"),
            Part::Changes(53, 76),
        ],
        ..NO_CHANGES
    },
    Payload {
        parts: &[
            Part::Changes(0, 52),
            Part::Bytes(b"3"),
            Part::Changes(53, 76),
        ],
        ..NO_CHANGES
    },
    // A base payload is no change payload.
    Payload {
        parts: &[Part::Base(0, 71)],
        ..NO_CHANGES
    },
    // A key has at most 2056 bytes.
    Payload {
        parts: &[
            Part::Changes(0, 40),
            Part::Bytes(&[1, 0, 0, 0, 0, 0, 0, 8, 8]),
            Part::Times(2056, &[7]),
            Part::Bytes(&[1, 1, 0, 0, 0, 0, 0, 0, 0, 1]),
        ],
        rows: 2,
        ..OF_THREE
    },
    Payload {
        parts: &[
            Part::Changes(0, 40),
            Part::Bytes(&[1, 0, 0, 0, 0, 0, 0, 8, 9]),
            Part::Times(2057, &[7]),
            Part::Bytes(&[1, 1, 0, 0, 0, 0, 0, 0, 0, 1]),
        ],
        ..NO_CHANGES
    },
];

#[test]
fn payloads_are_written_as_the_format_says_and_others_are_refused(
    rt: HostRuntime,
) -> Result<(), Fail> {
    assert_each(&rt, PAYLOADS)
}
