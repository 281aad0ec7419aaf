use crate::common::{Checks, Item, Subject, assert_goes, value_of};
use rg_agg::{Unfit, is_like};
use rg_bytes::ByteReader;
use rg_event::{Kind, Value};
use rg_metric::{Func, is_admitted};
use rg_multiset::Tally;
use std::alloc::Global;
use std::mem;
use std::test::Fail;

/// A tally, and its copy where one was made.
#[derive(Drop)]
struct Tried {
    tally: Tally<Value>,
    copy: Tally<Value>,
}

/// What is done to a tally, or what it says.
#[derive(Clone, Copy)]
pub(crate) enum Step {
    /// One of no values takes the place of the one before.
    New,
    /// A value is counted once more.
    Add(&'static Item),
    Remove(&'static Item),
    /// A removal that is refused.
    Refuse(&'static Item),
    /// A copy is made.
    Copy,
    /// The copy and the tally change places.
    Swap,
    /// How many values it has, and how many different ones.
    Has(u64, u64),
    Is(Kind),
    /// It is written as these bytes.
    Writes(&'static [u8]),
    /// The tally that these bytes say takes its place.
    Reads(&'static [u8]),
}

/// Whether a value is counted once more, removed, or refused.
fn changes(tally: &mut Tally<Value>, value: &Value, step: &Step, checks: &mut Checks) -> bool {
    match step {
        Step::Add(_) => {
            tally.size() < 1_000
                && is_like(tally.kind(), value)
                && is_admitted(Func::CountDistinct, value)
                && tally.add(value).is_ok()
        }
        Step::Remove(_) => checks.same("removal", tally.remove(value), Ok(())),
        _ => checks.same("removal", tally.remove(value), Err(Unfit)),
    }
}

fn changes_by(
    alloc: Global,
    tally: &mut Tally<Value>,
    item: &Item,
    step: &Step,
    checks: &mut Checks,
) -> bool {
    match value_of(alloc, item) {
        Some(value) => {
            let is_so = changes(tally, &value, step, checks);
            drop(value);
            is_so
        }
        None => false,
    }
}

fn is_written(alloc: Global, tally: &Tally<Value>, want: &[u8], checks: &mut Checks) -> bool {
    let mut out = Vec::new(alloc);
    let is_so = tally.put(7, &mut out).is_ok() && checks.same_bytes("written", &out, want);
    drop(out);
    is_so
}

/// Puts a tally, where there is one, in the place of another one.
fn put(place: &mut Tally<Value>, tally: Option<Tally<Value>>) -> bool {
    match tally {
        Some(tally) => {
            *place = tally;
            true
        }
        None => false,
    }
}

fn reads(alloc: Global, place: &mut Tally<Value>, bytes: &[u8], checks: &mut Checks) -> bool {
    match Tally::read(alloc, 7, &mut ByteReader::new(bytes)) {
        Ok(tally) => put(place, Some(tally)),
        Err(fault) => checks.fails("fault", fault, "none"),
    }
}

fn swap(tried: &mut Tried) -> bool {
    mem::swap(&mut tried.tally, &mut tried.copy);
    true
}

impl Subject for Tried {
    type Step = Step;

    fn start(alloc: Global) -> Option<Tried> {
        Some(Tried {
            tally: Tally::new(alloc),
            copy: Tally::new(alloc),
        })
    }

    fn goes(&mut self, alloc: Global, step: &Step, checks: &mut Checks) -> bool {
        match step {
            Step::New => put(&mut self.tally, Some(Tally::new(alloc))),
            Step::Add(item) | Step::Remove(item) | Step::Refuse(item) => {
                changes_by(alloc, &mut self.tally, item, step, checks)
            }
            Step::Copy => put(&mut self.copy, self.tally.copy(alloc).ok()),
            Step::Swap => swap(self),
            Step::Has(size, distinct) => {
                let counts = (self.tally.size(), self.tally.distinct());
                checks.same("size and distinct", counts, (*size, *distinct))
            }
            Step::Is(kind) => checks.same("kind", self.tally.kind(), Some(*kind)),
            Step::Writes(bytes) => is_written(alloc, &self.tally, bytes, checks),
            Step::Reads(bytes) => reads(alloc, &mut self.tally, bytes, checks),
        }
    }
}

/// The pairs of the ints 1 and 2.
const LEFT: &[u8] =
    b"\x07\0\0\0\0\0\0\0\x02\x01\0\0\0\0\0\0\0\x01\0\0\0\0\0\0\0\x01\x01\0\0\0\0\0\0\0\x02\0\0\0\0\0\0\0\x01";

#[test]
fn a_tally_counts_each_value_and_its_copy_stays(rt: HostRuntime) -> Result<(), Fail> {
    assert_goes::<Tried>(
        &rt,
        &[
            // A tally and its copy, each of two threes and a one, change by themselves.
            Step::Add(&Item::Int(3)),
            Step::Add(&Item::Int(1)),
            Step::Add(&Item::Int(3)),
            Step::Copy,
            Step::Remove(&Item::Int(1)),
            Step::Swap,
            Step::Has(3, 2),
            Step::Remove(&Item::Int(3)),
            Step::Has(2, 2),
            Step::Swap,
            Step::Has(2, 1),
            // A tally of three ints, four in all, of which two can be removed, and an id can't, is written and read back.
            Step::New,
            Step::Add(&Item::Int(3)),
            Step::Add(&Item::Int(1)),
            Step::Add(&Item::Int(2)),
            Step::Add(&Item::Int(2)),
            Step::Has(4, 3),
            Step::Is(Kind::Int),
            Step::Remove(&Item::Int(3)),
            Step::Remove(&Item::Int(2)),
            Step::Refuse(&Item::Id(2)),
            Step::Writes(LEFT),
            Step::New,
            Step::Reads(LEFT),
            Step::Has(2, 2),
        ],
    )
}
