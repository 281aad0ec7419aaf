use rg_event::{Event, Value, Values, Word};
use std::alloc::Global;
use std::fmt::Debug;
use std::process::Abort;
use std::test::Fail;

/// What steps compare. The first that came otherwise than it was wanted is kept as text.
#[derive(Drop)]
pub(crate) struct Checks {
    /// Empty where nothing came otherwise.
    wrong: String,
}

impl Checks {
    /// It isn't so: this came, and that was wanted. What is kept is cut where memory runs out.
    pub(crate) fn fails<A: Copy + Debug, B: Copy + Debug>(
        &mut self,
        what: &str,
        came: A,
        wanted: B,
    ) -> bool {
        if self.wrong.is_empty() {
            drop(write!(self.wrong, "{what}: came {came:?}, wanted {wanted:?}"));
        }
        false
    }

    /// Whether this came as it was wanted.
    pub(crate) fn same<T: Copy + Debug + PartialEq>(
        &mut self,
        what: &str,
        came: T,
        wanted: T,
    ) -> bool {
        came == wanted || self.fails(what, came, wanted)
    }

    /// Whether these bytes came as they were wanted. They are told as a byte string is written.
    pub(crate) fn same_bytes(&mut self, what: &str, came: &[u8], wanted: &[u8]) -> bool {
        if came != wanted && self.wrong.is_empty() {
            let (came, wanted) = (came.escape_ascii(), wanted.escape_ascii());
            drop(write!(self.wrong, "{what}: came b\"{came}\", wanted b\"{wanted}\""));
        }
        came == wanted
    }

    /// Hands on whether something is so. Where it isn't, it keeps where that was. Where nothing is kept yet, no value
    /// came, as where memory runs out.
    pub(crate) fn at<T: Copy + Debug>(&mut self, is_so: bool, what: &str, place: T) -> bool {
        if !is_so {
            self.fails("value", "none", "one");
            drop(write!(self.wrong, ", at {what} {place:?}"));
        }
        is_so
    }
}

/// What a list of steps is tried on.
pub(crate) trait Subject: Drop {
    type Step;

    /// One that nothing was done to; none without memory.
    fn start(alloc: Global) -> Option<Self>;

    /// Whether it takes the step, and does or says so. What came otherwise is kept in the checks.
    fn goes(&mut self, alloc: Global, step: &Self::Step, checks: &mut Checks) -> bool;
}

/// Whether each of these steps goes so.
fn go<S: Subject>(alloc: Global, subject: &mut S, steps: &[S::Step], checks: &mut Checks) -> bool {
    for (number, step) in steps.iter().enumerate() {
        let goes = subject.goes(alloc, step, checks);
        if !checks.at(goes, "step", number) {
            return false;
        }
    }
    true
}

/// Whether they do from the start on.
fn go_from_start<S: Subject>(alloc: Global, steps: &[S::Step], checks: &mut Checks) -> bool {
    match S::start(alloc) {
        None => checks.fails("start", "none", "one"),
        Some(mut subject) => {
            let go = go(alloc, &mut subject, steps, checks);
            drop(subject);
            go
        }
    }
}

/// From the start on each of these steps goes so. A failure tells what came of the first that doesn't, what was wanted,
/// and last the step's number, counted from 0.
pub(crate) fn assert_goes<S: Subject>(
    rt: &(impl Abort + AllocGlobal),
    steps: &[S::Step],
) -> Result<(), Fail> {
    let alloc = rt.alloc();
    let mut checks = Checks {
        wrong: String::new(alloc),
    };
    assert!(rt;
        go_from_start::<S>(alloc, steps, &mut checks),
        "{}",
        checks.wrong
    );
    drop(checks);
    Ok(())
}

/// A value of an event, or one that is compared with it. In a row it stands behind a reference: a list of rows that hold
/// a reference within another value is built in its test, and dear to prove, where others are constants.
#[derive(Clone, Copy)]
pub(crate) enum Item {
    Flag(bool),
    Int(i64),
    Id(u64),
    Text(&'static [u8]),
}

/// The value; none where the bytes are no text.
pub(crate) fn value_of(alloc: Global, item: &Item) -> Option<Value> {
    match item {
        Item::Flag(flag) => Some(Value::Flag(*flag)),
        Item::Int(number) => Some(Value::Int(*number)),
        Item::Id(number) => Some(Value::Id(*number)),
        Item::Text(bytes) => Some(Value::Text(Word::new(alloc, bytes).ok()??)),
    }
}

fn push_value(alloc: Global, values: &mut Values, item: &Item) -> Option<()> {
    values.push(value_of(alloc, item)?).ok()
}

/// An event of these values.
pub(crate) fn event_of(alloc: Global, offset: u64, time: u64, items: &[Item]) -> Option<Event> {
    let mut values = Values::new(alloc);
    for item in items {
        push_value(alloc, &mut values, item)?;
    }
    Some(Event {
        offset,
        time,
        values,
    })
}

/// An event without values.
pub(crate) fn bare(alloc: Global, offset: u64, time: u64) -> Event {
    Event {
        offset,
        time,
        values: Values::new(alloc),
    }
}
