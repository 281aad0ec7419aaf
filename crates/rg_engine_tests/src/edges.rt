ghost use Rattle.std.specs.Prelude.{◌≡◌, ◌<◌};

use crate::check::{are_within, fits};
use crate::common::{Checks, Subject, assert_goes, bare};
use rg_event::Event;
use rg_past::{Past, PastFault, Spot, VecPast};
use rg_window::{Edges, MoveFault, Visit};
use std::alloc::Global;
use std::test::Fail;

/// Why the recorder stopped.
#[derive(Clone, Copy, Debug, PartialEq, Eq)]
enum Stop {
    Refused,
    Memory,
}

/// Takes down the edge and the offset of each event that it visits, and refuses one.
#[derive(Drop)]
struct Recorder {
    visits: Vec<(u32, u64)>,
    refused: Option<u64>,
}

impl Visit for Recorder {
    ghost use Rattle.std.specs.Prelude.{⊤};

    type Fault = Stop;

    ghost step = { λ _ _ _ _ _. ⊤ };

    fn event(&mut self, edge: u32, event: &Event) -> Result<(), Stop> {
        if self.refused == Some(event.offset) {
            return Err(Stop::Refused);
        }
        if self.visits.push((edge, event.offset)).is_err() {
            return Err(Stop::Memory);
        }
        Ok(())
    }
}

/// A past, a walk over it, two edges and a recorder.
#[derive(Drop)]
struct Tried {
    past: VecPast,
    spot: Spot,
    edges: Edges,
    seen: Recorder,
}

/// What is done to a past or to edges over it, or what they and the recorder say.
#[derive(Clone, Copy)]
pub(crate) enum Step {
    /// All take the place of those before: a past for so many events, without one, and two edges of these offsets.
    New(u64, u64, u64),
    /// The past has one event more, of this offset and time.
    Event(u64, u64),
    /// It takes none of this offset and time, since it is full.
    Full(u64, u64),
    /// So many events stand in the past, which holds so many.
    Counts(u64, u64),
    /// The event of that number is of this offset and time.
    Is(usize, u64, u64),
    /// The walk meets an event of this offset, and goes on, or the end.
    Meets(Option<u64>),
    /// The visit of the event of this offset is refused from now on, or none.
    Refuse(Option<u64>),
    /// The edges move to this time, and so many events were visited then.
    Move(u64, usize),
    /// The same, but a visit is refused.
    Halt(u64, usize),
    /// Of this number, counted from 0, is the visit of this edge and the event of this offset.
    Visited(usize, u32, u64),
    /// The numbers of the edges.
    At(u64, u64),
    /// The offsets of the edges.
    Offsets(u64, u64),
}

/// Whether adding an event of this offset and time ends so.
fn adds(
    alloc: Global,
    past: &mut VecPast,
    offset: u64,
    time: u64,
    want: Result<(), PastFault>,
    checks: &mut Checks,
) -> bool {
    let event = bare(alloc, offset, time);
    fits(past.events(), &event) && checks.same("append", past.append(event), want)
}

fn is_at(past: &VecPast, number: usize, offset: u64, time: u64, checks: &mut Checks) -> bool {
    match past.events().get(number) {
        Some(event) => checks.same("event", (event.offset, event.time), (offset, time)),
        None => checks.fails("event", "none", (offset, time)),
    }
}

/// Whether a walk meets an event of this offset, and goes on, or the end.
fn meets<P: Past>(past: &mut P, spot: &mut Spot, offset: Option<u64>, checks: &mut Checks) -> bool {
    if past.count() < spot.number {
        return checks.fails("events", past.count(), spot.number);
    }
    match past.peek(spot) {
        Ok(Some(event)) => {
            let met = event.offset;
            past.advance(spot);
            checks.same("offset", Some(met), offset)
        }
        Ok(None) => checks.same("offset", None, offset),
        Err(fault) => checks.fails("offset", fault, offset),
    }
}

/// Whether the edges move to this time, or halt, and so many events were visited then.
fn moves(
    tried: &mut Tried,
    t: u64,
    count: usize,
    want: Result<(), MoveFault<Stop>>,
    checks: &mut Checks,
) -> bool {
    if !are_within(tried.edges.spots(), tried.past.events().len()) {
        return false;
    }
    let moved = tried.edges.move_to(&mut tried.past, t, &mut tried.seen);
    checks.same("move", moved, want) && checks.same("visits", tried.seen.visits.len(), count)
}

fn has_visited(
    seen: &Recorder,
    number: usize,
    edge: u32,
    offset: u64,
    checks: &mut Checks,
) -> bool {
    match seen.visits.get(number) {
        Some(visit) => checks.same("visit", *visit, (edge, offset)),
        None => checks.fails("visit", "none", (edge, offset)),
    }
}

fn are_at(edges: &Edges, low: u64, high: u64, checks: &mut Checks) -> bool {
    match edges.spots() {
        [first, second] => checks.same("numbers", (first.number, second.number), (low, high)),
        spots => checks.fails("edges", spots.len(), 2),
    }
}

/// A past for so many events, at most three, and edges of these offsets at its start.
fn tried_of(alloc: Global, limit: u64, low: u64, high: u64) -> Option<Tried> {
    if limit > 3 || low >= high {
        return None;
    }
    let past = VecPast::new(alloc, limit);
    let spot = past.start();
    Some(Tried {
        past,
        spot,
        edges: Edges::new(alloc, &[low, high], &[spot, spot]).ok()?,
        seen: Recorder {
            visits: Vec::new(alloc),
            refused: None,
        },
    })
}

fn renew(alloc: Global, tried: &mut Tried, limit: u64, low: u64, high: u64) -> bool {
    match tried_of(alloc, limit, low, high) {
        Some(other) => {
            *tried = other;
            true
        }
        None => false,
    }
}

/// Whether edges or the recorder do or say so.
fn goes_on(tried: &mut Tried, step: &Step, checks: &mut Checks) -> bool {
    match step {
        Step::Refuse(offset) => {
            tried.seen.refused = *offset;
            true
        }
        Step::Move(t, count) => moves(tried, *t, *count, Ok(()), checks),
        Step::Halt(t, count) => {
            let refused = Err(MoveFault::Visit(Stop::Refused));
            moves(tried, *t, *count, refused, checks)
        }
        Step::Visited(number, edge, offset) => {
            has_visited(&tried.seen, *number, *edge, *offset, checks)
        }
        Step::At(low, high) => are_at(&tried.edges, *low, *high, checks),
        Step::Offsets(low, high) => {
            checks.same("offsets", tried.edges.offsets(), [*low, *high].as_slice())
        }
        _ => false,
    }
}

impl Subject for Tried {
    type Step = Step;

    fn start(alloc: Global) -> Option<Tried> {
        tried_of(alloc, 3, 0, 10)
    }

    fn goes(&mut self, alloc: Global, step: &Step, checks: &mut Checks) -> bool {
        match step {
            Step::New(limit, low, high) => renew(alloc, self, *limit, *low, *high),
            Step::Event(offset, time) => {
                adds(alloc, &mut self.past, *offset, *time, Ok(()), checks)
            }
            Step::Full(offset, time) => {
                let full = Err(PastFault::Full);
                adds(alloc, &mut self.past, *offset, *time, full, checks)
            }
            Step::Counts(count, limit) => {
                let counts = (self.past.count(), self.past.limit());
                checks.same("count and limit", counts, (*count, *limit))
            }
            Step::Is(number, offset, time) => { is_at(&self.past, *number, *offset, *time, checks) }
            Step::Meets(offset) => meets(&mut self.past, &mut self.spot, *offset, checks),
            _ => goes_on(self, step, checks),
        }
    }
}

#[test]
fn a_full_past_stays_and_a_walk_meets_each_event_and_then_the_end(
    rt: HostRuntime,
) -> Result<(), Fail> {
    assert_goes::<Tried>(
        &rt,
        &[
            Step::New(1, 0, 10),
            Step::Event(5, 700),
            Step::Full(9, 700),
            Step::Counts(1, 1),
            Step::Is(0, 5, 700),
            Step::New(3, 0, 10),
            Step::Event(0, 10),
            Step::Event(12, 10),
            Step::Event(25, 40),
            Step::Meets(Some(0)),
            Step::Meets(Some(12)),
            Step::Meets(Some(25)),
            Step::Meets(None),
        ],
    )
}

/// Moves of the edges over a few events, what is visited then, and where the edges are.
const MOVES: &[Step] = &[
    Step::Event(0, 0),
    Step::Event(12, 5),
    Step::Event(25, 15),
    Step::Move(0, 1),
    Step::Move(5, 2),
    Step::Move(15, 5),
    Step::Visited(0, 0, 0),
    Step::Visited(1, 0, 12),
    Step::Visited(2, 0, 25),
    Step::Visited(3, 1, 0),
    Step::Visited(4, 1, 12),
    Step::At(3, 2),
    Step::Offsets(0, 10),
    // A move to before the first event visits nothing.
    Step::New(3, 0, 10),
    Step::Event(0, 5),
    Step::Move(4, 0),
    Step::At(0, 0),
    // An offset near the greatest number doesn't wrap.
    Step::New(3, u64::MAX - 5, u64::MAX),
    Step::Event(0, 5),
    Step::Move(u64::MAX, 1),
    Step::Visited(0, 0, 0),
    Step::At(1, 0),
    // A refused visit leaves the edge at its event.
    Step::New(3, 0, 10),
    Step::Event(0, 0),
    Step::Event(12, 5),
    Step::Refuse(Some(12)),
    Step::Halt(20, 1),
    Step::Visited(0, 0, 0),
    Step::At(1, 0),
    // It goes on from there once that isn't refused.
    Step::Refuse(None),
    Step::Move(20, 4),
    Step::Visited(0, 0, 0),
    Step::Visited(1, 0, 12),
    Step::Visited(2, 1, 0),
    Step::Visited(3, 1, 12),
    Step::At(2, 2),
];

#[test]
fn each_edge_passes_an_event_at_its_time_and_offset(rt: HostRuntime) -> Result<(), Fail> {
    assert_goes::<Tried>(&rt, MOVES)
}
