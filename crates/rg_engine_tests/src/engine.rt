ghost use Rattle.std.specs.Prelude.{◌≡◌, ◌<◌, length, IfOk, IfSome};

use crate::check::{are_within, fits};
use crate::common::{Checks, Item, Subject, assert_goes, event_of};
use crate::plans::{Ask, plan_of};
use crate::table::{Written, writes};
use rg_engine::{Engine, EngineFault};
use rg_event::{Event, Steps};
use rg_metric::{Agg, Answer, Answers, Func, Window};
use rg_past::{Past, PastFault, Spot, VecPast};
use rg_plan::TaskPlan;
use rg_state::MemTable;
use std::alloc::Global;
use std::marker::Brand;
use std::sync::ledger::{Blank, Ledger};
use std::test::Fail;

const COUNT: Agg = Agg {
    func: Func::Count,
    field: 0,
};

const SUM: Agg = Agg {
    func: Func::Sum,
    field: 3,
};

const LAST: Agg = Agg {
    func: Func::Last,
    field: 3,
};

/// A mean, the first value of another column, the last value and the number.
const REST: &[Agg] = &[
    Agg {
        func: Func::Avg,
        field: 3,
    },
    Agg {
        func: Func::First,
        field: 4,
    },
    LAST,
    COUNT,
];

const SQUARES: &[Agg] = &[
    COUNT,
    Agg {
        func: Func::SumSq,
        field: 3,
    },
];

/// Those that keep more than one value.
const VARIED: &[Agg] = &[
    Agg {
        func: Func::Min,
        field: 3,
    },
    Agg {
        func: Func::Max,
        field: 4,
    },
    Agg {
        func: Func::CountDistinct,
        field: 4,
    },
    Agg {
        func: Func::Median,
        field: 3,
    },
    Agg {
        func: Func::Pct(90),
        field: 4,
    },
];

/// Ten milliseconds of all payments.
const TEN: Ask = Ask {
    aggs: &[COUNT, SUM],
    above: None,
    columns: &[1],
    window: Window {
        delay: 0,
        length: Some(10),
    },
};

/// Windows that share an offset, a delay longer than its window, a condition, keys and no key, a window without end, and
/// each function.
const ASKS: &[Ask] = &[
    TEN,
    // A window that begins where those ten end.
    Ask {
        aggs: REST,
        window: Window {
            delay: 10,
            length: Some(5),
        },
        ..TEN
    },
    Ask {
        aggs: SQUARES,
        above: Some(60),
        columns: &[2, 1],
        ..TEN
    },
    // One whose delay is longer than it.
    Ask {
        aggs: &[SUM],
        above: Some(60),
        columns: &[],
        window: Window {
            delay: 20,
            length: Some(1),
        },
    },
    Ask {
        aggs: &[LAST, COUNT],
        columns: &[],
        window: Window {
            delay: 1,
            length: None,
        },
        ..TEN
    },
    Ask {
        aggs: VARIED,
        columns: &[2],
        window: Window {
            delay: 3,
            length: Some(10),
        },
        ..TEN
    },
];

/// The values of three payments, the first two of one card.
const FIRST: &[Item] = &[
    Item::Text(b"c1"),
    Item::Text(b"m1"),
    Item::Int(-50),
    Item::Id(0),
];

const SECOND: &[Item] = &[
    Item::Text(b"c1"),
    Item::Text(b"m2"),
    Item::Int(61),
    Item::Id(3),
];

const THIRD: &[Item] = &[
    Item::Text(b"c2"),
    Item::Text(b"m1"),
    Item::Int(98),
    Item::Id(4),
];

/// An engine, until its table is handed back, and its past.
#[derive(Drop)]
struct Tried {
    past: VecPast,
    engine: Option<Engine<MemTable>>,
}

/// What is done to an engine, or what it says.
#[derive(Clone, Copy)]
pub(crate) enum Step {
    /// It takes an event of this offset, this time and these values, and this is the first answer.
    Takes(u64, u64, &'static [Item], Answer),
    /// It refuses one, since the past is full.
    Full(u64, u64, &'static [Item]),
    /// The first edge stands at the event of this number.
    At(u64),
    /// It hands its table back, which writes that it has so many rows, in eight bytes.
    HandsBack(&'static [u8]),
}

/// The spot of the start, as often as the plan has offsets.
fn starts(alloc: Global, past: &VecPast, plan: &TaskPlan) -> Option<Vec<Spot>>
    ensures { IfSome result (λ spots. length spots.items ≡ length plan.now.offsets) }
{
    let mut spots = Vec::new(alloc);
    for _offset in plan.offsets() {
        spots.push(past.start()).ok()?;
    }
    Some(spots)
}

/// An engine of that plan over no rows, at the start of a past.
fn engine_of(alloc: Global, past: &VecPast) -> Option<Engine<MemTable>> {
    let plan = plan_of(alloc, ASKS)?;
    match starts(alloc, past, &plan) {
        Some(spots) => {
            let made = Engine::new(alloc, plan, MemTable::new(alloc), &spots);
            drop(spots);
            made.ok()
        }
        None => None,
    }
}

fn is_first(answers: &Answers, first: Option<Answer>, checks: &mut Checks) -> bool {
    match (answers.as_slice().first(), first) {
        (Some(answer), Some(want)) => checks.same("first answer", *answer, want),
        (answer, want) => checks.fails("first answer", answer, want),
    }
}

/// Whether there is such a first answer, or without one a refusal since the past is full.
fn ends_so(
    taken: Result<Answers, EngineFault>,
    first: Option<Answer>,
    checks: &mut Checks,
) -> bool {
    match (taken, first) {
        (Ok(answers), first) => {
            let is_so = is_first(&answers, first, checks);
            drop(answers);
            is_so
        }
        (Err(fault), None) => checks.same("fault", fault, EngineFault::Past(PastFault::Full)),
        (Err(fault), Some(want)) => checks.fails("first answer", fault, want),
    }
}

/// Whether an engine takes an event, or refuses it, so.
fn takes<L: Ledger>(
    blank: Blank,
    engine: &mut Engine<MemTable>,
    past: &mut VecPast,
    event: Event,
    first: Option<Answer>,
    checks: &mut Checks,
) -> bool
    requires named { blank.name ≡ L.name }
    requires parts { blank.parts ≡ L.parts }
    requires whole { 0 < blank.parts }
{
    if !fits(past.events(), &event) || !are_within(engine.spots(), past.events().len()) {
        return false;
    }
    let mut steps = Steps::<L>::new(blank);
    let taken = engine.take(past, event, &mut steps);
    ends_so(taken, first, checks)
}

/// The same of an event of this offset, this time and these values, with a ledger of its own.
fn takes_values(
    alloc: Global,
    tried: &mut Tried,
    offset: u64,
    time: u64,
    items: &[Item],
    first: Option<Answer>,
    checks: &mut Checks,
) -> Option<bool> {
    let engine = tried.engine.as_mut()?;
    let event = event_of(alloc, offset, time, items)?;
    let blank = Blank::new(1);
    Some(takes::<Brand>(blank, engine, &mut tried.past, event, first, checks))
}

fn is_at(tried: &Tried, number: u64, checks: &mut Checks) -> bool {
    match &tried.engine {
        Some(engine) => match engine.spots().first() {
            Some(spot) => checks.same("number", spot.number, number),
            None => checks.fails("number", "no edge", number),
        },
        None => checks.fails("number", "no engine", number),
    }
}

fn hands_back(alloc: Global, tried: &mut Tried, count: &[u8], checks: &mut Checks) -> Option<bool> {
    let engine = tried.engine.take()?;
    let mut table = engine.into_table();
    let is_so = writes(alloc, &mut table, Written::Count, count, checks);
    drop(table);
    Some(is_so)
}

impl Subject for Tried {
    type Step = Step;

    fn start(alloc: Global) -> Option<Tried> {
        let past = VecPast::new(alloc, 2);
        let engine = Some(engine_of(alloc, &past)?);
        Some(Tried { past, engine })
    }

    fn goes(&mut self, alloc: Global, step: &Step, checks: &mut Checks) -> bool {
        let done = match step {
            Step::Takes(offset, time, items, first) => {
                takes_values(alloc, self, *offset, *time, items, Some(*first), checks)
            }
            Step::Full(offset, time, items) => {
                takes_values(alloc, self, *offset, *time, items, None, checks)
            }
            Step::At(number) => Some(is_at(self, *number, checks)),
            Step::HandsBack(count) => hands_back(alloc, self, count, checks),
        };
        done == Some(true)
    }
}

/// A past for two events takes the first two of three, of which two are of one card, and refuses the third.
#[test]
fn a_full_past_is_refused_and_the_engine_stays(rt: HostRuntime) -> Result<(), Fail> {
    assert_goes::<Tried>(
        &rt,
        &[
            Step::Takes(0, 0, FIRST, Answer::Number(1)),
            Step::Takes(3, 1, SECOND, Answer::Number(2)),
            Step::At(2),
            Step::Full(4, 8, THIRD),
            // The first edge stays where it was.
            Step::At(2),
            // The number and the sum of the first card, the number and the sum of squares of its second payment, which
            // alone is above 60, and the last value and the number of what is a millisecond old.
            Step::HandsBack(b"\0\0\0\0\0\0\0\x06"),
        ],
    )
}
