use crate::common::{Checks, Item, Subject, assert_goes, event_of};
use crate::plans::{Ask, plan_of};
use rg_event::Event;
use rg_metric::{Agg, Answer, Answers, Func, Window};
use rg_plan::TaskPlan;
use rg_scratch::{answer_from_scratch, make_line};
use std::alloc::Global;
use std::test::Fail;

/// Events, the plan that they are answered by, and made lines.
#[derive(Drop)]
struct Tried {
    events: Vec<Event>,
    plan: TaskPlan,
    lines: Vec<u8>,
}

/// What is done, or what is answered.
#[derive(Clone, Copy)]
pub(crate) enum Step {
    /// The line of that number and of the seed 0 is made behind those before, which are these then.
    Line(u64, &'static [u8]),
    /// There is one event more, of this offset, which is its time too, and of these values.
    Event(u64, &'static [Item]),
    /// The events are answered by the plan of a card's number and sum of five minutes.
    ByCard,
    /// They are answered by the plan of the other functions, and of two over the payments above 100 of a merchant.
    ByAll,
    /// The answers to the event of that number are so many, and among them is this one in this place.
    Answers(u64, usize, usize, Answer),
}

fn push(alloc: Global, events: &mut Vec<Event>, time: u64, items: &[Item]) -> Option<()> {
    events.push(event_of(alloc, time, time, items)?).ok()
}

fn has(answers: &Answers, count: usize, place: usize, want: Answer, checks: &mut Checks) -> bool {
    let list = answers.as_slice();
    let is_there = match list.get(place) {
        Some(answer) => checks.same("answer", *answer, want),
        None => checks.fails("answer", "none", want),
    };
    is_there && checks.same("answers", list.len(), count)
}

/// Whether the event of that number, where there is one, is answered so.
fn is_answered(
    alloc: Global,
    tried: &Tried,
    k: u64,
    count: usize,
    place: usize,
    want: Answer,
    checks: &mut Checks,
) -> Option<bool> {
    let events = tried.events.as_slice();
    if k >= events.len() as u64 || events.len() > 1000 {
        checks.fails("events", events.len(), k);
        return None;
    }
    let answers = answer_from_scratch(alloc, &tried.plan, events, k).ok()?;
    Some(has(&answers, count, place, want, checks))
}

fn replan(alloc: Global, tried: &mut Tried, asks: &[Ask]) -> Option<()> {
    tried.plan = plan_of(alloc, asks)?;
    Some(())
}

impl Subject for Tried {
    type Step = Step;

    fn start(alloc: Global) -> Option<Tried> {
        Some(Tried {
            events: Vec::new(alloc),
            plan: plan_of(alloc, &[])?,
            lines: Vec::new(alloc),
        })
    }

    fn goes(&mut self, alloc: Global, step: &Step, checks: &mut Checks) -> bool {
        match step {
            Step::Line(number, lines) => {
                *number < 200_000
                    && make_line(0, *number, &mut self.lines).is_ok()
                    && checks.same_bytes("lines", &self.lines, lines)
            }
            Step::Event(time, items) => push(alloc, &mut self.events, *time, items).is_some(),
            Step::ByCard => replan(alloc, self, CARD).is_some(),
            Step::ByAll => replan(alloc, self, ALL).is_some(),
            Step::Answers(k, count, place, want) => {
                is_answered(alloc, self, *k, *count, *place, *want, checks) == Some(true)
            }
        }
    }
}

/// The last five minutes.
const FIVE_MINUTES: Window = Window {
    delay: 0,
    length: Some(300_000),
};

/// All payments.
const FOREVER: Window = Window {
    delay: 0,
    length: None,
};

/// The number and the sum.
const TOTALS: &[Agg] = &[
    Agg {
        func: Func::Count,
        field: 0,
    },
    Agg {
        func: Func::Sum,
        field: 3,
    },
];

/// The other functions.
const OTHERS: &[Agg] = &[
    Agg {
        func: Func::Avg,
        field: 3,
    },
    Agg {
        func: Func::SumSq,
        field: 3,
    },
    Agg {
        func: Func::Min,
        field: 3,
    },
    Agg {
        func: Func::Max,
        field: 3,
    },
    Agg {
        func: Func::CountDistinct,
        field: 2,
    },
    Agg {
        func: Func::First,
        field: 3,
    },
    Agg {
        func: Func::Last,
        field: 3,
    },
];

/// The number and the least.
const LEAST: &[Agg] = &[
    Agg {
        func: Func::Count,
        field: 0,
    },
    Agg {
        func: Func::Min,
        field: 3,
    },
];

const CARD: &[Ask] = &[Ask {
    aggs: TOTALS,
    above: None,
    columns: &[1],
    window: FIVE_MINUTES,
}];

const ALL: &[Ask] = &[
    Ask {
        aggs: OTHERS,
        above: None,
        columns: &[],
        window: FOREVER,
    },
    Ask {
        aggs: LEAST,
        above: Some(100),
        columns: &[2],
        window: FOREVER,
    },
];

/// Three payments of one card are asked of, the last one exactly five minutes behind the first.
#[test]
fn each_function_answers_for_its_window(rt: HostRuntime) -> Result<(), Fail> {
    assert_goes::<Tried>(
        &rt,
        &[
            Step::Event(0, &[Item::Text(b"c1"), Item::Text(b"m1"), Item::Int(100)]),
            Step::Event(
                299_999,
                &[Item::Text(b"c1"), Item::Text(b"m2"), Item::Int(200)],
            ),
            Step::Event(
                300_000,
                &[Item::Text(b"c1"), Item::Text(b"m1"), Item::Int(50)],
            ),
            // The payment that is exactly five minutes old has left the window of a card's number and sum.
            Step::ByCard,
            Step::Answers(0, 2, 0, Answer::Number(1)),
            Step::Answers(0, 2, 1, Answer::Number(100)),
            Step::Answers(1, 2, 0, Answer::Number(2)),
            Step::Answers(1, 2, 1, Answer::Number(300)),
            Step::Answers(2, 2, 0, Answer::Number(2)),
            Step::Answers(2, 2, 1, Answer::Number(250)),
            // Two of the functions are over the payments above 100 of a merchant.
            Step::ByAll,
            Step::Answers(2, 9, 0, Answer::Ratio(350, 3)),
            Step::Answers(2, 9, 1, Answer::Number(52_500)),
            Step::Answers(2, 9, 2, Answer::Number(50)),
            Step::Answers(2, 9, 3, Answer::Number(200)),
            Step::Answers(2, 9, 4, Answer::Number(2)),
            Step::Answers(2, 9, 5, Answer::Number(100)),
            Step::Answers(2, 9, 6, Answer::Number(50)),
            Step::Answers(2, 9, 7, Answer::Number(0)),
            Step::Answers(2, 9, 8, Answer::Dash),
            // Two lines of events are made.
            Step::Line(0, b"693,c4,m90,8095"),
            Step::Line(1, b"693,c4,m90,80951133,c35,m37,1750"),
        ],
    )
}
