ghost use Rattle.std.specs.Prelude.{◌<◌, ◌≤◌};

use crate::line::add;
use crate::row::event_of;
use crate::rows::{Checks, Row, assert_each};
use crate::started::{Call, answers_by, plan_of};
use crate::store::{EMPTY, host_of};
use rg_bytes::{Memory, put_bytes};
use rg_config::Plan;
use rg_event::Event;
use rg_host::MemHost;
use rg_reply::Reply;
use rg_scratch::{answer_from_scratch, make_line};
use std::alloc::Global;
use std::str;
use std::test::Fail;

/// The plan of queries over the lines that are made, with settings of how much is kept.
macro_rules! asked {
    ($queries:literal, $settings:literal) => {
        concat!(
            "queries = [",
            $queries,
            "]\n[stream]\nname = \"payments\"\ncolumns = [\"ts\", \"card:text\", \"merchant:text\", \"amount:int\", \"shop:id\", \"online:flag\"]\n[settings]\n",
            $settings
        )
    };
}

/// The same with small settings, by which chunks are read back and checkpoints saved.
macro_rules! small {
    ($queries:literal) => {
        asked!($queries, "cache = 1\nchunk = 2\ncommit = 3\nsave = 5\n")
    };
}

/// This plan and the five below it have each function over a short window and a long one, without and with a key, and
/// where nothing counts; conditions with AND, OR and NOT; delays shorter and longer than their windows; windows without
/// end; queries that share windows, conditions and keys. Many lines are just 3758, 9739, 11618, 65727, 76906 or 153812
/// ms apart.
const EACH: &str = small!(
    "\"SELECT count(*), sum(amount), avg(amount), sumsq(amount), first(amount), last(amount), min(amount), max(amount), countDistinct(merchant), median(amount), pct(90, amount) FROM payments OVER SLIDING 9739 ms\""
);

const CONDITIONS: &str = small!(
    "\"SELECT count(*), sum(amount), avg(amount), sumsq(amount), first(amount), last(amount), min(amount), max(amount), countDistinct(merchant), median(amount), pct(90, amount) FROM payments WHERE amount >= 2000 AND NOT (merchant < 'm5' OR shop = 2) GROUP BY card OVER SLIDING 76906 ms\", \"SELECT min(amount), max(amount), avg(amount), count(*) FROM payments WHERE amount < 3000 OR amount > 7000 AND online = FALSE OVER SLIDING 7860 ms DELAYED BY 3758 ms\""
);

const WITHOUT_END: &str = small!(
    "\"SELECT count(*), sum(amount), last(amount), countDistinct(amount), median(amount), pct(100, amount) FROM payments GROUP BY card, shop OVER INFINITE\", \"SELECT min(amount), max(amount), first(amount), last(amount) FROM payments GROUP BY shop, online OVER INFINITE DELAYED BY 3758 ms\""
);

const KINDS: &str = small!(
    "\"SELECT min(shop), max(shop), first(shop), last(shop), countDistinct(shop), countDistinct(online), countDistinct(card), pct(1, shop) FROM payments WHERE NOT (online = TRUE AND amount > 5000) GROUP BY merchant OVER SLIDING 65727 ms\", \"SELECT min(shop), max(shop), countDistinct(merchant) FROM payments WHERE shop != 1 OVER SLIDING 5637 ms DELAYED BY 1 minute\""
);

const SHARED: &str = asked!(
    "\"SELECT count(*), sum(amount) FROM payments GROUP BY card OVER SLIDING 76906 ms\", \"SELECT count(*), max(amount) FROM payments WHERE amount > 5000 GROUP BY card OVER SLIDING 76906 ms DELAYED BY 76906 ms\", \"SELECT avg(amount), countDistinct(card) FROM payments WHERE amount > 5000 OVER SLIDING 76906 ms\", \"SELECT sum(amount), first(amount) FROM payments OVER SLIDING 153812 ms\"",
    "cache = 3\nchunk = 7\ncommit = 10\nsave = 40\n"
);

const UNSET: &str = asked!(
    "\"SELECT count(*), sumsq(amount), countDistinct(merchant) FROM payments WHERE card >= 'c2' GROUP BY online, shop OVER SLIDING 1 day\", \"SELECT last(amount), min(amount), count(*) FROM payments WHERE amount <= 5000 OVER SLIDING 1 ms\"",
    ""
);

/// The plan of the run that stores what is replayed.
const STORING: &str = small!("\"SELECT count(*) FROM payments OVER SLIDING 1 ms\"");

/// Of which seed the lines are made, how many, and how many of them the first run has.
const SEED: u64 = 7;

const LINES: u64 = 300;

const FIRST_LINES: u64 = 150;

/// Adds a made line, with one of three shops and a flag behind it.
fn add_line(input: &mut Vec<u8>, i: u64) -> Result<(), Memory>
    requires { i < 200000 }
{
    make_line(SEED, i, input)?;
    let shop: &[u8] = match i / 2 % 3 {
        0 => b",0",
        1 => b",1",
        _ => b",2",
    };
    put_bytes(input, shop)?;
    let online: &[u8] = if i % 5 < 2 { b",true\n" } else { b",false\n" };
    put_bytes(input, online)
}

/// Adds the lines from one up to another.
fn add_lines(input: &mut Vec<u8>, from: u64, to: u64) -> Result<(), Memory>
    requires { to ≤ 200000 }
{
    for i in from..to {
        add_line(input, i)?;
    }
    Ok(())
}

/// Adds the line of the reply to the last of some events, each aggregator by a walk over all of them.
fn add_reply(
    alloc: Global,
    plan: &Plan,
    events: &[Event],
    replies: &mut Vec<u8>,
) -> Result<(), Memory> {
    if events.is_empty() || events.len() > 1000 {
        return Err(Memory);
    }
    let last = events.len() as u64 - 1;
    let answers = answer_from_scratch(alloc, &plan.task, events, last)?;
    add(replies, last, Reply::Answered(answers))
}

/// Adds the event of a line to those before it, and the line of the reply to it.
fn take_line(
    alloc: Global,
    plan: &Plan,
    line: &[u8],
    events: &mut Vec<Event>,
    replies: &mut Vec<u8>,
) -> Result<(), Memory> {
    match event_of(alloc, &plan.schema, events.len() as u64, line) {
        Ok(event) => events.push(event)?,
        Err(_) => return Err(Memory),
    }
    add_reply(alloc, plan, events, replies)
}

fn take_lines(
    alloc: Global,
    plan: &Plan,
    input: &[u8],
    events: &mut Vec<Event>,
    replies: &mut Vec<u8>,
) -> Result<(), Memory> {
    for line in str::from_utf8(input).unwrap_or("no text").lines() {
        take_line(alloc, plan, line.as_bytes(), events, replies)?;
    }
    Ok(())
}

/// Adds the lines of the replies to an input, all from scratch.
fn add_from_scratch(
    alloc: Global,
    plan: &Plan,
    input: &[u8],
    replies: &mut Vec<u8>,
) -> Result<(), Memory> {
    let mut events = Vec::new(alloc);
    let done = take_lines(alloc, plan, input, &mut events, replies);
    drop(events);
    done
}

/// The same by the plan that a text says.
fn add_replies(
    alloc: Global,
    text: &str,
    input: &[u8],
    replies: &mut Vec<u8>,
) -> Result<(), Memory> {
    let plan = plan_of(alloc, text)?;
    let done = add_from_scratch(alloc, &plan, input, replies);
    drop(plan);
    done
}

/// Whether a line is the first of these replies.
fn is_reply(line: &[u8], replies: &[u8], checks: &mut Checks) -> bool {
    let wanted = replies.get(..line.len()).unwrap_or(replies);
    checks.same_bytes("reply", line, wanted)
}

/// Whether these are just the lines of an output that begin with a digit, as replies do.
fn are_replies(output: &str, replies: &[u8], checks: &mut Checks) -> bool {
    let mut left = replies;
    for line in output.split_inclusive('\n') {
        if line.as_bytes().first().is_some_and(u8::is_ascii_digit) {
            match left.strip_prefix(line.as_bytes()) {
                Some(rest) => left = rest,
                None => return is_reply(line.as_bytes(), left, checks),
            }
        }
    }
    checks.same_bytes("replies behind the last one", b"", left)
}

/// The lines of both runs: the first ones, and all of them.
#[derive(Clone, Copy)]
struct Lines<'a> {
    first: &'a [u8],
    all: &'a [u8],
}

/// How replies to the lines come about.
#[derive(Clone, Copy)]
enum Way {
    /// By a run that has the first lines, and a second, which goes on from a checkpoint, that has all of them.
    TwoRuns,
    /// By a replay of what a run by another plan stored, which had the first lines.
    Replay,
}

/// Queries, whose replies to the lines, whichever way they come about, are those from scratch.
#[derive(Clone, Copy)]
struct Asked {
    plan: &'static str,
    way: Way,
}

fn run(
    alloc: Global,
    plan: &str,
    input: &[u8],
    host: &mut MemHost,
    checks: &mut Checks,
) -> Result<bool, Memory> {
    answers_by(alloc, plan, Call::Run(input, 1 << 20), host, checks)
}

/// Whether two runs of all the lines, and of the first of them, put just these replies.
fn runs(
    alloc: Global,
    plan: &str,
    lines: Lines<'_>,
    replies: &[u8],
    host: &mut MemHost,
    checks: &mut Checks,
) -> Result<bool, Memory> {
    let are_run = run(alloc, plan, lines.first, host, checks)?
        && run(alloc, plan, lines.all, host, checks)?;
    let output = str::from_utf8(host.output()).unwrap_or("0 no text");
    Ok(are_run && are_replies(output, replies, checks))
}

/// Whether a replay of the first lines puts just these bytes.
fn replays(
    alloc: Global,
    plan: &str,
    first: &[u8],
    wanted: &[u8],
    host: &mut MemHost,
    checks: &mut Checks,
) -> Result<bool, Memory> {
    let is_run = run(alloc, STORING, first, host, checks)?;
    let stored = host.output().len();
    let is_replayed = answers_by(alloc, plan, Call::Replay, host, checks)?;
    let output = host.output().get(stored..).unwrap_or(b"");
    Ok(is_run && is_replayed && checks.same_bytes("output", output, wanted))
}

impl Asked {
    /// Adds what is to be put.
    fn add_wanted(
        &self,
        alloc: Global,
        lines: Lines<'_>,
        wanted: &mut Vec<u8>,
    ) -> Result<(), Memory> {
        match self.way {
            Way::TwoRuns => add_replies(alloc, self.plan, lines.all, wanted),
            Way::Replay => {
                add_replies(alloc, self.plan, lines.first, wanted)?;
                put_bytes(wanted, b"done 150 150\n")
            }
        }
    }

    fn is_put_on(
        &self,
        alloc: Global,
        lines: Lines<'_>,
        wanted: &[u8],
        host: &mut MemHost,
        checks: &mut Checks,
    ) -> Result<bool, Memory> {
        match self.way {
            Way::TwoRuns => runs(alloc, self.plan, lines, wanted, host, checks),
            Way::Replay => replays(alloc, self.plan, lines.first, wanted, host, checks),
        }
    }

    /// Whether that is put over a new store.
    fn is_put(
        &self,
        alloc: Global,
        lines: Lines<'_>,
        wanted: &[u8],
        checks: &mut Checks,
    ) -> Result<bool, Memory> {
        let mut host = host_of(alloc, EMPTY, &[])?;
        let is_put = self.is_put_on(alloc, lines, wanted, &mut host, checks);
        drop(host);
        is_put
    }

    /// Whether the first lines and all of them give what is from scratch.
    fn is_so_of(
        &self,
        alloc: Global,
        lines: Lines<'_>,
        checks: &mut Checks,
    ) -> Result<bool, Memory> {
        let mut wanted = Vec::new(alloc);
        let made = self.add_wanted(alloc, lines, &mut wanted);
        let is_put = self.is_put(alloc, lines, &wanted, checks);
        drop(wanted);
        made?;
        is_put
    }
}

impl Row for Asked {
    fn is_so(&self, rt: HostRuntime, checks: &mut Checks) -> Result<bool, Memory> {
        let mut all = Vec::new(rt.alloc());
        let begun = add_lines(&mut all, 0, FIRST_LINES);
        let length = all.len();
        let ended = add_lines(&mut all, FIRST_LINES, LINES);
        let lines = Lines {
            first: all.get(..length).unwrap_or(b""),
            all: &all,
        };
        let is_so = self.is_so_of(rt.alloc(), lines, checks);
        drop(all);
        begun?;
        ended?;
        is_so
    }
}

const ALL_ASKED: &[Asked] = &[
    // by two runs
    Asked {
        plan: EACH,
        way: Way::TwoRuns,
    },
    Asked {
        plan: CONDITIONS,
        way: Way::TwoRuns,
    },
    Asked {
        plan: WITHOUT_END,
        way: Way::TwoRuns,
    },
    Asked {
        plan: KINDS,
        way: Way::TwoRuns,
    },
    Asked {
        plan: SHARED,
        way: Way::TwoRuns,
    },
    Asked {
        plan: UNSET,
        way: Way::TwoRuns,
    },
    // other queries than those of the run that stored the lines, by a replay
    Asked {
        plan: EACH,
        way: Way::Replay,
    },
    Asked {
        plan: CONDITIONS,
        way: Way::Replay,
    },
    Asked {
        plan: WITHOUT_END,
        way: Way::Replay,
    },
    Asked {
        plan: KINDS,
        way: Way::Replay,
    },
    Asked {
        plan: SHARED,
        way: Way::Replay,
    },
    Asked {
        plan: UNSET,
        way: Way::Replay,
    },
];

#[test]
fn the_replies_are_those_from_scratch(rt: HostRuntime) -> Result<(), Fail> {
    assert_each(&rt, rt, ALL_ASKED)
}
