ghost use Rattle.std.specs.Prelude.{◌≡◌, ◌<◌, None, IfOk};
ghost use Rattle.rg_config.specs.Read.{IsReadPlan};

use crate::rows::Checks;
use rg_bytes::Memory;
use rg_config::{Plan, read_plan};
use rg_event::{Room, Steps};
use rg_explain::{CheckFault, check};
use rg_host::{Failed, MemHost, Source};
use rg_open::{OpenFault, Resumed, open_store};
use rg_recover::run;
use rg_replay::replay;
use rg_state::MemTable;
use std::alloc::Global;
use std::marker::Brand;
use std::sync::ledger::{Blank, Ledger};

/// What is called with a plan and a host in memory.
#[derive(Clone, Copy)]
pub(crate) enum Call<'a> {
    /// A check of the plan, which answers this.
    Check(Result<(), CheckFault>),
    /// An opening of the store, which answers this.
    Open(Result<Resumed, OpenFault>),
    /// A run from offset 0 on, which comes to its end, over these bytes, of which a read gives at most so many.
    Run(&'a [u8], usize),
    /// A replay from offset 0 on, which comes to its end.
    Replay,
}

/// A source that gives at most `most` bytes a read.
#[derive(Drop)]
struct Input<'a> {
    bytes: &'a [u8],
    most: usize,
}

impl Source for Input<'_> {
    ghost left = { λ _. None };

    ghost faults = { λ _. 0 };

    fn read(&mut self, buf: &mut [u8]) -> Result<usize, Failed> {
        let count = self.most.min(buf.len()).min(self.bytes.len());
        buf[..count].copy_from_slice(&self.bytes[..count]);
        self.bytes = &self.bytes[count..];
        Ok(count)
    }
}

/// The plan that a text says.
pub(crate) fn plan_of(alloc: Global, text: &str) -> Result<Plan, Memory>
    ensures { IfOk result IsReadPlan }
{
    match read_plan(alloc, text.as_bytes()) {
        Ok(plan) => Ok(plan),
        Err(_) => Err(Memory),
    }
}

/// What the opening of a store answers.
fn open<L: Ledger>(
    alloc: Global,
    plan: &Plan,
    host: &mut MemHost,
    steps: &mut Steps<L>,
) -> Result<Resumed, OpenFault>
    requires { IsReadPlan plan.now }
{
    match open_store(alloc, host, plan, MemTable::new(alloc), steps) {
        Ok((opened, resumed)) => {
            drop(opened);
            Ok(resumed)
        }
        Err((fault, table)) => {
            drop(table);
            Err(fault)
        }
    }
}

/// Whether a replay comes to its end.
fn replays<L: Ledger>(
    alloc: Global,
    plan: &Plan,
    host: &mut MemHost,
    steps: &mut Steps<L>,
    checks: &mut Checks,
) -> Result<bool, Memory>
    requires { IsReadPlan plan.now }
{
    let room = Room {
        chunk: plan.room.chunk,
        cache: plan.room.cache,
        limit: 1_000,
    };
    let task = plan.task.copy(alloc)?;
    let replayed = replay(alloc, host, &plan.schema, room, task, 0, steps);
    Ok(checks.same("replay", replayed, Ok(())))
}

/// Whether a call answers so.
fn answers<L: Ledger>(
    alloc: Global,
    plan: &Plan,
    call: Call<'_>,
    host: &mut MemHost,
    steps: &mut Steps<L>,
    checks: &mut Checks,
) -> Result<bool, Memory>
    requires { IsReadPlan plan.now }
{
    match call {
        Call::Check(wanted) => Ok(checks.same("check", check(alloc, plan, host), wanted)),
        Call::Open(wanted) => Ok(checks.same("opening", open(alloc, plan, host, steps), wanted)),
        Call::Run(bytes, most) => {
            let mut input = Input { bytes, most };
            let done = run(alloc, plan, 0, &mut input, host, steps);
            Ok(checks.same("run", done, Ok(())))
        }
        Call::Replay => replays(alloc, plan, host, steps, checks),
    }
}

/// The same with a blank ledger.
fn answers_counted<L: Ledger>(
    alloc: Global,
    plan: &Plan,
    call: Call<'_>,
    host: &mut MemHost,
    blank: Blank,
    checks: &mut Checks,
) -> Result<bool, Memory>
    requires named { blank.name ≡ L.name }
    requires parts { blank.parts ≡ L.parts }
    requires whole { 0 < blank.parts }
    requires read { IsReadPlan plan.now }
{
    let mut steps = Steps::<L>::new(blank);
    let answers = answers(alloc, plan, call, host, &mut steps, checks);
    drop(steps);
    answers
}

/// The same by the plan that a text says, with a ledger of its own.
pub(crate) fn answers_by(
    alloc: Global,
    text: &str,
    call: Call<'_>,
    host: &mut MemHost,
    checks: &mut Checks,
) -> Result<bool, Memory> {
    let plan = plan_of(alloc, text)?;
    let answers = answers_counted::<Brand>(alloc, &plan, call, host, Blank::new(1), checks);
    drop(plan);
    answers
}
