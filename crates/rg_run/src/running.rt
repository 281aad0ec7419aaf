ghost use Rattle.std.specs.Prelude.{◌≡◌, ◌≤◌, ◌^◌, false};
ghost use Rattle.rg_config.specs.Plans.{planned};
ghost use Rattle.rg_config.specs.Read.{IsReadPlan};
ghost use Rattle.rg_run.specs.Answered.{IsFresh, IsToBegin, StaysTrue, Explains, CountsGrow};
ghost use Rattle.rg_run.specs.Begun.{Begun};
ghost use Rattle.rg_run.specs.Logs.{KeepsLog};

use crate::ahead::put_ahead;
use crate::fault::RunFault;
use crate::telling::put_mark;
use crate::turn::turn;
use crate::turning::Turning;
use rg_config::Plan;
use rg_host::{Lines, Source};
use rg_reply::Mark;
use rg_task::Task;
use std::alloc::Global;

/// Answers the lines of an input by a plan, over a task whose store was opened, from a checkpoint of the
/// first `from` events. Puts the open line first. The first line has the offset `first`; it must be at most
/// the task's next one, or nothing is read, stored or put. Each refusal but `Write` leaves whole lines put.
pub fn run<I: Source, K: Task>(
    alloc: Global,
    lines: &mut Lines,
    plan: &Plan,
    from: u64,
    first: u64,
    input: &mut I,
    task: &mut K,
) -> Result<(), RunFault>
    requires read { IsReadPlan plan.now }
    requires fresh { IsFresh lines.old }
    requires first { first ≤ 2 ^ 61 }
    requires going { (K.view.at task.old).ended ≡ false }
    // At each moment the run is on its course; at Ok all was put and stored.
    ensures begun { (b : Begun) → IsToBegin K.view (planned plan.now) b (I.left input.old) from first task.old →
        StaysTrue K.view (planned plan.now) b (I.left input.new) result task.old task.new }

    // Each refusal has its cause.
    ensures cause { Explains K.view K.disk_faults K.out_faults I.left I.faults (planned plan.now) first result input.old input.new task.old task.new }
    ensures log_stays { KeepsLog K.view (planned plan.now) task.old task.new }
    ensures goes { K.view.goes task.old task.new }
    ensures counts { CountsGrow K.view K.disk_faults K.out_faults I.faults input.old input.new task.old task.new }
{
    let next = task.next();
    if first > next {
        return Err(RunFault::Gap(next));
    }
    let opened = Mark::Opened(next, task.count(), from);
    match put_mark(alloc, task, opened) {
        Ok(()) => {}
        Err(fault) => return Err(fault),
    }
    let mut turning = Turning::new(alloc, first);
    'lines: loop {
        match put_ahead(lines, &mut turning, task) {
            Ok(()) => {}
            Err(fault) => return Err(fault),
        }
        match turn(lines, &mut turning, plan, input, task) {
            Ok(true) => {}
            Ok(false) => return Ok(()),
            Err(fault) => return Err(fault),
        }
    }
}
