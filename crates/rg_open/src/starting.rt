ghost use Rattle.std.specs.Prelude.{◌≡◌, ◌+◌, ◌<◌, length, IfOk, IfErr};
ghost use Rattle.rg_bytes.specs.Counts.{Rose};
ghost use Rattle.rg_reservoir.specs.Kept.{base, opened, time_of};
ghost use Rattle.rg_open.specs.Starts.{IsToStart, HasStarted, HasNotStarted, LeavesLog};

use crate::fault::{OpenFault, engine_fault};
use rg_config::Plan;
use rg_engine::Engine;
use rg_event::Steps;
use rg_host::Host;
use rg_plan::TaskPlan;
use rg_reservoir::{Reservoir, Stored};
use rg_restore::{Origin, Saved, resume};
use rg_state::Table;
use std::alloc::Global;
use std::sync::ledger::Ledger;

/// The time of the last event, in milliseconds, and 0 where there is none.
pub(crate) fn last_of(reservoir: &Reservoir) -> u64
    ensures some { 0 < (base reservoir.now).committed + length (opened reservoir.now) → result ≡ time_of reservoir.now }
    ensures none { (base reservoir.now).committed + length (opened reservoir.now) ≡ 0 → result ≡ 0 }
{
    match reservoir.last_time() {
        Some(time) => time,
        None => 0,
    }
}

/// An engine that stands for all events of a reservoir whose open chunk is empty, over a past that is
/// made of it. A refusal hands the table back as it then is.
fn start_over<H: Host, T: Table, L: Ledger>(
    alloc: Global,
    past: &mut Stored<H>,
    plan: &Plan,
    task: TaskPlan,
    table: T,
    saved: Saved,
    steps: &mut Steps<L>,
) -> Result<(Engine<T>, Origin), (OpenFault, T)>
    requires start { IsToStart plan.now task (T.tells table) (T.cell table) past.old.reservoir.now }
    ensures started { IfOk result (λ r. HasStarted H.now H.may T.tells T.faults T.named T.there T.cell plan.now saved table past.old.host.now past.new.host.now past.old.reservoir.now past.new.reservoir.now task steps.old steps.new r.0 r.1.slot r.1.from) }
    ensures refused { IfErr result (λ refused. HasNotStarted H.now H.may T.tells T.faults T.named T.there T.cell plan.now saved table past.old.host.now past.new.host.now past.old.reservoir.now past.new.reservoir.now (Rose (H.disk_faults past.old.host.now) (H.disk_faults past.new.host.now)) refused.0 refused.1) }
    ensures leaves { LeavesLog H.now H.may H.clock H.since H.said H.disk_faults H.out_faults past.old.host.now past.new.host.now past.old.reservoir.now past.new.reservoir.now }
    ensures same_reservoir { past.new.reservoir.ghost_name ≡ past.old.reservoir.ghost_name }
    ensures same_host { past.new.host.ghost_name ≡ past.old.host.ghost_name }
{
    let last = last_of(past.reservoir);
    match resume(
        alloc,
        past,
        task,
        plan.schema.fields(),
        &plan.queries,
        table,
        saved,
        last,
        steps,
    ) {
        Ok(started) => Ok(started),
        Err((fault, table)) => Err((engine_fault(fault), table)),
    }
}

/// An engine that stands for all events of a reservoir whose open chunk is empty. It goes on from the fit
/// checkpoint of the greatest count, slot 0 where both have it, and from the start where none is fit.
/// A refusal hands the table back as it then is.
pub(crate) fn start<H: Host, T: Table, L: Ledger>(
    alloc: Global,
    reservoir: &mut Reservoir,
    host: &mut H,
    plan: &Plan,
    task: TaskPlan,
    table: T,
    saved: Saved,
    steps: &mut Steps<L>,
) -> Result<(Engine<T>, Origin), (OpenFault, T)>
    requires start { IsToStart plan.now task (T.tells table) (T.cell table) reservoir.old }
    ensures started { IfOk result (λ r. HasStarted H.now H.may T.tells T.faults T.named T.there T.cell plan.now saved table host.old host.new reservoir.old reservoir.new task steps.old steps.new r.0 r.1.slot r.1.from) }
    ensures refused { IfErr result (λ refused. HasNotStarted H.now H.may T.tells T.faults T.named T.there T.cell plan.now saved table host.old host.new reservoir.old reservoir.new (Rose (H.disk_faults host.old) (H.disk_faults host.new)) refused.0 refused.1) }
    ensures leaves { LeavesLog H.now H.may H.clock H.since H.said H.disk_faults H.out_faults host.old host.new reservoir.old reservoir.new }
{
    let mut past = Stored::new(reservoir, host);
    match start_over(alloc, &mut past, plan, task, table, saved, steps) {
        Ok(started) => Ok(started),
        Err(refused) => Err(refused),
    }
}
