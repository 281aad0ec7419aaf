ghost use Rattle.std.specs.Prelude.{◌≡◌, Some};
ghost use Rattle.rg_config.specs.Plans.{planned};
ghost use Rattle.rg_config.specs.Read.{IsReadPlan};
ghost use Rattle.rg_commands.specs.Call.{ending_status, ending_line, status_after, line_after, refusal_after};
ghost use Rattle.rg_commands.specs.Causes.{EveryCall};
ghost use Rattle.rg_commands.specs.Outcome.{source_outcome, host_outcome, not_given, outcome};
ghost use Rattle.rg_commands.specs.Unread.{GoesBy};
ghost use Rattle.rg_commands.specs.Verifies.{EndsVerify, VerifiesStore, VerifyPromises};

use crate::command::Command;
use crate::ending::Ending;
use crate::last_line::{end, refusal_after};
use crate::load::load_plan;
use crate::refused::{refuse_damage, refuse_schema};
use rg_config::Plan;
use rg_event::{MAX_EVENTS, Room};
use rg_host::{Host, Source};
use rg_messages::{Refusal, Status};
use rg_verify::VerifyFault;
use std::alloc::Global;

/// How a verify ends that met this fault.
fn ending_of(alloc: Global, fault: VerifyFault) -> Ending
    ensures { EndsVerify fault (ending_status result) (ending_line result) }
{
    match fault {
        VerifyFault::Disk => Ending::Failed(Status::Disk),
        VerifyFault::Damaged(place) => refuse_damage(alloc, place),
        VerifyFault::SchemaDiffers => refuse_schema(alloc),
        VerifyFault::Memory => Ending::Failed(Status::Memory),
        VerifyFault::Write => Ending::Failed(Status::Write),
    }
}

/// Holds both slots against the log, and puts a line for each, once the whole log was read. The events have the
/// plan's defaults of the columns that the log lacks. No file is written. An error says how the call ends: its
/// last line isn't put yet. Where a checkpoint isn't what the events give, that is Differs, which has none.
fn verify_slots<H: Host>(alloc: Global, plan: &Plan, host: &mut H) -> Result<(), Ending>
    requires is_read { IsReadPlan plan.now }
    ensures goes { VerifiesStore (planned plan.now) (host_outcome H.Host host.old host.new) (status_after result) (line_after result) }
{
    let room = Room {
        chunk: plan.room.chunk,
        cache: plan.room.cache,
        limit: MAX_EVENTS,
    };
    let differ = match rg_verify::verify(
        alloc,
        host,
        &plan.schema,
        &plan.defaults,
        room,
        &plan.task,
        &plan.queries,
    ) {
        Ok(differ) => differ,
        Err(fault) => return Err(ending_of(alloc, fault)),
    };
    if differ {
        return Err(Ending::Failed(Status::Differs));
    }
    Ok(())
}

/// Reads the plan, and holds the slots of the store against its log by it.
fn verify_by_plan<P: Source, H: Host>(
    alloc: Global,
    plan: &mut P,
    host: &mut H,
) -> Result<(), Ending>
    ensures goes { GoesBy (source_outcome P.Source plan.old plan.new) (line_after result) (refusal_after result) (status_after result) (host.new ≡ host.old)
        (λ asks. VerifiesStore asks (host_outcome H.Host host.old host.new) (status_after result) (line_after result)) }
{
    let asked = match load_plan(alloc, plan) {
        Ok(asked) => asked,
        Err(ending) => return Err(ending),
    };
    verify_slots(alloc, &asked, host)
}

/// Does `verify PLAN STORE`: reads the plan, and puts a line for each slot, files 0 and 1 of the host, once
/// the whole log was read: what its checkpoint is to the plan and the log's events. The status is Differs
/// where one of them is unfit or wrong. No file is written. Why a plan was refused is left in `refusal`.
pub fn verify<P: Source, H: Host>(
    alloc: Global,
    plan: &mut P,
    host: &mut H,
    refusal: &mut Option<Refusal>,
) -> Status
    ensures every { EveryCall (Some Command.Verify) (outcome (source_outcome P.Source plan.old plan.new) not_given (host_outcome H.Host host.old host.new)) result refusal.new }
    ensures promises { VerifyPromises (source_outcome P.Source plan.old plan.new) (host_outcome H.Host host.old host.new) result }
{
    let done = verify_by_plan(alloc, plan, host);
    *refusal = refusal_after(&done);
    end(host, &done)
}
