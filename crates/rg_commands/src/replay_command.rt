ghost use Rattle.std.specs.Prelude.{◌≡◌, Some};
ghost use Rattle.rg_config.specs.Plans.{planned};
ghost use Rattle.rg_config.specs.Read.{IsReadPlan};
ghost use Rattle.rg_commands.specs.Call.{IsBlankOf, ending_status, ending_line, status_after, line_after, refusal_after};
ghost use Rattle.rg_commands.specs.Causes.{EveryCall};
ghost use Rattle.rg_commands.specs.Outcome.{source_outcome, host_outcome, not_given, outcome};
ghost use Rattle.rg_commands.specs.Replays.{EndsReplay, ReplaysStore, ReplayPromises};
ghost use Rattle.rg_commands.specs.Unread.{GoesBy};

use crate::command::Command;
use crate::ending::Ending;
use crate::last_line::{end, refusal_after};
use crate::load::load_plan;
use crate::refused::{refuse_damage, refuse_schema, refuse_state};
use rg_config::Plan;
use rg_event::{MAX_EVENTS, Room, Steps};
use rg_host::{Host, Source};
use rg_messages::{Refusal, Status};
use rg_replay::ReplayFault;
use std::alloc::Global;
use std::marker::Brand;
use std::sync::ledger::{Blank, Ledger};

/// How a replay ends that met this fault.
fn ending_of(alloc: Global, fault: ReplayFault) -> Ending
    ensures { EndsReplay fault (ending_status result) (ending_line result) }
{
    match fault {
        ReplayFault::Disk => Ending::Failed(Status::Disk),
        ReplayFault::Damaged(place) => refuse_damage(alloc, place),
        ReplayFault::SchemaDiffers => refuse_schema(alloc),
        ReplayFault::BadState(node) => refuse_state(alloc, node),
        ReplayFault::Memory => Ending::Failed(Status::Memory),
        ReplayFault::Write => Ending::Failed(Status::Write),
    }
}

/// Answers the stored events again by the plan, and puts a line for each from that offset on. It isn't
/// told how many steps that takes. No file is written. An error says how the call ends: its last line
/// isn't put yet.
fn replay_log<H: Host, L: Ledger>(
    alloc: Global,
    plan: &Plan,
    first: u64,
    host: &mut H,
    blank: Blank,
) -> Result<(), Ending>
    requires of_ledger { IsBlankOf blank.name blank.parts L.name L.parts }
    requires is_read { IsReadPlan plan.now }
    ensures goes { ReplaysStore first (planned plan.now) (host_outcome H.Host host.old host.new) (status_after result) (line_after result) }
{
    let task = match plan.task.copy(alloc) {
        Ok(task) => task,
        Err(_) => return Err(Ending::Failed(Status::Memory)),
    };
    let room = Room {
        chunk: plan.room.chunk,
        cache: plan.room.cache,
        limit: MAX_EVENTS,
    };
    let mut steps = Steps::<L>::new(blank);
    match rg_replay::replay(alloc, host, &plan.schema, room, task, first, &mut steps) {
        Ok(()) => Ok(()),
        Err(fault) => Err(ending_of(alloc, fault)),
    }
}

/// Reads the plan, and answers the stored events again by it.
fn replay_by_plan<P: Source, H: Host>(
    alloc: Global,
    first: u64,
    plan: &mut P,
    host: &mut H,
) -> Result<(), Ending>
    ensures goes { GoesBy (source_outcome P.Source plan.old plan.new) (line_after result) (refusal_after result) (status_after result) (host.new ≡ host.old)
        (λ asks. ReplaysStore first asks (host_outcome H.Host host.old host.new) (status_after result) (line_after result)) }
{
    let asked = match load_plan(alloc, plan) {
        Ok(asked) => asked,
        Err(ending) => return Err(ending),
    };
    replay_log::<H, Brand>(alloc, &asked, first, host, Blank::new(1))
}

/// Does `replay PLAN STORE FIRST`: reads the plan, answers the log's events again by it, each by the events
/// up to and with its own, and puts the line of each event from the offset `first` on, as a run puts it, and
/// at last `done NEXT COUNT`, the next offset and how many events there are. No file is written. Why a plan
/// was refused is left in `refusal`.
pub fn replay<P: Source, H: Host>(
    alloc: Global,
    first: u64,
    plan: &mut P,
    host: &mut H,
    refusal: &mut Option<Refusal>,
) -> Status
    ensures every { EveryCall (Some (Command.Replay first)) (outcome (source_outcome P.Source plan.old plan.new) not_given (host_outcome H.Host host.old host.new)) result refusal.new }
    ensures promises { ReplayPromises first (source_outcome P.Source plan.old plan.new) (host_outcome H.Host host.old host.new) result }
{
    let done = replay_by_plan(alloc, first, plan, host);
    *refusal = refusal_after(&done);
    end(host, &done)
}
