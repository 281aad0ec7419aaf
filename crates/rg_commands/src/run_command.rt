ghost use Rattle.std.specs.Prelude.{◌≡◌, ◌≤◌, ◌^◌, Some};
ghost use Rattle.rg_commands.specs.Call.{EndsRun, IsBlankOf, ending_status, ending_line, status_after, line_after, refusal_after};
ghost use Rattle.rg_commands.specs.Causes.{EndsFor, EveryCall};
ghost use Rattle.rg_commands.specs.Outcome.{source_outcome, outcome_of};
ghost use Rattle.rg_commands.specs.Runs.{RunsBy, RunPromises};

use crate::command::Command;
use crate::ending::Ending;
use crate::last_line::{end, refusal_after};
use crate::load::load_plan;
use crate::refused::{refuse_damage, refuse_gap, refuse_schema, refuse_state};
use rg_event::Steps;
use rg_host::{Host, Source};
use rg_messages::{Refusal, Status};
use rg_run::RunFault;
use std::alloc::Global;
use std::marker::Brand;
use std::sync::ledger::{Blank, Ledger};

/// How a run ends that met this fault, and whose first line had that offset.
fn ending_of(alloc: Global, first: u64, fault: RunFault) -> Ending
    ensures { EndsRun first fault (ending_status result) (ending_line result) }
{
    match fault {
        RunFault::Disk => Ending::Failed(Status::Disk),
        RunFault::Damaged(place) => refuse_damage(alloc, place),
        RunFault::SchemaDiffers => refuse_schema(alloc),
        RunFault::BadState(node) => refuse_state(alloc, node),
        RunFault::Gap(next) => refuse_gap(alloc, first, next),
        RunFault::Read => Ending::Failed(Status::Read),
        RunFault::Limit => Ending::Failed(Status::Limit),
        RunFault::Memory => Ending::Failed(Status::Memory),
        RunFault::Write => Ending::Failed(Status::Write),
    }
}

/// Reads the plan, and answers the input by it over the store on the host, where the first line has that
/// offset. It isn't told how many steps that takes. An error says how the call ends: its last line isn't
/// put yet.
fn run_by_plan<P: Source, I: Source, H: Host, L: Ledger>(
    alloc: Global,
    first: u64,
    plan: &mut P,
    input: &mut I,
    host: &mut H,
    blank: Blank,
) -> Result<(), Ending>
    requires of_ledger { IsBlankOf blank.name blank.parts L.name L.parts }
    requires first { first ≤ 2 ^ 61 }
    ensures goes { RunsBy H.Host first (source_outcome P.Source plan.old plan.new) (source_outcome I.Source input.old input.new) (status_after result) (line_after result) (refusal_after result) host.old host.new }
    ensures ends { EndsFor (Some (Command.Run first)) (outcome_of P.Source I.Source H.Host plan.old plan.new input.old input.new host.old host.new) (status_after result) (line_after result) (refusal_after result) }
{
    let asked = match load_plan(alloc, plan) {
        Ok(asked) => asked,
        Err(ending) => return Err(ending),
    };
    let mut steps = Steps::<L>::new(blank);
    let done = rg_recover::run(alloc, &asked, first, input, host, &mut steps);
    drop(asked);
    match done {
        Ok(()) => Ok(()),
        Err(fault) => Err(ending_of(alloc, first, fault)),
    }
}

/// Does `run PLAN STORE FIRST`: reads the plan, and answers the input by it over the store on the host, where
/// the first line has the offset `first`, at most 2^61, which must be at most the store's next one. At most
/// 65,536 bytes of the plan and 2^50 bytes of the input are taken, and one more where there is one. What it
/// puts is `open` with what the store has, the answer of each line from the store's next offset on, in
/// order, each with the marks that are due, and at last what is stored and saved and `done LINES EVENTS`.
/// Why a plan was refused is left in `refusal`.
pub fn run<P: Source, I: Source, H: Host>(
    alloc: Global,
    first: u64,
    plan: &mut P,
    input: &mut I,
    host: &mut H,
    refusal: &mut Option<Refusal>,
) -> Status
    requires first { first ≤ 2 ^ 61 }
    ensures every { EveryCall (Some (Command.Run first)) (outcome_of P.Source I.Source H.Host plan.old plan.new input.old input.new host.old host.new) result refusal.new }
    ensures promises { RunPromises first (outcome_of P.Source I.Source H.Host plan.old plan.new input.old input.new host.old host.new) result }
{
    let done = run_by_plan::<P, I, H, Brand>(alloc, first, plan, input, host, Blank::new(1));
    *refusal = refusal_after(&done);
    end(host, &done)
}
