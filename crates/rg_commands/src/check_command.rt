ghost use Rattle.std.specs.Prelude.{◌≡◌, Some};
ghost use Rattle.rg_config.specs.Plans.{planned};
ghost use Rattle.rg_config.specs.Read.{IsReadPlan};
ghost use Rattle.rg_commands.specs.Call.{status_after, line_after, refusal_after};
ghost use Rattle.rg_commands.specs.Causes.{EveryCall};
ghost use Rattle.rg_commands.specs.Checks.{ChecksPlan, CheckPromises};
ghost use Rattle.rg_commands.specs.Outcome.{source_outcome, host_outcome, not_given, outcome};
ghost use Rattle.rg_commands.specs.Unread.{GoesBy};

use crate::command::Command;
use crate::ending::Ending;
use crate::last_line::{end, refusal_after};
use crate::load::load_plan;
use rg_config::Plan;
use rg_explain::CheckFault;
use rg_host::{Host, Source};
use rg_messages::{Refusal, Status};
use std::alloc::Global;

/// Prints a plan.
fn print_plan<H: Host>(alloc: Global, plan: &Plan, host: &mut H) -> Result<(), Ending>
    requires is_read { IsReadPlan plan.now }
    ensures goes { ChecksPlan (planned plan.now) (host_outcome H.Host host.old host.new) (status_after result) (line_after result) }
{
    match rg_explain::check(alloc, plan, host) {
        Ok(()) => Ok(()),
        Err(CheckFault::Memory) => Err(Ending::Failed(Status::Memory)),
        Err(CheckFault::Write) => Err(Ending::Failed(Status::Write)),
    }
}

/// Reads the plan, and prints it.
fn check_by_plan<P: Source, H: Host>(
    alloc: Global,
    plan: &mut P,
    host: &mut H,
) -> Result<(), Ending>
    ensures goes { GoesBy (source_outcome P.Source plan.old plan.new) (line_after result) (refusal_after result) (status_after result) (host.new ≡ host.old)
        (λ asks. ChecksPlan asks (host_outcome H.Host host.old host.new) (status_after result) (line_after result)) }
{
    let asked = match load_plan(alloc, plan) {
        Ok(asked) => asked,
        Err(ending) => return Err(ending),
    };
    print_plan(alloc, &asked, host)
}

/// Does `check PLAN`: reads the plan, of which at most 65,536 bytes are taken and one more where there is
/// one, and puts each query and then the task plan. No file is touched. Why a plan was refused is left in
/// `refusal`.
pub fn check<P: Source, H: Host>(
    alloc: Global,
    plan: &mut P,
    host: &mut H,
    refusal: &mut Option<Refusal>,
) -> Status
    ensures every { EveryCall (Some Command.Check) (outcome (source_outcome P.Source plan.old plan.new) not_given (host_outcome H.Host host.old host.new)) result refusal.new }
    ensures promises { CheckPromises (source_outcome P.Source plan.old plan.new) (host_outcome H.Host host.old host.new) result }
{
    let done = check_by_plan(alloc, plan, host);
    *refusal = refusal_after(&done);
    end(host, &done)
}
