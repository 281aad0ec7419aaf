ghost use Rattle.std.specs.Prelude.{◌≡◌, ◌<◌, ◌≤◌, ℕ, Some, None, Err, IfOk, IsErrOf};
ghost use Rattle.rg_config.specs.Plans.{Says};
ghost use Rattle.rg_config.specs.declared.fault.ConfigFault.{ConfigFault as Refusal};
ghost use Rattle.rg_run.specs.declared.fault.RunFault.{RunFault as Fault};
ghost use Rattle.rg_recover.specs.Anew.{MayMeet};
ghost use Rattle.rg_selftest.specs.Trials.{IsTrial, plan_text};
ghost use Rattle.rg_commands.specs.Call.{status_after, line_after};
ghost use Rattle.rg_commands.specs.Causes.{EveryCall};
ghost use Rattle.rg_commands.specs.Outcome.{host_outcome, not_given, outcome};
ghost use Rattle.rg_commands.specs.SelfTests.{Tries, SelfPromises};

use crate::command::Command;
use crate::ending::Ending;
use crate::last_line::end;
use rg_bytes::Memory;
use rg_config::{ConfigFault, read_plan};
use rg_host::Host;
use rg_messages::Status;
use rg_recover::run_anew;
use rg_run::RunFault;
use rg_selftest::{PrintFault, Trial, count, made_input, plan_bytes, print};
use std::alloc::Global;
use std::error::Error;
use std::fmt;
use std::marker::Brand;
use std::sync::ledger::{Blank, Ledger};

/// Why a trial came to no numbers. Its source and its host fail only where memory runs out.
#[derive(Clone, Copy, Debug, PartialEq, Eq)]
pub enum TrialFault {
    /// Memory ran out.
    Memory,
    /// The trial's own plan was refused.
    Plan(ConfigFault),
    /// The run met this fault.
    Run(RunFault),
}

impl fmt::Display for TrialFault {
    fn fmt<W: fmt::Write>(&self, f: &mut fmt::Formatter<W>) -> fmt::Result {
        match self {
            TrialFault::Memory => f.write_str("out of memory"),
            TrialFault::Plan(_) => f.write_str("the plan of the trial is refused"),
            TrialFault::Run(fault) => write!(f, "{fault}"),
        }
    }
}

impl Error for TrialFault {}

impl From<Memory> for TrialFault {
    ghost use Rattle.std.specs.Prelude.{◌≡◌};
    ghost use Rattle.rg_commands.specs.declared.self_command.TrialFault.TheVariants.{Memory};

    ghost from_gives = { λ _ fault. fault ≡ Memory };

    fn from(_memory: Memory) -> TrialFault {
        TrialFault::Memory
    }
}

/// Runs the plan of the trial on so many made lines of a seed, over a new store in memory.
pub fn run_trial<L: Ledger>(
    alloc: Global,
    lines: u64,
    seed: u64,
    blank: Blank,
) -> Result<Trial, TrialFault>
    requires named { blank.name ≡ L.name }
    requires parts { blank.parts ≡ L.parts }
    requires whole { 0 < blank.parts }
    requires few { lines ≤ 200000 }

    // The numbers are those of the text that the definitions give.
    ensures counted { IfOk result (λ trial. IsTrial seed lines trial) }

    // The plan is refused only by what its bytes say, and the run meets only faults of memory, of its source and of its host.
    ensures plan { (refusal : Refusal) → IsErrOf result (TrialFault.Plan refusal) → Says plan_text (Err refusal) }
    ensures run { (fault : Fault) → IsErrOf result (TrialFault.Run fault) → MayMeet fault }
{
    let plan = match read_plan(alloc, plan_bytes()) {
        Ok(plan) => plan,
        Err(ConfigFault::Memory) => return Err(TrialFault::Memory),
        Err(refusal) => return Err(TrialFault::Plan(refusal)),
    };
    let input = match made_input(alloc, lines, seed) {
        Ok(input) => input,
        Err(_) => {
            drop(plan);
            return Err(TrialFault::Memory);
        }
    };
    let ran = run_anew::<L>(alloc, &plan, input, blank);
    drop(plan);
    match ran {
        Ok(host) => {
            let counted = count(lines, host.output());
            drop(host);
            match counted {
                Some(trial) => Ok(trial),
                None => unreachable!(),
            }
        }
        Err(fault) => Err(TrialFault::Run(fault)),
    }
}

/// Puts four lines on a trial: how many made lines of the seed it had, how many of them it accepted, and
/// the bytes of its text and their sum. The trial has a store of its own in memory, so whatever stops it is
/// want of memory.
fn print_trial<H: Host>(alloc: Global, lines: u64, seed: u64, host: &mut H) -> Result<(), Ending>
    requires few { lines ≤ 200000 }
    ensures goes { Tries lines seed (host_outcome H.Host host.old host.new) (status_after result) (line_after result) }
{
    let counted = match run_trial::<Brand>(alloc, lines, seed, Blank::new(1)) {
        Ok(counted) => counted,
        Err(_) => return Err(Ending::Failed(Status::Memory)),
    };
    match print(alloc, &counted, host) {
        Ok(()) => Ok(()),
        Err(PrintFault::Memory) => Err(Ending::Failed(Status::Memory)),
        Err(PrintFault::Write) => Err(Ending::Failed(Status::Write)),
    }
}

/// Does `self N SEED`: runs on so many made lines of a seed, at most 200,000, over a store of its own in
/// memory, and puts four lines on that. No file of the host is touched.
pub fn selftest<H: Host>(alloc: Global, lines: u64, seed: u64, host: &mut H) -> Status
    requires few { lines ≤ 200000 }
    ensures every { EveryCall (Some (Command.Trial lines seed)) (outcome not_given not_given (host_outcome H.Host host.old host.new)) result None }
    ensures promises { SelfPromises lines seed (host_outcome H.Host host.old host.new) result }
{
    let done = print_trial(alloc, lines, seed, host);
    end(host, &done)
}
