ghost use Rattle.std.specs.Prelude.{◌≡◌, ◌≤◌, ◌^◌, ℕ, List, Option, false, IfOk, OnOk, IfErr};
ghost use Rattle.rg_bytes.specs.Known.{IsAtEnd};
ghost use Rattle.rg_config.specs.Plans.{Planned, planned};
ghost use Rattle.rg_config.specs.Read.{IsReadPlan};
ghost use Rattle.rg_pipe.specs.Sent.{Sent};
ghost use Rattle.rg_serve_spec.specs.Errands.{Errand};
ghost use Rattle.rg_serve.specs.Calls.{Carries};
ghost use Rattle.rg_serve.specs.Causes.{ReadsFor};
ghost use Rattle.rg_serve.specs.Coming.{IsComing, CanGoOn, IsFresh, IsTaken};
ghost use Rattle.rg_serve.specs.Served.{ComesOut, ServesTrue, Serves};
ghost use Rattle.rg_serve.specs.Serving.{IsToOpen, IsAwaiting};
ghost use Rattle.rg_serve.specs.UnderWay.{IsAskedFor, IsUnderWay};

use crate::fault::ServeFault;
use crate::intake::Intake;
use crate::opening::open_serve;
use crate::turn::turn;
use rg_config::Plan;
use rg_host::Source;
use rg_pipe::Pipe;
use rg_run::TurnFault;
use rg_task::{Task, TaskFault};
use std::alloc::Global;

/// What a serve has between two requests.
#[derive(Drop)]
struct Serving {
    intake: Intake,
    pipe: Pipe,
    gathered: Vec<u8>,
    text: Vec<u8>,
}

/// The greatest offset that a line is expected at: none that is sent has it.
const MAX_EXPECTED_OFFSET: u64 = 1 << 62;

/// The offset that the first line is to have: the task's next one.
fn first_offset(next: u64) -> u64
    ensures most { result ≤ 2 ^ 62 }
    ensures same { next ≤ 2 ^ 62 → result ≡ next }
{
    next.min(MAX_EXPECTED_OFFSET)
}

/// Makes what a serve needs, and gathers the open line. Puts nothing.
fn begin<K: Task>(alloc: Global, task: &K, from: u64) -> Result<Serving, TurnFault>
    ensures awaits { (plan : Planned) (e : Errand) → IsToOpen K.view plan e from task.now → IfOk result (λ s. IsAwaiting K.view plan e e.given task.now s.gathered.items) }
    ensures fresh { IfOk result (λ s. IsFresh (K.view.at task.now).next s.intake s.pipe) }
    ensures fault { IfErr result (λ fault. fault ≡ TurnFault.Task TaskFault.Memory) }
{
    let mut gathered = Vec::new(alloc);
    let mut text = Vec::new(alloc);
    match open_serve(task, &mut gathered, &mut text, from) {
        Ok(()) => {}
        Err(fault) => return Err(fault),
    }
    let first = first_offset(task.next());
    match (Intake::new(alloc), Pipe::new(alloc, first)) {
        (Ok(intake), Ok(pipe)) => Ok(Serving {
            intake,
            pipe,
            gathered,
            text,
        }),
        _ => Err(TurnFault::Task(TaskFault::Memory)),
    }
}

/// Answers all requests that are still to come, and puts the end.
fn answer_all<I: Source, K: Task>(
    intake: &mut Intake,
    pipe: &mut Pipe,
    plan: &Plan,
    input: &mut I,
    task: &mut K,
    gathered: &mut Vec<u8>,
    text: &mut Vec<u8>,
) -> Result<(), ServeFault>
    requires read { IsReadPlan plan.now }
    requires can { CanGoOn intake.old pipe.old }
    ensures serves { (e : Errand) (requests : List Sent) (rest : List ℕ) → IsAskedFor e requests →
        IsUnderWay K.view (planned plan.now) e requests rest (I.left input.old) pipe.old intake.old.held task.old gathered.old.items →
        ServesTrue K.view (planned plan.now) e requests rest (I.left input.new) result task.old task.new }
    ensures comes { (first : ℕ) (requests : List Sent) (rest : List ℕ) → IsComing first requests rest (I.left input.old) pipe.old intake.old.held → ComesOut requests rest result }
    ensures at_end { OnOk result (IsAtEnd (I.left input.new)) }
    ensures within { OnOk result (intake.new.taken ≤ 2 ^ 50) }
    ensures taken { (start : Option (List ℕ)) → IsTaken start (I.left input.old) intake.old.taken → IsTaken start (I.left input.new) intake.new.taken }
    ensures reads { ReadsFor (I.faults input.old) (I.faults input.new) intake.new.taken result }
    ensures carries { Carries K.view K.disk_faults K.out_faults ServeFault.Turn result task.old task.new }
{
    'requests: loop {
        match turn(intake, pipe, plan, input, task, gathered, text) {
            Ok(true) => {}
            Ok(false) => return Ok(()),
            Err(fault) => return Err(fault),
        }
    }
}

/// Answers the requests of an input in frames, by a plan, over a task whose store was opened, from a checkpoint of the
/// first `from` events. Puts the open line first; the first line has the task's next offset. An input has at most 2^50
/// bytes. Each refusal but `Write` leaves whole replies put.
pub fn serve<I: Source, K: Task>(
    alloc: Global,
    plan: &Plan,
    from: u64,
    input: &mut I,
    task: &mut K,
) -> Result<(), ServeFault>
    requires read { IsReadPlan plan.now }
    requires going { (K.view.at task.old).ended ≡ false }
    ensures promises { Serves K.view K.disk_faults K.out_faults I.left I.faults (planned plan.now) from result input.old input.new task.old task.new }
{
    match begin(alloc, task, from) {
        Ok(mut s) => answer_all(
            &mut s.intake,
            &mut s.pipe,
            plan,
            input,
            task,
            &mut s.gathered,
            &mut s.text,
        ),
        Err(fault) => Err(ServeFault::Turn(fault)),
    }
}
