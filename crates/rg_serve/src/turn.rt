ghost use Rattle.std.specs.Prelude.{◌≡◌, ◌<◌, ℕ, List, Option, true, length, IfOk};
ghost use Rattle.rg_config.specs.Plans.{Planned, planned};
ghost use Rattle.rg_config.specs.Read.{IsReadPlan};
ghost use Rattle.rg_pipe.specs.Sent.{Sent};
ghost use Rattle.rg_serve_spec.specs.Errands.{Errand};
ghost use Rattle.rg_serve.specs.Calls.{Carries};
ghost use Rattle.rg_serve.specs.Causes.{ReadsFor, Continues};
ghost use Rattle.rg_serve.specs.Coming.{IsComing, CanGoOn, ComesTo, IsTaken};
ghost use Rattle.rg_serve.specs.UnderWay.{IsAskedFor, IsUnderWay, GoesOn};

use crate::fault::ServeFault;
use crate::gather::ease;
use crate::intake::Intake;
use crate::next::answer_next;
use crate::reading::{read_on, refuse};
use crate::step::Step;
use rg_config::Plan;
use rg_host::Source;
use rg_pipe::Pipe;
use rg_task::Task;

/// Answers the next request of those that are held, or reads on where none is whole; at the end of the input puts the
/// end. Answers whether there may be more; then fewer than 65,536 bytes are gathered.
pub(crate) fn turn<I: Source, K: Task>(
    intake: &mut Intake,
    pipe: &mut Pipe,
    plan: &Plan,
    input: &mut I,
    task: &mut K,
    gathered: &mut Vec<u8>,
    text: &mut Vec<u8>,
) -> Result<bool, ServeFault>
    requires read { IsReadPlan plan.now }
    requires can { CanGoOn intake.old pipe.old }
    ensures serves { (e : Errand) (requests : List Sent) (rest : List ℕ) → IsAskedFor e requests →
        IsUnderWay K.view (planned plan.now) e requests rest (I.left input.old) pipe.old intake.old.held task.old gathered.old.items →
        GoesOn K.view (planned plan.now) e requests rest (I.left input.new) pipe.new intake.new.held gathered.new.items result task.old task.new }
    ensures comes { (first : ℕ) (requests : List Sent) (rest : List ℕ) → IsComing first requests rest (I.left input.old) pipe.old intake.old.held →
        ComesTo requests rest (IsComing first requests rest (I.left input.new) pipe.new intake.new.held) result }
    ensures on { IfOk result (Continues pipe.old pipe.new intake.old intake.new (I.left input.new)) }
    ensures short { IfOk result (λ more. more ≡ true → length gathered.new.items < 65536) }
    ensures taken { (start : Option (List ℕ)) → IsTaken start (I.left input.old) intake.old.taken → IsTaken start (I.left input.new) intake.new.taken }
    ensures reads { ReadsFor (I.faults input.old) (I.faults input.new) intake.new.taken result }
    ensures carries { Carries K.view K.disk_faults K.out_faults ServeFault.Turn result task.old task.new }
{
    match answer_next(intake, pipe, plan, task, gathered, text) {
        Err(fault) => Err(ServeFault::Turn(fault)),
        Ok(Step::Answered) => match ease(task, gathered) {
            Ok(()) => Ok(true),
            Err(fault) => Err(ServeFault::Turn(fault)),
        },
        Ok(Step::Lacks) => read_on(intake, pipe, input, task, gathered, text),
        Ok(Step::Refused(place)) => Err(refuse(task, gathered, place)),
    }
}
