ghost use Rattle.std.specs.Prelude.{◌≡◌, ◌⊎◌, [], ℕ, List, Option, true, false, IfOk, IsErrOf};
ghost use Rattle.rg_bytes.specs.Counts.{Rose};
ghost use Rattle.rg_bytes.specs.Known.{IsAtEnd};
ghost use Rattle.rg_config.specs.Plans.{Planned};
ghost use Rattle.rg_pipe.specs.Hand.{IsPart};
ghost use Rattle.rg_pipe.specs.Sent.{Sent};
ghost use Rattle.rg_run.specs.Calls.{OnlyPuts};
ghost use Rattle.rg_serve_spec.specs.Errands.{Errand};
ghost use Rattle.rg_serve.specs.Calls.{Carries};
ghost use Rattle.rg_serve.specs.Causes.{ReadsFor, Continues};
ghost use Rattle.rg_serve.specs.Coming.{IsComing, CanGoOn, ComesTo, IsTaken};
ghost use Rattle.rg_serve.specs.UnderWay.{IsAskedFor, IsUnderWay, GoesOn, Refusing, Closes};

use crate::ending::finish;
use crate::fault::{ServeFault, frame_fault};
use crate::gather::flush;
use crate::intake::Intake;
use rg_host::{LineFault, Source};
use rg_pipe::Pipe;
use rg_run::TurnFault;
use rg_task::Task;

/// Puts what is gathered where no request begins at this place. Answers that, or that the put failed.
pub(crate) fn refuse<K: Task>(task: &mut K, gathered: &mut Vec<u8>, place: u64) -> ServeFault
    ensures refusing { Refusing K.view place result gathered.old.items task.old task.new }
    ensures only { OnlyPuts K.view K.disk_faults K.out_faults task.old task.new }
    ensures which { (result ≡ ServeFault.Frame place) ⊎ ((result ≡ ServeFault.Turn TurnFault.Write) × Rose (K.out_faults task.old) (K.out_faults task.new)) }
{
    match flush(task, gathered) {
        Ok(()) => ServeFault::Frame(place),
        Err(fault) => ServeFault::Turn(fault),
    }
}

/// At the end of the input, once nothing is gathered: puts the end, or refuses an input that ended within a request.
fn close<K: Task>(
    pipe: &Pipe,
    task: &mut K,
    gathered: &mut Vec<u8>,
    text: &mut Vec<u8>,
) -> Result<bool, ServeFault>
    requires none { gathered.old.items ≡ [] }
    requires part { IsPart pipe.now.pending }
    requires still_open { pipe.now.refused ≡ false }
    ensures closes { (plan : Planned) → Closes K.view plan pipe.now result task.old task.new }
    ensures over { IfOk result (λ more. more ≡ false) }
    ensures frame { (place : ℕ) → IsErrOf result (ServeFault.Frame place) → task.new ≡ task.old }
    ensures never_read { IsErrOf result ServeFault.Read → ⊥ }
    ensures never_limit { IsErrOf result ServeFault.Limit → ⊥ }
    ensures comes { (first : ℕ) (requests : List Sent) (rest : List ℕ) (left : Option (List ℕ)) → IsComing first requests rest left pipe.now [] → IsAtEnd left → ComesTo requests rest ⊥ result }
    ensures carries { Carries K.view K.disk_faults K.out_faults ServeFault.Turn result task.old task.new }
{
    match pipe.end() {
        Err(fault) => Err(frame_fault(fault)),
        Ok(offset) => match finish(task, gathered, text, offset) {
            Ok(()) => Ok(false),
            Err(fault) => Err(ServeFault::Turn(fault)),
        },
    }
}

/// Puts what is gathered and reads on; at the end of the input puts the end. Answers whether bytes were read.
pub(crate) fn read_on<I: Source, K: Task>(
    intake: &mut Intake,
    pipe: &Pipe,
    input: &mut I,
    task: &mut K,
    gathered: &mut Vec<u8>,
    text: &mut Vec<u8>,
) -> Result<bool, ServeFault>
    requires can { CanGoOn intake.old pipe.now }
    requires none { intake.old.held ≡ [] }
    requires part { IsPart pipe.now.pending }
    ensures serves { (plan : Planned) (e : Errand) (requests : List Sent) (rest : List ℕ) → IsAskedFor e requests →
        IsUnderWay K.view plan e requests rest (I.left input.old) pipe.now [] task.old gathered.old.items →
        GoesOn K.view plan e requests rest (I.left input.new) pipe.now intake.new.held gathered.new.items result task.old task.new }
    ensures comes { (first : ℕ) (requests : List Sent) (rest : List ℕ) → IsComing first requests rest (I.left input.old) pipe.now [] →
        ComesTo requests rest (IsComing first requests rest (I.left input.new) pipe.now intake.new.held) result }
    ensures on { IfOk result (Continues pipe.now pipe.now intake.old intake.new (I.left input.new)) }
    ensures short { IfOk result (λ more. more ≡ true → gathered.new.items ≡ []) }
    ensures taken { (start : Option (List ℕ)) → IsTaken start (I.left input.old) intake.old.taken → IsTaken start (I.left input.new) intake.new.taken }
    ensures reads { ReadsFor (I.faults input.old) (I.faults input.new) intake.new.taken result }
    ensures carries { Carries K.view K.disk_faults K.out_faults ServeFault.Turn result task.old task.new }
{
    match flush(task, gathered) {
        Ok(()) => {}
        Err(fault) => return Err(ServeFault::Turn(fault)),
    }
    match intake.read(input) {
        Ok(true) => Ok(true),
        Ok(false) => close(pipe, task, gathered, text),
        Err(LineFault::Read) => Err(ServeFault::Read),
        Err(LineFault::Limit) => Err(ServeFault::Limit),
    }
}
