ghost use Rattle.rg_config.specs.Plans.{planned};
ghost use Rattle.rg_config.specs.Read.{IsReadPlan};
ghost use Rattle.rg_serve.specs.Calls.{Carries};
ghost use Rattle.rg_serve.specs.Coming.{CanGoOn, FeedsHeld};
ghost use Rattle.rg_serve.specs.UnderWay.{IsFitAsked, AnswersAsked, Steps};

use crate::intake::Intake;
use crate::request::answer_request;
use crate::step::Step;
use rg_config::Plan;
use rg_pipe::{Pipe, PipeFault, Request};
use rg_run::TurnFault;
use rg_task::Task;

/// Gives the pipe those of the bytes that are held which its request lacks.
fn feed_held(intake: &mut Intake, pipe: &mut Pipe)
    requires can { CanGoOn intake.old pipe.old }
    ensures feeds { FeedsHeld pipe.old pipe.new intake.old intake.new }
{
    let count = pipe.feed(intake.held());
    intake.pass(count);
}

/// Answers the request that a pipe has handed out, if it has.
fn answer_asked<K: Task>(
    task: &mut K,
    plan: &Plan,
    gathered: &mut Vec<u8>,
    text: &mut Vec<u8>,
    asked: Result<Option<Request<'_>>, PipeFault>,
) -> Result<Step, TurnFault>
    requires read { IsReadPlan plan.now }
    requires fit { IsFitAsked asked }
    ensures answers { AnswersAsked K.view (planned plan.now) asked.entry gathered.old.items gathered.new.items result task.old task.new }
    ensures carries { Carries K.view K.disk_faults K.out_faults (λ fault. fault) result task.old task.new }
{
    match asked {
        Err(PipeFault::Frame(place)) => Ok(Step::Refused(place)),
        Ok(None) => Ok(Step::Lacks),
        Ok(Some(request)) => match answer_request(task, plan, gathered, text, request) {
            Ok(()) => Ok(Step::Answered),
            Err(fault) => Err(fault),
        },
    }
}

/// Answers the request at the front of what is held where it is whole there and nothing is in hand; else feeds the pipe
/// what its request lacks, and answers that one where it is whole.
pub(crate) fn answer_next<K: Task>(
    intake: &mut Intake,
    pipe: &mut Pipe,
    plan: &Plan,
    task: &mut K,
    gathered: &mut Vec<u8>,
    text: &mut Vec<u8>,
) -> Result<Step, TurnFault>
    requires read { IsReadPlan plan.now }
    requires can { CanGoOn intake.old pipe.old }
    ensures steps { Steps K.view (planned plan.now) pipe.old pipe.new intake.old intake.new gathered.old.items gathered.new.items result task.old task.new }
    ensures carries { Carries K.view K.disk_faults K.out_faults (λ fault. fault) result task.old task.new }
{
    match pipe.next_in(intake.held()) {
        Some(whole) => {
            let size = whole.size;
            let asked = Ok(Some(whole.request));
            let answered = answer_asked(task, plan, gathered, text, asked);
            intake.pass(size);
            answered
        }
        None => {
            feed_held(intake, pipe);
            answer_asked(task, plan, gathered, text, pipe.next())
        }
    }
}
