ghost use Rattle.std.specs.Prelude.{◌≡◌, ◌≤◌};
ghost use Rattle.rg_config.specs.Plans.{planned};
ghost use Rattle.rg_config.specs.Read.{IsReadPlan};
ghost use Rattle.rg_pipe.specs.Handing.{given_of};
ghost use Rattle.rg_serve.specs.Calls.{Carries, Answers, IsFit, IsDue};

use crate::asked::{answer_commit, answer_save};
use crate::line::answer_line;
use crate::plain::{answer_again, answer_gap};
use rg_config::Plan;
use rg_pipe::Request;
use rg_run::TurnFault;
use rg_task::Task;

/// Answers a request by its one reply, whose frame is gathered. A line below the task's next offset is answered as one
/// that was sent before; a pipe that began at that offset hands out no such line.
pub fn answer_request<K: Task>(
    task: &mut K,
    plan: &Plan,
    gathered: &mut Vec<u8>,
    text: &mut Vec<u8>,
    request: Request<'_>,
) -> Result<(), TurnFault>
    requires read { IsReadPlan plan.now }
    requires fit { IsFit request }
    ensures answers { IsDue request.entry (K.view.at task.old).next → Answers K.view (planned plan.now) (given_of request.entry) gathered.old.items gathered.new.items result task.old task.new }
    ensures carries { Carries K.view K.disk_faults K.out_faults (λ fault. fault) result task.old task.new }
{
    match request {
        Request::Line(offset, line) => {
            if offset < task.next() {
                return answer_again(task, gathered, text, offset);
            }
            answer_line(task, plan, gathered, text, offset, line)
        }
        Request::Again(offset) => answer_again(task, gathered, text, offset),
        Request::Gap(offset, expected) => answer_gap(task, gathered, text, offset, expected),
        Request::Commit => answer_commit(task, gathered, text),
        Request::Save => answer_save(task, gathered, text),
    }
}
