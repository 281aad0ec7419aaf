ghost use Rattle.std.specs.Prelude.{◌≡◌, ◌≤◌, ◌<◌, ◌^◌, ◌==◌, ℕ, List, Some, false, IsErrOf};
ghost use Rattle.std.specs.List.{list_any};
ghost use Rattle.rg_config.specs.Plans.{planned};
ghost use Rattle.rg_config.specs.Read.{IsReadPlan};
ghost use Rattle.rg_pipe.specs.Handing.Given.{row};
ghost use Rattle.rg_task.specs.Terms.{terms_of};
ghost use Rattle.rg_run_spec.specs.Verdicts.{IsRow};
ghost use Rattle.rg_serve.specs.Calls.{Carries, Answers};

use crate::gather::{make_way, stop};
use crate::settle::settle;
use crate::tell::tell_line;
use rg_config::Plan;
use rg_run::{TurnFault, due_at};
use rg_task::Task;

/// Answers a line that is a row, and is given cleaned: takes its event, does what is due, and gathers the reply with its
/// marks. All that is gathered is put before a file is written.
pub(crate) fn answer_row<K: Task>(
    task: &mut K,
    plan: &Plan,
    gathered: &mut Vec<u8>,
    text: &mut Vec<u8>,
    offset: u64,
    line: &[u8],
) -> Result<(), TurnFault>
    requires read { IsReadPlan plan.now }
    requires one_line { list_any (λ byte. byte == 10) line.now ≡ false }
    requires next { (K.view.at task.old).next ≤ offset }
    requires small { offset < 2 ^ 62 }
    ensures answers { (item : List ℕ) → IsRow (terms_of (planned plan.now)).basis offset (Some item) line.now →
        Answers K.view (planned plan.now) (row offset item) gathered.old.items gathered.new.items result task.old task.new }
    ensures carries { Carries K.view K.disk_faults K.out_faults (λ fault. fault) result task.old task.new }
{
    match make_way(task, gathered) {
        Ok(()) => {}
        Err(fault) => return Err(fault),
    }
    let before = task.count();
    let reply = match task.line(offset, line) {
        Ok(reply) => reply,
        Err(fault) => return Err(stop(task, gathered, TurnFault::Task(fault))),
    };
    let due = due_at(plan.commit, plan.save, before, task.count());
    match settle(task, gathered, due) {
        Ok(()) => {}
        Err(fault) => {
            drop(reply);
            return Err(fault);
        }
    }
    match tell_line(task, gathered, text, offset, &reply, due) {
        Ok(()) => {
            task.reuse(reply);
            Ok(())
        }
        Err(fault) => {
            drop(reply);
            Err(stop(task, gathered, fault))
        }
    }
}
