ghost use Rattle.std.specs.Prelude.{◌≡◌, ◌==◌, ◌&&◌, None};
ghost use Rattle.rg_config.specs.Plans.{planned};
ghost use Rattle.rg_config.specs.Read.{IsReadPlan};
ghost use Rattle.rg_task.specs.Terms.{terms_of};
ghost use Rattle.rg_run.specs.Begun.{Begun};
ghost use Rattle.rg_run.specs.Gathered.{IsReady};
ghost use Rattle.rg_run.specs.Logs.{KeepsLog};
ghost use Rattle.rg_run.specs.Turning.{IsRefused};
ghost use Rattle.rg_run.specs.Turned.{MoreOr, IsReadOut, GoesTrue, CarriesOn, TakesOn, StopsFor};
ghost use Rattle.rg_run.specs.UnderWay.{IsUnderWay, HasFinished};

use crate::ahead::stop_reading;
use crate::fault::{RunFault, ended, input_fault, turned};
use crate::turning::Turning;
use rg_config::Plan;
use rg_host::{Line, Lines, Source};
use rg_reply::Reply;
use rg_row::clean;
use rg_run_spec::control_in;
use rg_task::Task;

/// Whether the line at this offset is the plan's header.
pub fn is_header(plan: &Plan, offset: u64) -> bool
    ensures { result ≡ (plan.now.header && (offset == 0)) }
{
    plan.header && offset == 0
}

/// What is answered to the line at this offset where it is too long: it may be the header.
pub fn reply_to_long(plan: &Plan, offset: u64) -> Reply
    ensures { IsRefused (terms_of (planned plan.now)).basis offset None result }
{
    if is_header(plan, offset) {
        return Reply::Head;
    }
    Reply::Long
}

/// Takes the next line of the input and answers it, or ends the run where there is none: the input isn't
/// read while something is gathered. A line is the header, or too long, or is taken cleaned: it asks for
/// something, or is a row. Answers whether there was a line. Each refusal but `Write` leaves whole lines put.
pub(crate) fn turn<I: Source, K: Task>(
    lines: &mut Lines,
    turning: &mut Turning,
    plan: &Plan,
    input: &mut I,
    task: &mut K,
) -> Result<bool, RunFault>
    requires read { IsReadPlan plan.now }
    requires ready { IsReady K.view lines.old turning.old.offset turning.old.gathered.items task.old }

    ensures goes { (b : Begun) → IsUnderWay K.view (planned plan.now) b (I.left input.old) lines.old turning.old.offset task.old turning.old.gathered.items →
        GoesTrue K.view (planned plan.now) b (I.left input.new) (MoreOr (IsUnderWay K.view (planned plan.now) b (I.left input.new) lines.new turning.new.offset task.new turning.new.gathered.items) (HasFinished K.view (planned plan.now) b task.new)) result task.old task.new }
    ensures takes { TakesOn K.view K.disk_faults K.out_faults I.left I.faults (MoreOr (CarriesOn K.view (planned plan.now) turning.new.offset lines.old.spent lines.new.spent task.old task.new) (IsReadOut lines.new)) lines.old lines.new result input.old input.new task.old task.new }
    ensures log_stays { KeepsLog K.view (planned plan.now) task.old task.new }
    ensures cause { StopsFor K.view K.disk_faults K.out_faults I.faults (planned plan.now) lines.new.taken result input.old input.new task.old task.new }
{
    let offset = turning.offset;
    match lines.next(input) {
        Ok(Line::Text(text)) => {
            if is_header(plan, offset) {
                return turned(turning.refuse(task, &Reply::Head));
            }
            let line = clean(offset, text);
            match control_in(line) {
                Some(control) => turned(turning.obey(task, control)),
                None => turned(turning.answer(task, plan, line)),
            }
        }
        Ok(Line::Long) => {
            let reply = reply_to_long(plan, offset);
            let refused = turning.refuse(task, &reply);
            drop(reply);
            turned(refused)
        }
        Ok(Line::End) => ended(turning.finish(task)),
        Err(fault) => Err(stop_reading(turning, task, input_fault(fault))),
    }
}
