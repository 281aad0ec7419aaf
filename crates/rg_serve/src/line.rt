ghost use Rattle.std.specs.Prelude.{◌≡◌, ◌≤◌, ◌<◌, ◌^◌, ◌==◌, ◌&&◌, ℕ, List, false};
ghost use Rattle.std.specs.List.{list_any};
ghost use Rattle.rg_config.specs.Plans.{planned};
ghost use Rattle.rg_config.specs.Read.{IsReadPlan};
ghost use Rattle.rg_pipe.specs.Handing.Given.{row};
ghost use Rattle.rg_serve.specs.Calls.{Carries, Answers};

use crate::decided::{answer_control, answer_decided};
use crate::row::answer_row;
use rg_config::Plan;
use rg_reply::Reply;
use rg_row::clean;
use rg_run::{Due, TurnFault};
use rg_run_spec::control_in;
use rg_task::Task;

/// Whether the line at this offset is the plan's header.
fn is_header(plan: &Plan, offset: u64) -> bool
    ensures { result ≡ (plan.now.header && (offset == 0)) }
{
    plan.header && offset == 0
}

/// Answers a line as a run does: it is the header, asks for something, or is a row.
pub(crate) fn answer_line<K: Task>(
    task: &mut K,
    plan: &Plan,
    gathered: &mut Vec<u8>,
    text: &mut Vec<u8>,
    offset: u64,
    line: &[u8],
) -> Result<(), TurnFault>
    requires read { IsReadPlan plan.now }
    requires one_line { list_any (λ byte. byte == 10) line.now ≡ false }
    requires next { (K.view.at task.old).next ≤ offset }
    requires small { offset < 2 ^ 62 }
    ensures answers { Answers K.view (planned plan.now) (row offset line.now) gathered.old.items gathered.new.items result task.old task.new }
    ensures carries { Carries K.view K.disk_faults K.out_faults (λ fault. fault) result task.old task.new }
{
    if is_header(plan, offset) {
        return answer_decided(task, gathered, text, offset, &Reply::Head, Due::Nothing);
    }
    let cleaned = clean(offset, line);
    match control_in(cleaned) {
        Some(control) => answer_control(task, gathered, text, offset, control),
        None => answer_row(task, plan, gathered, text, offset, cleaned),
    }
}
