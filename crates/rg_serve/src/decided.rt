ghost use Rattle.std.specs.Prelude.{◌≡◌, ◌≤◌, ◌<◌, ◌^◌, ℕ, List, Some};
ghost use Rattle.rg_config.specs.Plans.{Planned};
ghost use Rattle.rg_pipe.specs.Handing.Given.{row};
ghost use Rattle.rg_run_spec.specs.Verdicts.{control_at};
ghost use Rattle.rg_task.specs.Terms.{terms_of};
ghost use Rattle.rg_run.specs.Due.{due_for};
ghost use Rattle.rg_serve.specs.Calls.{Carries, Answers, IsDecided};

use crate::gather::stop;
use crate::load::load;
use crate::settle::settle;
use crate::tell::tell_line;
use rg_reply::Reply;
use rg_run::{Due, TurnFault};
use rg_run_spec::Control;
use rg_task::Task;

/// Answers a line that brings no event: does what is due, and gathers the reply with its marks.
pub(crate) fn answer_decided<K: Task>(
    task: &mut K,
    gathered: &mut Vec<u8>,
    text: &mut Vec<u8>,
    offset: u64,
    reply: &Reply,
    due: Due,
) -> Result<(), TurnFault>
    requires next { (K.view.at task.old).next ≤ offset }
    requires small { offset < 2 ^ 62 }
    ensures answers { (plan : Planned) (item : List ℕ) → IsDecided (terms_of plan).basis offset item reply.now due →
        Answers K.view plan (row offset item) gathered.old.items gathered.new.items result task.old task.new }
    ensures carries { Carries K.view K.disk_faults K.out_faults (λ fault. fault) result task.old task.new }
{
    match settle(task, gathered, due) {
        Ok(()) => {}
        Err(fault) => return Err(fault),
    }
    match tell_line(task, gathered, text, offset, reply, due) {
        Ok(()) => Ok(()),
        Err(fault) => Err(stop(task, gathered, fault)),
    }
}

/// What is done on the disk for a line that asks for this.
fn due_asked(control: Control) -> Due
    ensures { result ≡ due_for control }
{
    match control {
        Control::Commit => Due::Commit,
        Control::Save => Due::Save,
        Control::Ahead => Due::Nothing,
    }
}

/// Answers a line that asks for something.
pub(crate) fn answer_control<K: Task>(
    task: &mut K,
    gathered: &mut Vec<u8>,
    text: &mut Vec<u8>,
    offset: u64,
    control: Control,
) -> Result<(), TurnFault>
    requires next { (K.view.at task.old).next ≤ offset }
    requires small { offset < 2 ^ 62 }
    ensures answers { (plan : Planned) (item : List ℕ) → control_at (terms_of plan).basis offset (Some item) ≡ Some control →
        Answers K.view plan (row offset item) gathered.old.items gathered.new.items result task.old task.new }
    ensures carries { Carries K.view K.disk_faults K.out_faults (λ fault. fault) result task.old task.new }
{
    match load(task, gathered, control) {
        Ok(()) => {}
        Err(fault) => return Err(fault),
    }
    let due = due_asked(control);
    match answer_decided(task, gathered, text, offset, &Reply::Done, due) {
        Ok(()) => Ok(()),
        Err(fault) => Err(fault),
    }
}
