ghost use Rattle.rg_config.specs.Plans.{Planned};
ghost use Rattle.rg_pipe.specs.Handing.Given.{commits, saves};
ghost use Rattle.rg_serve.specs.Calls.{Carries, Answers};

use crate::gather::stop;
use crate::settle::settle;
use crate::tell::tell_marks;
use rg_run::{Due, TurnFault};
use rg_task::Task;

/// Stores all events, and says so.
pub(crate) fn answer_commit<K: Task>(
    task: &mut K,
    gathered: &mut Vec<u8>,
    text: &mut Vec<u8>,
) -> Result<(), TurnFault>
    ensures answers { (plan : Planned) → Answers K.view plan commits gathered.old.items gathered.new.items result task.old task.new }
    ensures carries { Carries K.view K.disk_faults K.out_faults (λ fault. fault) result task.old task.new }
{
    match settle(task, gathered, Due::Commit) {
        Ok(()) => {}
        Err(fault) => return Err(fault),
    }
    match tell_marks(task, gathered, text, Due::Commit) {
        Ok(()) => Ok(()),
        Err(fault) => Err(stop(task, gathered, fault)),
    }
}

/// Stores all events, saves a checkpoint of them, and says so.
pub(crate) fn answer_save<K: Task>(
    task: &mut K,
    gathered: &mut Vec<u8>,
    text: &mut Vec<u8>,
) -> Result<(), TurnFault>
    ensures answers { (plan : Planned) → Answers K.view plan saves gathered.old.items gathered.new.items result task.old task.new }
    ensures carries { Carries K.view K.disk_faults K.out_faults (λ fault. fault) result task.old task.new }
{
    match settle(task, gathered, Due::Save) {
        Ok(()) => {}
        Err(fault) => return Err(fault),
    }
    match tell_marks(task, gathered, text, Due::Save) {
        Ok(()) => Ok(()),
        Err(fault) => Err(stop(task, gathered, fault)),
    }
}
