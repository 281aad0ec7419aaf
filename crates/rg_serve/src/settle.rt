ghost use Rattle.rg_run.specs.declared.due.Due.{Due};
ghost use Rattle.rg_serve.specs.Calls.{Carries, Settles};

use crate::gather::flush;
use rg_run::{Due, TurnFault};
use rg_task::Task;

/// Stores all events within a request, once all that is gathered is put.
fn store<K: Task>(task: &mut K, gathered: &mut Vec<u8>) -> Result<(), TurnFault>
    ensures settles { Settles K.view Due.Commit gathered.old.items gathered.new.items result task.old task.new }
    ensures carries { Carries K.view K.disk_faults K.out_faults (λ fault. fault) result task.old task.new }
{
    match flush(task, gathered) {
        Ok(()) => {}
        Err(fault) => return Err(fault),
    }
    match task.commit() {
        Ok(_next) => Ok(()),
        Err(fault) => Err(TurnFault::Task(fault)),
    }
}

/// Stores all events within a request, and saves a checkpoint of them, once all that is gathered is put.
fn save_all<K: Task>(task: &mut K, gathered: &mut Vec<u8>) -> Result<(), TurnFault>
    ensures settles { Settles K.view Due.Save gathered.old.items gathered.new.items result task.old task.new }
    ensures carries { Carries K.view K.disk_faults K.out_faults (λ fault. fault) result task.old task.new }
{
    match flush(task, gathered) {
        Ok(()) => {}
        Err(fault) => return Err(fault),
    }
    match task.save() {
        Ok(_count) => Ok(()),
        Err(fault) => Err(TurnFault::Task(fault)),
    }
}

/// Does what is due within a request, once all that is gathered is put.
pub(crate) fn settle<K: Task>(
    task: &mut K,
    gathered: &mut Vec<u8>,
    due: Due,
) -> Result<(), TurnFault>
    ensures settles { Settles K.view due gathered.old.items gathered.new.items result task.old task.new }
    ensures carries { Carries K.view K.disk_faults K.out_faults (λ fault. fault) result task.old task.new }
{
    match due {
        Due::Nothing => Ok(()),
        Due::Commit => store(task, gathered),
        Due::Save => save_all(task, gathered),
    }
}
