ghost use Rattle.std.specs.Prelude.{◌≡◌, ◌⊎◌, IfErr};
ghost use Rattle.rg_run.specs.declared.due.Due.{Due};
ghost use Rattle.rg_run.specs.Calls.{Settles, Sustains, HasCause};

use crate::fault::TurnFault;
use crate::gather::put_gathered;
use rg_task::{Task, TaskFault};

/// Stores all events of a session within a turn, and saves a checkpoint of them, once all that is gathered
/// is put.
pub(crate) fn save_all<K: Task>(task: &mut K, gathered: &mut Vec<u8>) -> Result<(), TurnFault>
    ensures settles { Settles K.view Due.Save gathered.old.items gathered.new.items result task.old task.new }
    ensures sustains { Sustains K.view K.disk_faults K.out_faults result task.old task.new }
    ensures cause { HasCause K.view K.disk_faults K.out_faults result task.old task.new }
    ensures faults { IfErr result (λ fault. (fault ≡ TurnFault.Task TaskFault.Disk) ⊎ (fault ≡ TurnFault.Task TaskFault.Memory) ⊎ (fault ≡ TurnFault.Task TaskFault.Ended) ⊎ (fault ≡ TurnFault.Write)) }
{
    match put_gathered(task, gathered) {
        Ok(()) => {}
        Err(fault) => return Err(fault),
    }
    match task.save() {
        Ok(_count) => Ok(()),
        Err(fault) => Err(TurnFault::Task(fault)),
    }
}
