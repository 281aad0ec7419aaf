ghost use Rattle.std.specs.Prelude.{◌≡◌, ◌⊎◌, IfErr};
ghost use Rattle.rg_run.specs.Calls.{Settles, Sustains, HasCause};

use crate::due::Due;
use crate::fault::TurnFault;
use crate::save::save_all;
use crate::store::store;
use rg_task::{Task, TaskFault};

/// Does what is due within a turn, once all that is gathered is put.
pub(crate) fn settle<K: Task>(
    task: &mut K,
    gathered: &mut Vec<u8>,
    due: Due,
) -> Result<(), TurnFault>
    ensures settles { Settles K.view due gathered.old.items gathered.new.items result task.old task.new }
    ensures sustains { Sustains K.view K.disk_faults K.out_faults result task.old task.new }
    ensures cause { HasCause K.view K.disk_faults K.out_faults result task.old task.new }
    ensures faults { IfErr result (λ fault. (fault ≡ TurnFault.Task TaskFault.Disk) ⊎ (fault ≡ TurnFault.Task TaskFault.Memory) ⊎ (fault ≡ TurnFault.Task TaskFault.Ended) ⊎ (fault ≡ TurnFault.Write)) }
{
    match due {
        Due::Nothing => Ok(()),
        Due::Commit => store(task, gathered),
        Due::Save => save_all(task, gathered),
    }
}
