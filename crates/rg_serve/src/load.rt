ghost use Rattle.rg_serve.specs.Calls.{Carries, Loads};

use crate::gather::stop;
use rg_run::TurnFault;
use rg_run_spec::Control;
use rg_task::Task;

/// Loads ahead, where that is asked for.
pub(crate) fn load<K: Task>(
    task: &mut K,
    gathered: &mut Vec<u8>,
    control: Control,
) -> Result<(), TurnFault>
    ensures loads { Loads K.view gathered.old.items gathered.new.items result task.old task.new }
    ensures carries { Carries K.view K.disk_faults K.out_faults (λ fault. fault) result task.old task.new }
{
    if control != Control::Ahead {
        return Ok(());
    }
    match task.ahead() {
        Ok(()) => Ok(()),
        Err(fault) => Err(stop(task, gathered, TurnFault::Task(fault))),
    }
}
