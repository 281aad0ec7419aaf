ghost use Rattle.std.specs.Prelude.{◌≡◌, ℕ, IsErrOf};
ghost use Rattle.rg_run.specs.Calls.{Loads, Sustains, HasCause, FindsDamage};

use crate::fault::TurnFault;
use crate::gather::stop;
use rg_run_spec::Control;
use rg_task::{Task, TaskFault};

/// Loads ahead, where that is asked for. Each refusal but `Write` leaves whole lines put, and nothing gathered.
pub(crate) fn load<K: Task>(
    task: &mut K,
    gathered: &mut Vec<u8>,
    control: Control,
) -> Result<(), TurnFault>
    ensures loads { Loads K.view gathered.old.items gathered.new.items result task.old task.new }
    ensures sustains { Sustains K.view K.disk_faults K.out_faults result task.old task.new }
    ensures cause { HasCause K.view K.disk_faults K.out_faults result task.old task.new }
    ensures damage { FindsDamage K.view result task.old task.new }
    ensures never_bad { (n : ℕ) → IsErrOf result (TurnFault.Task (TaskFault.BadState n)) → ⊥ }
{
    if control != Control::Ahead {
        return Ok(());
    }
    match task.ahead() {
        Ok(()) => Ok(()),
        Err(fault) => Err(stop(task, gathered, TurnFault::Task(fault))),
    }
}
