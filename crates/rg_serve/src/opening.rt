ghost use Rattle.std.specs.Prelude.{◌≡◌, [], OnOk, OnErr, IfErr};
ghost use Rattle.rg_config.specs.Plans.{Planned};
ghost use Rattle.rg_serve_spec.specs.Errands.{Errand};
ghost use Rattle.rg_serve.specs.Serving.{IsToOpen, IsAwaiting};

use crate::tell::tell_open;
use rg_run::TurnFault;
use rg_task::{Task, TaskFault};

/// Begins a serve over a store that was opened, from a checkpoint of the first `from` events: gathers the open line, and
/// puts nothing.
pub fn open_serve<K: Task>(
    task: &K,
    gathered: &mut Vec<u8>,
    text: &mut Vec<u8>,
    from: u64,
) -> Result<(), TurnFault>
    requires { gathered.old.items ≡ [] }
    ensures awaits { (plan : Planned) (e : Errand) → IsToOpen K.view plan e from task.now → OnOk result (IsAwaiting K.view plan e e.given task.now gathered.new.items) }
    ensures none { OnErr result (gathered.new.items ≡ []) }
    ensures fault { IfErr result (λ fault. fault ≡ TurnFault.Task TaskFault.Memory) }
{
    match tell_open(task, gathered, text, from) {
        Ok(()) => Ok(()),
        Err(fault) => Err(fault),
    }
}
