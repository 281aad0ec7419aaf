ghost use Rattle.std.specs.Prelude.{◌≡◌, ◌⊎◌, [], IfErr, IsErrOf};
ghost use Rattle.rg_bytes.specs.Counts.{Rose};
ghost use Rattle.rg_run.specs.Calls.{PutsAll, OnlyPuts, MakesWay, StopsHeld};

use crate::fault::TurnFault;
use rg_task::Task;

/// Puts what is gathered. After `Write` a prefix of it was put, and the rest is dropped.
pub(crate) fn put_gathered<K: Task>(task: &mut K, gathered: &mut Vec<u8>) -> Result<(), TurnFault>
    ensures puts { PutsAll K.view gathered.old.items result task.old task.new }
    ensures only { OnlyPuts K.view K.disk_faults K.out_faults task.old task.new }
    ensures empty { gathered.new.items ≡ [] }
    ensures write { IsErrOf result TurnFault.Write → Rose (K.out_faults task.old) (K.out_faults task.new) }
    ensures faults { IfErr result (λ fault. fault ≡ TurnFault.Write) }
{
    match task.put(gathered) {
        Ok(()) => {
            gathered.clear();
            Ok(())
        }
        Err(_) => {
            gathered.clear();
            Err(TurnFault::Write)
        }
    }
}

/// Puts what is gathered where the session's next event has no room: what is not stored yet is then
/// stored before that event is taken, and must not be ahead of what was put.
pub(crate) fn make_way<K: Task>(task: &mut K, gathered: &mut Vec<u8>) -> Result<(), TurnFault>
    ensures makes { MakesWay K.view gathered.old.items gathered.new.items result task.old task.new }
    ensures only { OnlyPuts K.view K.disk_faults K.out_faults task.old task.new }
    ensures write { IsErrOf result TurnFault.Write → Rose (K.out_faults task.old) (K.out_faults task.new) }
    ensures faults { IfErr result (λ fault. fault ≡ TurnFault.Write) }
{
    if task.has_room() {
        return Ok(());
    }
    put_gathered(task, gathered)
}

/// Puts what is gathered at a fault. Answers that fault, or `Write` where the put failed.
pub(crate) fn stop<K: Task>(task: &mut K, gathered: &mut Vec<u8>, fault: TurnFault) -> TurnFault
    ensures stops { StopsHeld K.view result gathered.old.items task.old task.new }
    ensures only { OnlyPuts K.view K.disk_faults K.out_faults task.old task.new }
    ensures which { (result ≡ fault) ⊎ ((result ≡ TurnFault.Write) × Rose (K.out_faults task.old) (K.out_faults task.new)) }
{
    match put_gathered(task, gathered) {
        Ok(()) => fault,
        Err(write) => write,
    }
}
