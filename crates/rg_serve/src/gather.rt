ghost use Rattle.std.specs.Prelude.{◌≡◌, ◌⊎◌, ◌<◌, [], length, OnOk, IfErr, IsErrOf};
ghost use Rattle.rg_bytes.specs.Counts.{Rose};
ghost use Rattle.rg_run.specs.Calls.{PutsAll, OnlyPuts};
ghost use Rattle.rg_run.specs.Turning.{HasWay};
ghost use Rattle.rg_serve.specs.Calls.{Flushes, StopsHeld};

use rg_run::TurnFault;
use rg_task::Task;

/// Puts what is gathered. After `Write` a prefix of it was put, and the rest is dropped.
fn put_gathered<K: Task>(task: &mut K, gathered: &mut Vec<u8>) -> Result<(), TurnFault>
    ensures puts { PutsAll K.view gathered.old.items result task.old task.new }
    ensures only { OnlyPuts K.view K.disk_faults K.out_faults task.old task.new }
    ensures empty { gathered.new.items ≡ [] }
    ensures write { IsErrOf result TurnFault.Write → Rose (K.out_faults task.old) (K.out_faults task.new) }
    ensures faults { IfErr result (λ fault. fault ≡ TurnFault.Write) }
{
    match task.put(gathered) {
        Ok(()) => {
            gathered.clear();
            Ok(())
        }
        Err(_) => {
            gathered.clear();
            Err(TurnFault::Write)
        }
    }
}

/// Puts the replies that are gathered. After `Write` a prefix of their frames was put, and the rest is dropped.
pub(crate) fn flush<K: Task>(task: &mut K, gathered: &mut Vec<u8>) -> Result<(), TurnFault>
    ensures flushes { Flushes K.view gathered.old.items gathered.new.items result task.old task.new }
    ensures only { OnlyPuts K.view K.disk_faults K.out_faults task.old task.new }
    ensures empty { gathered.new.items ≡ [] }
    ensures write { IsErrOf result TurnFault.Write → Rose (K.out_faults task.old) (K.out_faults task.new) }
    ensures faults { IfErr result (λ fault. fault ≡ TurnFault.Write) }
{
    match put_gathered(task, gathered) {
        Ok(()) => Ok(()),
        Err(fault) => Err(fault),
    }
}

/// Puts what is gathered where the task's next event has no room: what isn't stored yet is then stored before that event
/// is taken, and must not be ahead of what was put.
pub(crate) fn make_way<K: Task>(task: &mut K, gathered: &mut Vec<u8>) -> Result<(), TurnFault>
    ensures flushes { Flushes K.view gathered.old.items gathered.new.items result task.old task.new }
    ensures way { OnOk result (HasWay K.view task.new gathered.new.items) }
    ensures only { OnlyPuts K.view K.disk_faults K.out_faults task.old task.new }
    ensures write { IsErrOf result TurnFault.Write → Rose (K.out_faults task.old) (K.out_faults task.new) }
    ensures faults { IfErr result (λ fault. fault ≡ TurnFault.Write) }
{
    if task.has_room() {
        return Ok(());
    }
    flush(task, gathered)
}

/// From how many bytes on what is gathered is put.
const MAX_GATHERED_BYTES: usize = 65_536;

/// Puts what is gathered where it has 65,536 bytes or more.
pub(crate) fn ease<K: Task>(task: &mut K, gathered: &mut Vec<u8>) -> Result<(), TurnFault>
    ensures flushes { Flushes K.view gathered.old.items gathered.new.items result task.old task.new }
    ensures short { OnOk result (length gathered.new.items < 65536) }
    ensures only { OnlyPuts K.view K.disk_faults K.out_faults task.old task.new }
    ensures write { IsErrOf result TurnFault.Write → Rose (K.out_faults task.old) (K.out_faults task.new) }
    ensures faults { IfErr result (λ fault. fault ≡ TurnFault.Write) }
{
    if gathered.len() < MAX_GATHERED_BYTES {
        return Ok(());
    }
    flush(task, gathered)
}

/// Puts what is gathered at a fault. Answers that fault, or `Write` where the put failed.
pub(crate) fn stop<K: Task>(task: &mut K, gathered: &mut Vec<u8>, fault: TurnFault) -> TurnFault
    ensures stops { StopsHeld K.view result gathered.old.items task.old task.new }
    ensures only { OnlyPuts K.view K.disk_faults K.out_faults task.old task.new }
    ensures which { (result ≡ fault) ⊎ ((result ≡ TurnFault.Write) × Rose (K.out_faults task.old) (K.out_faults task.new)) }
{
    match put_gathered(task, gathered) {
        Ok(()) => fault,
        Err(write) => write,
    }
}
