ghost use Rattle.std.specs.Prelude.{◌≡◌, ◌⊎◌, IfErr};
ghost use Rattle.rg_config.specs.Plans.{Planned};
ghost use Rattle.rg_serve.specs.Calls.{Carries, Finishes};

use crate::gather::{flush, stop};
use crate::settle::settle;
use crate::tell::tell_end;
use rg_run::{Due, TurnFault};
use rg_task::Task;

/// At the end of the input, where the next line would have this offset: puts what is gathered, stores all events, saves a
/// checkpoint of them, and puts the end. Each refusal but `Write` leaves whole replies put.
pub fn finish<K: Task>(
    task: &mut K,
    gathered: &mut Vec<u8>,
    text: &mut Vec<u8>,
    offset: u64,
) -> Result<(), TurnFault>
    ensures finishes { (plan : Planned) → Finishes K.view plan offset gathered.old.items result task.old task.new }
    ensures carries { Carries K.view K.disk_faults K.out_faults (λ fault. fault) result task.old task.new }
{
    match settle(task, gathered, Due::Save) {
        Ok(()) => {}
        Err(fault) => return Err(fault),
    }
    match tell_end(task, gathered, text, offset) {
        Ok(()) => {}
        Err(fault) => return Err(stop(task, gathered, fault)),
    }
    match flush(task, gathered) {
        Ok(()) => Ok(()),
        Err(fault) => Err(fault),
    }
}
