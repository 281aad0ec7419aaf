ghost use Rattle.rg_config.specs.Plans.{Planned};
ghost use Rattle.rg_pipe.specs.Handing.Given.{again, gap};
ghost use Rattle.rg_serve.specs.Calls.{Carries, Answers};

use crate::gather::stop;
use crate::tell::{tell_again, tell_gap};
use rg_run::TurnFault;
use rg_task::Task;

/// Answers a line that was sent before.
pub(crate) fn answer_again<K: Task>(
    task: &mut K,
    gathered: &mut Vec<u8>,
    text: &mut Vec<u8>,
    offset: u64,
) -> Result<(), TurnFault>
    ensures answers { (plan : Planned) → Answers K.view plan (again offset) gathered.old.items gathered.new.items result task.old task.new }
    ensures carries { Carries K.view K.disk_faults K.out_faults (λ fault. fault) result task.old task.new }
{
    match tell_again(gathered, text, offset) {
        Ok(()) => Ok(()),
        Err(fault) => Err(stop(task, gathered, fault)),
    }
}

/// Answers a line behind a gap.
pub(crate) fn answer_gap<K: Task>(
    task: &mut K,
    gathered: &mut Vec<u8>,
    text: &mut Vec<u8>,
    offset: u64,
    expected: u64,
) -> Result<(), TurnFault>
    ensures answers { (plan : Planned) → Answers K.view plan (gap offset expected) gathered.old.items gathered.new.items result task.old task.new }
    ensures carries { Carries K.view K.disk_faults K.out_faults (λ fault. fault) result task.old task.new }
{
    match tell_gap(gathered, text, offset, expected) {
        Ok(()) => Ok(()),
        Err(fault) => Err(stop(task, gathered, fault)),
    }
}
