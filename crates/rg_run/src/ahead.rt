ghost use Rattle.std.specs.Prelude.{IsTrue};
ghost use Rattle.rg_host.specs.Lines.{HasNoLf};
ghost use Rattle.rg_run.specs.Gathered.{PutsOnly, GoesAhead, StopsFrom};

use crate::fault::RunFault;
use crate::turning::Turning;
use rg_host::Lines;
use rg_task::Task;

/// Whether what is gathered may wait: the next line has come whole, and not so much is gathered.
fn may_wait(lines: &Lines, turning: &Turning) -> bool
    ensures { IsTrue result → ¬ HasNoLf lines.now.pending }
{
    lines.has_line() && !turning.is_long()
}

/// Puts what is gathered where the next line needs a read of the input, or so much is gathered.
pub(crate) fn put_ahead<K: Task>(
    lines: &Lines,
    turning: &mut Turning,
    task: &mut K,
) -> Result<(), RunFault>
    ensures puts { PutsOnly K.view K.disk_faults K.out_faults turning.old.offset turning.new.offset turning.old.gathered.items task.old task.new }
    ensures goes { GoesAhead K.view K.out_faults lines.now.pending turning.old.offset turning.new.offset turning.old.gathered.items turning.new.gathered.items result task.old task.new }
{
    if may_wait(lines, turning) {
        return Ok(());
    }
    match turning.flush(task) {
        Ok(()) => Ok(()),
        Err(_) => Err(RunFault::Write),
    }
}

/// Puts what is gathered where the input could not be read on. Answers that fault, or `Write` where the put
/// failed.
pub(crate) fn stop_reading<K: Task>(
    turning: &mut Turning,
    task: &mut K,
    fault: RunFault,
) -> RunFault
    ensures puts { PutsOnly K.view K.disk_faults K.out_faults turning.old.offset turning.new.offset turning.old.gathered.items task.old task.new }
    ensures stops { StopsFrom K.view K.out_faults fault result turning.old.offset turning.new.offset turning.old.gathered.items task.old task.new }
{
    match turning.flush(task) {
        Ok(()) => fault,
        Err(_) => RunFault::Write,
    }
}
