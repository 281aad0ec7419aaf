ghost use Rattle.std.specs.Prelude.{◌≡◌, ◌⊎◌, ◌++◌, ◌∷◌, IfErr, OnOk, OnErr, IsErrOf, length};
ghost use Rattle.rg_bytes.specs.Counts.{Rose};
ghost use Rattle.rg_host.specs.Lines.{ended};
ghost use Rattle.rg_reply.specs.Texts.{reply_line};
ghost use Rattle.rg_run.specs.Calls.{PutsAll, OnlyPuts};
ghost use Rattle.rg_run.specs.Due.{marks_for, last_lines};

use crate::due::Due;
use crate::fault::TurnFault;
use crate::text::{write_end, write_turn};
use rg_reply::Reply;
use rg_task::{Task, TaskFault};

/// Gathers the lines of a turn. Want of memory gathers nothing.
pub(crate) fn tell<K: Task>(
    task: &K,
    gathered: &mut Vec<u8>,
    offset: u64,
    reply: &Reply,
    due: Due,
) -> Result<(), TurnFault>
    ensures all { OnOk result (gathered.new.items ≡ gathered.old.items ++ ended (reply_line offset reply.now ∷ marks_for due (K.view.at task.now).next (length (K.view.at task.now).events))) }
    ensures none { OnErr result (gathered.new.items ≡ gathered.old.items) }
    ensures faults { IfErr result (λ fault. fault ≡ TurnFault.Task TaskFault.Memory) }
{
    match write_turn(gathered, offset, reply, due, task.next(), task.count()) {
        Ok(()) => Ok(()),
        Err(_) => Err(TurnFault::Task(TaskFault::Memory)),
    }
}

/// Puts the lines of the end of the input, which are written into `text`. Want of memory puts nothing;
/// after `Write` a prefix of them was put.
pub(crate) fn tell_end<K: Task>(
    task: &mut K,
    text: &mut Vec<u8>,
    offset: u64,
    next: u64,
    count: u64,
) -> Result<(), TurnFault>
    ensures puts { PutsAll K.view (ended (last_lines offset next count)) result task.old task.new }
    ensures only { OnlyPuts K.view K.disk_faults K.out_faults task.old task.new }
    ensures none { IfErr result (λ fault. (fault ≡ TurnFault.Write) ⊎ (task.new ≡ task.old)) }
    ensures write { IsErrOf result TurnFault.Write → Rose (K.out_faults task.old) (K.out_faults task.new) }
    ensures faults { IfErr result (λ fault. (fault ≡ TurnFault.Write) ⊎ (fault ≡ TurnFault.Task TaskFault.Memory)) }
{
    match write_end(text, offset, next, count) {
        Ok(()) => {}
        Err(_) => return Err(TurnFault::Task(TaskFault::Memory)),
    }
    match task.put(text) {
        Ok(()) => Ok(()),
        Err(_) => Err(TurnFault::Write),
    }
}
