ghost use Rattle.std.specs.Prelude.{◌≡◌, ◌<◌, ◌^◌, ◌∷◌, [], OnOk, length};
ghost use Rattle.rg_host.specs.Lines.{ended};
ghost use Rattle.rg_reply.specs.Texts.{reply_line, mark_line};
ghost use Rattle.rg_reply.specs.declared.mark.Mark.{Mark};
ghost use Rattle.rg_run.specs.Due.{marks_for, last_lines};
ghost use Rattle.rg_serve_spec.specs.Replies.{again_line, gap_line};
ghost use Rattle.rg_serve.specs.Calls.{Gathers, GathersText};

use crate::frame::write_frame;
use rg_bytes::{Memory, put_bytes, write_whole};
use rg_reply::{Mark, Reply, write_mark};
use rg_run::{Due, TurnFault, write_end, write_turn};
use rg_task::{Task, TaskFault};

/// Gathers a text in a frame. Want of memory gathers nothing.
fn gather(gathered: &mut Vec<u8>, text: &[u8]) -> Result<(), TurnFault>
    ensures gathers { GathersText text.now gathered.old.items gathered.new.items result }
{
    match write_frame(gathered, text) {
        Ok(()) => Ok(()),
        Err(_) => Err(TurnFault::Task(TaskFault::Memory)),
    }
}

/// Gathers the frame of the reply to a line, with its marks, of what was due.
pub(crate) fn tell_line<K: Task>(
    task: &K,
    gathered: &mut Vec<u8>,
    text: &mut Vec<u8>,
    offset: u64,
    reply: &Reply,
    due: Due,
) -> Result<(), TurnFault>
    ensures gathers { Gathers (reply_line offset reply.now ∷ marks_for due (K.view.at task.now).next (length (K.view.at task.now).events)) gathered.old.items gathered.new.items result }
{
    text.clear();
    match write_turn(text, offset, reply, due, task.next(), task.count()) {
        Ok(()) => gather(gathered, text),
        Err(_) => Err(TurnFault::Task(TaskFault::Memory)),
    }
}

/// Writes the marks of what was due, each ended by LF, in place of what is in `text`.
fn write_marks(text: &mut Vec<u8>, due: Due, next: u64, count: u64) -> Result<(), Memory>
    ensures ok { OnOk result (text.new.items ≡ ended (marks_for due next count)) }
{
    text.clear();
    match due {
        Due::Nothing => Ok(()),
        Due::Commit => write_mark(text, Mark::Stored(next)),
        Due::Save => {
            write_mark(text, Mark::Stored(next))?;
            write_mark(text, Mark::Saved(count))
        }
    }
}

/// Gathers the frame of the marks of what was asked for.
pub(crate) fn tell_marks<K: Task>(
    task: &K,
    gathered: &mut Vec<u8>,
    text: &mut Vec<u8>,
    due: Due,
) -> Result<(), TurnFault>
    ensures gathers { Gathers (marks_for due (K.view.at task.now).next (length (K.view.at task.now).events)) gathered.old.items gathered.new.items result }
    ensures counted { (K.view.at task.now).next < 2 ^ 64 }
{
    match write_marks(text, due, task.next(), task.count()) {
        Ok(()) => gather(gathered, text),
        Err(_) => Err(TurnFault::Task(TaskFault::Memory)),
    }
}

fn write_again(text: &mut Vec<u8>, offset: u64) -> Result<(), Memory>
    ensures ok { OnOk result (text.new.items ≡ ended (again_line offset ∷ [])) }
{
    text.clear();
    write_whole(text, offset)?;
    put_bytes(text, b" again\n")
}

/// Gathers the frame of the reply to a line that was sent before.
pub(crate) fn tell_again(
    gathered: &mut Vec<u8>,
    text: &mut Vec<u8>,
    offset: u64,
) -> Result<(), TurnFault>
    ensures gathers { Gathers (again_line offset ∷ []) gathered.old.items gathered.new.items result }
{
    match write_again(text, offset) {
        Ok(()) => gather(gathered, text),
        Err(_) => Err(TurnFault::Task(TaskFault::Memory)),
    }
}

fn write_gap(text: &mut Vec<u8>, offset: u64, expected: u64) -> Result<(), Memory>
    ensures ok { OnOk result (text.new.items ≡ ended (gap_line offset expected ∷ [])) }
{
    text.clear();
    write_whole(text, offset)?;
    put_bytes(text, b" gap ")?;
    write_whole(text, expected)?;
    put_bytes(text, b"\n")
}

/// Gathers the frame of the reply to a line behind a gap.
pub(crate) fn tell_gap(
    gathered: &mut Vec<u8>,
    text: &mut Vec<u8>,
    offset: u64,
    expected: u64,
) -> Result<(), TurnFault>
    ensures gathers { Gathers (gap_line offset expected ∷ []) gathered.old.items gathered.new.items result }
{
    match write_gap(text, offset, expected) {
        Ok(()) => gather(gathered, text),
        Err(_) => Err(TurnFault::Task(TaskFault::Memory)),
    }
}

/// Gathers the frame of the end, where the next line would have this offset.
pub(crate) fn tell_end<K: Task>(
    task: &K,
    gathered: &mut Vec<u8>,
    text: &mut Vec<u8>,
    offset: u64,
) -> Result<(), TurnFault>
    ensures gathers { Gathers (last_lines offset (K.view.at task.now).next (length (K.view.at task.now).events)) gathered.old.items gathered.new.items result }
    ensures counted { (K.view.at task.now).next < 2 ^ 64 }
{
    match write_end(text, offset, task.next(), task.count()) {
        Ok(()) => gather(gathered, text),
        Err(_) => Err(TurnFault::Task(TaskFault::Memory)),
    }
}

/// Gathers the frame of the open line.
pub(crate) fn tell_open<K: Task>(
    task: &K,
    gathered: &mut Vec<u8>,
    text: &mut Vec<u8>,
    from: u64,
) -> Result<(), TurnFault>
    ensures gathers { Gathers (mark_line (Mark.Opened (K.view.at task.now).next (length (K.view.at task.now).events) from) ∷ []) gathered.old.items gathered.new.items result }
{
    text.clear();
    match write_mark(text, Mark::Opened(task.next(), task.count(), from)) {
        Ok(()) => gather(gathered, text),
        Err(_) => Err(TurnFault::Task(TaskFault::Memory)),
    }
}
