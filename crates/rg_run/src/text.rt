ghost use Rattle.std.specs.Prelude.{◌≡◌, ◌++◌, ◌∷◌, OnOk, OnErr};
ghost use Rattle.rg_bytes.specs.Keeps.{Keeps};
ghost use Rattle.rg_host.specs.Lines.{ended};
ghost use Rattle.rg_reply.specs.Texts.{reply_line};
ghost use Rattle.rg_run.specs.Due.{marks_for, last_lines};

use crate::due::Due;
use rg_bytes::Memory;
use rg_reply::{Mark, Reply, write_mark, write_reply};

/// Writes the marks of what was due, each ended by LF, behind what is in `out`. Want of memory leaves
/// some of them there.
fn write_marks(out: &mut Vec<u8>, due: Due, next: u64, count: u64) -> Result<(), Memory>
    ensures ok { OnOk result (out.new.items ≡ out.old.items ++ ended (marks_for due next count)) }
    ensures err { OnErr result (Keeps out.old.items out.new.items) }
{
    match due {
        Due::Nothing => Ok(()),
        Due::Commit => write_mark(out, Mark::Stored(next)),
        Due::Save => {
            write_mark(out, Mark::Stored(next))?;
            write_mark(out, Mark::Saved(count))
        }
    }
}

/// Writes the lines of a turn at the end, each ended by LF: the reply to the line with this offset, and the
/// marks of what was due, where the next offset and the number of events are these. Where memory runs out
/// `out` holds what it held.
pub fn write_turn(
    out: &mut Vec<u8>,
    offset: u64,
    reply: &Reply,
    due: Due,
    next: u64,
    count: u64,
) -> Result<(), Memory>
    // The lines of a turn are written to the byte, or nothing is.
    ensures ok { OnOk result (out.new.items ≡ out.old.items ++ ended (reply_line offset reply.now ∷ marks_for due next count)) }
    ensures err { OnErr result (out.new.items ≡ out.old.items) }
{
    let start = out.len();
    match put_turn(out, offset, reply, due, next, count) {
        Ok(()) => Ok(()),
        Err(memory) => {
            out.truncate(start);
            Err(memory)
        }
    }
}

/// Writes the lines of a turn. Where memory runs out a front of them may stand there.
fn put_turn(
    out: &mut Vec<u8>,
    offset: u64,
    reply: &Reply,
    due: Due,
    next: u64,
    count: u64,
) -> Result<(), Memory>
    ensures ok { OnOk result (out.new.items ≡ out.old.items ++ ended (reply_line offset reply.now ∷ marks_for due next count)) }
    ensures err { OnErr result (Keeps out.old.items out.new.items) }
{
    write_reply(out, offset, reply)?;
    write_marks(out, due, next, count)
}

/// Writes the lines of the end of the input, each ended by LF, in place of what is in `out`: what is
/// stored, what is saved, and the last line, where the next line would have this offset, and the next
/// offset of the events and their number are these. Want of memory leaves some of them there.
pub fn write_end(out: &mut Vec<u8>, offset: u64, next: u64, count: u64) -> Result<(), Memory>
    // The lines of the end are written to the byte.
    ensures lines { OnOk result (out.new.items ≡ ended (last_lines offset next count)) }
{
    out.clear();
    write_marks(out, Due::Save, next, count)?;
    write_mark(out, Mark::Finished(offset, count))
}
