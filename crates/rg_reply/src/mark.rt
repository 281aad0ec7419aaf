ghost use Rattle.std.specs.Prelude.{◌≡◌, ◌++◌, ◌∷◌, [], OnOk, OnErr};
ghost use Rattle.rg_bytes.specs.Keeps.{Keeps};
ghost use Rattle.rg_reply.specs.Texts.{mark_line};

use crate::part::put_numbered;
use rg_bytes::{Memory, put_u8};

/// A line that marks where a run has come.
#[derive(Clone, Copy, Debug, PartialEq, Eq, Hash)]
pub enum Mark {
    /// The next offset, the number of events, and the count of the checkpoint that was used.
    Opened(u64, u64, u64),
    /// The next offset of the stored events.
    Stored(u64),
    /// The number of events of the saved checkpoint.
    Saved(u64),
    /// The number of input lines, with the first line's offset, and the number of events.
    Finished(u64, u64),
}

/// Writes the line of a mark, and LF.
pub fn write_mark(out: &mut Vec<u8>, mark: Mark) -> Result<(), Memory>
    // The mark's line is written to the byte, and a refused write leaves the text as it was.
    ensures ok { OnOk result (out.new.items ≡ out.old.items ++ (mark_line mark ++ 10 ∷ [])) }
    ensures err { OnErr result (out.new.items ≡ out.old.items) }
{
    let start = out.len();
    match put_mark_line(out, mark) {
        Ok(()) => Ok(()),
        Err(error) => {
            out.truncate(start);
            Err(error)
        }
    }
}

fn put_mark_line(out: &mut Vec<u8>, mark: Mark) -> Result<(), Memory>
    ensures ok { OnOk result (out.new.items ≡ out.old.items ++ (mark_line mark ++ 10 ∷ [])) }
    ensures err { OnErr result (Keeps out.old.items out.new.items) }
{
    put_mark(out, mark)?;
    put_u8(out, b'\n')
}

fn put_mark(out: &mut Vec<u8>, mark: Mark) -> Result<(), Memory>
    ensures ok { OnOk result (out.new.items ≡ out.old.items ++ mark_line mark) }
    ensures err { OnErr result (Keeps out.old.items out.new.items) }
{
    match mark {
        Mark::Opened(next, count, from) => put_opened(out, next, count, from),
        Mark::Stored(next) => put_numbered(out, b"stored ", next),
        Mark::Saved(count) => put_numbered(out, b"saved ", count),
        Mark::Finished(lines, count) => put_finished(out, lines, count),
    }
}

fn put_opened(out: &mut Vec<u8>, next: u64, count: u64, from: u64) -> Result<(), Memory>
    ensures ok { OnOk result (out.new.items ≡ out.old.items ++ mark_line (Mark.Opened next count from)) }
    ensures err { OnErr result (Keeps out.old.items out.new.items) }
{
    put_numbered(out, b"open ", next)?;
    put_numbered(out, b" ", count)?;
    put_numbered(out, b" ", from)
}

fn put_finished(out: &mut Vec<u8>, lines: u64, count: u64) -> Result<(), Memory>
    ensures ok { OnOk result (out.new.items ≡ out.old.items ++ mark_line (Mark.Finished lines count)) }
    ensures err { OnErr result (Keeps out.old.items out.new.items) }
{
    put_numbered(out, b"done ", lines)?;
    put_numbered(out, b" ", count)
}
