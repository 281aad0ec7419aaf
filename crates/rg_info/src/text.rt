ghost use Rattle.std.specs.Prelude.{◌≡◌, ◌++◌, ◌∷◌, [], ℕ, decimal, true, IfOk, OnOk};
ghost use Rattle.rg_checkpoint.specs.Slots.{slot_in};
ghost use Rattle.rg_host.specs.Lines.{ended};
ghost use Rattle.rg_info.specs.Info.{time_text, log_lines, complete_text, none_text, slot_text, info_lines};

use crate::summary::Summary;
use rg_bytes::{Memory, put_bytes, write_whole};
use rg_checkpoint::Slots;
use std::alloc::Global;

/// Adds a line, and LF. An error leaves the text begun.
fn push_line(text: &mut Vec<u8>, line: &[u8]) -> Result<(), Memory>
    ensures { OnOk result (text.new.items ≡ text.old.items ++ (line.now ++ 10 ∷ [])) }
{
    put_bytes(text, line)?;
    put_bytes(text, b"\n")
}

/// A word, and a number.
fn number_line(alloc: Global, word: &[u8], number: u64) -> Result<Vec<u8>, Memory>
    ensures { IfOk result (λ line. line.items ≡ word.now ++ decimal number) }
{
    let mut line = Vec::new(alloc);
    put_bytes(&mut line, word)?;
    write_whole(&mut line, number)?;
    Ok(line)
}

/// The line of the last event's time.
fn time_line(alloc: Global, summary: &Summary) -> Result<Vec<u8>, Memory>
    ensures { IfOk result (λ line. line.items ≡ time_text summary.now) }
{
    if summary.events > 0 {
        return number_line(alloc, b"time ", summary.time);
    }
    let mut line = Vec::new(alloc);
    put_bytes(&mut line, b"time -")?;
    Ok(line)
}

/// The lines of a log, each ended by LF.
fn log_text(alloc: Global, summary: &Summary) -> Result<Vec<u8>, Memory>
    ensures { IfOk result (λ text. text.items ≡ ended (log_lines summary.now)) }
{
    let events = number_line(alloc, b"events ", summary.events)?;
    let next = number_line(alloc, b"next ", summary.next)?;
    let time = time_line(alloc, summary)?;
    let frames = number_line(alloc, b"frames ", summary.frames)?;
    let mut text = Vec::new(alloc);
    push_line(&mut text, &events)?;
    push_line(&mut text, &next)?;
    push_line(&mut text, &time)?;
    push_line(&mut text, &frames)?;
    Ok(text)
}

/// The line of a slot that is complete, with how many events its checkpoint is of and how many
/// queries it has.
fn complete_line(alloc: Global, i: u32, count: u64, queries: usize) -> Result<Vec<u8>, Memory>
    ensures { IfOk result (λ line. line.items ≡ complete_text i count queries) }
{
    let mut line = Vec::new(alloc);
    put_bytes(&mut line, b"slot ")?;
    write_whole(&mut line, u64::from(i))?;
    put_bytes(&mut line, b" ")?;
    write_whole(&mut line, count)?;
    put_bytes(&mut line, b" ")?;
    write_whole(&mut line, queries as u64)?;
    Ok(line)
}

/// The line of a slot that isn't complete.
fn none_line(alloc: Global, i: u32) -> Result<Vec<u8>, Memory>
    ensures { IfOk result (λ line. line.items ≡ none_text i) }
{
    let mut line = Vec::new(alloc);
    put_bytes(&mut line, b"slot ")?;
    write_whole(&mut line, u64::from(i))?;
    put_bytes(&mut line, b" none")?;
    Ok(line)
}

/// The line of slot `i`.
fn slot_line(alloc: Global, slots: &Slots, i: u32) -> Result<Vec<u8>, Memory>
    requires fresh { slots.now.fresh ≡ true }
    ensures { IfOk result (λ line. line.items ≡ slot_text i (slot_in slots.now i)) }
{
    match slots.slot(i) {
        Some(checkpoint) => {
            let queries = checkpoint.queries.as_slice().len();
            complete_line(alloc, i, checkpoint.count, queries)
        }
        None => none_line(alloc, i),
    }
}

/// The lines of a store, each ended by LF.
pub(crate) fn store_text(alloc: Global, summary: &Summary, slots: &Slots) -> Result<Vec<u8>, Memory>
    requires fresh { slots.now.fresh ≡ true }
    ensures { IfOk result (λ text. text.items ≡ ended (info_lines summary.now slots.now.first slots.now.second)) }
{
    let first = slot_line(alloc, slots, 0)?;
    let second = slot_line(alloc, slots, 1)?;
    let mut text = log_text(alloc, summary)?;
    push_line(&mut text, &first)?;
    push_line(&mut text, &second)?;
    Ok(text)
}
