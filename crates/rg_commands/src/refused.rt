ghost use Rattle.std.specs.Prelude.{◌≡◌, ◌++◌, List, Some, OnOk};
ghost use Rattle.rg_commands.specs.Call.{damage_line, schema_line, state_line, gap_line, ending_status, ending_line, SaysLine};

use crate::ending::Ending;
use rg_bytes::{Memory, put_bytes, write_whole};
use rg_messages::Status;
use std::alloc::Global;

/// Writes the line that refuses a log that is damaged at that place, with its LF.
fn write_damage(line: &mut Vec<u8>, place: u64) -> Result<(), Memory>
    ensures { OnOk result (line.new.items ≡ line.old.items ++ damage_line (Some place)) }
{
    put_bytes(line, b"refused store damaged ")?;
    write_whole(line, place)?;
    put_bytes(line, b"\n")
}

/// Writes the line that refuses a store for the rows of the node of that number, with its LF.
fn write_state(line: &mut Vec<u8>, node: u32) -> Result<(), Memory>
    ensures { OnOk result (line.new.items ≡ line.old.items ++ state_line node) }
{
    put_bytes(line, b"refused store state ")?;
    write_whole(line, u64::from(node))?;
    put_bytes(line, b"\n")
}

/// Writes the line that refuses an input whose first line has that offset, with its LF.
fn write_gap(line: &mut Vec<u8>, first: u64, next: u64) -> Result<(), Memory>
    ensures { OnOk result (line.new.items ≡ line.old.items ++ gap_line first next) }
{
    put_bytes(line, b"refused gap ")?;
    write_whole(line, first)?;
    put_bytes(line, b" ")?;
    write_whole(line, next)?;
    put_bytes(line, b"\n")
}

/// How a call ends whose store's log is damaged at that place.
pub(crate) fn refuse_damage(alloc: Global, place: u64) -> Ending
    ensures { SaysLine Status.Store (damage_line (Some place)) (ending_status result) (ending_line result) }
{
    let mut line = Vec::new(alloc);
    match write_damage(&mut line, place) {
        Ok(()) => Ending::Store(line),
        Err(_) => Ending::Failed(Status::Memory),
    }
}

/// How a call ends whose store has another schema than the plan's.
pub(crate) fn refuse_schema(alloc: Global) -> Ending
    ensures { SaysLine Status.Store schema_line (ending_status result) (ending_line result) }
{
    let mut line = Vec::new(alloc);
    match put_bytes(&mut line, b"refused store schema\n") {
        Ok(()) => Ending::Store(line),
        Err(_) => Ending::Failed(Status::Memory),
    }
}

/// How a call ends whose store has rows of that node which don't stand for its events.
pub(crate) fn refuse_state(alloc: Global, node: u32) -> Ending
    ensures { SaysLine Status.Store (state_line node) (ending_status result) (ending_line result) }
{
    let mut line = Vec::new(alloc);
    match write_state(&mut line, node) {
        Ok(()) => Ending::Store(line),
        Err(_) => Ending::Failed(Status::Memory),
    }
}

/// How a call ends whose input begins behind the store's next offset.
pub(crate) fn refuse_gap(alloc: Global, first: u64, next: u64) -> Ending
    ensures { SaysLine Status.Gap (gap_line first next) (ending_status result) (ending_line result) }
{
    let mut line = Vec::new(alloc);
    match write_gap(&mut line, first, next) {
        Ok(()) => Ending::Gap(line),
        Err(_) => Ending::Failed(Status::Memory),
    }
}
