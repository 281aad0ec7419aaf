ghost use Rattle.std.specs.Prelude.{◌≡◌, ◌+◌, ◌≤◌, ◌^◌, ℕ, List, true, false, IfOk, IfErr, OnOk, IsTrue};
ghost use Rattle.rg_event.specs.declared.event.Event.{Event as TheEvent};
ghost use Rattle.rg_host.specs.Lines.{ended};
ghost use Rattle.rg_host.specs.Puts.{Puts};
ghost use Rattle.rg_metric.specs.Queries.{Asked};
ghost use Rattle.rg_reservoir.specs.Kept.{base};
ghost use Rattle.rg_replay.specs.Playing.{IsPlaced, IsPlaying, IsCaused, IsReachedAt, IsWholeIn, LeavesLog, Turned};

use crate::fault::ReplayFault;
use crate::stepping::Told;
use crate::storing::step_stored;
use crate::writing::put_reply;
use rg_engine::Engine;
use rg_event::Steps;
use rg_host::Host;
use rg_past::Spot;
use rg_reply::Reply;
use rg_reservoir::Reservoir;
use rg_state::{MemTable, Table};
use std::alloc::Global;
use std::sync::ledger::Ledger;

/// Answers the next event of a reservoir and gathers its line, where its offset is at least `first`. Says
/// whether there was one. What is gathered in `text` is put where it is long.
pub(crate) fn turn<H: Host, L: Ledger>(
    alloc: Global,
    host: &mut H,
    reservoir: &mut Reservoir,
    engine: &mut Engine<MemTable>,
    spot: &mut Spot,
    first: u64,
    text: &mut Vec<u8>,
    steps: &mut Steps<L>,
) -> Result<bool, ReplayFault>
    requires placed { IsPlaced reservoir.old engine.old spot.old }
    ensures turned { (queries : List Asked) (events : List TheEvent) (held : List (List ℕ)) → text.old.items ≡ ended held →
        IsPlaying queries events (H.now host.old) (H.may host.old) (⟦<MemTable as Table>⟧.tells engine.old.table) (⟦<MemTable as Table>⟧.cell engine.old.table) reservoir.old engine.old spot.old →
        Turned queries first events spot.old.number held (Puts H.said H.clock H.since host.old host.new) text.new.items
        (IsPlaying queries events (H.now host.new) (H.may host.new) (⟦<MemTable as Table>⟧.tells engine.new.table) (⟦<MemTable as Table>⟧.cell engine.new.table) reservoir.new engine.new spot.new) result }
    ensures placed { OnOk result (IsPlaced reservoir.new engine.new spot.new) }
    ensures one { IfOk result (λ more. IsTrue more → (spot.new.number ≡ spot.old.number + 1) × (spot.new.number ≤ 2 ^ 40)) }
    ensures cause { IfErr result (λ fault. IsCaused H.now H.disk_faults H.out_faults (base reservoir.old) fault host.old host.new) }
    ensures reads { IsReachedAt H.now reservoir.old host.old spot.old →
        IfOk result (λ more. (more ≡ false → IsWholeIn H.now (base reservoir.old) host.old) × (IsTrue more → IsReachedAt H.now reservoir.new host.new spot.new)) }
    ensures log { LeavesLog H.now H.may H.clock H.since H.disk_faults H.out_faults reservoir.old reservoir.new host.old host.new }
{
    let Told { event, answers } = match step_stored(alloc, host, reservoir, engine, spot, steps) {
        Ok(Some(told)) => told,
        Ok(None) => return Ok(false),
        Err(fault) => return Err(fault),
    };
    let reply = Reply::Answered(answers);
    match put_reply(host, text, first, event.offset, &reply) {
        Ok(()) => {}
        Err(fault) => return Err(fault),
    }
    give_back(engine, reply);
    Ok(true)
}

/// Gives the list of a reply's answers back, for the answers to the next event.
fn give_back(engine: &mut Engine<MemTable>, reply: Reply)
    ensures { engine.new ≡ engine.old }
{
    if let Reply::Answered(answers) = reply {
        engine.reuse(answers);
    }
}
