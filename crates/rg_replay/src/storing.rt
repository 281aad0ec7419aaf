ghost use Rattle.std.specs.Prelude.{◌≡◌, ◌+◌, ℕ, List, IfOk, IfErr, IfSome, OnOk, MatchOption};
ghost use Rattle.std.specs.Result.{MatchResult};
ghost use Rattle.rg_event.specs.declared.event.Event.{Event as TheEvent};
ghost use Rattle.rg_metric.specs.Queries.{Asked};
ghost use Rattle.rg_reservoir.specs.Kept.{base};
ghost use Rattle.rg_replay.specs.Faults.{IsFromOutside};
ghost use Rattle.rg_replay.specs.Going.{Came};
ghost use Rattle.rg_replay.specs.Playing.{IsPlaced, IsPlaying, IsCaused, IsReachedAt, IsWholeIn, StaysQuiet};

use crate::fault::{ReplayFault, engine_fault};
use crate::stepping::{Told, step};
use rg_engine::Engine;
use rg_event::Steps;
use rg_host::Host;
use rg_past::Spot;
use rg_past_prefix::Shown;
use rg_reservoir::{Reservoir, Stored};
use rg_state::{MemTable, Table};
use std::alloc::Global;
use std::sync::ledger::Ledger;

/// Answers the next event of a reservoir; none where all were answered.
pub(crate) fn step_stored<H: Host, L: Ledger>(
    alloc: Global,
    host: &mut H,
    reservoir: &mut Reservoir,
    engine: &mut Engine<MemTable>,
    spot: &mut Spot,
    steps: &mut Steps<L>,
) -> Result<Option<Told>, ReplayFault>
    requires placed { IsPlaced reservoir.old engine.old spot.old }
    ensures came { (queries : List Asked) (events : List TheEvent) →
        IsPlaying queries events (H.now host.old) (H.may host.old) (⟦<MemTable as Table>⟧.tells engine.old.table) (⟦<MemTable as Table>⟧.cell engine.old.table) reservoir.old engine.old spot.old →
        MatchResult result
        (λ found. Came queries events spot.old.number found
        (IsPlaying queries events (H.now host.new) (H.may host.new) (⟦<MemTable as Table>⟧.tells engine.new.table) (⟦<MemTable as Table>⟧.cell engine.new.table) reservoir.new engine.new spot.new))
        IsFromOutside }
    ensures placed { OnOk result (IsPlaced reservoir.new engine.new spot.new) }
    ensures one { IfOk result (λ found. IfSome found (λ _. spot.new.number ≡ spot.old.number + 1)) }
    ensures cause { IfErr result (λ fault. IsCaused H.now H.disk_faults H.out_faults (base reservoir.old) fault host.old host.new) }
    ensures reads { IsReachedAt H.now reservoir.old host.old spot.old →
        IfOk result (λ found. MatchOption found (IsWholeIn H.now (base reservoir.old) host.old) (λ _. IsReachedAt H.now reservoir.new host.new spot.new)) }
    ensures quiet { StaysQuiet H.now H.may H.clock H.since H.said H.disk_faults H.out_faults reservoir.old reservoir.new host.old host.new }
{
    let mut past = Shown::new(Stored::new(reservoir, host), spot.number);
    match step(alloc, engine, &mut past, spot, steps) {
        Ok(found) => Ok(found),
        Err(fault) => Err(engine_fault(fault)),
    }
}
