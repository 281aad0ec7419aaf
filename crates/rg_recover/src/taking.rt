ghost use Rattle.std.specs.Prelude.{ℕ, List};
ghost use Rattle.rg_config.specs.Plans.{Planned};
ghost use Rattle.rg_recover.specs.Sessions.{IsReady};
ghost use Rattle.rg_recover.specs.Storing.{CanStore, StoresChunk, KeepsEvents, MakesRoom};
ghost use Rattle.rg_recover.specs.Taking.{CanTake, AnswersReady, CarriesNodes, TakesEvent};

use crate::commit::commit_open;
use crate::fault::{TaskFault, engine_fault};
use rg_engine::Engine;
use rg_event::{Event, Steps};
use rg_host::Host;
use rg_metric::Answers;
use rg_reservoir::{Reservoir, Stored};
use rg_state::Table;
use std::sync::ledger::Ledger;

/// Lets the engine take an event; the reservoir first commits its open chunk where it has no room.
pub(crate) fn take_in<H: Host, T: Table, L: Ledger>(
    reservoir: &mut Reservoir,
    engine: &mut Engine<T>,
    host: &mut H,
    event: Event,
    steps: &mut Steps<L>,
) -> Result<Answers, TaskFault>
    requires can { CanTake (H.now host.old) reservoir.old engine.old event }
    ensures ready { (plan : Planned) (texts : List (List ℕ)) → IsReady plan (H.now host.old) (H.may host.old) (T.tells engine.old.table) (T.cell engine.old.table) reservoir.old engine.old texts →
        AnswersReady H.now H.may H.clock H.since H.said T.tells T.cell plan texts event result reservoir.old reservoir.new engine.old engine.new host.old host.new }
    ensures nodes { CarriesNodes H.now H.may T.tells T.cell result reservoir.old reservoir.new engine.old engine.new host.old host.new }
    ensures takes { TakesEvent H.now H.may H.clock H.since H.said H.disk_faults H.out_faults T.tells T.named T.there T.cell T.faults result reservoir.old reservoir.new engine.old engine.new host.old host.new }
{
    // an engine has a spot for each offset of its plan, before and after
    let _before = engine.spots();
    match make_room(reservoir, host) {
        Ok(()) => {}
        Err(fault) => return Err(fault),
    }
    let mut past = Stored::new(reservoir, host);
    match engine.take(&mut past, event, steps) {
        Ok(answers) => {
            let _spots = engine.spots();
            Ok(answers)
        }
        Err(fault) => Err(engine_fault(fault)),
    }
}

/// Commits the open chunk of a reservoir where the next event has no room beside it.
fn make_room<H: Host>(reservoir: &mut Reservoir, host: &mut H) -> Result<(), TaskFault>
    requires can { CanStore (H.now host.old) reservoir.old }
    ensures stores { StoresChunk H.now H.may H.clock H.since H.said result reservoir.old reservoir.new host.old host.new }
    ensures keeps { KeepsEvents H.now H.said H.disk_faults H.out_faults reservoir.old reservoir.new host.old host.new }
    ensures room { MakesRoom H.disk_faults result reservoir.old reservoir.new host.old host.new }
{
    if reservoir.has_room() {
        return Ok(());
    }
    commit_open(reservoir, host)
}
