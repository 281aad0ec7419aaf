ghost use Rattle.std.specs.Prelude.{◌≡◌, ◌<◌, ◌++◌, ◌∷◌, [], Some, length, slice_get, IfOk, IfErr, OnOk};
ghost use Rattle.std.specs.Option.{ForSome};
ghost use Rattle.rg_dump.specs.Leaves.{LeavesRead};
ghost use Rattle.rg_event.specs.declared.event.Event.{Event};
ghost use Rattle.rg_reservoir.specs.declared.walk.Stage.TheVariants as stage;
ghost use Rattle.rg_verify.specs.Causes.{IsFirstDamage, IsUnjudged};
ghost use Rattle.rg_verify.specs.Payments.{events_after, IsReadAll};

use crate::fault::{VerifyFault, walk_fault};
use crate::longer::extend;
use rg_bytes::Memory;
use rg_chunk::Chunk;
use rg_event::Events;
use rg_host::Host;
use rg_reservoir::{Stage, Walk};
use std::alloc::Global;

/// What a log has.
#[derive(Debug, Drop)]
pub(crate) struct Payments {
    /// All payments, in order, each with the values of every later growth.
    pub(crate) events: Events,
    /// Whether there is a frame.
    pub(crate) framed: bool,
}

/// Adds a copy of the event of that index of a chunk.
#[tactic(auto, using(crate::proofs::Chunks::has_event))]
fn push_event(alloc: Global, events: &mut Events, chunk: &Chunk, index: u32) -> Result<(), Memory>
    requires within { index < length chunk.now }
    ensures { OnOk result ((event : Event) × (slice_get chunk.now index ≡ Some event) × (events.new ≡ events.old ++ event ∷ [])) }
{
    let event = match chunk.get(index) {
        Some(event) => event,
        None => unreachable!(),
    };
    let copy = event.copy(alloc)?;
    events.push(copy)?;
    Ok(())
}

/// Adds copies of the events of a chunk.
fn push_chunk(alloc: Global, events: &mut Events, chunk: &Chunk) -> Result<(), Memory>
    ensures { OnOk result (events.new ≡ events.old ++ chunk.now) }
{
    'places: for index in 0..chunk.count() {
        push_event(alloc, events, chunk, index)?;
    }
    Ok(())
}

/// Adds what a frame says behind these events: copies of a chunk's, or a growth's values behind those of each.
fn push_stage(alloc: Global, events: &mut Events, stage: &Stage) -> Result<(), Memory>
    ensures { OnOk result (events.new ≡ events_after events.old stage.now) }
{
    match stage {
        Stage::Schema(_) => Ok(()),
        Stage::Chunk(chunk) => push_chunk(alloc, events, chunk),
        Stage::Growth(_, values) => extend(alloc, events, values),
    }
}

/// Reads the whole log of file 2, chunks included. It takes the memory of all payments.
pub(crate) fn read_log<H: Host>(alloc: Global, host: &mut H) -> Result<Payments, VerifyFault>
    ensures read { IfOk result (λ log. ForSome (H.now host.old) (λ v. IsReadAll (v 2) log.events log.framed)) }
    ensures cause { IfErr result (IsUnjudged (IsFirstDamage (H.now host.old)) ⊥ (H.disk_faults host.old) (H.disk_faults host.new)) }
    ensures leaves { LeavesRead H.now H.may H.clock H.since H.said H.disk_faults H.out_faults host.old host.new }
{
    let mut walk = Walk::new(alloc);
    let mut events = Events::new(alloc);
    let mut framed = false;
    'frames: loop {
        let stage = match walk.next(host) {
            Ok(Some(stage)) => stage,
            Ok(None) => return Ok(Payments { events, framed }),
            Err(fault) => return Err(walk_fault(fault)),
        };
        match push_stage(alloc, &mut events, &stage) {
            Ok(()) => {}
            Err(_) => return Err(VerifyFault::Memory),
        }
        framed = true;
    }
}
