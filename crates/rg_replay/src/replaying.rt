ghost use Rattle.std.specs.Prelude.{⊤, ◌≡◌, ◌⊎◌, ◌≤◌, ◌^◌, [], ℕ, List, length, replicate, Some, None, false, IfOk, IfErr, OnOk, IsErrOf};
ghost use Rattle.std.specs.Option.{ForSome};
ghost use Rattle.rg_bytes.specs.Counts.{Rose};
ghost use Rattle.rg_event.specs.declared.event.Event.{Event as TheEvent};
ghost use Rattle.rg_frame.specs.Frames.{HasPayloads};
ghost use Rattle.rg_host.specs.Image.{Image};
ghost use Rattle.rg_host.specs.Lines.{ended};
ghost use Rattle.rg_host.specs.Moments.{LeavesFiles};
ghost use Rattle.rg_host.specs.Puts.{IsPrefix, Puts, StopsWith};
ghost use Rattle.rg_metric.specs.Queries.{Asked};
ghost use Rattle.rg_reservoir.specs.Attached.{IsOther, IsBadFrame, IsIllegalSince};
ghost use Rattle.rg_reservoir.specs.Kept.{base, opened, all_events, IsSound};
ghost use Rattle.rg_engine.specs.Feeding.{Serves};
ghost use Rattle.rg_plan.specs.Plans.{plan_for};
ghost use Rattle.rg_replay.specs.Playing.{IsPlaced, IsPlaying, IsReplayable, IsCaused, IsReachedAt, IsWholeIn, IsLegalThrough, IsRefusedOf, EndsOver, LeavesStore, StopsIn, IsExpected, Answered, Answering, HasBegun, HasRead, IsReadFor, start_of};
ghost use Rattle.rg_replay.specs.Replay.{replay_lines, replay_text};

use crate::fault::{ReplayFault, reservoir_fault};
use crate::turning::turn;
use crate::writing::put_end;
use rg_engine::Engine;
use rg_event::{Room, Schema, Steps};
use rg_host::Host;
use rg_past::Spot;
use rg_plan::TaskPlan;
use rg_reservoir::Reservoir;
use rg_state::{MemTable, Table};
use std::alloc::Global;
use std::sync::ledger::Ledger;

/// An engine of a plan whose edges all stand at this spot, over a table without a row.
pub(crate) fn begin(
    alloc: Global,
    plan: TaskPlan,
    start: Spot,
) -> Result<Engine<MemTable>, ReplayFault>
    ensures begun { IfOk result (λ engine. HasBegun plan start (⟦<MemTable as Table>⟧.tells engine.table) (⟦<MemTable as Table>⟧.cell engine.table) engine) }
    ensures memory { IfErr result (λ fault. fault ≡ ReplayFault.Memory) }
{
    let spots = match vec![in alloc; start; plan.offsets().len()] {
        Ok(spots) => spots,
        Err(_) => return Err(ReplayFault::Memory),
    };
    match Engine::new(alloc, plan, MemTable::new(alloc), &spots) {
        Ok(engine) => Ok(engine),
        Err((_, table)) => {
            drop(table);
            Err(ReplayFault::Memory)
        }
    }
}

/// Answers all events of a reservoir, from the first one on. Lines that aren't put yet are gathered in `text`.
pub(crate) fn answer_all<H: Host, L: Ledger>(
    alloc: Global,
    host: &mut H,
    reservoir: &mut Reservoir,
    engine: &mut Engine<MemTable>,
    first: u64,
    text: &mut Vec<u8>,
    steps: &mut Steps<L>,
) -> Result<(), ReplayFault>
    requires none { text.old.items ≡ [] }
    requires placed { IsPlaced reservoir.old engine.old (start_of (base reservoir.old)) }
    ensures answered { (queries : List Asked) (events : List TheEvent) →
        IsPlaying queries events (H.now host.old) (H.may host.old) (⟦<MemTable as Table>⟧.tells engine.old.table) (⟦<MemTable as Table>⟧.cell engine.old.table) reservoir.old engine.old (start_of (base reservoir.old)) →
        Answering (replay_lines queries first events) (replay_text queries first events) (Puts H.said H.clock H.since host.old host.new) text.new.items (HasRead events (H.now host.new) (H.may host.new) reservoir.new) result }
    ensures cause { IfErr result (λ fault. IsCaused H.now H.disk_faults H.out_faults (base reservoir.old) fault host.old host.new) }
    ensures whole { IsReachedAt H.now reservoir.old host.old (start_of (base reservoir.old)) → OnOk result (IsWholeIn H.now (base reservoir.old) host.old) }
    ensures leaves { LeavesStore H.now H.may H.clock H.since H.disk_faults H.out_faults host.old host.new }
{
    let mut spot = reservoir.start();
    'payments: loop {
        match turn(
            alloc, host, reservoir, engine, &mut spot, first, text, steps,
        ) {
            Ok(true) => {}
            Ok(false) => return Ok(()),
            Err(fault) => return Err(fault),
        }
    }
}

/// Answers all events of a reservoir by an engine of this plan, from the first one on. Lines that aren't put yet
/// are gathered in `text`; after a refusal they are lost.
fn answer_by<H: Host, L: Ledger>(
    alloc: Global,
    host: &mut H,
    reservoir: &mut Reservoir,
    plan: TaskPlan,
    first: u64,
    text: &mut Vec<u8>,
    steps: &mut Steps<L>,
) -> Result<(), ReplayFault>
    requires none { text.old.items ≡ [] }
    requires runs { (base reservoir.old).ended ≡ false }
    ensures answered { (queries : List Asked) (events : List TheEvent) → IsReadFor queries events plan (H.now host.old) (H.may host.old) reservoir.old →
        Answering (replay_lines queries first events) (replay_text queries first events) (Puts H.said H.clock H.since host.old host.new) text.new.items (HasRead events (H.now host.new) (H.may host.new) reservoir.new) result }
    ensures cause { IfErr result (λ fault. IsCaused H.now H.disk_faults H.out_faults (base reservoir.old) fault host.old host.new) }
    ensures whole { IsReachedAt H.now reservoir.old host.old (start_of (base reservoir.old)) → OnOk result (IsWholeIn H.now (base reservoir.old) host.old) }
    ensures leaves { LeavesStore H.now H.may H.clock H.since H.disk_faults H.out_faults host.old host.new }
{
    let mut engine = match begin(alloc, plan, reservoir.start()) {
        Ok(engine) => engine,
        Err(fault) => return Err(fault),
    };
    let answered = answer_all(alloc, host, reservoir, &mut engine, first, text, steps);
    drop(engine);
    answered
}

/// Answers all events of a reservoir and puts the last line.
fn replay_opened<H: Host, L: Ledger>(
    alloc: Global,
    host: &mut H,
    reservoir: &mut Reservoir,
    plan: TaskPlan,
    first: u64,
    steps: &mut Steps<L>,
) -> Result<(), ReplayFault>
    requires runs { (base reservoir.old).ended ≡ false }
    ensures answered { (queries : List Asked) (events : List TheEvent) → IsReadFor queries events plan (H.now host.old) (H.may host.old) reservoir.old →
        Answered (replay_text queries first events) (replay_text queries first events) (Puts H.said H.clock H.since host.old host.new) ⊤ result }
    ensures cause { IfErr result (λ fault. IsCaused H.now H.disk_faults H.out_faults (base reservoir.old) fault host.old host.new) }
    ensures whole { IsReachedAt H.now reservoir.old host.old (start_of (base reservoir.old)) → OnOk result (IsWholeIn H.now (base reservoir.old) host.old) }
    ensures leaves { LeavesStore H.now H.may H.clock H.since H.disk_faults H.out_faults host.old host.new }
{
    let mut text = Vec::new(alloc);
    match answer_by(alloc, host, reservoir, plan, first, &mut text, steps) {
        Ok(()) => {}
        Err(fault) => return Err(fault),
    }
    put_end(host, &mut text, reservoir.next_offset(), reservoir.count())
}

/// Puts the answers to all events of the log in file 2 again, by the queries of a plan: for each event whose
/// offset is at least `first` the line of its offset and its answers, by the events up to and with it, and
/// at the end the least offset of the next event and how many there are. Nothing but the log is read, and no
/// file is written. `schema` is the plan's; a log without a frame has no event. A log that its heads show to
/// be damaged is told as such, whatever its schema: only a whole one has a schema in force at its end. An illegal
/// chunk is told as damaged where the replay comes to it, behind the lines of the events in front of it.
///
/// Events before `first` are answered too, since the answers behind them rest on them, and not put.
/// Each refusal but `Write` leaves whole lines put.
pub fn replay<H: Host, L: Ledger>(
    alloc: Global,
    host: &mut H,
    schema: &Schema,
    room: Room,
    plan: TaskPlan,
    first: u64,
    steps: &mut Steps<L>,
) -> Result<(), ReplayFault>
    requires chunk { (1 ≤ room.chunk) × (room.chunk ≤ 4096) }
    requires cache { (1 ≤ room.cache) × (room.cache ≤ 1024) }
    requires limit { room.limit ≤ 2 ^ 40 }

    // Over a legal log of which nothing is pending, whose columns serve the plan.
    ensures completes { (queries : List Asked) (events : List TheEvent) → IsReplayable queries events plan schema.now (H.now host.old) (H.may host.old) →
        OnOk result (Puts H.said H.clock H.since host.old host.new (ended (replay_text queries first events))) }

    // At a refusal whole lines of the text were put, or a prefix at a failed put.
    ensures stops { (queries : List Asked) (events : List TheEvent) → IsReplayable queries events plan schema.now (H.now host.old) (H.may host.old) →
        IfErr result (StopsIn (replay_text queries first events) (Puts H.said H.clock H.since host.old host.new)) }

    // Over a legal log a refusal is a failed call or want of memory.
    ensures expected { (queries : List Asked) (events : List TheEvent) → IsReplayable queries events plan schema.now (H.now host.old) (H.may host.old) →
        IfErr result IsExpected }

    // A log with a frame that heads and growths show to be bad, or of another schema, is refused before anything is put.
    ensures refused { (v : Image) → H.now host.old ≡ Some v → IsOther schema.now (v 2) ⊎ ((p : ℕ) × IsBadFrame p (v 2)) →
        OnOk result ⊥ × Puts H.said H.clock H.since host.old host.new [] }

    // A log with an illegal chunk is refused too: where the replay ends well, there is none among those that the heads count.
    ensures whole { OnOk result (ForSome (H.now host.old) (λ v. HasPayloads [] (v 2) ⊎ IsLegalThrough schema.now (v 2))) }

    // Each refusal but want of memory has its cause.
    ensures refused_of { IfErr result (IsRefusedOf plan schema.now (H.now host.old) (H.may host.old)) }
    ensures differs { IsErrOf result ReplayFault.SchemaDiffers → ForSome (H.now host.old) (λ v. IsOther schema.now (v 2)) }

    // Each refusal has its cause.
    ensures damaged { (p : ℕ) → IsErrOf result (ReplayFault.Damaged p) →
        ForSome (H.now host.old) (λ v. IsBadFrame p (v 2)) ⊎ ForSome (H.now host.old) (λ v. IsIllegalSince schema.now (v 2) p (v 2)) }
    ensures disk { IsErrOf result ReplayFault.Disk → Rose (H.disk_faults host.old) (H.disk_faults host.new) }
    ensures write { IsErrOf result ReplayFault.Write → Rose (H.out_faults host.old) (H.out_faults host.new) }

    // No file is written.
    ensures leaves { LeavesFiles H.now H.may H.clock H.since host.old host.new }
    ensures disk_faults { H.disk_faults host.old ≤ H.disk_faults host.new }
    ensures out_faults { H.out_faults host.old ≤ H.out_faults host.new }
{
    replay_log(alloc, host, schema, room, plan, first, steps)
}

/// Answers the stored events again, with what `replay` promises in three clauses.
fn replay_log<H: Host, L: Ledger>(
    alloc: Global,
    host: &mut H,
    schema: &Schema,
    room: Room,
    plan: TaskPlan,
    first: u64,
    steps: &mut Steps<L>,
) -> Result<(), ReplayFault>
    requires chunk { (1 ≤ room.chunk) × (room.chunk ≤ 4096) }
    requires cache { (1 ≤ room.cache) × (room.cache ≤ 1024) }
    requires limit { room.limit ≤ 2 ^ 40 }
    ensures answered { (queries : List Asked) (events : List TheEvent) → IsReplayable queries events plan schema.now (H.now host.old) (H.may host.old) →
        Answered (replay_text queries first events) (replay_text queries first events) (Puts H.said H.clock H.since host.old host.new) ⊤ result }
    ensures refused { (v : Image) → H.now host.old ≡ Some v → IsOther schema.now (v 2) ⊎ ((p : ℕ) × IsBadFrame p (v 2)) →
        OnOk result ⊥ × Puts H.said H.clock H.since host.old host.new [] }
    ensures whole { OnOk result (ForSome (H.now host.old) (λ v. HasPayloads [] (v 2) ⊎ IsLegalThrough schema.now (v 2))) }
    ensures ends { EndsOver H.now H.may H.clock H.since H.disk_faults H.out_faults schema.now result host.old host.new }
{
    match Reservoir::view(alloc, host, schema, room) {
        Ok(Some(viewed)) => {
            let mut reservoir = viewed;
            let replayed = replay_opened(alloc, host, &mut reservoir, plan, first, steps);
            drop(reservoir);
            replayed
        }
        Ok(None) => {
            drop(plan);
            let mut text = Vec::new(alloc);
            put_end(host, &mut text, 0, 0)
        }
        Err(fault) => {
            drop(plan);
            Err(reservoir_fault(fault))
        }
    }
}
