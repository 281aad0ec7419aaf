ghost use Rattle.std.specs.Prelude.{◌≡◌, ◌⊎◌, ◌≤◌, ◌<◌, ◌+◌, [], ℕ, List, Option, Some, take, false, IfOk, IfErr, OnOk};
ghost use Rattle.std.specs.Option.{ForSome};
ghost use Rattle.rg_bytes.specs.Counts.{Rose};
ghost use Rattle.rg_host.specs.Image.{Image};
ghost use Rattle.rg_event.specs.Rising.{next_offset};
ghost use Rattle.rg_event.specs.declared.event.Event.{Event};
ghost use Rattle.rg_frame.specs.LogState.{ReachesEnd};
ghost use Rattle.rg_config.specs.Plans.{planned};
ghost use Rattle.rg_config.specs.Read.{IsReadPlan};
ghost use Rattle.rg_reservoir.specs.Attached.{IsForeign, IsBadFrame, OpensView, IsIllegalOpened};
ghost use Rattle.rg_reservoir.specs.Kept.{base, view_of, opened, room_of, cache_of, log_of, next_of, all_events};
ghost use Rattle.rg_state.specs.Keeping.{TableKept};
ghost use Rattle.rg_engine.specs.Passed.{passed_count};
ghost use Rattle.rg_checkpoint.specs.Slots.{IsKeep, ReachesSlots, sizes_in};
ghost use Rattle.rg_restore.specs.Opening.{IsEmpty, IsGoing};
ghost use Rattle.rg_open.specs.Blame.{IsBlamed, NodeRuns, IsPlaced};
ghost use Rattle.rg_open.specs.Finds.{WritesSchema};
ghost use Rattle.rg_open.specs.Opens.{IsToOpen, HasCome, HasOpened, HasNotOpened};
ghost use Rattle.rg_open.specs.Opening.{IsOpenable, IsStarted, IsResumed, IsFromIn};
ghost use Rattle.rg_open.specs.Opened.{IsKeptSince};
ghost use Rattle.rg_open.specs.Settling.{AreSettled};
ghost use Rattle.rg_open.specs.Stores.{Has};
ghost use Rattle.rg_open.specs.Unfit.{IsUnfit, SaysWhy, IsLeftAlone};
ghost use Rattle.rg_open.specs.Within.{IsWithinOpening, IsAfterOpening};

use crate::fault::OpenFault;
use crate::finding::find;
use crate::settling::settle;
use crate::starting::start;
use rg_bytes::Memory;
use rg_checkpoint::Slots;
use rg_config::Plan;
use rg_engine::Engine;
use rg_event::{Schema, Steps, Texts};
use rg_host::Host;
use rg_plan::TaskPlan;
use rg_reservoir::Reservoir;
use rg_state::Table;
use std::alloc::Global;
use std::sync::ledger::Ledger;

/// A store that is open for a plan.
#[derive(Drop)]
pub struct Opened<T: Table> {
    /// The plan's schema.
    pub schema: Schema,
    /// The printed texts of the plan's queries.
    pub texts: Texts,
    /// The events of the log.
    pub reservoir: Reservoir,
    /// An engine that answers the next event.
    pub engine: Engine<T>,
    /// The slots, into which a checkpoint may be written.
    pub slots: Slots,
    /// The slot whose checkpoint was used; none where all events were passed from the start.
    pub keep: Option<u32>,
    /// How many events that checkpoint is of; 0 without one.
    pub saved: u64,
}

/// How far a store had come when it was opened.
#[derive(Clone, Copy, Debug, PartialEq, Eq, Hash)]
pub struct Resumed {
    /// The least offset that the next line may have.
    pub next: u64,
    /// How many events there are.
    pub count: u64,
    /// How many of them are in the checkpoint that was used; 0 without one.
    pub from: u64,
}

/// What is kept of a plan.
#[derive(Drop)]
struct Copies {
    schema: Schema,
    texts: Texts,
    task: TaskPlan,
}

fn copy_plan(alloc: Global, plan: &Plan) -> Result<Copies, Memory>
    ensures { IfOk result (λ copies. (copies.schema ≡ plan.now.schema) × (copies.texts ≡ plan.now.queries) × (copies.task ≡ plan.now.task)) }
{
    Ok(Copies {
        schema: plan.schema.copy(alloc)?,
        texts: plan.queries.copy(alloc)?,
        task: plan.task.copy(alloc)?,
    })
}

/// Opens a store whose files are settled, with copies of what is kept of its plan.
fn open_settled<H: Host, T: Table, L: Ledger>(
    alloc: Global,
    host: &mut H,
    plan: &Plan,
    copies: Copies,
    table: T,
    steps: &mut Steps<L>,
) -> Result<(Opened<T>, Resumed), (OpenFault, T)>
    requires ready { IsToOpen plan.now copies.schema copies.texts copies.task (T.tells table) (T.cell table) }
    requires settled { AreSettled (H.now host.old) (H.may host.old) }
    ensures opened { IfOk result (λ r. HasOpened H.now H.may T.tells T.faults T.named T.there T.cell plan.now table host.old host.new steps.old steps.new r.0.reservoir r.0.engine r.0.slots r.0.keep r.1.from) }
    ensures come { IfOk result (λ r. HasCome plan.now r.0.reservoir r.0.saved r.0.schema r.0.texts r.1.next r.1.count r.1.from) }
    ensures refused { IfErr result (λ refused. HasNotOpened H.now H.may T.tells T.faults T.named T.there T.cell plan.now table host.old host.new (Rose (H.disk_faults host.old) (H.disk_faults host.new)) refused.0 refused.1) }
    ensures writes { WritesSchema H.now H.may H.clock H.since H.said H.disk_faults H.out_faults plan.now host.old host.new }
{
    let found = match find(alloc, host, plan) {
        Ok(found) => found,
        Err(fault) => {
            drop(copies);
            return Err((fault, table));
        }
    };
    let Copies {
        schema,
        texts,
        task,
    } = copies;
    let slots = found.slots;
    let saved = found.saved;
    let mut reservoir = found.reservoir;
    match start(alloc, &mut reservoir, host, plan, task, table, saved, steps) {
        Ok((engine, origin)) => {
            let resumed = Resumed {
                next: reservoir.next_offset(),
                count: reservoir.count(),
                from: origin.from,
            };
            Ok((
                Opened {
                    schema,
                    texts,
                    reservoir,
                    engine,
                    slots,
                    keep: origin.slot,
                    saved: origin.from,
                },
                resumed,
            ))
        }
        Err(refused) => {
            drop(schema);
            drop(texts);
            drop(reservoir);
            drop(slots);
            Err(refused)
        }
    }
}

/// Opens the store of a plan over a table without a row. Files 2, 0 and 1 are settled first, so that
/// nothing that an earlier run wrote is pending; only the schema's frame of a log without a frame, or
/// one growth of a log whose schema grows to the plan's by the plan's defaults, is written. Then each
/// event has these defaults for the columns that it lacked. The engine goes on from the fit checkpoint
/// of the greatest count, slot 0 where both have it, and from the start where none is fit; no more is
/// passed than the events behind that. A damaged log is told before another schema. A refusal hands the
/// table back as it then is.
pub fn open_store<H: Host, T: Table, L: Ledger>(
    alloc: Global,
    host: &mut H,
    plan: &Plan,
    table: T,
    steps: &mut Steps<L>,
) -> Result<(Opened<T>, Resumed), (OpenFault, T)>
    requires read { IsReadPlan plan.now }
    requires empty { T.tells table → IsEmpty (T.cell table) }

    // Over a store whose images are truthful and of the plan's schema, of one that grows to it by the plan's defaults, or without a frame.
    ensures started { IsOpenable (planned plan.now) (H.now host.old) (H.may host.old) → T.tells table →
        IfOk result (λ r. IsStarted (planned plan.now) (H.now host.new) (H.may host.new) (T.tells r.0.engine.table) (T.cell r.0.engine.table) r.0.reservoir r.0.engine r.0.texts r.0.keep r.0.saved) }

    // No more is crossed than what lies behind that checkpoint.
    ensures passed { IsOpenable (planned plan.now) (H.now host.old) (H.may host.old) →
        IfOk result (λ r. steps.new ≡ steps.old + passed_count plan.now.task (take r.1.from (all_events (H.now host.new) (base r.0.reservoir) [])) (all_events (H.now host.new) (base r.0.reservoir) [])) }
    ensures never_differs { IsOpenable (planned plan.now) (H.now host.old) (H.may host.old) → IfErr result (λ refused. refused.0 ≡ OpenFault.SchemaDiffers → ⊥) }

    // Over such a store it answers neither a bad state nor damage nor another schema.
    ensures never_bad { (n : ℕ) → IsOpenable (planned plan.now) (H.now host.old) (H.may host.old) → T.tells table → IfErr result (λ refused. refused.0 ≡ OpenFault.BadState n → ⊥) }

    // It goes on from the fit checkpoint of the greatest count.
    ensures is_from { (v : Image) → H.now host.old ≡ Some v → IsOpenable (planned plan.now) (H.now host.old) (H.may host.old) → IfOk result (λ r. IsFromIn (planned plan.now) v r.1.from) }
    ensures never_damaged { (p : ℕ) → IsOpenable (planned plan.now) (H.now host.old) (H.may host.old) → T.tells table → IfErr result (λ refused. refused.0 ≡ OpenFault.Damaged p → ⊥) }

    // Over any image that is told: its log's events, from where the engine went on, and what was passed.
    ensures told { (v : Image) → H.now host.old ≡ Some v → OnOk result ((w : Image) × (H.now host.new ≡ Some w)) }

    // Nothing of the three files is pending afterwards.
    ensures settled { (v : Image) → H.now host.old ≡ Some v → OnOk result (AreSettled (H.now host.new) (H.may host.new)) }

    // Over any image that the host tells, the events are the log's for the plan.
    ensures events { (v : Image) (events : List Event) → H.now host.old ≡ Some v → Has (planned plan.now) events v → IfOk result (λ r. (all_events (H.now host.new) (base r.0.reservoir) [] ≡ events) × (r.1.next ≡ next_offset events)) }
    ensures view { IfOk result (λ r. ForSome (H.now host.old) (λ v. OpensView plan.now.schema plan.now.defaults (view_of (base r.0.reservoir)) (v 2))) }
    ensures resumed { (v : Image) → H.now host.old ≡ Some v → IfOk result (λ r.
        IsResumed v (H.now host.new) plan.now.queries plan.now.schema.fields plan.now.task r.0.reservoir r.0.engine r.0.keep r.1.from steps.old steps.new) }
    // What is kept of the slot that was used: its checkpoint is of no more events than there are, its sizes are known, and changes are told
    // since its rows.
    ensures since { (v : Image) → H.now host.old ≡ Some v → T.tells table →
        IfOk result (λ r. (slot : ℕ) → r.0.keep ≡ Some slot → IsKeptSince (H.may host.new) slot r.0.saved plan.now.queries (sizes_in r.0.slots slot) (T.named r.0.engine.table) (T.there r.0.engine.table) (T.cell r.0.engine.table)) }
    ensures stored { (v : Image) → H.now host.old ≡ Some v → IfOk result (λ r. r.0.saved ≤ (base r.0.reservoir).committed) }

    // Where a state is bad, and of each node that can't be carried on, the checkpoint that was used is to blame.
    ensures bad { (v : Image) (events : List Event) (n : ℕ) → H.now host.old ≡ Some v → Has (planned plan.now) events v → T.tells table →
        IfErr result (λ refused. refused.0 ≡ OpenFault.BadState n → IsBlamed (planned plan.now) v events n) }
    ensures node { (v : Image) (events : List Event) (n : ℕ) → H.now host.old ≡ Some v → Has (planned plan.now) events v → T.tells table →
        IfOk result (λ r. (NodeRuns (planned plan.now) n (H.now host.new) (H.may host.new) (T.tells r.0.engine.table) (T.cell r.0.engine.table) r.0.reservoir r.0.engine → ⊥) → IsBlamed (planned plan.now) v events n) }
    // A legal log is never refused as damaged, whatever the slots hold, and each edge then stands at a spelled spot.
    ensures undamaged { (v : Image) (events : List Event) (p : ℕ) → H.now host.old ≡ Some v → Has (planned plan.now) events v → IfErr result (λ refused. refused.0 ≡ OpenFault.Damaged p → ⊥) }
    ensures placed { (v : Image) (events : List Event) → H.now host.old ≡ Some v → Has (planned plan.now) events v → IfOk result (λ r. IsPlaced (planned plan.now) (H.now host.new) (H.may host.new) r.0.reservoir r.0.engine) }

    // At each moment, and at every result.
    ensures within { (v : Image) (keep : Option ℕ) → H.now host.old ≡ Some v → IsWithinOpening H.may H.clock H.since H.said (planned plan.now) keep v host.old host.new }
    ensures stepped { (v : Image) (keep : Option ℕ) → H.now host.old ≡ Some v → OnOk result ((u : Image) → H.may host.new u → IsAfterOpening (planned plan.now) keep v (H.may host.old) u) }
    ensures said { H.said host.new ≡ H.said host.old }

    // Over an image that isn't fit for the plan.
    ensures unfit { (v : Image) → H.now host.old ≡ Some v → IsUnfit (planned plan.now) v →
        IsLeftAlone H.now H.may H.clock H.since H.said v host.old host.new × IfErr result (λ refused. SaysWhy (planned plan.now) v refused.0) }

    // Each fault has its cause.
    ensures disk { IfErr result (λ refused. refused.0 ≡ OpenFault.Disk → Rose (H.disk_faults host.old) (H.disk_faults host.new)) }
    ensures differs { IfErr result (λ refused. refused.0 ≡ OpenFault.SchemaDiffers → ForSome (H.now host.old) (λ v. IsForeign plan.now.schema plan.now.defaults (v 2))) }
    ensures damaged { (p : ℕ) → IfErr result (λ refused. refused.0 ≡ OpenFault.Damaged p →
        ForSome (H.now host.old) (λ v. IsBadFrame p (v 2)) ⊎ ForSome (H.now host.old) (λ u. ForSome (H.now host.new) (λ v. IsIllegalOpened plan.now.schema plan.now.defaults (u 2) p (v 2)))) }
    ensures exact { (v : Image) → H.now host.old ≡ Some v → IsForeign plan.now.schema plan.now.defaults (v 2) ⊎ ((p : ℕ) × IsBadFrame p (v 2)) → IfOk result (λ _. ⊥) }
    ensures table_disk { IfErr result (λ refused. refused.0 ≡ OpenFault.Table → Rose (T.faults table) (T.faults refused.1)) }

    ensures copies { IfOk result (λ r. (r.0.schema ≡ plan.now.schema) × (r.0.texts ≡ plan.now.queries)) }
    ensures reservoir { IfOk result (λ r. ((base r.0.reservoir).ended ≡ false) × ((base r.0.reservoir).file ≡ 2) × ((base r.0.reservoir).shape ≡ plan.now.schema) × ((base r.0.reservoir).limit ≡ plan.now.room.limit)) }
    ensures none { IfOk result (λ r. (opened r.0.reservoir ≡ []) × (room_of r.0.reservoir ≡ plan.now.room.chunk) × ((cache_of r.0.reservoir).cap ≡ plan.now.room.cache)) }
    ensures slots { IfOk result (λ r. r.0.slots.ended ≡ false) }
    ensures keep { IfOk result (λ r. IsKeep r.0.keep) }
    ensures reaches { IfOk result (λ r. ReachesEnd (log_of r.0.reservoir) (H.now host.new)) }
    ensures slots_reach { IfOk result (λ r. ReachesSlots r.0.slots (H.now host.new)) }
    ensures engine { IfOk result (λ r. IsGoing plan.now.task (base r.0.reservoir).committed r.0.engine) }
    ensures numbers { IfOk result (λ r. (r.1.next ≡ next_of r.0.reservoir) × (r.1.count ≡ (base r.0.reservoir).committed) × (r.1.from ≡ r.0.saved)) }
    ensures table { IfOk result (λ r. TableKept T.tells T.faults table r.0.engine.table) }
    ensures back { IfErr result (λ refused. TableKept T.tells T.faults table refused.1) }
    ensures disk_faults { H.disk_faults host.old ≤ H.disk_faults host.new }
    ensures out_faults { H.out_faults host.new ≡ H.out_faults host.old }
{
    // a schema that there is is legal
    let _columns = plan.schema.fields();
    match settle(host) {
        Ok(()) => {}
        Err(_) => return Err((OpenFault::Disk, table)),
    }
    let copies = match copy_plan(alloc, plan) {
        Ok(copies) => copies,
        Err(_) => return Err((OpenFault::Memory, table)),
    };
    match open_settled(alloc, host, plan, copies, table, steps) {
        Ok(opened) => Ok(opened),
        Err(refused) => Err(refused),
    }
}
