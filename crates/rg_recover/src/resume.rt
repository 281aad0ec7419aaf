ghost use Rattle.std.specs.Prelude.{◌≡◌, ◌⊎◌, ◌≤◌, ◌+◌, [], ℕ, List, Option, Some, take, false, IfOk, IfErr, OnOk};
ghost use Rattle.std.specs.Option.{ForSome};
ghost use Rattle.rg_bytes.specs.Counts.{Rose};
ghost use Rattle.rg_host.specs.Image.{Image};
ghost use Rattle.rg_event.specs.Rising.{next_offset};
ghost use Rattle.rg_event.specs.declared.event.Event.{Event};
ghost use Rattle.rg_frame.specs.LogState.{ReachesEnd};
ghost use Rattle.rg_config.specs.Plans.{planned};
ghost use Rattle.rg_config.specs.Read.{IsReadPlan};
ghost use Rattle.rg_reservoir.specs.Attached.{IsForeign, IsBadFrame, OpensView, IsIllegalOpened};
ghost use Rattle.rg_reservoir.specs.Kept.{base, view_of, opened, room_of, cache_of, log_of, next_of};
ghost use Rattle.rg_state.specs.Keeping.{TableKept};
ghost use Rattle.rg_engine.specs.Passed.{passed_count};
ghost use Rattle.rg_checkpoint.specs.Slots.{ReachesSlots};
ghost use Rattle.rg_restore.specs.Opening.{IsEmpty};
ghost use Rattle.rg_open.specs.Blame.{IsBlamed, NodeRuns, IsPlaced};
ghost use Rattle.rg_open.specs.Opening.{IsOpenable, IsResumed, IsFromIn};
ghost use Rattle.rg_open.specs.Stores.{Has};
ghost use Rattle.rg_open.specs.Unfit.{IsUnfit, SaysWhy, IsLeftAlone};
ghost use Rattle.rg_open.specs.Within.{IsWithinOpening, IsAfterOpening};
ghost use Rattle.rg_recover.specs.Sessions.{HasKept, IsRunning, count_in, events_of, stored_of};

use crate::session::Session;
use rg_config::Plan;
use rg_event::Steps;
use rg_host::Host;
use rg_open::{OpenFault, Resumed, open_store};
use rg_state::Table;
use std::alloc::Global;
use std::sync::ledger::Ledger;

impl<T: Table> Session<T> {
    /// A session of a plan over the store in a host's files, with the plan's rooms and a table without a
    /// row, and how far that store had come. What an earlier run left is settled first; nothing is written but
    /// the schema's frame of a log without a frame, or one growth where the log's schema grows to the plan's by
    /// the plan's defaults. The engine goes on from the fit checkpoint of the greatest count, slot 0 where both
    /// have it, and from the start where none is fit; no more is passed than the events behind that. A refusal
    /// hands the table back as it then is.
    #[tactic(auto, using(crate::proofs::Resuming::count_of_none))]
    pub fn resume<H: Host, L: Ledger>(
        alloc: Global,
        host: &mut H,
        plan: &Plan,
        table: T,
        steps: &mut Steps<L>,
    ) -> Result<(Session<T>, Resumed), (OpenFault, T)>
        requires read { IsReadPlan plan.now }
        requires empty { T.tells table → IsEmpty (T.cell table) }

        // Over a store whose images are truthful, and of the plan's schema, of one that grows to it by the plan's defaults, or without a frame.
        ensures running { IsOpenable (planned plan.now) (H.now host.old) (H.may host.old) → T.tells table →
            IfOk result (λ r. IsRunning (planned plan.now) (H.now host.new) (H.may host.new) T.tells T.cell T.named T.there r.0) }
        ensures passed { IsOpenable (planned plan.now) (H.now host.old) (H.may host.old) →
            IfOk result (λ r. steps.new ≡ steps.old + passed_count plan.now.task (take r.1.from (events_of (H.now host.new) r.0)) (events_of (H.now host.new) r.0)) }
        ensures never_differs { IsOpenable (planned plan.now) (H.now host.old) (H.may host.old) → IfErr result (λ refused. refused.0 ≡ OpenFault.SchemaDiffers → ⊥) }
        ensures never_bad { (n : ℕ) → IsOpenable (planned plan.now) (H.now host.old) (H.may host.old) → T.tells table → IfErr result (λ refused. refused.0 ≡ OpenFault.BadState n → ⊥) }
        ensures is_from { (v : Image) → H.now host.old ≡ Some v → IsOpenable (planned plan.now) (H.now host.old) (H.may host.old) → IfOk result (λ r. IsFromIn (planned plan.now) v r.1.from) }
        ensures never_damaged { (p : ℕ) → IsOpenable (planned plan.now) (H.now host.old) (H.may host.old) → T.tells table → IfErr result (λ refused. refused.0 ≡ OpenFault.Damaged p → ⊥) }

        // Over any image that is told: its log's events, from where the engine went on, and what was passed.
        ensures events { (v : Image) (events : List Event) → H.now host.old ≡ Some v → Has (planned plan.now) events v →
            IfOk result (λ r. (events_of (H.now host.new) r.0 ≡ events) × (stored_of (H.now host.new) r.0 ≡ events) × (r.1.next ≡ next_offset events)) }
        ensures resumed { (v : Image) → H.now host.old ≡ Some v → IfOk result (λ r.
            IsResumed v (H.now host.new) plan.now.queries plan.now.schema.fields plan.now.task r.0.reservoir r.0.engine r.0.keep r.1.from steps.old steps.new) }

        // What is kept of the slot that was used.
        ensures keeps { (v : Image) → H.now host.old ≡ Some v → T.tells table → IfOk result (λ r. HasKept (H.now host.new) (H.may host.new) T.cell T.named T.there r.0) }

        // Where a state is bad, and of each node that can't be carried on, the checkpoint that was used is to blame.
        ensures bad { (v : Image) (events : List Event) (n : ℕ) → H.now host.old ≡ Some v → Has (planned plan.now) events v → T.tells table →
            IfErr result (λ refused. refused.0 ≡ OpenFault.BadState n → IsBlamed (planned plan.now) v events n) }
        ensures node { (v : Image) (events : List Event) (n : ℕ) → H.now host.old ≡ Some v → Has (planned plan.now) events v → T.tells table →
            IfOk result (λ r. (NodeRuns (planned plan.now) n (H.now host.new) (H.may host.new) (T.tells r.0.engine.table) (T.cell r.0.engine.table) r.0.reservoir r.0.engine → ⊥) → IsBlamed (planned plan.now) v events n) }
        // A legal log is never refused as damaged, whatever the slots hold, and each edge then stands at a spelled spot.
        ensures undamaged { (v : Image) (events : List Event) (p : ℕ) → H.now host.old ≡ Some v → Has (planned plan.now) events v → IfErr result (λ refused. refused.0 ≡ OpenFault.Damaged p → ⊥) }
        ensures placed { (v : Image) (events : List Event) → H.now host.old ≡ Some v → Has (planned plan.now) events v → IfOk result (λ r. IsPlaced (planned plan.now) (H.now host.new) (H.may host.new) r.0.reservoir r.0.engine) }

        // At each moment, and at every result.
        ensures within { (v : Image) (keep : Option ℕ) → H.now host.old ≡ Some v → IsWithinOpening H.may H.clock H.since H.said (planned plan.now) keep v host.old host.new }
        ensures stepped { (v : Image) (keep : Option ℕ) → H.now host.old ≡ Some v → OnOk result ((u : Image) → H.may host.new u → IsAfterOpening (planned plan.now) keep v (H.may host.old) u) }
        ensures said { H.said host.new ≡ H.said host.old }

        // Over an image that isn't fit for the plan.
        ensures unfit { (v : Image) → H.now host.old ≡ Some v → IsUnfit (planned plan.now) v →
            IsLeftAlone H.now H.may H.clock H.since H.said v host.old host.new × IfErr result (λ refused. SaysWhy (planned plan.now) v refused.0) }

        ensures disk { IfErr result (λ refused. refused.0 ≡ OpenFault.Disk → Rose (H.disk_faults host.old) (H.disk_faults host.new)) }
        ensures differs { IfErr result (λ refused. refused.0 ≡ OpenFault.SchemaDiffers → ForSome (H.now host.old) (λ v. IsForeign plan.now.schema plan.now.defaults (v 2))) }
        ensures damaged { (p : ℕ) → IfErr result (λ refused. refused.0 ≡ OpenFault.Damaged p →
            ForSome (H.now host.old) (λ v. IsBadFrame p (v 2)) ⊎ ForSome (H.now host.old) (λ u. ForSome (H.now host.new) (λ v. IsIllegalOpened plan.now.schema plan.now.defaults (u 2) p (v 2)))) }
        ensures exact { (v : Image) → H.now host.old ≡ Some v → IsForeign plan.now.schema plan.now.defaults (v 2) ⊎ ((p : ℕ) × IsBadFrame p (v 2)) → IfOk result (λ _. ⊥) }
        ensures table_disk { IfErr result (λ refused. refused.0 ≡ OpenFault.Table → Rose (T.faults table) (T.faults refused.1)) }

        ensures empty { IfOk result (λ r. opened r.0.reservoir ≡ []) }
        ensures going { IfOk result (λ r. r.0.ended ≡ false) }

        // It has the plan's rooms: `chunk` events in its open chunk, `cache` chunks in memory, `events` in all.
        ensures rooms { IfOk result (λ r. (room_of r.0.reservoir ≡ plan.now.room.chunk) × ((cache_of r.0.reservoir).cap ≡ plan.now.room.cache) × ((base r.0.reservoir).limit ≡ plan.now.room.limit)) }
        ensures grace { IfOk result (λ r. r.0.grace ≡ plan.now.grace) }
        ensures log { IfOk result (λ r. ((base r.0.reservoir).shape ≡ plan.now.schema) × ((base r.0.reservoir).file ≡ 2)) }
        ensures view { IfOk result (λ r. ForSome (H.now host.old) (λ v. OpensView plan.now.schema plan.now.defaults (view_of (base r.0.reservoir)) (v 2))) }
        ensures numbers { IfOk result (λ r. (r.1.next ≡ next_of r.0.reservoir) × (r.1.count ≡ count_in r.0.reservoir) × (r.1.from ≡ r.0.saved)) }
        ensures reaches { IfOk result (λ r. ReachesEnd (log_of r.0.reservoir) (H.now host.new)) }
        ensures slots_reach { IfOk result (λ r. ReachesSlots r.0.slots (H.now host.new)) }
        ensures table { IfOk result (λ r. TableKept T.tells T.faults table r.0.engine.table) }
        ensures back { IfErr result (λ refused. TableKept T.tells T.faults table refused.1) }
        ensures disk_faults { H.disk_faults host.old ≤ H.disk_faults host.new }
        ensures out_faults { H.out_faults host.new ≡ H.out_faults host.old }
    {
        match open_store(alloc, host, plan, table, steps) {
            Ok((opened, resumed)) => Ok((
                Session::new(alloc, plan.room.limit, plan.grace, opened),
                resumed,
            )),
            Err(refused) => Err(refused),
        }
    }
}
