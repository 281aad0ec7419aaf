ghost use Rattle.std.specs.Prelude.{◌≡◌, ◌↔◌, ◌⊎◌, ◌≤◌, ℕ, Option, Some, true, false, IfErr, OnOk, OnErr, IsErrOf};
ghost use Rattle.std.specs.Option.{ForSome};
ghost use Rattle.rg_bytes.specs.Counts.{Rose};
ghost use Rattle.rg_host.specs.Image.{Image};
ghost use Rattle.rg_host.specs.Moments.{LeavesAll};
ghost use Rattle.rg_frame.specs.LogState.{ReachesEnd};
ghost use Rattle.rg_checkpoint.specs.Slots.{ReachesSlots};
ghost use Rattle.rg_config.specs.Plans.{Planned};
ghost use Rattle.rg_reservoir.specs.Ahead.{all_ahead, SomeTouched};
ghost use Rattle.rg_reservoir.specs.Chain.{IsIllegalBy};
ghost use Rattle.rg_reservoir.specs.Kept.{base, view_of, opened, cache_of, loads_of, log_of, IsCached, Stays, AllTouched};
ghost use Rattle.rg_open.specs.Stores.{store_of};
ghost use Rattle.rg_open.specs.Blame.{NodeRuns, IsPlaced};
ghost use Rattle.rg_recover.specs.Sessions.{HasKept, IsRunning, events_of, stored_of};
ghost use Rattle.rg_task.specs.Stepping.{IsWithinStep, IsStored};

use crate::fault::{TaskFault, reservoir_fault};
use crate::session::Session;
use rg_host::Host;
use rg_state::Table;

impl<T: Table> Session<T> {
    /// Loads ahead: the chunks that the next move of the edges asks for, each edge's own and then the one
    /// behind it, where it is closed, and no other. No file is written, and no event and no row changes. Any
    /// refusal ends the session.
    pub fn ahead<H: Host>(&mut self, host: &mut H) -> Result<(), TaskFault>
        // Of a session that runs: at each moment, and after the call.
        ensures within_step { (plan : Planned) (keep : Option ℕ) → IsRunning plan (H.now host.old) (H.may host.old) T.tells T.cell T.named T.there self.old →
            IsWithinStep H.may H.clock H.since H.said (store_of plan) keep (opened self.old.reservoir) host.old host.new }
        ensures stored { (plan : Planned) (keep : Option ℕ) → IsRunning plan (H.now host.old) (H.may host.old) T.tells T.cell T.named T.there self.old →
            OnOk result (IsStored (store_of plan) keep (opened self.old.reservoir) (stored_of (H.now host.old) self.old) (stored_of (H.now host.new) self.new) (H.may host.old) (H.may host.new)) }
        ensures events { (events_of (H.now host.new) self.new ≡ events_of (H.now host.old) self.old) × (stored_of (H.now host.new) self.new ≡ stored_of (H.now host.old) self.old) }
        ensures running { (plan : Planned) → IsRunning plan (H.now host.old) (H.may host.old) T.tells T.cell T.named T.there self.old →
            OnOk result (IsRunning plan (H.now host.new) (H.may host.new) T.tells T.cell T.named T.there self.new) }

        // Just the chunks are touched that the next move of the edges asks for.
        ensures loaded { (plan : Planned) → (placed : IsPlaced plan (H.now host.old) (H.may host.old) self.old.reservoir self.old.engine) →
            OnOk result (AllTouched (all_ahead (base self.old.reservoir) (placed.reservoir.sound.0 (base self.old.reservoir).file) self.old.engine.spots) (cache_of self.old.reservoir) (loads_of self.old.reservoir) (H.reads host.old) (cache_of self.new.reservoir) (loads_of self.new.reservoir) (H.reads host.new)) }
        ensures never_damaged { (plan : Planned) (p : ℕ) → IsRunning plan (H.now host.old) (H.may host.old) T.tells T.cell T.named T.there self.old →
            IsErrOf result (TaskFault.Damaged p) → ⊥ }

        // What is kept of the slot that was used or written last is kept, over any image that reads give.
        ensures keeps { HasKept (H.now host.old) (H.may host.old) T.cell T.named T.there self.old → OnOk result (HasKept (H.now host.new) (H.may host.new) T.cell T.named T.there self.new) }

        // Each node and each edge by itself.
        ensures node { (plan : Planned) (n : ℕ) → NodeRuns plan n (H.now host.old) (H.may host.old) (T.tells self.old.engine.table) (T.cell self.old.engine.table) self.old.reservoir self.old.engine →
            OnOk result (NodeRuns plan n (H.now host.new) (H.may host.new) (T.tells self.new.engine.table) (T.cell self.new.engine.table) self.new.reservoir self.new.engine) }
        ensures placed { (plan : Planned) → IsPlaced plan (H.now host.old) (H.may host.old) self.old.reservoir self.old.engine → OnOk result (IsPlaced plan (H.now host.new) (H.may host.new) self.new.reservoir self.new.engine) }
        ensures undamaged { (plan : Planned) (p : ℕ) → IsPlaced plan (H.now host.old) (H.may host.old) self.old.reservoir self.old.engine → IsErrOf result (TaskFault.Damaged p) → ⊥ }

        // Of any: some of those chunks were loaded, and nothing else changed.
        ensures touched { (v : Image) → H.now host.old ≡ Some v → IsCached (view_of (base self.old.reservoir)) (v (base self.old.reservoir).file) (cache_of self.old.reservoir) →
            SomeTouched (all_ahead (base self.old.reservoir) (v (base self.old.reservoir).file) self.old.engine.spots) (cache_of self.old.reservoir) (cache_of self.new.reservoir) (loads_of self.old.reservoir) (loads_of self.new.reservoir) }
        ensures reservoir { Stays self.old.reservoir self.new.reservoir }
        ensures stays { (self.new.engine ≡ self.old.engine) × (self.new.texts ≡ self.old.texts) × (self.new.keep ≡ self.old.keep) × (self.new.saved ≡ self.old.saved) }
        ensures grace { self.new.grace ≡ self.old.grace }

        // No file is written, and no event changes.
        ensures leaves { LeavesAll H.now H.may H.clock H.since H.said host.old host.new }
        ensures damaged { (p : ℕ) → IsErrOf result (TaskFault.Damaged p) → ForSome (H.now host.new) (λ v. IsIllegalBy (view_of (base self.new.reservoir)) p (v (base self.new.reservoir).file)) }
        ensures disk { IsErrOf result TaskFault.Disk → Rose (H.disk_faults host.old) (H.disk_faults host.new) }
        ensures faults { IfErr result (λ fault. (fault ≡ TaskFault.Disk) ⊎ (fault ≡ TaskFault.Memory) ⊎ (fault ≡ TaskFault.Ended) ⊎ ((p : ℕ) × (fault ≡ TaskFault.Damaged p))) }
        ensures ended { IsErrOf result TaskFault.Ended ↔ (self.old.ended ≡ true) }
        ensures untouched { IsErrOf result TaskFault.Ended → (self.new ≡ self.old) × (host.new ≡ host.old) }
        ensures goes { OnOk result (self.new.ended ≡ false) }
        ensures ends { OnErr result (self.new.ended ≡ true) }
        ensures reaches { (self.old.ended ≡ false → ReachesEnd (log_of self.old.reservoir) (H.now host.old)) → self.new.ended ≡ false → ReachesEnd (log_of self.new.reservoir) (H.now host.new) }
        ensures slots { self.new.slots ≡ self.old.slots }
        ensures slots_reach { ReachesSlots self.old.slots (H.now host.old) → self.new.ended ≡ false → ReachesSlots self.new.slots (H.now host.new) }
        ensures disk_faults { H.disk_faults host.old ≤ H.disk_faults host.new }
        ensures out_faults { H.out_faults host.new ≡ H.out_faults host.old }
    {
        if self.ended {
            return Err(TaskFault::Ended);
        }
        match self.reservoir.ahead(host, self.engine.spots()) {
            Ok(()) => Ok(()),
            Err(fault) => {
                self.ended = true;
                Err(reservoir_fault(fault))
            }
        }
    }
}
