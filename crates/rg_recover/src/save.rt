ghost use Rattle.std.specs.Prelude.{◌≡◌, ◌≢◌, ◌↔◌, ◌⊎◌, ◌≤◌, ◌<◌, [], ℕ, Option, Some, Ok, true, false, IfOk, IfErr, IsTrue, OnOk, OnErr, IsErrOf};
ghost use Rattle.rg_bytes.specs.Counts.{Rose};
ghost use Rattle.rg_host.specs.Image.{Becomes};
ghost use Rattle.rg_frame.specs.LogState.{ReachesEnd};
ghost use Rattle.rg_config.specs.Plans.{Planned};
ghost use Rattle.rg_reservoir.specs.Kept.{base, view_of, opened, room_of, cache_of, log_of};
ghost use Rattle.rg_state.specs.Changes.{NoMarks, SameMarks};
ghost use Rattle.rg_state.specs.Keeping.{TableKept};
ghost use Rattle.rg_checkpoint.specs.Slots.{ReachesSlots, other_of};
ghost use Rattle.rg_open.specs.Stores.{store_of};
ghost use Rattle.rg_open.specs.Blame.{NodeRuns, IsPlaced};
ghost use Rattle.rg_open.specs.Opened.{IsOpenedFor};
ghost use Rattle.rg_task.specs.Stepping.{IsWithinLog, IsWithinStep, IsStored};
ghost use Rattle.rg_recover.specs.Saving.{IsSaved, SavesByRule, SavesExactly, IsExtended, RunsOn, IsBeside, IsSavedAs, IsSavedNow, IsLeft, IsToSave};
ghost use Rattle.rg_recover.specs.Sessions.{HasKept, IsRunning, count_in, events_of, stored_of};
ghost use Rattle.rg_recover.specs.Sparing.{IsSpared, SparesOne};

use crate::fault::TaskFault;
use crate::payload::{choose_payload, mark, put_payload};
use crate::session::Session;
use rg_host::Host;
use rg_open::{law_checkpoints, law_steps};
use rg_state::Table;

impl<T: Table> Session<T> {
    /// Stores all events, and writes a checkpoint of them. Where a slot was used or written last, the rows
    /// that changed since its checkpoint come behind its frames, as long as all changes are together no
    /// longer than its base and there are at most 64 of them. Else all rows go to the other slot, slot 0
    /// for none. Where that slot has this count and all events are stored, nothing is written. Answers how
    /// many events there are. Any refusal ends the session.
    pub fn save<H: Host>(&mut self, host: &mut H) -> Result<u64, TaskFault>
        requires reaches { self.old.ended ≡ false → ReachesEnd (log_of self.old.reservoir) (H.now host.old) }
        requires slots_reach { self.old.ended ≡ false → ReachesSlots self.old.slots (H.now host.old) }

        // Of a session that runs: at each moment, and after the call.
        ensures within_step { (plan : Planned) → IsRunning plan (H.now host.old) (H.may host.old) T.tells T.cell T.named T.there self.old →
            IsWithinStep H.may H.clock H.since H.said (store_of plan) self.old.keep (opened self.old.reservoir) host.old host.new }
        ensures stored { (plan : Planned) → IsRunning plan (H.now host.old) (H.may host.old) T.tells T.cell T.named T.there self.old →
            OnOk result (IsStored (store_of plan) self.old.keep (opened self.old.reservoir) (stored_of (H.now host.old) self.old) (stored_of (H.now host.new) self.new) (H.may host.old) (H.may host.new)) }
        ensures running { (plan : Planned) → IsRunning plan (H.now host.old) (H.may host.old) T.tells T.cell T.named T.there self.old →
            OnOk result (IsRunning plan (H.now host.new) (H.may host.new) T.tells T.cell T.named T.there self.new) }

        ensures events { (plan : Planned) → IsRunning plan (H.now host.old) (H.may host.old) T.tells T.cell T.named T.there self.old →
            OnOk result (events_of (H.now host.new) self.new ≡ events_of (H.now host.old) self.old) }
        ensures node { (plan : Planned) (n : ℕ) → NodeRuns plan n (H.now host.old) (H.may host.old) (T.tells self.old.engine.table) (T.cell self.old.engine.table) self.old.reservoir self.old.engine →
            OnOk result (NodeRuns plan n (H.now host.new) (H.may host.new) (T.tells self.new.engine.table) (T.cell self.new.engine.table) self.new.reservoir self.new.engine) }
        ensures placed { (plan : Planned) → IsPlaced plan (H.now host.old) (H.may host.old) self.old.reservoir self.old.engine → OnOk result (IsPlaced plan (H.now host.new) (H.may host.new) self.new.reservoir self.new.engine) }

        // Over a legal log, whatever the slots hold: each image of a moment, and each that is left, has its events.
        ensures log_stays { (plan : Planned) → IsOpenedFor plan (H.now host.old) (H.may host.old) self.old.reservoir →
            IsWithinLog H.may H.clock H.since (store_of plan) (opened self.old.reservoir) host.old host.new }

        ensures count { IfOk result (λ count. count ≡ count_in self.new.reservoir) }

        // After Ok a slot has the checkpoint of all events.
        ensures saved { OnOk result ((self.new.saved ≡ count_in self.new.reservoir) × (opened self.new.reservoir ≡ [])) }
        ensures kept { OnOk result ((slot : ℕ) × (self.new.keep ≡ Some slot)) }
        ensures written { OnOk result ((self.new.keep ≡ Some (other_of self.old.keep)) ⊎ (IsExtended self.old self.new ⊎ IsSaved self.old)) }

        // What is kept of the slot that was used or written last is kept of the one that is written, over any image that reads give.
        ensures keeps { T.tells self.old.engine.table → HasKept (H.now host.old) (H.may host.old) T.cell T.named T.there self.old → OnOk result (HasKept (H.now host.new) (H.may host.new) T.cell T.named T.there self.new) }

        // Where reads give an image: what came behind the kept slot's frames, or stands alone in the other slot's file.
        ensures rule { T.tells self.old.engine.table → OnOk result (Becomes (H.now host.old) (H.now host.new) (λ v w. IsSaved self.old ⊎ SavesByRule T.named T.there T.cell self.old self.new v w)) }

        // So it is exact wherever what is kept of a slot is kept, as it is from an opening on.
        ensures exact { T.tells self.old.engine.table → HasKept (H.now host.old) (H.may host.old) T.cell T.named T.there self.old →
            OnOk result (Becomes (H.now host.old) (H.now host.new) (λ v w. IsSaved self.old ⊎ SavesExactly T.named T.there T.cell self.old self.new v w)) }

        // One slot alone is written; and where memory or the table refused, none. The other one is as reads gave it, at each moment.
        ensures spared { OnOk result ((slot : ℕ) → slot < 2 → self.new.keep ≢ Some slot → IsSpared H.now H.may H.clock H.since slot host.old host.new) }
        ensures refused { IfErr result (SparesOne (λ slot. IsSpared H.now H.may H.clock H.since slot host.old host.new) self.old.keep) }

        // Nothing is marked once it is written, and a refusal leaves the marks.
        ensures marked { T.tells self.old.engine.table → OnOk result (IsSaved self.old ⊎ (NoMarks (T.named self.new.engine.table) × NoMarks (T.there self.new.engine.table))) }
        ensures unmarked { T.tells self.old.engine.table → OnErr result (SameMarks (T.named self.old.engine.table) (T.named self.new.engine.table) × SameMarks (T.there self.old.engine.table) (T.there self.new.engine.table)) }

        ensures idle { (slot : ℕ) → self.old.ended ≡ false → self.old.keep ≡ Some slot → self.old.saved ≡ count_in self.old.reservoir → opened self.old.reservoir ≡ [] →
            (result ≡ Ok self.old.saved) × (self.new ≡ self.old) × (host.new ≡ host.old) }
        ensures grace { self.new.grace ≡ self.old.grace }
        ensures log { (view_of (base self.new.reservoir) ≡ view_of (base self.old.reservoir)) × ((base self.new.reservoir).file ≡ (base self.old.reservoir).file) }
        ensures rooms { (room_of self.new.reservoir ≡ room_of self.old.reservoir) × ((cache_of self.new.reservoir).cap ≡ (cache_of self.old.reservoir).cap) × ((base self.new.reservoir).limit ≡ (base self.old.reservoir).limit) }
        ensures rows { TableKept T.tells T.faults self.old.engine.table self.new.engine.table }
        ensures untouched { IsErrOf result TaskFault.Ended → (self.new ≡ self.old) × (host.new ≡ host.old) }
        ensures disk { IsErrOf result TaskFault.Disk → Rose (H.disk_faults host.old) (H.disk_faults host.new) }
        ensures table { IsErrOf result TaskFault.Table → Rose (T.faults self.old.engine.table) (T.faults self.new.engine.table) }
        ensures faults { IfErr result (λ fault. (fault ≡ TaskFault.Disk) ⊎ (fault ≡ TaskFault.Memory) ⊎ (fault ≡ TaskFault.Ended) ⊎ (fault ≡ TaskFault.Table)) }
        ensures ended { IsErrOf result TaskFault.Ended ↔ (self.old.ended ≡ true) }
        ensures goes { OnOk result (self.new.ended ≡ false) }
        ensures ends { OnErr result (self.new.ended ≡ true) }
        ensures reaches { self.new.ended ≡ false → ReachesEnd (log_of self.new.reservoir) (H.now host.new) }
        ensures slots_reach { self.new.ended ≡ false → ReachesSlots self.new.slots (H.now host.new) }
        ensures said { H.said host.new ≡ H.said host.old }
        ensures disk_faults { H.disk_faults host.old ≤ H.disk_faults host.new }
        ensures out_faults { H.out_faults host.new ≡ H.out_faults host.old }
    {
        if self.ended {
            return Err(TaskFault::Ended);
        }
        if self.is_saved() {
            return Ok(self.saved);
        }
        match self.commit(host) {
            Ok(_) => self.write_checkpoint(host),
            Err(fault) => {
                self.ended = true;
                Err(fault)
            }
        }
    }

    /// Whether all events are stored, and the slot that was used or written last has a checkpoint of them.
    fn is_saved(&self) -> bool
        ensures kept { IsTrue result → (slot : ℕ) × (self.now.keep ≡ Some slot) }
        ensures count { IsTrue result → self.now.saved ≡ count_in self.now.reservoir }
        ensures empty { IsTrue result → opened self.now.reservoir ≡ [] }
        ensures all { (slot : ℕ) → self.now.keep ≡ Some slot → self.now.saved ≡ count_in self.now.reservoir → opened self.now.reservoir ≡ [] → IsTrue result }
    {
        match self.keep {
            Some(_) => {
                self.saved == self.reservoir.count() && self.saved == self.reservoir.committed()
            }
            None => false,
        }
    }

    /// Writes a checkpoint of all events, which are all stored. What is written is encoded before the first
    /// call on the host, and the table is marked once it is in its slot.
    fn write_checkpoint<H: Host>(&mut self, host: &mut H) -> Result<u64, TaskFault>
        requires ready { IsToSave (H.now host.old) self.old }
        ensures runs { (plan : Planned) → IsRunning plan (H.now host.old) (H.may host.old) T.tells T.cell T.named T.there self.old →
            RunsOn H.now H.may H.clock H.since H.said T.tells T.cell T.named T.there plan result self.old self.new host.old host.new }
        ensures told { T.tells self.old.engine.table → OnOk result (IsSavedAs H.now H.may T.cell T.named T.there self.old self.new host.old host.new) }
        ensures beside { IsBeside H.now H.may H.said H.disk_faults H.out_faults T.tells T.faults T.cell self.old self.new host.old host.new }
        ensures log_stays { (plan : Planned) → IsWithinLog H.may H.clock H.since (store_of plan) [] host.old host.new }
        ensures done { IfOk result (IsSavedNow (λ slot. IsSpared H.now H.may H.clock H.since slot host.old host.new) self.old self.new) }
        ensures fault { IfErr result (IsLeft T.tells T.faults T.named T.there (λ slot. IsSpared H.now H.may H.clock H.since slot host.old host.new) (Rose (H.disk_faults host.old) (H.disk_faults host.new)) self.old self.new) }
    {
        law_checkpoints::<H>();
        law_steps::<H>();
        let count = self.reservoir.count();
        self.ended = true;
        let payload = match choose_payload(
            self.alloc,
            &self.texts,
            count,
            &mut self.engine,
            &self.slots,
            self.keep,
        ) {
            Ok(payload) => payload,
            Err(fault) => return Err(fault),
        };
        match put_payload(&mut self.slots, host, self.keep, &payload) {
            Ok(slot) => {
                mark(&mut self.engine);
                self.keep = Some(slot);
                self.saved = count;
                self.ended = false;
                Ok(count)
            }
            Err(fault) => Err(fault),
        }
    }
}
