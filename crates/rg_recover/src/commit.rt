ghost use Rattle.std.specs.Prelude.{◌≡◌, ◌↔◌, ◌⊎◌, ◌≤◌, ◌<◌, [], ℕ, List, Option, true, false, IfOk, IfErr, OnOk, IsErrOf};
ghost use Rattle.rg_bytes.specs.Counts.{Rose};
ghost use Rattle.rg_frame.specs.LogState.{ReachesEnd};
ghost use Rattle.rg_checkpoint.specs.Slots.{ReachesSlots};
ghost use Rattle.rg_config.specs.Plans.{Planned};
ghost use Rattle.rg_reservoir.specs.Kept.{base, view_of, opened, room_of, cache_of, log_of, next_of};
ghost use Rattle.rg_open.specs.Stores.{store_of};
ghost use Rattle.rg_open.specs.Blame.{NodeRuns, IsPlaced};
ghost use Rattle.rg_open.specs.Opened.{IsOpenedFor};
ghost use Rattle.rg_task.specs.Stepping.{IsWithinLog, IsWithinStep, IsStored};
ghost use Rattle.rg_recover.specs.Sessions.{HasKept, IsRunning, count_in, events_of, stored_of};
ghost use Rattle.rg_recover.specs.Sparing.{IsSpared};
ghost use Rattle.rg_recover.specs.Stepping.{SlotsStay};
ghost use Rattle.rg_recover.specs.Storing.{CanStore, StoresChunk, KeepsEvents, HasStoringCause};

use crate::fault::{TaskFault, reservoir_fault};
use crate::session::Session;
use rg_host::Host;
use rg_open::law_steps;
use rg_reservoir::Reservoir;
use rg_state::Table;

/// Commits the open chunk of a reservoir.
pub(crate) fn commit_open<H: Host>(reservoir: &mut Reservoir, host: &mut H) -> Result<(), TaskFault>
    requires can { CanStore (H.now host.old) reservoir.old }
    ensures stores { StoresChunk H.now H.may H.clock H.since H.said result reservoir.old reservoir.new host.old host.new }
    ensures keeps { KeepsEvents H.now H.said H.disk_faults H.out_faults reservoir.old reservoir.new host.old host.new }
    ensures empty { OnOk result (opened reservoir.new ≡ []) }
    ensures cause { IfErr result (HasStoringCause (Rose (H.disk_faults host.old) (H.disk_faults host.new)) ((reservoir.new ≡ reservoir.old) × (host.new ≡ host.old))) }
{
    law_steps::<H>();
    match reservoir.commit(host) {
        Ok(()) => Ok(()),
        Err(fault) => Err(reservoir_fault(fault)),
    }
}

impl<T: Table> Session<T> {
    /// Stores all events, and answers the least offset that the next line may have. Want of memory
    /// leaves the session and the files as they were; any other refusal ends the session.
    pub fn commit<H: Host>(&mut self, host: &mut H) -> Result<u64, TaskFault>
        requires reaches { self.old.ended ≡ false → ReachesEnd (log_of self.old.reservoir) (H.now host.old) }

        // Of a session that runs: at each moment, and after the call.
        ensures within_step { (plan : Planned) (keep : Option ℕ) → IsRunning plan (H.now host.old) (H.may host.old) T.tells T.cell T.named T.there self.old →
            IsWithinStep H.may H.clock H.since H.said (store_of plan) keep (opened self.old.reservoir) host.old host.new }
        ensures stored { (plan : Planned) (keep : Option ℕ) → IsRunning plan (H.now host.old) (H.may host.old) T.tells T.cell T.named T.there self.old →
            OnOk result (IsStored (store_of plan) keep (opened self.old.reservoir) (stored_of (H.now host.old) self.old) (stored_of (H.now host.new) self.new) (H.may host.old) (H.may host.new)) }
        ensures events { (plan : Planned) → IsRunning plan (H.now host.old) (H.may host.old) T.tells T.cell T.named T.there self.old →
            OnOk result (events_of (H.now host.new) self.new ≡ events_of (H.now host.old) self.old) }
        ensures running { (plan : Planned) → IsRunning plan (H.now host.old) (H.may host.old) T.tells T.cell T.named T.there self.old →
            OnOk result (IsRunning plan (H.now host.new) (H.may host.new) T.tells T.cell T.named T.there self.new) }
        ensures node { (plan : Planned) (n : ℕ) → NodeRuns plan n (H.now host.old) (H.may host.old) (T.tells self.old.engine.table) (T.cell self.old.engine.table) self.old.reservoir self.old.engine →
            OnOk result (NodeRuns plan n (H.now host.new) (H.may host.new) (T.tells self.new.engine.table) (T.cell self.new.engine.table) self.new.reservoir self.new.engine) }
        ensures placed { (plan : Planned) → IsPlaced plan (H.now host.old) (H.may host.old) self.old.reservoir self.old.engine → OnOk result (IsPlaced plan (H.now host.new) (H.may host.new) self.new.reservoir self.new.engine) }

        // Over a legal log, whatever the slots hold: each image of a moment, and each that is left, has its events.
        ensures log_stays { (plan : Planned) → IsOpenedFor plan (H.now host.old) (H.may host.old) self.old.reservoir →
            IsWithinLog H.may H.clock H.since (store_of plan) (opened self.old.reservoir) host.old host.new }

        // The slots are as they were: what is kept of one is kept, and none is written, at any moment.
        ensures keeps { HasKept (H.now host.old) (H.may host.old) T.cell T.named T.there self.old → OnOk result (HasKept (H.now host.new) (H.may host.new) T.cell T.named T.there self.new) }

        // No slot is written.
        ensures spared { (slot : ℕ) → slot < 2 → IsSpared H.now H.may H.clock H.since slot host.old host.new }

        ensures next { IfOk result (λ next. next ≡ next_of self.new.reservoir) }
        ensures empty { OnOk result (opened self.new.reservoir ≡ []) }
        ensures count { count_in self.new.reservoir ≡ count_in self.old.reservoir }
        ensures stays { (self.new.engine ≡ self.old.engine) × (self.new.texts ≡ self.old.texts) × (self.new.keep ≡ self.old.keep) × (self.new.saved ≡ self.old.saved) }
        ensures grace { self.new.grace ≡ self.old.grace }
        ensures last { next_of self.new.reservoir ≡ next_of self.old.reservoir }
        ensures log { (view_of (base self.new.reservoir) ≡ view_of (base self.old.reservoir)) × ((base self.new.reservoir).file ≡ (base self.old.reservoir).file) }
        ensures rooms { (room_of self.new.reservoir ≡ room_of self.old.reservoir) × ((cache_of self.new.reservoir).cap ≡ (cache_of self.old.reservoir).cap) × ((base self.new.reservoir).limit ≡ (base self.old.reservoir).limit) }
        ensures memory { IsErrOf result TaskFault.Memory → (self.new ≡ self.old) × (host.new ≡ host.old) }
        ensures disk { IsErrOf result TaskFault.Disk → Rose (H.disk_faults host.old) (H.disk_faults host.new) }
        ensures faults { IfErr result (λ fault. (fault ≡ TaskFault.Disk) ⊎ (fault ≡ TaskFault.Memory) ⊎ (fault ≡ TaskFault.Ended)) }
        ensures ended { IsErrOf result TaskFault.Ended ↔ (self.old.ended ≡ true) }
        ensures untouched { IsErrOf result TaskFault.Ended → (self.new ≡ self.old) × (host.new ≡ host.old) }
        ensures goes { OnOk result (self.new.ended ≡ false) }
        ensures ends { IfErr result (λ fault. (fault ≡ TaskFault.Memory) ⊎ (self.new.ended ≡ true)) }
        ensures reaches { self.new.ended ≡ false → ReachesEnd (log_of self.new.reservoir) (H.now host.new) }
        // The slots' files stay, and as far as they reached they do still.
        ensures slots_stay { OnOk result (SlotsStay (H.now host.old) (H.now host.new) (H.may host.old) (H.may host.new)) }
        ensures slots { self.new.slots ≡ self.old.slots }
        ensures slots_reach { ReachesSlots self.old.slots (H.now host.old) → self.new.ended ≡ false → ReachesSlots self.new.slots (H.now host.new) }
        ensures said { H.said host.new ≡ H.said host.old }
        ensures disk_faults { H.disk_faults host.old ≤ H.disk_faults host.new }
        ensures out_faults { H.out_faults host.new ≡ H.out_faults host.old }
    {
        if self.ended {
            return Err(TaskFault::Ended);
        }
        match commit_open(&mut self.reservoir, host) {
            Ok(()) => Ok(self.reservoir.next_offset()),
            Err(TaskFault::Memory) => Err(TaskFault::Memory),
            Err(fault) => {
                self.ended = true;
                Err(fault)
            }
        }
    }
}
