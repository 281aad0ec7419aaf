ghost use Rattle.std.specs.Prelude.{◌≡◌, ◌⊎◌, ◌≤◌, ◌<◌, ◌^◌, ◌==◌, ℕ, List, Option, length, true, false, IsTrue, IfOk, IfErr, OnOk, OnErr, IsErrOf};
ghost use Rattle.std.specs.List.{list_any};
ghost use Rattle.rg_bytes.specs.Counts.{Rose};
ghost use Rattle.rg_host.specs.Moments.{LeavesFiles, LeavesAll};
ghost use Rattle.rg_host.specs.Puts.{IsPrefix, Puts};
ghost use Rattle.rg_config.specs.Plans.{Planned};
ghost use Rattle.rg_run_spec.specs.Verdicts.{accepted_after, reply_of};
ghost use Rattle.rg_task.specs.Terms.{verdict_on, HasAnswers};
ghost use Rattle.rg_task.specs.Stepping.{IsWithinStep, IsWithinLog, IsStored, IsAllSaved};
ghost use Rattle.rg_task.specs.View.{View, Keeps, StaysEnded, NowMay, OnlyNow, Sinks};

use crate::fault::TaskFault;
use rg_host::Failed;
use rg_reply::Reply;

/// The events of a plan over a store, the engine that answers the next one, and the output. A contract
/// sees it through its `view`.
pub trait Task {
    /// What its clauses speak of.
    ghost view: { View Self };

    /// How often a call on a file has failed, of its store or of its table.
    ghost disk_faults: { Self → ℕ };

    /// How often a put has failed.
    ghost out_faults: { Self → ℕ };

    /// Decides on a cleaned line, and answers it; an accepted one is answered over all events, itself
    /// among them. Where there is no room for its event, all events are stored first. Nothing is put. Any
    /// refusal ends the task: each later call is refused with `Ended`.
    fn line(&mut self, offset: u64, line: &[u8]) -> Result<Reply, TaskFault>
        requires one_line { list_any (λ byte. byte == 10) line.now ≡ false }
        requires next { (view.at self.old).next ≤ offset }
        requires small { offset < 2 ^ 62 }

        // Of a task that runs: what is answered and accepted, and at each moment, and after the call.
        ensures reply { (plan : Planned) → view.runs plan self.old →
            IfOk result (λ reply. reply ≡ reply_of plan.queries (view.at self.old).events (verdict_on plan (view.at self.old).events offset line.now)) }
        ensures events { (plan : Planned) → view.runs plan self.old →
            OnOk result ((view.at self.new).events ≡ accepted_after (view.at self.old).events (verdict_on plan (view.at self.old).events offset line.now)) }
        ensures running { (plan : Planned) → view.runs plan self.old → OnOk result (view.runs plan self.new) }

        // At each moment each image that a crash might leave is within a step of the plan's store.
        ensures within_step { (plan : Planned) (keep : Option ℕ) → view.runs plan self.old →
            IsWithinStep view.may view.clock view.since view.said (view.store plan) keep (view.at self.old).chunk self.old self.new }
        ensures stored { (plan : Planned) (keep : Option ℕ) → view.runs plan self.old →
            OnOk result (IsStored (view.store plan) keep (view.at self.old).chunk (view.at self.old).stored (view.at self.new).stored (view.may self.old) (view.may self.new)) }

        // Of a task that runs neither a bad state nor damage is told.
        ensures never_bad { (plan : Planned) (n : ℕ) → view.runs plan self.old → IsErrOf result (TaskFault.BadState n) → ⊥ }
        ensures never_damaged { (plan : Planned) (p : ℕ) → view.runs plan self.old → IsErrOf result (TaskFault.Damaged p) → ⊥ }

        // Each node and each edge by itself.
        ensures node { (plan : Planned) (n : ℕ) → view.node plan n self.old → OnOk result (view.node plan n self.new) }

        // Of any other task no node that can be carried on is told to be bad.
        ensures never_bad_node { (plan : Planned) (n : ℕ) → view.node plan n self.old → IsErrOf result (TaskFault.BadState n) → ⊥ }
        ensures placed { (plan : Planned) → view.placed plan self.old → OnOk result (view.placed plan self.new) }
        ensures undamaged { (plan : Planned) (p : ℕ) → view.placed plan self.old → IsErrOf result (TaskFault.Damaged p) → ⊥ }

        // Over a legal log, whatever the slots hold.
        ensures log_stays { (plan : Planned) → view.placed plan self.old →
            IsWithinLog view.may view.clock view.since (view.store plan) (view.at self.old).chunk self.old self.new }

        // Where there is room, no file is written.
        ensures roomy { view.roomy self.old → LeavesAll view.now view.may view.clock view.since view.said self.old self.new × ((view.at self.new).stored ≡ (view.at self.old).stored) }

        // Over a log that isn't legal: where there is room, and the look of an edge comes to an illegal chunk, no event is
        // taken and none is answered.
        ensures legal { view.roomy self.old → view.asks_illegal self.old → IfOk result (λ reply. (HasAnswers reply → ⊥) × (view.at self.new ≡ view.at self.old)) }

        ensures keep { (view.at self.new).keep ≡ (view.at self.old).keep }
        ensures damaged { (p : ℕ) → IsErrOf result (TaskFault.Damaged p) → view.illegal p self.new }

        // Each fault has its cause.
        ensures disk { IsErrOf result TaskFault.Disk → Rose (disk_faults self.old) (disk_faults self.new) }
        ensures ended { IsErrOf result TaskFault.Ended → (view.at self.old).ended ≡ true }
        ensures over { (view.at self.old).ended ≡ true → StaysEnded view result self.old self.new }
        ensures going { OnOk result ((view.at self.new).ended ≡ false) }
        ensures ends { OnErr result ((view.at self.new).ended ≡ true) }
        ensures goes { view.goes self.old self.new }
        ensures disk_faults { disk_faults self.old ≤ disk_faults self.new }
        ensures out_faults { out_faults self.new ≡ out_faults self.old };

    /// Stores all events, and answers the least offset that the next line may have. Nothing is put. Want of
    /// memory leaves the task as it was; any other refusal ends it.
    fn commit(&mut self) -> Result<u64, TaskFault>
        // Of a task that runs: at each moment, and after the call.
        ensures within_step { (plan : Planned) (keep : Option ℕ) → view.runs plan self.old →
            IsWithinStep view.may view.clock view.since view.said (view.store plan) keep (view.at self.old).chunk self.old self.new }
        ensures stored { (plan : Planned) (keep : Option ℕ) → view.runs plan self.old →
            OnOk result (IsStored (view.store plan) keep (view.at self.old).chunk (view.at self.old).stored (view.at self.new).stored (view.may self.old) (view.may self.new)) }
        ensures events { (plan : Planned) → view.runs plan self.old → OnOk result ((view.at self.new).events ≡ (view.at self.old).events) }
        ensures running { (plan : Planned) → view.runs plan self.old → OnOk result (view.runs plan self.new) }
        ensures node { (plan : Planned) (n : ℕ) → view.node plan n self.old → OnOk result (view.node plan n self.new) }
        ensures placed { (plan : Planned) → view.placed plan self.old → OnOk result (view.placed plan self.new) }

        // Over a legal log, whatever the slots hold.
        ensures log_stays { (plan : Planned) → view.placed plan self.old →
            IsWithinLog view.may view.clock view.since (view.store plan) (view.at self.old).chunk self.old self.new }

        ensures next { IfOk result (λ next. next ≡ (view.at self.new).next) }
        ensures all { OnOk result ((view.at self.new).stored ≡ (view.at self.new).events) }
        ensures keep { (view.at self.new).keep ≡ (view.at self.old).keep }
        ensures next_stays { (view.at self.new).next ≡ (view.at self.old).next }
        ensures disk { IsErrOf result TaskFault.Disk → Rose (disk_faults self.old) (disk_faults self.new) }
        ensures faults { IfErr result (λ fault. (fault ≡ TaskFault.Disk) ⊎ (fault ≡ TaskFault.Memory) ⊎ (fault ≡ TaskFault.Ended)) }
        ensures ended { IsErrOf result TaskFault.Ended → (view.at self.old).ended ≡ true }
        ensures over { (view.at self.old).ended ≡ true → StaysEnded view result self.old self.new }
        ensures memory { IsErrOf result TaskFault.Memory → Keeps view self.old self.new × LeavesAll view.now view.may view.clock view.since view.said self.old self.new }
        ensures going { OnOk result ((view.at self.new).ended ≡ false) }
        ensures ends { IfErr result (λ fault. (fault ≡ TaskFault.Memory) ⊎ ((view.at self.new).ended ≡ true)) }
        ensures goes { view.goes self.old self.new }
        ensures said { view.said self.new ≡ view.said self.old }
        ensures disk_faults { disk_faults self.old ≤ disk_faults self.new }
        ensures out_faults { out_faults self.new ≡ out_faults self.old };

    /// Stores all events, and saves a checkpoint of them where there is none of as many. Answers how many
    /// events there are. Nothing is put. Any refusal ends the task.
    fn save(&mut self) -> Result<u64, TaskFault>
        // Of a task that runs: at each moment, and after the call.
        ensures within_step { (plan : Planned) → view.runs plan self.old →
            IsWithinStep view.may view.clock view.since view.said (view.store plan) (view.at self.old).keep (view.at self.old).chunk self.old self.new }
        ensures stored { (plan : Planned) → view.runs plan self.old →
            OnOk result (IsStored (view.store plan) (view.at self.old).keep (view.at self.old).chunk (view.at self.old).stored (view.at self.new).stored (view.may self.old) (view.may self.new)) }
        ensures events { (plan : Planned) → view.runs plan self.old → OnOk result ((view.at self.new).events ≡ (view.at self.old).events) }
        ensures running { (plan : Planned) → view.runs plan self.old → OnOk result (view.runs plan self.new) }
        ensures saved { (plan : Planned) → view.runs plan self.old → OnOk result (IsAllSaved (view.store plan) (view.may self.new) (view.at self.new)) }
        ensures node { (plan : Planned) (n : ℕ) → view.node plan n self.old → OnOk result (view.node plan n self.new) }
        ensures placed { (plan : Planned) → view.placed plan self.old → OnOk result (view.placed plan self.new) }

        // Over a legal log, whatever the slots hold.
        ensures log_stays { (plan : Planned) → view.placed plan self.old →
            IsWithinLog view.may view.clock view.since (view.store plan) (view.at self.old).chunk self.old self.new }

        ensures count { IfOk result (λ count. count ≡ length (view.at self.new).events) }
        ensures all { OnOk result ((view.at self.new).stored ≡ (view.at self.new).events) }
        ensures disk { IsErrOf result TaskFault.Disk → Rose (disk_faults self.old) (disk_faults self.new) }
        ensures faults { IfErr result (λ fault. (fault ≡ TaskFault.Disk) ⊎ (fault ≡ TaskFault.Memory) ⊎ (fault ≡ TaskFault.Ended)) }
        ensures ended { IsErrOf result TaskFault.Ended → (view.at self.old).ended ≡ true }
        ensures over { (view.at self.old).ended ≡ true → StaysEnded view result self.old self.new }
        ensures going { OnOk result ((view.at self.new).ended ≡ false) }
        ensures ends { OnErr result ((view.at self.new).ended ≡ true) }
        ensures goes { view.goes self.old self.new }
        ensures said { view.said self.new ≡ view.said self.old }
        ensures disk_faults { disk_faults self.old ≤ disk_faults self.new }
        ensures out_faults { out_faults self.new ≡ out_faults self.old };

    /// Loads ahead what the next line will ask for. No file is written, nothing is put, and no event changes.
    /// Any refusal ends the task.
    fn ahead(&mut self) -> Result<(), TaskFault>
        ensures running { (plan : Planned) → view.runs plan self.old → OnOk result (view.runs plan self.new) }
        ensures never_damaged { (plan : Planned) (p : ℕ) → view.runs plan self.old → IsErrOf result (TaskFault.Damaged p) → ⊥ }
        ensures node { (plan : Planned) (n : ℕ) → view.node plan n self.old → OnOk result (view.node plan n self.new) }
        ensures placed { (plan : Planned) → view.placed plan self.old → OnOk result (view.placed plan self.new) }
        ensures undamaged { (plan : Planned) (p : ℕ) → view.placed plan self.old → IsErrOf result (TaskFault.Damaged p) → ⊥ }

        ensures events { (view.at self.new).events ≡ (view.at self.old).events }
        ensures stored { (view.at self.new).stored ≡ (view.at self.old).stored }
        ensures keep { (view.at self.new).keep ≡ (view.at self.old).keep }
        ensures next_stays { (view.at self.new).next ≡ (view.at self.old).next }

        // No file, no event and no row changes.
        ensures leaves { LeavesAll view.now view.may view.clock view.since view.said self.old self.new }
        ensures damaged { (p : ℕ) → IsErrOf result (TaskFault.Damaged p) → view.illegal p self.new }
        ensures disk { IsErrOf result TaskFault.Disk → Rose (disk_faults self.old) (disk_faults self.new) }
        ensures faults { IfErr result (λ fault. (fault ≡ TaskFault.Disk) ⊎ (fault ≡ TaskFault.Memory) ⊎ (fault ≡ TaskFault.Ended) ⊎ ((p : ℕ) × (fault ≡ TaskFault.Damaged p))) }
        ensures ended { IsErrOf result TaskFault.Ended → (view.at self.old).ended ≡ true }
        ensures over { (view.at self.old).ended ≡ true → StaysEnded view result self.old self.new }
        ensures going { OnOk result ((view.at self.new).ended ≡ false) }
        ensures ends { OnErr result ((view.at self.new).ended ≡ true) }
        ensures goes { view.goes self.old self.new }
        ensures disk_faults { disk_faults self.old ≤ disk_faults self.new }
        ensures out_faults { out_faults self.new ≡ out_faults self.old };

    /// Puts all of these bytes. After `Failed` a prefix of them was put. Nothing else changes.
    fn put(&mut self, bytes: &[u8]) -> Result<(), Failed>
        // Just these bytes are put, or a prefix of them, and nothing else changes.
        ensures all { OnOk result (Puts view.said view.clock view.since self.old self.new bytes.now) }
        ensures part { (part : List ℕ) × IsPrefix part bytes.now × Puts view.said view.clock view.since self.old self.new part }
        ensures leaves { LeavesFiles view.now view.may view.clock view.since self.old self.new }
        ensures keeps { Keeps view self.old self.new }
        ensures write { OnErr result (Rose (out_faults self.old) (out_faults self.new)) }
        ensures disk_faults { disk_faults self.new ≡ disk_faults self.old }
        ensures out_faults { out_faults self.old ≤ out_faults self.new };

    /// Takes a reply back, so that the answers to the next line are put into the room of its own.
    fn reuse(&mut self, reply: Reply)
        ensures { self.new ≡ self.old };

    /// The least offset that the next line may have: the last event's plus one, and 0 where there is none.
    fn next(&self) -> u64
        ensures { result ≡ (view.at self.now).next };

    /// How many events there are, stored or not.
    fn count(&self) -> u64
        ensures { result ≡ length (view.at self.now).events };

    /// Whether the next event has room beside those that aren't stored yet. Where it has none, these are
    /// stored before it is taken.
    fn has_room(&self) -> bool
        ensures { IsTrue result → view.roomy self.now };

    /// What reads give is an image that a crash may leave.
    ghost now_may: { NowMay view };

    /// Since the present moment there is no other.
    ghost only_now: { OnlyNow view };

    /// The moments since a later one are among those since an earlier one.
    ghost sinks: { Sinks view };
}
