ghost use Rattle.std.specs.Prelude.{◌≡◌, ◌⊎◌, ◌≤◌, ◌<◌, ◌+◌, ◌^◌, [], ◌∷◌, ℕ, List, Option, Some, true, false, IfErr, OnOk, IsErrOf};
ghost use Rattle.std.specs.Option.{ForSome};
ghost use Rattle.rg_bytes.specs.Counts.{Rose};
ghost use Rattle.rg_host.specs.Moments.{Moments};
ghost use Rattle.rg_config.specs.Plans.{Planned};
ghost use Rattle.rg_run_spec.specs.Verdicts.{control_at};
ghost use Rattle.rg_run_spec.specs.Ahead.{after_line};
ghost use Rattle.rg_run_spec.specs.Stores.{Course, StaysOnCourse};
ghost use Rattle.rg_run.specs.Due.{due_for};
ghost use Rattle.rg_task.specs.Terms.{terms_of};
ghost use Rattle.rg_run.specs.Logs.{KeepsLog};
ghost use Rattle.rg_run.specs.Turning.{IsAwaiting, HasStopped};

use crate::due::Due;
use crate::fault::TurnFault;
use crate::gather::stop;
use crate::load::load;
use crate::settle::settle;
use crate::tell::tell;
use crate::turning::Turning;
use rg_reply::Reply;
use rg_run_spec::Control;
use rg_task::{Task, TaskFault};

/// What is done on the disk for a line that asks for this.
pub fn due_asked(control: Control) -> Due
    ensures { result ≡ due_for control }
{
    match control {
        Control::Commit => Due::Commit,
        Control::Save => Due::Save,
        Control::Ahead => Due::Nothing,
    }
}

impl Turning {
    /// Passes over the next line, or does what it asks for, and gathers its reply with the marks. A load ahead
    /// changes only which chunks are in memory. All that is gathered is put before a file is written. Each
    /// refusal but `Write` leaves whole lines put, and nothing gathered.
    pub fn obey<K: Task>(&mut self, task: &mut K, control: Control) -> Result<(), TurnFault>
        requires small { self.old.offset < 2 ^ 62 }

        // What a line asks for is done before its lines say so.
        ensures moments { (plan : Planned) (course : Course) (item : Option (List ℕ)) (items : List (Option (List ℕ))) →
            IsAwaiting K.view plan course self.old.offset (item ∷ items) task.old self.old.gathered.items →
            control_at (terms_of plan).basis self.old.offset item ≡ Some control →
            Moments K.view.clock K.view.since task.old task.new (StaysOnCourse (K.view.store plan) course []) }

        // It leads to the next moment between two lines, without a new event.
        ensures awaits { (plan : Planned) (course : Course) (item : Option (List ℕ)) (items : List (Option (List ℕ))) →
            IsAwaiting K.view plan course self.old.offset (item ∷ items) task.old self.old.gathered.items →
            control_at (terms_of plan).basis self.old.offset item ≡ Some control →
            OnOk result (IsAwaiting K.view plan course self.new.offset items task.new self.new.gathered.items) }
        ensures events { (plan : Planned) (course : Course) (item : Option (List ℕ)) (items : List (Option (List ℕ))) →
            IsAwaiting K.view plan course self.old.offset (item ∷ items) task.old self.old.gathered.items →
            control_at (terms_of plan).basis self.old.offset item ≡ Some control →
            OnOk result ((K.view.at task.new).events ≡ after_line (terms_of plan).basis (K.view.at task.old).events self.old.offset item) }
        ensures stopped { (plan : Planned) (course : Course) (item : Option (List ℕ)) (items : List (Option (List ℕ))) →
            IsAwaiting K.view plan course self.old.offset (item ∷ items) task.old self.old.gathered.items →
            control_at (terms_of plan).basis self.old.offset item ≡ Some control →
            IfErr result (λ fault. (fault ≡ TurnFault.Write) ⊎ HasStopped K.view plan course task.new) }
        ensures node { (plan : Planned) (n : ℕ) → K.view.node plan n task.old →
            OnOk result (K.view.node plan n task.new) }

        // A run that awaits such a line is told neither a bad state nor damage.
        ensures never_damaged { (plan : Planned) (course : Course) (items : List (Option (List ℕ))) (p : ℕ) →
            IsAwaiting K.view plan course self.old.offset items task.old self.old.gathered.items →
            IsErrOf result (TurnFault.Task (TaskFault.Damaged p)) → ⊥ }
        ensures never_bad { (n : ℕ) → IsErrOf result (TurnFault.Task (TaskFault.BadState n)) → ⊥ }
        ensures placed { (plan : Planned) → K.view.placed plan task.old → OnOk result (K.view.placed plan task.new) }
        ensures undamaged { (plan : Planned) (p : ℕ) → K.view.placed plan task.old → IsErrOf result (TurnFault.Task (TaskFault.Damaged p)) → ⊥ }
        ensures offset { OnOk result (self.new.offset ≡ self.old.offset + 1) }

        // Over a legal log each payment stays.
        ensures log_stays { (plan : Planned) → KeepsLog K.view plan task.old task.new }

        // Each refusal has its cause.
        ensures damaged { (p : ℕ) → IsErrOf result (TurnFault.Task (TaskFault.Damaged p)) → K.view.illegal p task.new }
        ensures write { IsErrOf result TurnFault.Write → Rose (K.out_faults task.old) (K.out_faults task.new) }
        ensures disk { IsErrOf result (TurnFault.Task TaskFault.Disk) → Rose (K.disk_faults task.old) (K.disk_faults task.new) }
        ensures ended { IsErrOf result (TurnFault.Task TaskFault.Ended) → (K.view.at task.old).ended ≡ true }
        ensures log { K.view.goes task.old task.new }
        ensures goes { (K.view.at task.old).ended ≡ false → OnOk result ((K.view.at task.new).ended ≡ false) }
        ensures disk_faults { K.disk_faults task.old ≤ K.disk_faults task.new }
        ensures out_faults { K.out_faults task.old ≤ K.out_faults task.new }
    {
        if self.is_passed(task) {
            self.offset += 1;
            return Ok(());
        }
        match load(task, &mut self.gathered, control) {
            Ok(()) => {}
            Err(fault) => return Err(fault),
        }
        let due = due_asked(control);
        match settle(task, &mut self.gathered, due) {
            Ok(()) => {}
            Err(fault) => return Err(fault),
        }
        match tell(task, &mut self.gathered, self.offset, &Reply::Done, due) {
            Ok(()) => {
                self.offset += 1;
                Ok(())
            }
            Err(fault) => Err(stop(task, &mut self.gathered, fault)),
        }
    }
}
