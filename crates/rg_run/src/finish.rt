ghost use Rattle.std.specs.Prelude.{◌≡◌, ◌⊎◌, ◌≤◌, ◌<◌, ◌^◌, [], ℕ, List, Option, Some, true, false, IfErr, OnOk, IsErrOf};
ghost use Rattle.rg_bytes.specs.Counts.{Rose};
ghost use Rattle.rg_host.specs.Image.{Image};
ghost use Rattle.rg_host.specs.Moments.{Moments};
ghost use Rattle.rg_config.specs.Plans.{Planned};
ghost use Rattle.rg_run_spec.specs.Stores.{Course, StaysOnCourse};
ghost use Rattle.rg_run_spec.specs.Turns.{IsDone};
ghost use Rattle.rg_run.specs.Logs.{KeepsLog};
ghost use Rattle.rg_run.specs.Turning.{IsAwaiting, HasStopped};

use crate::fault::TurnFault;
use crate::gather::put_gathered;
use crate::tell::tell_end;
use crate::turning::Turning;
use rg_task::{Task, TaskFault};

impl Turning {
    /// At the end of the input puts what is gathered, stores all events, saves a checkpoint of them, and
    /// puts the lines that say so, with the last line. Each refusal but `Write` leaves whole lines put.
    pub fn finish<K: Task>(&mut self, task: &mut K) -> Result<(), TurnFault>
        requires small { self.old.offset < 2 ^ 62 }

        // At the end all is saved, and the whole text is put.
        ensures moments { (plan : Planned) (course : Course) →
            IsAwaiting K.view plan course self.old.offset [] task.old self.old.gathered.items →
            Moments K.view.clock K.view.since task.old task.new (StaysOnCourse (K.view.store plan) course []) }
        ensures done { (plan : Planned) (course : Course) →
            IsAwaiting K.view plan course self.old.offset [] task.old self.old.gathered.items →
            OnOk result ((put : List ℕ) × (K.view.said task.new ≡ Some put) × IsDone (K.view.store plan) course (K.view.may task.new) put) }

        // What reads then give is truthful and has all accepted events.
        ensures read { (plan : Planned) (course : Course) (v : Image) →
            IsAwaiting K.view plan course self.old.offset [] task.old self.old.gathered.items →
            K.view.now task.new ≡ Some v → OnOk result ((K.view.store plan).IsTruthful v × (K.view.store plan).HasEvents course.accepted v) }
        ensures stopped { (plan : Planned) (course : Course) →
            IsAwaiting K.view plan course self.old.offset [] task.old self.old.gathered.items →
            IfErr result (λ fault. (fault ≡ TurnFault.Write) ⊎ HasStopped K.view plan course task.new) }

        // Over a legal log each payment stays.
        ensures log_stays { (plan : Planned) → KeepsLog K.view plan task.old task.new }

        ensures write { IsErrOf result TurnFault.Write → Rose (K.out_faults task.old) (K.out_faults task.new) }
        ensures disk { IsErrOf result (TurnFault.Task TaskFault.Disk) → Rose (K.disk_faults task.old) (K.disk_faults task.new) }
        ensures ended { IsErrOf result (TurnFault.Task TaskFault.Ended) → (K.view.at task.old).ended ≡ true }
        ensures faults { IfErr result (λ fault. (fault ≡ TurnFault.Task TaskFault.Disk) ⊎ (fault ≡ TurnFault.Task TaskFault.Memory) ⊎ (fault ≡ TurnFault.Task TaskFault.Ended) ⊎ (fault ≡ TurnFault.Write)) }
        ensures log { K.view.goes task.old task.new }
        ensures disk_faults { K.disk_faults task.old ≤ K.disk_faults task.new }
        ensures out_faults { K.out_faults task.old ≤ K.out_faults task.new }
    {
        match put_gathered(task, &mut self.gathered) {
            Ok(()) => {}
            Err(fault) => return Err(fault),
        }
        match task.save() {
            Ok(_count) => {}
            Err(fault) => return Err(TurnFault::Task(fault)),
        }
        let next = task.next();
        let count = task.count();
        tell_end(task, &mut self.gathered, self.offset, next, count)
    }
}
