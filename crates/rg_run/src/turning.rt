ghost use Rattle.std.specs.Prelude.{◌≡◌, ◌⊎◌, ◌≤◌, ◌<◌, ◌+◌, ◌^◌, ◌==◌, nat_le, nat_lt, [], ◌∷◌, length, ℕ, List, Option, true, false, IfErr, OnOk, IsErrOf};
ghost use Rattle.std.specs.List.{list_any};
ghost use Rattle.std.specs.Option.{ForSome};
ghost use Rattle.rg_bytes.specs.Counts.{Rose};
ghost use Rattle.rg_host.specs.Moments.{Moments, LeavesFiles};
ghost use Rattle.rg_task.specs.View.{Keeps};
ghost use Rattle.rg_config.specs.Plans.{Planned, planned};
ghost use Rattle.rg_config.specs.Read.{IsReadPlan};
ghost use Rattle.rg_run_spec.specs.Ahead.{after_line};
ghost use Rattle.rg_run_spec.specs.Stores.{Course, StaysOnCourse};
ghost use Rattle.rg_task.specs.Terms.{terms_of};
ghost use Rattle.rg_run.specs.Idle.{IsIdle};
ghost use Rattle.rg_run.specs.Logs.{KeepsLog};
ghost use Rattle.rg_run_spec.specs.Verdicts.{IsRow};
ghost use Rattle.rg_run.specs.Turning.{IsRefused, IsAwaiting, HasStopped};

use crate::due::{Due, due_at};
use crate::fault::TurnFault;
use crate::gather::{make_way, put_gathered, stop};
use crate::settle::settle;
use crate::tell::tell;
use rg_config::Plan;
use rg_reply::Reply;
use rg_task::{Task, TaskFault};
use std::alloc::Global;

/// A durable run between two lines of its input.
#[derive(Drop)]
pub struct Turning {
    /// The lines of turns that are not put yet, each ended by LF. They are put together.
    pub gathered: Vec<u8>,
    /// The offset of the next line.
    pub offset: u64,
}

/// From how many bytes on what is gathered is put.
const MAX_GATHERED_BYTES: usize = 65_536;

impl Turning {
    /// A run before the line with this offset.
    pub fn new(alloc: Global, offset: u64) -> Turning
        ensures offset { result.offset ≡ offset }
        ensures gathered { result.gathered.items ≡ [] }
    {
        Turning {
            gathered: Vec::new(alloc),
            offset,
        }
    }

    /// Whether so much is gathered that it is put before the next line is taken.
    pub fn is_long(&self) -> bool
        // It tells whether 64 KiB are gathered.
        ensures { result ≡ nat_le 65536 (length self.now.gathered.items) }
    {
        self.gathered.len() >= MAX_GATHERED_BYTES
    }

    /// Puts what is gathered.
    pub fn flush<K: Task>(&mut self, task: &mut K) -> Result<(), TurnFault>
        ensures moments { (plan : Planned) (course : Course) (items : List (Option (List ℕ))) →
            IsAwaiting K.view plan course self.old.offset items task.old self.old.gathered.items →
            Moments K.view.clock K.view.since task.old task.new (StaysOnCourse (K.view.store plan) course []) }

        // What was put and then what is gathered are the whole lines of the text up to there.
        ensures awaits { (plan : Planned) (course : Course) (items : List (Option (List ℕ))) →
            IsAwaiting K.view plan course self.old.offset items task.old self.old.gathered.items →
            OnOk result (IsAwaiting K.view plan course self.new.offset items task.new self.new.gathered.items) }

        // All gathered lines were put.
        ensures empty { self.new.gathered.items ≡ [] }
        ensures keeps { Keeps K.view task.old task.new }
        ensures files { LeavesFiles K.view.now K.view.may K.view.clock K.view.since task.old task.new }
        ensures offset { self.new.offset ≡ self.old.offset }
        ensures write { IsErrOf result TurnFault.Write → Rose (K.out_faults task.old) (K.out_faults task.new) }
        ensures faults { IfErr result (λ fault. fault ≡ TurnFault.Write) }
        ensures disk_faults { K.disk_faults task.new ≡ K.disk_faults task.old }
        ensures out_faults { K.out_faults task.old ≤ K.out_faults task.new }
    {
        put_gathered(task, &mut self.gathered)
    }

    /// Whether the next line has an offset below that of the session's next event: an earlier run
    /// answered it.
    pub(crate) fn is_passed<K: Task>(&self, task: &K) -> bool
        ensures { result ≡ nat_lt self.now.offset (K.view.at task.now).next }
    {
        self.offset < task.next()
    }

    /// Passes over the next line, which is given cleaned, or takes it, does what is due, and gathers the
    /// reply with its marks. All that is gathered is put before a file is written. Each refusal but
    /// `Write` leaves whole lines put, and nothing gathered.
    pub fn answer<K: Task>(
        &mut self,
        task: &mut K,
        plan: &Plan,
        line: &[u8],
    ) -> Result<(), TurnFault>
        requires read { IsReadPlan plan.now }
        requires one_line { list_any (λ byte. byte == 10) line.now ≡ false }
        requires small { self.old.offset < 2 ^ 62 }

        // At each moment of the turn, what a crash might leave and what was put are on the course of the run.
        ensures moments { (course : Course) (item : Option (List ℕ)) (items : List (Option (List ℕ))) →
            IsAwaiting K.view (planned plan.now) course self.old.offset (item ∷ items) task.old self.old.gathered.items →
            IsRow (terms_of (planned plan.now)).basis self.old.offset item line.now →
            Moments K.view.clock K.view.since task.old task.new (StaysOnCourse (K.view.store (planned plan.now)) course []) }

        // One turn leads from a moment between two lines to the next.
        ensures awaits { (course : Course) (item : Option (List ℕ)) (items : List (Option (List ℕ))) →
            IsAwaiting K.view (planned plan.now) course self.old.offset (item ∷ items) task.old self.old.gathered.items →
            IsRow (terms_of (planned plan.now)).basis self.old.offset item line.now →
            OnOk result (IsAwaiting K.view (planned plan.now) course self.new.offset items task.new self.new.gathered.items) }

        // The events are those that the definitions give.
        ensures events { (course : Course) (item : Option (List ℕ)) (items : List (Option (List ℕ))) →
            IsAwaiting K.view (planned plan.now) course self.old.offset (item ∷ items) task.old self.old.gathered.items →
            IsRow (terms_of (planned plan.now)).basis self.old.offset item line.now →
            OnOk result ((K.view.at task.new).events ≡ after_line (terms_of (planned plan.now)).basis (K.view.at task.old).events self.old.offset item) }

        // After a refusal other than of the put a last line may follow.
        ensures stopped { (course : Course) (item : Option (List ℕ)) (items : List (Option (List ℕ))) →
            IsAwaiting K.view (planned plan.now) course self.old.offset (item ∷ items) task.old self.old.gathered.items →
            IsRow (terms_of (planned plan.now)).basis self.old.offset item line.now →
            IfErr result (λ fault. (fault ≡ TurnFault.Write) ⊎ HasStopped K.view (planned plan.now) course task.new) }

        // A run that awaits a line is told neither a bad state nor damage.
        ensures never_bad { (course : Course) (items : List (Option (List ℕ))) (n : ℕ) →
            IsAwaiting K.view (planned plan.now) course self.old.offset items task.old self.old.gathered.items →
            IsErrOf result (TurnFault.Task (TaskFault.BadState n)) → ⊥ }
        ensures never_damaged { (course : Course) (items : List (Option (List ℕ))) (p : ℕ) →
            IsAwaiting K.view (planned plan.now) course self.old.offset items task.old self.old.gathered.items →
            IsErrOf result (TurnFault.Task (TaskFault.Damaged p)) → ⊥ }

        // A node that can be carried on stays so, and no bad state of it is told.
        ensures node { (n : ℕ) → K.view.node (planned plan.now) n task.old →
            OnOk result (K.view.node (planned plan.now) n task.new) }
        ensures never_bad_node { (n : ℕ) → K.view.node (planned plan.now) n task.old →
            IsErrOf result (TurnFault.Task (TaskFault.BadState n)) → ⊥ }

        // Where each edge stands at a place that the log spells, it does so after the turn.
        ensures placed { K.view.placed (planned plan.now) task.old → OnOk result (K.view.placed (planned plan.now) task.new) }
        ensures undamaged { (p : ℕ) → K.view.placed (planned plan.now) task.old → IsErrOf result (TurnFault.Task (TaskFault.Damaged p)) → ⊥ }
        ensures offset { OnOk result (self.new.offset ≡ self.old.offset + 1) }

        // Where nothing is due and there is room, no file changes; and over a legal log each payment stays.
        ensures idle { IsIdle K.view (planned plan.now) self.old.offset line.now task.old → LeavesFiles K.view.now K.view.may K.view.clock K.view.since task.old task.new }
        ensures log_stays { KeepsLog K.view (planned plan.now) task.old task.new }

        // Over a log that isn't legal: where there is room, and the look of an edge comes to an illegal chunk, a turn that ends
        // well takes no event.
        ensures legal { K.view.roomy task.old → K.view.asks_illegal task.old → OnOk result (K.view.at task.new ≡ K.view.at task.old) }

        // Each refusal has its cause.
        ensures damaged { (p : ℕ) → IsErrOf result (TurnFault.Task (TaskFault.Damaged p)) → K.view.illegal p task.new }
        ensures write { IsErrOf result TurnFault.Write → Rose (K.out_faults task.old) (K.out_faults task.new) }
        ensures disk { IsErrOf result (TurnFault.Task TaskFault.Disk) → Rose (K.disk_faults task.old) (K.disk_faults task.new) }
        ensures ended { IsErrOf result (TurnFault.Task TaskFault.Ended) → (K.view.at task.old).ended ≡ true }
        ensures log { K.view.goes task.old task.new }
        ensures goes { (K.view.at task.old).ended ≡ false → OnOk result ((K.view.at task.new).ended ≡ false) }
        ensures disk_faults { K.disk_faults task.old ≤ K.disk_faults task.new }
        ensures out_faults { K.out_faults task.old ≤ K.out_faults task.new }
    {
        if self.is_passed(task) {
            self.offset += 1;
            return Ok(());
        }
        match make_way(task, &mut self.gathered) {
            Ok(()) => {}
            Err(fault) => return Err(fault),
        }
        let before = task.count();
        let reply = match task.line(self.offset, line) {
            Ok(reply) => reply,
            Err(fault) => return Err(stop(task, &mut self.gathered, TurnFault::Task(fault))),
        };
        let due = due_at(plan.commit, plan.save, before, task.count());
        match settle(task, &mut self.gathered, due) {
            Ok(()) => {}
            Err(fault) => {
                drop(reply);
                return Err(fault);
            }
        }
        match tell(task, &mut self.gathered, self.offset, &reply, due) {
            Ok(()) => {
                task.reuse(reply);
                self.offset += 1;
                Ok(())
            }
            Err(fault) => {
                drop(reply);
                Err(stop(task, &mut self.gathered, fault))
            }
        }
    }

    /// Passes over the next line, or gathers the reply that refuses it before the session sees it: it is a
    /// header, or too long. Each refusal but `Write` leaves whole lines put, and nothing gathered.
    pub fn refuse<K: Task>(&mut self, task: &mut K, reply: &Reply) -> Result<(), TurnFault>
        requires small { self.old.offset < 2 ^ 62 }

        // A line that is refused before a task sees it is answered, and changes nothing else.
        ensures moments { (plan : Planned) (course : Course) (item : Option (List ℕ)) (items : List (Option (List ℕ))) →
            IsAwaiting K.view plan course self.old.offset (item ∷ items) task.old self.old.gathered.items →
            IsRefused (terms_of plan).basis self.old.offset item reply.now →
            Moments K.view.clock K.view.since task.old task.new (StaysOnCourse (K.view.store plan) course []) }
        ensures awaits { (plan : Planned) (course : Course) (item : Option (List ℕ)) (items : List (Option (List ℕ))) →
            IsAwaiting K.view plan course self.old.offset (item ∷ items) task.old self.old.gathered.items →
            IsRefused (terms_of plan).basis self.old.offset item reply.now →
            OnOk result (IsAwaiting K.view plan course self.new.offset items task.new self.new.gathered.items) }
        ensures events { (plan : Planned) (course : Course) (item : Option (List ℕ)) (items : List (Option (List ℕ))) →
            IsAwaiting K.view plan course self.old.offset (item ∷ items) task.old self.old.gathered.items →
            IsRefused (terms_of plan).basis self.old.offset item reply.now →
            OnOk result ((K.view.at task.new).events ≡ after_line (terms_of plan).basis (K.view.at task.old).events self.old.offset item) }
        ensures stopped { (plan : Planned) (course : Course) (item : Option (List ℕ)) (items : List (Option (List ℕ))) →
            IsAwaiting K.view plan course self.old.offset (item ∷ items) task.old self.old.gathered.items →
            IsRefused (terms_of plan).basis self.old.offset item reply.now →
            IfErr result (λ fault. (fault ≡ TurnFault.Write) ⊎ HasStopped K.view plan course task.new) }
        ensures keeps { Keeps K.view task.old task.new }
        ensures files { LeavesFiles K.view.now K.view.may K.view.clock K.view.since task.old task.new }
        ensures offset { OnOk result (self.new.offset ≡ self.old.offset + 1) }

        ensures write { IsErrOf result TurnFault.Write → Rose (K.out_faults task.old) (K.out_faults task.new) }
        ensures faults { IfErr result (λ fault. (fault ≡ TurnFault.Write) ⊎ (fault ≡ TurnFault.Task TaskFault.Memory)) }
        ensures disk_faults { K.disk_faults task.new ≡ K.disk_faults task.old }
        ensures out_faults { K.out_faults task.old ≤ K.out_faults task.new }
    {
        if self.is_passed(task) {
            self.offset += 1;
            return Ok(());
        }
        match tell(task, &mut self.gathered, self.offset, reply, Due::Nothing) {
            Ok(()) => {
                self.offset += 1;
                Ok(())
            }
            Err(fault) => Err(stop(task, &mut self.gathered, fault)),
        }
    }
}
