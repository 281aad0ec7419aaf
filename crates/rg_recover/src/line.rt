ghost use Rattle.std.specs.Prelude.{◌≡◌, ◌↔◌, ◌⊎◌, ◌≤◌, ◌<◌, ◌+◌, ◌^◌, ◌==◌, nat_lt, ℕ, List, Option, length, Ok, true, false, IfOk, OnOk, OnErr, IsErrOf};
ghost use Rattle.std.specs.List.{list_any};
ghost use Rattle.std.specs.Option.{ForSome};
ghost use Rattle.rg_bytes.specs.Counts.{Rose};
ghost use Rattle.rg_host.specs.Moments.{LeavesAll};
ghost use Rattle.rg_event.specs.Codec.{IsEventOf};
ghost use Rattle.rg_event.specs.Rising.{last_time};
ghost use Rattle.rg_event.specs.declared.event.Event.{Event as TheEvent};
ghost use Rattle.rg_frame.specs.LogState.{ReachesEnd};
ghost use Rattle.rg_checkpoint.specs.Slots.{ReachesSlots};
ghost use Rattle.rg_config.specs.Plans.{Planned};
ghost use Rattle.rg_row.specs.Rows.{row_of};
ghost use Rattle.rg_reservoir.specs.Chain.{IsIllegalBy};
ghost use Rattle.rg_reservoir.specs.Kept.{base, view_of, opened, room_of, cache_of, log_of, next_of, time_of};
ghost use Rattle.rg_state.specs.Keeping.{TableKept};
ghost use Rattle.rg_run_spec.specs.Verdicts.{accepted_after, fault_reply, or_reply, reply_of, verdict_of};
ghost use Rattle.rg_open.specs.Stores.{store_of};
ghost use Rattle.rg_open.specs.Blame.{NodeRuns, IsPlaced};
ghost use Rattle.rg_open.specs.Opened.{IsOpenedFor};
ghost use Rattle.rg_task.specs.Stepping.{IsWithinLog, IsWithinStep, IsStored};
ghost use Rattle.rg_task.specs.Terms.{HasAnswers};
ghost use Rattle.rg_recover.specs.Deciding.{verdict_on, as_verdict, answered_as, AreBefore, MayBe};
ghost use Rattle.rg_recover.specs.Sessions.{HasKept, IsRunning, count_in, events_of, stored_of};
ghost use Rattle.rg_recover.specs.Taking.{AsksIllegalChunk};

use crate::fault::TaskFault;
use crate::session::Session;
use crate::taking::take_in;
use rg_bytes::Memory;
use rg_event::{Event, MAX_TIME, Steps};
use rg_host::Host;
use rg_metric::Answers;
use rg_reply::Reply;
use rg_reservoir::Reservoir;
use rg_row::{RowFault, read_row};
use rg_run_spec::row_reply;
use rg_state::Table;
use std::sync::ledger::Ledger;

/// What a session decides on a line.
#[derive(Debug, Drop)]
enum Decision {
    /// The line is refused with this reply.
    Refused(Reply),
    /// The line is accepted as this event; where it was moved, the event has the last time in place of its own.
    Accepted { event: Event, is_moved: bool },
}

/// The reply that has these answers to an event, which was moved or not.
fn reply_with(answers: Answers, is_moved: bool) -> Reply
    ensures { result ≡ answered_as is_moved answers }
{
    if is_moved {
        return Reply::Moved(answers);
    }
    Reply::Answered(answers)
}

/// The time of the last event, and 0 where there is none.
fn last_of(reservoir: &Reservoir) -> u64
    ensures last { (events : List TheEvent) → AreBefore events reservoir.now → result ≡ last_time events }
    ensures time { 0 < count_in reservoir.now → time_of reservoir.now ≡ result }
{
    match reservoir.last_time() {
        None => 0,
        Some(last) => last,
    }
}

/// Whether an event of that time is late behind a last one of the other time: earlier by more than the
/// grace. A last time that no row may have is one of a damaged log, and nothing is moved to it.
#[tactic(auto, using(crate::proofs::Lines::late_by))]
fn is_late(time: u64, last: u64, grace: u64) -> bool
    ensures late { last ≤ 1000000000000000 → result ≡ nat_lt (time + grace) last }
    ensures small { result ≡ false → time < last → last ≤ 1000000000000000 }
{
    if last > MAX_TIME {
        return time < last;
    }
    last.saturating_sub(time) > grace
}

/// Decides on the event of a row: whether it is late, or one too many, or is accepted, with its own time or
/// the last one.
fn judge(reservoir: &Reservoir, most: u64, grace: u64, event: Event) -> Decision
    requires fits { IsEventOf (base reservoir.now).shape.fields event }
    ensures says { (events : List TheEvent) → AreBefore events reservoir.now → as_verdict result ≡ verdict_of most grace events (Ok event) }
    ensures accepts { most ≡ (base reservoir.now).limit → MayBe reservoir.now event.offset result }
{
    let last = last_of(reservoir);
    if is_late(event.time, last, grace) {
        return Decision::Refused(Reply::Late);
    }
    if reservoir.count() >= most {
        return Decision::Refused(Reply::Full);
    }
    if event.time < last {
        let mut event = event;
        event.time = last;
        return Decision::Accepted {
            event,
            is_moved: true,
        };
    }
    Decision::Accepted {
        event,
        is_moved: false,
    }
}

impl<T: Table> Session<T> {
    /// Decides on a line. The order of the refusals is that of a row's faults, then `Late`, then `Full`.
    fn decide(&self, offset: u64, line: &[u8]) -> Result<Decision, Memory>
        requires one_line { list_any (λ byte. byte == 10) line.now ≡ false }
        requires small { offset < 2 ^ 62 }
        ensures says { (events : List TheEvent) → AreBefore events self.now.reservoir →
            IfOk result (λ decision. as_verdict decision ≡ verdict_of (base self.now.reservoir).limit self.now.grace events (or_reply (row_of (base self.now.reservoir).shape.fields offset line.now))) }
        ensures accepts { IfOk result (MayBe self.now.reservoir offset) }
    {
        match read_row(self.alloc, &self.schema, offset, line) {
            Ok(event) => Ok(judge(&self.reservoir, self.most, self.grace, event)),
            Err(RowFault::Memory) => Err(Memory),
            Err(fault) => Ok(Decision::Refused(row_reply(fault))),
        }
    }

    /// Decides on a cleaned line, and answers it; an accepted one is answered over all events, itself
    /// among them. One that is earlier than the last event, by no more than the grace, is accepted with the
    /// last time in place of its own. Where there is no room for its event, all events are stored first. A line that isn't
    /// accepted touches nothing. Any refusal ends the session: each later call is refused with `Ended`,
    /// and touches nothing.
    pub fn line<H: Host, L: Ledger>(
        &mut self,
        host: &mut H,
        offset: u64,
        line: &[u8],
        steps: &mut Steps<L>,
    ) -> Result<Reply, TaskFault>
        requires one_line { list_any (λ byte. byte == 10) line.now ≡ false }
        requires next { next_of self.old.reservoir ≤ offset }
        requires small { offset < 2 ^ 62 }
        requires reaches { self.old.ended ≡ false → ReachesEnd (log_of self.old.reservoir) (H.now host.old) }

        // Of a session that runs: what is answered and accepted, and at each moment, and after the call.
        ensures reply { (plan : Planned) → IsRunning plan (H.now host.old) (H.may host.old) T.tells T.cell T.named T.there self.old →
            IfOk result (λ reply. reply ≡ reply_of plan.queries (events_of (H.now host.old) self.old) (verdict_on plan (events_of (H.now host.old) self.old) offset line.now)) }

        // The events go on by the verdict on the line; a moved one is stored with the last time.
        ensures events { (plan : Planned) → IsRunning plan (H.now host.old) (H.may host.old) T.tells T.cell T.named T.there self.old →
            OnOk result (events_of (H.now host.new) self.new ≡ accepted_after (events_of (H.now host.old) self.old) (verdict_on plan (events_of (H.now host.old) self.old) offset line.now)) }

        // It goes on running.
        ensures running { (plan : Planned) → IsRunning plan (H.now host.old) (H.may host.old) T.tells T.cell T.named T.there self.old →
            OnOk result (IsRunning plan (H.now host.new) (H.may host.new) T.tells T.cell T.named T.there self.new) }

        // At each moment each image that a crash might leave is within a step of the plan's store.
        ensures within_step { (plan : Planned) (keep : Option ℕ) → IsRunning plan (H.now host.old) (H.may host.old) T.tells T.cell T.named T.there self.old →
            IsWithinStep H.may H.clock H.since H.said (store_of plan) keep (opened self.old.reservoir) host.old host.new }
        ensures stored { (plan : Planned) (keep : Option ℕ) → IsRunning plan (H.now host.old) (H.may host.old) T.tells T.cell T.named T.there self.old →
            OnOk result (IsStored (store_of plan) keep (opened self.old.reservoir) (stored_of (H.now host.old) self.old) (stored_of (H.now host.new) self.new) (H.may host.old) (H.may host.new)) }

        // A running session's line is neither a bad state nor refused as damaged.
        ensures never_bad { (plan : Planned) (n : ℕ) → IsRunning plan (H.now host.old) (H.may host.old) T.tells T.cell T.named T.there self.old →
            IsErrOf result (TaskFault.BadState n) → ⊥ }
        ensures never_damaged { (plan : Planned) (p : ℕ) → IsRunning plan (H.now host.old) (H.may host.old) T.tells T.cell T.named T.there self.old →
            IsErrOf result (TaskFault.Damaged p) → ⊥ }

        // What is kept of the slot that was used or written last is kept, over any image that reads give.
        ensures keeps { T.tells self.old.engine.table → HasKept (H.now host.old) (H.may host.old) T.cell T.named T.there self.old → OnOk result (HasKept (H.now host.new) (H.may host.new) T.cell T.named T.there self.new) }

        // A node that can be carried on is carried on, and its state is never bad.
        ensures node { (plan : Planned) (n : ℕ) → NodeRuns plan n (H.now host.old) (H.may host.old) (T.tells self.old.engine.table) (T.cell self.old.engine.table) self.old.reservoir self.old.engine →
            OnOk result (NodeRuns plan n (H.now host.new) (H.may host.new) (T.tells self.new.engine.table) (T.cell self.new.engine.table) self.new.reservoir self.new.engine) }
        ensures never_bad_node { (plan : Planned) (n : ℕ) → NodeRuns plan n (H.now host.old) (H.may host.old) (T.tells self.old.engine.table) (T.cell self.old.engine.table) self.old.reservoir self.old.engine →
            IsErrOf result (TaskFault.BadState n) → ⊥ }

        // Where each edge stands at a spelled spot it does so still, and nothing is refused as damaged.
        ensures placed { (plan : Planned) → IsPlaced plan (H.now host.old) (H.may host.old) self.old.reservoir self.old.engine → OnOk result (IsPlaced plan (H.now host.new) (H.may host.new) self.new.reservoir self.new.engine) }
        ensures undamaged { (plan : Planned) (p : ℕ) → IsPlaced plan (H.now host.old) (H.may host.old) self.old.reservoir self.old.engine → IsErrOf result (TaskFault.Damaged p) → ⊥ }

        // Over a legal log, whatever the slots hold: each image of a moment, and each that is left, has its events.
        ensures log_stays { (plan : Planned) → IsOpenedFor plan (H.now host.old) (H.may host.old) self.old.reservoir →
            IsWithinLog H.may H.clock H.since (store_of plan) (opened self.old.reservoir) host.old host.new }

        // Where there is room, no file is written.
        ensures roomy { length (opened self.old.reservoir) < room_of self.old.reservoir → LeavesAll H.now H.may H.clock H.since H.said host.old host.new × (base self.new.reservoir ≡ base self.old.reservoir) }

        // Over a log that isn't legal: where there is room, and the look of an edge comes to an illegal chunk, no event is
        // taken and none is answered.
        ensures legal { length (opened self.old.reservoir) < room_of self.old.reservoir → AsksIllegalChunk (H.now host.old) self.old.reservoir self.old.engine.spots →
            IfOk result (λ reply. (HasAnswers reply → ⊥) × (self.new ≡ self.old) × (host.new ≡ host.old)) }

        ensures refused { IfOk result (λ reply. HasAnswers reply ⊎ ((self.new ≡ self.old) × (host.new ≡ host.old) × (steps.new ≡ steps.old))) }

        // Each fault has its cause.
        ensures damaged { (p : ℕ) → IsErrOf result (TaskFault.Damaged p) → ForSome (H.now host.new) (λ v. IsIllegalBy (view_of (base self.new.reservoir)) p (v (base self.new.reservoir).file)) }
        ensures disk { IsErrOf result TaskFault.Disk → Rose (H.disk_faults host.old) (H.disk_faults host.new) }
        ensures table { IsErrOf result TaskFault.Table → Rose (T.faults self.old.engine.table) (T.faults self.new.engine.table) }
        ensures ended { IsErrOf result TaskFault.Ended ↔ (self.old.ended ≡ true) }
        ensures untouched { IsErrOf result TaskFault.Ended → (self.new ≡ self.old) × (host.new ≡ host.old) × (steps.new ≡ steps.old) }
        ensures goes { OnOk result (self.new.ended ≡ false) }

        // Exactly the refusals that say so end the session, which then answers Ended and touches nothing.
        ensures ends { OnErr result (self.new.ended ≡ true) }
        ensures stays { (self.new.texts ≡ self.old.texts) × (self.new.keep ≡ self.old.keep) × (self.new.saved ≡ self.old.saved) }
        ensures grace { self.new.grace ≡ self.old.grace }
        ensures log { (view_of (base self.new.reservoir) ≡ view_of (base self.old.reservoir)) × ((base self.new.reservoir).file ≡ (base self.old.reservoir).file) }
        ensures rooms { (room_of self.new.reservoir ≡ room_of self.old.reservoir) × ((cache_of self.new.reservoir).cap ≡ (cache_of self.old.reservoir).cap) × ((base self.new.reservoir).limit ≡ (base self.old.reservoir).limit) }
        ensures rows { TableKept T.tells T.faults self.old.engine.table self.new.engine.table }
        ensures reaches { self.new.ended ≡ false → ReachesEnd (log_of self.new.reservoir) (H.now host.new) }
        ensures slots { self.new.slots ≡ self.old.slots }
        ensures slots_reach { ReachesSlots self.old.slots (H.now host.old) → self.new.ended ≡ false → ReachesSlots self.new.slots (H.now host.new) }
        ensures said { H.said host.new ≡ H.said host.old }
        ensures disk_faults { H.disk_faults host.old ≤ H.disk_faults host.new }
        ensures out_faults { H.out_faults host.new ≡ H.out_faults host.old }
    {
        if self.ended {
            return Err(TaskFault::Ended);
        }
        let (event, is_moved) = match self.decide(offset, line) {
            Ok(Decision::Accepted { event, is_moved }) => (event, is_moved),
            Ok(Decision::Refused(reply)) => return Ok(reply),
            Err(Memory) => {
                self.ended = true;
                return Err(TaskFault::Memory);
            }
        };
        self.ended = true;
        match take_in(&mut self.reservoir, &mut self.engine, host, event, steps) {
            Ok(answers) => {
                self.ended = false;
                Ok(reply_with(answers, is_moved))
            }
            Err(fault) => Err(fault),
        }
    }

    /// Takes a reply back, so that the answers to the next line are put into the room of its own and take
    /// no memory.
    pub fn reuse(&mut self, reply: Reply)
        // It takes a reply back for the room of its answers, and is as it was.
        ensures { self.new ≡ self.old }
    {
        match reply {
            Reply::Answered(answers) => self.engine.reuse(answers),
            Reply::Moved(answers) => self.engine.reuse(answers),
            _ => {}
        }
    }
}
