ghost use Rattle.rg_recover.specs.Living.{IsReaching};

use crate::handed_on::task_fault;
use crate::session::Session;
use rg_event::Steps;
use rg_host::{Failed, Host, put_all};
use rg_reply::Reply;
use rg_state::Table;
use rg_task::{Task, TaskFault};
use std::sync::ledger::Ledger;

/// A session over the files of its host, whose steps are counted, as a task.
#[derive(Drop)]
pub struct Live<'a, H: Host, T: Table, L: Ledger> {
    pub session: &'a mut Session<T>,
    pub host: &'a mut H,
    pub steps: &'a mut Steps<L>,
    ghost reaches: { IsReaching session.now (H.now host.now) },
}

impl<'a, H: Host, T: Table, L: Ledger> Live<'a, H, T, L> {
    ghost use Rattle.std.specs.Prelude.{◌≡◌, false};
    ghost use Rattle.rg_frame.specs.LogState.{ReachesEnd};
    ghost use Rattle.rg_checkpoint.specs.Slots.{ReachesSlots};
    ghost use Rattle.rg_reservoir.specs.Kept.{log_of};

    /// A task over these.
    pub fn new(
        session: &'a mut Session<T>,
        host: &'a mut H,
        steps: &'a mut Steps<L>,
    ) -> Live<'a, H, T, L>
        requires reaches { session.old.ended ≡ false → ReachesEnd (log_of session.old.reservoir) (H.now host.old) }
        requires slots_reach { session.old.ended ≡ false → ReachesSlots session.old.slots (H.now host.old) }
        ensures same_session { result.session.ghost_name ≡ session.entry.ghost_name }
        ensures same_host { result.host.ghost_name ≡ host.entry.ghost_name }
        ensures same_steps { result.steps.ghost_name ≡ steps.entry.ghost_name }
        ensures session { result.session.now ≡ session.old }
        ensures host { result.host.now ≡ host.old }
    {
        Live {
            session,
            host,
            steps,
        }
    }
}

impl<'a, H: Host, T: Table, L: Ledger> Task for Live<'a, H, T, L> {
    ghost use Rattle.std.specs.Prelude.{◌≡◌, ◌<◌, ◌+◌, length, refl};
    ghost use Rattle.std.proofs.Common.{◌∙◌};
    ghost use Rattle.rg_open.specs.Blame.{NodeRuns, IsPlaced};
    ghost use Rattle.rg_open.specs.Stores.{store_of};
    ghost use Rattle.rg_reservoir.specs.Kept.{opened, room_of};
    ghost use Rattle.rg_recover.specs.Sessions.{IsRunning};
    ghost use Rattle.rg_recover.specs.Living.{state_of, IsIllegalIn, SameLog};
    ghost use Rattle.rg_recover.specs.Taking.{AsksIllegalChunk};
    ghost use Rattle.rg_recover.specs.LivingLaws.{running_next, running_few, running_placed, log-then};

    ghost view = { record {
      store = store_of;
      now = λ p. H.now p.host.now;
      may = λ p. H.may p.host.now;
      clock = λ p. H.clock p.host.now;
      since = λ p. H.since p.host.now;
      said = λ p. H.said p.host.now;
      at = λ p. state_of (H.now p.host.now) p.session.now;
      roomy = λ p. length (opened p.session.now.reservoir) < room_of p.session.now.reservoir;
      runs = λ plan p. IsRunning plan (H.now p.host.now) (H.may p.host.now) T.tells T.cell T.named T.there p.session.now;
      node = λ plan n p. NodeRuns plan n (H.now p.host.now) (H.may p.host.now) (T.tells p.session.now.engine.table) (T.cell p.session.now.engine.table) p.session.now.reservoir p.session.now.engine;
      placed = λ plan p. IsPlaced plan (H.now p.host.now) (H.may p.host.now) p.session.now.reservoir p.session.now.engine;
      illegal = λ place p. IsIllegalIn (H.now p.host.now) p.session.now place;
      asks_illegal = λ p. AsksIllegalChunk (H.now p.host.now) p.session.now.reservoir p.session.now.engine.spots;
      goes = λ p q. ((q.session.ghost_name ≡ p.session.ghost_name) × (q.host.ghost_name ≡ p.host.ghost_name) × (q.steps.ghost_name ≡ p.steps.ghost_name)) × SameLog p.session.now q.session.now;
      whole = λ p. refl;
      next_is = λ plan p runs. running_next plan (H.now p.host.now) (H.may p.host.now) T.tells T.cell T.named T.there p.session.now runs;
      few = λ plan p runs. running_few plan (H.now p.host.now) (H.may p.host.now) T.tells T.cell T.named T.there p.session.now runs;
      runs_going = λ plan p runs. runs.going;
      run_placed = λ plan p runs. running_placed plan (H.now p.host.now) (H.may p.host.now) T.tells T.cell T.named T.there p.session.now runs;
      goes_same = λ p. ((refl, refl, refl), (refl, refl));
      goes_join = λ p q r first second. ((second.0.0 ∙ first.0.0, second.0.1 ∙ first.0.1, second.0.2 ∙ first.0.2), log-then p.session.now q.session.now r.session.now first.1 second.1);
    } };

    ghost disk_faults = { λ p. H.disk_faults p.host.now + T.faults p.session.now.engine.table };

    ghost out_faults = { λ p. H.out_faults p.host.now };

    fn line(&mut self, offset: u64, line: &[u8]) -> Result<Reply, TaskFault> {
        match self.session.line(self.host, offset, line, self.steps) {
            Ok(reply) => Ok(reply),
            Err(fault) => Err(task_fault(fault)),
        }
    }

    fn commit(&mut self) -> Result<u64, TaskFault> {
        match self.session.commit(self.host) {
            Ok(next) => Ok(next),
            Err(fault) => Err(task_fault(fault)),
        }
    }

    fn save(&mut self) -> Result<u64, TaskFault> {
        match self.session.save(self.host) {
            Ok(count) => Ok(count),
            Err(fault) => Err(task_fault(fault)),
        }
    }

    fn ahead(&mut self) -> Result<(), TaskFault> {
        match self.session.ahead(self.host) {
            Ok(()) => Ok(()),
            Err(fault) => Err(task_fault(fault)),
        }
    }

    fn put(&mut self, bytes: &[u8]) -> Result<(), Failed> {
        put_all(self.host, bytes)
    }

    fn reuse(&mut self, reply: Reply) {
        self.session.reuse(reply);
    }

    fn next(&self) -> u64 {
        self.session.next()
    }

    fn count(&self) -> u64 {
        self.session.count()
    }

    fn has_room(&self) -> bool {
        self.session.has_room()
    }

    ghost now_may = { λ p v told. H.now_may p.host.now v told };

    ghost only_now = { λ p m at. H.only_now p.host.now m at };

    ghost sinks = { λ p earlier later m le at. H.sinks p.host.now earlier later m le at };
}
