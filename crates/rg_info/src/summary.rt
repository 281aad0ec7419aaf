ghost use Rattle.std.specs.Prelude.{◌≡◌, ◌<◌, ◌^◌, ℕ, Some, None, IfOk, OnOk, IsErrOf};
ghost use Rattle.std.specs.Option.{ForSome};
ghost use Rattle.rg_bytes.specs.Counts.{Rose};
ghost use Rattle.rg_chunk.specs.Heads.{last_stamp};
ghost use Rattle.rg_dump.specs.Dump.{damage_of};
ghost use Rattle.rg_dump.specs.Leaves.{LeavesRead};
ghost use Rattle.rg_reservoir.specs.declared.walk.Stage.TheVariants as stage;
ghost use Rattle.rg_info.specs.Summary.{summary_in, with_stage};

use crate::fault::{InfoFault, walk_fault};
use rg_chunk::Chunk;
use rg_host::Host;
use rg_reservoir::{Stage, Walk};
use std::alloc::Global;

/// What a log comes to.
#[derive(Clone, Copy, Debug, PartialEq, Eq)]
pub struct Summary {
    /// How many open frames there are: the schema's, the chunks' and the growths'.
    pub frames: u64,
    /// How many events there are.
    pub events: u64,
    /// The last event's offset plus one, and 0 where there is none.
    pub next: u64,
    /// The last event's time in milliseconds, and 0 where there is none.
    pub time: u64,
}

/// The offset and the time of a chunk's last event.
#[tactic(auto, using(crate::proofs::Lasts::last_is, crate::proofs::Lasts::last_some))]
fn last_of(chunk: &Chunk) -> (u64, u64)
    ensures { result ≡ last_stamp chunk.now }
{
    match chunk.get(chunk.count() - 1) {
        Some(event) => (event.offset, event.time),
        None => unreachable!(),
    }
}

impl Summary {
    /// With one chunk more. A legal log has at most 2^40 events, of which the offsets are below
    /// 2^62, so no sum stops at the greatest number there.
    fn with_chunk(&self, chunk: &Chunk) -> Summary
        requires few { self.now.frames < 2 ^ 62 }
        ensures { result ≡ with_stage self.now (stage.Chunk chunk.now) }
    {
        let (offset, time) = last_of(chunk);
        Summary {
            frames: self.frames + 1,
            events: self.events.saturating_add(u64::from(chunk.count())),
            next: offset.saturating_add(1),
            time,
        }
    }

    /// With one frame more.
    fn with(&self, stage: &Stage) -> Summary
        requires few { self.now.frames < 2 ^ 62 }
        ensures { result ≡ with_stage self.now stage.now }
    {
        match stage {
            Stage::Schema(_) | Stage::Growth(_, _) => Summary {
                frames: self.frames + 1,
                events: self.events,
                next: self.next,
                time: self.time,
            },
            Stage::Chunk(chunk) => self.with_chunk(chunk),
        }
    }
}

/// Reads the whole log of file 2, chunks included.
pub(crate) fn read_log<H: Host>(alloc: Global, host: &mut H) -> Result<Summary, InfoFault>
    ensures summary { IfOk result (λ summary. ForSome (H.now host.old) (λ v. summary ≡ summary_in (v 2))) }
    ensures undamaged { OnOk result (ForSome (H.now host.old) (λ v. damage_of (v 2) ≡ None)) }
    ensures damaged { (p : ℕ) → IsErrOf result (InfoFault.Damaged p) → ForSome (H.now host.old) (λ v. damage_of (v 2) ≡ Some p) }
    ensures no_write { IsErrOf result InfoFault.Write → ⊥ }
    ensures disk { IsErrOf result InfoFault.Disk → Rose (H.disk_faults host.old) (H.disk_faults host.new) }
    ensures leaves { LeavesRead H.now H.may H.clock H.since H.said H.disk_faults H.out_faults host.old host.new }
{
    let mut walk = Walk::new(alloc);
    let mut summary = Summary {
        frames: 0,
        events: 0,
        next: 0,
        time: 0,
    };
    'frames: loop {
        let stage = match walk.next(host) {
            Ok(Some(stage)) => stage,
            Ok(None) => return Ok(summary),
            Err(fault) => return Err(walk_fault(fault)),
        };
        summary = summary.with(&stage);
    }
}
