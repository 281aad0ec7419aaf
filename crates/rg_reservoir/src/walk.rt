ghost use Rattle.std.specs.Prelude.{◌≡◌, ◌⊎◌, ◌≤◌, ◌<◌, ◌+◌, ◌^◌, ◌∷◌, ℕ, List, Some, None, IfOk, IfErr, IfSome, IfNone, OnOk, OnErr, IsErrOf, IsTrue, false, length};
ghost use Rattle.std.specs.Option.{ForSome};
ghost use Rattle.rg_bytes.specs.Counts.{Rose};
ghost use Rattle.rg_host.specs.Moments.{LeavesAll};
ghost use Rattle.rg_frame.specs.Looks.{IsClosed};
ghost use Rattle.rg_log.specs.Entries.{nothing};
ghost use Rattle.rg_reservoir.specs.Walked.{stage_by, stage_after};

use crate::fault::ReservoirFault;
use rg_chunk::Chunk;
use rg_event::{Schema, Values};
use rg_frame::FrameLog;
use rg_host::Host;
use rg_log::{Entry, EntryFault, LogSoFar};
use std::alloc::Global;

/// What a frame of a log is.
#[derive(Debug, Drop)]
pub enum Stage {
    /// The first one: the schema.
    Schema(Schema),
    /// A further one: a chunk of events.
    Chunk(Chunk),
    /// A further one: how the schema grows. This schema is in force from there on, and these values come behind those of
    /// each event in front.
    Growth(Schema, Values),
}

/// A walk over the frames of the log of file 2, in order, each of them decoded.
#[derive(Drop)]
pub struct Walk {
    alloc: Global,
    place: u64,
    so_far: LogSoFar,
}

/// What a frame is, read whole. `Bad` comes exactly where it is told as a chunk, and is none of the schema in force.
fn read_stage(
    alloc: Global,
    so_far: &LogSoFar,
    entry: &Entry,
    payload: &[u8],
) -> Result<Stage, EntryFault>
    ensures is { IfOk result (λ stage. stage_by so_far.now.schema payload.now entry.now ≡ Some stage) }
    ensures bad { IsErrOf result EntryFault.Bad → stage_by so_far.now.schema payload.now entry.now ≡ None }
{
    match entry {
        Entry::Schema(schema) => match schema.copy(alloc) {
            Ok(schema) => Ok(Stage::Schema(schema)),
            Err(_) => Err(EntryFault::Memory),
        },
        Entry::Chunk(_) => match so_far.events(alloc, payload) {
            Ok(chunk) => Ok(Stage::Chunk(chunk)),
            Err(fault) => Err(fault),
        },
        Entry::Growth(growth) => {
            let to = growth.to.copy(alloc)?;
            let values = growth.values.copy(alloc)?;
            Ok(Stage::Growth(to, values))
        }
    }
}

/// Takes the next frame, read whole. `Bad` comes exactly where it isn't what its place asks for, or doesn't continue those
/// before it. A fault leaves the frames so far as they were.
fn take_stage(alloc: Global, so_far: &mut LogSoFar, payload: &[u8]) -> Result<Stage, EntryFault>
    ensures is { IfOk result (λ stage. stage_after so_far.old payload.now ≡ Some (stage, so_far.new)) }
    ensures bad { IsErrOf result EntryFault.Bad → stage_after so_far.old payload.now ≡ None }
    ensures err { OnErr result (so_far.new ≡ so_far.old) }
{
    let entry = match so_far.entry(alloc, payload) {
        Ok(entry) => entry,
        Err(fault) => return Err(fault),
    };
    let stage = match read_stage(alloc, so_far, &entry, payload) {
        Ok(stage) => stage,
        Err(fault) => return Err(fault),
    };
    match so_far.pass(alloc, &entry) {
        Ok(()) => Ok(stage),
        Err(fault) => Err(fault),
    }
}

impl Walk {
    ghost use Rattle.rg_reservoir.specs.Walked.{place_of, schema_of, tally_of, IsTaken, IsNext, IsUntaken, IsRefusedWalk};

    /// A walk at the head of the log.
    pub fn new(alloc: Global) -> Walk
        ensures place { place_of result ≡ 0 }
        ensures schema { schema_of result ≡ None }
        ensures tally { tally_of result ≡ nothing }
    {
        Walk {
            alloc,
            place: 0,
            so_far: LogSoFar::new(),
        }
    }

    /// Takes the payload of the frame that the walk has come to.
    fn take(&mut self, payload: &[u8], next: u64) -> Result<Stage, ReservoirFault>
        ensures taken { IfOk result (λ stage. IsTaken payload.now next self.old stage self.new) }
        ensures place { OnOk result (place_of self.new ≡ next) }
        ensures damaged { (p : ℕ) → IsErrOf result (ReservoirFault.Damaged p) → (p ≡ place_of self.old) × IsUntaken payload.now self.old }
        ensures faults { IfErr result (λ fault. (fault ≡ ReservoirFault.Damaged (place_of self.old)) ⊎ (fault ≡ ReservoirFault.Memory)) }
        ensures err { OnErr result (self.new ≡ self.old) }
    {
        match take_stage(self.alloc, &mut self.so_far, payload) {
            Ok(stage) => {
                self.place = next;
                Ok(stage)
            }
            Err(EntryFault::Bad) => Err(ReservoirFault::Damaged(self.place)),
            Err(EntryFault::Memory) => Err(ReservoirFault::Memory),
        }
    }

    /// The next frame, decoded. None comes at the end of the log alone, and leaves the walk as it
    /// is, as a fault does.
    pub fn next<H: Host>(&mut self, host: &mut H) -> Result<Option<Stage>, ReservoirFault>
        ensures some { IfOk result (λ r. IfSome r (λ stage. ForSome (H.now host.old) (λ v. IsNext (v 2) self.old stage self.new))) }
        ensures goes_on { IfOk result (λ r. IfSome r (λ _. (place_of self.old + 9 ≤ place_of self.new) × (place_of self.new < 2 ^ 62))) }
        ensures none { IfOk result (λ r. IfNone r ((self.new ≡ self.old) × ForSome (H.now host.old) (λ v. IsClosed (place_of self.old) (v 2)))) }

        // Damage is told only at the walk's place, where the frame isn't legal behind those before it.
        ensures damaged { (p : ℕ) → IsErrOf result (ReservoirFault.Damaged p) → (p ≡ place_of self.old) × ForSome (H.now host.old) (λ v. IsRefusedWalk (v 2) self.old) }
        ensures neither { (IsErrOf result ReservoirFault.SchemaDiffers → ⊥) × (IsErrOf result ReservoirFault.Full → ⊥) × (IsErrOf result ReservoirFault.Ended → ⊥) }
        ensures err { OnErr result (self.new ≡ self.old) }
        ensures leaves { LeavesAll H.now H.may H.clock H.since H.said host.old host.new }
        ensures disk { IsErrOf result ReservoirFault.Disk → Rose (H.disk_faults host.old) (H.disk_faults host.new) }
        ensures disk_faults { H.disk_faults host.old ≤ H.disk_faults host.new }
        ensures out_faults { H.out_faults host.new ≡ H.out_faults host.old }
    {
        let mut payload = Vec::new(self.alloc);
        let log = FrameLog::new(2);
        let next = match log.read(host, self.place, &mut payload) {
            Ok(Some(next)) => next,
            Ok(None) => return Ok(None),
            Err(fault) => return Err(ReservoirFault::from(fault)),
        };
        match self.take(&payload, next) {
            Ok(stage) => Ok(Some(stage)),
            Err(fault) => Err(fault),
        }
    }
}
