ghost use Rattle.std.specs.Prelude.{◌≡◌, ◌⊎◌, ◌<◌, ◌≤◌, ◌^◌, ◌++◌, ℕ, List, [], Some, IfOk, length};
ghost use Rattle.std.specs.Option.{ForSome};
ghost use Rattle.rg_bytes.specs.Counts.{Rose};
ghost use Rattle.rg_bytes.specs.Known.{after};
ghost use Rattle.rg_config.specs.Plans.{Planned};
ghost use Rattle.rg_host.specs.Image.{Image, NothingPending};
ghost use Rattle.rg_host.specs.Files.{image_of};
ghost use Rattle.rg_host.specs.Picks.{left_after};
ghost use Rattle.rg_host.specs.MemHost.{now_in, may_in, clock_in, since_in, said_in, begun};
ghost use Rattle.rg_run_spec.specs.Acknowledged.{HoldsStored};
ghost use Rattle.rg_run_spec.specs.Laws.{IsPrefixOf};
ghost use Rattle.rg_run_spec.specs.Pieces.{whole_pieces};
ghost use Rattle.rg_open.specs.Stores.{Has};
ghost use Rattle.rg_open.specs.Truth.{IsTruthfulImage};
ghost use Rattle.rg_recover.specs.Ready.{IsReadyRun};
ghost use Rattle.rg_commands.specs.Call.{command_of};
ghost use Rattle.rg_commands.specs.Plan.{IsPlan};
ghost use Rattle.rg_restarts.specs.Twice.{accepted_of, Words, AcceptsAlike, IsStartable, HasSuch, IsLeft, IsLastLeft, PutsRest, EndsWell, MayEnd, Runs};

use crate::slice_source::SliceSource;
use rg_bytes::Memory;
use rg_commands::{Command, railgun};
use rg_host::{FuseHost, Host, MemHost, Pick};
use rg_messages::Status;
use std::alloc::Global;

/// Runs over this host with a plan and an input of these bytes, of which no read fails.
fn run_bytes<H: Host>(
    alloc: Global,
    words: &[String],
    plan: &[u8],
    input: &[u8],
    host: &mut H,
) -> Status
    ensures runs { command_of words.now ≡ Some (Command.Run 0) → (asks : Planned) → IsPlan plan.now asks → Runs H.now H.may H.clock H.since H.said asks input.now result host.old host.new }
    ensures ends { command_of words.now ≡ Some (Command.Run 0) → (asks : Planned) → IsPlan plan.now asks → IsReadyRun asks (H.now host.old) (H.may host.old) (H.said host.old) → length input.now ≤ 2 ^ 50 →
        EndsWell result (Rose (H.out_faults host.old) (H.out_faults host.new)) (Rose (H.disk_faults host.old) (H.disk_faults host.new)) }
{
    let mut plan_source = SliceSource::new(plan);
    let mut input_source = SliceSource::new(input);
    let mut refusal = None;
    railgun(
        alloc,
        words,
        &mut plan_source,
        &mut input_source,
        host,
        &mut refusal,
    )
}

/// A run that was stopped, and what that left.
#[derive(Drop)]
pub struct Stopped {
    /// The host, as the run left it.
    pub host: MemHost,
    /// A host with files that a crash might then have left. No call was made on it.
    pub left: MemHost,
    /// The status of the run.
    pub status: Status,
}

/// A host with files that a crash might leave of this one after its last call. No call was made on it.
fn left_by(host: &MemHost, pick: Pick) -> Result<MemHost, Memory>
    ensures last { IfOk result (λ left. ForSome (now_in left) (λ v. IsLastLeft host.now v)) }
    ensures begun { IfOk result (λ left. left ≡ begun left.first []) }
    ensures settled { IfOk result (λ left. (file : ℕ) → NothingPending file (now_in left) (may_in left)) }
    ensures picked { IfOk result (λ left. now_in left ≡ Some (left_after pick (image_of host.now.first) host.now.effects)) }
{
    host.stop_image(host.calls(), pick)
}

/// Runs over this host up to so many calls on it, after which each fails, and picks one of the images
/// that a crash might then leave. A run of the same words, plan and input goes on from there, and may
/// be stopped again.
pub fn run_stopped(
    alloc: Global,
    words: &[String],
    plan: &[u8],
    input: &[u8],
    host: MemHost,
    stop: u64,
    pick: Pick,
) -> Result<Stopped, Memory>
    // What was put, what is left and the status are those of the stopped run.
    ensures left { (start : IsStartable words.now plan.now input.now host) → IfOk result (λ run. (bytes : List ℕ) × (said_in run.host ≡ after (said_in host) bytes)
        × ForSome (now_in run.left) (λ v. IsLeft start.asks start.store.held (accepted_of start.asks input.now) (whole_pieces bytes) v)) }

    // After one stop the store is one from which a run goes on, by this plan or one that accepts alike.
    ensures again { (start : IsStartable words.now plan.now input.now host) → (others : Words) (other : List ℕ) (asked : Planned) → command_of others ≡ Some (Command.Run 0) → IsPlan other asked → AcceptsAlike start.asks asked →
        IfOk result (λ run. IsStartable others other input.now run.left) }
    ensures begun { IfOk result (λ run. run.left ≡ begun run.left.first []) }
    ensures settled { IfOk result (λ run. (file : ℕ) → NothingPending file (now_in run.left) (may_in run.left)) }
    ensures status { IsStartable words.now plan.now input.now host → IfOk result (λ run. MayEnd run.status) }

    // What is left is the image that `pick` names, of those that a crash might leave after the host's last call.
    ensures picked { IfOk result (λ run. now_in run.left ≡ Some (left_after pick (image_of run.host.first) run.host.effects)) }
{
    let mut fuse = FuseHost::new(host, stop);
    let status = run_bytes(alloc, words, plan, input, &mut fuse);
    let host = fuse.into_inner();
    let left = left_by(&host, pick)?;
    Ok(Stopped { host, left, status })
}

/// Runs over what a stop left to the end. Gives the host as the stopped run left it, this one as the
/// second run did, and the status of each run.
fn run_on(
    alloc: Global,
    words: &[String],
    plan: &[u8],
    input: &[u8],
    stopped: Stopped,
) -> (MemHost, MemHost, Status, Status)
    ensures first { (result.0 ≡ stopped.host) × (result.2 ≡ stopped.status) }
    ensures runs { command_of words.now ≡ Some (Command.Run 0) → (asks : Planned) → IsPlan plan.now asks → Runs now_in may_in clock_in since_in said_in asks input.now result.3 stopped.left result.1 }
    ensures ends { command_of words.now ≡ Some (Command.Run 0) → (asks : Planned) → IsPlan plan.now asks → IsReadyRun asks (now_in stopped.left) (may_in stopped.left) (said_in stopped.left) → length input.now ≤ 2 ^ 50 →
        EndsWell result.3 (Rose stopped.left.out_faults result.1.out_faults) (Rose stopped.left.disk_faults result.1.disk_faults) }
{
    let Stopped { host, left, status } = stopped;
    let mut second = left;
    let end = run_bytes(alloc, words, plan, input, &mut second);
    (host, second, status, end)
}

/// Runs over this host up to so many calls on it, after which each fails; picks one of the images that
/// a crash might then leave; and runs over that to its end. Gives the first host as the first run left
/// it, the second host, and the status of each run.
pub fn run_twice(
    alloc: Global,
    words: &[String],
    plan: &[u8],
    input: &[u8],
    host: MemHost,
    stop: u64,
    pick: Pick,
) -> Result<(MemHost, MemHost, Status, Status), Memory>
    // What is left is truthful, and its events are the first ones of those accepted.
    ensures truthful { (start : IsStartable words.now plan.now input.now host) → IfOk result (λ both. (u : Image) → may_in both.1 u →
        IsTruthfulImage u × HasSuch start.asks (λ events. IsPrefixOf events (accepted_of start.asks input.now)) u) }

    // It has every event that the store held.
    ensures keeps { (start : IsStartable words.now plan.now input.now host) → IfOk result (λ both. (u : Image) → may_in both.1 u →
        HasSuch start.asks (λ events. IsPrefixOf start.store.held events) u) }

    // It has every accepted event that a whole line of what either run put says is stored.
    ensures stored { (start : IsStartable words.now plan.now input.now host) → IfOk result (λ both. (bytes : List ℕ) × (output : List ℕ) × (said_in both.0 ≡ after (said_in host) bytes) × (said_in both.1 ≡ Some output)
        × ((u : Image) → may_in both.1 u → HasSuch start.asks (λ events. HoldsStored (whole_pieces bytes ++ whole_pieces output) (accepted_of start.asks input.now) events) u)) }

    // Where the second run came to its end, it has all that is accepted, and what that run put behind its open line is the last lines of
    // what a run puts that is never stopped.
    ensures complete { (start : IsStartable words.now plan.now input.now host) → IfOk result (λ both. both.3 ≡ Status.Ok → (u : Image) → may_in both.1 u → Has start.asks (accepted_of start.asks input.now) u) }

    // What the second run put behind its open line is the last lines of a run that is never stopped.
    ensures resumes { (start : IsStartable words.now plan.now input.now host) → IfOk result (λ both. both.3 ≡ Status.Ok → PutsRest start.asks input.now (said_in both.1)) }

    // The first status is Ok, Write, Disk or Memory.
    ensures first_status { IsStartable words.now plan.now input.now host → IfOk result (λ both. MayEnd both.2) }

    // The second status is Ok or Memory, unless a call of its host failed.
    ensures second_status { IsStartable words.now plan.now input.now host → IfOk result (λ both. (both.3 ≡ Status.Ok) ⊎ (both.3 ≡ Status.Memory) ⊎ (0 < both.1.disk_faults) ⊎ (0 < both.1.out_faults)) }
{
    let stopped = run_stopped(alloc, words, plan, input, host, stop, pick)?;
    Ok(run_on(alloc, words, plan, input, stopped))
}
