ghost use Rattle.std.specs.Prelude.{◌≡◌, ◌↔◌, ◌≤◌, [], ℕ, List, Some, length, All, IfOk, IfErr, IfSome, IsTrue};
ghost use Rattle.rg_dump.specs.Leaves.{LeavesRead};
ghost use Rattle.rg_frame.specs.Frames.{HasPayloads};
ghost use Rattle.rg_host.specs.Image.{Image};
ghost use Rattle.rg_reservoir.specs.Kept.{base, opened};
ghost use Rattle.rg_reservoir.specs.Naming.{IsNamed};
ghost use Rattle.rg_verify.specs.Causes.{IsUnjudged};
ghost use Rattle.rg_verify.specs.Fitting.{FitsBeside, FitsAmong};

use crate::fault::VerifyFault;
use crate::payments::Payments;
use rg_checkpoint::Checkpoint;
use rg_event::Field;
use rg_host::Host;
use rg_past::Spot;
use rg_plan::TaskPlan;
use rg_reservoir::{Reservoir, ReservoirFault};
use rg_restore::fits_plan;

/// Whether the log has so many events.
fn has_just(reservoir: &Reservoir, count: usize) -> bool
    requires empty { opened reservoir.now ≡ [] }
    ensures { IsTrue result → (base reservoir.now).committed ≡ count }
{
    reservoir.count() == count as u64
}

/// Whether the heads of a log's chunks name each of these spots, none of which is behind so many events.
/// A log of another number of events is refused as want of memory, and so is one whose heads are bad: of a
/// log that was walked to its end neither comes.
fn are_named<H: Host>(
    host: &mut H,
    reservoir: &Reservoir,
    spots: &[Spot],
    count: usize,
) -> Result<bool, VerifyFault>
    requires empty { opened reservoir.now ≡ [] }
    ensures named { (v : Image) (payloads : List (List ℕ)) → H.now host.old ≡ Some v → HasPayloads payloads (v 2) → IfOk result (λ are. IsTrue are ↔ All (IsNamed payloads count) spots.now) }
    ensures cause { IfErr result (IsUnjudged (λ _. ⊥) ⊥ (H.disk_faults host.old) (H.disk_faults host.new)) }
    ensures leaves { LeavesRead H.now H.may H.clock H.since H.said H.disk_faults H.out_faults host.old host.new }
{
    if !has_just(reservoir, count) {
        return Err(VerifyFault::Memory);
    }
    match reservoir.names(host, spots) {
        Ok(are) => Ok(are),
        Err(ReservoirFault::Disk) => Err(VerifyFault::Disk),
        Err(_) => Err(VerifyFault::Memory),
    }
}

/// Whether the heads of a log's chunks name each spot of a checkpoint.
fn spots_are_named<H: Host>(
    host: &mut H,
    reservoir: &Reservoir,
    log: &Payments,
    checkpoint: &Checkpoint,
) -> Result<bool, VerifyFault>
    requires empty { opened reservoir.now ≡ [] }
    ensures named { (v : Image) (payloads : List (List ℕ)) → H.now host.old ≡ Some v → HasPayloads payloads (v 2) → IfOk result (λ are. IsTrue are ↔ All (IsNamed payloads (length log.now.events)) checkpoint.now.spots) }
    ensures cause { IfErr result (IsUnjudged (λ _. ⊥) ⊥ (H.disk_faults host.old) (H.disk_faults host.new)) }
    ensures leaves { LeavesRead H.now H.may H.clock H.since H.said H.disk_faults H.out_faults host.old host.new }
{
    let count = log.events.as_slice().len();
    are_named(host, reservoir, checkpoint.spots.as_slice(), count)
}

/// Whether a checkpoint of these queries is fit beside a log, but for what its spots name.
fn fits(task: &TaskPlan, fields: &[Field], log: &Payments, checkpoint: &Checkpoint) -> bool
    ensures { IsTrue result ↔ FitsBeside fields.now task.now log.now.framed (length log.now.events) checkpoint.now }
{
    if !log.framed {
        return false;
    }
    if checkpoint.count > log.events.as_slice().len() as u64 {
        return false;
    }
    if checkpoint.spots.as_slice().len() != task.offsets().len() {
        return false;
    }
    fits_plan(task, fields, checkpoint.rows.as_slice())
}

/// Whether a checkpoint of these queries is fit beside a log.
pub(crate) fn is_fit<H: Host>(
    host: &mut H,
    found: &Option<Reservoir>,
    task: &TaskPlan,
    fields: &[Field],
    log: &Payments,
    checkpoint: &Checkpoint,
) -> Result<bool, VerifyFault>
    requires empty { IfSome found.now (λ r. opened r ≡ []) }
    ensures fit { (v : Image) (payloads : List (List ℕ)) → H.now host.old ≡ Some v → HasPayloads payloads (v 2) → IfOk result (λ is. IsTrue is ↔ FitsAmong fields.now task.now log.now.framed (length log.now.events) payloads checkpoint.now) }
    ensures within { IfOk result (λ is. IsTrue is → checkpoint.now.count ≤ length log.now.events) }
    ensures cause { IfErr result (IsUnjudged (λ _. ⊥) ⊥ (H.disk_faults host.old) (H.disk_faults host.new)) }
    ensures leaves { LeavesRead H.now H.may H.clock H.since H.said H.disk_faults H.out_faults host.old host.new }
{
    if !fits(task, fields, log, checkpoint) {
        return Ok(false);
    }
    match found {
        None => Err(VerifyFault::Memory),
        Some(reservoir) => spots_are_named(host, reservoir, log, checkpoint),
    }
}
