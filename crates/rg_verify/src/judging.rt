ghost use Rattle.std.specs.Prelude.{◌≡◌, ◌≤◌, true, [], ℕ, List, Some, length, Decides, IfOk, IfErr, IfSome};
ghost use Rattle.std.specs.Option.{option_copied};
ghost use Rattle.rg_checkpoint.specs.Slots.{slot_in};
ghost use Rattle.rg_dump.specs.Leaves.{LeavesRead};
ghost use Rattle.rg_event.specs.Shapes.{Shape};
ghost use Rattle.rg_frame.specs.Frames.{HasPayloads};
ghost use Rattle.rg_host.specs.Image.{Image};
ghost use Rattle.rg_reservoir.specs.Kept.{opened};
ghost use Rattle.rg_row_audit.specs.Rows.{AreServed};
ghost use Rattle.rg_verify.specs.Causes.{IsUnjudged};
ghost use Rattle.rg_verify.specs.Fitting.{terms_of, IsRowVerdict};
ghost use Rattle.rg_verify.specs.Payments.{is_framed};
ghost use Rattle.rg_verify.specs.Verdicts.{IsVerdict};

use crate::fault::VerifyFault;
use crate::fitting::is_fit;
use crate::payments::Payments;
use crate::verdict::Verdict;
use rg_checkpoint::{Checkpoint, Slots};
use rg_event::{Event, Field, Texts};
use rg_host::Host;
use rg_plan::TaskPlan;
use rg_reservoir::Reservoir;
use rg_row_audit::check_rows;
use std::alloc::Global;

/// What a checkpoint is held against.
#[derive(Drop)]
pub(crate) struct Wanted<'a> {
    /// The printed texts of the queries, in order.
    pub(crate) queries: &'a Texts,
    /// The columns of the payments.
    pub(crate) fields: &'a [Field],
    /// The plan of the queries.
    pub(crate) task: &'a TaskPlan,
}

fn same_texts(first: &Texts, second: &Texts) -> bool
    ensures { Decides result (first.now ≡ second.now) }
{
    first == second
}

/// Whether the rows of a checkpoint stand for the first of these payments.
fn rows_verdict(
    alloc: Global,
    task: &TaskPlan,
    events: &[Event],
    checkpoint: &Checkpoint,
) -> Result<Verdict, VerifyFault>
    requires within { checkpoint.now.count ≤ length events.now }
    ensures verdict { AreServed task.now events.now → IfOk result (IsRowVerdict task.now events.now checkpoint.now) }
    ensures memory { IfErr result (λ fault. fault ≡ VerifyFault.Memory) }
{
    match check_rows(alloc, task, events, checkpoint) {
        Ok(None) => Ok(Verdict::Right(checkpoint.count)),
        Ok(Some(node)) => Ok(Verdict::Wrong(node)),
        Err(_) => Err(VerifyFault::Memory),
    }
}

/// Whether the rows of a fit checkpoint stand for the first payments.
fn judge_rows(
    alloc: Global,
    task: &TaskPlan,
    log: &Payments,
    checkpoint: &Checkpoint,
) -> Result<Verdict, VerifyFault>
    requires within { checkpoint.now.count ≤ length log.now.events }
    ensures verdict { AreServed task.now log.now.events → IfOk result (IsRowVerdict task.now log.now.events checkpoint.now) }
    ensures memory { IfErr result (λ fault. fault ≡ VerifyFault.Memory) }
{
    rows_verdict(alloc, task, log.events.as_slice(), checkpoint)
}

/// What a complete slot's checkpoint is to the queries beside this log.
fn judge_checkpoint<H: Host>(
    alloc: Global,
    host: &mut H,
    found: &Option<Reservoir>,
    wanted: &Wanted<'_>,
    log: &Payments,
    checkpoint: &Checkpoint,
) -> Result<Verdict, VerifyFault>
    requires empty { IfSome found.now (λ r. opened r ≡ []) }
    ensures verdict { (shape : Shape) (v : Image) (payloads : List (List ℕ)) → shape.fields ≡ wanted.now.fields.now → H.now host.old ≡ Some v → HasPayloads payloads (v 2) → log.now.framed ≡ is_framed (v 2) → AreServed wanted.now.task.now log.now.events →
        IfOk result (IsVerdict (terms_of wanted.now.queries.now shape wanted.now.task.now) (v 2) log.now.events (Some checkpoint.now)) }
    ensures cause { IfErr result (IsUnjudged (λ _. ⊥) ⊥ (H.disk_faults host.old) (H.disk_faults host.new)) }
    ensures leaves { LeavesRead H.now H.may H.clock H.since H.said H.disk_faults H.out_faults host.old host.new }
{
    if !same_texts(&checkpoint.queries, wanted.queries) {
        return Ok(Verdict::Other(checkpoint.count));
    }
    let fit = match is_fit(host, found, wanted.task, wanted.fields, log, checkpoint) {
        Ok(fit) => fit,
        Err(fault) => return Err(fault),
    };
    if !fit {
        return Ok(Verdict::Unfit(checkpoint.count));
    }
    judge_rows(alloc, wanted.task, log, checkpoint)
}

/// What a slot's checkpoint, where it is complete, is to the queries beside this log.
fn judge<H: Host>(
    alloc: Global,
    host: &mut H,
    found: &Option<Reservoir>,
    wanted: &Wanted<'_>,
    log: &Payments,
    slot: Option<&Checkpoint>,
) -> Result<Verdict, VerifyFault>
    requires empty { IfSome found.now (λ r. opened r ≡ []) }
    ensures verdict { (shape : Shape) (v : Image) (payloads : List (List ℕ)) → shape.fields ≡ wanted.now.fields.now → H.now host.old ≡ Some v → HasPayloads payloads (v 2) → log.now.framed ≡ is_framed (v 2) → AreServed wanted.now.task.now log.now.events →
        IfOk result (IsVerdict (terms_of wanted.now.queries.now shape wanted.now.task.now) (v 2) log.now.events (option_copied slot.entry)) }
    ensures cause { IfErr result (IsUnjudged (λ _. ⊥) ⊥ (H.disk_faults host.old) (H.disk_faults host.new)) }
    ensures leaves { LeavesRead H.now H.may H.clock H.since H.said H.disk_faults H.out_faults host.old host.new }
{
    match slot {
        None => Ok(Verdict::Missing),
        Some(checkpoint) => judge_checkpoint(alloc, host, found, wanted, log, checkpoint),
    }
}

/// What slot `i` is to the queries beside this log.
pub(crate) fn judge_slot<H: Host>(
    alloc: Global,
    host: &mut H,
    found: &Option<Reservoir>,
    wanted: &Wanted<'_>,
    log: &Payments,
    slots: &Slots,
    i: u32,
) -> Result<Verdict, VerifyFault>
    requires empty { IfSome found.now (λ r. opened r ≡ []) }
    requires fresh { slots.now.fresh ≡ true }
    ensures verdict { (shape : Shape) (v : Image) (payloads : List (List ℕ)) → shape.fields ≡ wanted.now.fields.now → H.now host.old ≡ Some v → HasPayloads payloads (v 2) → log.now.framed ≡ is_framed (v 2) → AreServed wanted.now.task.now log.now.events →
        IfOk result (IsVerdict (terms_of wanted.now.queries.now shape wanted.now.task.now) (v 2) log.now.events (slot_in slots.now i)) }
    ensures cause { IfErr result (IsUnjudged (λ _. ⊥) ⊥ (H.disk_faults host.old) (H.disk_faults host.new)) }
    ensures leaves { LeavesRead H.now H.may H.clock H.since H.said H.disk_faults H.out_faults host.old host.new }
{
    judge(alloc, host, found, wanted, log, slots.slot(i))
}
