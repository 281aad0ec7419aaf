ghost use Rattle.std.specs.Prelude.{◌≡◌, ◌⊎◌, ◌≤◌, ◌^◌, true, [], ℕ, List, Some, None, IfOk, IfErr, IfSome, OnOk, IsErrOf};
ghost use Rattle.std.specs.Option.{ForSome};
ghost use Rattle.rg_bytes.specs.Counts.{Rose};
ghost use Rattle.rg_event.specs.Shapes.{Shape};
ghost use Rattle.rg_event.specs.declared.event.Event.{Event as TheEvent};
ghost use Rattle.rg_dump.specs.Dump.{damage_of};
ghost use Rattle.rg_dump.specs.Leaves.{LeavesPut, LeavesRead};
ghost use Rattle.rg_frame.specs.Frames.{HasPayloads};
ghost use Rattle.rg_growth.specs.Growing.{AreDefaultsOf};
ghost use Rattle.rg_host.specs.Image.{Image};
ghost use Rattle.rg_host.specs.Lines.{ended};
ghost use Rattle.rg_host.specs.Moments.{LeavesFiles};
ghost use Rattle.rg_host.specs.Puts.{IsPrefix, Puts};
ghost use Rattle.rg_reservoir.specs.Attached.{IsForeign};
ghost use Rattle.rg_reservoir.specs.Kept.{opened};
ghost use Rattle.rg_row_audit.specs.Rows.{AreServed};
ghost use Rattle.rg_verify.specs.Causes.{IsFirstDamage, IsOfOther, IsReadable, IsUnjudged, IsWholeOther};
ghost use Rattle.rg_verify.specs.Faults.{IsFromOutside};
ghost use Rattle.rg_verify.specs.Fitting.{AreVerdicts, terms_of};
ghost use Rattle.rg_verify.specs.Payments.{is_framed, IsReadAll};
ghost use Rattle.rg_verify.specs.Verify.{IsVerifiable, IsVerified, IsSaid, IsCut, verify_lines, one_differs};

use crate::fault::{VerifyFault, slots_fault};
use crate::finding::find;
use crate::judging::{Wanted, judge_slot};
use crate::longer::fill;
use crate::payments::{Payments, read_log};
use crate::text::lines_of;
use crate::verdict::Verdict;
use rg_checkpoint::Slots;
use rg_event::{Room, Schema, Texts};
use rg_growth::Defaults;
use rg_host::{Failed, Host, put_all};
use rg_plan::TaskPlan;
use rg_reservoir::Reservoir;
use std::alloc::Global;

/// What both slots are.
#[derive(Clone, Copy, Debug, PartialEq, Eq, Hash)]
struct Verdicts {
    first: Verdict,
    second: Verdict,
}

/// What the two slots are to the queries beside this log.
fn judge_both<H: Host>(
    alloc: Global,
    host: &mut H,
    found: &Option<Reservoir>,
    wanted: &Wanted<'_>,
    log: &Payments,
    slots: &Slots,
) -> Result<Verdicts, VerifyFault>
    requires empty { IfSome found.now (λ r. opened r ≡ []) }
    requires fresh { slots.now.fresh ≡ true }
    ensures verdicts { (shape : Shape) (v : Image) (payloads : List (List ℕ)) → shape.fields ≡ wanted.now.fields.now → H.now host.old ≡ Some v → HasPayloads payloads (v 2) → log.now.framed ≡ is_framed (v 2) → AreServed wanted.now.task.now log.now.events →
        IfOk result (λ verdicts. AreVerdicts (terms_of wanted.now.queries.now shape wanted.now.task.now) (v 2) log.now.events slots.now.first slots.now.second verdicts.first verdicts.second) }
    ensures cause { IfErr result (IsUnjudged (λ _. ⊥) ⊥ (H.disk_faults host.old) (H.disk_faults host.new)) }
    ensures leaves { LeavesRead H.now H.may H.clock H.since H.said H.disk_faults H.out_faults host.old host.new }
{
    let first = match judge_slot(alloc, host, found, wanted, log, slots, 0) {
        Ok(first) => first,
        Err(fault) => return Err(fault),
    };
    match judge_slot(alloc, host, found, wanted, log, slots, 1) {
        Ok(second) => Ok(Verdicts { first, second }),
        Err(fault) => Err(fault),
    }
}

/// Holds both slots against a log that was read to its end.
fn judge_slots<H: Host>(
    alloc: Global,
    host: &mut H,
    found: &Option<Reservoir>,
    wanted: &Wanted<'_>,
    log: &Payments,
) -> Result<Verdicts, VerifyFault>
    requires empty { IfSome found.now (λ r. opened r ≡ []) }
    ensures verified { (shape : Shape) (v : Image) (payloads : List (List ℕ)) → shape.fields ≡ wanted.now.fields.now → H.now host.old ≡ Some v → HasPayloads payloads (v 2) → log.now.framed ≡ is_framed (v 2) → AreServed wanted.now.task.now log.now.events →
        IfOk result (λ verdicts. IsVerified (terms_of wanted.now.queries.now shape wanted.now.task.now) v log.now.events verdicts.first verdicts.second) }
    ensures cause { IfErr result (IsUnjudged (λ _. ⊥) ⊥ (H.disk_faults host.old) (H.disk_faults host.new)) }
    ensures leaves { LeavesRead H.now H.may H.clock H.since H.said H.disk_faults H.out_faults host.old host.new }
{
    match Slots::attach(alloc, host) {
        Ok(slots) => judge_both(alloc, host, found, wanted, log, &slots),
        Err(fault) => Err(slots_fault(fault)),
    }
}

/// Holds both slots against a log that was read to its end, by the queries of a plan.
fn judge_read<H: Host>(
    alloc: Global,
    host: &mut H,
    schema: &Schema,
    task: &TaskPlan,
    queries: &Texts,
    found: &Option<Reservoir>,
    log: &Payments,
) -> Result<Verdicts, VerifyFault>
    requires empty { IfSome found.now (λ r. opened r ≡ []) }
    ensures verified { (v : Image) (payloads : List (List ℕ)) → H.now host.old ≡ Some v → HasPayloads payloads (v 2) → log.now.framed ≡ is_framed (v 2) → AreServed task.now log.now.events →
        IfOk result (λ verdicts. IsVerified (terms_of queries.now schema.now task.now) v log.now.events verdicts.first verdicts.second) }
    ensures cause { IfErr result (IsUnjudged (λ _. ⊥) ⊥ (H.disk_faults host.old) (H.disk_faults host.new)) }
    ensures leaves { LeavesRead H.now H.may H.clock H.since H.said H.disk_faults H.out_faults host.old host.new }
{
    let wanted = Wanted {
        queries,
        fields: schema.fields(),
        task,
    };
    judge_slots(alloc, host, found, &wanted, log)
}

/// Finds the log, which was read to its end, by its heads, puts the defaults of the columns that it lacks behind the
/// values of its payments, and holds both slots against them.
fn judge_log<H: Host>(
    alloc: Global,
    host: &mut H,
    schema: &Schema,
    defaults: &Defaults,
    room: Room,
    task: &TaskPlan,
    queries: &Texts,
    mut log: Payments,
) -> Result<Verdicts, VerifyFault>
    requires room { IsReadable room }
    requires given { AreDefaultsOf schema.now.fields defaults.now }
    requires undamaged { ForSome (H.now host.old) (λ v. damage_of (v 2) ≡ None) }
    ensures verified { (v : Image) (events : List TheEvent) → H.now host.old ≡ Some v → IsReadAll (v 2) log.events log.framed → IsVerifiable (terms_of queries.now schema.now task.now) defaults.now v events →
        IfOk result (λ verdicts. IsVerified (terms_of queries.now schema.now task.now) v events verdicts.first verdicts.second) }
    ensures ours { OnOk result (ForSome (H.now host.old) (λ v. IsForeign schema.now defaults.now (v 2) → ⊥)) }
    ensures cause { IfErr result (IsUnjudged (IsFirstDamage (H.now host.old)) (IsOfOther schema.now defaults.now (H.now host.old)) (H.disk_faults host.old) (H.disk_faults host.new)) }
    ensures leaves { LeavesRead H.now H.may H.clock H.since H.said H.disk_faults H.out_faults host.old host.new }
{
    let found = match find(alloc, host, schema, defaults, room) {
        Ok(found) => found,
        Err(fault) => return Err(fault),
    };
    match fill(alloc, &mut log.events, &found.further) {
        Ok(()) => {}
        Err(_) => return Err(VerifyFault::Memory),
    }
    judge_read(alloc, host, schema, task, queries, &found.log, &log)
}

/// Reads the whole log, holds both slots against it, and puts nothing. The schema in force at the log's end is
/// compared once the log was read and isn't damaged.
fn judge_store<H: Host>(
    alloc: Global,
    host: &mut H,
    schema: &Schema,
    defaults: &Defaults,
    room: Room,
    task: &TaskPlan,
    queries: &Texts,
) -> Result<Verdicts, VerifyFault>
    requires room { IsReadable room }
    requires given { AreDefaultsOf schema.now.fields defaults.now }
    ensures verified { (v : Image) (events : List TheEvent) → H.now host.old ≡ Some v → IsVerifiable (terms_of queries.now schema.now task.now) defaults.now v events →
        IfOk result (λ verdicts. IsVerified (terms_of queries.now schema.now task.now) v events verdicts.first verdicts.second) }
    ensures ours { OnOk result (ForSome (H.now host.old) (λ v. IsForeign schema.now defaults.now (v 2) → ⊥)) }
    ensures undamaged { OnOk result (ForSome (H.now host.old) (λ v. damage_of (v 2) ≡ None)) }
    ensures cause { IfErr result (IsUnjudged (IsFirstDamage (H.now host.old)) (IsWholeOther schema.now defaults.now (H.now host.old)) (H.disk_faults host.old) (H.disk_faults host.new)) }
    ensures leaves { LeavesRead H.now H.may H.clock H.since H.said H.disk_faults H.out_faults host.old host.new }
{
    let log = match read_log(alloc, host) {
        Ok(log) => log,
        Err(fault) => return Err(fault),
    };
    judge_log(alloc, host, schema, defaults, room, task, queries, log)
}

/// Holds each slot's checkpoint against the log, and puts a line for each, ended by LF: that the slot isn't
/// complete, that it is of other queries than these, that it is unfit, the least node whose rows don't stand
/// for the first payments, or that all do, and of how many payments the checkpoint is. It answers whether a
/// checkpoint is unfit or wrong. The whole log is read first, chunks included: a damaged one puts nothing and
/// is told by its first damaged place, and one that isn't is refused where another schema is in force at its
/// end, unless that one grows to this one and each column that it lacks has a default. The payments have the
/// values of every later growth and then these defaults, as a run would write them, and so are the rows held
/// against them. No file is written.
///
/// `task` is the plan of the queries that are printed so. It takes the memory of all payments, and what
/// `check_rows` takes.
pub fn verify<H: Host>(
    alloc: Global,
    host: &mut H,
    schema: &Schema,
    defaults: &Defaults,
    room: Room,
    task: &TaskPlan,
    queries: &Texts,
) -> Result<bool, VerifyFault>
    requires chunk { (1 ≤ room.chunk) × (room.chunk ≤ 4096) }
    requires cache { (1 ≤ room.cache) × (room.cache ≤ 1024) }
    requires limit { room.limit ≤ 2 ^ 40 }
    requires defaults { AreDefaultsOf schema.now.fields defaults.now }

    // Over a legal log: the lines of both slots were put, or a prefix of them where a put failed, and the store isn't refused.
    ensures completes { (v : Image) (events : List TheEvent) → H.now host.old ≡ Some v → IsVerifiable (terms_of queries.now schema.now task.now) defaults.now v events →
        IfOk result (IsSaid (terms_of queries.now schema.now task.now) v events (Puts H.said H.clock H.since host.old host.new)) }

    // Where a put failed, a prefix of the two lines was put.
    ensures cut { IsErrOf result VerifyFault.Write → (v : Image) (events : List TheEvent) → H.now host.old ≡ Some v → IsVerifiable (terms_of queries.now schema.now task.now) defaults.now v events →
        IsCut (terms_of queries.now schema.now task.now) v events (Puts H.said H.clock H.since host.old host.new) }

    // Over a legal log a refusal comes only of a failed call, of want of memory or of a failed put.
    ensures outside { (v : Image) (events : List TheEvent) → H.now host.old ≡ Some v → IsVerifiable (terms_of queries.now schema.now task.now) defaults.now v events → IfErr result IsFromOutside }

    // Over any image: lines are put only where no frame is damaged and the schema is this one or grows to it by the defaults, and else
    // nothing.
    ensures undamaged { OnOk result (ForSome (H.now host.old) (λ v. damage_of (v 2) ≡ None)) }
    ensures other { (v : Image) → H.now host.old ≡ Some v → IsForeign schema.now defaults.now (v 2) → OnOk result ⊥ }

    // At every refusal but that of a put nothing was put.
    ensures silent { IfErr result (λ fault. (fault ≡ VerifyFault.Write) ⊎ Puts H.said H.clock H.since host.old host.new []) }

    // Each refusal but want of memory has its cause, and a damaged log is told before one of another schema.
    ensures damaged { (p : ℕ) → IsErrOf result (VerifyFault.Damaged p) → ForSome (H.now host.old) (λ v. damage_of (v 2) ≡ Some p) }
    ensures differs { IsErrOf result VerifyFault.SchemaDiffers → ForSome (H.now host.old) (λ v. IsForeign schema.now defaults.now (v 2)) }
    ensures whole { IsErrOf result VerifyFault.SchemaDiffers → ForSome (H.now host.old) (λ v. damage_of (v 2) ≡ None) }
    ensures disk { IsErrOf result VerifyFault.Disk → Rose (H.disk_faults host.old) (H.disk_faults host.new) }
    ensures write { IsErrOf result VerifyFault.Write → Rose (H.out_faults host.old) (H.out_faults host.new) }

    // No file is written.
    ensures leaves { LeavesFiles H.now H.may H.clock H.since host.old host.new }
    ensures disk_faults { H.disk_faults host.old ≤ H.disk_faults host.new }
    ensures out_faults { H.out_faults host.old ≤ H.out_faults host.new }
{
    let verdicts = match judge_store(alloc, host, schema, defaults, room, task, queries) {
        Ok(verdicts) => verdicts,
        Err(fault) => return Err(fault),
    };
    put_verdicts(alloc, host, verdicts)
}

/// Puts the lines of both slots.
fn put_verdicts<H: Host>(
    alloc: Global,
    host: &mut H,
    verdicts: Verdicts,
) -> Result<bool, VerifyFault>
    ensures all { IfOk result (λ differ. Puts H.said H.clock H.since host.old host.new (ended (verify_lines verdicts.first verdicts.second)) × (differ ≡ one_differs verdicts.first verdicts.second)) }
    ensures cut { IsErrOf result VerifyFault.Write → (part : List ℕ) × IsPrefix part (ended (verify_lines verdicts.first verdicts.second)) × Puts H.said H.clock H.since host.old host.new part }
    ensures write { IsErrOf result VerifyFault.Write → Rose (H.out_faults host.old) (H.out_faults host.new) }
    ensures faults { IfErr result (λ fault. (fault ≡ VerifyFault.Write) ⊎ ((fault ≡ VerifyFault.Memory) × Puts H.said H.clock H.since host.old host.new [])) }
    ensures leaves { LeavesPut H.now H.may H.clock H.since H.disk_faults H.out_faults host.old host.new }
{
    let text = match lines_of(alloc, verdicts.first, verdicts.second) {
        Ok(text) => text,
        Err(_) => return Err(VerifyFault::Memory),
    };
    match put_all(host, &text) {
        Ok(()) => Ok(verdicts.first.differs() || verdicts.second.differs()),
        Err(Failed) => Err(VerifyFault::Write),
    }
}
