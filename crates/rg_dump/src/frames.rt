ghost use Rattle.std.specs.Prelude.{◌≡◌, ◌⊎◌, ◌≤◌, [], ◌∷◌, ◌++◌, ℕ, List, Some, None, IfOk, IfErr, OnOk, IsErrOf};
ghost use Rattle.std.specs.Option.{ForSome};
ghost use Rattle.rg_bytes.specs.Counts.{Rose};
ghost use Rattle.rg_host.specs.Lines.{ended};
ghost use Rattle.rg_host.specs.Moments.{LeavesFiles};
ghost use Rattle.rg_host.specs.Puts.{IsPrefix, Puts, StopsWith};
ghost use Rattle.rg_event.specs.Shapes.{schema_text};
ghost use Rattle.rg_dump.specs.Behind.{values_of, behind_after};
ghost use Rattle.rg_dump.specs.Dump.{head_lines, stage_rows, rows_of, dump_text, damage_of};
ghost use Rattle.rg_dump.specs.Dumped.{IsCutIn, HasPutStage, HasDumped, IsNotDumped, HasAll, IsNotAll};
ghost use Rattle.rg_dump.specs.Leaves.{LeavesPut};
ghost use Rattle.rg_dump.specs.Stages.{stages_of};

use crate::fault::{DumpFault, walk_fault};
use crate::row::extended_text;
use crate::survey::read_log;
use crate::values::values_behind;
use rg_bytes::{Memory, put_bytes};
use rg_event::{Schema, Values};
use rg_host::{Failed, Host, put_all};
use rg_reservoir::{Stage, Walk};
use std::alloc::Global;

/// The schema's text, and LF.
fn schema_line(alloc: Global, schema: &Schema) -> Result<Vec<u8>, Memory>
    ensures { IfOk result (λ line. line.items ≡ schema_text schema.now ++ 10 ∷ []) }
{
    let mut line = Vec::new(alloc);
    schema.write(&mut line)?;
    put_bytes(&mut line, b"\n")?;
    Ok(line)
}

/// The line of the schema, or nothing where there is none.
fn head_text(alloc: Global, schema: &Option<Schema>) -> Result<Vec<u8>, Memory>
    ensures { IfOk result (λ text. text.items ≡ ended (head_lines schema.now)) }
{
    match schema {
        Some(schema) => schema_line(alloc, schema),
        None => Ok(Vec::new(alloc)),
    }
}

/// Puts that text.
fn put_head<H: Host>(alloc: Global, schema: &Option<Schema>, host: &mut H) -> Result<(), DumpFault>
    ensures all { OnOk result (Puts H.said H.clock H.since host.old host.new (ended (head_lines schema.now))) }
    ensures part { IfErr result (λ fault. IsCutIn (ended (head_lines schema.now)) (Puts H.said H.clock H.since host.old host.new) (fault ≡ DumpFault.Write)) }
    ensures write { IsErrOf result DumpFault.Write → Rose (H.out_faults host.old) (H.out_faults host.new) }
    ensures faults { IfErr result (λ fault. (fault ≡ DumpFault.Write) ⊎ (fault ≡ DumpFault.Memory)) }
    ensures leaves { LeavesPut H.now H.may H.clock H.since H.disk_faults H.out_faults host.old host.new }
{
    let text = match head_text(alloc, schema) {
        Ok(text) => text,
        Err(Memory) => return Err(DumpFault::Memory),
    };
    match put_all(host, &text) {
        Ok(()) => Ok(()),
        Err(Failed) => Err(DumpFault::Write),
    }
}

/// The rows of a frame that was read, each ended by LF. `behind` has the values that come behind those of its events, and then
/// of the events of the frames behind it.
fn stage_text(alloc: Global, stage: Stage, behind: &mut Values) -> Result<Vec<u8>, Memory>
    ensures text { IfOk result (λ text. text.items ≡ ended (stage_rows behind.old stage)) }
    ensures left { OnOk result (behind.new ≡ behind_after stage behind.old) }
{
    match stage {
        Stage::Schema(_) => Ok(Vec::new(alloc)),
        Stage::Chunk(chunk) => extended_text(alloc, chunk, behind),
        Stage::Growth(_, values) => {
            *behind = values_behind(alloc, behind.as_slice(), values.as_slice().len())?;
            Ok(Vec::new(alloc))
        }
    }
}

/// Puts the rows of a frame that was read.
fn put_stage<H: Host>(
    alloc: Global,
    stage: Stage,
    behind: &mut Values,
    host: &mut H,
) -> Result<(), DumpFault>
    ensures all { OnOk result (HasPutStage stage behind.old behind.new (Puts H.said H.clock H.since host.old host.new)) }
    ensures part { IfErr result (λ fault. IsCutIn (ended (stage_rows behind.old stage)) (Puts H.said H.clock H.since host.old host.new) (fault ≡ DumpFault.Write)) }
    ensures write { IsErrOf result DumpFault.Write → Rose (H.out_faults host.old) (H.out_faults host.new) }
    ensures faults { IfErr result (λ fault. (fault ≡ DumpFault.Write) ⊎ (fault ≡ DumpFault.Memory)) }
    ensures leaves { LeavesPut H.now H.may H.clock H.since H.disk_faults H.out_faults host.old host.new }
{
    let text = match stage_text(alloc, stage, behind) {
        Ok(text) => text,
        Err(Memory) => return Err(DumpFault::Memory),
    };
    match put_all(host, &text) {
        Ok(()) => Ok(()),
        Err(Failed) => Err(DumpFault::Write),
    }
}

/// Reads the next frame and puts its rows. Answers whether there was one.
fn dump_next<H: Host>(
    alloc: Global,
    walk: &mut Walk,
    behind: &mut Values,
    host: &mut H,
) -> Result<bool, DumpFault>
    ensures dumped { IfOk result (HasDumped (H.now host.old) walk.old walk.new behind.old (Puts H.said H.clock H.since host.old host.new) behind.new) }
    ensures refused { IfErr result (IsNotDumped (H.now host.old) walk.old walk.new behind.old (Puts H.said H.clock H.since host.old host.new)
        (Rose (H.disk_faults host.old) (H.disk_faults host.new)) (Rose (H.out_faults host.old) (H.out_faults host.new))) }
    ensures leaves { LeavesPut H.now H.may H.clock H.since H.disk_faults H.out_faults host.old host.new }
{
    let stage = match walk.next(host) {
        Ok(Some(stage)) => stage,
        Ok(None) => return Ok(false),
        Err(fault) => return Err(walk_fault(fault)),
    };
    match put_stage(alloc, stage, behind, host) {
        Ok(()) => Ok(true),
        Err(fault) => Err(fault),
    }
}

/// Puts a row for each event of the log in file 2, up to its end or its damage. `behind` has the values of all its growths.
fn dump_rows<H: Host>(alloc: Global, behind: &mut Values, host: &mut H) -> Result<(), DumpFault>
    requires { ForSome (H.now host.old) (λ v. behind.old ≡ values_of (stages_of (v 2)).stages) }
    ensures all { OnOk result (HasAll (H.now host.old) rows_of (Puts H.said H.clock H.since host.old host.new)) }
    ensures refused { IfErr result (IsNotAll (H.now host.old) rows_of (Puts H.said H.clock H.since host.old host.new)
        (Rose (H.disk_faults host.old) (H.disk_faults host.new)) (Rose (H.out_faults host.old) (H.out_faults host.new))) }
    ensures leaves { LeavesPut H.now H.may H.clock H.since H.disk_faults H.out_faults host.old host.new }
{
    let mut walk = Walk::new(alloc);
    'frames: loop {
        match dump_next(alloc, &mut walk, behind, host) {
            Ok(true) => {}
            Ok(false) => return Ok(()),
            Err(fault) => return Err(fault),
        }
    }
}

/// Reads the log in file 2, puts the schema's text, and then the rows.
fn dump_log<H: Host>(alloc: Global, host: &mut H) -> Result<(), DumpFault>
    ensures all { OnOk result (HasAll (H.now host.old) dump_text (Puts H.said H.clock H.since host.old host.new)) }
    ensures refused { IfErr result (IsNotAll (H.now host.old) dump_text (Puts H.said H.clock H.since host.old host.new)
        (Rose (H.disk_faults host.old) (H.disk_faults host.new)) (Rose (H.out_faults host.old) (H.out_faults host.new))) }
    ensures leaves { LeavesPut H.now H.may H.clock H.since H.disk_faults H.out_faults host.old host.new }
{
    let mut survey = match read_log(alloc, host) {
        Ok(survey) => survey,
        Err(fault) => return Err(fault),
    };
    match put_head(alloc, &survey.schema, host) {
        Ok(()) => {}
        Err(fault) => return Err(fault),
    }
    match dump_rows(alloc, &mut survey.values, host) {
        Ok(()) => Ok(()),
        Err(fault) => Err(fault),
    }
}

/// Puts the dump of the log in file 2: the text of the schema in force at its end, and then each event as a row of `csv`, with
/// the values of every later growth behind its own, each line ended by LF. Nothing is put for a log without frames. A damaged
/// log is dumped up to its first damaged place, as one that ends there, and the answer then says that place. No file is
/// written. The log is read once before anything is put.
pub fn dump<H: Host>(alloc: Global, host: &mut H) -> Result<(), DumpFault>
    // All lines were put, and the log has no damaged place.
    ensures completes { OnOk result (ForSome (H.now host.old) (λ v. Puts H.said H.clock H.since host.old host.new (ended (dump_text (v 2))))) }
    ensures undamaged { OnOk result (ForSome (H.now host.old) (λ v. damage_of (v 2) ≡ None)) }

    // The log's first damaged place is this one, and all lines before it were put.
    ensures damaged { (p : ℕ) → IsErrOf result (DumpFault.Damaged p) → ForSome (H.now host.old) (λ v. (damage_of (v 2) ≡ Some p) × Puts H.said H.clock H.since host.old host.new (ended (dump_text (v 2)))) }

    // Whole lines of the text were put, or, where a put failed, a prefix of it.
    ensures stops { IfErr result (λ fault. ForSome (H.now host.old) (λ v. (put : List ℕ) × Puts H.said H.clock H.since host.old host.new put × (StopsWith (dump_text (v 2)) [] put ⊎ ((fault ≡ DumpFault.Write) × IsPrefix put (ended (dump_text (v 2))))))) }

    // Each fault has its cause, and no file is written.
    ensures write { IsErrOf result DumpFault.Write → Rose (H.out_faults host.old) (H.out_faults host.new) }
    ensures disk { IsErrOf result DumpFault.Disk → Rose (H.disk_faults host.old) (H.disk_faults host.new) }
    ensures leaves { LeavesFiles H.now H.may H.clock H.since host.old host.new }
    ensures disk_faults { H.disk_faults host.old ≤ H.disk_faults host.new }
    ensures out_faults { H.out_faults host.old ≤ H.out_faults host.new }
{
    match dump_log(alloc, host) {
        Ok(()) => Ok(()),
        Err(fault) => Err(fault),
    }
}
