ghost use Rattle.std.specs.Prelude.{◌≡◌, IfOk, IfErr, IfSome, IfNone, OnOk};
ghost use Rattle.std.specs.Option.{ForSome};
ghost use Rattle.rg_bytes.specs.Counts.{Rose};
ghost use Rattle.rg_reservoir.specs.Walked.{IsNext};
ghost use Rattle.rg_dump.specs.Leaves.{LeavesRead};
ghost use Rattle.rg_dump.specs.Surveyed.{survey_in, with_stage, IsLast, HasPassed, IsUnsurveyed};

use crate::fault::{DumpFault, walk_fault};
use crate::values::put_copies;
use rg_bytes::Memory;
use rg_event::{Schema, Values};
use rg_host::Host;
use rg_reservoir::{ReservoirFault, Stage, Walk};
use std::alloc::Global;

/// What a log says up to its end or its damage.
#[derive(Debug, Drop)]
pub(crate) struct Survey {
    /// The schema in force there, if it has a frame.
    pub(crate) schema: Option<Schema>,
    /// The values that its growths put behind those of an event in front of them all, in order.
    pub(crate) values: Values,
}

impl Survey {
    /// Goes on behind a frame. An error leaves it begun.
    fn pass(&mut self, alloc: Global, stage: Stage) -> Result<(), Memory>
        ensures { OnOk result (self.new ≡ with_stage self.old stage) }
    {
        match stage {
            Stage::Schema(schema) => {
                self.schema = Some(schema);
                Ok(())
            }
            Stage::Chunk(_) => Ok(()),
            Stage::Growth(schema, values) => {
                self.schema = Some(schema);
                put_copies(alloc, values.as_slice(), &mut self.values)
            }
        }
    }
}

/// The next frame in front of where the log ends or is damaged.
fn read_next<H: Host>(walk: &mut Walk, host: &mut H) -> Result<Option<Stage>, DumpFault>
    ensures some { IfOk result (λ r. IfSome r (λ stage. ForSome (H.now host.old) (λ v. IsNext (v 2) walk.old stage walk.new))) }
    ensures goes_on { IfOk result (λ r. IfSome r (λ _. HasPassed walk.old walk.new)) }
    ensures none { IfOk result (λ r. IfNone r (ForSome (H.now host.old) (λ v. IsLast (v 2) walk.old))) }
    ensures faults { IfErr result (IsUnsurveyed (Rose (H.disk_faults host.old) (H.disk_faults host.new))) }
    ensures leaves { LeavesRead H.now H.may H.clock H.since H.said H.disk_faults H.out_faults host.old host.new }
{
    match walk.next(host) {
        Ok(found) => Ok(found),
        Err(ReservoirFault::Damaged(_)) => Ok(None),
        Err(fault) => Err(walk_fault(fault)),
    }
}

/// Reads the log of file 2 to its end or its damage, chunks included.
pub(crate) fn read_log<H: Host>(alloc: Global, host: &mut H) -> Result<Survey, DumpFault>
    ensures says { IfOk result (λ survey. ForSome (H.now host.old) (λ v. survey ≡ survey_in (v 2))) }
    ensures faults { IfErr result (IsUnsurveyed (Rose (H.disk_faults host.old) (H.disk_faults host.new))) }
    ensures leaves { LeavesRead H.now H.may H.clock H.since H.said H.disk_faults H.out_faults host.old host.new }
{
    let mut walk = Walk::new(alloc);
    let mut survey = Survey {
        schema: None,
        values: Values::new(alloc),
    };
    'frames: loop {
        let stage = match read_next(&mut walk, host) {
            Ok(Some(stage)) => stage,
            Ok(None) => return Ok(survey),
            Err(fault) => return Err(fault),
        };
        match survey.pass(alloc, stage) {
            Ok(()) => {}
            Err(Memory) => return Err(DumpFault::Memory),
        }
    }
}
