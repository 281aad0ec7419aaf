ghost use Rattle.std.specs.Prelude.{◌≡◌, ◌⊎◌, IfOk, IfErr, IsErrOf};
ghost use Rattle.rg_bytes.specs.Counts.{Rose};
ghost use Rattle.rg_config.specs.Read.{IsReadPlan};
ghost use Rattle.rg_open.specs.Finds.{HasRead, HasFound, IsNotFound, LeavesStore, WritesSchema};
ghost use Rattle.rg_open.specs.Settling.{AreSettled};

use crate::fault::{OpenFault, reservoir_fault, slots_fault};
use rg_checkpoint::Slots;
use rg_config::Plan;
use rg_host::Host;
use rg_reservoir::Reservoir;
use rg_restore::Saved;
use std::alloc::Global;

/// What is found of a store.
#[derive(Drop)]
pub(crate) struct Found {
    /// The events of the log.
    pub reservoir: Reservoir,
    /// The slots, which have handed out their checkpoints.
    pub slots: Slots,
    /// The checkpoints of the slots.
    pub saved: Saved,
}

/// The slots, and the checkpoints of both, where they are complete.
fn read_slots<H: Host>(alloc: Global, host: &mut H) -> Result<(Slots, Saved), OpenFault>
    ensures read { IfOk result (λ read. HasRead (H.now host.old) (H.now host.new) read.0 read.1) }
    ensures disk { IsErrOf result OpenFault.Disk → Rose (H.disk_faults host.old) (H.disk_faults host.new) }
    ensures faults { IfErr result (λ fault. (fault ≡ OpenFault.Disk) ⊎ (fault ≡ OpenFault.Memory)) }
    ensures leaves { LeavesStore H.now H.may H.clock H.since H.said H.disk_faults H.out_faults host.old host.new }
{
    match Slots::attach(alloc, host) {
        Ok(mut slots) => {
            let (first, second) = slots.take_both();
            Ok((slots, Saved { first, second }))
        }
        Err(fault) => Err(slots_fault(fault)),
    }
}

/// Reads the slots and attaches the log, which is given the plan's schema where it has no frame, and a growth
/// where the schema in force at its end grows to the plan's by the plan's defaults.
pub(crate) fn find<H: Host>(alloc: Global, host: &mut H, plan: &Plan) -> Result<Found, OpenFault>
    requires read { IsReadPlan plan.now }
    requires settled { AreSettled (H.now host.old) (H.may host.old) }
    ensures found { IfOk result (λ found. HasFound plan.now (H.now host.old) (H.now host.new) (H.may host.old) (H.may host.new) found.reservoir found.slots found.saved) }
    ensures refused { IfErr result (IsNotFound plan.now (H.now host.old) (H.may host.old) (Rose (H.disk_faults host.old) (H.disk_faults host.new))) }
    ensures writes { WritesSchema H.now H.may H.clock H.since H.said H.disk_faults H.out_faults plan.now host.old host.new }
{
    // a schema that there is is legal
    let _columns = plan.schema.fields();
    let (slots, saved) = match read_slots(alloc, host) {
        Ok(read) => read,
        Err(fault) => return Err(fault),
    };
    match Reservoir::attach(alloc, host, &plan.schema, &plan.defaults, plan.room) {
        Ok(reservoir) => Ok(Found {
            reservoir,
            slots,
            saved,
        }),
        Err(fault) => {
            drop(slots);
            drop(saved);
            Err(reservoir_fault(fault))
        }
    }
}
