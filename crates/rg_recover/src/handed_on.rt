ghost use Rattle.std.specs.Prelude.{◌≡◌};
ghost use Rattle.rg_recover.specs.RunFaults.{of_open};
ghost use Rattle.rg_recover.specs.Living.{of_session};

use rg_open::OpenFault;
use rg_run::RunFault;
use rg_task::TaskFault;

/// What a fault of a session is to its task.
pub(crate) fn task_fault(fault: crate::fault::TaskFault) -> TaskFault
    ensures { result ≡ of_session fault }
{
    match fault {
        crate::fault::TaskFault::Disk => TaskFault::Disk,
        crate::fault::TaskFault::Damaged(place) => TaskFault::Damaged(place),
        crate::fault::TaskFault::BadState(node) => TaskFault::BadState(node),
        crate::fault::TaskFault::Memory => TaskFault::Memory,
        crate::fault::TaskFault::Ended => TaskFault::Ended,
        crate::fault::TaskFault::Table => TaskFault::Disk,
    }
}

/// What a fault of an opening is to a run, whose table has no disk.
pub(crate) fn opening_fault(fault: OpenFault) -> RunFault
    requires { fault ≡ OpenFault.Table → ⊥ }
    ensures { result ≡ of_open fault }
{
    match fault {
        OpenFault::Disk => RunFault::Disk,
        OpenFault::Damaged(place) => RunFault::Damaged(place),
        OpenFault::SchemaDiffers => RunFault::SchemaDiffers,
        OpenFault::BadState(node) => RunFault::BadState(node),
        OpenFault::Memory => RunFault::Memory,
        OpenFault::Table => unreachable!(),
    }
}
