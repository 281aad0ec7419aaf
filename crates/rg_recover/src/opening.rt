ghost use Rattle.std.specs.Prelude.{IfOk, IfErr};
ghost use Rattle.rg_config.specs.Plans.{planned};
ghost use Rattle.rg_config.specs.Read.{IsReadPlan};
ghost use Rattle.rg_recover.specs.Opened.{IsOpened, IsTurnedAway, OpensOnly};

use crate::handed_on::opening_fault;
use crate::session::Session;
use rg_config::Plan;
use rg_event::Steps;
use rg_host::Host;
use rg_open::Resumed;
use rg_run::RunFault;
use rg_state::{MemTable, Table};
use std::alloc::Global;
use std::sync::ledger::Ledger;

/// Opens the store of a plan. Nothing is put.
pub(crate) fn open_session<H: Host, L: Ledger>(
    alloc: Global,
    host: &mut H,
    plan: &Plan,
    steps: &mut Steps<L>,
) -> Result<(Session<MemTable>, Resumed), RunFault>
    requires read { IsReadPlan plan.now }
    ensures opened { IfOk result (λ r. IsOpened H.now H.may (planned plan.now) r.1.next r.1.count r.1.from ⟦<MemTable as Table>⟧.tells ⟦<MemTable as Table>⟧.cell ⟦<MemTable as Table>⟧.named ⟦<MemTable as Table>⟧.there r.0 host.old host.new) }
    ensures refused { IfErr result (λ fault. IsTurnedAway H.now H.may H.clock H.since H.said H.disk_faults H.out_faults (planned plan.now) fault host.old host.new) }
    ensures only { OpensOnly H.now H.may H.clock H.since H.said H.disk_faults H.out_faults (planned plan.now) host.old host.new }
{
    match Session::resume(alloc, host, plan, MemTable::new(alloc), steps) {
        Ok(opened) => Ok(opened),
        Err((fault, table)) => {
            drop(table);
            Err(opening_fault(fault))
        }
    }
}
