ghost use Rattle.std.specs.Prelude.{◌≡◌, ◌⊎◌, ◌≤◌, ℕ, List, IfErr, OnOk, IsErrOf};
ghost use Rattle.rg_bytes.specs.Counts.{Rose};
ghost use Rattle.rg_config.specs.Plans.{planned};
ghost use Rattle.rg_host.specs.Lines.{ended};
ghost use Rattle.rg_host.specs.Moments.{LeavesFiles};
ghost use Rattle.rg_host.specs.Puts.{Puts};
ghost use Rattle.rg_explain.specs.Listing.{check_text};
ghost use Rattle.rg_config.specs.Read.{IsReadPlan};
ghost use Rattle.rg_explain.specs.Stops.{StopsAt};

use crate::fault::CheckFault;
use crate::listing::write_listing;
use rg_bytes::Memory;
use rg_config::Plan;
use rg_host::{Failed, Host, put_all};
use std::alloc::Global;

/// Puts the queries of a plan out as they are printed, and then its task plan, a line each. All
/// lines are written before the first is put.
pub fn check<H: Host>(alloc: Global, plan: &Plan, host: &mut H) -> Result<(), CheckFault>
    requires read { IsReadPlan plan.now }
    // What is put is each query as it is printed, and the task plan.
    ensures completes { OnOk result (Puts H.said H.clock H.since host.old host.new (ended (check_text (planned plan.now)))) }

    // Where a put failed a prefix of the text was put, and else nothing.
    ensures stops { IfErr result (λ fault. (put : List ℕ) × Puts H.said H.clock H.since host.old host.new put × StopsAt (fault ≡ CheckFault.Write) (check_text (planned plan.now)) put) }

    // Write comes only where the count of failed puts rose, and no file is written.
    ensures write { IsErrOf result CheckFault.Write → Rose (H.out_faults host.old) (H.out_faults host.new) }
    ensures leaves { LeavesFiles H.now H.may H.clock H.since host.old host.new }
    ensures later_out { H.out_faults host.old ≤ H.out_faults host.new }
{
    let mut text = Vec::new(alloc);
    match write_listing(&mut text, plan) {
        Ok(()) => {}
        Err(Memory) => return Err(CheckFault::Memory),
    }
    match put_all(host, &text) {
        Ok(()) => Ok(()),
        Err(Failed) => Err(CheckFault::Write),
    }
}
