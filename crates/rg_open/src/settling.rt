ghost use Rattle.std.specs.Prelude.{◌≡◌, ◌≤◌, ◌<◌, OnOk, OnErr};
ghost use Rattle.rg_bytes.specs.Counts.{Rose};
ghost use Rattle.rg_host.specs.Image.{NothingPending};
ghost use Rattle.rg_open.specs.Settling.{AreSettled, LeavesFewer};

use rg_host::{Failed, Host};

/// Settles the log and both slots, files 2, 0 and 1: nothing of them that an earlier run wrote is
/// pending then.
pub fn settle<H: Host>(host: &mut H) -> Result<(), Failed>
    ensures settled { OnOk result (AreSettled (H.now host.new) (H.may host.new)) }
    ensures leaves { LeavesFewer H.now H.may H.clock H.since H.said host.old host.new }
    ensures cause { OnErr result (Rose (H.disk_faults host.old) (H.disk_faults host.new)) }
    ensures disk_faults { H.disk_faults host.old ≤ H.disk_faults host.new }
    ensures out_faults { H.out_faults host.new ≡ H.out_faults host.old }
{
    match settle_file(host, 2) {
        Ok(()) => {}
        Err(failed) => return Err(failed),
    }
    match settle_file(host, 0) {
        Ok(()) => {}
        Err(failed) => return Err(failed),
    }
    match settle_file(host, 1) {
        Ok(()) => Ok(()),
        Err(failed) => Err(failed),
    }
}

/// Settles one file.
fn settle_file<H: Host>(host: &mut H, file: u32) -> Result<(), Failed>
    requires { file < 8 }
    ensures settled { OnOk result (NothingPending file (H.now host.new) (H.may host.new)) }
    ensures leaves { LeavesFewer H.now H.may H.clock H.since H.said host.old host.new }
    ensures cause { OnErr result (Rose (H.disk_faults host.old) (H.disk_faults host.new)) }
    ensures disk_faults { H.disk_faults host.old ≤ H.disk_faults host.new }
    ensures out_faults { H.out_faults host.new ≡ H.out_faults host.old }
{
    match host.sync(file) {
        Ok(()) => Ok(()),
        Err(failed) => Err(failed),
    }
}
