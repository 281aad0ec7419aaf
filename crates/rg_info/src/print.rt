ghost use Rattle.std.specs.Prelude.{◌≡◌, ◌⊎◌, ◌≤◌, [], ℕ, List, Some, None, IfOk, IfErr, OnOk, IsErrOf};
ghost use Rattle.std.specs.Option.{ForSome};
ghost use Rattle.rg_bytes.specs.Counts.{Rose};
ghost use Rattle.rg_dump.specs.Dump.{damage_of};
ghost use Rattle.rg_dump.specs.Leaves.{LeavesRead};
ghost use Rattle.rg_host.specs.Lines.{ended};
ghost use Rattle.rg_host.specs.Moments.{LeavesFiles};
ghost use Rattle.rg_host.specs.Puts.{IsPrefix, Puts};
ghost use Rattle.rg_info.specs.Info.{IsInfo};

use crate::fault::{InfoFault, slots_fault};
use crate::summary::read_log;
use crate::text::store_text;
use rg_bytes::Memory;
use rg_checkpoint::Slots;
use rg_host::{Failed, Host, put_all};
use std::alloc::Global;

/// The lines of a store, each ended by LF. It puts nothing.
fn read_store<H: Host>(alloc: Global, host: &mut H) -> Result<Vec<u8>, InfoFault>
    ensures text { IfOk result (λ text. ForSome (H.now host.old) (λ v. (lines : List (List ℕ)) × IsInfo v lines × (text.items ≡ ended lines))) }
    ensures undamaged { OnOk result (ForSome (H.now host.old) (λ v. damage_of (v 2) ≡ None)) }
    ensures damaged { (p : ℕ) → IsErrOf result (InfoFault.Damaged p) → ForSome (H.now host.old) (λ v. damage_of (v 2) ≡ Some p) }
    ensures no_write { IsErrOf result InfoFault.Write → ⊥ }
    ensures disk { IsErrOf result InfoFault.Disk → Rose (H.disk_faults host.old) (H.disk_faults host.new) }
    ensures leaves { LeavesRead H.now H.may H.clock H.since H.said H.disk_faults H.out_faults host.old host.new }
{
    let summary = match read_log(alloc, host) {
        Ok(summary) => summary,
        Err(fault) => return Err(fault),
    };
    let slots = match Slots::attach(alloc, host) {
        Ok(slots) => slots,
        Err(fault) => return Err(slots_fault(fault)),
    };
    match store_text(alloc, &summary, &slots) {
        Ok(text) => Ok(text),
        Err(Memory) => Err(InfoFault::Memory),
    }
}

/// Puts what a store has, a line each ended by LF: how many events there are, the last one's offset
/// plus one, its time in milliseconds (`-` for none), how many frames the log has, and for each of
/// the two slots how many events its checkpoint is of and how many queries it has, or that it isn't
/// complete. The whole log is read before anything is put, so a damaged one puts nothing. No file
/// is written.
pub fn info<H: Host>(alloc: Global, host: &mut H) -> Result<(), InfoFault>
    // All lines were put, and the log has no damaged place.
    ensures completes { OnOk result (ForSome (H.now host.old) (λ v. (lines : List (List ℕ)) × IsInfo v lines × Puts H.said H.clock H.since host.old host.new (ended lines))) }
    ensures undamaged { OnOk result (ForSome (H.now host.old) (λ v. damage_of (v 2) ≡ None)) }

    // The log's first damaged place is this one, and nothing was put.
    ensures damaged { (p : ℕ) → IsErrOf result (InfoFault.Damaged p) → ForSome (H.now host.old) (λ v. damage_of (v 2) ≡ Some p) × Puts H.said H.clock H.since host.old host.new [] }

    // Nothing was put, or, where a put failed, a prefix of the text.
    ensures stops { IfErr result (λ fault. (fault ≡ InfoFault.Write) ⊎ Puts H.said H.clock H.since host.old host.new []) }

    // Where a put failed, a prefix of the text was put.
    ensures cut { IsErrOf result InfoFault.Write → ForSome (H.now host.old) (λ v. (lines : List (List ℕ)) × (put : List ℕ) × IsInfo v lines × IsPrefix put (ended lines) × Puts H.said H.clock H.since host.old host.new put) }

    // Each fault has its cause, and no file is written.
    ensures write { IsErrOf result InfoFault.Write → Rose (H.out_faults host.old) (H.out_faults host.new) }
    ensures disk { IsErrOf result InfoFault.Disk → Rose (H.disk_faults host.old) (H.disk_faults host.new) }
    ensures leaves { LeavesFiles H.now H.may H.clock H.since host.old host.new }
    ensures disk_faults { H.disk_faults host.old ≤ H.disk_faults host.new }
    ensures out_faults { H.out_faults host.old ≤ H.out_faults host.new }
{
    let text = match read_store(alloc, host) {
        Ok(text) => text,
        Err(fault) => return Err(fault),
    };
    match put_all(host, &text) {
        Ok(()) => Ok(()),
        Err(Failed) => Err(InfoFault::Write),
    }
}
