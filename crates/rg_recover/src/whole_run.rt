ghost use Rattle.std.specs.Prelude.{◌≡◌, ◌⊎◌, ◌≤◌, ◌<◌, ◌^◌, ℕ, List, Option, Some, IfErr, OnOk, IsErrOf};
ghost use Rattle.std.specs.Option.{ForSome};
ghost use Rattle.rg_bytes.specs.Counts.{Rose};
ghost use Rattle.rg_bytes.specs.Known.{IsAtEnd};
ghost use Rattle.rg_host.specs.Image.{Image};
ghost use Rattle.rg_event.specs.declared.event.Event.{Event};
ghost use Rattle.rg_event.specs.Rising.{next_offset};
ghost use Rattle.rg_config.specs.Plans.{planned};
ghost use Rattle.rg_config.specs.Read.{IsReadPlan};
ghost use Rattle.rg_reservoir.specs.Attached.{IsForeign, IsBadFrame, IsIllegalOpened};
ghost use Rattle.rg_open.specs.Blame.{IsBlamed};
ghost use Rattle.rg_open.specs.Opening.{IsOpenable};
ghost use Rattle.rg_open.specs.Stores.{Has};
ghost use Rattle.rg_open.specs.Unfit.{IsUnfit, IsLeftAlone};
ghost use Rattle.rg_open.specs.Within.{IsWithinOpening};
ghost use Rattle.rg_recover.specs.Answered.{HoldsLog};
ghost use Rattle.rg_recover.specs.Ready.{IsReadyRun, IsReadyStore, begun_by};
ghost use Rattle.rg_recover.specs.RunFaults.{SaysWhy, IsGapOrFailed};
ghost use Rattle.rg_run.specs.Answered.{IsFresh};
ghost use Rattle.rg_run.specs.Reading.{IsLonger, IsWithinLimit};
ghost use Rattle.rg_recover.specs.Runs.{IsWholeRun};
ghost use Rattle.rg_recover.specs.Ran.{Ran};

use crate::live::Live;
use crate::opening::open_session;
use rg_config::Plan;
use rg_event::Steps;
use rg_host::{Host, Lines, Source};
use rg_run::RunFault;
use std::alloc::Global;
use std::sync::ledger::Ledger;

/// Answers the lines of an input by a plan, over the store on a host. The first line has the offset
/// `first`; it must be at most the store's next one, or nothing is read, stored or put. Each refusal but
/// `Write` leaves whole lines put.
pub fn run<I: Source, H: Host, L: Ledger>(
    alloc: Global,
    plan: &Plan,
    first: u64,
    input: &mut I,
    host: &mut H,
    steps: &mut Steps<L>,
) -> Result<(), RunFault>
    requires read { IsReadPlan plan.now }
    requires first { first ≤ 2 ^ 61 }

    // Over a store whose images are truthful, and an input that tells its bytes.
    ensures ran { (ready : IsReadyRun (planned plan.now) (H.now host.old) (H.may host.old) (H.said host.old)) (all : List ℕ) → I.left input.old ≡ Some all →
        (from : ℕ) × Ran H.may H.clock H.since H.said (planned plan.now) (begun_by ready from first all) ready.openable.image (I.left input.new) result host.old host.new }

    // Over such a store, whatever input and output tell: where its first line is behind the store's next offset, nothing is read or put.
    ensures behind { (store : IsReadyStore (planned plan.now) (H.now host.old) (H.may host.old)) (keep : Option ℕ) → next_offset store.held < first →
        (input.new ≡ input.old) × IsWithinOpening H.may H.clock H.since H.said (planned plan.now) keep store.openable.image host.old host.new × IfErr result IsGapOrFailed }

    // It is never refused for a bad state, for damage or for another schema.
    ensures never_bad { IsOpenable (planned plan.now) (H.now host.old) (H.may host.old) → (n : ℕ) → IsErrOf result (RunFault.BadState n) → ⊥ }
    ensures never_damaged { IsOpenable (planned plan.now) (H.now host.old) (H.may host.old) → (p : ℕ) → IsErrOf result (RunFault.Damaged p) → ⊥ }
    ensures never_differs { IsOpenable (planned plan.now) (H.now host.old) (H.may host.old) → IsErrOf result RunFault.SchemaDiffers → ⊥ }

    // Over a legal log, whatever the slots hold: each image of a moment, and each that is left, might have been left at the start or has
    // the log's events, and maybe more behind them.
    ensures log_stays { (v : Image) (events : List Event) → H.now host.old ≡ Some v → Has (planned plan.now) events v →
        HoldsLog H.may H.clock H.since (planned plan.now) events host.old host.new }

    // Over an image that isn't fit for the plan it is refused for that, and the input, the files and the output are left alone.
    ensures unfit { (v : Image) → H.now host.old ≡ Some v → IsUnfit (planned plan.now) v →
        (input.new ≡ input.old) × IsLeftAlone H.now H.may H.clock H.since H.said v host.old host.new × IfErr result (SaysWhy (planned plan.now) v) }

    // Each refusal has its cause.
    ensures gap { (n : ℕ) → IsErrOf result (RunFault.Gap n) → n < first }

    // Over any log that is legal: its first line is at most the next offset, which a gap tells.
    ensures gap_next { (v : Image) (events : List Event) (n : ℕ) → H.now host.old ≡ Some v → Has (planned plan.now) events v → IsErrOf result (RunFault.Gap n) → n ≡ next_offset events }
    ensures no_gap { (v : Image) (events : List Event) → H.now host.old ≡ Some v → Has (planned plan.now) events v → OnOk result (first ≤ next_offset events) }
    ensures differs { IsErrOf result RunFault.SchemaDiffers → ForSome (H.now host.old) (λ v. IsForeign plan.now.schema plan.now.defaults (v 2)) }
    ensures damaged { (p : ℕ) → IsErrOf result (RunFault.Damaged p) →
        ForSome (H.now host.old) (λ v. IsBadFrame p (v 2)) ⊎ ForSome (H.now host.old) (λ u. ForSome (H.now host.new) (λ v. IsIllegalOpened plan.now.schema plan.now.defaults (u 2) p (v 2))) }
    ensures exact { (v : Image) → H.now host.old ≡ Some v → IsForeign plan.now.schema plan.now.defaults (v 2) ⊎ ((p : ℕ) × IsBadFrame p (v 2)) → OnOk result ⊥ }
    ensures bad { (v : Image) (events : List Event) (n : ℕ) → H.now host.old ≡ Some v → Has (planned plan.now) events v →
        IsErrOf result (RunFault.BadState n) → IsBlamed (planned plan.now) v events n }
    ensures undamaged { (v : Image) (events : List Event) (p : ℕ) → H.now host.old ≡ Some v → Has (planned plan.now) events v → IsErrOf result (RunFault.Damaged p) → ⊥ }

    // At Ok the input was read to its end, and is within its limit.
    ensures at_end { OnOk result (IsAtEnd (I.left input.new)) }
    ensures within { OnOk result (IsWithinLimit (2 ^ 50) (I.left input.old)) }

    // Each fault has its cause.
    ensures read { IsErrOf result RunFault.Read → Rose (I.faults input.old) (I.faults input.new) }
    ensures limit { IsErrOf result RunFault.Limit → IsLonger (2 ^ 50) (I.left input.old) }
    ensures write { IsErrOf result RunFault.Write → Rose (H.out_faults host.old) (H.out_faults host.new) }
    ensures disk { IsErrOf result RunFault.Disk → Rose (H.disk_faults host.old) (H.disk_faults host.new) }

    // The store is opened before the input is read.
    ensures store_first { IsErrOf result RunFault.SchemaDiffers → input.new ≡ input.old }
    ensures gap_first { (n : ℕ) → IsErrOf result (RunFault.Gap n) → input.new ≡ input.old }

    ensures later { I.faults input.old ≤ I.faults input.new }
    ensures disk_faults { H.disk_faults host.old ≤ H.disk_faults host.new }
    ensures out_faults { H.out_faults host.old ≤ H.out_faults host.new }
{
    let mut lines = match Lines::new(alloc) {
        Ok(lines) => lines,
        Err(_) => return Err(RunFault::Memory),
    };
    let ran = run_lines(alloc, &mut lines, plan, first, input, host, steps);
    drop(lines);
    ran
}

/// A run that has its buffer: opens the store, puts the open line and answers all lines of the input. The
/// first line must be at most the store's next one, or nothing is read or put.
fn run_lines<I: Source, H: Host, L: Ledger>(
    alloc: Global,
    lines: &mut Lines,
    plan: &Plan,
    first: u64,
    input: &mut I,
    host: &mut H,
    steps: &mut Steps<L>,
) -> Result<(), RunFault>
    requires read { IsReadPlan plan.now }
    requires first { first ≤ 2 ^ 61 }
    requires fresh { IsFresh lines.old }
    ensures whole { IsWholeRun H.now H.may H.clock H.since H.said H.disk_faults H.out_faults I.left I.faults (planned plan.now) first result input.old input.new host.old host.new }
{
    let (mut session, resumed) = match open_session(alloc, host, plan, steps) {
        Ok(opened) => opened,
        Err(fault) => return Err(fault),
    };
    let mut live = Live::new(&mut session, host, steps);
    let ran = rg_run::run(alloc, lines, plan, resumed.from, first, input, &mut live);
    drop(session);
    ran
}
