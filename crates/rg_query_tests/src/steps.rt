ghost use Rattle.std.specs.Prelude.{◌≡◌, ◌+◌, ◌<◌};

use rg_event::Steps;
use std::marker::Brand;
use std::sync::ledger::{Blank, Ledger};

/// What is counted takes any ledger.
fn two_steps<L: Ledger>(steps: &mut Steps<L>)
    ensures { steps.new ≡ steps.old + 2 }
{
    steps.tick();
    steps.tick();
}

/// Counts from none, and says the count.
fn four_steps<L: Ledger>(blank: Blank) -> Steps<L>
    requires named { blank.name ≡ L.name }
    requires parts { blank.parts ≡ L.parts }
    requires whole { 0 < blank.parts }
    ensures { result ≡ 4 }
{
    let mut steps = Steps::<L>::new(blank);
    two_steps(&mut steps);
    two_steps(&mut steps);
    steps
}

/// Is not interested in the count.
fn uncounted<L: Ledger>(blank: Blank) -> bool
    requires named { blank.name ≡ L.name }
    requires parts { blank.parts ≡ L.parts }
    requires whole { 0 < blank.parts }
{
    let mut steps = four_steps::<L>(blank);
    two_steps(&mut steps);
    true
}

#[test]
fn a_caller_picks_a_ledger_of_its_own(rt: HostRuntime) {
    assert!(rt; uncounted::<Brand>(Blank::new(1)));
}
