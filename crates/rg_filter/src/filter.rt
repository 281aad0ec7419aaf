ghost use Rattle.std.specs.Prelude.{◌≡◌, ◌+◌};
ghost use Rattle.std.specs.Option.{option_copied};
ghost use Rattle.rg_metric.specs.Conditions.{test_of, holds, passes as passes_test};
ghost use Rattle.rg_metric.specs.Queries.{filter_test};

use crate::compare::compare;
use rg_event::{Event, Steps};
use rg_metric::{Condition, column_value};
use std::marker::Model;
use std::sync::ledger::Ledger;

/// Lets events through of which its condition holds, or all of them.
#[derive(Debug, Drop)]
pub struct Filter {
    condition: Option<Condition>,
}

impl Model for Filter {
    ghost use Rattle.std.specs.Prelude.{Option};
    ghost use Rattle.std.specs.Coded.{coded_option};
    ghost use Rattle.rg_metric.specs.Conditions.{Test};
    ghost use Rattle.rg_metric.specs.TestCodes.{test_code};
    ghost use Rattle.rg_metric.specs.Queries.{filter_test};

    ghost Value = { Option Test };

    ghost coded = { coded_option test_code };

    ghost view = { λ f. filter_test f.condition };
}

impl Filter {
    /// The filter by this condition; without one every event passes.
    pub fn new(condition: Option<Condition>) -> Filter
        ensures { result ≡ filter_test condition }
    {
        Filter { condition }
    }

    /// Its condition, where it has one.
    pub fn condition(&self) -> Option<&Condition>
        ensures { filter_test (option_copied result) ≡ self.now }
    {
        self.condition.as_ref()
    }

    /// Whether the event passes, in one step and without memory. A comparison with a column that the
    /// event lacks, with a literal of another kind, or of order between flags doesn't hold.
    pub fn holds<L: Ledger>(&self, event: &Event, steps: &mut Steps<L>) -> bool
        // An event passes exactly where the condition holds of it.
        ensures value { result ≡ passes_test self.now event.now }

        // It counts one step.
        ensures tick { steps.new ≡ steps.old + 1 }
    {
        steps.tick();
        passes(&self.condition, event)
    }
}

/// Whether an event passes a condition; each one does where there is none. A comparison with a column that
/// the event lacks, with a literal of another kind, or of order between flags doesn't hold.
pub fn passes(condition: &Option<Condition>, event: &Event) -> bool
    ensures { result ≡ passes_test (filter_test condition.now) event.now }
{
    match condition {
        None => true,
        Some(condition) => condition_holds(condition, event),
    }
}

/// Whether the condition holds of the event. It calls itself as deep as the condition nests.
fn condition_holds(condition: &Condition, event: &Event) -> bool
    ensures { result ≡ holds (test_of condition.now) event.now }
{
    match condition {
        Condition::Compare(column, op, literal) => match column_value(event, *column) {
            None => false,
            Some(value) => compare(*op, value, literal),
        },
        Condition::Not(inner) => !condition_holds(inner, event),
        Condition::And(left, right) => {
            condition_holds(left, event) && condition_holds(right, event)
        }
        Condition::Or(left, right) => {
            condition_holds(left, event) || condition_holds(right, event)
        }
    }
}
