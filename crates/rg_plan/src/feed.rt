ghost use Rattle.std.specs.Prelude.{◌≡◌, fold};
ghost use Rattle.rg_metric.specs.Conditions.{test_of};
ghost use Rattle.rg_metric.specs.Queries.{filter_test};
ghost use Rattle.rg_plan.specs.Fed.{value_fed, test_fed, condition_fed};

use rg_event::Value;
use rg_metric::Condition;
use std::hash::{Hash, Hasher};

/// Feeds a condition to a hasher, or that there is none.
pub(crate) fn feed_condition<H: Hasher>(condition: &Option<Condition>, state: &mut H)
    ensures { state.new ≡ fold H.write state.old (condition_fed (filter_test condition.now)) }
{
    match condition {
        None => state.write_u8(0),
        Some(condition) => feed_test(condition, state),
    }
}

fn feed_test<H: Hasher>(condition: &Condition, state: &mut H)
    ensures { state.new ≡ fold H.write state.old (test_fed (test_of condition.now)) }
{
    match condition {
        Condition::Compare(column, _, value) => {
            state.write_u8(1);
            state.write_u32(*column);
            feed_value(value, state);
        }
        Condition::Not(condition) => {
            state.write_u8(2);
            feed_test(condition, state);
        }
        Condition::And(left, right) => {
            state.write_u8(3);
            feed_test(left, state);
            feed_test(right, state);
        }
        Condition::Or(left, right) => {
            state.write_u8(4);
            feed_test(left, state);
            feed_test(right, state);
        }
    }
}

fn feed_value<H: Hasher>(value: &Value, state: &mut H)
    ensures { state.new ≡ fold H.write state.old (value_fed value.now) }
{
    match value {
        Value::Int(number) => number.hash(state),
        Value::Id(number) => number.hash(state),
        Value::Text(text) => text.as_bytes().hash(state),
        Value::Flag(flag) => flag.hash(state),
    }
}
