ghost use Rattle.std.specs.Prelude.{◌≡◌};
ghost use Rattle.rg_metric.specs.Conditions.{test_of};
ghost use Rattle.rg_metric.specs.Queries.{filter_test};
ghost use Rattle.rg_metric.specs.Same.{same_value};
ghost use Rattle.rg_plan.specs.Same.{same_op, same_test, same_condition};

use rg_event::Value;
use rg_metric::{Condition, Op};

/// Whether both have no condition, or equal ones.
pub(crate) fn is_same_condition(a: &Option<Condition>, b: &Option<Condition>) -> bool
    ensures { result ≡ same_condition (filter_test a.now) (filter_test b.now) }
{
    match (a, b) {
        (None, None) => true,
        (Some(a), Some(b)) => is_same_test(a, b),
        _ => false,
    }
}

/// Whether two conditions are equal trees.
fn is_same_test(a: &Condition, b: &Condition) -> bool
    ensures { result ≡ same_test (test_of a.now) (test_of b.now) }
{
    match (a, b) {
        (Condition::Compare(column, op, value), Condition::Compare(other, sign, literal)) => {
            *column == *other && (is_same_op(*op, *sign) && is_same_value(value, literal))
        }
        (Condition::Not(a), Condition::Not(b)) => is_same_test(a, b),
        (Condition::And(a, b), Condition::And(c, d)) => is_same_test(a, c) && is_same_test(b, d),
        (Condition::Or(a, b), Condition::Or(c, d)) => is_same_test(a, c) && is_same_test(b, d),
        _ => false,
    }
}

fn is_same_op(a: Op, b: Op) -> bool
    ensures { result ≡ same_op a b }
{
    match (a, b) {
        (Op::Eq, Op::Eq) => true,
        (Op::Ne, Op::Ne) => true,
        (Op::Lt, Op::Lt) => true,
        (Op::Le, Op::Le) => true,
        (Op::Gt, Op::Gt) => true,
        (Op::Ge, Op::Ge) => true,
        _ => false,
    }
}

/// Whether two values are of one kind and the same.
fn is_same_value(a: &Value, b: &Value) -> bool
    ensures { result ≡ same_value a.now b.now }
{
    match (a, b) {
        (Value::Int(a), Value::Int(b)) => *a == *b,
        (Value::Id(a), Value::Id(b)) => *a == *b,
        (Value::Text(a), Value::Text(b)) => *a == *b,
        (Value::Flag(a), Value::Flag(b)) => *a == *b,
        _ => false,
    }
}
