ghost use Rattle.std.specs.Prelude.{◌≡◌};
ghost use Rattle.rg_metric.specs.Conditions.{asks, asks_flags, compares};

use rg_event::Value;
use rg_metric::Op;
use std::cmp::Ordering;

/// Whether two values stand to each other as the sign asks. Values of two kinds don't.
pub(crate) fn compare(op: Op, value: &Value, literal: &Value) -> bool
    ensures { result ≡ compares op value.now literal.now }
{
    match (value, literal) {
        (Value::Int(x), Value::Int(y)) => is_asked(op, x.cmp(y)),
        (Value::Id(x), Value::Id(y)) => is_asked(op, x.cmp(y)),
        (Value::Text(x), Value::Text(y)) => is_asked(op, x.as_bytes().cmp(y.as_bytes())),
        (Value::Flag(x), Value::Flag(y)) => is_asked_of_flags(op, *x, *y),
        _ => false,
    }
}

/// Whether the sign asks for this order.
fn is_asked(op: Op, order: Ordering) -> bool
    ensures { result ≡ asks op order }
{
    match op {
        Op::Eq => order.is_eq(),
        Op::Ne => order.is_ne(),
        Op::Lt => order.is_lt(),
        Op::Le => order.is_le(),
        Op::Gt => order.is_gt(),
        Op::Ge => order.is_ge(),
    }
}

/// Flags are equal or not, and have no order.
fn is_asked_of_flags(op: Op, x: bool, y: bool) -> bool
    ensures { result ≡ asks_flags op x y }
{
    match op {
        Op::Eq => x == y,
        Op::Ne => x != y,
        Op::Lt | Op::Le | Op::Gt | Op::Ge => false,
    }
}
