ghost use Rattle.std.specs.Prelude.{◌≡◌, ◌≤◌, unsigned_abs, IfSome, IsSome, IsNone};
ghost use Rattle.rg_agg.specs.Stands.{IsInt};
ghost use Rattle.rg_metric.specs.Answers.{number_of};

use rg_event::{MAX_INT, Value};

/// The number of an int from -10^12 to 10^12; none for another value.
pub(crate) fn amount(value: &Value) -> Option<i128>
    ensures number { IfSome result (λ number. number ≡ number_of value.now) }
    ensures small { IfSome result (λ number. unsigned_abs number ≤ 1000000000000) }
    ensures some { IsSome result → IsInt value.now }
    ensures none { IsNone result → IsInt value.now → ⊥ }
{
    match value {
        Value::Int(number) => {
            if number.unsigned_abs() <= MAX_INT {
                Some(*number as i128)
            } else {
                None
            }
        }
        _ => None,
    }
}
