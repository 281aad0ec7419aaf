ghost use Rattle.std.specs.Prelude.{◌≡◌, true, false, IsTrue};
ghost use Rattle.rg_event.specs.Tagged.{IsLegal};
ghost use Rattle.rg_metric.specs.Admitted.{IsAdmitted, takes as takes_test};

use rg_event::{Kind, MAX_INT, Value};
use rg_keywords::Func;

/// Whether a function takes columns of this kind. Events are counted, and no column.
pub fn takes(func: Func, kind: Kind) -> bool
    ensures { result ≡ takes_test func kind }
{
    match func {
        Func::Count => false,
        Func::Sum | Func::Avg | Func::SumSq => kind == Kind::Int,
        Func::Min | Func::Max | Func::First | Func::Last | Func::Median | Func::Pct(_) => {
            kind == Kind::Int || kind == Kind::Id
        }
        Func::CountDistinct => true,
    }
}

/// Whether a function may be given a value: each one where events are counted, else one in the range
/// of its kind, where the function takes columns of that.
pub fn is_admitted(func: Func, value: &Value) -> bool
    ensures admitted { IsTrue result → IsAdmitted func value.now }
    ensures refused { result ≡ false → IsAdmitted func value.now → ⊥ }
{
    if func == Func::Count {
        return true;
    }
    takes(func, value.kind()) && is_legal(value)
}

/// Whether a value is in the range of its kind.
fn is_legal(value: &Value) -> bool
    ensures legal { IsTrue result → IsLegal value.now }
    ensures other { result ≡ false → IsLegal value.now → ⊥ }
{
    match value {
        Value::Int(number) => number.unsigned_abs() <= MAX_INT,
        Value::Id(number) => {
            // a number that is read is one of 64 bits
            let _number = *number;
            true
        }
        Value::Text(word) => {
            // a text that is read is a legal one
            let _text = word.as_bytes();
            true
        }
        Value::Flag(_) => true,
    }
}
