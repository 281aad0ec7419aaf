ghost use Rattle.std.specs.Prelude.{◌≡◌, IfSome, IsNone};
ghost use Rattle.rg_agg.specs.Held.{is_like};
ghost use Rattle.rg_agg.specs.Numbers.{value_of};
ghost use Rattle.rg_agg.specs.Stands.{IsNumber};
ghost use Rattle.rg_event.specs.Tagged.{value_kind};
ghost use Rattle.rg_metric.specs.Answers.{number_of};
ghost use Rattle.rg_metric.specs.Same.{same_value};

use rg_event::{Kind, MAX_INT, Value};

/// A value that is an int or an id. Those of one kind are ordered as numbers.
#[derive(Clone, Copy, Debug, PartialEq, Eq, PartialOrd, Ord)]
pub enum Number {
    Int(i64),
    Id(u64),
}

impl Number {
    /// The int from -10^12 to 10^12, or the id, that a value is; none for another value.
    pub fn of(value: &Value) -> Option<Number>
        ensures same { IfSome result (λ number. value_of number ≡ value.now) }
        ensures legal { IfSome result (λ number. IsNumber (value_of number)) }
        ensures none { IsNone result → IsNumber value.now → ⊥ }
    {
        match value {
            Value::Int(number) => {
                if number.unsigned_abs() <= MAX_INT {
                    Some(Number::Int(*number))
                } else {
                    None
                }
            }
            Value::Id(number) => Some(Number::Id(*number)),
            _ => None,
        }
    }

    /// The value that it is.
    pub fn value(self) -> Value
        ensures { result ≡ value_of self }
    {
        match self {
            Number::Int(number) => Value::Int(number),
            Number::Id(number) => Value::Id(number),
        }
    }

    /// The number itself.
    pub fn amount(self) -> i128
        ensures { result ≡ number_of (value_of self) }
    {
        match self {
            Number::Int(number) => number as i128,
            Number::Id(number) => number as i128,
        }
    }

    /// Whether it is an int or an id.
    pub fn kind(self) -> Kind
        ensures { result ≡ value_kind (value_of self) }
    {
        match self {
            Number::Int(_) => Kind::Int,
            Number::Id(_) => Kind::Id,
        }
    }

    /// Whether both are ints or both are ids.
    pub fn is_like(self, other: Number) -> bool
        ensures { result ≡ is_like (value_of self) (value_of other) }
    {
        match (self, other) {
            (Number::Int(_), Number::Int(_)) => true,
            (Number::Id(_), Number::Id(_)) => true,
            _ => false,
        }
    }

    /// Whether they are the same value.
    pub fn is_same(self, other: Number) -> bool
        ensures { result ≡ same_value (value_of self) (value_of other) }
    {
        match (self, other) {
            (Number::Int(first), Number::Int(second)) => first == second,
            (Number::Id(first), Number::Id(second)) => first == second,
            _ => false,
        }
    }
}
