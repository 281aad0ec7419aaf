ghost use Rattle.std.specs.Prelude.{◌≡◌, [], ◌∷◌, ◌++◌, OnOk, OnErr, IfOk};
ghost use Rattle.rg_event.specs.Order.{complement_cmp};
ghost use Rattle.rg_event.specs.Tagged.{value_kind, IsStorable};

use crate::tagged::tag;
use crate::word::Word;
use rg_bytes::Memory;
use std::alloc::Global;
use std::cmp::Ordering;
use std::marker::Model;

/// What the values of a column are.
#[derive(Clone, Copy, Debug, PartialEq, Eq, Hash)]
pub enum Kind {
    /// A whole number from -10^12 to 10^12, as an amount in the smallest unit.
    Int,
    /// A number below 2^64.
    Id,
    /// UTF-8 of at most 255 bytes.
    Text,
    /// True or false.
    Flag,
}

/// The value of a column in one event.
#[derive(Debug, PartialEq, Eq, Drop)]
pub enum Value {
    Int(i64),
    Id(u64),
    Text(Word),
    Flag(bool),
}

/// Values go by their tagged bytes: ints, ids, texts, flags, of which an int below 0 comes behind the others,
/// and a shorter text before a longer one.
impl PartialOrd for Value {
    ghost use Rattle.std.specs.Cmp.{partial_order_from_own_ties, partial_order_from_total};
    ghost use Rattle.std.specs.Ordering.{as_partial_cmp};
    ghost use Rattle.std.specs.Prelude.{refl};
    ghost use Rattle.rg_event.specs.Order.{value_cmp};
    ghost use Rattle.rg_event.specs.OrderLaws.{value_total, ties_of};

    ghost partial_cmp = { as_partial_cmp value_cmp };

    ghost laws = { partial_order_from_own_ties (partial_order_from_total value_total) (ties_of _ (λ _ _. refl) (λ _ _. refl) (λ _ _. refl) (λ _ _. refl) (λ _ _. refl) (λ _ _. refl) (λ _ _. refl) (λ _ _. refl) (λ _ _. refl) (λ _ _. refl) (λ _ _. refl) (λ _ _. refl) (λ _ _. refl) (λ _ _. refl) (λ _ _. refl) (λ _ _. refl)) };

    fn partial_cmp(&self, other: &Value) -> Option<Ordering> {
        Some(self.cmp(other))
    }
}

impl Ord for Value {
    ghost use Rattle.std.specs.Prelude.{refl};
    ghost use Rattle.rg_event.specs.Order.{value_cmp};
    ghost use Rattle.rg_event.specs.OrderLaws.{value_total, ties_of};

    ghost cmp = { value_cmp };

    ghost total = { value_total };

    ghost matches_partial_cmp = { λ _ _. refl };

    ghost matches_eq = { ties_of _ (λ _ _. refl) (λ _ _. refl) (λ _ _. refl) (λ _ _. refl) (λ _ _. refl) (λ _ _. refl) (λ _ _. refl) (λ _ _. refl) (λ _ _. refl) (λ _ _. refl) (λ _ _. refl) (λ _ _. refl) (λ _ _. refl) (λ _ _. refl) (λ _ _. refl) (λ _ _. refl) };

    fn cmp(&self, other: &Value) -> Ordering {
        match (self, other) {
            (Value::Int(first), Value::Int(second)) => compare_ints(*first, *second),
            (Value::Id(first), Value::Id(second)) => first.cmp(second),
            (Value::Text(first), Value::Text(second)) => first.cmp(second),
            (Value::Flag(first), Value::Flag(second)) => first.cmp(second),
            _ => tag(self.kind()).cmp(&tag(other.kind())),
        }
    }
}

/// The order of their bytes in two's complement: an int below 0 comes behind the others.
#[tactic(auto, using(crate::specs::OrderLaws::below_zero))]
fn compare_ints(first: i64, second: i64) -> Ordering
    ensures { result ≡ complement_cmp first second }
{
    (first < 0).cmp(&(second < 0)).then(first.cmp(&second))
}

impl Value {
    /// What kind of value it is. To know the range of what it holds, a caller asks here.
    pub fn kind(&self) -> Kind
        ensures kind { result ≡ value_kind self.now }
        ensures storable { IsStorable self.now }
    {
        match self {
            Value::Int(number) => {
                let _number = *number;
                Kind::Int
            }
            Value::Id(number) => {
                let _number = *number;
                Kind::Id
            }
            Value::Text(word) => {
                let _text = word.as_bytes();
                Kind::Text
            }
            Value::Flag(_) => Kind::Flag,
        }
    }

    /// A value of the same kind, and equal.
    pub fn copy(&self, alloc: Global) -> Result<Value, Memory>
        ensures { IfOk result (λ value. value ≡ self.now) }
    {
        match self {
            Value::Int(number) => Ok(Value::Int(*number)),
            Value::Id(number) => Ok(Value::Id(*number)),
            Value::Text(word) => Ok(Value::Text(word.copy(alloc)?)),
            Value::Flag(flag) => Ok(Value::Flag(*flag)),
        }
    }
}

/// A list of values.
#[derive(Debug, Drop)]
pub struct Values {
    list: Vec<Value>,
}

impl Model for Values {
    ghost use Rattle.std.specs.Prelude.{List};
    ghost use Rattle.rg_event.specs.declared.value.Value.{Value as TheValue};

    ghost Value = { List TheValue };

    ghost view = { λ v. v.list.items };
}

impl From<Vec<Value>> for Values {
    ghost use Rattle.std.specs.Prelude.{◌≡◌};

    ghost from_gives = { λ list values. values ≡ list.items };

    fn from(list: Vec<Value>) -> Values {
        Values { list }
    }
}

impl Values {
    /// No values.
    pub fn new(alloc: Global) -> Values
        ensures { result ≡ [] }
    {
        Values {
            list: Vec::new(alloc),
        }
    }

    /// No values, and room for this many: so many are pushed without taking memory again.
    pub fn with_capacity(alloc: Global, count: usize) -> Result<Values, Memory>
        ensures { IfOk result (λ values. values ≡ []) }
    {
        let list = Vec::with_capacity(alloc, count)?;
        Ok(Values { list })
    }

    /// Adds a value at the end.
    pub fn push(&mut self, value: Value) -> Result<(), Memory>
        ensures ok { OnOk result (self.new ≡ self.old ++ value ∷ []) }
        ensures err { OnErr result (self.new ≡ self.old) }
    {
        if self.list.len() < self.list.capacity() {
            self.list.push_reserved(value);
            return Ok(());
        }
        self.push_growing(value)
    }

    /// Adds a value at the end of a list that may be full.
    #[cold]
    #[inline(never)]
    fn push_growing(&mut self, value: Value) -> Result<(), Memory>
        ensures ok { OnOk result (self.new ≡ self.old ++ value ∷ []) }
        ensures err { OnErr result (self.new ≡ self.old) }
    {
        self.list.push(value)?;
        Ok(())
    }

    /// An equal list.
    pub fn copy(&self, alloc: Global) -> Result<Values, Memory>
        ensures { IfOk result (λ values. values ≡ self.now) }
    {
        let mut list = Vec::with_capacity(alloc, self.list.len())?;
        for value in &self.list {
            list.push(value.copy(alloc)?)?;
        }
        Ok(Values { list })
    }

    pub fn as_slice(&self) -> &[Value]
        ensures { result.now ≡ self.now }
    {
        &self.list
    }

    /// The list alone. It takes no memory.
    pub fn into_vec(self) -> Vec<Value>
        ensures { result.items ≡ self }
    {
        self.list
    }
}
