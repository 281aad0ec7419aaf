ghost use Rattle.std.specs.Prelude.{◌≡◌, IfOk};
ghost use Rattle.rg_metric.specs.Conditions.{test_of};

use rg_bytes::Memory;
use rg_event::Value;
use rg_keywords::Op;
use std::alloc::Global;

/// A condition on an event.
#[derive(Debug, Drop)]
pub enum Condition {
    /// The value of a column, counted from 1, compared with a literal.
    Compare(u32, Op, Value),
    Not(Box<Condition>),
    And(Box<Condition>, Box<Condition>),
    Or(Box<Condition>, Box<Condition>),
}

impl Condition {
    /// An equal condition.
    pub fn copy(&self, alloc: Global) -> Result<Condition, Memory>
        // A copy asks the same.
        ensures { IfOk result (λ copy. test_of copy ≡ test_of self.now) }
    {
        match self {
            Condition::Compare(column, op, value) => {
                Ok(Condition::Compare(*column, *op, value.copy(alloc)?))
            }
            Condition::Not(inner) => {
                let inner = inner.copy(alloc)?;
                Ok(Condition::Not(Box::new(alloc, inner)?))
            }
            Condition::And(left, right) => {
                let left = left.copy(alloc)?;
                let right = right.copy(alloc)?;
                Ok(Condition::And(Box::new(alloc, left)?, Box::new(alloc, right)?))
            }
            Condition::Or(left, right) => {
                let left = left.copy(alloc)?;
                let right = right.copy(alloc)?;
                Ok(Condition::Or(Box::new(alloc, left)?, Box::new(alloc, right)?))
            }
        }
    }
}
