use crate::ranked::Ranked;
use rg_agg::StateFault;
use rg_bytes::{ByteReader, Memory};
use rg_event::{Kind, Value, get_tagged, put_tagged};
use std::alloc::Global;

/// Values of each kind are kept as their tagged bytes rise.
impl Ranked for Value {
    ghost use Rattle.rg_event.specs.Tagged.{IsLegal};
    ghost use Rattle.rg_multiset.specs.Reading.{is_before, any_value_at};
    ghost use Rattle.rg_multiset.specs.ValueLaws.{value_tells, value_orders, value_reads_back};

    ghost value_of = { λ value. value };

    ghost legal = { IsLegal };

    ghost below = { is_before };

    ghost value_at = { any_value_at };

    fn kind(&self) -> Kind {
        Value::kind(self)
    }

    fn copy(&self, alloc: Global) -> Result<Value, Memory> {
        Value::copy(self, alloc)
    }

    fn put(&self, out: &mut Vec<u8>) -> Result<(), Memory> {
        put_tagged(self, out)
    }

    fn read(alloc: Global, from: &mut ByteReader<'_>) -> Result<Value, StateFault> {
        Ok(get_tagged(alloc, from)?)
    }

    ghost tells = { value_tells };

    ghost orders = { value_orders };

    ghost reads_back = { value_reads_back };
}
