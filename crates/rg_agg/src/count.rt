ghost use Rattle.std.specs.Prelude.{◌≤◌, ◌^◌};

use crate::aggregate::Aggregate;
use crate::fault::{StateFault, Unfit};
use crate::reading::{put_size, read_size};
use rg_bytes::{ByteReader, Memory};
use rg_event::{Kind, Value};
use rg_metric::Answer;
use std::alloc::Global;

/// The byte in front of a count.
const TAG: u8 = 1;

/// How many values there are.
#[derive(Debug, Drop)]
pub struct Count {
    count: u64,
    ghost few: { count ≤ 2 ^ 40 },
}

impl Aggregate for Count {
    ghost use Rattle.std.specs.Prelude.{refl};
    ghost use Rattle.rg_agg.specs.Held.{counted, counted_at};
    ghost use Rattle.rg_keywords.specs.declared.func.Func.TheVariants.{Count as CountFunc};

    ghost func = { CountFunc };

    ghost grows = { λ _ _. ⊥ };

    ghost held = { λ state. counted state.count };

    ghost held_at = { counted_at };

    fn empty(_alloc: Global) -> Count {
        Count { count: 0 }
    }

    fn copy(&self, _alloc: Global) -> Result<Count, Memory> {
        Ok(Count { count: self.count })
    }

    fn is_empty(&self) -> bool {
        self.count == 0
    }

    fn size(&self) -> u64 {
        self.count
    }

    fn kind(&self) -> Option<Kind> {
        None
    }

    fn answer(&self) -> Answer {
        Answer::Number(i128::from(self.count))
    }

    fn add(&mut self, _value: &Value) -> Result<(), Memory> {
        self.count += 1;
        Ok(())
    }

    fn remove(&mut self, _value: &Value) -> Result<(), Unfit> {
        if self.count == 0 {
            return Err(Unfit);
        }
        self.count -= 1;
        Ok(())
    }

    fn encode(&self, out: &mut Vec<u8>) -> Result<(), Memory> {
        let start = out.len();
        match put_size(TAG, self.count, out) {
            Ok(()) => Ok(()),
            Err(memory) => {
                out.truncate(start);
                Err(memory)
            }
        }
    }

    fn decode(_alloc: Global, from: &mut ByteReader<'_>) -> Result<Count, StateFault> {
        // All that is left, so that a refusal can put it back.
        let bytes = from.bytes(from.left())?;
        let mut left = ByteReader::new(bytes);
        match read_size(TAG, &mut left) {
            Ok(count) => {
                *from = left;
                Ok(Count { count })
            }
            Err(fault) => {
                *from = ByteReader::new(bytes);
                Err(fault)
            }
        }
    }

    ghost of_func = { λ _. refl };
}
