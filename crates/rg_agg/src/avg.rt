use crate::aggregate::Aggregate;
use crate::amount::amount;
use crate::fault::{StateFault, Unfit};
use crate::total::Total;
use crate::wide::Wide;
use rg_bytes::{ByteReader, Memory};
use rg_event::{Kind, Value};
use rg_metric::Answer;
use std::alloc::Global;

/// The byte in front of a mean.
const TAG: u8 = 3;

/// The mean of ints, as their sum and how many there are.
#[derive(Debug, Drop)]
pub struct Avg {
    total: Total,
}

impl Aggregate for Avg {
    ghost use Rattle.std.specs.Prelude.{refl};
    ghost use Rattle.rg_agg.specs.Held.{averaged, averaged_at};
    ghost use Rattle.rg_keywords.specs.declared.func.Func.TheVariants.{Avg as AvgFunc};

    ghost func = { AvgFunc };

    ghost grows = { λ _ _. ⊥ };

    ghost held = { λ state. averaged state.total.count state.total.sum };

    ghost held_at = { averaged_at };

    fn empty(_alloc: Global) -> Avg {
        Avg {
            total: Total::new(),
        }
    }

    fn copy(&self, _alloc: Global) -> Result<Avg, Memory> {
        Ok(Avg {
            total: self.total.copy(),
        })
    }

    fn is_empty(&self) -> bool {
        self.total.count == 0
    }

    fn size(&self) -> u64 {
        self.total.count
    }

    fn kind(&self) -> Option<Kind> {
        None
    }

    fn answer(&self) -> Answer {
        if self.total.count == 0 {
            return Answer::Dash;
        }
        Answer::Ratio(self.total.sum.get(), self.total.count)
    }

    #[tactic(auto, using(crate::proofs::Admitted::int_admitted))]
    fn add(&mut self, value: &Value) -> Result<(), Memory> {
        match amount(value) {
            Some(number) => {
                self.total = Total {
                    count: self.total.count + 1,
                    sum: Wide::new(self.total.sum.get() + number),
                };
                Ok(())
            }
            None => unreachable!(),
        }
    }

    fn remove(&mut self, value: &Value) -> Result<(), Unfit> {
        self.total.remove(value)
    }

    fn encode(&self, out: &mut Vec<u8>) -> Result<(), Memory> {
        self.total.put(TAG, out)
    }

    fn decode(_alloc: Global, from: &mut ByteReader<'_>) -> Result<Avg, StateFault> {
        // All that is left, so that a refusal can put it back.
        let bytes = from.bytes(from.left())?;
        let mut left = ByteReader::new(bytes);
        match Total::read(TAG, &mut left) {
            Ok(total) => {
                *from = left;
                Ok(Avg { total })
            }
            Err(fault) => {
                *from = ByteReader::new(bytes);
                Err(fault)
            }
        }
    }

    ghost of_func = { λ _. refl };
}
