ghost use Rattle.rg_distinct.specs.Varied.{IsTally-values};
ghost use Rattle.rg_event.specs.Tagged.{IsLegal};
ghost use Rattle.rg_multiset.specs.Pairs.{IsTally};
ghost use Rattle.rg_multiset.specs.Reading.{is_before};

use rg_agg::{Aggregate, StateFault, Unfit};
use rg_bytes::{ByteReader, Memory};
use rg_event::{Kind, Value};
use rg_metric::Answer;
use rg_multiset::Tally;
use std::alloc::Global;

/// The byte in front of a distinct count.
const TAG: u8 = 7;

/// How many values there are that differ, of any one kind. It keeps each value with how often it is there.
#[derive(Debug, Drop)]
pub struct Distinct {
    tally: Tally<Value>,
    ghost sound: { IsTally IsLegal is_before tally } by { IsTally-values tally },
}

impl Aggregate for Distinct {
    ghost use Rattle.std.specs.Prelude.{◌≡◌, refl};
    ghost use Rattle.rg_agg.specs.Standing.{count_in};
    ghost use Rattle.rg_agg.specs.Held.{varied};
    ghost use Rattle.rg_distinct.specs.Varied.{varied_at};
    ghost use Rattle.rg_keywords.specs.declared.func.Func.TheVariants.{CountDistinct};

    ghost func = { CountDistinct };

    ghost grows = { λ state value. count_in value state.tally ≡ 0 };

    ghost held = { λ state. varied state.tally };

    ghost held_at = { varied_at };

    fn empty(alloc: Global) -> Distinct {
        Distinct {
            tally: Tally::new(alloc),
        }
    }

    fn copy(&self, alloc: Global) -> Result<Distinct, Memory> {
        let tally = self.tally.copy(alloc)?;
        Ok(Distinct { tally })
    }

    fn is_empty(&self) -> bool {
        self.tally.size() == 0
    }

    fn size(&self) -> u64 {
        self.tally.size()
    }

    fn kind(&self) -> Option<Kind> {
        self.tally.kind()
    }

    fn answer(&self) -> Answer {
        Answer::Number(i128::from(self.tally.distinct()))
    }

    fn add(&mut self, value: &Value) -> Result<(), Memory> {
        self.tally.add(value)
    }

    fn remove(&mut self, value: &Value) -> Result<(), Unfit> {
        self.tally.remove(value)
    }

    fn encode(&self, out: &mut Vec<u8>) -> Result<(), Memory> {
        self.tally.put(TAG, out)
    }

    fn decode(alloc: Global, from: &mut ByteReader<'_>) -> Result<Distinct, StateFault> {
        match Tally::read(alloc, TAG, from) {
            Ok(tally) => Ok(Distinct { tally }),
            Err(fault) => Err(fault),
        }
    }

    ghost of_func = { λ _. refl };
}
