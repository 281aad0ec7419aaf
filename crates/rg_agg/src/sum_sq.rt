ghost use Rattle.std.specs.Prelude.{◌≡◌, ◌<◌, ◌≤◌, ◌^◌, ◌∷◌, ◌++◌, IfOk, ◌≤ℤ◌, ◌*ℤ◌, pos, unsigned_abs, IfSome, IsSome, IsNone, IsTrue};
ghost use Rattle.std.specs.Int.{w64, to_be_bytes};
ghost use Rattle.rg_agg.specs.Held.{is_square_sum, sum_bytes, total_at, Agrees};
ghost use Rattle.rg_agg.specs.Stands.{IsInt};
ghost use Rattle.rg_metric.specs.Answers.{number_of};

use crate::aggregate::Aggregate;
use crate::amount::amount;
use crate::fault::{StateFault, Unfit};
use crate::reading::read_size;
use crate::total::put_total;
use crate::wide::Wide;
use rg_bytes::{ByteReader, Memory};
use rg_event::{Kind, Value};
use rg_metric::Answer;
use std::alloc::Global;

/// The byte in front of a sum of squares.
const TAG: u8 = 4;

/// The square of the greatest int of a column.
const MAX_SQUARE: u128 = 1_000_000_000_000_000_000_000_000;

/// The sum of the squares of ints.
#[derive(Debug, Drop)]
pub struct SumSq {
    count: u64,
    sum: Wide,
    ghost few: { count ≤ 2 ^ 40 },
    ghost bound: { IsTrue (is_square_sum count sum) },
}

impl Aggregate for SumSq {
    ghost use Rattle.std.specs.Prelude.{refl};
    ghost use Rattle.rg_agg.specs.Held.{squared, squared_at};
    ghost use Rattle.rg_keywords.specs.declared.func.Func.TheVariants.{SumSq as SumSqFunc};

    ghost func = { SumSqFunc };

    ghost grows = { λ _ _. ⊥ };

    ghost held = { λ state. squared state.count state.sum };

    ghost held_at = { squared_at };

    fn empty(_alloc: Global) -> SumSq {
        SumSq {
            count: 0,
            sum: Wide::new(0),
        }
    }

    fn copy(&self, _alloc: Global) -> Result<SumSq, Memory> {
        Ok(SumSq {
            count: self.count,
            sum: Wide::new(self.sum.get()),
        })
    }

    fn is_empty(&self) -> bool {
        self.count == 0
    }

    fn size(&self) -> u64 {
        self.count
    }

    fn kind(&self) -> Option<Kind> {
        None
    }

    fn answer(&self) -> Answer {
        Answer::Number(self.sum.get())
    }

    #[tactic(auto, using(crate::proofs::Admitted::int_admitted))]
    fn add(&mut self, value: &Value) -> Result<(), Memory> {
        match square(value) {
            Some(square) => {
                *self = SumSq {
                    count: self.count + 1,
                    sum: Wide::new(self.sum.get() + square),
                };
                Ok(())
            }
            None => unreachable!(),
        }
    }

    fn remove(&mut self, value: &Value) -> Result<(), Unfit> {
        let square = match square(value) {
            Some(square) => square,
            None => return Err(Unfit),
        };
        if self.count == 0 {
            return Err(Unfit);
        }
        let count = self.count - 1;
        let sum = self.sum.get() - square;
        if !is_within(count, sum) {
            return Err(Unfit);
        }
        *self = SumSq {
            count,
            sum: Wide::new(sum),
        };
        Ok(())
    }

    fn encode(&self, out: &mut Vec<u8>) -> Result<(), Memory> {
        let start = out.len();
        match put_total(TAG, self.count, self.sum.get(), out) {
            Ok(()) => Ok(()),
            Err(memory) => {
                out.truncate(start);
                Err(memory)
            }
        }
    }

    fn decode(_alloc: Global, from: &mut ByteReader<'_>) -> Result<SumSq, StateFault> {
        // All that is left, so that a refusal can put it back.
        let bytes = from.bytes(from.left())?;
        let mut left = ByteReader::new(bytes);
        match read_squares(&mut left) {
            Ok(state) => {
                *from = left;
                Ok(state)
            }
            Err(fault) => {
                *from = ByteReader::new(bytes);
                Err(fault)
            }
        }
    }

    ghost of_func = { λ _. refl };
}

/// The square of an int from -10^12 to 10^12; none for another value.
fn square(value: &Value) -> Option<i128>
    ensures number { IfSome result (λ square. square ≡ number_of value.now *ℤ number_of value.now) }
    ensures natural { IfSome result (λ square. pos 0 ≤ℤ square) }
    ensures small { IfSome result (λ square. unsigned_abs square ≤ 1000000000000000000000000) }
    ensures some { IsSome result → IsInt value.now }
    ensures none { IsNone result → IsInt value.now → ⊥ }
{
    let number = amount(value)?;
    Some(number * number)
}

/// Whether the squares of so many ints from -10^12 to 10^12 can have this sum.
fn is_within(count: u64, sum: i128) -> bool
    requires { count ≤ 2 ^ 40 }
    ensures { result ≡ is_square_sum count sum }
{
    0 <= sum && sum.unsigned_abs() <= count as u128 * MAX_SQUARE
}

/// Takes a sum of squares. A refusal may leave the reader in mid-way.
fn read_squares(from: &mut ByteReader<'_>) -> Result<SumSq, StateFault>
    ensures agrees { Agrees (λ state. (state.count, state.sum)) (total_at is_square_sum 4 from.old) result from.new }
    ensures ok { IfOk result (λ state. from.old ≡ 4 ∷ (to_be_bytes w64 state.count ++ (sum_bytes state.sum ++ from.new))) }
    ensures some { IfOk result (λ state. 0 < state.count) }
{
    let count = read_size(TAG, from)?;
    let sum = from.i128()?;
    if is_within(count, sum) {
        Ok(SumSq {
            count,
            sum: Wide::new(sum),
        })
    } else {
        Err(StateFault::Unfit)
    }
}
