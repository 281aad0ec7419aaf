ghost use Rattle.std.specs.Prelude.{◌≡◌, ◌+◌, ◌≤◌, ◌<◌, ◌^◌, ◌++◌, ◌&&◌, ◌||◌, nat_lt, Some, None, IfOk, OnOk, OnErr, IsTrue};
ghost use Rattle.rg_agg.specs.Held.{ended, held_bytes, ended_at, is_like, Agrees};
ghost use Rattle.rg_agg.specs.Numbers.{value_of, seen, is_kept};
ghost use Rattle.rg_bytes.specs.Keeps.{Keeps};
ghost use Rattle.rg_metric.specs.Same.{same_value};

use crate::aggregate::Aggregate;
use crate::fault::{StateFault, Unfit};
use crate::number::Number;
use crate::reading::{put_size, read_number, read_size};
use rg_bytes::{ByteReader, Memory};
use rg_event::{Kind, Value, put_tagged};
use rg_metric::Answer;
use std::alloc::Global;

/// The byte in front of a last value.
const TAG: u8 = 9;

/// The last int or id.
#[derive(Debug, Drop)]
pub struct Last {
    count: u64,
    last: Option<Number>,
    ghost few: { count ≤ 2 ^ 40 },
    ghost kept: { IsTrue (is_kept count last) },
}

impl Aggregate for Last {
    ghost use Rattle.std.specs.Prelude.{refl};
    ghost use Rattle.rg_agg.specs.Held.{ended, ended_at};
    ghost use Rattle.rg_agg.specs.Numbers.{seen};
    ghost use Rattle.rg_keywords.specs.declared.func.Func.TheVariants.{Last as LastFunc};

    ghost func = { LastFunc };

    ghost grows = { λ _ _. ⊥ };

    ghost held = { λ state. ended state.count (seen state.last) };

    ghost held_at = { ended_at };

    fn empty(_alloc: Global) -> Last {
        Last {
            count: 0,
            last: None,
        }
    }

    fn copy(&self, _alloc: Global) -> Result<Last, Memory> {
        Ok(Last {
            count: self.count,
            last: self.last,
        })
    }

    fn is_empty(&self) -> bool {
        self.count == 0
    }

    fn size(&self) -> u64 {
        self.count
    }

    fn kind(&self) -> Option<Kind> {
        match self.last {
            Some(number) => Some(number.kind()),
            None => None,
        }
    }

    fn answer(&self) -> Answer {
        match self.last {
            Some(number) => Answer::Number(number.amount()),
            None => Answer::Dash,
        }
    }

    #[tactic(auto, using(crate::proofs::Admitted::number_admitted))]
    fn add(&mut self, value: &Value) -> Result<(), Memory> {
        match Number::of(value) {
            Some(number) => {
                *self = Last {
                    count: self.count + 1,
                    last: Some(number),
                };
                Ok(())
            }
            None => unreachable!(),
        }
    }

    fn remove(&mut self, value: &Value) -> Result<(), Unfit> {
        let Some(number) = Number::of(value) else {
            return Err(Unfit);
        };
        let Some(last) = self.last else {
            return Err(Unfit);
        };
        if !may_begin(self.count, last, number) {
            return Err(Unfit);
        }
        *self = without_first(self.count, self.last);
        Ok(())
    }

    fn encode(&self, out: &mut Vec<u8>) -> Result<(), Memory> {
        match self.last {
            Some(number) => put_last(self.count, number, out),
            None => unreachable!(),
        }
    }

    fn decode(alloc: Global, from: &mut ByteReader<'_>) -> Result<Last, StateFault> {
        // All that is left, so that a refusal can put it back.
        let bytes = from.bytes(from.left())?;
        let mut left = ByteReader::new(bytes);
        match read_last(alloc, &mut left) {
            Ok(state) => {
                *from = left;
                Ok(state)
            }
            Err(fault) => {
                *from = ByteReader::new(bytes);
                Err(fault)
            }
        }
    }

    ghost of_func = { λ _. refl };
}

/// Whether so many values with this last one may begin with a number: it is of the last one's kind, and it is the
/// last one itself where there is no other.
fn may_begin(count: u64, last: Number, number: Number) -> bool
    ensures { result ≡ (is_like (value_of last) (value_of number) && (nat_lt 1 count || same_value (value_of last) (value_of number))) }
{
    last.is_like(number) && (1 < count || last.is_same(number))
}

/// The state of one value fewer, of which the last one is the same, if there is one.
fn without_first(count: u64, last: Option<Number>) -> Last
    requires some { 0 < count }
    requires few { count ≤ 2 ^ 40 }
    requires kept { IsTrue (is_kept count last) }
    ensures count { result.count + 1 ≡ count }
    ensures none { count ≡ 1 → seen result.last ≡ None }
    ensures same { 1 < count → result.last ≡ last }
{
    if count == 1 {
        return Last {
            count: 0,
            last: None,
        };
    }
    Last {
        count: count - 1,
        last,
    }
}

/// Writes a count and a last value at the end. Where memory runs out `out` holds what it held.
fn put_last(count: u64, last: Number, out: &mut Vec<u8>) -> Result<(), Memory>
    ensures ok { OnOk result (out.new.items ≡ out.old.items ++ held_bytes (ended count (Some (value_of last)))) }
    ensures err { OnErr result (out.new.items ≡ out.old.items) }
{
    let start = out.len();
    match put_parts(count, last, out) {
        Ok(()) => Ok(()),
        Err(memory) => {
            out.truncate(start);
            Err(memory)
        }
    }
}

/// Writes the same. Where memory runs out a front of it may stand there.
fn put_parts(count: u64, last: Number, out: &mut Vec<u8>) -> Result<(), Memory>
    ensures ok { OnOk result (out.new.items ≡ out.old.items ++ held_bytes (ended count (Some (value_of last)))) }
    ensures err { OnErr result (Keeps out.old.items out.new.items) }
{
    put_size(TAG, count, out)?;
    put_tagged(&last.value(), out)
}

/// Takes a count and a last value. A refusal may leave the reader in mid-way.
fn read_last(alloc: Global, from: &mut ByteReader<'_>) -> Result<Last, StateFault>
    ensures agrees { Agrees (λ state. ended state.count (seen state.last)) (ended_at from.old) result from.new }
    ensures ok { IfOk result (λ state. from.old ≡ held_bytes (ended state.count (seen state.last)) ++ from.new) }
    ensures some { IfOk result (λ state. 0 < state.count) }
{
    let count = read_size(TAG, from)?;
    let last = read_number(alloc, from)?;
    Ok(Last {
        count,
        last: Some(last),
    })
}
