ghost use Rattle.std.specs.Prelude.{◌≡◌, ◌+◌, ◌<◌, ◌≤◌, ◌^◌, pos, List, ◌∷◌, ◌++◌, IfOk, OnOk, OnErr, IsTrue};
ghost use Rattle.std.specs.Int.{w64, to_be_bytes};
ghost use Rattle.rg_agg.specs.Held.{is_sum, sum_bytes, total_at, Agrees};
ghost use Rattle.rg_agg.specs.Stands.{IsTotal};
ghost use Rattle.rg_bytes.specs.Keeps.{Keeps};
ghost use Rattle.rg_event.specs.declared.value.Value.{Value};

use crate::amount::amount;
use crate::fault::{StateFault, Unfit};
use crate::reading::{put_size, read_size};
use crate::wide::Wide;
use rg_bytes::{ByteReader, Memory, put_i128};
use rg_event::{MAX_INT, Value};

/// How many ints there are, and their sum.
#[derive(Debug, Drop)]
pub(crate) struct Total {
    pub(crate) count: u64,
    pub(crate) sum: Wide,
    ghost few: { count ≤ 2 ^ 40 },
    ghost bound: { IsTrue (is_sum count sum) },
}

impl Total {
    /// No ints.
    pub(crate) fn new() -> Total
        ensures count { result.count ≡ 0 }
        ensures sum { result.sum ≡ pos 0 }
    {
        Total {
            count: 0,
            sum: Wide::new(0),
        }
    }

    /// As many ints, of the same sum.
    pub(crate) fn copy(&self) -> Total
        ensures count { result.count ≡ self.now.count }
        ensures sum { result.sum ≡ self.now.sum }
    {
        Total {
            count: self.count,
            sum: Wide::new(self.sum.get()),
        }
    }

    /// Takes an int away.
    pub(crate) fn remove(&mut self, value: &Value) -> Result<(), Unfit>
        ensures ok { OnOk result ((values : List Value) → IsTotal self.old.count self.old.sum (value.now ∷ values) → IsTotal self.new.count self.new.sum values) }
        ensures size { OnOk result (self.old.count ≡ self.new.count + 1) }
        ensures begins { OnOk result ((values : List Value) × IsTotal self.old.count self.old.sum (value.now ∷ values)) }
        ensures unfit { OnErr result ((values : List Value) → IsTotal self.old.count self.old.sum (value.now ∷ values) → ⊥) }
        ensures err { OnErr result (self.new ≡ self.old) }
    {
        let number = match amount(value) {
            Some(number) => number,
            None => return Err(Unfit),
        };
        if self.count == 0 {
            return Err(Unfit);
        }
        let count = self.count - 1;
        let sum = self.sum.get() - number;
        if !is_within(count, sum) {
            return Err(Unfit);
        }
        *self = Total {
            count,
            sum: Wide::new(sum),
        };
        Ok(())
    }

    /// Writes a tag, the count and the sum at the end. Where memory runs out `out` holds what it held.
    pub(crate) fn put(&self, tag: u8, out: &mut Vec<u8>) -> Result<(), Memory>
        ensures ok { OnOk result (out.new.items ≡ out.old.items ++ (tag ∷ (to_be_bytes w64 self.now.count ++ sum_bytes self.now.sum))) }
        ensures err { OnErr result (out.new.items ≡ out.old.items) }
    {
        let start = out.len();
        match put_total(tag, self.count, self.sum.get(), out) {
            Ok(()) => Ok(()),
            Err(memory) => {
                out.truncate(start);
                Err(memory)
            }
        }
    }

    /// Takes a tag, a count and a sum. A refusal may leave the reader in mid-way.
    pub(crate) fn read(tag: u8, from: &mut ByteReader<'_>) -> Result<Total, StateFault>
        ensures agrees { Agrees (λ total. (total.count, total.sum)) (total_at is_sum tag from.old) result from.new }
        ensures ok { IfOk result (λ total. from.old ≡ tag ∷ (to_be_bytes w64 total.count ++ (sum_bytes total.sum ++ from.new))) }
        ensures some { IfOk result (λ total. 0 < total.count) }
    {
        let count = read_size(tag, from)?;
        let sum = from.i128()?;
        if is_within(count, sum) {
            Ok(Total {
                count,
                sum: Wide::new(sum),
            })
        } else {
            Err(StateFault::Unfit)
        }
    }
}

/// Whether so many ints from -10^12 to 10^12 can have this sum.
fn is_within(count: u64, sum: i128) -> bool
    requires { count ≤ 2 ^ 40 }
    ensures { result ≡ is_sum count sum }
{
    sum.unsigned_abs() <= count as u128 * MAX_INT as u128
}

/// Writes a tag, a count and a sum at the end. Where memory runs out a front of it may stand there.
pub(crate) fn put_total(tag: u8, count: u64, sum: i128, out: &mut Vec<u8>) -> Result<(), Memory>
    ensures ok { OnOk result (out.new.items ≡ out.old.items ++ (tag ∷ (to_be_bytes w64 count ++ sum_bytes sum))) }
    ensures err { OnErr result (Keeps out.old.items out.new.items) }
{
    put_size(tag, count, out)?;
    put_i128(out, sum)
}
