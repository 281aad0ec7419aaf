ghost use Rattle.std.specs.Prelude.{◌≡◌, ◌≤◌, ◌<◌, ◌^◌, ◌++◌, [], length, map, IfOk, OnOk, OnErr, true, IsTrue};
ghost use Rattle.rg_agg.specs.Held.{queued, queued_at, held_bytes, tagged_list, next_at, is_like_first, Agrees};
ghost use Rattle.rg_agg.specs.Numbers.{value_of};
ghost use Rattle.rg_agg.specs.Stands.{IsNumber, are_alike, begins_with};
ghost use Rattle.rg_bytes.specs.Keeps.{Keeps};
ghost use Rattle.rg_bytes.specs.Reading.{more_at};
ghost use Rattle.rg_event.specs.Tagged.{tagged_bytes};

use crate::aggregate::Aggregate;
use crate::fault::{StateFault, Unfit};
use crate::number::Number;
use crate::reading::{put_size, read_number, read_size};
use rg_bytes::{ByteReader, Memory};
use rg_event::{Kind, Value, put_tagged};
use rg_metric::Answer;
use std::alloc::Global;
use std::collections::VecDeque;

/// The byte in front of a list of values, of which the first one is answered.
const TAG: u8 = 8;

/// The first int or id. It keeps all of them, since the one behind a first one that is taken comes next.
#[derive(Debug, Drop)]
pub struct First {
    numbers: VecDeque<Number>,
    ghost few: { length numbers.items ≤ 2 ^ 40 },
    ghost alike: { IsTrue (are_alike (map value_of numbers.items)) },
}

impl Aggregate for First {
    ghost use Rattle.std.specs.Prelude.{⊤, map, refl};
    ghost use Rattle.rg_agg.specs.Held.{queued, queued_at};
    ghost use Rattle.rg_agg.specs.Numbers.{value_of};
    ghost use Rattle.rg_keywords.specs.declared.func.Func.TheVariants.{First as FirstFunc};

    ghost func = { FirstFunc };

    ghost grows = { λ _ _. ⊤ };

    ghost held = { λ state. queued (map value_of state.numbers.items) };

    ghost held_at = { queued_at };

    fn empty(alloc: Global) -> First {
        First {
            numbers: VecDeque::new(alloc),
        }
    }

    fn copy(&self, alloc: Global) -> Result<First, Memory> {
        let numbers = copy_numbers(alloc, &self.numbers)?;
        Ok(First { numbers })
    }

    fn is_empty(&self) -> bool {
        self.numbers.is_empty()
    }

    fn size(&self) -> u64 {
        self.numbers.len() as u64
    }

    fn kind(&self) -> Option<Kind> {
        match self.numbers.front() {
            Some(number) => Some(number.kind()),
            None => None,
        }
    }

    fn answer(&self) -> Answer {
        match self.numbers.front() {
            Some(number) => Answer::Number(number.amount()),
            None => Answer::Dash,
        }
    }

    #[tactic(auto, using(crate::proofs::Admitted::number_admitted))]
    fn add(&mut self, value: &Value) -> Result<(), Memory> {
        match Number::of(value) {
            Some(number) => {
                self.numbers.push_back(number)?;
                Ok(())
            }
            None => unreachable!(),
        }
    }

    fn remove(&mut self, value: &Value) -> Result<(), Unfit> {
        match Number::of(value) {
            Some(number) => {
                if !is_first(&self.numbers, number) {
                    return Err(Unfit);
                }
                self.numbers.pop_front();
                Ok(())
            }
            None => Err(Unfit),
        }
    }

    fn encode(&self, out: &mut Vec<u8>) -> Result<(), Memory> {
        let start = out.len();
        match put_numbers(&self.numbers, out) {
            Ok(()) => Ok(()),
            Err(memory) => {
                out.truncate(start);
                Err(memory)
            }
        }
    }

    fn decode(alloc: Global, from: &mut ByteReader<'_>) -> Result<First, StateFault> {
        // All that is left, so that a refusal can put it back.
        let bytes = from.bytes(from.left())?;
        let mut left = ByteReader::new(bytes);
        match read_first(alloc, &mut left) {
            Ok(state) => {
                *from = left;
                Ok(state)
            }
            Err(fault) => {
                *from = ByteReader::new(bytes);
                Err(fault)
            }
        }
    }

    ghost of_func = { λ _. refl };
}

/// A copy of the queue, in its order.
fn copy_numbers(alloc: Global, numbers: &VecDeque<Number>) -> Result<VecDeque<Number>, Memory>
    ensures { IfOk result (λ copies. copies.items ≡ numbers.now.items) }
{
    let mut copies = VecDeque::new(alloc);
    for number in numbers.iter() {
        copies.push_back(*number)?;
    }
    Ok(copies)
}

/// Writes how many there are and each of them at the end. Where memory runs out a front of it may stand there.
fn put_numbers(numbers: &VecDeque<Number>, out: &mut Vec<u8>) -> Result<(), Memory>
    ensures ok { OnOk result (out.new.items ≡ out.old.items ++ held_bytes (queued (map value_of numbers.now.items))) }
    ensures err { OnErr result (Keeps out.old.items out.new.items) }
{
    put_size(TAG, numbers.len() as u64, out)?;
    put_each(numbers, out)
}

/// Writes each of them at the end. Where memory runs out a front of it may stand there.
fn put_each(numbers: &VecDeque<Number>, out: &mut Vec<u8>) -> Result<(), Memory>
    ensures ok { OnOk result (out.new.items ≡ out.old.items ++ tagged_list (map value_of numbers.now.items)) }
    ensures err { OnErr result (Keeps out.old.items out.new.items) }
{
    for place in 0..numbers.len() {
        if let Some(number) = numbers.get(place) {
            put_tagged(&number.value(), out)?;
        }
    }
    Ok(())
}

/// Takes a list of values. A refusal may leave the reader in mid-way.
fn read_first(alloc: Global, from: &mut ByteReader<'_>) -> Result<First, StateFault>
    ensures agrees { Agrees (λ state. queued (map value_of state.numbers.items)) (queued_at from.old) result from.new }
    ensures ok { IfOk result (λ state. from.old ≡ held_bytes (queued (map value_of state.numbers.items)) ++ from.new) }
    ensures some { IfOk result (λ state. 0 < length state.numbers.items) }
{
    let count = read_size(TAG, from)?;
    let numbers = read_numbers(alloc, count, from)?;
    Ok(First { numbers })
}

/// Takes so many values. A refusal may leave the reader in mid-way.
fn read_numbers(
    alloc: Global,
    count: u64,
    from: &mut ByteReader<'_>,
) -> Result<VecDeque<Number>, StateFault>
    ensures agrees { Agrees (λ numbers. map value_of numbers.items) (more_at next_at [] count from.old) result from.new }
    ensures ok { IfOk result (λ numbers. from.old ≡ tagged_list (map value_of numbers.items) ++ from.new) }
    ensures count { IfOk result (λ numbers. length numbers.items ≡ count) }
    ensures alike { IfOk result (λ numbers. are_alike (map value_of numbers.items) ≡ true) }
{
    let mut numbers = VecDeque::new(alloc);
    for done in 0..count {
        let number = read_next(alloc, &numbers, from)?;
        match numbers.push_back(number) {
            Ok(()) => {}
            Err(_) => return Err(StateFault::Memory),
        }
    }
    Ok(numbers)
}

/// Takes one value more, of the kind of these.
fn read_next(
    alloc: Global,
    numbers: &VecDeque<Number>,
    from: &mut ByteReader<'_>,
) -> Result<Number, StateFault>
    ensures agrees { Agrees value_of (next_at (map value_of numbers.now.items) from.old) result from.new }
    ensures ok { IfOk result (λ number. from.old ≡ tagged_bytes (value_of number) ++ from.new) }
    ensures legal { IfOk result (λ number. IsNumber (value_of number)) }
    ensures alike { IfOk result (λ number. is_like_first (value_of number) (map value_of numbers.now.items) ≡ true) }
{
    let number = read_number(alloc, from)?;
    if suits_first(numbers, number) {
        Ok(number)
    } else {
        Err(StateFault::Unfit)
    }
}

/// Whether it is of the kind of the first one of these, if there is one.
fn suits_first(numbers: &VecDeque<Number>, number: Number) -> bool
    ensures { result ≡ is_like_first (value_of number) (map value_of numbers.now.items) }
{
    match numbers.front() {
        Some(first) => first.is_like(number),
        None => true,
    }
}

/// Whether it is the first one of these.
fn is_first(numbers: &VecDeque<Number>, number: Number) -> bool
    ensures { result ≡ begins_with (value_of number) (map value_of numbers.now.items) }
{
    match numbers.front() {
        Some(first) => first.is_same(number),
        None => false,
    }
}
