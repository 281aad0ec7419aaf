ghost use Rattle.std.specs.Prelude.{◌≡◌, ◌<◌, ℕ, List, ◌∷◌, ◌++◌, [], IfSome, IsNone, IfOk, OnErr};
ghost use Rattle.rg_agg.specs.Held.{Agrees, Returns, held_bytes};
ghost use Rattle.rg_agg.specs.Standing.{size_in};
ghost use Rattle.rg_state.specs.States.{held_of, state_at, values_tagged_at, IsRead};

use crate::state::AggState;
use rg_agg::{Aggregate, Avg, Count, First, Last, StateFault, Sum, SumSq};
use rg_bytes::ByteReader;
use rg_distinct::Distinct;
use rg_extreme::{Max, Min};
use rg_rank::Rank;
use std::alloc::Global;

/// The state of one of the aggregators, as its own reading answers.
macro_rules! decoded {
    ($aggregate:ident, $read:expr) => {
        match $read {
            Ok(state) => Ok(AggState::$aggregate(state)),
            Err(fault) => Err(fault),
        }
    };
}

impl AggState {
    /// Takes a state, as `encode` writes it. A refusal leaves the reader as it was.
    pub fn decode(alloc: Global, from: &mut ByteReader<'_>) -> Result<AggState, StateFault>
        // A state is read exactly where its bytes stand, of the function that its tag says.
        ensures agrees { Agrees held_of (state_at from.old) result from.new }
        ensures ok { IfOk result (λ state. from.old ≡ held_bytes (held_of state) ++ from.new) }
        ensures some { IfOk result (λ state. 0 < size_in (held_of state)) }

        // What was written is read back, whatever follows.
        ensures reads_back { (state : AggState) (rest : List ℕ) → 0 < size_in (held_of state) → from.old ≡ held_bytes (held_of state) ++ rest → Returns held_of (held_of state) rest result from.new }
        ensures err { OnErr result (from.new ≡ from.old) }
    {
        read_state(alloc, from)
    }
}

/// Takes a state of the aggregator that the first byte says.
fn read_state(alloc: Global, from: &mut ByteReader<'_>) -> Result<AggState, StateFault>
    ensures { IsRead (state_at from.old) from.old result from.new }
{
    match first_byte(from) {
        None => Err(StateFault::Short),
        Some(1) => decoded!(Count, Count::decode(alloc, from)),
        Some(2) => decoded!(Sum, Sum::decode(alloc, from)),
        Some(3) => decoded!(Avg, Avg::decode(alloc, from)),
        Some(4) => decoded!(SumSq, SumSq::decode(alloc, from)),
        Some(tag) => read_values(tag, alloc, from),
    }
}

/// Reads a state by the tag of an aggregator that keeps values.
fn read_values(tag: u8, alloc: Global, from: &mut ByteReader<'_>) -> Result<AggState, StateFault>
    ensures { IsRead (values_tagged_at tag from.old) from.old result from.new }
{
    match tag {
        7 => decoded!(Distinct, read_apart(alloc, from)),
        8 => decoded!(First, read_apart(alloc, from)),
        9 => decoded!(Last, read_apart(alloc, from)),
        0x15 => decoded!(Min, read_apart(alloc, from)),
        0x16 => decoded!(Max, read_apart(alloc, from)),
        0x17 => decoded!(Rank, read_apart(alloc, from)),
        _ => Err(StateFault::Unfit),
    }
}

/// Takes a state of one aggregator, and puts it into memory of its own. A refusal leaves the reader as it was.
fn read_apart<A: Aggregate + Drop>(
    alloc: Global,
    from: &mut ByteReader<'_>,
) -> Result<Box<A>, StateFault>
    ensures agrees { Agrees (λ state. A.held state.value) (A.held_at from.old) result from.new }
    ensures ok { IfOk result (λ state. from.old ≡ held_bytes (A.held state.value) ++ from.new) }
    ensures some { IfOk result (λ state. 0 < size_in (A.held state.value)) }
    ensures err { OnErr result (from.new ≡ from.old) }
{
    // All that is left, so that a refusal can put it back.
    let bytes = from.bytes(from.left())?;
    *from = ByteReader::new(bytes);
    let state = A::decode(alloc, from)?;
    match Box::new(alloc, state) {
        Ok(state) => Ok(state),
        Err(_) => {
            *from = ByteReader::new(bytes);
            Err(StateFault::Memory)
        }
    }
}

/// The first byte that is left, where one is. The reader stays as it was.
fn first_byte(from: &mut ByteReader<'_>) -> Option<u8>
    ensures some { IfSome result (λ byte. (bytes : List ℕ) × (from.old ≡ byte ∷ bytes)) }
    ensures none { IsNone result → from.old ≡ [] }
    ensures same { from.new ≡ from.old }
{
    match from.bytes(from.left()) {
        Ok(bytes) => {
            *from = ByteReader::new(bytes);
            bytes.first().copied()
        }
        Err(_) => unreachable!(),
    }
}
