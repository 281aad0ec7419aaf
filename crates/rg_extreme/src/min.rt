ghost use Rattle.std.specs.Prelude.{◌≡◌, ◌+◌, ◌<◌, ◌≤◌, ◌^◌, List, [], ◌∷◌, ◌++◌, length, OnOk, OnErr};
ghost use Rattle.rg_agg.specs.Standing.{IsLike, MayBeginWith, Stands, kind_in, size_in};
ghost use Rattle.rg_agg.specs.Stands.{IsNumber};
ghost use Rattle.rg_event.specs.declared.value.Value.{Value as TheValue};
ghost use Rattle.rg_extreme.specs.Changes.{IsAdded, MayAdd};
ghost use Rattle.rg_extreme.specs.Deques.{IsDeque-prop, begun, pairs_of};
ghost use Rattle.rg_extreme.specs.Sides.{beats};
ghost use Rattle.rg_extreme.specs.States.{IsSound, pairs_in};
ghost use Rattle.rg_extreme.specs.Ticks.{FewTicks};
ghost use Rattle.rg_extreme.specs.declared.side.Side.TheVariants.{Least};

use crate::deque::Deque;
use crate::side::Side;
use rg_agg::{Aggregate, StateFault, Unfit};
use rg_bytes::{ByteReader, Memory};
use rg_event::{Kind, Steps, Value};
use rg_metric::Answer;
use std::alloc::Global;
use std::marker::Brand;
use std::sync::ledger::{Blank, Ledger};

/// The byte in front of a least value.
const TAG: u8 = 0x15;

/// The least int or id. It keeps the values that no later one is less than, equal neighbours as one pair of a value
/// and a count.
#[derive(Debug, Drop)]
pub struct Min {
    deque: Deque,
    ghost sound: { IsSound Least deque } by { IsDeque-prop (beats Least) deque.size deque.kept (pairs_in deque) },
}

impl Min {
    /// How many pairs it keeps.
    pub fn pairs(&self) -> u64
        // It keeps, in order, the values that no later one beats, equal neighbours joined with their number.
        ensures { result ≡ length (pairs_of (⟦<Min as Aggregate>⟧.held self.now)) }
    {
        self.deque.pairs.len() as u64
    }

    /// Adds a value at the back, as `add` does, with a tick for each pair that is taken off the back. Where memory runs
    /// out the state is as before, and there is no tick.
    pub fn add_counted<L: Ledger>(
        &mut self,
        value: &Value,
        steps: &mut Steps<L>,
    ) -> Result<(), Memory>
        requires room { size_in (⟦<Min as Aggregate>⟧.held self.old) < 2 ^ 40 }
        requires takes { IsNumber value.now }
        requires like { IsLike (kind_in (⟦<Min as Aggregate>⟧.held self.old)) value.now }
        ensures ok { OnOk result ((values : List TheValue) → Stands (⟦<Min as Aggregate>⟧.held self.old) values → Stands (⟦<Min as Aggregate>⟧.held self.new) (values ++ value.now ∷ [])) }
        ensures size { OnOk result (size_in (⟦<Min as Aggregate>⟧.held self.new) ≡ size_in (⟦<Min as Aggregate>⟧.held self.old) + 1) }

        // Exactly those pairs go off the back that the value beats, with a tick each.
        ensures ticks { OnOk result (steps.new + length (pairs_of (⟦<Min as Aggregate>⟧.held self.new)) ≡ steps.old + length (pairs_of (⟦<Min as Aggregate>⟧.held self.old)) + begun (pairs_of (⟦<Min as Aggregate>⟧.held self.new))) }
        ensures err { OnErr result (⟦<Min as Aggregate>⟧.held self.new ≡ ⟦<Min as Aggregate>⟧.held self.old) }

        // Over any additions and removals from a state of no values on there are at most as many ticks as additions.
        ensures few { OnOk result (FewTicks (⟦<Min as Aggregate>⟧.held self.old) steps.old steps.new) }
        ensures no_tick { OnErr result (steps.new ≡ steps.old) }
    {
        self.deque.add(Side::Least, value, steps)
    }
}

impl Aggregate for Min {
    ghost use Rattle.std.specs.Prelude.{⊤, refl};
    ghost use Rattle.rg_agg.specs.Held.{lowest};
    ghost use Rattle.rg_extreme.specs.Extremes.{lowest_at};
    ghost use Rattle.rg_extreme.specs.States.{pairs_in};
    ghost use Rattle.rg_keywords.specs.declared.func.Func.TheVariants.{Min as MinFunc};

    ghost func = { MinFunc };

    ghost grows = { λ _ _. ⊤ };

    ghost held = { λ state. lowest state.deque.size (pairs_in state.deque) };

    ghost held_at = { lowest_at };

    fn empty(alloc: Global) -> Min {
        Min {
            deque: Deque::new(alloc),
        }
    }

    fn copy(&self, alloc: Global) -> Result<Min, Memory> {
        let deque = self.deque.copy(alloc)?;
        Ok(Min { deque })
    }

    fn is_empty(&self) -> bool {
        self.deque.size == 0
    }

    fn size(&self) -> u64 {
        self.deque.size
    }

    fn kind(&self) -> Option<Kind> {
        self.deque.kind()
    }

    fn answer(&self) -> Answer {
        self.deque.answer()
    }

    #[tactic(auto, using(rg_agg::proofs::Laws::number_admitted))]
    fn add(&mut self, value: &Value) -> Result<(), Memory> {
        add_uncounted::<Brand>(self, value, Blank::new(1))
    }

    /// Takes the first value away, and leaves no more pairs. A refusal leaves the state as it was.
    fn remove(&mut self, value: &Value) -> Result<(), Unfit>
        ensures ok { OnOk result ((values : List TheValue) → Stands (lowest self.old.deque.size (pairs_in self.old.deque)) (value.now ∷ values) → Stands (lowest self.new.deque.size (pairs_in self.new.deque)) values) }
        ensures size { OnOk result (self.old.deque.size ≡ self.new.deque.size + 1) }
        ensures begins { OnOk result (MayBeginWith (lowest self.old.deque.size (pairs_in self.old.deque)) value.now) }
        ensures unfit { OnErr result ((values : List TheValue) → Stands (lowest self.old.deque.size (pairs_in self.old.deque)) (value.now ∷ values) → ⊥) }
        ensures err { OnErr result (self.new ≡ self.old) }

        // A removal leaves no more pairs.
        ensures pairs { length (pairs_in self.new.deque) ≤ length (pairs_in self.old.deque) }
    {
        self.deque.remove(Side::Least, value)
    }

    fn encode(&self, out: &mut Vec<u8>) -> Result<(), Memory> {
        self.deque.put(TAG, out)
    }

    fn decode(alloc: Global, from: &mut ByteReader<'_>) -> Result<Min, StateFault> {
        match Deque::read(alloc, Side::Least, TAG, from) {
            Ok(deque) => Ok(Min { deque }),
            Err(fault) => Err(fault),
        }
    }

    ghost of_func = { λ _. refl };
}

/// Adds a value at the back, and counts nothing.
fn add_uncounted<L: Ledger>(state: &mut Min, value: &Value, blank: Blank) -> Result<(), Memory>
    requires named { blank.name ≡ L.name }
    requires parts { blank.parts ≡ L.parts }
    requires whole { 0 < blank.parts }
    requires may { MayAdd (⟦<Min as Aggregate>⟧.held state.old) value.now }
    ensures added { IsAdded value.now (⟦<Min as Aggregate>⟧.held state.old) (⟦<Min as Aggregate>⟧.held state.new) result }
{
    state.add_counted(value, &mut Steps::<L>::new(blank))
}
