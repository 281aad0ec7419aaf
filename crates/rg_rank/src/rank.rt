ghost use Rattle.std.specs.Prelude.{◌≡◌, ◌<◌, ◌≤◌, List, length, true, false, ◌++◌, OnOk, OnErr};
ghost use Rattle.rg_agg.specs.Held.{counts_bytes};
ghost use Rattle.rg_agg.specs.Numbers.{value_of};
ghost use Rattle.rg_agg.specs.Standing.{IsLike, Stands, count_in, counts_sum, pairs_kind};
ghost use Rattle.rg_agg.specs.Stands.{IsNumber};
ghost use Rattle.rg_agg.specs.Unbeaten.{is_less};
ghost use Rattle.rg_bytes.specs.Keeps.{Keeps};
ghost use Rattle.rg_event.specs.declared.value.Value.{Value as TheValue};
ghost use Rattle.rg_metric.specs.Answers.{answer_of};
ghost use Rattle.rg_rank.specs.Ranks.{IsTally-numbers, ranked_pairs};
ghost use Rattle.rg_rank.specs.Shapes.{AreVisits, listed, place_of};
ghost use Rattle.rg_multiset.specs.Pairs.{AreAlike, IsTally};
ghost use Rattle.rg_keywords.specs.declared.func.Func.TheVariants.{Pct};

use crate::tree::Tree;
use rg_agg::{Aggregate, Number, StateFault, Unfit, put_size};
use rg_bytes::{ByteReader, Memory};
use rg_event::{Kind, Steps, Value};
use rg_metric::Answer;
use std::alloc::Global;
use std::marker::Brand;
use std::sync::ledger::{Blank, Ledger};

/// The byte in front of a rank.
const TAG: u8 = 0x17;

/// The int or id at a place in rising order: the median, or another one that is asked. It keeps each number with how
/// often it is there.
#[derive(Debug, Drop)]
pub struct Rank {
    tree: Tree,
    alloc: Global,
    ghost sound: { IsTally IsNumber is_less (listed tree) } by { IsTally-numbers (listed tree) },
}

impl Rank {
    /// How many pairs it keeps.
    pub fn pairs(&self) -> u64
        ensures { result ≡ length (ranked_pairs (⟦<Rank as Aggregate>⟧.held self.now)) }
    {
        self.tree.pairs()
    }

    /// The number at so many hundredths of its values in rising order, from 1 to 100, with a tick for each node on the
    /// path to it; a dash without values.
    pub fn at<L: Ledger>(&self, percent: u32, steps: &mut Steps<L>) -> Answer
        requires some { 0 < percent }
        requires most { percent ≤ 100 }
        ensures answer { (values : List TheValue) → Stands (⟦<Rank as Aggregate>⟧.held self.now) values → result ≡ answer_of (Pct percent) values }
        ensures visits { AreVisits (place_of percent (counts_sum (listed self.now.tree))) self.now.tree steps.old steps.new }
    {
        let size = self.tree.values();
        if size == 0 {
            return Answer::Dash;
        }
        let place = (u64::from(percent) * size + 99) / 100;
        Answer::Number(self.tree.at(place - 1, steps).amount())
    }

    /// The number at so many hundredths of its values in rising order. It is a dash without values, and where the
    /// percent isn't from 1 to 100.
    pub fn percentile(&self, percent: u32) -> Answer
        ensures { (values : List TheValue) → Stands (⟦<Rank as Aggregate>⟧.held self.now) values → result ≡ answer_of (Pct percent) values }
    {
        if percent == 0 || percent > 100 {
            return Answer::Dash;
        }
        uncounted::<Brand>(self, percent, Blank::new(1))
    }

    /// Writes a tag, the number of pairs and the pairs at the end. Where memory runs out a front of it may stand there.
    fn put_parts(&self, out: &mut Vec<u8>) -> Result<(), Memory>
        ensures ok { OnOk result (out.new.items ≡ out.old.items ++ counts_bytes 23 (ranked_pairs (⟦<Rank as Aggregate>⟧.held self.now))) }
        ensures err { OnErr result (Keeps out.old.items out.new.items) }
    {
        put_size(TAG, self.tree.pairs(), out)?;
        self.tree.put_each(out)
    }
}

impl Aggregate for Rank {
    ghost use Rattle.std.specs.Prelude.{◌≡◌, refl};
    ghost use Rattle.rg_agg.specs.Standing.{count_in};
    ghost use Rattle.rg_agg.specs.Stands.{IsNumber};
    ghost use Rattle.rg_agg.specs.Held.{ranked};
    ghost use Rattle.rg_rank.specs.Ranks.{ranked_at};
    ghost use Rattle.rg_rank.specs.Shapes.{listed};
    ghost use Rattle.rg_keywords.specs.declared.func.Func.TheVariants.{Median};

    ghost func = { Median };

    ghost grows = { λ state value. count_in value (listed state.tree) ≡ 0 };

    ghost held = { λ state. ranked (listed state.tree) };

    ghost held_at = { ranked_at };

    fn empty(alloc: Global) -> Rank {
        Rank {
            tree: Tree::new(),
            alloc,
        }
    }

    fn copy(&self, alloc: Global) -> Result<Rank, Memory> {
        let tree = self.tree.copy(alloc)?;
        Ok(Rank { tree, alloc })
    }

    fn is_empty(&self) -> bool {
        self.tree.values() == 0
    }

    fn size(&self) -> u64 {
        self.tree.values()
    }

    fn kind(&self) -> Option<Kind> {
        match self.tree.some() {
            Some(number) => Some(number.kind()),
            None => None,
        }
    }

    /// The median.
    fn answer(&self) -> Answer {
        self.percentile(50)
    }

    #[tactic(auto, using(rg_agg::proofs::Laws::number_admitted))]
    fn add(&mut self, value: &Value) -> Result<(), Memory> {
        match Number::of(value) {
            Some(number) => self.tree.add(self.alloc, number),
            None => unreachable!(),
        }
    }

    fn remove(&mut self, value: &Value) -> Result<(), Unfit> {
        let Some(number) = Number::of(value) else {
            return Err(Unfit);
        };
        if !is_of_kind(&self.tree, number) {
            return Err(Unfit);
        }
        if !self.tree.remove(number) {
            return Err(Unfit);
        }
        Ok(())
    }

    fn encode(&self, out: &mut Vec<u8>) -> Result<(), Memory> {
        let start = out.len();
        match self.put_parts(out) {
            Ok(()) => Ok(()),
            Err(memory) => {
                out.truncate(start);
                Err(memory)
            }
        }
    }

    fn decode(alloc: Global, from: &mut ByteReader<'_>) -> Result<Rank, StateFault> {
        match Tree::read(alloc, TAG, from) {
            Ok(tree) => Ok(Rank { tree, alloc }),
            Err(fault) => Err(fault),
        }
    }

    ghost of_func = { λ _. refl };
}

/// Two states that stand for one list keep the same, so their bytes are the same.
pub fn law_ranks()
    ensures { (state other : Rank) (values : List TheValue) → Stands (⟦<Rank as Aggregate>⟧.held state) values →
        Stands (⟦<Rank as Aggregate>⟧.held other) values → ⟦<Rank as Aggregate>⟧.held state ≡ ⟦<Rank as Aggregate>⟧.held other }
{}

/// The number at so many hundredths, and nothing is counted.
fn uncounted<L: Ledger>(state: &Rank, percent: u32, blank: Blank) -> Answer
    requires named { blank.name ≡ L.name }
    requires parts { blank.parts ≡ L.parts }
    requires whole { 0 < blank.parts }
    requires within { (0 < percent) × (percent ≤ 100) }
    ensures { (values : List TheValue) → Stands (⟦<Rank as Aggregate>⟧.held state.now) values → result ≡ answer_of (Pct percent) values }
{
    state.at(percent, &mut Steps::<L>::new(blank))
}

/// Whether a number is of the kind of those of a tree, if there are any.
fn is_of_kind(tree: &Tree, number: Number) -> bool
    requires { AreAlike IsNumber (listed tree.now) }
    ensures like { result ≡ true → IsLike (pairs_kind (listed tree.now)) (value_of number) }
    ensures other { result ≡ false → count_in (value_of number) (listed tree.now) ≡ 0 }
{
    match tree.some() {
        Some(some) => number.is_like(some),
        None => true,
    }
}
