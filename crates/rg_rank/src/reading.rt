ghost use Rattle.std.specs.Prelude.{◌≡◌, List, ℕ, ◌<◌, ◌++◌, IfOk, OnErr};
ghost use Rattle.rg_agg.specs.Held.{Agrees, Returns, counts_bytes, number_value_at};
ghost use Rattle.rg_agg.specs.Numbers.{seen, value_of};
ghost use Rattle.rg_agg.specs.Standing.{counts_sum};
ghost use Rattle.rg_agg.specs.Stands.{IsNumber};
ghost use Rattle.rg_agg.specs.Unbeaten.{is_less};
ghost use Rattle.rg_event.specs.declared.value.Value.{Value};
ghost use Rattle.rg_multiset.specs.Pairs.{IsTally};
ghost use Rattle.rg_multiset.specs.Reading.{comes_behind, pairs_at};
ghost use Rattle.rg_rank.specs.Ranks.{IsTally-numbers};
ghost use Rattle.rg_rank.specs.Shapes.{listed};

use crate::tree::{Tree, is_below};
use rg_agg::{Number, StateFault, read_number};
use rg_bytes::{ByteReader, Memory};
use rg_event::MAX_EVENTS;
use rg_multiset::{PairList, read_list};
use std::alloc::Global;

impl Tree {
    /// Takes a tag and numbers with their counts: of one kind, rising, each count above 0, and the counts at most 2^40
    /// in sum. A refusal leaves the reader as it was.
    pub(crate) fn read(
        alloc: Global,
        tag: u8,
        from: &mut ByteReader<'_>,
    ) -> Result<Tree, StateFault>
        ensures agrees { Agrees listed (pairs_at number_value_at is_less tag from.old) result from.new }
        ensures ok { IfOk result (λ tree. from.old ≡ counts_bytes tag (listed tree) ++ from.new) }
        ensures some { IfOk result (λ tree. 0 < counts_sum (listed tree)) }
        ensures sound { IfOk result (λ tree. IsTally IsNumber is_less (listed tree)) }
        ensures reads_back { (pairs : List (Value × ℕ)) (rest : List ℕ) → IsTally IsNumber is_less pairs → 0 < counts_sum pairs → from.old ≡ counts_bytes tag pairs ++ rest → Returns listed pairs rest result from.new }
        ensures err { OnErr result (from.new ≡ from.old) }
    {
        let tree = Tree::new();
        match read_list(Filling { tree, alloc }, tag, from) {
            Ok(filling) => Ok(filling.tree),
            Err(fault) => Err(fault),
        }
    }
}

/// A tree that is read pair by pair.
#[derive(Drop)]
struct Filling {
    tree: Tree,
    alloc: Global,
    ghost sound: { IsTally IsNumber is_less (listed tree) } by { IsTally-numbers (listed tree) },
}

impl PairList for Filling {
    ghost use Rattle.rg_agg.specs.Held.{number_value_at};
    ghost use Rattle.rg_agg.specs.Numbers.{value_of as value_of_number};
    ghost use Rattle.rg_agg.specs.Stands.{IsNumber};
    ghost use Rattle.rg_agg.specs.Unbeaten.{is_less};
    ghost use Rattle.rg_rank.specs.Shapes.{listed};

    type Key = Number;

    ghost value_of = { value_of_number };

    ghost legal = { IsNumber };

    ghost value_at = { number_value_at };

    ghost pairs = { λ filling. listed filling.tree };

    ghost below = { λ _. is_less };

    ghost most = { λ _. 1099511627776 };

    fn read_key(&self, from: &mut ByteReader<'_>) -> Result<Number, StateFault> {
        read_number(self.alloc, from)
    }

    fn is_behind(&self, key: &Number) -> bool {
        may_follow(self.tree.last(), *key)
    }

    fn room(&self) -> u64 {
        MAX_EVENTS - self.tree.values()
    }

    fn push(&mut self, key: Number, count: u64) -> Result<(), Memory> {
        self.tree.push(self.alloc, key, count)
    }
}

/// Whether a number may stand behind a last one, if there is one: it is of its kind and greater.
#[tactic(auto, using(crate::proofs::ReadRanks::like_tags))]
fn may_follow(last: Option<Number>, number: Number) -> bool
    ensures { result ≡ comes_behind is_less (seen last) (value_of number) }
{
    match last {
        Some(last) => last.is_like(number) && is_below(last, number),
        None => true,
    }
}
