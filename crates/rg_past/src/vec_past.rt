ghost use Rattle.std.specs.Prelude.{◌≡◌, ◌↔◌, ℕ, ◌≤◌, ◌<◌, ◌^◌, [], IfOk, IfSome, IfNone, IsErr, IsErrOf, OnOk, length, slice_get};
ghost use Rattle.std.specs.Borrow.{sem};
ghost use Rattle.std.specs.Io.BufRead.{Rests};
ghost use Rattle.std.specs.Option.{option_copied};
ghost use Rattle.rg_bytes.specs.Counts.{Rose};
ghost use Rattle.rg_past.specs.Peek.{IsLookWithin, Shows};
ghost use Rattle.rg_past.specs.contracts.vec_past.VecPast.{the_row};

use crate::past::{Past, PastFault, Spot};
use rg_event::Event;
use std::alloc::Global;
use std::marker::Model;

/// A past whose events stand in memory.
#[derive(Debug, Drop)]
pub struct VecPast {
    events: Vec<Event>,
    limit: u64,
}

impl Model for VecPast {
    ghost use Rattle.rg_past.specs.Listed.{Listed};

    ghost Value = { Listed };

    ghost view = { λ p. record { events = p.events.items; limit = p.limit } };
}

impl VecPast {
    /// An empty past of at most `limit` events.
    pub fn new(alloc: Global, limit: u64) -> VecPast
        requires { limit ≤ 2 ^ 40 }
        // It is a sound past without events.
        ensures empty { result.events ≡ [] }
        ensures limit { result.limit ≡ limit }
        ensures sound { ⟦<VecPast as Past>⟧.sound result }
    {
        VecPast {
            events: Vec::new(alloc),
            limit,
        }
    }

    /// The events, the first one first.
    pub fn events(&self) -> &[Event]
        ensures { result.now ≡ self.now.events }
    {
        &self.events
    }

    /// How many events it may hold.
    pub fn limit(&self) -> u64
        ensures { result ≡ self.now.limit }
    {
        self.limit
    }
}

impl Past for VecPast {
    ghost use Rattle.std.specs.Prelude.{⊤};
    ghost use Rattle.rg_past.specs.Listed.{IsSound, Spells, Goes};
    ghost use Rattle.rg_past.specs.ListedLaws.{Goes-same, Goes-join, Goes-length, Goes-spells, IsSound-in_order};
    ghost use Rattle.rg_past.specs.Ranges.{IsInRange};

    ghost events = { λ p. p.events };

    ghost limit = { λ p. p.limit };

    ghost faults = { λ _. 0 };

    ghost ended = { λ _. ⊥ };

    ghost sound = { IsSound };

    ghost has_room = { λ _. ⊤ };

    ghost fits = { λ _ event. IsInRange event };

    ghost illegal = { λ _ _. ⊥ };

    ghost spells = { Spells };

    ghost spells_later = { Spells };

    ghost asks_illegal = { λ _ _. ⊥ };

    ghost reached = { λ _ _. ⊤ };

    ghost reached_event = { λ _ _. ⊤ };

    ghost whole = { λ _. ⊤ };

    ghost goes = { Goes };

    #[tactic(auto, using(crate::proofs::Rising::stays_sound))]
    fn append(&mut self, event: Event) -> Result<(), PastFault> {
        if self.events.len() as u64 >= self.limit {
            return Err(PastFault::Full);
        }
        if self.events.push(event).is_err() {
            return Err(PastFault::Memory);
        }
        Ok(())
    }

    fn peek(&mut self, spot: &mut Spot) -> Result<Option<&Event>, PastFault>
        requires { spot.old.number ≤ length (⟦<VecPast as Past>⟧.events self.old) }
        ensures* after { sem 𝓛 (Rests the_row self.entry (λ new.
            (⟦<VecPast as Past>⟧.events new ≡ ⟦<VecPast as Past>⟧.events self.old)
            × ⟦<VecPast as Past>⟧.goes self.old new
            × (⟦<VecPast as Past>⟧.ended new ↔ ⟦<VecPast as Past>⟧.ended self.old)
            × (⟦<VecPast as Past>⟧.sound self.old → ⟦<VecPast as Past>⟧.sound new)
            × (⟦<VecPast as Past>⟧.has_room self.old → ⟦<VecPast as Past>⟧.has_room new)
            × (⟦<VecPast as Past>⟧.faults self.old ≤ ⟦<VecPast as Past>⟧.faults new)
            × (IsErrOf result PastFault.Disk → Rose (⟦<VecPast as Past>⟧.faults self.old) (⟦<VecPast as Past>⟧.faults new))
            × ((place : ℕ) → IsErrOf result (PastFault.Damaged place) → ⟦<VecPast as Past>⟧.illegal new place)
            × (⟦<VecPast as Past>⟧.sound self.old → ⟦<VecPast as Past>⟧.spells self.old spot.old → ⟦<VecPast as Past>⟧.spells new spot.new × OnOk result (⟦<VecPast as Past>⟧.spells_later new spot.new)))) }
        ensures number { spot.new.number ≡ spot.old.number }
        ensures within { IsLookWithin (⟦<VecPast as Past>⟧.events self.old) spot.new result }
        ensures event { ⟦<VecPast as Past>⟧.sound self.old → ⟦<VecPast as Past>⟧.spells self.old spot.old → Shows (⟦<VecPast as Past>⟧.events self.old) spot.old.number result }
        ensures never_damaged { (place : ℕ) → ⟦<VecPast as Past>⟧.sound self.old → ⟦<VecPast as Past>⟧.spells self.old spot.old → IsErrOf result (PastFault.Damaged place) → ⊥ }
        ensures ended { IsErrOf result PastFault.Ended ↔ ⟦<VecPast as Past>⟧.ended self.old }
        ensures no_full { IsErrOf result PastFault.Full → ⊥ }
        ensures legal { ⟦<VecPast as Past>⟧.asks_illegal self.old spot.old → OnOk result ⊥ }
        ensures reached { ⟦<VecPast as Past>⟧.reached self.old spot.old → IfOk result (λ look. IfSome look (λ _. ⟦<VecPast as Past>⟧.reached_event self.old spot.new)) }
        ensures whole { ⟦<VecPast as Past>⟧.reached self.old spot.old → IfOk result (λ look. IfNone look (⟦<VecPast as Past>⟧.whole self.old)) }

        // No look is refused, and the spot stays as it is.
        ensures no_refusal { IsErr result → ⊥ }
        ensures stays { spot.new ≡ spot.old }
    {
        if spot.index >= 4096 {
            return Ok(None);
        }
        Ok(event_at(&self.events, spot.number))
    }

    fn advance(&self, spot: &mut Spot) {
        prove!(spot.number < self.count());
        spot.number += 1;
    }

    fn count(&self) -> u64 {
        self.events.len() as u64
    }

    fn start(&self) -> Spot {
        Spot {
            place: 0,
            index: 0,
            number: 0,
        }
    }

    ghost reflexive = { Goes-same };

    ghost transitive = { Goes-join };

    ghost limit_stays = { λ p q goes. goes.limit };

    ghost small_limit = { λ p sound. sound.small };

    ghost begins = { λ p q goes _. goes.events };

    ghost count_grows = { Goes-length };

    ghost fits_range = { λ p event fits. fits };

    ghost fits_stays = { λ p q event goes fits. fits };

    ghost spelled_within = { λ p s spells. spells.number };

    ghost stays_spelled = { λ p q s goes _ spells. Goes-spells p q s goes spells };

    ghost stays_asking = { λ _ _ _ _ none. none };

    ghost stays_reached = { λ _ _ _ _ all. all };

    ghost stays_at_event = { λ _ _ _ _ all. all };

    ghost later_is_spelled = { λ p s spells. spells };

    ghost in_order = { λ p sound _. IsSound-in_order p sound };
}

/// The event of that number, where there is one.
fn event_at(events: &[Event], number: u64) -> Option<&Event>
    ensures event { option_copied result ≡ slice_get events.now number }
    ensures within { IfSome result (λ _. number < length events.now) }
{
    events.get(number as usize)
}
