ghost use Rattle.std.specs.Prelude.{◌≡◌, ◌↔◌, ℕ, ◌+◌, ◌<◌, ◌≤◌, ◌^◌, List, [], ◌∷◌, ◌++◌, length, take, min, Some, None, slice_get, OnOk, OnErr, IfOk, IfSome, IfNone, IsErrOf};
ghost use Rattle.std.specs.Borrow.{sem};
ghost use Rattle.std.specs.Io.BufRead.{Rests};
ghost use Rattle.rg_bytes.specs.Counts.{Rose};
ghost use Rattle.rg_event.specs.declared.event.Event.{Event};
ghost use Rattle.rg_past.specs.declared.past.PastFault.{PastFault};
ghost use Rattle.rg_past.specs.Keeping.{Kept, HasCause};
ghost use Rattle.rg_past.specs.Peek.{IsLookWithin, Shows};

use rg_event::Event;
use rg_past::{Past, PastFault, Spot};
use std::alloc::Global;

/// A past of the first events of another one. It is full with them, and each of its looks is one at the other past.
#[derive(Drop)]
pub struct Shown<P> {
    /// The past whose events are shown.
    pub past: P,
    /// How many of them are shown, where there are as many.
    pub shown: u64,
}

impl<P: Past> Shown<P> {
    /// A past of the first so many events of this one.
    pub fn new(past: P, shown: u64) -> Shown<P>
        // It shows the first events of that past, and is full with them.
        ensures past { result.past ≡ past }
        ensures shown { result.shown ≡ shown }
    {
        Shown { past, shown }
    }

    /// Shows one event more, and hands out a copy of it; none where all are shown. The spot is that of the next event,
    /// and moves on to the one behind. A refusal, also for want of memory for the copy, shows what was shown.
    #[tactic(auto, using(crate::proofs::Front::take_one))]
    pub fn next(&mut self, alloc: Global, spot: &mut Spot) -> Result<Option<Event>, PastFault>
        requires at { spot.old.number ≡ self.old.shown }
        requires within { self.old.shown ≤ length (P.events self.old.past) }

        // Over a sound past it is the event of that number, and stands behind those that were shown.
        ensures event { P.sound self.old.past → P.spells self.old.past spot.old →
            IfOk result (λ found. found ≡ slice_get (P.events self.old.past) self.old.shown) }

        // Its own call shows the event behind those that it shows.
        ensures one { IfOk result (λ found. IfSome found (λ _. self.new.shown ≡ self.old.shown + 1)) }
        ensures more { P.sound self.old.past → P.spells self.old.past spot.old →
            IfOk result (λ found. IfSome found (λ event.
            take self.new.shown (P.events self.new.past) ≡ take self.old.shown (P.events self.old.past) ++ event ∷ [])) }

        // It shows none exactly where all are shown.
        ensures all { P.sound self.old.past → P.spells self.old.past spot.old →
            IfOk result (λ found. IfNone found (self.old.shown ≡ length (P.events self.old.past))) }
        ensures spells { P.sound self.old.past → P.spells self.old.past spot.old → P.spells self.new.past spot.new }
        ensures never_damaged { (place : ℕ) → P.sound self.old.past → P.spells self.old.past spot.old →
            IsErrOf result (PastFault.Damaged place) → ⊥ }

        // Over any past: what stands at an illegal place is neither an event nor the end.
        ensures legal { P.asks_illegal self.old.past spot.old → OnOk result ⊥ }
        ensures reached { P.reached self.old.past spot.old → IfOk result (λ found. IfSome found (λ _. P.reached self.new.past spot.new)) }
        ensures whole { P.reached self.old.past spot.old → IfOk result (λ found. IfNone found (P.whole self.old.past)) }

        ensures none { IfOk result (λ found. IfNone found (self.new.shown ≡ self.old.shown)) }
        ensures err { OnErr result (self.new.shown ≡ self.old.shown) }
        ensures number { spot.new.number ≡ self.new.shown }
        ensures within_still { self.new.shown ≤ length (P.events self.new.past) }
        ensures events { P.events self.new.past ≡ P.events self.old.past }
        ensures kept { Kept P.goes P.sound P.ended P.faults self.old.past self.new.past }
        ensures cause { (fault : PastFault) → IsErrOf result fault →
            HasCause (P.illegal self.new.past) ⊥ (P.ended self.old.past) (P.faults self.old.past) (P.faults self.new.past) fault }
    {
        let copied = match self.past.peek(spot) {
            Err(fault) => return Err(fault),
            Ok(None) => return Ok(None),
            Ok(Some(event)) => event.copy(alloc),
        };
        match copied {
            Err(_) => return Err(PastFault::Memory),
            Ok(event) => {
                self.past.advance(spot);
                let _count = self.past.count();
                self.shown += 1;
                Ok(Some(event))
            }
        }
    }
}

impl<P: Past> Past for Shown<P> {
    ghost use Rattle.std.specs.Prelude.{◌≡◌, length, take, [], refl};
    ghost use Rattle.rg_past.specs.Ranges.{IsInRange};
    ghost use Rattle.rg_past_prefix.specs.Shows.{IsSoundFront, SpellsFront, IsWholeFront, GoesFront};
    ghost use Rattle.rg_past_prefix.specs.ShowsLaws.{front_same, front_join, front_limit, front_small, front_begins, front_grows, front_spells, front_order, front_later};

    ghost events = { λ s. take s.shown (P.events s.past) };

    ghost limit = { λ s. length (take s.shown (P.events s.past)) };

    ghost faults = { λ s. P.faults s.past };

    ghost ended = { λ s. P.ended s.past };

    ghost sound = { λ s. IsSoundFront (P.sound s.past) (P.events s.past) };

    ghost has_room = { λ s. P.ended s.past → ⊥ };

    ghost fits = { λ _ event. IsInRange event };

    ghost illegal = { λ s place. P.illegal s.past place };

    ghost spells = { λ s spot. SpellsFront (P.spells s.past spot) spot.number s.shown (P.events s.past) };

    ghost spells_later = { λ s spot. SpellsFront (P.spells_later s.past spot) spot.number s.shown (P.events s.past) };

    ghost asks_illegal = { λ s spot. P.asks_illegal s.past spot };

    ghost reached = { λ s spot. P.reached s.past spot };

    ghost reached_event = { λ s spot. P.reached_event s.past spot };

    ghost whole = { λ s. IsWholeFront (P.whole s.past) s.shown (P.events s.past) };

    ghost goes = { λ p q. GoesFront (P.goes p.past q.past) (P.events p.past) (P.events q.past) p.shown q.shown };

    fn append(&mut self, event: Event) -> Result<(), PastFault> {
        Err(PastFault::Full)
    }

    fn peek(&mut self, spot: &mut Spot) -> Result<Option<&Event>, PastFault> {
        let within = spot.number < self.shown;
        match self.past.peek(spot) {
            Err(fault) => Err(fault),
            Ok(None) => Ok(None),
            Ok(Some(event)) => { if within { Ok(Some(event)) } else { Ok(None) } }
        }
    }

    fn advance(&self, spot: &mut Spot) {
        self.past.advance(spot);
    }

    fn count(&self) -> u64 {
        let count = self.past.count();
        if self.shown < count {
            self.shown
        } else {
            count
        }
    }

    fn start(&self) -> Spot {
        self.past.start()
    }

    ghost reflexive = { λ p. front_same (P.reflexive p.past) };

    ghost transitive = { λ p q r first second. front_join (P.transitive p.past q.past r.past) first second };

    ghost limit_stays = { λ p q goes. front_limit goes };

    ghost small_limit = { λ p sound. front_small p.shown sound };

    ghost begins = { λ p q goes _. front_begins goes };

    ghost count_grows = { λ p q goes. front_grows goes };

    ghost fits_range = { λ p event fits. fits };

    ghost fits_stays = { λ p q event goes fits. fits };

    ghost spelled_within = { λ p s spells. spells.within };

    ghost stays_spelled = { λ p q s goes sound spells. front_spells goes (P.stays_spelled p.past q.past s goes.goes sound.sound) spells };

    ghost stays_asking = { λ p q s goes. P.stays_asking p.past q.past s goes.goes };

    ghost stays_reached = { λ p q s goes. P.stays_reached p.past q.past s goes.goes };

    ghost stays_at_event = { λ p q s goes. P.stays_at_event p.past q.past s goes.goes };

    ghost later_is_spelled = { λ p s spells. front_later (P.later_is_spelled p.past s) spells };

    ghost in_order = { λ p sound going. front_order _ p.shown (P.in_order p.past sound.sound going) };
}
