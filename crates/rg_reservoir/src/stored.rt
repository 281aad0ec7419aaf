ghost use Rattle.std.specs.Prelude.{◌≡◌, ◌↔◌, ◌≤◌, ℕ, IfOk, IfSome, IfNone, IsErrOf, OnOk, OnErr, length, []};
ghost use mir.Syntax.{named};
ghost use Rattle.std.specs.Borrow.{sem};
ghost use Rattle.std.specs.Io.BufRead.{Rests};
ghost use Rattle.rg_bytes.specs.Counts.{Rose};
ghost use Rattle.rg_past.specs.Peek.{IsLookWithin, Shows};
ghost use Rattle.rg_reservoir.specs.Kept.{base, settled, Looked};
ghost use Rattle.rg_reservoir.specs.HeldLooks.{LooksHeld};
ghost use Rattle.rg_reservoir.specs.contracts.stored.Stored.{the_row};

use crate::fault::past_fault;
use crate::reservoir::Reservoir;
use rg_event::Event;
use rg_host::Host;
use rg_past::{Past, PastFault, Spot};

/// A past over a reservoir and its host. What was looked at comes from the log, through the
/// reservoir's cache.
#[derive(Drop)]
pub struct Stored<'a, H> {
    pub reservoir: &'a mut Reservoir,
    pub host: &'a mut H,
}

impl<'a, H: Host> Stored<'a, H> {
    /// A past over these two.
    pub fn new(reservoir: &'a mut Reservoir, host: &'a mut H) -> Stored<'a, H>
        ensures same_reservoir { result.reservoir.ghost_name ≡ reservoir.entry.ghost_name }
        ensures same_host { result.host.ghost_name ≡ host.entry.ghost_name }
        ensures reservoir { result.reservoir.now ≡ reservoir.old }
        ensures host { result.host.now ≡ host.old }
    {
        Stored { reservoir, host }
    }
}

impl<'a, H: Host> Past for Stored<'a, H> {
    ghost use Rattle.std.specs.Prelude.{◌≡◌, ◌<◌, length, true};
    ghost use Rattle.std.specs.Option.{ForSome};
    ghost use Rattle.rg_event.specs.Codec.{IsEventOf};
    ghost use Rattle.rg_reservoir.specs.Chain.{IsIllegalBy};
    ghost use Rattle.rg_reservoir.specs.Kept.{base, view_of, opened, room_of, cache_of, all_events, IsSound, Spells, SpellsLater};
    ghost use Rattle.rg_reservoir.specs.Reached.{AsksIllegal, IsReached, IsReachedEvent, IsWhole};
    ghost use Rattle.rg_reservoir.specs.Going.{Goes};
    ghost use Rattle.rg_reservoir.specs.GoingLaws.{Goes-same, Goes-join, Goes-limit, Goes-count, Goes-spells, Goes-asking, Goes-reached, Goes-at_event, Goes-begins, Goes-fits, fits_range, later_spells, sound_order, spells_within, limit_small};

    ghost events = { λ p. all_events (H.now p.host.now) (base p.reservoir.now) (opened p.reservoir.now) };

    ghost limit = { λ p. (base p.reservoir.now).limit };

    ghost faults = { λ p. H.disk_faults p.host.now };

    ghost ended = { λ p. (base p.reservoir.now).ended ≡ true };

    ghost sound = { λ p. IsSound (H.now p.host.now) (H.may p.host.now) p.reservoir.now };

    ghost has_room = { λ p. length (opened p.reservoir.now) < room_of p.reservoir.now };

    ghost fits = { λ p event. IsEventOf (base p.reservoir.now).shape.fields event };

    ghost illegal = { λ p place. ForSome (H.now p.host.now) (λ v. IsIllegalBy (view_of (base p.reservoir.now)) place (v (base p.reservoir.now).file)) };

    ghost spells = { λ p s. Spells (H.now p.host.now) (base p.reservoir.now) (opened p.reservoir.now) s };

    ghost spells_later = { λ p s. SpellsLater (H.now p.host.now) (base p.reservoir.now) (opened p.reservoir.now) s };

    ghost asks_illegal = { λ p s. AsksIllegal (H.now p.host.now) (base p.reservoir.now) (cache_of p.reservoir.now) s };

    ghost reached = { λ p s. IsReached (H.now p.host.now) (base p.reservoir.now) (cache_of p.reservoir.now) s };

    ghost reached_event = { λ p s. IsReachedEvent (H.now p.host.now) (base p.reservoir.now) (cache_of p.reservoir.now) s };

    ghost whole = { λ p. ForSome (H.now p.host.now) (λ v. IsWhole (base p.reservoir.now) (v (base p.reservoir.now).file)) };

    ghost goes = { λ p q. Goes H.now H.may H.clock H.since H.said H.out_faults p.reservoir p.host q.reservoir q.host };

    fn append(&mut self, event: Event) -> Result<(), PastFault> {
        match self.reservoir.append(event) {
            Ok(()) => Ok(()),
            Err(fault) => Err(past_fault(fault)),
        }
    }

    #[inline(always)]
    fn peek(&mut self, spot: &mut Spot) -> Result<Option<&Event>, PastFault>
        requires { spot.old.number ≤ length (⟦<Stored<'a, H> as Past>⟧.events self.old) }

        // What a past promises of a look, and at the end which chunks are touched, loaded and read, and which looks need none of that.
        ensures* after { sem 𝓛 (Rests (the_row (record { mir = named 0; lft = [] }) H.row) self.entry (λ new.
            (⟦<Stored<'a, H> as Past>⟧.events new ≡ ⟦<Stored<'a, H> as Past>⟧.events self.old)
            × ⟦<Stored<'a, H> as Past>⟧.goes self.old new
            × (⟦<Stored<'a, H> as Past>⟧.ended new ↔ ⟦<Stored<'a, H> as Past>⟧.ended self.old)
            × (⟦<Stored<'a, H> as Past>⟧.sound self.old → ⟦<Stored<'a, H> as Past>⟧.sound new)
            × (⟦<Stored<'a, H> as Past>⟧.has_room self.old → ⟦<Stored<'a, H> as Past>⟧.has_room new)
            × (⟦<Stored<'a, H> as Past>⟧.faults self.old ≤ ⟦<Stored<'a, H> as Past>⟧.faults new)
            × (IsErrOf result PastFault.Disk → Rose (⟦<Stored<'a, H> as Past>⟧.faults self.old) (⟦<Stored<'a, H> as Past>⟧.faults new))
            × ((place : ℕ) → IsErrOf result (PastFault.Damaged place) → ⟦<Stored<'a, H> as Past>⟧.illegal new place)
            × (⟦<Stored<'a, H> as Past>⟧.sound self.old → ⟦<Stored<'a, H> as Past>⟧.spells self.old spot.old → ⟦<Stored<'a, H> as Past>⟧.spells new spot.new × OnOk result (⟦<Stored<'a, H> as Past>⟧.spells_later new spot.new))
            × Looked (H.now self.old.host.now) self.old.reservoir.now (settled (base self.old.reservoir.now) spot.old) (H.reads self.old.host.now) (H.reads new.host.now)
            (⟦<Stored<'a, H> as Past>⟧.sound self.old × ⟦<Stored<'a, H> as Past>⟧.spells self.old spot.old × OnErr result ⊥) new.reservoir.now
            × LooksHeld H.reads (OnErr result ⊥) (settled (base self.old.reservoir.now) spot.old) self.old.reservoir.now self.old.host.now new.reservoir.now new.host.now)) }
        ensures number { spot.new.number ≡ spot.old.number }
        ensures within { IsLookWithin (⟦<Stored<'a, H> as Past>⟧.events self.old) spot.new result }
        ensures event { ⟦<Stored<'a, H> as Past>⟧.sound self.old → ⟦<Stored<'a, H> as Past>⟧.spells self.old spot.old → Shows (⟦<Stored<'a, H> as Past>⟧.events self.old) spot.old.number result }
        ensures never_damaged { (place : ℕ) → ⟦<Stored<'a, H> as Past>⟧.sound self.old → ⟦<Stored<'a, H> as Past>⟧.spells self.old spot.old → IsErrOf result (PastFault.Damaged place) → ⊥ }
        ensures ended { IsErrOf result PastFault.Ended ↔ ⟦<Stored<'a, H> as Past>⟧.ended self.old }
        ensures no_full { IsErrOf result PastFault.Full → ⊥ }
        ensures legal { ⟦<Stored<'a, H> as Past>⟧.asks_illegal self.old spot.old → OnOk result ⊥ }
        ensures reached { ⟦<Stored<'a, H> as Past>⟧.reached self.old spot.old → IfOk result (λ look. IfSome look (λ _. ⟦<Stored<'a, H> as Past>⟧.reached_event self.old spot.new)) }
        ensures whole { ⟦<Stored<'a, H> as Past>⟧.reached self.old spot.old → IfOk result (λ look. IfNone look (⟦<Stored<'a, H> as Past>⟧.whole self.old)) }
    {
        match self.reservoir.seek(self.host, spot) {
            Ok(()) => {}
            Err(fault) => return Err(past_fault(fault)),
        }
        Ok(self.reservoir.at(spot))
    }

    fn advance(&self, spot: &mut Spot) {
        self.reservoir.advance(spot);
    }

    fn count(&self) -> u64 {
        self.reservoir.count()
    }

    fn start(&self) -> Spot {
        self.reservoir.start()
    }

    ghost reflexive = { λ p. Goes-same H.now H.may H.clock H.since H.said H.out_faults H.only_now H.sinks p.reservoir p.host };

    ghost transitive = { λ p q r first second. Goes-join H.now H.may H.clock H.since H.said H.out_faults p.reservoir p.host q.reservoir q.host r.reservoir r.host first second };

    ghost limit_stays = { λ p q goes. Goes-limit H.now H.may H.clock H.since H.said H.out_faults p.reservoir p.host q.reservoir q.host goes };

    ghost small_limit = { λ p sound. limit_small p.reservoir.now };

    ghost begins = { λ p q goes _. Goes-begins H.now H.may H.clock H.since H.said H.out_faults p.reservoir p.host q.reservoir q.host goes };

    ghost count_grows = { λ p q goes. Goes-count H.now H.may H.clock H.since H.said H.out_faults p.reservoir p.host q.reservoir q.host goes };

    ghost fits_range = { λ p event fits. fits_range p.reservoir.now event fits };

    ghost fits_stays = { λ p q event goes fits. Goes-fits H.now H.may H.clock H.since H.said H.out_faults p.reservoir p.host q.reservoir q.host event goes fits };

    ghost spelled_within = { λ p s spells. spells_within (H.now p.host.now) (base p.reservoir.now) (opened p.reservoir.now) s spells };

    ghost stays_spelled = { λ p q s goes sound spells. Goes-spells H.now H.may H.clock H.since H.said H.out_faults p.reservoir p.host q.reservoir q.host s goes spells };

    ghost stays_asking = { λ p q s goes. Goes-asking H.now H.may H.clock H.since H.said H.out_faults p.reservoir p.host q.reservoir q.host s goes };

    ghost stays_reached = { λ p q s goes. Goes-reached H.now H.may H.clock H.since H.said H.out_faults p.reservoir p.host q.reservoir q.host s goes };

    ghost stays_at_event = { λ p q s goes. Goes-at_event H.now H.may H.clock H.since H.said H.out_faults p.reservoir p.host q.reservoir q.host s goes };

    ghost later_is_spelled = { λ p s later. later_spells (H.now p.host.now) (base p.reservoir.now) (opened p.reservoir.now) s later };

    ghost in_order = { λ p sound going. sound_order (H.now p.host.now) (H.may p.host.now) p.reservoir.now sound going };
}
