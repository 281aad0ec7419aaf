ghost use Rattle.std.specs.Prelude.{◌≡◌, ℕ, ◌≤◌, ◌<◌, ◌^◌, length, All, IfOk, IfErr, OnOk, IsErrOf, Some, slice_get, slice_index_or};
ghost use Rattle.rg_past.specs.declared.past.Spot.{Spot};
ghost use Rattle.rg_past.specs.Keeping.{Kept, HasCause};
ghost use Rattle.rg_window.specs.Chain.{Moved};
ghost use Rattle.rg_window.specs.Halting.{Goes, HaltsAt};
ghost use Rattle.rg_window.specs.Moving.{MayRefuse, Keeps};
ghost use Rattle.rg_window.specs.Passing.{has_come, passed, Reaches};
ghost use Rattle.rg_window.specs.Placed.{AreRising, AreWithin, IsSpelledAt, numbers_of};

use crate::visit::Visit;
use rg_bytes::Memory;
use rg_event::Event;
use rg_past::{Past, PastFault, Spot};
use std::alloc::Global;
use std::marker::Model;

/// Why edges stopped on their way.
#[derive(Clone, Copy, Debug, PartialEq, Eq, Hash)]
pub enum MoveFault<F> {
    /// A call on the past was refused.
    Past(PastFault),
    /// The visitor refused an event.
    Visit(F),
}

/// Edges over a past: at each offset, in milliseconds, an edge stands at the event that comes to it next.
#[derive(Debug, Drop)]
pub struct Edges {
    offsets: Vec<u64>,
    spots: Vec<Spot>,
}

impl Model for Edges {
    ghost use Rattle.rg_window.specs.Placed.{Placed, ArePlaced};

    ghost Value = { Placed };

    ghost view = { λ e. record { offsets = e.offsets.items; spots = e.spots.items } };

    ghost invariant = { λ e. ArePlaced (record { offsets = e.offsets.items; spots = e.spots.items }) };
}

impl Edges {
    /// Edges of these offsets, which rise, each at its spot: as many spots as offsets, fewer than 2^32.
    pub fn new(alloc: Global, offsets: &[u64], at: &[Spot]) -> Result<Edges, Memory>
        requires same { length at.now ≡ length offsets.now }
        requires few { length at.now < 2 ^ 32 }
        requires rising { AreRising offsets.now }
        ensures offsets { IfOk result (λ edges. edges.offsets ≡ offsets.now) }
        ensures spots { IfOk result (λ edges. edges.spots ≡ at.now) }
    {
        Ok(Edges {
            offsets: Vec::from_slice(alloc, offsets)?,
            spots: Vec::from_slice(alloc, at)?,
        })
    }

    /// The offsets, in milliseconds, which rise.
    pub fn offsets(&self) -> &[u64]
        ensures offsets { result.now ≡ self.now.offsets }
        ensures rising { AreRising self.now.offsets }
    {
        &self.offsets
    }

    /// Where the edges stand, one spot for each offset.
    pub fn spots(&self) -> &[Spot]
        ensures spots { result.now ≡ self.now.spots }
        ensures same { length self.now.spots ≡ length self.now.offsets }
        ensures few { length self.now.spots < 2 ^ 32 }
    {
        &self.spots
    }

    /// Moves the edges to time `t`, one after the other in rising order of offset: while the event at
    /// the edge has a time of at most `t` less the offset, the event is visited and the edge goes on.
    /// Over a sound past an edge whose spot the past spells moves just so, whatever the spots of the
    /// others are, and where it spells them all, none stops at a damaged place. No edge ever goes
    /// back. Over a past that has ended the first look is refused, and nothing is visited. Over any past the
    /// move is refused where an edge stands at a spot whose look asks for an illegal place.
    ///
    /// After a refusal each edge stands where it had come to, those behind the one that stopped where
    /// they stood before, and the next move goes on from there.
    pub fn move_to<P: Past, V: Visit>(
        &mut self,
        past: &mut P,
        t: u64,
        visit: &mut V,
    ) -> Result<(), MoveFault<V::Fault>>
        requires { AreWithin self.old.spots (length (P.events past.old)) }
        // The edges move as far as the time says, and visit what they cross in order.
        ensures moved { OnOk result (Moved V.step visit.old visit.new self.old.offsets t
            (numbers_of self.old.spots) (numbers_of self.new.spots)
            (λ edge. P.sound past.old × IsSpelledAt (P.spells past.old) self.old.spots edge)
            (P.events past.old) (length self.old.offsets)) }

        // Each edge does so by itself, whatever the spots of the others are.
        ensures reached { P.sound past.old → (edge : ℕ) →
            IsSpelledAt (P.spells past.old) self.old.spots edge →
            OnOk result (Reaches (P.events past.old) t self.old.offsets
            (numbers_of self.old.spots) (numbers_of self.new.spots) edge) }

        // At a refusal it is told how far they came and whose fault it was.
        ensures halted { IfErr result (λ fault. HaltsAt V.step visit.old visit.new self.old.offsets t
            (numbers_of self.old.spots) (numbers_of self.new.spots)
            (λ edge. P.sound past.old × IsSpelledAt (P.spells past.old) self.old.spots edge)
            (P.events past.old) fault) }

        // No edge goes back.
        ensures rises { (edge : ℕ) → slice_index_or (numbers_of self.old.spots) edge 0
            ≤ slice_index_or (numbers_of self.new.spots) edge 0 }

        // A past that has ended is told, and nothing is visited.
        ensures stops { P.ended past.old → 0 < length self.old.offsets →
            IsErrOf result (MoveFault.Past PastFault.Ended) }
        ensures unvisited { P.ended past.old → visit.new ≡ visit.old }
        ensures legal { (edge : ℕ) (spot : Spot) → slice_get self.old.spots edge ≡ Some spot →
            P.asks_illegal past.old spot → OnOk result ⊥ }
        ensures cause { (fault : PastFault) → IsErrOf result (MoveFault.Past fault) →
            HasCause (P.illegal past.new) ⊥ (P.ended past.old) (P.faults past.old) (P.faults past.new) fault }
        ensures never_damaged { (place : ℕ) → P.sound past.old → All (P.spells past.old) self.old.spots →
            IsErrOf result (MoveFault.Past (PastFault.Damaged place)) → ⊥ }

        ensures offsets { self.new.offsets ≡ self.old.offsets }
        ensures same { length self.new.spots ≡ length self.old.spots }
        ensures within { AreWithin self.new.spots (length (P.events past.new)) }
        ensures spells { P.sound past.old → (edge : ℕ) →
            IsSpelledAt (P.spells past.old) self.old.spots edge →
            IsSpelledAt (P.spells past.new) self.new.spots edge }

        // The past's list stays.
        ensures events { P.events past.new ≡ P.events past.old }
        ensures room { P.has_room past.old → P.has_room past.new }
        ensures past { Kept P.goes P.sound P.ended P.faults past.old past.new }
    {
        'edges: for edge in 0..self.spots.len() {
            let mut spot = self.spots[edge];
            let offset = self.offsets[edge];
            let moved = move_edge(past, &mut spot, edge as u32, offset, t, visit);
            self.spots[edge] = spot;
            match moved {
                Err(fault) => return Err(fault),
                Ok(()) => {}
            }
        }
        Ok(())
    }
}

/// Moves one edge to time t.
fn move_edge<P: Past, V: Visit>(
    past: &mut P,
    spot: &mut Spot,
    edge: u32,
    offset: u64,
    t: u64,
    visit: &mut V,
) -> Result<(), MoveFault<V::Fault>>
    requires { spot.old.number ≤ length (P.events past.old) }
    ensures goes { Goes V.step edge visit.old visit.new spot.old.number spot.new.number
        (P.sound past.old × P.spells past.old spot.old)
        (passed (P.events past.old) t offset spot.old.number) result }
    ensures refuses { MayRefuse (P.illegal past.new) (P.asks_illegal past.old spot.old) (P.ended past.old) (P.sound past.old × P.spells past.old spot.old)
        (P.faults past.old) (P.faults past.new) visit.old visit.new result }
    ensures keeps { Keeps P.goes P.sound P.ended P.has_room P.events P.faults P.spells past.old past.new spot.old spot.new }
{
    'edge: loop {
        let event = match past.peek(spot) {
            Err(fault) => return Err(MoveFault::Past(fault)),
            Ok(None) => return Ok(()),
            Ok(Some(event)) => event,
        };
        if !has_come_to(event, offset, t) {
            return Ok(());
        }
        match visit.event(edge, event) {
            Err(fault) => return Err(MoveFault::Visit(fault)),
            Ok(()) => {}
        }
        past.advance(spot);
    }
}

/// Whether at time t an edge of this offset has come to the event.
fn has_come_to(event: &Event, offset: u64, t: u64) -> bool
    ensures { result ≡ has_come offset t event.now }
{
    offset <= t && event.time <= t - offset
}
