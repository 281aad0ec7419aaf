ghost use Rattle.std.specs.Prelude.{◌≡◌, ◌↔◌, ℕ, ◌+◌, ◌<◌, ◌≤◌, ◌^◌, List, [], ◌∷◌, ◌++◌, length, OnOk, OnErr, IfOk, IfSome, IfNone, IsErrOf};
ghost use Rattle.std.specs.Borrow.{sem};
ghost use Rattle.std.specs.Io.BufRead.{Rests};
ghost use Rattle.rg_bytes.specs.Counts.{Rose};
ghost use Rattle.rg_event.specs.declared.event.Event.{Event};
ghost use Rattle.rg_past.specs.declared.past.Spot.{Spot};
ghost use Rattle.rg_event.specs.Rising.{IsRising, MayFollow};
ghost use Rattle.rg_past.specs.Peek.{IsLookWithin, Shows};
ghost use Rattle.rg_past.specs.Ranges.{IsInRange};

use rg_event::Event;

/// A spot of a past: it names event `number`, or the end where that is the count.
#[derive(Clone, Copy, Debug, PartialEq, Eq, Hash)]
pub struct Spot {
    /// Where the event's chunk stands, in bytes.
    pub place: u64,
    /// The event's index in its chunk.
    pub index: u32,
    /// The event's number, from 0.
    pub number: u64,
}

/// Why a call on a past was refused.
#[derive(Clone, Copy, Debug, PartialEq, Eq, Hash)]
pub enum PastFault {
    /// A call on the disk failed.
    Disk,
    /// What stands at that place is damaged.
    Damaged(u64),
    /// The past holds as many events as it may.
    Full,
    /// Memory ran out.
    Memory,
    /// An earlier failure ended the past.
    Ended,
}

/// The events so far.
pub trait Past {
    /// The events, the first one first.
    ghost events: { Self → List Event };

    /// How many events it may hold.
    ghost limit: { Self → ℕ };

    /// How often a call on its disk has failed, up to 2^64 - 1.
    ghost faults: { Self → ℕ };

    /// An earlier failure ended it.
    ghost ended: { Self → Type 0 };

    /// What it reads is what was stored.
    ghost sound: { Self → Type 0 };

    /// There is room for one event more before the next commit.
    ghost has_room: { Self → Type 0 };

    /// The event is one of the past's schema, within its ranges.
    ghost fits: { Self → Event → Type 0 };

    /// What stands at that place is damaged.
    ghost illegal: { Self → ℕ → Type 0 };

    /// The spot's number is at most the count, and its place and index are a spelling of that event or of the end.
    ghost spells: { Self → Spot → Type 0 };

    /// The spot's number is at most the count, and its place and index are the later one of two spellings of that event
    /// or of the end.
    ghost spells_later: { Self → Spot → Type 0 };

    /// A look at the spot asks for what stands at an illegal place.
    ghost asks_illegal: { Self → Spot → Type 0 };

    /// What stands in front of the spot's place is legal, and the spot's index goes on from there to its number.
    ghost reached: { Self → Spot → Type 0 };

    /// What stands at the spot's place is legal too, and an event of it is at the spot's index.
    ghost reached_event: { Self → Spot → Type 0 };

    /// No place of a stored event is illegal.
    ghost whole: { Self → Type 0 };

    /// From an earlier state of one past to a later one.
    ghost goes: { Self → Self → Type 0 };

    /// Adds an event at the end. Its order is asked for only where it can be known: of a sound past that hasn't ended.
    fn append(&mut self, event: Event) -> Result<(), PastFault>
        requires room { has_room self.old }
        requires fits { fits self.old event }
        requires follows { sound self.old → (ended self.old → ⊥) → MayFollow (events self.old) event }
        // The event comes behind the others, or the list stays.
        ensures ok { OnOk result (events self.new ≡ events self.old ++ event ∷ []) }
        ensures err { OnErr result (events self.new ≡ events self.old) }

        // A refused append keeps its room.
        ensures keeps_room { OnErr result (has_room self.old → has_room self.new) }

        // Ended is looked at first, and then Full.
        ensures ended { IsErrOf result PastFault.Ended ↔ ended self.old }
        ensures full { IsErrOf result PastFault.Full → limit self.old ≤ length (events self.old) }
        ensures below { OnOk result (length (events self.old) < limit self.old) }

        // An append calls no disk, so it tells neither Disk nor damage.
        ensures no_disk { IsErrOf result PastFault.Disk → ⊥ }
        ensures no_damage { (place : ℕ) → IsErrOf result (PastFault.Damaged place) → ⊥ }

        // The past goes on, a sound one stays sound, and no fault is lost.
        ensures goes { goes self.old self.new }
        ensures keeps_ended { ended self.new ↔ ended self.old }
        ensures sound { sound self.old → sound self.new }
        ensures later { faults self.old ≤ faults self.new };

    /// Looks at the event of a spot. Over a sound past an answer leaves the spot in its later spelling,
    /// and a look at a spelled spot is never refused as damaged. Over any past what stands at an illegal
    /// place is never taken for an event, nor for the end.
    fn peek(&mut self, spot: &mut Spot) -> Result<Option<&Event>, PastFault>
        requires { spot.old.number ≤ length (events self.old) }
        // A look changes no event; each fault has its cause; and over a sound past a spelled spot stays spelled.
        ensures* after { sem 𝓛 (Rests Self.row self.entry (λ new.
            (events new ≡ events self.old)
            × goes self.old new
            × (ended new ↔ ended self.old)
            × (sound self.old → sound new)
            × (has_room self.old → has_room new)
            × (faults self.old ≤ faults new)
            × (IsErrOf result PastFault.Disk → Rose (faults self.old) (faults new))
            × ((place : ℕ) → IsErrOf result (PastFault.Damaged place) → illegal new place)
            × (sound self.old → spells self.old spot.old → spells new spot.new × OnOk result (spells_later new spot.new)))) }
        ensures number { spot.new.number ≡ spot.old.number }
        ensures within { IsLookWithin (events self.old) spot.new result }

        // Over a sound past a spelled spot shows its event, and nothing only at the end.
        ensures event { sound self.old → spells self.old spot.old → Shows (events self.old) spot.old.number result }

        // A look at a spelled spot of a sound past is never refused as damaged.
        ensures never_damaged { (place : ℕ) → sound self.old → spells self.old spot.old → IsErrOf result (PastFault.Damaged place) → ⊥ }
        ensures ended { IsErrOf result PastFault.Ended ↔ ended self.old }
        ensures no_full { IsErrOf result PastFault.Full → ⊥ }

        // Of any past, a sound one or not.
        ensures legal { asks_illegal self.old spot.old → OnOk result ⊥ }
        ensures reached { reached self.old spot.old → IfOk result (λ look. IfSome look (λ _. reached_event self.old spot.new)) }
        ensures whole { reached self.old spot.old → IfOk result (λ look. IfNone look (whole self.old)) };

    /// Moves a spot on to the next event.
    fn advance(&self, spot: &mut Spot)
        requires number { spot.old.number < length (events self.now) }
        requires index { spot.old.index < 4096 }
        ensures next { spot.new.number ≡ spot.old.number + 1 }

        // Over a sound past the next spot is spelled.
        ensures spells { sound self.now → spells_later self.now spot.old → spells self.now spot.new }
        ensures reached { reached_event self.now spot.old → reached self.now spot.new };

    /// How many events there are.
    fn count(&self) -> u64
        ensures { result ≡ length (events self.now) };

    /// The spot of event 0.
    fn start(&self) -> Spot
        ensures number { result.number ≡ 0 }
        ensures spells { sound self.now → (ended self.now → ⊥) → spells self.now result };

    ghost reflexive: { (p : Self) → goes p p };

    ghost transitive: { (p q r : Self) → goes p q → goes q r → goes p r };

    ghost limit_stays: { (p q : Self) → goes p q → limit q ≡ limit p };

    /// The limit of a sound past is at most 2^40.
    ghost small_limit: { (p : Self) → sound p → limit p ≤ 2 ^ 40 };

    /// From a sound state on the earlier events begin the later ones.
    ghost begins: { (p q : Self) → goes p q → sound p → (added : List Event) × (events q ≡ events p ++ added) };

    ghost count_grows: { (p q : Self) → goes p q → length (events p) ≤ length (events q) };

    /// An event that fits has an offset below 2^62 and a time of at most 10^15 milliseconds.
    ghost fits_range: { (p : Self) (event : Event) → fits p event → IsInRange event };

    ghost fits_stays: { (p q : Self) (event : Event) → goes p q → fits p event → fits q event };

    ghost spelled_within: { (p : Self) (s : Spot) → spells p s → s.number ≤ length (events p) };

    ghost stays_spelled: { (p q : Self) (s : Spot) → goes p q → sound p → spells p s → spells q s };

    ghost stays_asking: { (p q : Self) (s : Spot) → goes p q → asks_illegal p s → asks_illegal q s };

    ghost stays_reached: { (p q : Self) (s : Spot) → goes p q → reached p s → reached q s };

    ghost stays_at_event: { (p q : Self) (s : Spot) → goes p q → reached_event p s → reached_event q s };

    ghost later_is_spelled: { (p : Self) (s : Spot) → spells_later p s → spells p s };

    /// The events of a sound past that hasn't ended are at most 2^40 and in order.
    ghost in_order: { (p : Self) → sound p → (ended p → ⊥) → IsRising (events p) × (length (events p) ≤ 2 ^ 40) };
}
