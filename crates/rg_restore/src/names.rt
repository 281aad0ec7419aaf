ghost use Rattle.std.specs.Prelude.{◌↔◌, ◌≡◌, ℕ, length, All, IfOk, IsErrOf, IsTrue};
ghost use Rattle.rg_past.specs.Keeping.{Kept, HasCause};
ghost use Rattle.rg_past.specs.declared.past.PastFault.{PastFault};
ghost use Rattle.rg_past.specs.declared.past.Spot.{Spot};
ghost use Rattle.rg_window.specs.Placed.{AreWithin};

use rg_past::{Past, PastFault, Spot};

/// A past that tells whether spots name an event or the end.
pub trait Names: Past {
    /// It is known which spots it names.
    ghost told: { Self → Type 0 };

    /// The spot names an event or the end.
    ghost named: { Self → Spot → Type 0 };

    /// It can be asked, as once it is opened.
    ghost is_ready: { Self → Type 0 };

    /// What stands at that place is damaged: it can't be read, or can't be told which spots it names.
    ghost damaged: { Self → ℕ → Type 0 };

    /// Whether each spot names an event or the end. Over a past that isn't told a yes says only that no
    /// spot is behind the end. Whatever it answers, it names and spells the same spots as before. Over a
    /// sound past it is never refused as damaged.
    fn names(&mut self, spots: &[Spot]) -> Result<bool, PastFault>
        requires ready { is_ready self.old }
        ensures names { told self.old → IfOk result (λ is. IsTrue is ↔ All (named self.old) spots.now) }
        ensures within { IfOk result (λ is. IsTrue is → AreWithin spots.now (length (Self.Past.events self.old))) }
        ensures named { (spot : Spot) → named self.new spot ↔ named self.old spot }
        ensures spells { (spot : Spot) → Self.Past.spells self.new spot ↔ Self.Past.spells self.old spot }
        ensures told { told self.old → told self.new }
        ensures ready { is_ready self.new }
        ensures events { Self.Past.events self.new ≡ Self.Past.events self.old }
        ensures room { Self.Past.has_room self.old → Self.Past.has_room self.new }
        ensures past { Kept Self.Past.goes Self.Past.sound Self.Past.ended Self.Past.faults self.old self.new }
        ensures cause { (fault : PastFault) → IsErrOf result fault →
            HasCause (damaged self.new) ⊥ (Self.Past.ended self.old) (Self.Past.faults self.old) (Self.Past.faults self.new) fault }
        ensures never_damaged { (place : ℕ) → Self.Past.sound self.old → IsErrOf result (PastFault.Damaged place) → ⊥ };

    /// What can't be read is damaged.
    ghost illegal_damaged: { (p : Self) (place : ℕ) → Self.Past.illegal p place → damaged p place };

    /// A sound past is told.
    ghost sound_told: { (p : Self) → Self.Past.sound p → told p };

    /// A sound past names just what it spells.
    ghost sound_named: { (p : Self) (s : Spot) → Self.Past.sound p → named p s ↔ Self.Past.spells p s };
}
