ghost use Rattle.std.specs.Prelude.{◌↔◌, All, IsTrue};
ghost use Rattle.rg_past.specs.Listed.{Spells};

use crate::names::Names;
use rg_past::{Past, PastFault, Spot, VecPast};

impl Names for VecPast {
    ghost use Rattle.std.specs.Prelude.{⊤};
    ghost use Rattle.rg_past.specs.Listed.{Spells};

    ghost told = { λ _. ⊤ };

    ghost named = { Spells };

    ghost is_ready = { λ _. ⊤ };

    ghost damaged = { λ _ _. ⊥ };

    fn names(&mut self, spots: &[Spot]) -> Result<bool, PastFault> {
        Ok(are_spelled(self, spots))
    }

    ghost illegal_damaged = { λ _ _ is. is };

    ghost sound_told = { λ _ _. tt };

    ghost sound_named = { λ _ _ _. (λ is. is, λ is. is) };
}

/// Whether each spot is spelled.
fn are_spelled(past: &VecPast, spots: &[Spot]) -> bool
    ensures { IsTrue result ↔ All (Spells past.now) spots.now }
{
    'spots: for spot in spots {
        if !is_spelled(past, *spot) {
            return false;
        }
    }
    true
}

/// Whether a spot is the one of its number, and that is at most the count.
fn is_spelled(past: &VecPast, spot: Spot) -> bool
    ensures { IsTrue result ↔ Spells past.now spot }
{
    spot.place == 0 && spot.index == 0 && spot.number <= past.count()
}
