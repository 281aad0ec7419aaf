use crate::names::Names;
use rg_host::Host;
use rg_past::{PastFault, Spot};
use rg_reservoir::{Stored, past_fault};

/// It can be asked while its open chunk is empty and nothing failed; it names by the heads of its
/// chunks and its growths then.
impl<'a, H: Host> Names for Stored<'a, H> {
    ghost use Rattle.std.specs.Prelude.{◌≡◌, false, []};
    ghost use Rattle.rg_reservoir.specs.Kept.{base, opened};
    ghost use Rattle.rg_restore.specs.Naming.{IsListed, IsDamagedIn, NamesIn};
    ghost use Rattle.rg_restore.specs.NamingLaws.{illegal_damages, sound_listed, sound_names};

    ghost told = { λ p. IsListed (H.now p.host.now) };

    ghost named = { λ p spot. NamesIn (H.now p.host.now) (base p.reservoir.now) (base p.reservoir.now).ended (opened p.reservoir.now) spot };

    ghost is_ready = { λ p. (opened p.reservoir.now ≡ []) × ((base p.reservoir.now).ended ≡ false) };

    ghost damaged = { λ p place. IsDamagedIn (H.now p.host.now) (base p.reservoir.now) place };

    fn names(&mut self, spots: &[Spot]) -> Result<bool, PastFault> {
        match self.reservoir.names(self.host, spots) {
            Ok(named) => Ok(named),
            Err(fault) => Err(past_fault(fault)),
        }
    }

    ghost illegal_damaged = { λ p place is. illegal_damages (H.now p.host.now) (base p.reservoir.now) place is };

    ghost sound_told = { λ p sound. sound_listed (H.now p.host.now) (H.may p.host.now) p.reservoir.now (H.now_may p.host.now) sound };

    ghost sound_named = { λ p spot sound. sound_names (H.now p.host.now) (H.may p.host.now) p.reservoir.now spot sound };
}
