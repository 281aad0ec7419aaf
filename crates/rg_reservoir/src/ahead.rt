ghost use Rattle.std.specs.Prelude.{◌≡◌, ◌⊎◌, ◌↔◌, ◌≤◌, ℕ, Some, true, false, IfErr, OnOk, IsErrOf, All};
ghost use Rattle.std.specs.Option.{ForSome};
ghost use Rattle.rg_bytes.specs.Counts.{Rose};
ghost use Rattle.rg_host.specs.Image.{Image};
ghost use Rattle.rg_host.specs.Moments.{LeavesAll};
ghost use Rattle.rg_cache.specs.Cache.{item_at};
ghost use Rattle.rg_reservoir.specs.Ahead.{closed_behind, ahead_places, all_ahead, SomeTouched, OnlyLoads, Touches, IsLoadStop};
ghost use Rattle.rg_reservoir.specs.Chain.{chunk_at, IsIllegalBy};
ghost use Rattle.rg_reservoir.specs.Kept.{base, view_of, opened, cache_of, loads_of, IsCached, IsInside, IsSound, settled, SpellsSettled, Spells, InChunk, Stays, AllTouched};
ghost use Rattle.rg_reservoir.specs.declared.kept.Kept.{Kept};

use crate::fault::ReservoirFault;
use crate::reservoir::Reservoir;
use rg_host::Host;
use rg_past::Spot;

impl Reservoir {
    /// Loads ahead: for each of these spots in order that is one of a closed chunk, touches what a look at
    /// it touches, and then the chunk behind that of its event, where it is closed. A place that is held
    /// costs nothing, and of another one the frame is read and kept. The spots stay as they are, and
    /// nothing is written. A refusal leaves what was loaded before it.
    pub fn ahead<H: Host>(&mut self, host: &mut H, spots: &[Spot]) -> Result<(), ReservoirFault>
        // No event changes.
        ensures stays { Stays self.old self.new }

        // Over any image that is told, some of the touches and no other; over a sound reservoir and spelled spots all of them.
        ensures touched { (v : Image) → H.now host.old ≡ Some v → IsCached (view_of (base self.old)) (v (base self.old).file) (cache_of self.old) →
            SomeTouched (all_ahead (base self.old) (v (base self.old).file) spots.now) (cache_of self.old) (cache_of self.new) (loads_of self.old) (loads_of self.new) }

        // What is loaded, held and read is exact.
        ensures loaded { (sound : IsSound (H.now host.old) (H.may host.old) self.old) → All (Spells (H.now host.old) (base self.old) (opened self.old)) spots.now →
            OnOk result (AllTouched (all_ahead (base self.old) (sound.0 (base self.old).file) spots.now) (cache_of self.old) (loads_of self.old) (H.reads host.old) (cache_of self.new) (loads_of self.new) (H.reads host.new)) }

        // What is cached stays right and inside the log.
        ensures cached { (v : Image) → H.now host.old ≡ Some v → IsCached (view_of (base self.old)) (v (base self.old).file) (cache_of self.old) → IsCached (view_of (base self.old)) (v (base self.old).file) (cache_of self.new) }
        ensures inside { IsInside (base self.old).end (cache_of self.old) → IsInside (base self.old).end (cache_of self.new) }
        ensures sound { IsSound (H.now host.old) (H.may host.old) self.old → IsSound (H.now host.new) (H.may host.new) self.new }

        // At spelled spots of a sound log a load is never refused as damaged.
        ensures never_damaged { (p : ℕ) → IsSound (H.now host.old) (H.may host.old) self.old → All (Spells (H.now host.old) (base self.old) (opened self.old)) spots.now → IsErrOf result (ReservoirFault.Damaged p) → ⊥ }

        ensures ended { IsErrOf result ReservoirFault.Ended ↔ ((base self.old).ended ≡ true) }
        ensures untouched { IsErrOf result ReservoirFault.Ended → (self.new ≡ self.old) × (host.new ≡ host.old) }

        // Each refusal has its cause, and no file is written.
        ensures damaged { (p : ℕ) → IsErrOf result (ReservoirFault.Damaged p) → ForSome (H.now host.old) (λ v. IsIllegalBy (view_of (base self.old)) p (v (base self.old).file)) }
        ensures disk { IsErrOf result ReservoirFault.Disk → Rose (H.disk_faults host.old) (H.disk_faults host.new) }
        ensures faults { IfErr result (λ fault. (fault ≡ ReservoirFault.Disk) ⊎ (fault ≡ ReservoirFault.Memory) ⊎ ((p : ℕ) × (fault ≡ ReservoirFault.Damaged p)) ⊎ (fault ≡ ReservoirFault.Ended)) }
        ensures leaves { LeavesAll H.now H.may H.clock H.since H.said host.old host.new }
        ensures disk_faults { H.disk_faults host.old ≤ H.disk_faults host.new }
        ensures out_faults { H.out_faults host.new ≡ H.out_faults host.old }
    {
        if self.ended {
            return Err(ReservoirFault::Ended);
        }
        match self.load_each(host, spots) {
            Ok(()) => Ok(()),
            Err(fault) => Err(fault),
        }
    }

    /// Loads ahead for these spots in order.
    fn load_each<H: Host>(&mut self, host: &mut H, spots: &[Spot]) -> Result<(), ReservoirFault>
        requires going { (base self.old).ended ≡ false }
        ensures only { OnlyLoads H.now H.may H.clock H.since H.said H.disk_faults H.out_faults self.old self.new host.old host.new }
        ensures touches { Touches H.now H.may H.reads (λ bytes. all_ahead (base self.old) bytes spots.now) (λ _. All (Spells (H.now host.old) (base self.old) (opened self.old)) spots.now) result self.old self.new host.old host.new }
        ensures stops { IsLoadStop H.now H.disk_faults result self.old host.old host.new }
    {
        'spots: for spot in spots {
            match self.load_ahead(host, self.settled(*spot)) {
                Ok(()) => {}
                Err(fault) => return Err(fault),
            }
        }
        Ok(())
    }

    /// A spot, behind the growths that stand at its place.
    fn settled(&self, spot: Spot) -> Spot
        ensures { result ≡ settled (base self.now) spot }
    {
        Spot {
            place: self.growths.passed(spot.place),
            index: spot.index,
            number: spot.number,
        }
    }

    /// Touches what a look at a spot touches, and then the chunk behind that of its event, where it is closed. No growth
    /// stands at the spot's place.
    fn load_ahead<H: Host>(&mut self, host: &mut H, spot: Spot) -> Result<(), ReservoirFault>
        requires going { (base self.old).ended ≡ false }
        ensures only { OnlyLoads H.now H.may H.clock H.since H.said H.disk_faults H.out_faults self.old self.new host.old host.new }
        ensures touches { Touches H.now H.may H.reads (λ bytes. ahead_places (base self.old) bytes spot) (λ _. SpellsSettled (H.now host.old) (base self.old) (opened self.old) spot) result self.old self.new host.old host.new }
        ensures stops { IsLoadStop H.now H.disk_faults result self.old host.old host.new }
    {
        if spot.number >= self.committed {
            return Ok(());
        }
        match self.touch(host, spot.place) {
            Ok(true) => {}
            Ok(false) => return Ok(()),
            Err(fault) => return Err(fault),
        }
        let next = match self.next_of(spot.place, spot.index) {
            Some(next) => next,
            None => return self.load_behind(host, spot.place),
        };
        match self.touch(host, next) {
            Ok(true) => {}
            Ok(false) => return Ok(()),
            Err(fault) => return Err(fault),
        }
        self.load_behind(host, next)
    }

    /// Touches the chunk behind the one that is held at that place, where it is closed.
    fn load_behind<H: Host>(&mut self, host: &mut H, place: u64) -> Result<(), ReservoirFault>
        requires going { (base self.old).ended ≡ false }
        requires held { (kept : Kept) × (item_at place (cache_of self.old) ≡ Some kept) }
        ensures only { OnlyLoads H.now H.may H.clock H.since H.said H.disk_faults H.out_faults self.old self.new host.old host.new }
        ensures touches { Touches H.now H.may H.reads (λ bytes. closed_behind (base self.old).end (chunk_at (view_of (base self.old)) place bytes)) (λ v. (index : ℕ) × (number : ℕ) × InChunk (base self.old) (v (base self.old).file) place index number) result self.old self.new host.old host.new }
        ensures stops { IsLoadStop H.now H.disk_faults result self.old host.old host.new }
    {
        let next = match self.closed_next(place) {
            Some(next) => next,
            None => return Ok(()),
        };
        match self.touch(host, next) {
            Ok(true) => Ok(()),
            Ok(false) => Ok(()),
            Err(fault) => Err(fault),
        }
    }
}
