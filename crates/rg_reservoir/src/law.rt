ghost use Rattle.std.specs.Prelude.{◌≡◌, ◌↔◌, ◌≤◌, ◌+◌, ◌++◌, ◌∷◌, ℕ, List, false, [], Some, length};
ghost use Rattle.rg_event.specs.Shapes.{Shape};
ghost use Rattle.rg_event.specs.declared.event.Event.{Event as TheEvent};
ghost use Rattle.rg_frame.specs.Frames.{frames, HasPayloads};
ghost use Rattle.rg_frame.specs.Steps.{Grown};
ghost use Rattle.rg_host.specs.Image.{Image};
ghost use Rattle.rg_past.specs.declared.past.Spot.{Spot};
ghost use Rattle.rg_log.specs.Log.{IsLegalLog, HasFrame};
ghost use Rattle.rg_log.specs.Plain.{IsPlainLog};
ghost use Rattle.rg_log.specs.Spots.{SpotIn};
ghost use Rattle.rg_log.specs.Stages.{Stage, IsStage, logged, plain as plain_stages};
ghost use Rattle.rg_reservoir.specs.Chain.{events_from};
ghost use Rattle.rg_reservoir.specs.GrownViews.{IsViewOf, IsReadThrough, IsUngrown, view_after};
ghost use Rattle.rg_reservoir.specs.Kept.{base, opened, IsSound, Spells};
ghost use Rattle.rg_reservoir.specs.Views.{View, plain, passed};
ghost use Rattle.rg_reservoir.specs.declared.reservoir.Reservoir.{Reservoir as TheReservoir};

use rg_frame::law_frames;
use rg_host::Host;

/// A sound reservoir that hasn't ended and has no event in its open chunk spells exactly the spots
/// of its log.
pub fn law_spells<H: Host>()
    // A spot of a sound reservoir is spelled as the log's frames spell it.
    ensures { (host : H) (r : TheReservoir) (v : Image) (spot : Spot) → IsSound (H.now host) (H.may host) r → (base r).ended ≡ false → opened r ≡ [] → H.now host ≡ Some v →
        (Spells (H.now host) (base r) (opened r) spot ↔ SpotIn (v (base r).file) spot) }
{}

/// A log whose schema may have grown, with a frame, gives one view, that of the schema in force at its end. Read through it,
/// chunks stand one after another from behind the first frame to the end of the frames, and have just the events that the
/// log's stages say, each with the values of every later growth behind its own.
pub fn law_views()
    // A log with a frame gives one view.
    ensures gives { (shape : Shape) (stages : List Stage) (bytes : List ℕ) → HasFrame bytes → IsLegalLog shape stages bytes → (view : View) × IsViewOf view stages bytes × (view.shape ≡ shape) }
    ensures one { (view other : View) (stages : List Stage) (bytes : List ℕ) → IsViewOf view stages bytes → IsViewOf other stages bytes → view ≡ other }

    // Read through it, the chunks have just the events of the log's stages.
    ensures reads { (view : View) (stages : List Stage) (bytes : List ℕ) → IsViewOf view stages bytes → IsReadThrough view (logged stages) bytes }
    ensures just { (view : View) (stages : List Stage) (events : List TheEvent) (bytes : List ℕ) → IsViewOf view stages bytes → IsReadThrough view events bytes → events ≡ logged stages }
    ensures stored { (view : View) (stages : List Stage) (first : List ℕ) (payloads : List (List ℕ)) (bytes : List ℕ) (most : ℕ) → IsViewOf view stages bytes → HasPayloads (first ∷ payloads) bytes → length (logged stages) ≤ most →
        events_from view most (passed view.growths (9 + length first)) bytes ≡ logged stages }

    // At the end of the frames the last schema is in force and nothing is passed, so what is written there is seen as it is. A
    // chunk behind them leaves the view as it is, and a growth comes behind the others.
    ensures end { (view : View) (stages : List Stage) (payloads : List (List ℕ)) (bytes : List ℕ) (place : ℕ) → IsViewOf view stages bytes → HasPayloads payloads bytes → length (frames payloads) ≤ place → IsUngrown view place }

    // A frame more moves the view on.
    ensures more { (view : View) (stages : List Stage) (stage : Stage) (payloads : List (List ℕ)) (payload old new : List ℕ) → IsViewOf view stages old → HasPayloads payloads old → IsStage view.shape payload stage → Grown payload old new →
        IsViewOf (view_after view (length (frames payloads)) payload stage) (stages ++ stage ∷ []) new }

    // A log without a growth has a view without one.
    ensures ungrown { (shape : Shape) (chunks : List (List TheEvent)) (bytes : List ℕ) → HasFrame bytes → IsPlainLog shape chunks bytes → IsViewOf (plain shape) (plain_stages chunks) bytes }
{
    law_frames();
}
