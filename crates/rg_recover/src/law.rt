ghost use Rattle.std.specs.Prelude.{◌≡◌, ℕ, [], Some, length, All};
ghost use Rattle.rg_host.specs.Image.{Image};
ghost use Rattle.rg_event.specs.Codec.{IsEventOf};
ghost use Rattle.rg_event.specs.Rising.{IsRising, next_offset};
ghost use Rattle.rg_config.specs.Plans.{Planned};
ghost use Rattle.rg_log.specs.Log.{HasEvents, IsInForce};
ghost use Rattle.rg_reservoir.specs.Kept.{opened, next_of};
ghost use Rattle.rg_recover.specs.Sessions.{Sitting, HasKept, IsRunning, count_in, events_of, stored_of};

use rg_host::Host;
use rg_state::Table;

/// What holds of a session that runs: how far its events go, that they are in order and of the plan's
/// columns, that each image that a crash might leave has just the stored ones, that all are stored where
/// the slot that is kept has a checkpoint of all, and what is kept of that slot.
pub fn law_running<H: Host, T: Table>()
    ensures next { (plan : Planned) (host : H) (s : Sitting T) → IsRunning plan (H.now host) (H.may host) T.tells T.cell T.named T.there s → next_of s.reservoir ≡ next_offset (events_of (H.now host) s) }
    ensures count { (plan : Planned) (host : H) (s : Sitting T) → IsRunning plan (H.now host) (H.may host) T.tells T.cell T.named T.there s → count_in s.reservoir ≡ length (events_of (H.now host) s) }
    ensures saved { (plan : Planned) (host : H) (s : Sitting T) (slot : ℕ) → IsRunning plan (H.now host) (H.may host) T.tells T.cell T.named T.there s → s.keep ≡ Some slot → s.saved ≡ count_in s.reservoir → opened s.reservoir ≡ [] }
    ensures keeps { (plan : Planned) (host : H) (s : Sitting T) → IsRunning plan (H.now host) (H.may host) T.tells T.cell T.named T.there s → HasKept (H.now host) (H.may host) T.cell T.named T.there s }
    ensures rising { (plan : Planned) (host : H) (s : Sitting T) → IsRunning plan (H.now host) (H.may host) T.tells T.cell T.named T.there s → IsRising (events_of (H.now host) s) }
    ensures fits { (plan : Planned) (host : H) (s : Sitting T) → IsRunning plan (H.now host) (H.may host) T.tells T.cell T.named T.there s → All (IsEventOf plan.shape.fields) (events_of (H.now host) s) }
    ensures framed { (plan : Planned) (host : H) (s : Sitting T) (u : Image) → IsRunning plan (H.now host) (H.may host) T.tells T.cell T.named T.there s → H.may host u → IsInForce plan.shape (u 2) }
    ensures stored { (plan : Planned) (host : H) (s : Sitting T) (u : Image) → IsRunning plan (H.now host) (H.may host) T.tells T.cell T.named T.there s → H.may host u → HasEvents plan.shape (stored_of (H.now host) s) (u 2) }
{}
