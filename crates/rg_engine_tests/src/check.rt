ghost use Rattle.std.specs.Prelude.{◌≡◌, ◌<◌, ◌≤◌, ◌^◌, [], length, All, IsTrue};
ghost use Rattle.rg_past.specs.Ranges.{IsInRange};
ghost use Rattle.rg_event.specs.Rising.{MayFollow};
ghost use Rattle.rg_window.specs.Placed.{AreWithin};

use rg_event::Event;
use rg_past::Spot;

/// Whether an event may stand behind these.
pub(crate) fn fits(events: &[Event], event: &Event) -> bool
    ensures range { IsTrue result → IsInRange event.now }
    ensures follows { IsTrue result → MayFollow events.now event.now }
{
    is_in_range(event) && may_follow(events, event)
}

fn is_in_range(event: &Event) -> bool
    ensures { IsTrue result → IsInRange event.now }
{
    event.offset < 1 << 62 && event.time <= 1_000_000_000_000_000
}

fn may_follow(events: &[Event], event: &Event) -> bool
    ensures { IsTrue result → MayFollow events.now event.now }
{
    if events.is_empty() {
        return true;
    }
    let last = &events[events.len() - 1];
    last.offset < event.offset && last.time <= event.time
}

/// Whether the number of each of these spots is at most that of the events.
pub(crate) fn are_within(spots: &[Spot], count: usize) -> bool
    ensures { IsTrue result → AreWithin spots.now count }
{
    for spot in spots {
        if spot.number > count as u64 {
            return false;
        }
    }
    true
}
