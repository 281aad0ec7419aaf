ghost use Rattle.std.specs.Prelude.{◌≡◌};
ghost use Rattle.rg_engine.specs.Deeds.{side_of};
ghost use Rattle.rg_engine.specs.Standing.{leaves_at};

use rg_filter::Filter;
use rg_metric::{Agg, Columns, Window};
use rg_state::Change;

/// The events of a window that meet a condition.
#[derive(Debug, Drop)]
pub(crate) struct FilterPart {
    pub(crate) window: Window,
    pub(crate) filter: Filter,
    pub(crate) groups: Vec<GroupPart>,
}

/// The aggregators of a filter node whose rows go by the values in some columns.
#[derive(Debug, Drop)]
pub(crate) struct GroupPart {
    pub(crate) columns: Columns,
    pub(crate) aggs: Vec<AggPart>,
}

/// An aggregator over those of one key, with its node's number in the plan.
#[derive(Clone, Copy, Debug, PartialEq, Eq, Hash)]
pub(crate) struct AggPart {
    pub(crate) node: u32,
    pub(crate) agg: Agg,
}

/// What a window does with an event that passed the edge of this offset: it enters, or leaves, or
/// neither.
pub(crate) fn side(window: &Window, offset: u64) -> Option<Change>
    ensures { result ≡ side_of window.now offset }
{
    if window.delay == offset {
        return Some(Change::Add);
    }
    if leaves(window, offset) {
        return Some(Change::Remove);
    }
    None
}

/// Whether events leave a window at this offset.
fn leaves(window: &Window, offset: u64) -> bool
    ensures { result ≡ leaves_at window.now window.now.length offset }
{
    match window.length {
        None => false,
        Some(length) => match window.delay.checked_add(length) {
            None => false,
            Some(end) => end == offset,
        },
    }
}
