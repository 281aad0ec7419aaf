ghost use Rattle.std.specs.Prelude.{◌≡◌, ◌≢◌, ◌↔◌, ◌<◌, ℕ, None, Some, IfOk, IsTrue, List};
ghost use Rattle.std.specs.BTreeMap.{get};
ghost use Rattle.std.specs.Cmp.Lexicographic.{slice_cmp};
ghost use Rattle.std.specs.Ordering.{nat_cmp};
ghost use Rattle.rg_agg.specs.Standing.{size_in};
ghost use Rattle.rg_event.specs.declared.event.Event.{Event as TheEvent};
ghost use Rattle.rg_event.specs.declared.value.Value.{Value as TheValue};
ghost use Rattle.rg_keywords.specs.declared.func.Func.{Func};
ghost use Rattle.rg_checkpoint.specs.Entries.{entries_of, AreFilled};
ghost use Rattle.rg_plan.specs.Named.{Node};
ghost use Rattle.rg_state.specs.Rows.{AreRising, RowStands};
ghost use Rattle.rg_state.specs.States.{held_of};
ghost use Rattle.rg_row_audit.specs.Gathering.{Suits, IsGathered, AreGathered};
ghost use Rattle.rg_row_audit.specs.Keeping.{AreSuited, AreKept};

use crate::gathered::Gathered;
use rg_bytes::Memory;
use rg_checkpoint::Row;
use rg_group::Key;
use std::alloc::Global;
use std::collections::BTreeMap;

/// Whether the rows of this node, among all rows, stand for what was gathered of its values: there is a
/// row for each key that has values, and for no other, and each stands for its values.
pub(crate) fn are_kept(
    alloc: Global,
    node: u32,
    rows: &[Row],
    gathered: BTreeMap<Key, Gathered>,
) -> Result<bool, Memory>
    requires rising { AreRising (entries_of rows.now) }
    requires filled { AreFilled (entries_of rows.now) }
    ensures { IfOk result (λ are. (at : Node) (time : ℕ) (events : List TheEvent) → AreSuited at time events → AreGathered at time events gathered → IsTrue are ↔ AreKept (entries_of rows.now) node at time events) }
{
    let mut left = gathered;
    'rows: for row in rows {
        if row.node != node {
            continue;
        }
        if !is_kept(alloc, row, &mut left)? {
            return Ok(false);
        }
    }
    Ok(left.is_empty())
}

/// Whether a row stands for what was gathered for its key, which is taken out.
fn is_kept(alloc: Global, row: &Row, left: &mut BTreeMap<Key, Gathered>) -> Result<bool, Memory>
    requires filled { 0 < size_in (held_of row.now.state) }
    ensures kept { IfOk result (λ is. (func : Func) (values : List TheValue) → Suits func values → IsGathered func (get (slice_cmp nat_cmp) left.old row.now.key) values → IsTrue is ↔ RowStands func (Some (held_of row.now.state)) values) }
    ensures gone { get (slice_cmp nat_cmp) left.new row.now.key ≡ None }
    ensures others { (other : List ℕ) → other ≢ row.now.key → get (slice_cmp nat_cmp) left.new other ≡ get (slice_cmp nat_cmp) left.old other }
{
    match left.remove(&row.key) {
        None => Ok(false),
        Some(gathered) => gathered.is_kept_by(alloc, &row.state),
    }
}
