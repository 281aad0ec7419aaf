ghost use Rattle.std.specs.Prelude.{◌≡◌, ℕ, ◌+◌, true, cond, Option, option_copied, slice_index_or, OnOk};
ghost use Rattle.rg_event.specs.declared.value.Value.{Value};
ghost use Rattle.rg_metric.specs.declared.query.Window.{Window};
ghost use Rattle.rg_metric.specs.Conditions.{Test};
ghost use Rattle.rg_engine.specs.Deeds.{handed};
ghost use Rattle.rg_engine.specs.Since.{GoesOn};
ghost use Rattle.rg_engine.specs.Standing.{has_edge};
ghost use Rattle.rg_engine.specs.Parts.{agg_nodes, group_nodes};
ghost use Rattle.rg_engine.specs.Stepping.{IsPassed, IsTaken, ChangesRows};

use crate::part::{FilterPart, GroupPart, side};
use rg_event::{Event, Steps, Value};
use rg_group::Key;
use rg_metric::{Agg, column_value, is_admitted};
use rg_plan::TaskPlan;
use rg_state::{Change, Table, TableFault};
use rg_window::Visit;
use std::sync::ledger::Ledger;

/// The rows of a table under the nodes of a plan, and a key that is made anew for each event.
#[derive(Drop)]
pub(crate) struct Rows<T: Table> {
    pub(crate) parts: Vec<FilterPart>,
    pub(crate) key: Key,
    pub(crate) table: T,
}

/// Changes the rows of the nodes whose window an event enters or leaves as it passes an edge.
#[derive(Drop)]
pub(crate) struct Changer<'p, 'r, 's, T: Table, L: Ledger> {
    pub(crate) plan: &'p TaskPlan,
    pub(crate) rows: &'r mut Rows<T>,
    pub(crate) steps: &'s mut Steps<L>,
}

impl<'p, 'r, 's, T: Table, L: Ledger> Visit for Changer<'p, 'r, 's, T, L> {
    ghost use Rattle.std.specs.Prelude.{◌≡◌, slice_index_or};
    ghost use Rattle.rg_engine.specs.Parts.{nodes_numbered, ticks_at};
    ghost use Rattle.rg_engine.specs.Stepping.{Stepped};

    type Fault = TableFault;

    ghost step = { λ v edge x result w.
        (w.plan ≡ v.plan)
        × (w.rows.ghost_name ≡ v.rows.ghost_name)
        × (w.steps.ghost_name ≡ v.steps.ghost_name)
        × (w.rows.now.parts ≡ v.rows.now.parts)
        × Stepped (λ n. nodes_numbered n v.rows.now.parts.items) (ticks_at (slice_index_or v.plan.now.offsets edge 0) v.rows.now.parts.items)
        (slice_index_or v.plan.now.offsets edge 0) x result (T.tells v.rows.now.table) (T.tells w.rows.now.table)
        (T.named v.rows.now.table) (T.named w.rows.now.table) (T.there v.rows.now.table) (T.there w.rows.now.table)
        (T.cell v.rows.now.table) (T.cell w.rows.now.table) (T.faults v.rows.now.table) (T.faults w.rows.now.table) v.steps.now w.steps.now };

    fn event(&mut self, edge: u32, event: &Event) -> Result<(), TableFault> {
        let offset = offset_at(self.plan.offsets(), edge);
        let rows = &mut *self.rows;
        'filters: for part in &rows.parts {
            match pass_filter(
                &mut rows.table,
                &mut rows.key,
                self.steps,
                part,
                offset,
                event,
            ) {
                Err(fault) => return Err(fault),
                Ok(()) => {}
            }
        }
        Ok(())
    }
}

/// The offset of an edge, and 0 where there is no such edge.
fn offset_at(offsets: &[u64], edge: u32) -> u64
    ensures { result ≡ slice_index_or offsets.now edge 0 }
{
    match offsets.get(edge as usize) {
        None => 0,
        Some(offset) => *offset,
    }
}

/// Changes the rows of the nodes of one window and condition, where the window has an edge of this
/// offset, for an event that passed it.
fn pass_filter<T: Table, L: Ledger>(
    table: &mut T,
    key: &mut Key,
    steps: &mut Steps<L>,
    part: &FilterPart,
    offset: u64,
    event: &Event,
) -> Result<(), TableFault>
    ensures rows { T.tells table.old →
        ChangesRows (λ n. group_nodes part.now.window part.now.filter n part.now.groups.items) offset event.now result (T.cell table.old) (T.cell table.new) }
    ensures ticked { OnOk result (steps.new ≡ steps.old + cond (has_edge part.now.window offset) 1 0) }
    ensures goes { GoesOn T.tells T.named T.there T.cell T.faults table.old table.new result }
{
    let change = match side(&part.window, offset) {
        None => return Ok(()),
        Some(change) => change,
    };
    if !part.filter.holds(event, steps) {
        return Ok(());
    }
    'groups: for group in &part.groups {
        match change_group(table, key, group, change, event) {
            Err(fault) => return Err(fault),
            Ok(()) => {}
        }
    }
    Ok(())
}

/// Changes the rows of the nodes of some columns under a window and a condition that the event meets:
/// the key is made once, and the row of each node is handed the event's value. Without a value that the
/// node's function takes the row is refused.
fn change_group<T: Table>(
    table: &mut T,
    key: &mut Key,
    part: &GroupPart,
    change: Change,
    event: &Event,
) -> Result<(), TableFault>
    ensures rows { T.tells table.old → (window : Window) (condition : Option Test) (offset : ℕ) → IsPassed window condition offset change event.now →
        ChangesRows (λ n. agg_nodes window condition part.now.columns n part.now.aggs.items) offset event.now result (T.cell table.old) (T.cell table.new) }
    ensures goes { GoesOn T.tells T.named T.there T.cell T.faults table.old table.new result }
{
    match key.set_of(part.columns.as_slice(), event) {
        Err(_) => return Err(TableFault::Memory),
        Ok(()) => {}
    }
    'aggs: for agg in &part.aggs {
        let flag = Value::Flag(true);
        let value = match taken_value(event, agg.agg, &flag) {
            None => return Err(TableFault::BadState(agg.node)),
            Some(value) => value,
        };
        match table.change(agg.node, key, agg.agg.func, change, value) {
            Err(fault) => return Err(fault),
            Ok(()) => {}
        }
    }
    Ok(())
}

/// The value that an event hands an aggregator, where the aggregator takes it: of column 0 this flag.
fn taken_value<'v>(event: &'v Event, agg: Agg, flag: &'v Value) -> Option<&'v Value>
    requires { flag.now ≡ Value.Flag true }
    ensures { IsTaken agg event.now (option_copied result) }
{
    let value = match input_value(event, agg.field, flag) {
        None => return None,
        Some(value) => value,
    };
    if !is_admitted(agg.func, value) {
        return None;
    }
    Some(value)
}

/// The value of an event that an aggregator of this column is handed: of column 0 a flag.
fn input_value<'v>(event: &'v Event, field: u32, flag: &'v Value) -> Option<&'v Value>
    requires { flag.now ≡ Value.Flag true }
    ensures { option_copied result ≡ handed field event.now }
{
    if field == 0 {
        return Some(flag);
    }
    column_value(event, field)
}
