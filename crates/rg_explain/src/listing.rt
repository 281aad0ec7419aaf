ghost use Rattle.std.specs.Prelude.{codes, decimal, ◌≡◌, ◌++◌, ◌∷◌, [], map, OnOk, All};
ghost use Rattle.rg_metric.specs.Queries.{filter_test};
ghost use Rattle.rg_plan.specs.Nodes.{filtered};
ghost use Rattle.rg_plan.specs.Offsets.{IsMeasured};
ghost use Rattle.rg_host.specs.Lines.{ended};
ghost use Rattle.rg_config.specs.Plans.{planned};
ghost use Rattle.rg_explain.specs.Listing.{numbered, query_line, offset_line, end_text, window_line, filter_text, filter_line, more_columns, columns_text, group_line, agg_line, task_text, check_text};
ghost use Rattle.rg_config.specs.Read.{IsReadPlan};

use rg_bytes::{Memory, put_bytes, write_whole};
use rg_config::Plan;
use rg_event::{Bytes, Field, Schema};
use rg_metric::{Condition, Window};
use rg_plan::{AggNode, FilterNode, GroupNode, TaskPlan};
use rg_query::{column_name, print_agg, print_condition};

/// Writes the queries of a plan and its task plan, a line each, with its LF. An error leaves them begun.
#[tactic(auto, using(crate::proofs::Listed::windows_are, crate::proofs::Listed::listed))]
pub fn write_listing(text: &mut Vec<u8>, plan: &Plan) -> Result<(), Memory>
    requires read { IsReadPlan plan.now }
    ensures { OnOk result (text.new.items ≡ text.old.items ++ ended (check_text (planned plan.now))) }
{
    write_queries(text, plan.queries.as_slice())?;
    write_task(text, &plan.schema, &plan.task)
}

/// Writes the lines of queries that are printed. An error leaves them begun.
#[tactic(auto, using(crate::proofs::Listed::line_more, crate::proofs::Listed::line_last))]
fn write_queries(text: &mut Vec<u8>, queries: &[Bytes]) -> Result<(), Memory>
    ensures { OnOk result (text.new.items ≡ text.old.items ++ ended (numbered query_line 0 queries.now)) }
{
    'queries: for (number, query) in queries.iter().enumerate() {
        write_query(text, number as u64, query.as_slice())?;
    }
    Ok(())
}

/// Writes the line of a query that is printed. An error leaves it begun.
fn write_query(text: &mut Vec<u8>, number: u64, query: &[u8]) -> Result<(), Memory>
    ensures { OnOk result (text.new.items ≡ text.old.items ++ (query_line number query.now ++ 10 ∷ [])) }
{
    put_bytes(text, b"query ")?;
    write_whole(text, number)?;
    put_bytes(text, b" ")?;
    put_bytes(text, query)?;
    put_bytes(text, b"\n")
}

/// Writes the lines of a task plan. An error leaves them begun.
#[tactic(auto, using(crate::proofs::Listed::task_listed))]
fn write_task(text: &mut Vec<u8>, schema: &Schema, task: &TaskPlan) -> Result<(), Memory>
    requires measured { All IsMeasured task.now.windows }
    ensures { OnOk result (text.new.items ≡ text.old.items ++ ended (task_text schema.now task.now)) }
{
    write_offsets(text, task.offsets())?;
    write_windows(text, task.windows())?;
    write_filters(text, schema, task.filters())?;
    write_groups(text, schema, task.groups())?;
    write_aggs(text, schema, task.aggs())
}

/// Writes the lines of offsets. An error leaves them begun.
fn write_offsets(text: &mut Vec<u8>, offsets: &[u64]) -> Result<(), Memory>
    ensures { OnOk result (text.new.items ≡ text.old.items ++ ended (map offset_line offsets.now)) }
{
    'offsets: for offset in offsets {
        write_offset(text, *offset)?;
    }
    Ok(())
}

/// Writes the line of an offset. An error leaves it begun.
fn write_offset(text: &mut Vec<u8>, offset: u64) -> Result<(), Memory>
    ensures { OnOk result (text.new.items ≡ text.old.items ++ (offset_line offset ++ 10 ∷ [])) }
{
    put_bytes(text, b"offset ")?;
    write_whole(text, offset)?;
    put_bytes(text, b"\n")
}

/// Writes the lines of windows. An error leaves them begun.
#[tactic(auto, using(crate::proofs::Listed::line_more, crate::proofs::Listed::line_last))]
fn write_windows(text: &mut Vec<u8>, windows: &[Window]) -> Result<(), Memory>
    requires measured { All IsMeasured windows.now }
    ensures { OnOk result (text.new.items ≡ text.old.items ++ ended (numbered window_line 0 windows.now)) }
{
    'windows: for (number, window) in windows.iter().enumerate() {
        write_window(text, number as u64, window)?;
    }
    Ok(())
}

/// Writes the line of a window. An error leaves it begun.
fn write_window(text: &mut Vec<u8>, number: u64, window: &Window) -> Result<(), Memory>
    requires measured { IsMeasured window.now }
    ensures { OnOk result (text.new.items ≡ text.old.items ++ (window_line number window.now ++ 10 ∷ [])) }
{
    put_bytes(text, b"window ")?;
    write_whole(text, number)?;
    put_bytes(text, b" ")?;
    write_whole(text, window.delay)?;
    put_bytes(text, b" ")?;
    write_end(text, window)?;
    put_bytes(text, b"\n")
}

/// Writes how old an event is when it leaves a window, or `-` where it never does.
fn write_end(text: &mut Vec<u8>, window: &Window) -> Result<(), Memory>
    requires measured { IsMeasured window.now }
    ensures { OnOk result (text.new.items ≡ text.old.items ++ end_text window.now.delay window.now.length) }
{
    match window.length {
        None => put_bytes(text, b"-"),
        Some(length) => write_whole(text, window.delay + length),
    }
}

/// Writes the level of a node, its number and that of the node above it. An error leaves them begun.
fn write_node(text: &mut Vec<u8>, level: &[u8], number: u64, above: u32) -> Result<(), Memory>
    ensures { OnOk result (text.new.items ≡ text.old.items ++ (level.now ++ (codes " " ++ (decimal number ++ (codes " " ++ (decimal above ++ codes " ")))))) }
{
    put_bytes(text, level)?;
    put_bytes(text, b" ")?;
    write_whole(text, number)?;
    put_bytes(text, b" ")?;
    write_whole(text, u64::from(above))?;
    put_bytes(text, b" ")
}

/// Writes the lines of filter nodes. An error leaves them begun.
fn write_filters(text: &mut Vec<u8>, schema: &Schema, filters: &[FilterNode]) -> Result<(), Memory>
    ensures { OnOk result (text.new.items ≡ text.old.items ++ ended (numbered (filter_line schema.now) 0 (map filtered filters.now))) }
{
    'filters: for (number, filter) in filters.iter().enumerate() {
        write_filter(text, schema, number as u64, filter)?;
    }
    Ok(())
}

/// Writes the line of a filter node. An error leaves it begun.
fn write_filter(
    text: &mut Vec<u8>,
    schema: &Schema,
    number: u64,
    filter: &FilterNode,
) -> Result<(), Memory>
    ensures { OnOk result (text.new.items ≡ text.old.items ++ (filter_line schema.now number (filtered filter.now) ++ 10 ∷ [])) }
{
    write_node(text, b"filter", number, filter.window)?;
    write_condition(text, schema, &filter.condition)?;
    put_bytes(text, b"\n")
}

/// Writes the condition that events are to meet, or `all`.
fn write_condition(
    text: &mut Vec<u8>,
    schema: &Schema,
    condition: &Option<Condition>,
) -> Result<(), Memory>
    ensures { OnOk result (text.new.items ≡ text.old.items ++ filter_text schema.now (filter_test condition.now)) }
{
    match condition {
        None => put_bytes(text, b"all"),
        Some(condition) => print_condition(schema, condition, text),
    }
}

/// Writes the lines of group nodes. An error leaves them begun.
#[tactic(auto, using(crate::proofs::Listed::line_more, crate::proofs::Listed::line_last))]
fn write_groups(text: &mut Vec<u8>, schema: &Schema, groups: &[GroupNode]) -> Result<(), Memory>
    ensures { OnOk result (text.new.items ≡ text.old.items ++ ended (numbered (group_line schema.now) 0 groups.now)) }
{
    'groups: for (number, group) in groups.iter().enumerate() {
        write_group(text, schema, number as u64, group)?;
    }
    Ok(())
}

/// Writes the line of a group node. An error leaves it begun.
fn write_group(
    text: &mut Vec<u8>,
    schema: &Schema,
    number: u64,
    group: &GroupNode,
) -> Result<(), Memory>
    ensures { OnOk result (text.new.items ≡ text.old.items ++ (group_line schema.now number group.now ++ 10 ∷ [])) }
{
    write_node(text, b"group", number, group.filter)?;
    write_columns(text, schema.fields(), group.columns.as_slice())?;
    put_bytes(text, b"\n")
}

/// Writes the names of columns, parted by commas, or `-` where there are none. An error leaves them begun.
fn write_columns(text: &mut Vec<u8>, fields: &[Field], columns: &[u32]) -> Result<(), Memory>
    ensures { OnOk result (text.new.items ≡ text.old.items ++ columns_text fields.now columns.now) }
{
    match columns {
        [] => put_bytes(text, b"-"),
        [first, others @ ..] => {
            put_bytes(text, column_name(fields, *first))?;
            write_more_columns(text, fields, others)
        }
    }
}

/// Writes the names of columns, a comma before each. An error leaves them begun.
fn write_more_columns(text: &mut Vec<u8>, fields: &[Field], columns: &[u32]) -> Result<(), Memory>
    ensures { OnOk result (text.new.items ≡ text.old.items ++ more_columns fields.now columns.now) }
{
    'columns: for column in columns {
        put_bytes(text, b",")?;
        put_bytes(text, column_name(fields, *column))?;
    }
    Ok(())
}

/// Writes the lines of aggregator nodes. An error leaves them begun.
#[tactic(auto, using(crate::proofs::Listed::line_more, crate::proofs::Listed::line_last))]
fn write_aggs(text: &mut Vec<u8>, schema: &Schema, aggs: &[AggNode]) -> Result<(), Memory>
    ensures { OnOk result (text.new.items ≡ text.old.items ++ ended (numbered (agg_line schema.now) 0 aggs.now)) }
{
    'aggs: for (number, node) in aggs.iter().enumerate() {
        write_agg(text, schema, number as u64, node)?;
    }
    Ok(())
}

/// Writes the line of an aggregator node. An error leaves it begun.
fn write_agg(text: &mut Vec<u8>, schema: &Schema, number: u64, node: &AggNode) -> Result<(), Memory>
    ensures { OnOk result (text.new.items ≡ text.old.items ++ (agg_line schema.now number node.now ++ 10 ∷ [])) }
{
    write_node(text, b"agg", number, node.group)?;
    print_agg(schema, &node.agg, text)?;
    put_bytes(text, b"\n")
}
