ghost use Rattle.std.specs.Prelude.{◌≡◌, ◌+◌, ◌<◌, ◌≤◌, ◌^◌, ℕ, List, ◌++◌, length, map, take, flat_map, slice_get, option_map, Some, All, IfOk, OnOk};
ghost use Rattle.rg_event.specs.Codec.{IsEventOf};
ghost use Rattle.rg_event.specs.Shapes.{Shape};
ghost use Rattle.rg_event.specs.declared.event.Event.{Event};
ghost use Rattle.rg_metric.specs.Queries.{Asked};
ghost use Rattle.rg_metric.specs.Replies.{answers_to};
ghost use Rattle.rg_plan.specs.Named.{node_at};
ghost use Rattle.rg_plan.specs.Plans.{plan_for};
ghost use Rattle.rg_query.specs.Legal.{IsLegalQuery};
ghost use Rattle.rg_scratch.specs.Nodes.{AreExact, IsExactAt, answers_of, node_of, node_answer};

use crate::asking::Asking;
use crate::folding::answer;
use rg_bytes::Memory;
use rg_event::Event;
use rg_metric::{Answer, Answers};
use rg_plan::TaskPlan;
use std::alloc::Global;

/// The answers of a plan's queries to the event of this number, counted from 0, by a walk over all events
/// up to it for each aggregator.
///
/// The events are of one schema, over which the queries are legal; of others a sum of squares may have
/// wrapped round at 2^127.
pub fn answer_from_scratch(
    alloc: Global,
    plan: &TaskPlan,
    events: &[Event],
    k: u64,
) -> Result<Answers, Memory>
    requires there { k < length events.now }
    requires few { length events.now ≤ 2 ^ 40 }
    // The answers of a walk over all events are those of all queries from scratch.
    ensures { (shape : Shape) (queries : List Asked) (e : Event) → plan.now ≡ plan_for queries → All (IsLegalQuery shape) queries →
        All (IsEventOf shape.fields) events.now → slice_get events.now k ≡ Some e →
        IfOk result (λ answers. answers ≡ answers_to queries (take (k + 1) events.now) e) }
{
    let seen = &events[..k as usize + 1];
    answer_queries(alloc, plan, seen, &events[k as usize])
}

/// The answers of all queries to an event over these events.
fn answer_queries(
    alloc: Global,
    plan: &TaskPlan,
    seen: &[Event],
    answered: &Event,
) -> Result<Answers, Memory>
    requires { length seen.now ≤ 2 ^ 40 }
    ensures { AreExact plan.now seen.now answered.now →
        IfOk result (λ answers. answers ≡ flat_map (answers_of plan.now seen.now answered.now) plan.now.paths) }
{
    let mut answers = Answers::new(alloc);
    'queries: for query in 0..plan.queries() {
        match plan.nodes(query) {
            None => return Ok(answers),
            Some(nodes) => push_answers(alloc, plan, nodes, seen, answered, &mut answers)?,
        }
    }
    Ok(answers)
}

/// Adds the answers of the nodes of these numbers, in order.
fn push_answers(
    alloc: Global,
    plan: &TaskPlan,
    nodes: &[u32],
    seen: &[Event],
    answered: &Event,
    answers: &mut Answers,
) -> Result<(), Memory>
    requires { length seen.now ≤ 2 ^ 40 }
    ensures { AreExact plan.now seen.now answered.now →
        OnOk result (answers.new ≡ answers.old ++ answers_of plan.now seen.now answered.now nodes.now) }
{
    'nodes: for node in nodes {
        answers.push(answer_of(alloc, plan, *node, seen, answered)?)?;
    }
    Ok(())
}

/// What the node of this number answers to an event over these events; a dash where there is none.
fn answer_of(
    alloc: Global,
    plan: &TaskPlan,
    node: u32,
    seen: &[Event],
    answered: &Event,
) -> Result<Answer, Memory>
    requires { length seen.now ≤ 2 ^ 40 }
    ensures { IsExactAt seen.now answered.now (node_at plan.now node) →
        IfOk result (λ answer. answer ≡ node_answer seen.now answered.now (node_at plan.now node)) }
{
    match asking(plan, node) {
        None => Ok(Answer::Dash),
        Some(asking) => answer(alloc, &asking, answered, seen),
    }
}

/// What the node of this number of a plan asks, where there is such a node.
fn asking(plan: &TaskPlan, number: u32) -> Option<Asking<'_>>
    ensures { option_map node_of result ≡ node_at plan.now number }
{
    let agg = plan.aggs().get(number as usize)?;
    let group = plan.groups().get(agg.group as usize)?;
    let filter = plan.filters().get(group.filter as usize)?;
    let window = plan.windows().get(filter.window as usize)?;
    Some(Asking {
        agg: agg.agg,
        columns: group.columns.as_slice(),
        condition: &filter.condition,
        window: *window,
    })
}
