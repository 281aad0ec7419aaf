ghost use Rattle.std.specs.Prelude.{◌≡◌, ◌+◌, ◌<◌, ◌≤◌, [], length, All, OnOk, vec_capacity};
ghost use Rattle.rg_event.specs.declared.event.Event.{Event};
ghost use Rattle.rg_plan.specs.declared.node.AggNode.{AggNode};
ghost use Rattle.rg_engine.specs.Answering.{keys_for, TellsAnswers};
ghost use Rattle.rg_engine.specs.Since.{GoesOn};

use rg_bytes::Memory;
use rg_event::Event;
use rg_group::Key;
use rg_metric::Answer;
use rg_plan::{AggNode, GroupNode};
use rg_state::{Table, TableFault};

/// Makes each key that of an event at its group node. Where memory runs out some are made.
pub(crate) fn make_keys(
    keys: &mut Vec<Key>,
    groups: &[GroupNode],
    event: &Event,
) -> Result<(), Memory>
    requires { length keys.old.items ≡ length groups.now }
    ensures made { OnOk result (keys.new.items ≡ keys_for groups.now event.now) }
    ensures same { length keys.new.items ≡ length keys.old.items }
{
    'groups: for group in 0..groups.len() {
        let key = &mut keys[group];
        match key.set_of(groups[group].columns.as_slice(), event) {
            Err(memory) => return Err(memory),
            Ok(()) => {}
        }
    }
    Ok(())
}

/// Empties a list and makes room in it for so many answers, which takes memory only where it has less.
/// Where memory runs out it is empty.
pub(crate) fn make_room(answers: &mut Vec<Answer>, count: usize) -> Result<(), Memory>
    ensures empty { answers.new.items ≡ [] }
    ensures room { OnOk result (count ≤ vec_capacity answers.new) }
{
    answers.clear();
    answers.reserve(count)?;
    Ok(())
}

/// Adds the answers of the nodes of these numbers, in order, each at the key of its group node.
pub(crate) fn answer_each<T: Table>(
    table: &mut T,
    aggs: &[AggNode],
    nodes: &[u32],
    keys: &[Key],
    answers: &mut Vec<Answer>,
) -> Result<(), TableFault>
    requires room { length answers.old.items + length nodes.now ≤ vec_capacity answers.old }
    requires nodes { All (λ node. node < length aggs.now) nodes.now }
    requires groups { All (λ (agg : AggNode). agg.group < length keys.now) aggs.now }
    ensures told { TellsAnswers (T.tells table.old) aggs.now keys.now nodes.now (T.cell table.old) (T.cell table.new) answers.old.items answers.new.items result }
    ensures goes { GoesOn T.tells T.named T.there T.cell T.faults table.old table.new result }
{
    'nodes: for node in nodes {
        let agg = aggs[*node as usize];
        match table.answer(*node, &keys[agg.group as usize], agg.agg.func) {
            Err(fault) => return Err(fault),
            Ok(answer) => answers.push_reserved(answer),
        }
    }
    Ok(())
}
