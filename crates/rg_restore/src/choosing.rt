ghost use Rattle.std.specs.Prelude.{◌≡◌, length, option_map, IfOk, IfErr};
ghost use Rattle.rg_restore.specs.Asked.{IsRefused, IsUnmade, KeepsEvents, StaysNamed};
ghost use Rattle.rg_restore.specs.Begun.{IsBegun};
ghost use Rattle.rg_restore.specs.Choosing.{AreOrdered, IsChosen, candidate_of};
ghost use Rattle.rg_restore.specs.Fit.{IsFit};
ghost use Rattle.rg_restore.specs.Opening.{IsUsable};
ghost use Rattle.rg_restore.specs.Slots.{slot_in};

use crate::judging::judge;
use crate::names::Names;
use crate::starting::at_start;
use rg_checkpoint::Checkpoint;
use rg_engine::EngineFault;
use rg_event::{Field, Texts};
use rg_past::{Past, PastFault};
use rg_plan::TaskPlan;
use std::alloc::Global;

/// The checkpoints of the two slots, where they are complete.
#[derive(Debug, Drop)]
pub struct Saved {
    /// The one of slot 0.
    pub first: Option<Checkpoint>,
    /// The one of slot 1.
    pub second: Option<Checkpoint>,
}

/// A checkpoint to go on from.
#[derive(Drop)]
pub(crate) struct Candidate {
    /// The number of its slot.
    pub slot: u32,
    pub checkpoint: Checkpoint,
}

/// The two in the order in which they are tried: the one of the greater count first, and the one of slot 0
/// where they have the same.
#[tactic(auto, using(crate::proofs::Trying::order_second, crate::proofs::Trying::order_first, crate::proofs::Trying::order_up, crate::proofs::Trying::order_down))]
fn in_order(saved: Saved) -> (Option<Candidate>, Option<Candidate>)
    ensures { AreOrdered (slot_in saved) result.0 result.1 }
{
    let Saved { first, second } = saved;
    let first = match first {
        None => return (in_slot(1, second), None),
        Some(first) => first,
    };
    let second = match second {
        None => return (in_slot(0, Some(first)), None),
        Some(second) => second,
    };
    if first.count < second.count {
        return (in_slot(1, Some(second)), in_slot(0, Some(first)));
    }
    (in_slot(0, Some(first)), in_slot(1, Some(second)))
}

fn in_slot(slot: u32, checkpoint: Option<Checkpoint>) -> Option<Candidate>
    ensures { result ≡ option_map (candidate_of slot) checkpoint }
{
    match checkpoint {
        None => None,
        Some(checkpoint) => Some(Candidate { slot, checkpoint }),
    }
}

/// The best of the two checkpoints that is fit; none where none is. The other one is looked at only where
/// the first isn't fit.
fn choose<P: Names>(
    past: &mut P,
    plan: &TaskPlan,
    fields: &[Field],
    queries: &Texts,
    saved: Saved,
) -> Result<Option<Candidate>, PastFault>
    requires ready { P.is_ready past.old }
    ensures chosen { IfOk result (λ chosen. IsChosen (P.told past.old) (IsFit (P.named past.old) queries.now fields.now plan.now (length (P.Past.events past.old)))
        (IsUsable plan.now (length (P.Past.events past.old))) (slot_in saved) chosen) }
    ensures named { StaysNamed P.told P.is_ready P.named P.Past.spells past.old past.new }
    ensures past { KeepsEvents P.Past.events P.Past.has_room P.Past.goes P.Past.sound P.Past.ended P.Past.faults past.old past.new }
    ensures cause { IfErr result (IsRefused (P.damaged past.new) (P.Past.sound past.old) (P.Past.ended past.old) (P.Past.faults past.old) (P.Past.faults past.new)) }
{
    let (newer, older) = in_order(saved);
    match judge(past, plan, fields, queries, newer) {
        Err(fault) => return Err(fault),
        Ok(Some(candidate)) => return Ok(Some(candidate)),
        Ok(None) => {}
    }
    judge(past, plan, fields, queries, older)
}

/// From where an engine goes on.
#[derive(Drop)]
pub(crate) struct Beginning {
    /// The number of the checkpoint's slot; none for the start.
    pub slot: Option<u32>,
    pub checkpoint: Checkpoint,
}

/// The checkpoint to go on from: the best of the two that is fit, and that of no events where none is.
pub(crate) fn begin<P: Names>(
    alloc: Global,
    past: &mut P,
    plan: &TaskPlan,
    fields: &[Field],
    queries: &Texts,
    saved: Saved,
) -> Result<Beginning, EngineFault>
    requires ready { P.is_ready past.old }
    ensures begun { IfOk result (λ begun. IsBegun (P.Past.sound past.old) (P.told past.old) (P.Past.ended past.old)
        (IsFit (P.named past.old) queries.now fields.now plan.now (length (P.Past.events past.old)))
        (P.Past.spells past.old) (P.Past.spells past.new) (P.Past.events past.old) (P.Past.events past.new)
        queries.now plan.now (slot_in saved) begun.slot begun.checkpoint) }
    ensures named { StaysNamed P.told P.is_ready P.named P.Past.spells past.old past.new }
    ensures past { KeepsEvents P.Past.events P.Past.has_room P.Past.goes P.Past.sound P.Past.ended P.Past.faults past.old past.new }
    ensures cause { IfErr result (IsUnmade (IsRefused (P.damaged past.new) (P.Past.sound past.old) (P.Past.ended past.old) (P.Past.faults past.old) (P.Past.faults past.new)) (λ _. ⊥) ⊥) }
{
    let chosen = match choose(past, plan, fields, queries, saved) {
        Err(fault) => return Err(EngineFault::Past(fault)),
        Ok(chosen) => chosen,
    };
    match chosen {
        Some(candidate) => Ok(Beginning {
            slot: Some(candidate.slot),
            checkpoint: candidate.checkpoint,
        }),
        None => match at_start(alloc, past, plan) {
            Err(_) => Err(EngineFault::Memory),
            Ok(checkpoint) => Ok(Beginning {
                slot: None,
                checkpoint,
            }),
        },
    }
}
