ghost use Rattle.std.specs.Prelude.{◌≡◌, ◌↔◌, length, Decides, IfOk, IfErr, IsTrue};
ghost use Rattle.rg_restore.specs.Asked.{IsRefused, KeepsEvents, StaysNamed};
ghost use Rattle.rg_restore.specs.Choosing.{IsJudged};
ghost use Rattle.rg_restore.specs.Fit.{IsFit};
ghost use Rattle.rg_restore.specs.Opening.{IsUsable};

use crate::choosing::Candidate;
use crate::fitting::fits_plan;
use crate::names::Names;
use rg_checkpoint::Checkpoint;
use rg_event::{Field, Texts};
use rg_past::{Past, PastFault};
use rg_plan::TaskPlan;

fn same_texts(first: &Texts, second: &Texts) -> bool
    ensures { Decides result (first.now ≡ second.now) }
{
    first == second
}

/// Whether a checkpoint is fit. Over a past that isn't told a yes says no more than that it is usable.
fn is_fit<P: Names>(
    past: &mut P,
    plan: &TaskPlan,
    fields: &[Field],
    queries: &Texts,
    checkpoint: &Checkpoint,
) -> Result<bool, PastFault>
    requires ready { P.is_ready past.old }
    ensures fit { P.told past.old → IfOk result (λ is. IsTrue is ↔ IsFit (P.named past.old) queries.now fields.now plan.now (length (P.Past.events past.old)) checkpoint.now) }
    ensures usable { IfOk result (λ is. IsTrue is → IsUsable plan.now (length (P.Past.events past.old)) checkpoint.now) }
    ensures named { StaysNamed P.told P.is_ready P.named P.Past.spells past.old past.new }
    ensures past { KeepsEvents P.Past.events P.Past.has_room P.Past.goes P.Past.sound P.Past.ended P.Past.faults past.old past.new }
    ensures cause { IfErr result (IsRefused (P.damaged past.new) (P.Past.sound past.old) (P.Past.ended past.old) (P.Past.faults past.old) (P.Past.faults past.new)) }
{
    if !same_texts(&checkpoint.queries, queries) {
        return Ok(false);
    }
    if checkpoint.count > past.count() {
        return Ok(false);
    }
    if checkpoint.spots.as_slice().len() != plan.offsets().len() {
        return Ok(false);
    }
    if !fits_plan(plan, fields, checkpoint.rows.as_slice()) {
        return Ok(false);
    }
    past.names(checkpoint.spots.as_slice())
}

/// The candidate, where there is one and it is fit.
pub(crate) fn judge<P: Names>(
    past: &mut P,
    plan: &TaskPlan,
    fields: &[Field],
    queries: &Texts,
    candidate: Option<Candidate>,
) -> Result<Option<Candidate>, PastFault>
    requires ready { P.is_ready past.old }
    ensures judged { IfOk result (λ taken. IsJudged (P.told past.old) (IsFit (P.named past.old) queries.now fields.now plan.now (length (P.Past.events past.old)))
        (IsUsable plan.now (length (P.Past.events past.old))) candidate taken) }
    ensures named { StaysNamed P.told P.is_ready P.named P.Past.spells past.old past.new }
    ensures past { KeepsEvents P.Past.events P.Past.has_room P.Past.goes P.Past.sound P.Past.ended P.Past.faults past.old past.new }
    ensures cause { IfErr result (IsRefused (P.damaged past.new) (P.Past.sound past.old) (P.Past.ended past.old) (P.Past.faults past.old) (P.Past.faults past.new)) }
{
    let candidate = match candidate {
        None => return Ok(None),
        Some(candidate) => candidate,
    };
    match is_fit(past, plan, fields, queries, &candidate.checkpoint) {
        Err(fault) => return Err(fault),
        Ok(true) => Ok(Some(candidate)),
        Ok(false) => Ok(None),
    }
}
