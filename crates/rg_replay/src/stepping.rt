ghost use Rattle.std.specs.Prelude.{◌≡◌, ◌≤◌, ◌+◌, ℕ, List, length, take, true, false, Some, slice_get, IfOk, IfErr, IfSome, IfNone, OnOk, IsErrOf};
ghost use Rattle.rg_bytes.specs.Counts.{Rose};
ghost use Rattle.rg_event.specs.declared.event.Event.{Event as TheEvent};
ghost use Rattle.rg_metric.specs.Queries.{Asked};
ghost use Rattle.rg_past.specs.Keeping.{HasCause};
ghost use Rattle.rg_past.specs.declared.past.PastFault.{PastFault};
ghost use Rattle.rg_past.specs.declared.past.Spot.{Spot as TheSpot};
ghost use Rattle.rg_state.specs.Keeping.{TableKept};
ghost use Rattle.rg_window.specs.Placed.{AreWithin};
ghost use Rattle.rg_replay.specs.Going.{Replays, Came, IsOutside};

use rg_engine::{Engine, EngineFault};
use rg_event::{Event, Steps};
use rg_metric::Answers;
use rg_past::{Past, Spot};
use rg_past_prefix::Shown;
use rg_state::Table;
use std::alloc::Global;
use std::sync::ledger::Ledger;

/// A payment and the answers to it.
#[derive(Drop)]
pub struct Told {
    pub event: Event,
    pub answers: Answers,
}

/// Shows the next event, and answers it by the events up to and with it; none where all were answered. The
/// spot is that of the next event. A refusal ends the engine, or shows what was shown.
pub fn step<P: Past, T: Table, L: Ledger>(
    alloc: Global,
    engine: &mut Engine<T>,
    past: &mut Shown<P>,
    spot: &mut Spot,
    steps: &mut Steps<L>,
) -> Result<Option<Told>, EngineFault>
    requires at { spot.old.number ≡ past.old.shown }
    requires shown { past.old.shown ≤ length (P.events past.old.past) }
    requires within { AreWithin engine.old.spots (length (take past.old.shown (P.events past.old.past))) }

    // The answers are those from scratch, and the replay goes on.
    ensures came { (queries : List Asked) →
        Replays queries (P.sound past.old.past) (P.spells past.old.past spot.old) (T.tells engine.old.table) (P.spells past.old.past)
        (P.events past.old.past) past.old.shown (T.cell engine.old.table) engine.old.plan engine.old.spots →
        IfOk result (λ found. Came queries (P.events past.old.past) past.old.shown found
        (Replays queries (P.sound past.new.past) (P.spells past.new.past spot.new) (T.tells engine.new.table) (P.spells past.new.past)
        (P.events past.new.past) past.new.shown (T.cell engine.new.table) engine.new.plan engine.new.spots)) }
    ensures outside { (queries : List Asked) →
        Replays queries (P.sound past.old.past) (P.spells past.old.past spot.old) (T.tells engine.old.table) (P.spells past.old.past)
        (P.events past.old.past) past.old.shown (T.cell engine.old.table) engine.old.plan engine.old.spots →
        IfErr result IsOutside }

    // Over any past: what stands at an illegal place is neither an event nor the end.
    ensures legal { P.asks_illegal past.old.past spot.old → OnOk result ⊥ }
    ensures legal_edges { (edge : ℕ) (at : TheSpot) → slice_get engine.old.spots edge ≡ Some at → P.asks_illegal past.old.past at →
        IfOk result (λ found. IfSome found (λ _. ⊥)) }
    ensures reached { P.reached past.old.past spot.old → IfOk result (λ found. IfSome found (λ _. P.reached past.new.past spot.new)) }
    ensures whole { P.reached past.old.past spot.old → IfOk result (λ found. IfNone found (P.whole past.old.past)) }

    ensures one { IfOk result (λ found. IfSome found (λ _. past.new.shown ≡ past.old.shown + 1)) }
    ensures number { spot.new.number ≡ past.new.shown }
    ensures shown { past.new.shown ≤ length (P.events past.new.past) }
    ensures within { OnOk result (AreWithin engine.new.spots (length (take past.new.shown (P.events past.new.past)))) }
    ensures going { OnOk result (engine.old.ended ≡ false → engine.new.ended ≡ false) }

    ensures cause { (fault : PastFault) → IsErrOf result (EngineFault.Past fault) →
        HasCause (P.illegal past.new.past) ⊥ (P.ended past.old.past) (P.faults past.old.past) (P.faults past.new.past) fault }
    ensures table { IsErrOf result EngineFault.Table → Rose (T.faults engine.old.table) (T.faults engine.new.table) }
    ensures ended { IsErrOf result EngineFault.Ended → engine.old.ended ≡ true }

    ensures events { P.events past.new.past ≡ P.events past.old.past }
    ensures plan { engine.new.plan ≡ engine.old.plan }
    ensures goes { P.goes past.old.past past.new.past }
    ensures later { P.faults past.old.past ≤ P.faults past.new.past }
    ensures rows { TableKept T.tells T.faults engine.old.table engine.new.table }
{
    let event = match past.next(alloc, spot) {
        Err(fault) => return Err(EngineFault::Past(fault)),
        Ok(None) => return Ok(None),
        Ok(Some(event)) => event,
    };
    match engine.answer(past, &event, steps) {
        Err(fault) => Err(fault),
        Ok(answers) => {
            // an engine has a spot for each offset of its plan
            let _spots = engine.spots();
            Ok(Some(Told { event, answers }))
        }
    }
}
