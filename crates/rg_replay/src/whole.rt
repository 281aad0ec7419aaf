ghost use Rattle.std.specs.Prelude.{◌≡◌, ℕ, List, [], ◌∷◌, ◌++◌, Option};
ghost use Rattle.rg_event.specs.declared.event.Event.{Event};
ghost use Rattle.rg_event.specs.Rising.{next_offset, IsRising};
ghost use Rattle.rg_run_spec.specs.Accepted.{events_before};
ghost use Rattle.rg_run_spec.specs.Output.{Terms};
ghost use Rattle.rg_replay.specs.Replay.{end_line, replay_text};
ghost use Rattle.rg_replay.specs.Runs.{answered_before, text_of_left};

/// The whole text of a replay over what a run leaves after so many lines of its input. From the next offset of the
/// events that its store held on it is the lines for the payments that the run accepted, and the last line; from
/// any offset on, the lines of what the store held stand before these.
#[tactic(auto, using(crate::proofs::Wholes::same_text, crate::proofs::Wholes::same_text_from))]
pub fn law_whole_text()
    // The text of a replay is the lines of all payments, then the last line.
    ensures whole { (terms : Terms) (held : List Event) (first : ℕ) (lines : List (Option (List ℕ))) (i : ℕ) (events : List Event) → IsRising held → events ≡ events_before terms.basis held first lines i →
        replay_text terms.basis.queries (next_offset held) events ≡ answered_before terms held first lines i ++ end_line events ∷ [] }
    ensures whole_from { (from : ℕ) (terms : Terms) (held : List Event) (first : ℕ) (lines : List (Option (List ℕ))) (i : ℕ) (events : List Event) → events ≡ events_before terms.basis held first lines i →
        replay_text terms.basis.queries from events ≡ text_of_left from terms held first lines i }
{}
