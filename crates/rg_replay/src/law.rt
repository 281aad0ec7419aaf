ghost use Rattle.std.specs.Prelude.{◌≡◌, ℕ, List, [], Option, length};
ghost use Rattle.rg_event.specs.declared.event.Event.{Event};
ghost use Rattle.rg_event.specs.Rising.{next_offset, IsRising};
ghost use Rattle.rg_run_spec.specs.Accepted.{events_before, events_after};
ghost use Rattle.rg_run_spec.specs.Output.{Terms};
ghost use Rattle.rg_replay.specs.Replay.{replay_lines};
ghost use Rattle.rg_replay.specs.Runs.{answered_before};

/// A replay of what a run leaves puts for the payments that this run accepted just the lines that the run put
/// for them, byte by byte, but with `ok` for those that were moved: for all payments where its store was empty,
/// and else from the store's next offset on.
#[tactic(auto, using(crate::proofs::Runs::same_as_run, crate::proofs::Runs::same_from_nothing))]
pub fn law_same_as_run()
    // A replay of what a run leaves puts just the lines of that run, with `ok` for a moved payment.
    ensures same_as_run { (terms : Terms) (lines : List (Option (List ℕ))) →
        replay_lines terms.basis.queries 0 (events_after terms.basis [] 0 lines) ≡ answered_before terms [] 0 lines (length lines) }

    // Over a store that held payments before, their lines stand in front.
    ensures goes_on { (terms : Terms) (held : List Event) (first : ℕ) (lines : List (Option (List ℕ))) (i : ℕ) → IsRising held →
        replay_lines terms.basis.queries (next_offset held) (events_before terms.basis held first lines i) ≡ answered_before terms held first lines i }
{}
