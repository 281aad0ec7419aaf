//! What is decided on a line, what a run accepts and puts out, and the laws by which a stopped run goes on.
//!
//! The definitions are in `specs/`: `Verdicts` has what a line is read as, the verdict on it and the reply,
//! over a `Basis` alone (the columns, the queries, the limit of events, whether there is a header, and the grace);
//! `Accepted` says which events a run accepts over a store that held some before, `Output` what it puts,
//! `Ahead` what is still to come in mid-run, `Acknowledged` what the lines that were put promise of the
//! store, and `Stores`, `Steps` and `Turns` what holds of store and output at each moment. Each function
//! here is a law without a body.
#![tactic(auto)]

mod control;
mod verdict;

ghost use Rattle.std.specs.Prelude.{◌≡◌, ℕ, ◌+◌, ◌-◌, ◌≤◌, ◌<◌, ◌^◌, max, true, List, [], ◌∷◌, ◌++◌, length, get_or, drop, Option, Some, None};
ghost use Rattle.rg_event.specs.declared.event.Event.{Event};
ghost use Rattle.rg_event.specs.Rising.{next_offset, IsRising};
ghost use Rattle.rg_host.specs.Lines.{ended};
ghost use Rattle.rg_host.specs.Puts.{IsPrefix};
ghost use Rattle.rg_reply.specs.Texts.{reply_line};
ghost use Rattle.rg_run_spec.specs.Verdicts.{Basis, Verdict, accepted_after, line_verdict, accepted_before, reply_to};
ghost use Rattle.rg_run_spec.specs.Accepted.{verdict_from, events_before, events_after};
ghost use Rattle.rg_run_spec.specs.Output.{saves, stored_line, saved_line, marks_of, put_at, put_before, out, unstopped, open_line, text_of_run, Terms};
ghost use Rattle.rg_run_spec.specs.Ahead.{events_from, out_from};
ghost use Rattle.rg_run_spec.specs.Laws.{IsPrefixOf, IsSuffixOf, MayLeave, below, AcceptAlike, Overlaps, OneAhead};
ghost use Rattle.rg_run_spec.specs.Acknowledged.{SaysStored, SaysSaved, SaysLast, HoldsBelow, HoldsStored, IsAcknowledged};
ghost use Rattle.rg_run_spec.specs.Pieces.{AreLines, whole_pieces};
ghost use Rattle.rg_run_spec.specs.Stores.{IsNear, course_of};
ghost use Rattle.rg_run_spec.specs.Turns.{Covers};

pub use control::{Control, control_in};
pub use verdict::{law_before, law_grace, law_next, law_read, row_reply};

/// A line below the next offset of the store is passed over, and any other gets its verdict. Over an
/// empty store the events and the replies are those of the whole input, each with its marks behind it.
#[tactic(auto, using(crate::proofs::Lines::looked_at, crate::proofs::Lines::passed_over, crate::proofs::Lines::events_first, crate::proofs::Lines::put_first))]
pub fn law_line()
    // A line from the store's next offset on gets its verdict.
    ensures looked_at { (basis : Basis) (next : ℕ) (events : List Event) (offset : ℕ) (line : Option (List ℕ)) →
        next ≤ offset → verdict_from basis next events offset line ≡ Some (line_verdict basis events offset line) }

    // A line below the store's next offset is passed over.
    ensures passed_over { (basis : Basis) (next : ℕ) (events : List Event) (offset : ℕ) (line : Option (List ℕ)) →
        offset < next → verdict_from basis next events offset line ≡ None }
    ensures over_nothing { (basis : Basis) (lines : List (Option (List ℕ))) (i : ℕ) → events_before basis [] 0 lines i ≡ accepted_before basis lines i }
    ensures put_over_nothing { (terms : Terms) (lines : List (Option (List ℕ))) (i : ℕ) →
        put_at terms [] 0 lines i
        ≡ reply_line i (reply_to terms.basis lines i)
        ∷ marks_of terms (accepted_before terms.basis lines i) (line_verdict terms.basis (accepted_before terms.basis lines i) i (get_or lines i None)) }
{}

/// A mark that says what is saved stands behind one that says the same events are stored.
#[tactic(auto, using(crate::proofs::Lines::saved_marks))]
pub fn law_marks()
    // A mark that says what is saved stands behind one that says the same events are stored.
    ensures saved { (terms : Terms) (events : List Event) (verdict : Verdict) → saves terms events verdict ≡ true →
        marks_of terms events verdict ≡ stored_line (accepted_after events verdict) ∷ (saved_line (accepted_after events verdict) ∷ []) }
{}

/// What is accepted and put in all is what the first lines give, and then what is still to come of the
/// lines behind them.
#[tactic(auto, using(crate::proofs::Whole::accepted_ahead, crate::proofs::Whole::out_ahead))]
pub fn law_ahead()
    // What is accepted in all is what the first lines give, and then what is still to come.
    ensures accepted { (terms : Terms) (held : List Event) (first : ℕ) (lines : List (Option (List ℕ))) (i : ℕ) → i ≤ length lines →
        events_after terms.basis held first lines ≡ events_from terms.basis (events_before terms.basis held first lines i) (first + i) (drop i lines) }
    ensures text { (terms : Terms) (held : List Event) (first : ℕ) (lines : List (Option (List ℕ))) (i : ℕ) → i ≤ length lines →
        out terms held first lines
        ≡ put_before terms held first lines i ++ out_from terms (events_before terms.basis held first lines i) (first + i) (drop i lines) }
{}

/// More lines behind some others change nothing of what these give.
#[tactic(auto, using(crate::proofs::Whole::accepted_begins, crate::proofs::Whole::out_begins))]
pub fn law_prefix()
    // More lines behind some others change nothing of what these give.
    ensures accepted { (terms : Terms) (held : List Event) (first : ℕ) (front back : List (Option (List ℕ))) →
        IsPrefixOf (events_after terms.basis held first front) (events_after terms.basis held first (front ++ back)) }
    ensures text { (terms : Terms) (held : List Event) (first : ℕ) (front back : List (Option (List ℕ))) →
        IsPrefixOf (put_before terms held first front (length front)) (out terms held first (front ++ back)) }
{}

/// A run over what an earlier run of the same lines left accepts the same events in the end, and
/// puts what that one would have put behind the lines below the next offset.
#[tactic(auto, using(crate::proofs::Whole::accepted_again, crate::proofs::Whole::out_again, crate::proofs::Whole::accepted_splits))]
pub fn law_go_on()
    // A run over what an earlier run of the same lines left accepts the same events in the end.
    ensures accepted { (terms : Terms) (held : List Event) (first : ℕ) (lines : List (Option (List ℕ))) (left : List Event) →
        MayLeave terms.basis held first lines left → events_after terms.basis left first lines ≡ events_after terms.basis held first lines }

    // It puts what that one would have put behind the lines below the next offset.
    ensures text { (terms : Terms) (held : List Event) (first : ℕ) (lines : List (Option (List ℕ))) (left : List Event) →
        MayLeave terms.basis held first lines left →
        out terms held first lines ≡ put_before terms held first lines (next_offset left - first) ++ out terms left first lines }
    ensures splits { (terms : Terms) (held : List Event) (first : ℕ) (front back : List (Option (List ℕ))) →
        events_after terms.basis (events_after terms.basis held first front) first (front ++ back) ≡ events_after terms.basis held first (front ++ back) }
{}

/// What a run may leave is just the events of the whole run below some next offset, after two stops
/// as after one; what is put over them is the last lines of what a run puts that never stopped.
#[tactic(auto, using(crate::proofs::Whole::may_leave, crate::proofs::Whole::left_below, crate::proofs::Whole::leaves_again, crate::proofs::Whole::resumes))]
pub fn law_resume()
    // What a run may leave is just the events of the whole run below some next offset.
    ensures may_leave { (terms : Terms) (held : List Event) (first : ℕ) (lines : List (Option (List ℕ))) (left : List Event) →
        IsRising held → IsPrefixOf held left → left ≡ below (next_offset left) (events_after terms.basis held first lines) → MayLeave terms.basis held first lines left }
    ensures leaves_those_below { (terms : Terms) (held : List Event) (first : ℕ) (lines : List (Option (List ℕ))) (left : List Event) →
        IsRising held → MayLeave terms.basis held first lines left → left ≡ below (next_offset left) (events_after terms.basis held first lines) }

    // So it is after two stops.
    ensures leaves_twice { (terms : Terms) (held : List Event) (first : ℕ) (lines : List (Option (List ℕ))) (left more : List Event) →
        MayLeave terms.basis held first lines left → MayLeave terms.basis left first lines more → MayLeave terms.basis held first lines more }

    // What is put over these events is the last lines of what a run puts that never stopped.
    ensures resumes { (terms : Terms) (lines : List (Option (List ℕ))) (held : List Event) →
        held ≡ below (next_offset held) (events_after terms.basis [] 0 lines) → IsSuffixOf (out terms held 0 lines) (unstopped terms lines) }
{}

/// What is accepted depends on the columns, the header, the limit and the grace alone, and not on what is asked:
/// runs of other queries over the same store accept alike.
#[tactic(auto, using(crate::proofs::Alike::accepted_alike))]
pub fn law_alike()
    // What is accepted depends on columns, header, limit and grace, and not on what is asked.
    ensures accepted { (one two : Basis) (held : List Event) (first : ℕ) (lines : List (Option (List ℕ))) →
        AcceptAlike one two → events_after two held first lines ≡ events_after one held first lines }
{}

/// Offsets rise, times never fall, and there are no more events than the terms allow or the store held.
#[tactic(auto, using(crate::proofs::Whole::accepted_rises, crate::proofs::Whole::accepted_count))]
pub fn law_order()
    // Offsets rise, and times never fall.
    ensures rises { (terms : Terms) (held : List Event) (first : ℕ) (lines : List (Option (List ℕ))) → IsRising held → IsRising (events_after terms.basis held first lines) }

    // There are no more events than the terms allow or the store held.
    ensures count { (terms : Terms) (held : List Event) (first : ℕ) (lines : List (Option (List ℕ))) → length (events_after terms.basis held first lines) ≤ max (length held) terms.basis.most }
{}

/// Whichever checkpoint a run goes on from, a newer one, an older one or none, it puts the same text
/// behind its first line, which alone says how many events that checkpoint is of.
pub fn law_whichever()
    // Whichever checkpoint a run goes on from, it puts the same text behind its first line.
    ensures text { (terms : Terms) (held : List Event) (one other first : ℕ) (lines : List (Option (List ℕ))) →
        drop 1 (text_of_run terms held one first lines) ≡ drop 1 (text_of_run terms held other first lines) }
    ensures first_line { (terms : Terms) (held : List Event) (from first : ℕ) (lines : List (Option (List ℕ))) →
        text_of_run terms held from first lines ≡ open_line held from ∷ out terms held first lines }
{}

/// Lines below the next offset of the store may be left out of the input.
#[tactic(auto, using(crate::proofs::Whole::accepted_without, crate::proofs::Whole::out_without))]
pub fn law_first()
    // Lines below the store's next offset may be left out of the input.
    ensures accepted { (terms : Terms) (held : List Event) (first : ℕ) (front back : List (Option (List ℕ))) → first + length front ≤ next_offset held →
        events_after terms.basis held (first + length front) back ≡ events_after terms.basis held first (front ++ back) }
    ensures text { (terms : Terms) (held : List Event) (first : ℕ) (front back : List (Option (List ℕ))) → first + length front ≤ next_offset held →
        out terms held (first + length front) back ≡ out terms held first (front ++ back) }
{}

/// No line of a text holds an LF, and what LF ends in a prefix of its bytes is a prefix of its lines.
#[tactic(auto, using(crate::proofs::Texts::run_are_lines, crate::proofs::Texts::pieces_prefix))]
pub fn law_text()
    // No line of a text holds an LF.
    ensures lines { (terms : Terms) (held : List Event) (from first : ℕ) (lines : List (Option (List ℕ))) → AreLines (text_of_run terms held from first lines) }

    // What LF ends in a prefix of a text's bytes is a prefix of its lines.
    ensures whole { (text : List (List ℕ)) (put : List ℕ) → AreLines text → IsPrefix put (ended text) → IsPrefixOf (whole_pieces put) text }
{}

/// A line that says what is stored has the next offset of the events accepted up to it, one that
/// says what is saved their number; so the events up to it hold all that it says, and what holds all
/// that the lines say holds what the last of them says.
#[tactic(auto, using(crate::proofs::Marks::out_stored_means, crate::proofs::Marks::out_saved_means))]
pub fn law_acknowledged()
    ensures stored { (terms : Terms) (held : List Event) (first : ℕ) (lines : List (Option (List ℕ))) → first + length lines < 2 ^ 63 → next_offset held < 2 ^ 63 →
        (n : ℕ) → n < 2 ^ 64 → SaysStored (out terms held first lines) n →
        (j : ℕ) × (j ≤ length lines) × (n ≡ next_offset (events_before terms.basis held first lines j)) }
    ensures saved { (terms : Terms) (held : List Event) (first : ℕ) (lines : List (Option (List ℕ))) → first + length lines < 2 ^ 63 → next_offset held < 2 ^ 63 →
        max (length held) terms.basis.most < 2 ^ 64 → (n : ℕ) → n < 2 ^ 64 → SaysSaved (out terms held first lines) n →
        (j : ℕ) × (j ≤ length lines) × (n ≡ length (events_before terms.basis held first lines j)) }

    // What a whole `stored` line says is held by each image that is on course.
    ensures held { (events accepted : List Event) (n : ℕ) → IsRising accepted → IsPrefixOf events accepted → n ≤ next_offset events → HoldsBelow n accepted events }
    ensures last { (start : ℕ) (lines : List (List ℕ)) (accepted events : List Event) (n : ℕ) → n < 2 ^ 64 →
        HoldsStored lines accepted events → HoldsBelow start accepted events → IsAcknowledged start lines n → HoldsBelow n accepted events }
    ensures all { (terms : Terms) (held : List Event) (first : ℕ) (lines : List (Option (List ℕ))) → first + length lines < 2 ^ 63 → next_offset held < 2 ^ 63 →
        (put : List (List ℕ)) (n : ℕ) (accepted events : List Event) → IsPrefixOf put (out terms held first lines) → n < 2 ^ 64 →
        SaysLast put n → HoldsBelow n accepted events → HoldsStored put accepted events }
{}

/// What a stopped run and the next one put make up the whole text, but for the lines of at most one turn.
#[tactic(auto, using(crate::proofs::Covering::overlaps, crate::proofs::Covering::one_ahead, crate::proofs::Covering::accepted_alike))]
pub fn law_cover()
    // What a stopped run and the next one put make up the whole text, but for the lines of at most one turn.
    ensures overlaps { (terms : Terms) (held : List Event) (first : ℕ) (lines : List (Option (List ℕ))) (left : List Event) →
        MayLeave terms.basis held first lines left → (count : ℕ) → count ≤ length lines → next_offset left ≤ first + count →
        Overlaps (put_before terms held first lines (next_offset left - first)) (put_before terms held first lines count) (out terms left first lines) (out terms held first lines) }
    ensures one_ahead { (terms : Terms) (held : List Event) (first : ℕ) (lines : List (Option (List ℕ))) (left : List Event) (reach : ℕ) →
        reach ≤ length lines → IsPrefixOf held left → IsPrefixOf left (events_before terms.basis held first lines reach) → next_offset held < next_offset left →
        OneAhead terms held first lines left reach }
    ensures near { (terms : Terms) (said : List ℕ) (held : List Event) (from first : ℕ) (lines : List (Option (List ℕ))) (put : List (List ℕ)) (left : List Event) →
        IsPrefixOf held left → next_offset held < next_offset left → IsNear (course_of terms said held from first lines) put left → Covers terms held from first lines left put }
    ensures alike { (terms : Terms) (held : List Event) (first : ℕ) (lines : List (Option (List ℕ))) (left : List Event) →
        MayLeave terms.basis held first lines left → (i : ℕ) → i ≤ length lines → next_offset left ≤ first + i →
        events_before terms.basis left first lines i ≡ events_before terms.basis held first lines i }
{}
