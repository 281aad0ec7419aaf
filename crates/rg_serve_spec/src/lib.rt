//! What a serve puts in reply to its requests, and what holds of its store at each moment.
//!
//! The definitions are in `specs/`: `Frames` has the bytes of replies and what a client reads of them, `Replies` the
//! reply to each request that a pipe hands out, and `Errands` what a serve begins with and what holds at each moment of
//! it. Each function here is a law without a body.
#![tactic(auto)]

ghost use Rattle.std.specs.Prelude.{◌≡◌, ◌≤◌, ◌<◌, ◌^◌, ◌+◌, ℕ, List, [], ◌∷◌, ◌++◌, length};
ghost use Rattle.rg_event.specs.declared.event.Event.{Event};
ghost use Rattle.rg_event.specs.Rising.{next_offset};
ghost use Rattle.rg_pipe.specs.Handing.{Given};
ghost use Rattle.rg_pipe.specs.Sent.{Sent};
ghost use Rattle.rg_pipe.specs.Streams.{given_all, expected_all};
ghost use Rattle.rg_run_spec.specs.Accepted.{events_after};
ghost use Rattle.rg_run_spec.specs.Output.{Terms, end_lines, out};
ghost use Rattle.rg_run_spec.specs.Pieces.{AreLines};
ghost use Rattle.rg_serve_spec.specs.Frames.{Reply, framed, text_of, frames_of, lines_in, lines_said, texts_in, texts_of_all, AreSmall, ReadsSome};
ghost use Rattle.rg_host.specs.Puts.{IsPrefix};
ghost use Rattle.rg_serve_spec.specs.Replies.{events_all, replies_to, rows_in, row_replies, texts_of};

/// A client that got whole frames of replies, and then fewer bytes than the next frame has, reads just the texts of these
/// replies, and so their lines.
pub fn law_frames()
    ensures texts { (done : List Reply) (next : Reply) (part rest : List ℕ) → AreSmall done → length (text_of next) < 2 ^ 32 → 0 < length rest →
        part ++ rest ≡ framed (text_of next) → texts_in (frames_of done ++ part) ≡ texts_of_all done }
    ensures lines { (done : List Reply) (next : Reply) (part rest : List ℕ) → AreSmall done → length (text_of next) < 2 ^ 32 → 0 < length rest →
        part ++ rest ≡ framed (text_of next) → AreLines (lines_in done) → lines_said (frames_of done ++ part) ≡ lines_in done }
    ensures all { (done : List Reply) → AreSmall done → AreLines (lines_in done) → lines_said (frames_of done) ≡ lines_in done }
{}

/// Lines that were sent before, lines behind a gap, commits and saves change no reply to any other request, and no event.
pub fn law_rows()
    ensures replies { (terms : Terms) (events : List Event) (given : List Given) →
        row_replies given (replies_to terms events given) ≡ replies_to terms events (rows_in given) }
    ensures events { (terms : Terms) (events : List Event) (given : List Given) →
        events_all terms.basis events given ≡ events_all terms.basis events (rows_in given) }
{}

/// The replies to the lines of a stream that have the expected offset, joined with the end, are what a run puts for these
/// lines over the same store, and the events are those that it accepts, where the first line is expected at the store's next
/// offset. However many requests came, the next line is expected at the next offset of the events or behind it.
pub fn law_run()
    ensures next { (terms : Terms) (held : List Event) (expected : ℕ) (requests : List Sent) → next_offset held ≤ expected →
        next_offset (events_all terms.basis held (given_all expected requests)) ≤ expected_all expected requests }
    ensures offset { (expected : ℕ) (requests : List Sent) →
        expected_all expected requests ≡ expected + length (texts_of (given_all expected requests)) }
    ensures events { (terms : Terms) (held : List Event) (requests : List Sent) →
        events_all terms.basis held (given_all (next_offset held) requests) ≡ events_after terms.basis held (next_offset held) (texts_of (given_all (next_offset held) requests)) }
    ensures text { (terms : Terms) (held : List Event) (requests : List Sent) →
        lines_in (row_replies (given_all (next_offset held) requests) (replies_to terms held (given_all (next_offset held) requests)))
        ++ end_lines (expected_all (next_offset held) requests) (events_all terms.basis held (given_all (next_offset held) requests))
        ≡ out terms held (next_offset held) (texts_of (given_all (next_offset held) requests)) }
{}

/// While gathered frames are put behind others, the lines of the whole frames are those of the others' replies and of some
/// first ones of theirs, whatever part of them has come.
pub fn law_put()
    ensures { (first rest : List Reply) (part : List ℕ) → AreSmall (first ++ rest) → AreLines (lines_in (first ++ rest)) →
        IsPrefix part (frames_of rest) → ReadsSome first rest (frames_of first ++ part) }
{}
