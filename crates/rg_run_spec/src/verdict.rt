ghost use Rattle.std.specs.Prelude.{◌≡◌, ◌≤◌, ◌<◌, ◌^◌, ◌+◌, ◌++◌, ◌∷◌, [], ℕ, List, Option, Ok, length};
ghost use Rattle.rg_event.specs.declared.event.Event.{Event as TheEvent};
ghost use Rattle.rg_event.specs.Codec.{IsEventOf};
ghost use Rattle.rg_event.specs.Rising.{next_offset, IsRising};
ghost use Rattle.rg_run_spec.specs.Verdicts.{Basis, control_at, fault_reply, read_as, obeyed_or, accepted_after, line_verdict, accepted_before, reply_to};
ghost use Rattle.rg_run_spec.specs.Laws.{strict_verdict};

use rg_reply::Reply;
use rg_row::RowFault;

/// What was accepted among the first lines, and the reply to each of them, doesn't depend on what
/// comes behind them.
#[tactic(auto, using(crate::proofs::LawNames::accepted_first, crate::proofs::LawNames::reply_first))]
pub fn law_before()
    ensures accepted { (basis : Basis) (lines more : List (Option (List ℕ))) (i : ℕ) → i ≤ length lines → accepted_before basis (lines ++ more) i ≡ accepted_before basis lines i }
    ensures reply { (basis : Basis) (lines more : List (Option (List ℕ))) (i : ℕ) → i < length lines → reply_to basis (lines ++ more) i ≡ reply_to basis lines i }
{}

/// The event that a line is read as is one of the columns, with the line's offset.
#[tactic(auto, using(crate::proofs::LawNames::read_event))]
pub fn law_read()
    ensures { (basis : Basis) (offset : ℕ) (line : Option (List ℕ)) (e : TheEvent) → read_as basis offset line ≡ Ok e → offset < 2 ^ 62 → IsEventOf basis.fields e }
{}

/// The reply to a fault of a row; want of memory has none.
pub fn row_reply(fault: RowFault) -> Reply
    requires { fault ≡ RowFault.Memory → ⊥ }
    ensures { result ≡ fault_reply fault }
{
    match fault {
        RowFault::Row => Reply::Row,
        RowFault::Fields => Reply::Fields,
        RowFault::Time => Reply::Time,
        RowFault::Value(column) => Reply::Value(column),
        RowFault::Memory => unreachable!(),
    }
}

/// The offsets of the accepted events are below that of the next line.
#[tactic(auto, using(crate::proofs::LawNames::next_after_line))]
pub fn law_next()
    ensures { (basis : Basis) (events : List TheEvent) (offset : ℕ) (line : Option (List ℕ)) → next_offset events ≤ offset → next_offset (accepted_after events (line_verdict basis events offset line)) ≤ offset + 1 }
{}

/// Without grace an event is late just where one accepted before it has a greater time, and none is
/// moved: what is decided on a line that asks for nothing is what it was before there was any grace.
#[tactic(auto, using(crate::proofs::Grace::no_grace))]
pub fn law_grace()
    // Without grace no event is moved, and late is what it was before there was any grace.
    ensures { (basis : Basis) (events : List TheEvent) (offset : ℕ) (line : Option (List ℕ)) → basis.grace ≡ 0 → IsRising events →
        line_verdict basis events offset line ≡ obeyed_or (control_at basis offset line) (strict_verdict basis.most events (read_as basis offset line)) }
{}
