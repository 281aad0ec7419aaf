ghost use Rattle.std.specs.Prelude.{◌≡◌, ◌≤◌, ◌^◌, ℕ, List, length, None, IfSome};
ghost use Rattle.std.specs.List.{sum};
ghost use Rattle.rg_config.specs.Plans.{Planned};
ghost use Rattle.rg_selftest.specs.Trials.{count_for, text_for};

use crate::number::{last_number, sum_of};

/// What is counted of a run on made lines.
#[derive(Clone, Copy, Debug, PartialEq, Eq, Hash)]
pub struct Trial {
    /// How many lines there were, at most 200,000.
    pub lines: u64,
    /// How many events were accepted.
    pub events: u64,
    /// How many bytes the text of the run has, its open line included.
    pub bytes: u64,
    /// The sum of these bytes as numbers.
    pub sum: u128,
}

/// What is counted of the text of a run on so many lines. The number of events is the one that the text
/// ends with: none is counted of a text without such a number, and a run's has one.
pub fn count(lines: u64, text: &[u8]) -> Option<Trial>
    // The counts are those of the text: the accepted payments, the bytes and their sum.
    ensures found { (asks : Planned) (input : List ℕ) → text.now ≡ text_for asks input → count_for asks input ≤ 2 ^ 40 → result ≡ None → ⊥ }
    ensures lines { IfSome result (λ trial. trial.lines ≡ lines) }
    ensures events { (asks : Planned) (input : List ℕ) → text.now ≡ text_for asks input → count_for asks input ≤ 2 ^ 40 → IfSome result (λ trial. trial.events ≡ count_for asks input) }
    ensures bytes { IfSome result (λ trial. trial.bytes ≡ length text.now) }
    ensures sum { IfSome result (λ trial. trial.sum ≡ sum text.now) }
{
    match last_number(text) {
        None => None,
        Some(events) => Some(Trial {
            lines,
            events,
            bytes: text.len() as u64,
            sum: sum_of(text),
        }),
    }
}
