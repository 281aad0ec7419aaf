ghost use Rattle.std.specs.Prelude.{◌≡◌, ◌++◌, ◌∷◌, [], ◌<◌, ◌^◌, ℕ, List, decimal, Some};
ghost use Rattle.std.specs.List.{sum};
ghost use Rattle.rg_selftest.specs.Words.{last_word};

use rg_bytes::read_whole;

/// The number that a text ends with, behind a space and before LF.
pub(crate) fn last_number(text: &[u8]) -> Option<u64>
    ensures { (front : List ℕ) (number : ℕ) → number < 2 ^ 64 → text.now ≡ front ++ (32 ∷ (decimal number ++ 10 ∷ [])) → result ≡ Some number }
{
    let (_, line) = text.split_last()?;
    read_whole(word_at_end(line))
}

/// What stands behind the last space, and all where there is none.
fn word_at_end(line: &[u8]) -> &[u8]
    ensures { result.now ≡ last_word line.now line.now }
{
    let mut start = 0;
    'places: for place in 0..line.len() {
        if line[place] == b' ' {
            start = place + 1;
        }
    }
    &line[start..]
}

/// The sum of some bytes as numbers.
pub(crate) fn sum_of(bytes: &[u8]) -> u128
    ensures { result ≡ sum bytes.now }
{
    let mut total = 0;
    'bytes: for byte in bytes {
        total += u128::from(*byte);
    }
    total
}
