ghost use Rattle.std.specs.Prelude.{◌≡◌, ◌/◌, ◌^◌, ◌<◌, ◌==◌, position};
ghost use Rattle.rg_key_index.specs.Index.{guess_of, slot_in_guess};

/// A guess is the upper bits of a mix times this, and a slot, which is below it.
const SPLIT: u32 = 1 << 24;

/// The slots below this number fit a guess.
pub(crate) const SLOTS: u32 = SPLIT - 1;

/// No guess. Its slot would be `SLOTS`, which no guess has.
pub(crate) const EMPTY: u32 = u32::MAX;

/// The slot of a guess, where it may be that of the key with this mix.
#[inline]
pub fn slot_of(guess: u32, mix: u64) -> Option<u32>
    ensures { result ≡ slot_in_guess guess mix }
{
    if guess / SPLIT == upper_bits(mix) {
        return Some(guess % SPLIT);
    }
    None
}

/// The guess at this slot for the key with this mix.
pub(crate) fn guess_of(mix: u64, slot: u32) -> u32
    requires { slot < SLOTS }
    ensures { result ≡ guess_of mix slot }
{
    upper_bits(mix) * SPLIT + slot
}

/// The first position in a bucket at which this guess stands.
pub(crate) fn position_of(bucket: &[u32], guess: u32) -> Option<usize>
    ensures { result ≡ position (λ other. other == guess) bucket.now }
{
    bucket.iter().position(|other| *other == guess)
}

/// What a guess keeps of a mix: the upper eight bits, which don't choose its bucket.
fn upper_bits(mix: u64) -> u32
    ensures value { result ≡ mix / 2 ^ 56 }
    ensures small { result < 2 ^ 8 }
{
    (mix >> 56) as u32
}
