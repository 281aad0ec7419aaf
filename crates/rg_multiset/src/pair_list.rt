ghost use Rattle.std.specs.Prelude.{◌≡◌, ℕ, ◌+◌, Bool, List, [], ◌∷◌, ◌++◌, true, IfOk, OnOk};
ghost use Rattle.rg_agg.specs.Held.{Begins, Agrees};
ghost use Rattle.rg_agg.specs.Standing.{counts_sum};
ghost use Rattle.rg_event.specs.Tagged.{tagged_bytes};
ghost use Rattle.rg_event.specs.declared.value.Value.{Value};
ghost use Rattle.rg_multiset.specs.Reading.{comes_behind, is_count, last_kept};

use rg_agg::StateFault;
use rg_bytes::{ByteReader, Memory};

/// Values of one kind with how often each is there, in an order, that are read one after another.
pub trait PairList: Drop {
    /// What stands for a value.
    type Key: Drop;

    /// The value that a key stands for.
    ghost value_of: { Self.Key → Value };

    /// The values that may be kept.
    ghost legal: { Value → Type 0 };

    /// The value that some bytes begin with.
    ghost value_at: { List ℕ → Begins Value };

    /// The values so far, each with how often it is there.
    ghost pairs: { Self → List (Value × ℕ) };

    /// The first value stands before the second, where they are of one kind.
    ghost below: { Self → Value → Value → Bool };

    /// How many values there may be in all.
    ghost most: { Self → ℕ };

    /// Takes a value with the tag of its kind. A refusal may leave the reader in mid-way.
    fn read_key(&self, from: &mut ByteReader<'_>) -> Result<Self::Key, StateFault>
        ensures agrees { Agrees value_of (value_at from.old) result from.new }
        ensures ok { IfOk result (λ key. from.old ≡ tagged_bytes (value_of key) ++ from.new) }
        ensures legal { IfOk result (λ key. legal (value_of key)) };

    /// Whether a value may stand behind those so far: it is of their kind and behind the last one.
    fn is_behind(&self, key: &Self::Key) -> bool
        requires { legal (value_of key.now) }
        ensures { result ≡ comes_behind (below self.now) (last_kept (pairs self.now)) (value_of key.now) };

    /// How many values more there may be.
    fn room(&self) -> u64
        ensures { counts_sum (pairs self.now) + result ≡ most self.now };

    /// Puts a value behind those so far, so often. Where memory runs out the list may be of no more use.
    fn push(&mut self, key: Self::Key, count: u64) -> Result<(), Memory>
        requires legal { legal (value_of key) }
        requires behind { comes_behind (below self.old) (last_kept (pairs self.old)) (value_of key) ≡ true }
        requires count { is_count (most self.old) (pairs self.old) count ≡ true }
        ensures ok { OnOk result (pairs self.new ≡ pairs self.old ++ (value_of key, count) ∷ []) }
        ensures order { OnOk result (below self.new ≡ below self.old) }
        ensures most { OnOk result (most self.new ≡ most self.old) };
}
