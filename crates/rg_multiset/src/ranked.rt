ghost use Rattle.std.specs.Prelude.{◌≡◌, Bool, List, ℕ, ◌++◌, Ok, IfOk, OnOk, OnErr};
ghost use Rattle.std.specs.Ordering.{is_eq, is_lt};
ghost use Rattle.rg_agg.specs.Held.{Begins, Agrees};
ghost use Rattle.rg_bytes.specs.Keeps.{Keeps};
ghost use Rattle.rg_event.specs.Tagged.{tagged_bytes, value_kind};
ghost use Rattle.rg_event.specs.declared.value.Value.{Value};
ghost use Rattle.rg_metric.specs.Same.{same_value};

use rg_agg::StateFault;
use rg_bytes::{ByteReader, Memory};
use rg_event::Kind;
use std::alloc::Global;

/// A key that stands for a value, in the order in which values are kept.
pub trait Ranked: Ord + Drop {
    /// The value that a key stands for.
    ghost value_of: { Self → Value };

    /// The values that may be kept.
    ghost legal: { Value → Type 0 };

    /// The first value stands before the second, where they are of one kind.
    ghost below: { Value → Value → Bool };

    /// The value that some bytes begin with.
    ghost value_at: { List ℕ → Begins Value };

    /// The kind of its value.
    fn kind(&self) -> Kind
        ensures { result ≡ value_kind (value_of self.now) };

    /// A key that is equal.
    fn copy(&self, alloc: Global) -> Result<Self, Memory>
        ensures { IfOk result (λ key. key ≡ self.now) };

    /// Writes its value at the end, with the tag of its kind. Where memory runs out a front of it may stand there.
    fn put(&self, out: &mut Vec<u8>) -> Result<(), Memory>
        ensures ok { OnOk result (out.new.items ≡ out.old.items ++ tagged_bytes (value_of self.now)) }
        ensures err { OnErr result (Keeps out.old.items out.new.items) };

    /// Takes a value with the tag of its kind. A refusal may leave the reader in mid-way.
    fn read(alloc: Global, from: &mut ByteReader<'_>) -> Result<Self, StateFault>
        ensures agrees { Agrees value_of (value_at from.old) result from.new }
        ensures ok { IfOk result (λ key. from.old ≡ tagged_bytes (value_of key) ++ from.new) }
        ensures legal { IfOk result (λ key. legal (value_of key)) };

    ghost tells: { (first second : Self) → same_value (value_of first) (value_of second) ≡ is_eq (Self.cmp first second) };

    ghost orders: { (first second : Self) → legal (value_of first) → legal (value_of second) → value_kind (value_of first) ≡ value_kind (value_of second) → below (value_of first) (value_of second) ≡ is_lt (Self.cmp first second) };

    ghost reads_back: { (value : Value) (rest : List ℕ) → legal value → value_at (tagged_bytes value ++ rest) ≡ Ok (value, rest) };
}
