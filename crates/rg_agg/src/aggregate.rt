ghost use Rattle.std.specs.Prelude.{◌≡◌, ◌↔◌, ℕ, ◌+◌, ◌<◌, ◌≤◌, ◌^◌, ◌==◌, None, List, [], ◌∷◌, ◌++◌, length, IfOk, OnOk, OnErr, IsErr, IsTrue};
ghost use Rattle.std.specs.List.{All};
ghost use Rattle.rg_agg.specs.Held.{Held, Begins, held_bytes, Agrees, Returns};
ghost use Rattle.rg_agg.specs.Standing.{Stands, MayBeginWith, IsLike, func_of, kind_in, size_in};
ghost use Rattle.rg_event.specs.Tagged.{value_kind};
ghost use Rattle.rg_event.specs.declared.value.Value.{Value};
ghost use Rattle.rg_metric.specs.Admitted.{IsAdmitted};
ghost use Rattle.rg_metric.specs.Answers.{answer_of};
ghost use Rattle.rg_keywords.specs.declared.func.Func.{Func};

use crate::fault::{StateFault, Unfit};
use rg_bytes::{ByteReader, Memory};
use rg_event::{Kind, Value};
use rg_metric::Answer;
use std::alloc::Global;

/// A state that stands for a list of values: it adds one at the back, and takes one from the front.
pub trait Aggregate {
    /// The function that it answers.
    ghost func: { Func };

    /// Where adding a value to a state may take memory.
    ghost grows: { Self → Value → Type 0 };

    /// What a state keeps.
    ghost held: { Self → Held };

    /// The state that some bytes begin with.
    ghost held_at: { List ℕ → Begins Held };

    /// The state of no values.
    fn empty(alloc: Global) -> Self
        // The new state stands for no value.
        ensures stands { Stands (held result) [] }
        ensures size { size_in (held result) ≡ 0 }
        ensures kind { kind_in (held result) ≡ None };

    /// A state that keeps the same.
    fn copy(&self, alloc: Global) -> Result<Self, Memory>
        // A copy keeps the same. Its room may be another.
        ensures { IfOk result (λ state. held state ≡ held self.now) };

    /// Whether it stands for no values.
    fn is_empty(&self) -> bool
        ensures size { result ≡ (size_in (held self.now) == 0) }
        ensures none { (values : List Value) → Stands (held self.now) values → IsTrue result ↔ (values ≡ []) };

    /// How many values it stands for, at most 2^40.
    fn size(&self) -> u64
        // It tells how many values it stands for.
        ensures size { result ≡ size_in (held self.now) }
        ensures few { result ≤ 2 ^ 40 }
        ensures length { (values : List Value) → Stands (held self.now) values → result ≡ length values };

    /// The kind of the values that it keeps; none where it keeps none of them.
    fn kind(&self) -> Option<Kind>
        ensures kind { result ≡ kind_in (held self.now) }
        ensures like { (values : List Value) (value : Value) → Stands (held self.now) values → All (λ v. value_kind v ≡ value_kind value) values → IsLike result value };

    /// The function's answer over the values that it stands for.
    fn answer(&self) -> Answer
        // The answer is the definition's over the values.
        ensures { (values : List Value) → Stands (held self.now) values → result ≡ answer_of func values };

    /// Adds a value at the back. Where memory runs out the state is as before.
    fn add(&mut self, value: &Value) -> Result<(), Memory>
        requires room { size_in (held self.old) < 2 ^ 40 }
        requires admitted { IsAdmitted func value.now }
        requires like { IsLike (kind_in (held self.old)) value.now }
        // The state stands for its values and the new one behind them.
        ensures ok { OnOk result ((values : List Value) → Stands (held self.old) values → Stands (held self.new) (values ++ value.now ∷ [])) }
        ensures size { OnOk result (size_in (held self.new) ≡ size_in (held self.old) + 1) }

        // A refusal leaves what the state keeps, and comes only where the addition may take memory.
        ensures err { OnErr result (held self.new ≡ held self.old) }
        ensures memory { IsErr result → grows self.old value.now };

    /// Takes the first value away. A refusal comes exactly of a state that stands for no list that begins with the
    /// value, but for a sum of squares, and leaves the state as it was.
    fn remove(&mut self, value: &Value) -> Result<(), Unfit>
        // The state stands for its values without the first.
        ensures ok { OnOk result ((values : List Value) → Stands (held self.old) (value.now ∷ values) → Stands (held self.new) values) }
        ensures size { OnOk result (size_in (held self.old) ≡ size_in (held self.new) + 1) }

        // A value goes only where the state may stand for a list that begins with it.
        ensures begins { OnOk result (MayBeginWith (held self.old) value.now) }

        // A removal is refused only where the state stands for no list that begins with the value.
        ensures unfit { OnErr result ((values : List Value) → Stands (held self.old) (value.now ∷ values) → ⊥) }
        ensures err { OnErr result (self.new ≡ self.old) };

    /// Writes the state at the end. Where memory runs out `out` holds what it held.
    fn encode(&self, out: &mut Vec<u8>) -> Result<(), Memory>
        requires { 0 < size_in (held self.now) }
        // The bytes of the state are written by their grammar, or nothing is.
        ensures ok { OnOk result (out.new.items ≡ out.old.items ++ held_bytes (held self.now)) }
        ensures err { OnErr result (out.new.items ≡ out.old.items) };

    /// Takes a state, as `encode` writes it. A refusal leaves the reader as it was.
    fn decode(alloc: Global, from: &mut ByteReader<'_>) -> Result<Self, StateFault>
        // A state is read exactly where its bytes stand: the end of the bytes and an unfit part are told exactly.
        ensures agrees { Agrees held (held_at from.old) result from.new }
        ensures ok { IfOk result (λ state. from.old ≡ held_bytes (held state) ++ from.new) }
        ensures some { IfOk result (λ state. 0 < size_in (held state)) }

        // What was written is read back, whatever follows.
        ensures reads_back { (state : Self) (rest : List ℕ) → 0 < size_in (held state) → from.old ≡ held_bytes (held state) ++ rest → Returns held (held state) rest result from.new }
        ensures err { OnErr result (from.new ≡ from.old) };

    ghost of_func: { (state : Self) → func_of (held state) ≡ func };
}
