ghost use Rattle.std.specs.Prelude.{◌≡◌, ◌-◌, ◌<◌, ◌++◌, ◌∷◌, [], true, false, length, set, vec_capacity, IfSome, IsNone, IsTrue, OnOk, OnErr};
ghost use Rattle.std.proofs.Props.{props};
ghost use Rattle.rg_state.specs.Touched.{flag_at, AreListed};

use crate::slots::push_within;
use rg_bytes::Memory;
use std::alloc::Global;

/// The slots in which a row may have been named since the mark, each once.
#[derive(Debug, Drop)]
pub(crate) struct Touched {
    /// Of each slot whether it is one of them.
    pub(crate) flags: Vec<bool>,
    /// The slots themselves, in any order. There is room for all, so that one is put here without memory.
    pub(crate) slots: Vec<u32>,
    ghost listed: { AreListed flags.items slots.items (vec_capacity slots) } by { Prim.hlevel props },
}

impl Touched {
    /// No slots.
    pub(crate) fn new(alloc: Global) -> Touched
        ensures flags { length result.flags.items ≡ 0 }
        ensures slots { length result.slots.items ≡ 0 }
    {
        Touched {
            flags: Vec::new(alloc),
            slots: Vec::new(alloc),
        }
    }

    /// Remembers one slot more, which isn't touched.
    pub(crate) fn grow(&mut self) -> Result<(), Memory>
        ensures ok { OnOk result (self.new.flags.items ≡ self.old.flags.items ++ false ∷ []) }
        ensures err { OnErr result (self.new.flags.items ≡ self.old.flags.items) }
    {
        let count = self.flags.len() + 1;
        self.slots.reserve(count.saturating_sub(self.slots.len()))?;
        self.flags.push(false)?;
        Ok(())
    }

    /// A slot is touched.
    #[inline(always)]
    pub(crate) fn touch(&mut self, slot: u32)
        requires { slot < length self.old.flags.items }
        ensures { self.new.flags.items ≡ set self.old.flags.items slot true }
    {
        if self.flags[slot as usize] {
            return;
        }
        self.flags[slot as usize] = true;
        push_within(&mut self.slots, slot);
    }

    /// Takes the last of them out, where there is one.
    pub(crate) fn pop(&mut self) -> Option<u32>
        ensures there { IfSome result (λ slot. slot < length self.old.flags.items) }
        ensures some { IfSome result (λ slot. self.new.flags.items ≡ set self.old.flags.items slot false) }
        ensures none { IsNone result → self.new.flags.items ≡ self.old.flags.items }
        ensures fewer { length self.new.slots.items ≡ length self.old.slots.items - 1 }
    {
        match self.slots.pop() {
            None => None,
            Some(slot) => {
                self.flags[slot as usize] = false;
                Some(slot)
            }
        }
    }
}
