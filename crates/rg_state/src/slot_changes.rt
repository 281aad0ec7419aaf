ghost use Rattle.std.specs.Prelude.{◌≡◌, ◌<◌, ℕ, None, Some, List, IsSome, IsNone};
ghost use Rattle.rg_agg.specs.Standing.{size_in};
ghost use Rattle.rg_event.specs.declared.value.Value.{Value};
ghost use Rattle.rg_metric.specs.Answers.{answer_of};
ghost use Rattle.rg_state.specs.Cells.{slot_in, seen_in, cell_in, count_at, SameSeen};
ghost use Rattle.rg_state.specs.Rows.{RowStands, IsOf};
ghost use Rattle.rg_state.specs.States.{held_of};
ghost use Rattle.rg_state.specs.SlotSteps.{Puts, SlotsGet, SlotsStep};
ghost use Rattle.rg_metric.specs.Admitted.{IsAdmitted};

use crate::one::Refusal;
use crate::own::{blank_answer, first_state, own_answer};
use crate::slots::{Slots, push_within};
use crate::state::AggState;
use crate::table::Change;
use rg_bytes::Memory;
use rg_event::Value;
use rg_group::Key;
use rg_metric::{Answer, Func};
use std::alloc::Global;

impl Slots {
    /// Adds a value to the row of a node and a key.
    pub(crate) fn add(
        &mut self,
        alloc: Global,
        node: u32,
        key: &Key,
        func: Func,
        value: &Value,
    ) -> Result<(), Refusal>
        requires { IsAdmitted func value.now }
        ensures { SlotsStep func Change.Add value.now node key.now (seen_in self.old.rows.items) (seen_in self.new.rows.items) result }
    {
        match self.find(key) {
            Some(slot) => return self.add_at(alloc, slot, node, func, value),
            None => {}
        }
        let state = match first_state(alloc, func, value) {
            Ok(state) => state,
            Err(_) => return Err(Refusal::Memory),
        };
        match self.put(alloc, node, key, state) {
            Ok(()) => Ok(()),
            Err(_) => Err(Refusal::Memory),
        }
    }

    /// Adds a value to the row of a node in a slot in which something is kept.
    fn add_at(
        &mut self,
        alloc: Global,
        slot: u32,
        node: u32,
        func: Func,
        value: &Value,
    ) -> Result<(), Refusal>
        requires takes { IsAdmitted func value.now }
        requires used { 0 < count_at self.old.rows.items slot }
        ensures { (key : List ℕ) → slot_in self.old.rows.items key ≡ Some slot → SlotsStep func Change.Add value.now node key (seen_in self.old.rows.items) (seen_in self.new.rows.items) result }
    {
        self.touched.touch(slot);
        let rows = &mut self.rows[slot as usize];
        rows.add(alloc, node, func, value)
    }

    /// Takes the first value of the row of a node and a key away. A key that has no row then loses its slot.
    pub(crate) fn remove(
        &mut self,
        node: u32,
        key: &Key,
        func: Func,
        value: &Value,
    ) -> Result<(), Refusal>
        ensures { SlotsStep func Change.Remove value.now node key.now (seen_in self.old.rows.items) (seen_in self.new.rows.items) result }
    {
        let slot = match self.find(key) {
            None => return Err(Refusal::Unfit),
            Some(slot) => slot,
        };
        self.touched.touch(slot);
        let rows = &mut self.rows[slot as usize];
        match rows.take(node, func, value) {
            Err(refusal) => return Err(refusal),
            Ok(()) => {}
        }
        if !rows.is_empty() {
            return Ok(());
        }
        self.index.remove(key.mix(), key, slot);
        push_within(&mut self.free, slot);
        Ok(())
    }

    /// Puts a row where there is none.
    pub(crate) fn insert(
        &mut self,
        alloc: Global,
        node: u32,
        key: Key,
        state: AggState,
    ) -> Result<(), Memory>
        requires free { cell_in self.old.rows.items node key ≡ None }
        requires some { 0 < size_in (held_of state) }
        ensures { SlotsGet (held_of state) node key (seen_in self.old.rows.items) (seen_in self.new.rows.items) result }
    {
        match self.find(&key) {
            Some(slot) => {
                self.touched.touch(slot);
                let rows = &mut self.rows[slot as usize];
                return rows.insert(node, state);
            }
            None => {}
        }
        self.put(alloc, node, &key, state)
    }

    /// The answer of the row of a node and a key, without one that of no values; none for another function's row.
    pub(crate) fn answer(&mut self, node: u32, key: &Key, func: Func) -> Option<Answer>
        ensures answer { (values : List Value) → RowStands func (cell_in self.old.rows.items node key.now) values → result ≡ Some (answer_of func values) }
        ensures own { IsSome result → IsOf func (cell_in self.old.rows.items node key.now) }
        ensures causes { IsNone result → IsOf func (cell_in self.old.rows.items node key.now) → ⊥ }
        ensures same { SameSeen (seen_in self.old.rows.items) (seen_in self.new.rows.items) }
    {
        match self.find(key) {
            None => Some(blank_answer(func)),
            Some(slot) => match self.row(slot, node) {
                None => Some(blank_answer(func)),
                Some(state) => own_answer(state, func),
            },
        }
    }
}
