ghost use Rattle.std.specs.Prelude.{◌≡◌, ◌+◌, ◌<◌, ◌≤◌, ℕ, true, false, ◌==◌, cond, None, length, is_some, IfSome, IsNone, OnOk, OnErr, slice_index_or};
ghost use Rattle.std.specs.Option.{option_map};
ghost use Rattle.rg_agg.specs.Standing.{size_in};
ghost use Rattle.rg_state.specs.Kepts.{fresh, settled, told, seen, seen_at, stands_in, is_marked, is_idle, is_fair, are_sound, OthersKept, IsFirst, IsKeptSame};
ghost use Rattle.rg_state.specs.States.{held_of};
ghost use Rattle.rg_state.specs.Stepping.{KeptStep, RowsStep, RowsGet, SettlesAt};
ghost use Rattle.rg_metric.specs.Admitted.{IsAdmitted};

use crate::one::Refusal;
use crate::own::first_state;
use crate::state::AggState;
use crate::table::Change;
use rg_agg::{Aggregate, Count, kept_as};
use rg_bytes::Memory;
use rg_event::Value;
use rg_group::Key;
use rg_metric::Func;
use smallvec::SmallVec;
use std::alloc::Global;
use std::default::MadeWith;

/// How many rows of a key stand in its slot itself, since most queries ask for one or two. Where there are
/// more, all of them stand apart, in room that the slot keeps from then on.
const IN_PLACE: usize = 2;

/// The rows of a key, in its slot where they are few.
pub(crate) type Rows = SmallVec<Kept, IN_PLACE>;

/// The state of a node's row, and what is remembered of the row since the mark. A row that is gone and
/// was there at the mark keeps an empty state until the table is marked once more.
#[derive(Debug, Drop)]
pub(crate) struct Kept {
    pub(crate) node: u32,
    /// The row was named since the mark.
    pub(crate) named: bool,
    /// It was named, and was there at the mark.
    pub(crate) there: bool,
    pub(crate) state: AggState,
}

// 4 bytes of the node, 2 of what is remembered of the row, and 32 of the state, aligned to 8.
const _: () = prove!(size_of::<Kept>() == 40);

impl Kept {
    /// Whether the row is gone, and wasn't there at the mark.
    fn is_idle(&self) -> bool
        ensures { result ≡ is_idle self.now }
    {
        !self.there && self.state.is_empty()
    }

    /// Whether there is a row.
    pub(crate) fn is_there(&self) -> bool
        ensures { result ≡ is_some (seen self.now).held }
    {
        !self.state.is_empty()
    }

    /// Whether the row is one to be written as changed: it was named, and it is there or was.
    pub(crate) fn is_changed(&self) -> bool
        ensures { result ≡ is_some (told (seen self.now)) }
    {
        if !self.named {
            return false;
        }
        self.there || !self.state.is_empty()
    }

    /// Marks the row as named. One that wasn't is there, and so it was there at the mark.
    fn name(&mut self)
        ensures node { self.new.node ≡ self.old.node }
        ensures state { self.new.state ≡ self.old.state }
        ensures named { self.new.named ≡ true }
        ensures there { self.new.there ≡ cond self.old.named self.old.there true }
    {
        if !self.named {
            self.named = true;
            self.there = true;
        }
    }

    /// Forgets what is remembered of the row.
    fn forget(&mut self)
        ensures node { self.new.node ≡ self.old.node }
        ensures state { self.new.state ≡ self.old.state }
        ensures named { self.new.named ≡ false }
        ensures there { self.new.there ≡ false }
    {
        self.named = false;
        self.there = false;
    }

    /// Begins a row that is gone anew, with one value.
    fn renew(&mut self, alloc: Global, func: Func, value: &Value) -> Result<(), Refusal>
        requires takes { IsAdmitted func value.now }
        requires fair { is_fair self.old ≡ true }
        requires gone { (size_in (held_of self.old.state) == 0) ≡ true }
        ensures fair { is_fair self.new ≡ true }
        ensures step { KeptStep func Change.Add value.now self.old self.new result }
    {
        match first_state(alloc, func, value) {
            Ok(state) => {
                self.state = state;
                Ok(())
            }
            Err(_) => Err(Refusal::Memory),
        }
    }

    /// Adds a value to a row that is there, where its state is the function's and has room for it.
    fn add(&mut self, func: Func, value: &Value) -> Result<(), Refusal>
        requires takes { IsAdmitted func value.now }
        requires fair { is_fair self.old ≡ true }
        requires there { (size_in (held_of self.old.state) == 0) ≡ false }
        ensures fair { is_fair self.new ≡ true }
        ensures step { KeptStep func Change.Add value.now self.old self.new result }
    {
        match self.state.add_fit(func, value) {
            Ok(()) => {
                self.name();
                Ok(())
            }
            Err(refusal) => Err(refusal),
        }
    }

    /// Takes the first value of the row away, where its state is the function's. The row may be gone then.
    fn take(&mut self, func: Func, value: &Value) -> Result<(), Refusal>
        requires { is_fair self.old ≡ true }
        ensures marked { is_marked self.new ≡ true }
        ensures fair { OnErr result (is_fair self.new ≡ true) }
        ensures step { KeptStep func Change.Remove value.now self.old self.new result }
    {
        if self.state.func() != kept_as(func) {
            return Err(Refusal::Unfit);
        }
        match self.state.remove(value) {
            Ok(()) => {
                self.name();
                Ok(())
            }
            Err(refusal) => Err(refusal),
        }
    }
}

/// What stands in a place without a row: an empty count, which takes no memory.
impl MadeWith<Global> for Kept {
    fn made_with(alloc: Global) -> Kept {
        Kept {
            node: 0,
            named: false,
            there: false,
            state: AggState::Count(Count::empty(alloc)),
        }
    }
}

/// A key and its rows, each node once, in no order: where one goes, the last one comes to its place.
/// Without rows the key means nothing.
#[derive(Debug, Drop)]
pub(crate) struct KeyRows {
    pub(crate) key: Key,
    pub(crate) kept: Rows,
    ghost sound: { are_sound kept.items ≡ true },
}

impl KeyRows {
    /// No rows.
    pub(crate) fn new(alloc: Global) -> KeyRows
        ensures { length result.kept.items ≡ 0 }
    {
        KeyRows {
            key: Key::from(Vec::new(alloc)),
            kept: Rows::new(alloc),
        }
    }

    /// Gives what is without rows a key with one row, in the room that it has where that is enough. Where
    /// memory runs out it is still without rows.
    pub(crate) fn open(&mut self, key: &Key, node: u32, state: AggState) -> Result<(), Memory>
        requires none { length self.old.kept.items ≡ 0 }
        requires some { 0 < size_in (held_of state) }
        ensures key { OnOk result (self.new.key ≡ key.now) }
        ensures row { OnOk result (IsFirst node (held_of state) self.new.kept.items) }
        ensures err { OnErr result (length self.new.kept.items ≡ 0) }
    {
        self.key.set_to(key)?;
        self.push(node, state)
    }

    /// Whether nothing is kept of any node.
    pub(crate) fn is_empty(&self) -> bool
        ensures { result ≡ (length self.now.kept.items == 0) }
    {
        self.kept.is_empty()
    }

    /// Where the state of a node stands.
    fn place(&self, node: u32) -> Option<usize>
        ensures found { IfSome result (λ place. (place < length self.now.kept.items) × ((other : Kept) → (slice_index_or self.now.kept.items place other).node ≡ node)) }
        ensures none { IsNone result → stands_in self.now.kept.items node ≡ false }
    {
        let rows = self.kept.as_slice();
        for place in 0..rows.len() {
            let kept = &rows[place];
            if kept.node == node {
                return Some(place);
            }
        }
        None
    }

    /// The state of a node, where there is a row.
    pub(crate) fn get(&self, node: u32) -> Option<&AggState>
        ensures { option_map (λ state. held_of state.now) result ≡ (seen_at self.now.kept.items node).held }
    {
        match self.place(node) {
            None => None,
            Some(place) => {
                let kept = &self.kept[place];
                if kept.state.is_empty() {
                    return None;
                }
                Some(&kept.state)
            }
        }
    }

    /// Adds a value to the row of a node, where its state is the function's. One that is gone begins anew.
    pub(crate) fn add(
        &mut self,
        alloc: Global,
        node: u32,
        func: Func,
        value: &Value,
    ) -> Result<(), Refusal>
        requires { IsAdmitted func value.now }
        ensures key { self.new.key ≡ self.old.key }
        ensures count { length self.old.kept.items ≤ length self.new.kept.items }
        ensures step { RowsStep func Change.Add value.now node self.old.kept.items self.new.kept.items result }
    {
        let place = match self.place(node) {
            None => return self.begin(alloc, node, func, value),
            Some(place) => place,
        };
        let kept = &mut self.kept[place];
        if kept.state.is_empty() {
            return kept.renew(alloc, func, value);
        }
        kept.add(func, value)
    }

    /// Begins the row of a node of which nothing is kept, with one value.
    #[inline(always)]
    fn begin(&mut self, alloc: Global, node: u32, func: Func, value: &Value) -> Result<(), Refusal>
        requires takes { IsAdmitted func value.now }
        requires free { stands_in self.old.kept.items node ≡ false }
        ensures key { self.new.key ≡ self.old.key }
        ensures count { length self.old.kept.items ≤ length self.new.kept.items }
        ensures step { RowsStep func Change.Add value.now node self.old.kept.items self.new.kept.items result }
    {
        let state = match first_state(alloc, func, value) {
            Ok(state) => state,
            Err(_) => return Err(Refusal::Memory),
        };
        match self.push(node, state) {
            Ok(()) => Ok(()),
            Err(_) => Err(Refusal::Memory),
        }
    }

    /// Takes the first value of the row of a node away.
    pub(crate) fn take(&mut self, node: u32, func: Func, value: &Value) -> Result<(), Refusal>
        ensures key { self.new.key ≡ self.old.key }
        ensures step { RowsStep func Change.Remove value.now node self.old.kept.items self.new.kept.items result }
    {
        let place = match self.place(node) {
            None => return Err(Refusal::Unfit),
            Some(place) => place,
        };
        let kept = &mut self.kept[place];
        match kept.take(func, value) {
            Err(refusal) => return Err(refusal),
            Ok(()) => {}
        }
        if !kept.is_idle() {
            return Ok(());
        }
        self.kept.swap_remove(place);
        Ok(())
    }

    /// Puts a row where there is none.
    pub(crate) fn insert(&mut self, node: u32, state: AggState) -> Result<(), Memory>
        requires free { (seen_at self.old.kept.items node).held ≡ None }
        requires some { 0 < size_in (held_of state) }
        ensures key { self.new.key ≡ self.old.key }
        ensures count { length self.old.kept.items ≤ length self.new.kept.items }
        ensures got { RowsGet (held_of state) node self.old.kept.items self.new.kept.items result }
    {
        match self.place(node) {
            Some(place) => {
                let kept = &mut self.kept[place];
                kept.state = state;
                return Ok(());
            }
            None => {}
        }
        self.push(node, state)
    }

    /// Puts a row of a node of which nothing is kept.
    #[inline(always)]
    pub(crate) fn push(&mut self, node: u32, state: AggState) -> Result<(), Memory>
        requires free { stands_in self.old.kept.items node ≡ false }
        requires some { 0 < size_in (held_of state) }
        ensures key { self.new.key ≡ self.old.key }
        ensures row { OnOk result (seen_at self.new.kept.items node ≡ fresh (held_of state)) }
        ensures others { OthersKept node self.old.kept.items self.new.kept.items }
        ensures count { OnOk result (length self.new.kept.items ≡ length self.old.kept.items + 1) }
        ensures err { OnErr result (IsKeptSame self.old.kept.items self.new.kept.items) }
    {
        self.kept.reserve_exact(1)?;
        self.kept.push_reserved(Kept {
            node,
            named: true,
            there: false,
            state,
        });
        Ok(())
    }

    /// Forgets what is remembered of each row, and drops those that are gone.
    pub(crate) fn settle(&mut self)
        ensures key { self.new.key ≡ self.old.key }
        ensures rows { (node : ℕ) → seen_at self.new.kept.items node ≡ settled (seen_at self.old.kept.items node) }
    {
        settle_all(&mut self.kept);
    }
}

/// Forgets the marks of all rows of a list, and drops those that are gone.
fn settle_all(kept: &mut Rows)
    requires { are_sound kept.old.items ≡ true }
    ensures sound { are_sound kept.new.items ≡ true }
    ensures rows { (node : ℕ) → seen_at kept.new.items node ≡ settled (seen_at kept.old.items node) }
{
    let mut place = 0;
    while place < kept.len() {
        place = settle_at(kept, place);
    }
}

/// Forgets the marks of the row in a place, or drops it where it is gone. Answers the place of the next one.
fn settle_at(kept: &mut Rows, place: usize) -> usize
    requires sound { are_sound kept.old.items ≡ true }
    requires within { place < length kept.old.items }
    ensures { SettlesAt place result kept.old.items kept.new.items }
{
    let one = &mut kept[place];
    if !one.state.is_empty() {
        one.forget();
        return place + 1;
    }
    kept.swap_remove(place);
    place
}
