ghost use Rattle.std.specs.Prelude.{◌<◌, IfOk};
ghost use Rattle.rg_agg.specs.Standing.{size_in};
ghost use Rattle.rg_state.specs.States.{held_of};

use crate::common::{Checks, Item, Subject, value_of};
use rg_agg::StateFault;
use rg_bytes::ByteReader;
use rg_event::{Kind, Value};
use rg_metric::is_admitted;
use rg_state::{AggState, Answer, Change, Func, Key, MemTable, Table, TableFault};
use std::alloc::Global;

/// A table, and one beside it.
#[derive(Drop)]
pub(crate) struct Tried {
    table: MemTable,
    other: MemTable,
}

/// What is done to a table, or what it says.
#[derive(Clone, Copy)]
pub(crate) enum Step {
    /// A table of no rows takes the place of the one before.
    Empty,
    /// A table takes its place that has the one row of this node, this key and the state that these bytes say, and one
    /// beside it that has a copy of the state. The state and its copy are written as these bytes.
    Begin(u32, &'static [u8], &'static [u8]),
    /// The same at node 0 of the key of no bytes. Then the table's row of this function answers the last once a 5 is
    /// taken from it, and the row of the copy, behind that, the one before.
    Copies(Func, &'static [u8], Answer, Answer),
    /// A value is added to the row of this node, this key and this function, or its first one taken away.
    Change(Change, u32, &'static [u8], Func, &'static Item),
    /// That is refused for the row's state.
    Refuse(Change, u32, &'static [u8], Func, &'static Item),
    /// What a row answers.
    Answers(u32, &'static [u8], Func, Answer),
    /// An answer that is refused for the row's state.
    RefuseAnswer(u32, &'static [u8], Func),
    /// So many cards, from `c00` on, each count an event at node 0.
    Cards(u8),
    /// It is marked.
    Mark,
    /// What it writes.
    Writes(Written, &'static [u8]),
    /// Whether the state that these bytes say fits a function of values of a kind.
    Fits(&'static [u8], Func, Kind, bool),
    /// There is no state that these bytes say, by this fault.
    Fails(StateFault, &'static [u8]),
}

/// What a table writes behind an x.
#[derive(Clone, Copy)]
pub(crate) enum Written {
    Rows,
    /// How many rows it writes, in eight bytes.
    Count,
    /// What changed since the mark.
    Changes,
}

/// The number of no rows, in eight bytes.
pub(crate) const NO_ROWS: &[u8] = b"\0\0\0\0\0\0\0\0";

/// Whether a change of a row ends so, where its function takes the value.
fn changes(
    table: &mut MemTable,
    node: u32,
    key: &Key,
    func: Func,
    change: Change,
    value: &Value,
    want: Result<(), TableFault>,
    checks: &mut Checks,
) -> bool {
    if !is_admitted(func, value) {
        return checks.fails("value", value, func);
    }
    checks.same("change", table.change(node, key, func, change, value), want)
}

/// The same of a value that is made for it.
fn changes_by(
    alloc: Global,
    table: &mut MemTable,
    node: u32,
    key: &Key,
    func: Func,
    change: Change,
    item: &Item,
    want: Result<(), TableFault>,
    checks: &mut Checks,
) -> bool {
    match value_of(alloc, item) {
        Some(value) => {
            let is_so = changes(table, node, key, func, change, &value, want, checks);
            drop(value);
            is_so
        }
        None => false,
    }
}

/// The same of the row of a key of these bytes.
fn row_changes(
    alloc: Global,
    table: &mut MemTable,
    node: u32,
    key: &[u8],
    func: Func,
    change: Change,
    item: &Item,
    want: Result<(), TableFault>,
    checks: &mut Checks,
) -> bool {
    match key.to_vec(alloc) {
        Ok(bytes) => {
            let key = Key::from(bytes);
            let is_so = changes_by(alloc, table, node, &key, func, change, item, want, checks);
            drop(key);
            is_so
        }
        Err(_) => false,
    }
}

/// Whether a row answers so.
fn answers(
    alloc: Global,
    table: &mut MemTable,
    node: u32,
    key: &[u8],
    func: Func,
    want: Result<Answer, TableFault>,
    checks: &mut Checks,
) -> bool {
    match key.to_vec(alloc) {
        Ok(bytes) => {
            let key = Key::from(bytes);
            let answer = table.answer(node, &key, func);
            drop(key);
            checks.same("answer", answer, want)
        }
        Err(_) => false,
    }
}

/// Whether so many cards of two digits each count an event.
fn adds_cards(alloc: Global, table: &mut MemTable, count: u8, checks: &mut Checks) -> bool {
    for number in 0..count {
        let tens = (number / 10).wrapping_add(48);
        let ones = (number % 10).wrapping_add(48);
        let key = [3, 3, 99, tens, ones];
        let flag = Item::Flag(true);
        if !row_changes(
            alloc,
            table,
            0,
            &key,
            Func::Count,
            Change::Add,
            &flag,
            Ok(()),
            checks,
        ) {
            return false;
        }
    }
    true
}

/// Whether that stands behind an x.
fn stands(out: &[u8], what: Written, want: &[u8], checks: &mut Checks) -> bool {
    let (before, behind) = out.split_at(1.min(out.len()));
    let written = match what {
        Written::Count => behind.get(..8).unwrap_or(b""),
        _ => behind,
    };
    checks.same_bytes("bytes before", before, b"x") && checks.same_bytes("written", written, want)
}

/// Writes that.
fn write(table: &mut MemTable, what: Written, out: &mut Vec<u8>) -> bool {
    match what {
        Written::Changes => table.write_changes(out).is_ok(),
        _ => table.write_rows(out).is_ok(),
    }
}

/// Whether a table writes that behind an x.
pub(crate) fn writes(
    alloc: Global,
    table: &mut MemTable,
    what: Written,
    want: &[u8],
    checks: &mut Checks,
) -> bool {
    let mut out = Vec::new(alloc);
    let is_so = out.push(b'x').is_ok()
        && write(table, what, &mut out)
        && stands(&out, what, want, checks);
    drop(out);
    is_so
}

/// Whether a state is written as these bytes.
fn is_written(alloc: Global, state: &AggState, want: &[u8], checks: &mut Checks) -> bool
    requires { 0 < size_in (held_of state.now) }
{
    let mut out = Vec::new(alloc);
    let is_so = state.encode(&mut out).is_ok() && checks.same_bytes("state", &out, want);
    drop(out);
    is_so
}

/// Puts a table of one row in the place of another one.
fn renew(alloc: Global, table: &mut MemTable, node: u32, key: &[u8], state: AggState) -> bool
    requires { 0 < size_in (held_of state) }
{
    *table = MemTable::new(alloc);
    match key.to_vec(alloc) {
        Ok(bytes) => table.insert(node, Key::from(bytes), state).is_ok(),
        Err(_) => {
            drop(state);
            false
        }
    }
}

/// The state that these bytes begin with.
fn state_of(alloc: Global, bytes: &[u8]) -> Result<AggState, StateFault>
    ensures { IfOk result (λ state. 0 < size_in (held_of state)) }
{
    AggState::decode(alloc, &mut ByteReader::new(bytes))
}

/// Puts a table of the row of a copy of the state in the place of another one. False where the copy isn't written as
/// these bytes.
fn begins_by_copy(
    alloc: Global,
    table: &mut MemTable,
    node: u32,
    key: &[u8],
    bytes: &[u8],
    state: &AggState,
    checks: &mut Checks,
) -> bool
    requires { 0 < size_in (held_of state.now) }
{
    match state.copy(alloc) {
        Ok(copy) => {
            let is_so = is_written(alloc, &copy, bytes, checks);
            renew(alloc, table, node, key, copy) && is_so
        }
        Err(_) => false,
    }
}

/// Puts a table of the row of that state in the place of the one before, and one of its copy beside it. False where one
/// of them is written otherwise.
fn begins(
    alloc: Global,
    tried: &mut Tried,
    node: u32,
    key: &[u8],
    bytes: &[u8],
    checks: &mut Checks,
) -> bool {
    match state_of(alloc, bytes) {
        Ok(state) => {
            let is_so = is_written(alloc, &state, bytes, checks)
                && begins_by_copy(alloc, &mut tried.other, node, key, bytes, &state, checks);
            renew(alloc, &mut tried.table, node, key, state) && is_so
        }
        Err(fault) => checks.fails("fault", fault, "none"),
    }
}

/// Whether the copy of a state stays where a 5 is taken from the state.
fn copies(
    alloc: Global,
    tried: &mut Tried,
    func: Func,
    bytes: &[u8],
    copied: Answer,
    changed: Answer,
    checks: &mut Checks,
) -> bool {
    let five = Item::Int(5);
    begins(alloc, tried, 0, b"", bytes, checks)
        && row_changes(
            alloc,
            &mut tried.table,
            0,
            b"",
            func,
            Change::Remove,
            &five,
            Ok(()),
            checks,
        )
        && answers(alloc, &mut tried.table, 0, b"", func, Ok(changed), checks)
        && answers(alloc, &mut tried.other, 0, b"", func, Ok(copied), checks)
}

fn fits(alloc: Global, bytes: &[u8], func: Func, kind: Kind) -> Option<bool> {
    let state = state_of(alloc, bytes).ok()?;
    let fits = state.fits(func, Some(kind));
    drop(state);
    Some(fits)
}

/// Whether the table is replaced or marked, or a state that bytes say is so.
fn takes_step(alloc: Global, tried: &mut Tried, step: &Step, checks: &mut Checks) -> bool {
    match step {
        Step::Begin(node, key, bytes) => begins(alloc, tried, *node, key, bytes, checks),
        Step::Copies(func, bytes, copied, changed) => {
            copies(alloc, tried, *func, bytes, *copied, *changed, checks)
        }
        Step::Cards(count) => adds_cards(alloc, &mut tried.table, *count, checks),
        Step::Empty => {
            tried.table = MemTable::new(alloc);
            true
        }
        Step::Mark => {
            tried.table.mark();
            true
        }
        Step::Fits(bytes, func, kind, want) => {
            checks.same("fits", fits(alloc, bytes, *func, *kind), Some(*want))
        }
        Step::Fails(fault, bytes) => {
            checks.same("fault", state_of(alloc, bytes).err(), Some(*fault))
        }
        _ => false,
    }
}

impl Subject for Tried {
    type Step = Step;

    fn start(alloc: Global) -> Option<Tried> {
        Some(Tried {
            table: MemTable::new(alloc),
            other: MemTable::new(alloc),
        })
    }

    fn goes(&mut self, alloc: Global, step: &Step, checks: &mut Checks) -> bool {
        match step {
            Step::Change(change, node, key, func, item) => {
                row_changes(
                    alloc,
                    &mut self.table,
                    *node,
                    key,
                    *func,
                    *change,
                    item,
                    Ok(()),
                    checks,
                )
            }
            Step::Refuse(change, node, key, func, item) => {
                let bad = Err(TableFault::BadState(*node));
                row_changes(
                    alloc,
                    &mut self.table,
                    *node,
                    key,
                    *func,
                    *change,
                    item,
                    bad,
                    checks,
                )
            }
            Step::Answers(node, key, func, answer) => {
                answers(
                    alloc,
                    &mut self.table,
                    *node,
                    key,
                    *func,
                    Ok(*answer),
                    checks,
                )
            }
            Step::RefuseAnswer(node, key, func) => {
                let bad = Err(TableFault::BadState(*node));
                answers(alloc, &mut self.table, *node, key, *func, bad, checks)
            }
            Step::Writes(what, bytes) => writes(alloc, &mut self.table, *what, bytes, checks),
            _ => takes_step(alloc, self, step, checks),
        }
    }
}
