ghost use Rattle.std.specs.Prelude.{◌≡◌, ◌⊎◌, ◌<◌, [], ℕ, length, true, false, IfOk, IfErr, OnOk, IfSome, IfNone, Some};
ghost use Rattle.rg_bytes.specs.Counts.{Rose};
ghost use Rattle.rg_checkpoint.specs.Slots.{ReachesSlots, sizes_in, with_sizes};
ghost use Rattle.rg_checkpoint.specs.Writing.{Encodes, EncodesChanges};
ghost use Rattle.rg_recover.specs.Saving.{may_extend, slot_for, Turning, Turned, Framed, sizes_then, IsKnown, IsChosenOver, IsOfSlot, IsOfKept, IsChosen, KeepsRows, KeepsMarks, IsMarked, IsWant, IsToPut, WritesSlot, HasWritten};

use crate::fault::TaskFault;
use rg_checkpoint::{SlotSizes, Slots, encode_changes, encode_checkpoint};
use rg_engine::Engine;
use rg_event::Texts;
use rg_host::Host;
use rg_state::{Table, TableFault};
use std::alloc::Global;

/// How many change payloads a slot may have.
const MAX_CHANGES: u64 = 64;

/// What a save writes.
#[derive(Debug, Drop)]
pub(crate) enum Payload {
    /// A base payload, into the slot other than the kept one.
    Base(Vec<u8>),
    /// A change payload, behind the frames of the kept slot, which has this number.
    Changes(u32, Vec<u8>),
}

/// Whether a change payload of so many bytes may come behind frames of these sizes.
#[tactic(auto, using(crate::proofs::Choosing::too_many, crate::proofs::Choosing::too_long, crate::proofs::Choosing::just_long))]
fn may_come(sizes: SlotSizes, change: u64) -> bool
    ensures { result ≡ may_extend sizes change }
{
    if sizes.frames >= MAX_CHANGES {
        return false;
    }
    if sizes.changes > sizes.base {
        return false;
    }
    change <= sizes.base - sizes.changes
}

/// The kept slot and the sizes of what stands in it.
fn kept_of(slots: &Slots, keep: Option<u32>) -> Option<(u32, SlotSizes)>
    ensures { IsKnown slots.now keep result }
{
    match keep {
        None => None,
        Some(slot) => match slots.sizes(slot) {
            Some(sizes) => Some((slot, sizes)),
            None => None,
        },
    }
}

/// What a fault of a table that writes its rows is to a session: no state is judged.
fn want_of(fault: TableFault) -> TaskFault
    requires { (n : ℕ) → fault ≡ TableFault.BadState n → ⊥ }
    ensures { (fault ≡ TableFault.Disk) × (result ≡ TaskFault.Table) ⊎ (result ≡ TaskFault.Memory) }
{
    match fault {
        TableFault::BadState(_) => unreachable!(),
        TableFault::Memory => TaskFault::Memory,
        TableFault::Disk => TaskFault::Table,
    }
}

/// The base payload of an engine after that many events.
fn encode_base<T: Table>(
    alloc: Global,
    texts: &Texts,
    count: u64,
    engine: &mut Engine<T>,
) -> Result<Vec<u8>, TaskFault>
    ensures encodes { T.tells engine.old.table → IfOk result (λ payload. Encodes (T.cell engine.old.table) texts.now count engine.old.spots [] payload.items) }
    ensures engine { KeepsMarks T.tells T.faults T.cell T.named T.there engine.old engine.new }
    ensures fault { IfErr result (IsWant T.faults engine.old.table engine.new.table) }
{
    let spots = match engine.spots().to_vec(alloc) {
        Ok(spots) => spots,
        Err(_) => return Err(TaskFault::Memory),
    };
    let mut payload = Vec::new(alloc);
    match encode_checkpoint(texts, count, &spots, engine.table(), &mut payload) {
        Ok(()) => Ok(payload),
        Err(fault) => Err(want_of(fault)),
    }
}

/// The payload of what changed in the table of an engine since its mark, after that many events.
fn encode_since<T: Table>(
    alloc: Global,
    count: u64,
    engine: &mut Engine<T>,
) -> Result<Vec<u8>, TaskFault>
    ensures encodes { T.tells engine.old.table → IfOk result (λ payload. EncodesChanges (T.named engine.old.table) (T.there engine.old.table) (T.cell engine.old.table) count engine.old.spots [] payload.items) }
    ensures engine { KeepsMarks T.tells T.faults T.cell T.named T.there engine.old engine.new }
    ensures fault { IfErr result (IsWant T.faults engine.old.table engine.new.table) }
{
    let spots = match engine.spots().to_vec(alloc) {
        Ok(spots) => spots,
        Err(_) => return Err(TaskFault::Memory),
    };
    let mut payload = Vec::new(alloc);
    match encode_changes(count, &spots, engine.table(), &mut payload) {
        Ok(()) => Ok(payload),
        Err(fault) => Err(want_of(fault)),
    }
}

/// What a save writes where a slot of these sizes is kept: what changed, where that may come behind its
/// frames, and all rows else.
fn choose_over<T: Table>(
    alloc: Global,
    texts: &Texts,
    count: u64,
    engine: &mut Engine<T>,
    slot: u32,
    sizes: SlotSizes,
) -> Result<Payload, TaskFault>
    ensures chosen { T.tells engine.old.table → IfOk result (IsChosenOver (T.named engine.old.table) (T.there engine.old.table) (T.cell engine.old.table) texts.now count engine.old.spots sizes) }
    ensures slot { IfOk result (IsOfSlot slot sizes) }
    ensures engine { KeepsMarks T.tells T.faults T.cell T.named T.there engine.old engine.new }
    ensures fault { IfErr result (IsWant T.faults engine.old.table engine.new.table) }
{
    let changes = match encode_since(alloc, count, engine) {
        Ok(changes) => changes,
        Err(fault) => return Err(fault),
    };
    if may_come(sizes, changes.len() as u64) {
        return Ok(Payload::Changes(slot, changes));
    }
    drop(changes);
    match encode_base(alloc, texts, count, engine) {
        Ok(base) => Ok(Payload::Base(base)),
        Err(fault) => Err(fault),
    }
}

/// What a save writes, by the rule.
pub(crate) fn choose_payload<T: Table>(
    alloc: Global,
    texts: &Texts,
    count: u64,
    engine: &mut Engine<T>,
    slots: &Slots,
    keep: Option<u32>,
) -> Result<Payload, TaskFault>
    ensures chosen { T.tells engine.old.table → IfOk result (IsChosen (T.named engine.old.table) (T.there engine.old.table) (T.cell engine.old.table) texts.now count engine.old.spots slots.now keep) }
    ensures kept { IfOk result (IsOfKept keep slots.now) }
    ensures engine { KeepsMarks T.tells T.faults T.cell T.named T.there engine.old engine.new }
    ensures fault { IfErr result (IsWant T.faults engine.old.table engine.new.table) }
{
    match kept_of(slots, keep) {
        Some((slot, sizes)) => choose_over(alloc, texts, count, engine, slot, sizes),
        None => match encode_base(alloc, texts, count, engine) {
            Ok(base) => Ok(Payload::Base(base)),
            Err(fault) => Err(fault),
        },
    }
}

/// Writes a payload: a base into the slot other than `keep`, slot 0 for none, and changes behind the frames
/// of the kept one. Answers the number of the slot.
pub(crate) fn put_payload<H: Host>(
    slots: &mut Slots,
    host: &mut H,
    keep: Option<u32>,
    payload: &Payload,
) -> Result<u32, TaskFault>
    requires ready { IsToPut (H.now host.old) keep slots.old payload.now }
    ensures writes { WritesSlot H.now H.may H.clock H.since H.said H.disk_faults H.out_faults (slot_for keep payload.now) (Turning slots.old payload.now) host.old host.new }
    ensures written { OnOk result (HasWritten H.now H.may (slot_for keep payload.now) (Turned slots.old payload.now) (Framed slots.old payload.now) host.old host.new) }
    ensures slot { IfOk result (λ slot. (slot ≡ slot_for keep payload.now) × (slots.new ≡ with_sizes slot (sizes_then slots.old payload.now) (record slots.old { fresh = false }))) }
    ensures reaches { ReachesSlots slots.new (H.now host.new) }
    ensures fault { IfErr result (λ fault. (fault ≡ TaskFault.Disk) × Rose (H.disk_faults host.old) (H.disk_faults host.new)) }
{
    match payload {
        Payload::Base(bytes) => match slots.save(host, keep, bytes) {
            Ok(slot) => Ok(slot),
            Err(_) => Err(TaskFault::Disk),
        },
        Payload::Changes(slot, bytes) => match slots.extend(host, *slot, bytes) {
            Ok(()) => Ok(*slot),
            Err(_) => Err(TaskFault::Disk),
        },
    }
}

/// Marks the table of an engine: what changes from here on is told since its rows as they are.
pub(crate) fn mark<T: Table>(engine: &mut Engine<T>)
    ensures engine { KeepsRows T.tells T.faults T.cell engine.old engine.new }
    ensures marked { IsMarked T.tells T.named T.there engine.old.table engine.new.table }
{
    engine.table().mark();
}
