ghost use Rattle.std.specs.Prelude.{◌≡◌, ◌≢◌, ◌↔◌, ◌≤◌, ◌<◌, ◌+◌, ℕ, length, is_some, IfOk, IsErrOf, OnOk, OnErr, Option, Some, None, Err, true, false, Decides, ⊤};
ghost use Rattle.std.specs.Option.{ForSome, option_copied};
ghost use Rattle.rg_bytes.specs.Counts.{Rose};
ghost use Rattle.rg_frame.specs.Calls.{Writes};
ghost use Rattle.rg_frame.specs.Steps.{Grown};
ghost use Rattle.rg_host.specs.Image.{Becomes, InFile, NothingPending};
ghost use Rattle.rg_host.specs.Moments.{LeavesAll, Moments};
ghost use Rattle.rg_checkpoint.specs.Ends.{IsEnd, IsTaken, sizes_at, checkpoint_at, end_at};
ghost use Rattle.rg_checkpoint.specs.Newest.{IsNewestOf, CountsAs, picked};
ghost use Rattle.rg_checkpoint.specs.Sizes.{OfSizes, longer, sizes_of, more_sizes, end_of};
ghost use Rattle.rg_checkpoint.specs.Slots.{slot_in, sizes_in, with_sizes, IsSlot, AreSizes, ReachesSlots, IsOnly, Turns, Written, Lengthens, Lengthened, IsKeep, other_of};

use crate::base::Checkpoint;
use crate::fault::SlotFault;
use crate::sizes::SlotSizes;
use crate::slot::{Read, SlotEnd, read_slot, rewrite};
use rg_event::Texts;
use rg_host::Host;
use std::alloc::Global;
use std::marker::Model;

/// The two slots of a store, files 0 and 1, each of which holds one checkpoint or none: a base
/// payload, and the change payloads behind it.
///
/// They are fresh until something is saved, added or taken, and ended once a `save` or an `extend`
/// failed.
#[derive(Drop)]
pub struct Slots {
    first: Option<Checkpoint>,
    second: Option<Checkpoint>,
    first_end: Option<SlotEnd>,
    second_end: Option<SlotEnd>,
    fresh: bool,
    ended: bool,
}

impl Model for Slots {
    ghost use Rattle.std.specs.Prelude.{◌≡◌};
    ghost use Rattle.rg_checkpoint.specs.Ends.{IsEndOf, sizes_at};
    ghost use Rattle.rg_checkpoint.specs.Slots.{Attached};

    ghost Value = { Attached };

    ghost view = { λ s. record { first = s.first; second = s.second; first_sizes = sizes_at s.first_end; second_sizes = sizes_at s.second_end; fresh = s.fresh; ended = s.ended } };

    ghost invariant = { λ s. IsEndOf 0 s.ended s.first_end × IsEndOf 1 s.ended s.second_end };
}

impl Slots {
    /// Reads both slots. It writes nothing. A slot that isn't complete is no fault.
    pub fn attach<H: Host>(alloc: Global, host: &mut H) -> Result<Slots, SlotFault>
        // A slot is complete exactly where its frames are a base payload and changes that apply in order.
        ensures first { IfOk result (λ slots. ForSome (H.now host.old) (λ v. IsSlot (v 0) slots.first)) }
        ensures second { IfOk result (λ slots. ForSome (H.now host.old) (λ v. IsSlot (v 1) slots.second)) }
        ensures first_sizes { IfOk result (λ slots. ForSome (H.now host.old) (λ v. AreSizes (v 0) slots.first_sizes)) }
        ensures second_sizes { IfOk result (λ slots. ForSome (H.now host.old) (λ v. AreSizes (v 1) slots.second_sizes)) }
        ensures fresh { IfOk result (λ slots. (slots.fresh ≡ true) × (slots.ended ≡ false)) }
        ensures reaches { IfOk result (λ slots. ReachesSlots slots (H.now host.new)) }

        // Disk comes only where the host's count of failed calls rose.
        ensures disk { IsErrOf result SlotFault.Disk → Rose (H.disk_faults host.old) (H.disk_faults host.new) }
        ensures no_ended { IsErrOf result SlotFault.Ended → ⊥ }
        ensures leaves { LeavesAll H.now H.may H.clock H.since H.said host.old host.new }
        ensures disk_faults { H.disk_faults host.old ≤ H.disk_faults host.new }
        ensures out_faults { H.out_faults host.new ≡ H.out_faults host.old }
        ensures reads { H.reads host.old ≤ H.reads host.new }
    {
        let (first, first_end) = match read_slot(alloc, host, 0) {
            Ok(read) => parts(read),
            Err(fault) => return Err(fault),
        };
        let (second, second_end) = match read_slot(alloc, host, 1) {
            Ok(read) => parts(read),
            Err(fault) => return Err(fault),
        };
        Ok(Slots {
            first,
            second,
            first_end,
            second_end,
            fresh: true,
            ended: false,
        })
    }

    /// The checkpoint of slot `i`, where that is complete.
    pub fn slot(&self, i: u32) -> Option<&Checkpoint>
        requires fresh { self.now.fresh ≡ true }
        // The slot's checkpoint, and none exactly where it isn't complete.
        ensures slot { option_copied result ≡ slot_in self.now i }
    {
        match i {
            0 => self.first.as_ref(),
            1 => self.second.as_ref(),
            _ => None,
        }
    }

    /// The sizes of what stands in slot `i` now; none exactly where that isn't complete.
    pub fn sizes(&self, i: u32) -> Option<SlotSizes>
        ensures sizes { result ≡ sizes_in self.now i }
    {
        match i {
            0 => sizes_of_end(&self.first_end),
            1 => sizes_of_end(&self.second_end),
            _ => None,
        }
    }

    /// The slot of the greatest count of at most `below` events with exactly these query texts; slot
    /// 0 where both have that count.
    pub fn newest(&self, queries: &Texts, below: u64) -> Option<u32>
        requires fresh { self.now.fresh ≡ true }
        // The complete slot of exactly these queries, of at most so many payments, and of the most of them.
        ensures newest { IsNewestOf queries.now below (slot_in self.now) result }
    {
        let first = count_of(&self.first, queries, below);
        let second = count_of(&self.second, queries, below);
        pick(first, second)
    }

    /// Hands out the checkpoint of slot `i`, where that is complete, so that its rows may move, and
    /// drops the other one from memory. The files stay. It takes no memory.
    pub fn take(&mut self, i: u32) -> Option<Checkpoint>
        requires fresh { self.old.fresh ≡ true }
        ensures slot { result ≡ slot_in self.old i }
        ensures after { self.new ≡ record self.old { first = None; second = None; fresh = false } }
    {
        self.fresh = false;
        let first = self.first.take();
        let second = self.second.take();
        match i {
            0 => first,
            1 => second,
            _ => None,
        }
    }

    /// Hands out the checkpoints of slots 0 and 1, where they are complete, so that their rows may
    /// move. The files stay. It takes no memory.
    pub fn take_both(&mut self) -> (Option<Checkpoint>, Option<Checkpoint>)
        requires fresh { self.old.fresh ≡ true }
        ensures slots { (result.0 ≡ self.old.first) × (result.1 ≡ self.old.second) }
        ensures after { self.new ≡ record self.old { first = None; second = None; fresh = false } }
    {
        self.fresh = false;
        let first = self.first.take();
        let second = self.second.take();
        (first, second)
    }

    /// Writes a base payload into the slot other than `keep`, slot 0 for none, and gives its number.
    /// Whatever call fails, and wherever the run stops, the kept slot is as it was, and the other one
    /// holds its old checkpoint, none or the new one. After a fault the slots have ended. It takes no
    /// memory.
    pub fn save<H: Host>(
        &mut self,
        host: &mut H,
        keep: Option<u32>,
        payload: &[u8],
    ) -> Result<u32, SlotFault>
        requires keep { IsKeep keep }
        ensures number { IfOk result (λ i. i ≡ other_of keep) }

        // After Ok the other slot has the payload alone, and nothing of it is pending.
        ensures written { OnOk result (Becomes (H.now host.old) (H.now host.new) (InFile (other_of keep) (Written payload.now))) }
        ensures only { OnOk result (Becomes (H.now host.old) (H.now host.new) (InFile (other_of keep) (λ _ bytes. IsOnly payload.now bytes))) }
        ensures pending { OnOk result (NothingPending (other_of keep) (H.now host.new) (H.may host.new)) }
        ensures others_pending { (f : ℕ) → f ≢ other_of keep → NothingPending f (H.now host.old) (H.may host.old) → NothingPending f (H.now host.new) (H.may host.new) }

        // The other files stay.
        ensures others { Becomes (H.now host.old) (H.now host.new) (InFile (other_of keep) (λ _ _. ⊤)) }

        // In each image since the start the written slot is as it was, not complete, or the new one, and the other files
        // are, together, as they could be left at the start. The kept slot, where nothing of it was pending, is as it was.
        ensures leaves { Writes H.now H.may H.clock H.since H.said (other_of keep) (Turns payload.now) host.old host.new }

        // At each moment the kept slot is as it was.
        ensures kept { (i : ℕ) → keep ≡ Some i → NothingPending i (H.now host.old) (H.may host.old) →
            Moments H.clock H.since host.old host.new (λ m. ForSome (H.now host.old) (λ w. m.image i ≡ w i)) }

        // A call that failed on the disk ends the slots, and each later one answers Ended and touches nothing.
        ensures ended { (result ≡ Err SlotFault.Ended) ↔ (self.old.ended ≡ true) }
        ensures untouched { self.old.ended ≡ true → host.new ≡ host.old }
        ensures disk { self.old.ended ≡ false → OnErr result ((result ≡ Err SlotFault.Disk) × Rose (H.disk_faults host.old) (H.disk_faults host.new)) }
        ensures ok { OnOk result (self.new ≡ with_sizes (other_of keep) (Some (sizes_of (length payload.now))) (record self.old { fresh = false })) }
        ensures err { OnErr result (self.new ≡ record self.old { fresh = false; ended = true }) }
        ensures reaches { ReachesSlots self.old (H.now host.old) → ReachesSlots self.new (H.now host.new) }
        ensures disk_faults { H.disk_faults host.old ≤ H.disk_faults host.new }
        ensures out_faults { H.out_faults host.new ≡ H.out_faults host.old }
        ensures reads { H.reads host.old ≤ H.reads host.new }
    {
        self.fresh = false;
        if self.ended {
            return Err(SlotFault::Ended);
        }
        let file = other(keep);
        match rewrite(host, file, payload) {
            Ok(end) => {
                self.put_end(file, end);
                Ok(file)
            }
            Err(_) => Err(self.fail()),
        }
    }

    /// Adds a change payload behind the frames of slot `i`, which is complete. Whatever call fails, and
    /// wherever the run stops, the slot has its old checkpoint or the one with the changes, where the
    /// payload applies to the old one; the other slot and the log are as they were. After a fault the
    /// slots have ended. It takes no memory.
    pub fn extend<H: Host>(&mut self, host: &mut H, i: u32, payload: &[u8]) -> Result<(), SlotFault>
        requires complete { is_some (sizes_in self.old i) ≡ true }
        requires reaches { ReachesSlots self.old (H.now host.old) }

        // Where the file is of the sizes that are known of it.
        ensures written { OnOk result (Becomes (H.now host.old) (H.now host.new) (InFile i (OfSizes (sizes_in self.old i) (Lengthened payload.now)))) }

        // After Ok the payload stands behind the slot's frames, and nothing of the slot is pending.
        ensures grown { OnOk result (Becomes (H.now host.old) (H.now host.new) (InFile i (OfSizes (sizes_in self.old i) (Grown payload.now)))) }
        ensures pending { OnOk result (NothingPending i (H.now host.new) (H.may host.new)) }
        ensures others_pending { (f : ℕ) → f ≢ i → NothingPending f (H.now host.old) (H.may host.old) → NothingPending f (H.now host.new) (H.may host.new) }

        // The other files stay.
        ensures others { Becomes (H.now host.old) (H.now host.new) (InFile i (λ _ _. ⊤)) }

        // In each image since the start the slot has its old checkpoint or the new one, and the other files are, together,
        // as they could be left at the start. One of them of which nothing was pending is as it was.
        ensures leaves { Writes H.now H.may H.clock H.since H.said i (OfSizes (sizes_in self.old i) (Lengthens payload.now)) host.old host.new }
        ensures stay { (f : ℕ) → f ≢ i → NothingPending f (H.now host.old) (H.may host.old) →
            Moments H.clock H.since host.old host.new (λ m. ForSome (H.now host.old) (λ w. m.image f ≡ w f)) }

        // A call that failed on the disk ends the slots, and each later one answers Ended and touches nothing.
        ensures ended { (result ≡ Err SlotFault.Ended) ↔ (self.old.ended ≡ true) }
        ensures untouched { self.old.ended ≡ true → host.new ≡ host.old }
        ensures disk { self.old.ended ≡ false → OnErr result ((result ≡ Err SlotFault.Disk) × Rose (H.disk_faults host.old) (H.disk_faults host.new)) }
        ensures ok { OnOk result (self.new ≡ with_sizes i (longer (sizes_in self.old i) (length payload.now)) (record self.old { fresh = false })) }
        ensures err { OnErr result (self.new ≡ record self.old { fresh = false; ended = true }) }
        ensures reaches { ReachesSlots self.new (H.now host.new) }
        ensures disk_faults { H.disk_faults host.old ≤ H.disk_faults host.new }
        ensures out_faults { H.out_faults host.new ≡ H.out_faults host.old }
        ensures reads { H.reads host.new ≡ H.reads host.old }
    {
        self.fresh = false;
        if self.ended {
            return Err(SlotFault::Ended);
        }
        let mut end = match self.take_end(i) {
            Some(end) => end,
            None => unreachable!(),
        };
        match end.log.append(host, payload) {
            Ok(_) => {
                end.count(payload.len() as u64);
                self.put_end(i, end);
                Ok(())
            }
            Err(_) => {
                let fault = self.fail();
                self.put_end(i, end);
                Err(fault)
            }
        }
    }

    /// Ends the slots after a failed `save` or `extend`.
    fn fail(&mut self) -> SlotFault
        ensures { (self.new ≡ record self.old { ended = true }) × (result ≡ SlotFault.Disk) }
    {
        self.ended = true;
        SlotFault::Disk
    }

    /// Takes the log of a slot.
    fn take_end(&mut self, i: u32) -> Option<SlotEnd>
        ensures { IsTaken i self.old self.new result }
    {
        match i {
            0 => self.first_end.take(),
            1 => self.second_end.take(),
            _ => None,
        }
    }

    /// Puts the log of a slot.
    fn put_end(&mut self, i: u32, end: SlotEnd)
        requires { (i < 2) × IsEnd i self.old.ended end }
        ensures { self.new ≡ with_sizes i (Some end.sizes) self.old }
    {
        if i == 0 {
            self.first_end = Some(end);
        } else {
            self.second_end = Some(end);
        }
    }
}

impl SlotEnd {
    /// Counts a change payload of so many bytes, behind which the log has come. No log comes further
    /// than 2^62, so the sums hold.
    fn count(&mut self, change: u64)
        requires { self.old.log.end ≡ end_of self.old.sizes + 9 + change }
        ensures { self.new ≡ record self.old { sizes = more_sizes self.old.sizes change } }
    {
        let _within = self.log.end();
        self.sizes = self.sizes.with_change(change);
    }
}

/// The checkpoint of what was read of a slot, and where its frames end.
fn parts(read: Option<Read>) -> (Option<Checkpoint>, Option<SlotEnd>)
    ensures { (result.0 ≡ checkpoint_at read) × (result.1 ≡ end_at read) }
{
    match read {
        Some(Read { checkpoint, end }) => (Some(checkpoint), Some(end)),
        None => (None, None),
    }
}

/// The sizes of a slot's frames.
fn sizes_of_end(end: &Option<SlotEnd>) -> Option<SlotSizes>
    ensures { result ≡ sizes_at end.now }
{
    match end {
        Some(end) => Some(end.sizes),
        None => None,
    }
}

/// The slot that is written where that one is kept.
fn other(keep: Option<u32>) -> u32
    ensures number { result ≡ other_of keep }
    ensures few { result < 2 }
{
    match keep {
        Some(0) => 1,
        Some(_) => 0,
        None => 0,
    }
}

/// The count of a slot's checkpoint, where that has these queries and a count of at most `below`.
fn count_of(slot: &Option<Checkpoint>, queries: &Texts, below: u64) -> Option<u64>
    ensures { CountsAs queries.now below slot.now result }
{
    match slot {
        Some(checkpoint) => {
            if !same_texts(&checkpoint.queries, queries) {
                return None;
            }
            if checkpoint.count > below {
                return None;
            }
            Some(checkpoint.count)
        }
        None => None,
    }
}

/// Whether two lists of texts are the same.
fn same_texts(first: &Texts, second: &Texts) -> bool
    ensures { Decides result (first.now ≡ second.now) }
{
    first.as_slice() == second.as_slice()
}

/// The slot of the greater count, slot 0 where they are the same.
fn pick(first: Option<u64>, second: Option<u64>) -> Option<u32>
    ensures { result ≡ picked first second }
{
    match first {
        Some(a) => match second {
            Some(b) => { if a < b { Some(1) } else { Some(0) } }
            None => Some(0),
        },
        None => match second {
            Some(_) => Some(1),
            None => None,
        },
    }
}
