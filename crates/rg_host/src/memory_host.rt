ghost use Rattle.std.specs.Prelude.{◌≡◌, ◌⊎◌, ℕ, ◌+◌, ◌^◌, ◌<◌, ◌≤◌, [], length, take, drop, min, Some, IfOk, IsErr, IsTrue, ◌↔◌, OnOk, OnErr};
ghost use Rattle.std.specs.Option.{ForSome};
ghost use Rattle.rg_bytes.specs.Counts.{Rose};
ghost use Rattle.rg_host.specs.CallCounts.{raised};
ghost use Rattle.rg_host.specs.Effects.{may_after, nothing, wrote, failed_write, synced, put, said_after};
ghost use Rattle.rg_host.specs.Files.{image_of};
ghost use Rattle.rg_host.specs.Image.{Image as Files, Becomes, InFile, Holds, Torn, IsAfter, Follows, NothingPending};
ghost use Rattle.rg_host.specs.MemHost.{now_in, may_in, clock_in, since_in, said_in, IsListed, HasFailed, noted, unnoted, with_read, with_disk_fault, with_out_fault, begun};
ghost use Rattle.rg_host.specs.Picks.{left_after, first_effects};
ghost use Rattle.rg_host.specs.Moments.{Moments, LeavesFiles, LeavesAll};
ghost use Rattle.rg_host.specs.Puts.{Puts, put_of};

use crate::call_trace::CallTrace;
use crate::count::raise;
use crate::file_list::{MAX_FILE_BYTES, read_from};
use crate::host::Host;
use crate::image::Image;
use crate::pick::Pick;
use crate::source::Failed;
use rg_bytes::Memory;
use std::alloc::Global;
use std::marker::Model;

/// Files and an output in memory, some calls on which fail. It tells everything.
#[derive(Drop)]
pub struct MemHost {
    alloc: Global,
    trace: CallTrace,
    fail: Vec<u64>,
    next: u64,
    disk_faults: u64,
    out_faults: u64,
    reads: u64,
    starved: u64,
}

impl Model for MemHost {
    ghost use Rattle.rg_host.specs.MemHost.{Ledger};

    ghost Value = { Ledger };

    ghost view = { λ host. record {
      first = host.trace.first;
      effects = host.trace.effects;
      fail = host.fail.items;
      next = host.next;
      disk_faults = host.disk_faults;
      out_faults = host.out_faults;
      reads = host.reads;
      starved = host.starved;
    } };
}

/// Whether so many bytes from a place on end past 2^62.
fn ends_past(at: u64, size: usize) -> bool
    ensures { IsTrue result ↔ (2 ^ 62 < at + size) }
{
    let most = MAX_FILE_BYTES as u64;
    let size = size as u64;
    size > most || at > most - size
}

impl MemHost {
    /// A host with these files, of which nothing is pending, and with an empty output. Its calls of
    /// these numbers fail, counted from 0 over all five kinds. A file longer than 2^62 bytes finds
    /// no memory.
    pub fn new(alloc: Global, image: Image, fail: Vec<u64>) -> Result<MemHost, Memory>
        ensures begun { IfOk result (λ host. host ≡ begun image fail.items) }
        ensures settled { IfOk result (λ host. (file : ℕ) → NothingPending file (now_in host) (may_in host)) }
    {
        let trace = CallTrace::new(alloc, image)?;
        Ok(MemHost {
            alloc,
            trace,
            fail,
            next: 0,
            disk_faults: 0,
            out_faults: 0,
            reads: 0,
            starved: 0,
        })
    }

    /// A host with files that a crash after so many calls might have left, of which nothing is
    /// pending. Its output is empty, no call was made on it, and none is to fail.
    pub fn stop_image(&self, call: u64, pick: Pick) -> Result<MemHost, Memory>
        requires { call ≤ ⟦<MemHost as Host>⟧.clock self.now }
        // The image is one that a crash may leave after so many calls.
        ensures image { IfOk result (λ host. now_in host
            ≡ Some (left_after pick (image_of self.now.first) (first_effects call self.now.effects))) }

        // It is an image that a crash just after that call may leave, and of a moment since then: with what had been put by then.
        ensures after { IfOk result (λ host. ForSome (now_in host) (λ v. may_after (image_of self.now.first) (first_effects call self.now.effects) v)) }
        ensures moment { IfOk result (λ host. ForSome (now_in host) (λ v. ⟦<MemHost as Host>⟧.since self.now call
            (record { image = v; said = said_after (first_effects call self.now.effects) }))) }
        ensures begun { IfOk result (λ host. host ≡ begun host.first []) }
        ensures settled { IfOk result (λ host. (file : ℕ) → NothingPending file (now_in host) (may_in host)) }
    {
        let alloc = self.alloc;
        let files = self.trace.left_after(call as usize, pick)?;
        MemHost::new(alloc, Image::of_files(alloc, files), Vec::new(alloc))
    }

    /// The bytes of a file.
    pub fn file(&self, file: u32) -> &[u8]
        requires { file < 8 }
        ensures { ForSome (⟦<MemHost as Host>⟧.now self.now) (λ v. result.now ≡ v file) }
    {
        self.trace.file(file)
    }

    /// All that was put.
    pub fn output(&self) -> &[u8]
        ensures { ForSome (⟦<MemHost as Host>⟧.said self.now) (λ s. result.now ≡ s) }
    {
        self.trace.output()
    }

    /// How many calls were noted: all but those that found no memory.
    pub fn calls(&self) -> u64
        ensures { result ≡ ⟦<MemHost as Host>⟧.clock self.now }
    {
        self.trace.len() as u64
    }

    /// How many calls of `read_at` were made, up to 2^64 - 1.
    pub fn count_reads(&self) -> u64
        ensures { result ≡ ⟦<MemHost as Host>⟧.reads self.now }
    {
        self.reads
    }

    /// In how many calls a growth found no memory, up to 2^64 - 1.
    pub fn starved(&self) -> u64
        ensures { result ≡ self.now.starved }
    {
        self.starved
    }

    /// Begins a call, and answers whether it is one of those that are to fail.
    fn begin(&mut self) -> bool
        ensures listed { IsTrue result ↔ IsListed self.old }
        ensures next { self.new ≡ record self.old { next = raised self.old.next } }
    {
        let listed = self.fail.contains(&self.next);
        raise(&mut self.next);
        listed
    }

    /// Counts a call that found no memory.
    fn starve(&mut self)
        ensures { self.new ≡ record self.old { starved = raised self.old.starved } }
    {
        raise(&mut self.starved);
    }

    /// Counts a failed call on a file.
    fn disk_fault(&mut self) -> Failed
        ensures new { self.new ≡ with_disk_fault self.old }
        ensures kept { self.old.disk_faults ≤ self.new.disk_faults }
    {
        raise(&mut self.disk_faults);
        Failed
    }

    /// Counts a failed `put`.
    fn out_fault(&mut self) -> Failed
        ensures new { self.new ≡ with_out_fault self.old }
        ensures kept { self.old.out_faults ≤ self.new.out_faults }
    {
        raise(&mut self.out_faults);
        Failed
    }
}

impl Host for MemHost {
    ghost use Rattle.std.specs.Prelude.{Some, length};
    ghost use Rattle.rg_host.specs.Files.{image_of};
    ghost use Rattle.rg_host.specs.EffectLaws.{now_may_leave, now_counts, only_told, since_sinks};

    ghost now = { now_in };

    ghost may = { may_in };

    ghost clock = { clock_in };

    ghost since = { since_in };

    ghost said = { said_in };

    ghost disk_faults = { λ host. host.disk_faults };

    ghost out_faults = { λ host. host.out_faults };

    ghost reads = { λ host. host.reads };

    ghost now_may = { λ host v is. now_may_leave (image_of host.first) host.effects v is };

    ghost counts_now = { λ host t m le may is. now_counts (image_of host.first) host.effects t m le may is };

    ghost only_now = { λ host m now. only_told (image_of host.first) host.effects m now };

    ghost sinks = { λ host t u m le later. since_sinks (image_of host.first) host.effects t u m le later };

    // A listed call fails. Another one fails only for want of memory, or, as a write, past 2^62.
    // Each failure is counted once; and it is noted unless a growth found no memory, which is
    // counted then.

    fn len(&mut self, file: u32) -> Result<u64, Failed>
        requires { file < 8 }
        ensures length { IfOk result (λ n. ForSome (now_in self.old) (λ v. n ≡ length (v file))) }
        ensures limit { IfOk result (λ n. n ≤ 2 ^ 62) }
        ensures leaves { LeavesAll now_in may_in clock_in since_in said_in self.old self.new }
        ensures cause { OnErr result (Rose self.old.disk_faults self.new.disk_faults) }
        ensures disk_faults { self.old.disk_faults ≤ self.new.disk_faults }
        ensures out_faults { self.new.out_faults ≡ self.old.out_faults }
        ensures reads { self.new.reads ≡ self.old.reads }

        // A listed call fails. Any other call fails only where memory runs out.
        ensures listed { IsListed self.old → IsErr result }
        ensures unlisted { IsErr result → IsListed self.old ⊎ (self.new ≡ unnoted (with_disk_fault self.old)) }
        ensures ok { OnOk result (self.new ≡ noted nothing self.old) }
        ensures err { OnErr result (HasFailed nothing (with_disk_fault self.old) self.new) }
    {
        let listed = self.begin();
        if self.trace.note_nothing().is_err() {
            self.starve();
            return Err(self.disk_fault());
        }
        if listed {
            return Err(self.disk_fault());
        }
        Ok(self.trace.file(file).len() as u64)
    }

    fn read_at(&mut self, file: u32, at: u64, buf: &mut [u8]) -> Result<usize, Failed>
        requires { file < 8 }
        ensures count { IfOk result (λ n. n ≤ length buf.old) }
        ensures size { length buf.new ≡ length buf.old }
        ensures bytes { IfOk result (λ n. ForSome (now_in self.old) (λ v. take n buf.new ≡ take n (drop at (v file)))) }
        ensures within { IfOk result (λ n. ForSome (now_in self.old) (λ v. n ≤ length (drop at (v file)))) }
        ensures end { IfOk result (λ n. ForSome (now_in self.old) (λ v. n ≡ 0 → 0 < length buf.old → length (v file) ≤ at)) }
        ensures most { IfOk result (λ n. ForSome (now_in self.old) (λ v. n ≡ min (length buf.old) (length (drop at (v file))))) }
        ensures leaves { LeavesAll now_in may_in clock_in since_in said_in self.old self.new }
        ensures cause { OnErr result (Rose self.old.disk_faults self.new.disk_faults) }
        ensures disk_faults { self.old.disk_faults ≤ self.new.disk_faults }
        ensures out_faults { self.new.out_faults ≡ self.old.out_faults }
        ensures reads { Rose self.old.reads self.new.reads }
        ensures reads_kept { self.old.reads ≤ self.new.reads }

        // A listed call fails. Any other call fails only where memory runs out.
        ensures listed { IsListed self.old → IsErr result }
        ensures unlisted { IsErr result → IsListed self.old ⊎ (self.new ≡ unnoted (with_disk_fault (with_read self.old))) }
        ensures ok { OnOk result (self.new ≡ noted nothing (with_read self.old)) }
        ensures err { OnErr result (HasFailed nothing (with_disk_fault (with_read self.old)) self.new) }
    {
        let listed = self.begin();
        raise(&mut self.reads);
        if self.trace.note_nothing().is_err() {
            self.starve();
            return Err(self.disk_fault());
        }
        if listed {
            return Err(self.disk_fault());
        }
        Ok(read_from(self.trace.file(file), at, buf))
    }

    fn write_at(&mut self, file: u32, at: u64, bytes: &[u8]) -> Result<(), Failed>
        requires file { file < 8 }
        requires within { ForSome (now_in self.old) (λ v. at ≤ length (v file)) }
        ensures written { OnOk result (Becomes (now_in self.old) (now_in self.new) (InFile file (Holds at bytes.now))) }
        ensures torn { OnErr result (Becomes (now_in self.old) (now_in self.new) (InFile file (Torn at (length bytes.now)))) }
        ensures kept { OnErr result (now_in self.new ≡ now_in self.old) }
        ensures limit { OnOk result (at + length bytes.now ≤ 2 ^ 62) }
        ensures may { Follows (InFile file (Torn at (length bytes.now))) (may_in self.old) (may_in self.new) }
        ensures said { said_in self.new ≡ said_in self.old }
        ensures moments { Moments clock_in since_in self.old self.new
            (λ m. IsAfter (InFile file (Torn at (length bytes.now))) (may_in self.old) m.image × ForSome (said_in self.old) (λ s. m.said ≡ s)) }
        ensures cause { OnErr result (Rose self.old.disk_faults self.new.disk_faults) }
        ensures disk_faults { self.old.disk_faults ≤ self.new.disk_faults }
        ensures out_faults { self.new.out_faults ≡ self.old.out_faults }
        ensures reads { self.new.reads ≡ self.old.reads }

        // A listed call fails. Any other call fails only where memory runs out, or where the write would end past 2^62.
        ensures listed { IsListed self.old → IsErr result }
        ensures unlisted { IsErr result → IsListed self.old ⊎ (2 ^ 62 < at + length bytes.now) ⊎ (self.new ≡ unnoted (with_disk_fault self.old)) }
        ensures ok { OnOk result (self.new ≡ noted (wrote file at bytes.now) self.old) }
        ensures err { OnErr result (HasFailed (failed_write file at (length bytes.now)) (with_disk_fault self.old) self.new) }
    {
        let listed = self.begin();
        if listed || ends_past(at, bytes.len()) {
            if self
                .trace
                .note_failed_write(file, at, bytes.len() as u64)
                .is_err()
            {
                self.starve();
                return Err(self.disk_fault());
            }
            return Err(self.disk_fault());
        }
        if self.trace.note_write(file, at, bytes).is_err() {
            self.starve();
            return Err(self.disk_fault());
        }
        Ok(())
    }

    fn sync(&mut self, file: u32) -> Result<(), Failed>
        requires { file < 8 }
        ensures settled { OnOk result (NothingPending file (now_in self.new) (may_in self.new)) }
        ensures now { now_in self.new ≡ now_in self.old }
        ensures may { (v : Files) → may_in self.new v → may_in self.old v }
        ensures said { said_in self.new ≡ said_in self.old }
        ensures moments { Moments clock_in since_in self.old self.new
            (λ m. may_in self.old m.image × ForSome (said_in self.old) (λ s. m.said ≡ s)) }
        ensures cause { OnErr result (Rose self.old.disk_faults self.new.disk_faults) }
        ensures disk_faults { self.old.disk_faults ≤ self.new.disk_faults }
        ensures out_faults { self.new.out_faults ≡ self.old.out_faults }
        ensures reads { self.new.reads ≡ self.old.reads }

        // A listed call fails. Any other call fails only where memory runs out.
        ensures listed { IsListed self.old → IsErr result }
        ensures unlisted { IsErr result → IsListed self.old ⊎ (self.new ≡ unnoted (with_disk_fault self.old)) }
        ensures ok { OnOk result (self.new ≡ noted (synced file) self.old) }
        ensures err { OnErr result (HasFailed nothing (with_disk_fault self.old) self.new) }
    {
        if self.begin() {
            if self.trace.note_nothing().is_err() {
                self.starve();
                return Err(self.disk_fault());
            }
            return Err(self.disk_fault());
        }
        if self.trace.note_sync(file).is_err() {
            self.starve();
            return Err(self.disk_fault());
        }
        Ok(())
    }

    fn put(&mut self, bytes: &[u8]) -> Result<usize, Failed>
        ensures count { IfOk result (λ n. n ≤ length bytes.now) }
        ensures at_least_one { IfOk result (λ n. 0 < length bytes.now → 0 < n) }
        ensures puts { Puts said_in clock_in since_in self.old self.new (put_of result bytes.now) }
        ensures leaves { LeavesFiles now_in may_in clock_in since_in self.old self.new }
        ensures whole { IfOk result (λ n. n ≡ length bytes.now) }
        ensures cause { OnErr result (Rose self.old.out_faults self.new.out_faults) }
        ensures disk_faults { self.new.disk_faults ≡ self.old.disk_faults }
        ensures out_faults { self.old.out_faults ≤ self.new.out_faults }
        ensures reads { self.new.reads ≡ self.old.reads }

        // A listed call fails. Any other call fails only where memory runs out.
        ensures listed { IsListed self.old → IsErr result }
        ensures unlisted { IsErr result → IsListed self.old ⊎ (self.new ≡ unnoted (with_out_fault self.old)) }
        ensures ok { OnOk result (self.new ≡ noted (put bytes.now) self.old) }
        ensures err { OnErr result (HasFailed nothing (with_out_fault self.old) self.new) }
    {
        if self.begin() {
            if self.trace.note_nothing().is_err() {
                self.starve();
                return Err(self.out_fault());
            }
            return Err(self.out_fault());
        }
        if self.trace.note_put(bytes).is_err() {
            self.starve();
            return Err(self.out_fault());
        }
        Ok(bytes.len())
    }
}
