ghost use Rattle.std.specs.Prelude.{◌≡◌, ℕ, ◌+◌, ◌^◌, ◌<◌, ◌≤◌, length, take, drop, IfOk, IsErr, OnOk, OnErr};
ghost use Rattle.std.specs.Option.{ForSome};
ghost use Rattle.rg_bytes.specs.Counts.{Rose};
ghost use Rattle.rg_host.specs.CallCounts.{raised};
ghost use Rattle.rg_host.specs.Fused.{of_inner, disk_count, out_count, read_count, HasPassed, with_disk_fault, with_out_fault, with_read};
ghost use Rattle.rg_host.specs.Image.{Image, Becomes, InFile, Holds, Torn, IsAfter, Follows, NothingPending};
ghost use Rattle.rg_host.specs.Moments.{Moments, LeavesFiles, LeavesAll};
ghost use Rattle.rg_host.specs.Puts.{Puts, put_of};

use crate::count::raise;
use crate::host::Host;
use crate::source::Failed;
use std::marker::Model;

/// Passes so many calls on to another host, and then fails each, as one whose wire was cut.
#[derive(Drop)]
pub struct FuseHost<H: Host> {
    inner: H,
    left: u64,
    disk_faults: u64,
    out_faults: u64,
    reads: u64,
}

impl<H: Host> Model for FuseHost<H> {
    ghost use Rattle.rg_host.specs.Fused.{Fused};

    ghost Value = { Fused H };

    ghost view = { λ host. record {
      inner = host.inner;
      left = host.left;
      disk_faults = host.disk_faults;
      out_faults = host.out_faults;
      reads = host.reads;
    } };
}

impl<H: Host> FuseHost<H> {
    /// A host that passes so many calls on to that one.
    pub fn new(inner: H, calls: u64) -> FuseHost<H>
        ensures { result ≡ record {
          inner = inner;
          left = calls;
          disk_faults = 0;
          out_faults = 0;
          reads = 0;
        } }
    {
        FuseHost {
            inner,
            left: calls,
            disk_faults: 0,
            out_faults: 0,
            reads: 0,
        }
    }

    /// The host to which the calls went.
    pub fn into_inner(self) -> H
        ensures { result ≡ self.inner }
    {
        self.inner
    }
}

impl<H: Host> Host for FuseHost<H> {
    ghost use Rattle.rg_host.specs.Fused.{of_inner, disk_count, out_count, read_count};

    ghost now = { of_inner H.now };

    ghost may = { of_inner H.may };

    ghost clock = { of_inner H.clock };

    ghost since = { of_inner H.since };

    ghost said = { of_inner H.said };

    ghost disk_faults = { disk_count H.disk_faults };

    ghost out_faults = { out_count H.out_faults };

    ghost reads = { read_count H.reads };

    ghost now_may = { λ host v is. H.now_may host.inner v is };

    ghost counts_now = { λ host t m le may is. H.counts_now host.inner t m le may is };

    ghost only_now = { λ host m now. H.only_now host.inner m now };

    ghost sinks = { λ host t u m le later. H.sinks host.inner t u m le later };

    // While calls are left, each is passed on, and fails only where the other host fails it.
    // Then each fails, leaves the other host alone and is counted.

    fn len(&mut self, file: u32) -> Result<u64, Failed>
        requires { file < 8 }
        ensures length { IfOk result (λ n. ForSome (H.now self.old.inner) (λ v. n ≡ length (v file))) }
        ensures limit { IfOk result (λ n. n ≤ 2 ^ 62) }
        ensures leaves { LeavesAll (of_inner H.now) (of_inner H.may) (of_inner H.clock) (of_inner H.since) (of_inner H.said) self.old self.new }
        ensures cause { OnErr result (Rose (disk_count H.disk_faults self.old) (disk_count H.disk_faults self.new)) }
        ensures disk_faults { disk_count H.disk_faults self.old ≤ disk_count H.disk_faults self.new }
        ensures out_faults { out_count H.out_faults self.new ≡ out_count H.out_faults self.old }
        ensures reads { read_count H.reads self.new ≡ read_count H.reads self.old }

        // While calls are left the host below answers. Then each call fails and is counted.
        ensures passes { 0 < self.old.left → HasPassed self.old self.new }
        ensures inner_cause { 0 < self.old.left → OnErr result (Rose (H.disk_faults self.old.inner) (H.disk_faults self.new.inner)) }
        ensures fails { self.old.left ≡ 0 → IsErr result × (self.new ≡ with_disk_fault self.old) }
    {
        if self.left == 0 {
            raise(&mut self.disk_faults);
            return Err(Failed);
        }
        self.left -= 1;
        self.inner.len(file)
    }

    fn read_at(&mut self, file: u32, at: u64, buf: &mut [u8]) -> Result<usize, Failed>
        requires { file < 8 }
        ensures count { IfOk result (λ n. n ≤ length buf.old) }
        ensures size { length buf.new ≡ length buf.old }
        ensures bytes { IfOk result (λ n. ForSome (H.now self.old.inner) (λ v. take n buf.new ≡ take n (drop at (v file)))) }
        ensures within { IfOk result (λ n. ForSome (H.now self.old.inner) (λ v. n ≤ length (drop at (v file)))) }
        ensures end { IfOk result (λ n. ForSome (H.now self.old.inner) (λ v. n ≡ 0 → 0 < length buf.old → length (v file) ≤ at)) }
        ensures leaves { LeavesAll (of_inner H.now) (of_inner H.may) (of_inner H.clock) (of_inner H.since) (of_inner H.said) self.old self.new }
        ensures cause { OnErr result (Rose (disk_count H.disk_faults self.old) (disk_count H.disk_faults self.new)) }
        ensures disk_faults { disk_count H.disk_faults self.old ≤ disk_count H.disk_faults self.new }
        ensures out_faults { out_count H.out_faults self.new ≡ out_count H.out_faults self.old }
        ensures reads { Rose (read_count H.reads self.old) (read_count H.reads self.new) }
        ensures reads_kept { read_count H.reads self.old ≤ read_count H.reads self.new }

        // While calls are left the host below answers. Then each call fails and is counted.
        ensures passes { 0 < self.old.left → HasPassed self.old self.new }
        ensures inner_cause { 0 < self.old.left → OnErr result (Rose (H.disk_faults self.old.inner) (H.disk_faults self.new.inner)) }
        ensures fails { self.old.left ≡ 0 → IsErr result × (self.new ≡ with_disk_fault (with_read self.old)) }
    {
        if self.left == 0 {
            raise(&mut self.reads);
            raise(&mut self.disk_faults);
            return Err(Failed);
        }
        self.left -= 1;
        self.inner.read_at(file, at, buf)
    }

    fn write_at(&mut self, file: u32, at: u64, bytes: &[u8]) -> Result<(), Failed>
        requires file { file < 8 }
        requires within { ForSome (H.now self.old.inner) (λ v. at ≤ length (v file)) }
        ensures written { OnOk result (Becomes (H.now self.old.inner) (H.now self.new.inner) (InFile file (Holds at bytes.now))) }
        ensures torn { OnErr result (Becomes (H.now self.old.inner) (H.now self.new.inner) (InFile file (Torn at (length bytes.now)))) }
        ensures limit { OnOk result (at + length bytes.now ≤ 2 ^ 62) }
        ensures may { Follows (InFile file (Torn at (length bytes.now))) (H.may self.old.inner) (H.may self.new.inner) }
        ensures said { H.said self.new.inner ≡ H.said self.old.inner }
        ensures moments { Moments (of_inner H.clock) (of_inner H.since) self.old self.new
            (λ m. IsAfter (InFile file (Torn at (length bytes.now))) (H.may self.old.inner) m.image × ForSome (H.said self.old.inner) (λ s. m.said ≡ s)) }
        ensures cause { OnErr result (Rose (disk_count H.disk_faults self.old) (disk_count H.disk_faults self.new)) }
        ensures disk_faults { disk_count H.disk_faults self.old ≤ disk_count H.disk_faults self.new }
        ensures out_faults { out_count H.out_faults self.new ≡ out_count H.out_faults self.old }
        ensures reads { read_count H.reads self.new ≡ read_count H.reads self.old }

        // While calls are left the host below answers. Then each call fails and is counted.
        ensures passes { 0 < self.old.left → HasPassed self.old self.new }
        ensures inner_cause { 0 < self.old.left → OnErr result (Rose (H.disk_faults self.old.inner) (H.disk_faults self.new.inner)) }
        ensures fails { self.old.left ≡ 0 → IsErr result × (self.new ≡ with_disk_fault self.old) }
    {
        if self.left == 0 {
            raise(&mut self.disk_faults);
            return Err(Failed);
        }
        self.left -= 1;
        self.inner.write_at(file, at, bytes)
    }

    fn sync(&mut self, file: u32) -> Result<(), Failed>
        requires { file < 8 }
        ensures settled { OnOk result (NothingPending file (H.now self.new.inner) (H.may self.new.inner)) }
        ensures now { H.now self.new.inner ≡ H.now self.old.inner }
        ensures may { (v : Image) → H.may self.new.inner v → H.may self.old.inner v }
        ensures said { H.said self.new.inner ≡ H.said self.old.inner }
        ensures moments { Moments (of_inner H.clock) (of_inner H.since) self.old self.new
            (λ m. H.may self.old.inner m.image × ForSome (H.said self.old.inner) (λ s. m.said ≡ s)) }
        ensures cause { OnErr result (Rose (disk_count H.disk_faults self.old) (disk_count H.disk_faults self.new)) }
        ensures disk_faults { disk_count H.disk_faults self.old ≤ disk_count H.disk_faults self.new }
        ensures out_faults { out_count H.out_faults self.new ≡ out_count H.out_faults self.old }
        ensures reads { read_count H.reads self.new ≡ read_count H.reads self.old }

        // While calls are left the host below answers. Then each call fails and is counted.
        ensures passes { 0 < self.old.left → HasPassed self.old self.new }
        ensures inner_cause { 0 < self.old.left → OnErr result (Rose (H.disk_faults self.old.inner) (H.disk_faults self.new.inner)) }
        ensures fails { self.old.left ≡ 0 → IsErr result × (self.new ≡ with_disk_fault self.old) }
    {
        if self.left == 0 {
            raise(&mut self.disk_faults);
            return Err(Failed);
        }
        self.left -= 1;
        self.inner.sync(file)
    }

    fn put(&mut self, bytes: &[u8]) -> Result<usize, Failed>
        ensures count { IfOk result (λ n. n ≤ length bytes.now) }
        ensures at_least_one { IfOk result (λ n. 0 < length bytes.now → 0 < n) }
        ensures puts { Puts (of_inner H.said) (of_inner H.clock) (of_inner H.since) self.old self.new (put_of result bytes.now) }
        ensures leaves { LeavesFiles (of_inner H.now) (of_inner H.may) (of_inner H.clock) (of_inner H.since) self.old self.new }
        ensures cause { OnErr result (Rose (out_count H.out_faults self.old) (out_count H.out_faults self.new)) }
        ensures disk_faults { disk_count H.disk_faults self.new ≡ disk_count H.disk_faults self.old }
        ensures out_faults { out_count H.out_faults self.old ≤ out_count H.out_faults self.new }
        ensures reads { read_count H.reads self.new ≡ read_count H.reads self.old }

        // While calls are left the host below answers. Then each call fails and is counted.
        ensures passes { 0 < self.old.left → HasPassed self.old self.new }
        ensures inner_cause { 0 < self.old.left → OnErr result (Rose (H.out_faults self.old.inner) (H.out_faults self.new.inner)) }
        ensures fails { self.old.left ≡ 0 → IsErr result × (self.new ≡ with_out_fault self.old) }
    {
        if self.left == 0 {
            raise(&mut self.out_faults);
            return Err(Failed);
        }
        self.left -= 1;
        self.inner.put(bytes)
    }
}
