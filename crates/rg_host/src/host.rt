ghost use Rattle.std.specs.Prelude.{◌≡◌, ℕ, ◌+◌, ◌^◌, ◌<◌, ◌≤◌, List, length, take, drop, Option, Some, IfOk, OnOk, OnErr};
ghost use Rattle.std.specs.Option.{ForSome};
ghost use Rattle.rg_bytes.specs.Counts.{Rose};
ghost use Rattle.rg_host.specs.Image.{Image, Becomes, InFile, Holds, Torn, IsAfter, Follows, NothingPending};
ghost use Rattle.rg_host.specs.Moments.{Moment, Moments, LeavesFiles, LeavesAll};
ghost use Rattle.rg_host.specs.Puts.{Puts, IsPrefix, put_of};

use crate::source::Failed;

/// Files numbered below 8 and an output, which share one clock.
///
/// Between two syncs of a file a crash may leave any bytes in each range that was written, and any
/// length up to the greatest; a sync that succeeds settles its file. A write that failed counts as
/// written, and a sync that failed settles nothing.
pub trait Host {
    /// The image of the files as reads give it, where the host tells it.
    ghost now: { Self → Option Image };

    /// A crash now might leave this image.
    ghost may: { Self → Image → Type 0 };

    /// The present moment.
    ghost clock: { Self → ℕ };

    /// That is one of the moments since this one: a crash might then have left this image, while
    /// exactly these bytes had been put.
    ghost since: { Self → ℕ → Moment → Type 0 };

    /// All bytes put, where the host tells them.
    ghost said: { Self → Option (List ℕ) };

    /// How often a call on a file has failed, up to 2^64 - 1.
    ghost disk_faults: { Self → ℕ };

    /// How often a `put` has failed, up to 2^64 - 1.
    ghost out_faults: { Self → ℕ };

    /// How often `read_at` was called, up to 2^64 - 1.
    ghost reads: { Self → ℕ };

    /// Answers the length of a file in bytes, at most 2^62. A missing file has length 0.
    fn len(&mut self, file: u32) -> Result<u64, Failed>
        requires { file < 8 }
        ensures length { IfOk result (λ n. ForSome (now self.old) (λ v. n ≡ length (v file))) }
        ensures limit { IfOk result (λ n. n ≤ 2 ^ 62) }
        ensures leaves { LeavesAll now may clock since said self.old self.new }
        ensures cause { OnErr result (Rose (disk_faults self.old) (disk_faults self.new)) }
        ensures disk_faults { disk_faults self.old ≤ disk_faults self.new }
        ensures out_faults { out_faults self.new ≡ out_faults self.old }
        ensures reads { reads self.new ≡ reads self.old };

    /// Reads the bytes of a file from a place on into the first bytes of `buf`, and answers how
    /// many. With room in `buf`, 0 comes only at the end of the file. After `Failed` nothing is
    /// said of what stands in `buf`.
    fn read_at(&mut self, file: u32, at: u64, buf: &mut [u8]) -> Result<usize, Failed>
        requires { file < 8 }
        ensures count { IfOk result (λ n. n ≤ length buf.old) }
        ensures size { length buf.new ≡ length buf.old }

        // A read gives the bytes that stand there, and leaves files and output.
        ensures bytes { IfOk result (λ n. ForSome (now self.old) (λ v. take n buf.new ≡ take n (drop at (v file)))) }
        ensures within { IfOk result (λ n. ForSome (now self.old) (λ v. n ≤ length (drop at (v file)))) }
        ensures end { IfOk result (λ n. ForSome (now self.old) (λ v. n ≡ 0 → 0 < length buf.old → length (v file) ≤ at)) }
        ensures leaves { LeavesAll now may clock since said self.old self.new }
        ensures cause { OnErr result (Rose (disk_faults self.old) (disk_faults self.new)) }
        ensures disk_faults { disk_faults self.old ≤ disk_faults self.new }
        ensures out_faults { out_faults self.new ≡ out_faults self.old }
        ensures reads { Rose (reads self.old) (reads self.new) }
        ensures reads_kept { reads self.old ≤ reads self.new };

    /// Writes these bytes into a file at a place, over what is there and past its end. A write that
    /// would end past 2^62 fails. After `Failed` the bytes outside the range are as they were, and
    /// those within it may be any.
    fn write_at(&mut self, file: u32, at: u64, bytes: &[u8]) -> Result<(), Failed>
        requires file { file < 8 }
        requires within { ForSome (now self.old) (λ v. at ≤ length (v file)) }
        // The bytes stand there afterwards; a write that fails leaves the bytes outside its range.
        ensures written { OnOk result (Becomes (now self.old) (now self.new) (InFile file (Holds at bytes.now))) }
        ensures torn { OnErr result (Becomes (now self.old) (now self.new) (InFile file (Torn at (length bytes.now)))) }
        ensures limit { OnOk result (at + length bytes.now ≤ 2 ^ 62) }
        ensures may { Follows (InFile file (Torn at (length bytes.now))) (may self.old) (may self.new) }
        ensures said { said self.new ≡ said self.old }

        // At each moment a crash may leave any bytes in that range, and nothing else changes.
        ensures moments { Moments clock since self.old self.new
            (λ m. IsAfter (InFile file (Torn at (length bytes.now))) (may self.old) m.image × ForSome (said self.old) (λ s. m.said ≡ s)) }
        ensures cause { OnErr result (Rose (disk_faults self.old) (disk_faults self.new)) }
        ensures disk_faults { disk_faults self.old ≤ disk_faults self.new }
        ensures out_faults { out_faults self.new ≡ out_faults self.old }
        ensures reads { reads self.new ≡ reads self.old };

    /// Settles a file: a crash then leaves of it what reads give. `Failed` settles nothing.
    fn sync(&mut self, file: u32) -> Result<(), Failed>
        requires { file < 8 }
        // After a sync that succeeds nothing of its file is pending.
        ensures settled { OnOk result (NothingPending file (now self.new) (may self.new)) }
        ensures now { now self.new ≡ now self.old }
        ensures may { (v : Image) → may self.new v → may self.old v }
        ensures said { said self.new ≡ said self.old }
        ensures moments { Moments clock since self.old self.new
            (λ m. may self.old m.image × ForSome (said self.old) (λ s. m.said ≡ s)) }
        ensures cause { OnErr result (Rose (disk_faults self.old) (disk_faults self.new)) }
        ensures disk_faults { disk_faults self.old ≤ disk_faults self.new }
        ensures out_faults { out_faults self.new ≡ out_faults self.old }
        ensures reads { reads self.new ≡ reads self.old };

    /// Appends a prefix of these bytes to the output, at least one of them, and answers how many.
    /// `Failed` leaves the output as it was.
    fn put(&mut self, bytes: &[u8]) -> Result<usize, Failed>
        ensures count { IfOk result (λ n. n ≤ length bytes.now) }
        ensures at_least_one { IfOk result (λ n. 0 < length bytes.now → 0 < n) }

        // A put appends a prefix of what it is given, and at each moment a prefix of it is out.
        ensures puts { Puts said clock since self.old self.new (put_of result bytes.now) }
        ensures leaves { LeavesFiles now may clock since self.old self.new }
        ensures cause { OnErr result (Rose (out_faults self.old) (out_faults self.new)) }
        ensures disk_faults { disk_faults self.new ≡ disk_faults self.old }
        ensures out_faults { out_faults self.old ≤ out_faults self.new }
        ensures reads { reads self.new ≡ reads self.old };

    /// What reads give is an image that a crash may leave.
    ghost now_may: { (h : Self) (v : Image) → now h ≡ Some v → may h v };

    /// The present moment is one of those since an earlier one.
    ghost counts_now: { (h : Self) (t : ℕ) (m : Moment) → t ≤ clock h → may h m.image → said h ≡ Some m.said → since h t m };

    /// Since the present moment there is no other.
    ghost only_now: { (h : Self) (m : Moment) → since h (clock h) m → may h m.image × ForSome (said h) (λ s. m.said ≡ s) };

    /// The moments since a later one are among those since an earlier one.
    ghost sinks: { (h : Self) (t u : ℕ) (m : Moment) → t ≤ u → since h u m → since h t m };
}

/// Puts all of these bytes. After `Failed` a prefix of them was put.
pub fn put_all<H: Host>(host: &mut H, bytes: &[u8]) -> Result<(), Failed>
    // All bytes were put, or a prefix of them where a put failed.
    ensures all { OnOk result (Puts H.said H.clock H.since host.old host.new bytes.now) }
    ensures part { (part : List ℕ) × IsPrefix part bytes.now × Puts H.said H.clock H.since host.old host.new part }
    ensures leaves { LeavesFiles H.now H.may H.clock H.since host.old host.new }

    // It fails only where the count of failed puts rose.
    ensures cause { OnErr result (Rose (H.out_faults host.old) (H.out_faults host.new)) }
    ensures disk_faults { H.disk_faults host.new ≡ H.disk_faults host.old }
    ensures out_faults { H.out_faults host.old ≤ H.out_faults host.new }
    ensures reads { H.reads host.new ≡ H.reads host.old }
{
    let mut rest = bytes;
    while !rest.is_empty() {
        let count = host.put(rest)?;
        rest = &rest[count..];
    }
    Ok(())
}
