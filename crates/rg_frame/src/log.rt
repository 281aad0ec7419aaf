ghost use Rattle.std.specs.Prelude.{◌≡◌, ◌↔◌, ◌≢◌, ◌⊎◌, ◌≤◌, ◌<◌, ◌+◌, ◌^◌, [], ◌∷◌, ◌++◌, ℕ, List, min, length, slice_index, OnOk, OnErr, IfOk, IfErr, IfSome, IfNone, IsErrOf, Option, Err, true, false, ⊤};
ghost use Rattle.std.specs.Option.{ForSome};
ghost use Rattle.rg_bytes.specs.Counts.{Rose};
ghost use Rattle.rg_host.specs.Image.{Image, Becomes, InFile, NothingPending};
ghost use Rattle.rg_host.specs.Moments.{LeavesAll};
ghost use Rattle.rg_frame.specs.Calls.{Writes};
ghost use Rattle.rg_frame.specs.Frames.{IsLog, Begins, HasPayloads, IsDamaged};
ghost use Rattle.rg_frame.specs.LogState.{ReachesEnd};
ghost use Rattle.rg_frame.specs.Looks.{HoldsFrame, HoldsHead, IsClosed, IsTorn, Next};
ghost use Rattle.rg_frame.specs.Steps.{From, Grows, Added, Appended, OldOrNone, Shut};

use crate::fault::FrameFault;
use crate::look::{look, read_full};
use crate::write::{add, close};
use rg_host::{Failed, Host};
use std::marker::Model;

/// A log of frames in one file of a host.
///
/// `file` is the file's number, below 8. `end` is the place that the log has come to, in bytes, at
/// most 2^62. The log is ready once the frame list was seen to end there, and ended once an
/// `append` or a `clear` failed.
#[derive(Drop)]
pub struct FrameLog {
    file: u32,
    end: u64,
    ready: bool,
    ended: bool,
}

impl Model for FrameLog {
    ghost use Rattle.std.specs.Prelude.{◌<◌, ◌≤◌, ◌^◌};
    ghost use Rattle.rg_frame.specs.LogState.{LogState};

    ghost Value = { LogState };

    ghost view = { λ log. record { file = log.file; end = log.end; ready = log.ready; ended = log.ended } };

    ghost invariant = { λ log. (log.file < 8) × (log.end ≤ 2 ^ 62) };
}

/// A frame that was found.
#[derive(Clone, Copy, Debug, PartialEq, Eq, Hash)]
pub struct Head {
    /// The place of its gate, in bytes.
    pub place: u64,
    /// The length of its payload, in bytes.
    pub length: u64,
    /// The place of the next gate, in bytes, below 2^62.
    pub next: u64,
}

impl FrameLog {
    /// A log at place 0 of the file of that number, not ready.
    pub fn new(file: u32) -> FrameLog
        requires { file < 8 }
        ensures fresh { result ≡ record { file = file; end = 0; ready = false; ended = false } }
        ensures reaches { (now : Option Image) → ReachesEnd result now }
    {
        FrameLog {
            file,
            end: 0,
            ready: false,
            ended: false,
        }
    }

    /// The place that the log has come to, in bytes.
    pub fn end(&self) -> u64
        ensures end { result ≡ self.now.end }
        ensures within { (self.now.file < 8) × (self.now.end ≤ 2 ^ 62) }
    {
        self.end
    }

    /// Reads the frame at the end of the log. The first bytes of its payload then stand in `head`,
    /// as many as it takes, and the log has come to the next gate. None says that no open gate
    /// stands there, and the log is then ready. A fault leaves the log as it was, and may leave
    /// any bytes in `head`.
    pub fn step<H: Host>(
        &mut self,
        host: &mut H,
        head: &mut [u8],
    ) -> Result<Option<Head>, FrameFault>
        // A frame is found where one stands, and no byte of its payload is read.
        ensures some { IfOk result (λ r. IfSome r (λ found. ForSome (H.now host.old) (λ v. HoldsHead self.old.end found.length head.new (v self.old.file)
            × ((payloads : List (List ℕ)) → Begins payloads self.old.end (v self.old.file) → Next payloads found.length head.new found.next (v self.old.file))))) }
        ensures moved { IfOk result (λ r. IfSome r (λ found. (found.place ≡ self.old.end) × (found.next ≡ self.old.end + 9 + found.length)
            × (self.new ≡ record self.old { end = found.next; ready = false }))) }
        ensures next { IfOk result (λ r. IfSome r (λ found. found.next < 2 ^ 62)) }

        // The list's end is told exactly at a closed gate.
        ensures none { IfOk result (λ r. IfNone r (ForSome (H.now host.old) (λ v. IsClosed self.old.end (v self.old.file)
            × ((payloads : List (List ℕ)) → Begins payloads self.old.end (v self.old.file) → IsLog payloads self.old.end (v self.old.file))))) }
        ensures ready { IfOk result (λ r. IfNone r (self.new ≡ record self.old { ready = true })) }

        // Damage is told exactly where an open gate has no whole frame and one byte more behind it.
        ensures damaged { (p : ℕ) → IsErrOf result (FrameFault.Damaged p) → ForSome (H.now host.old) (λ v. IsTorn p (v self.old.file)
            × ((payloads : List (List ℕ)) → Begins payloads self.old.end (v self.old.file) → IsDamaged p (v self.old.file))) }

        // Disk comes only where the host's count of failed calls rose.
        ensures disk { IsErrOf result FrameFault.Disk → Rose (H.disk_faults host.old) (H.disk_faults host.new) }
        ensures faults { IfErr result (λ fault. (fault ≡ FrameFault.Disk) ⊎ (fault ≡ FrameFault.Damaged self.old.end)) }
        ensures err { OnErr result (self.new ≡ self.old) }

        ensures leaves { LeavesAll H.now H.may H.clock H.since H.said host.old host.new }
        ensures reaches { ReachesEnd self.old (H.now host.old) → ReachesEnd self.new (H.now host.new) }
        ensures disk_faults { H.disk_faults host.old ≤ H.disk_faults host.new }
        ensures out_faults { H.out_faults host.new ≡ H.out_faults host.old }
        ensures reads { H.reads host.old ≤ H.reads host.new }
    {
        let place = self.end;
        let size = match look(host, self.file, place) {
            Ok(Some(size)) => size,
            Ok(None) => {
                self.ready = true;
                return Ok(None);
            }
            Err(fault) => return Err(fault),
        };
        let most = smaller(head.len(), size);
        match read_full(host, self.file, place + 9, &mut head[..most]) {
            Ok(_) => {}
            Err(_) => return Err(FrameFault::Disk),
        }
        let next = place + 9 + size;
        self.end = next;
        self.ready = false;
        Ok(Some(Head {
            place,
            length: size,
            next,
        }))
    }

    /// Reads the payload of the frame at a place into `out`, in place of what stood there, and
    /// answers the place of the next gate. None says that no open gate stands at the place. None
    /// and a fault leave `out` as it was.
    pub fn read<H: Host>(
        &self,
        host: &mut H,
        place: u64,
        out: &mut Vec<u8>,
    ) -> Result<Option<u64>, FrameFault>
        // A frame is read where one stands.
        ensures some { IfOk result (λ r. IfSome r (λ next. ForSome (H.now host.old) (λ v. HoldsFrame place out.new.items (v self.now.file)))) }
        ensures next { IfOk result (λ r. IfSome r (λ next. next ≡ place + 9 + length out.new.items)) }
        ensures fits { IfOk result (λ r. IfSome r (λ next. next < 2 ^ 62)) }

        // The list's end is told exactly at a closed gate.
        ensures none { IfOk result (λ r. IfNone r (ForSome (H.now host.old) (λ v. IsClosed place (v self.now.file)))) }
        ensures kept { IfOk result (λ r. IfNone r (out.new.items ≡ out.old.items)) }

        // Damage is told exactly where an open gate has no whole frame and one byte more behind it.
        ensures damaged { (p : ℕ) → IsErrOf result (FrameFault.Damaged p) → ForSome (H.now host.old) (λ v. IsTorn p (v self.now.file)) }
        ensures disk { IsErrOf result FrameFault.Disk → Rose (H.disk_faults host.old) (H.disk_faults host.new) }
        ensures faults { IfErr result (λ fault. (fault ≡ FrameFault.Disk) ⊎ (fault ≡ FrameFault.Memory) ⊎ (fault ≡ FrameFault.Damaged place)) }
        ensures err { OnErr result (out.new.items ≡ out.old.items) }

        ensures leaves { LeavesAll H.now H.may H.clock H.since H.said host.old host.new }
        ensures disk_faults { H.disk_faults host.old ≤ H.disk_faults host.new }
        ensures out_faults { H.out_faults host.new ≡ H.out_faults host.old }
        ensures reads { H.reads host.old ≤ H.reads host.new }
        ensures rose { IfOk result (λ r. IfSome r (λ _. Rose (H.reads host.old) (H.reads host.new))) }
    {
        let size = match look(host, self.file, place) {
            Ok(Some(size)) => size,
            Ok(None) => return Ok(None),
            Err(fault) => return Err(fault),
        };
        let mut payload = Vec::new(*out.allocator());
        match payload.resize(size as usize, 0) {
            Ok(_) => {}
            Err(_) => return Err(FrameFault::Memory),
        }
        match read_full(host, self.file, place + 9, &mut payload) {
            Ok(_) => {}
            Err(_) => return Err(FrameFault::Disk),
        }
        *out = payload;
        Ok(Some(place + 9 + size))
    }

    /// Adds a frame at the end of the log, and answers its place. Whatever call fails, and wherever
    /// the run stops, the frame list of the file is the old one, or it and this payload, and reads
    /// of the other files give what they gave. After a fault the log has ended.
    pub fn append<H: Host>(&mut self, host: &mut H, payload: &[u8]) -> Result<u64, FrameFault>
        requires ready { self.old.ready ≡ true }
        requires reaches { ReachesEnd self.old (H.now host.old) }
        ensures place { IfOk result (λ place. place ≡ self.old.end) }
        ensures ok { OnOk result (self.new ≡ record self.old { end = self.old.end + 9 + length payload.now }) }
        ensures err { OnErr result (self.new ≡ record self.old { ended = true }) }

        // An append or a clear that failed on the disk ends the log, and each later call answers Ended and touches
        // nothing.
        ensures ended { (result ≡ Err FrameFault.Ended) ↔ (self.old.ended ≡ true) }
        ensures untouched { self.old.ended ≡ true → host.new ≡ host.old }
        ensures disk { self.old.ended ≡ false → OnErr result
            ((result ≡ Err FrameFault.Disk) × Rose (H.disk_faults host.old) (H.disk_faults host.new)) }

        // After Ok the payload stands at the list's end, and nothing of the file is pending. The bytes in front of its
        // gate and behind the next one are as they were.
        ensures appended { OnOk result (Becomes (H.now host.old) (H.now host.new)
            (InFile self.old.file (Appended self.old.end payload.now self.new.end))) }
        ensures added { OnOk result (Becomes (H.now host.old) (H.now host.new) (InFile self.old.file (Added self.old.end payload.now))) }
        ensures pending { OnOk result (NothingPending self.old.file (H.now host.new) (H.may host.new)) }

        // At each moment the frame list is the one before, or that and the payload.
        ensures leaves { Writes H.now H.may H.clock H.since H.said self.old.file (From self.old.end (Grows payload.now)) host.old host.new }

        // The other files are as in one image that a crash could leave at the start.
        ensures others { Becomes (H.now host.old) (H.now host.new) (InFile self.old.file (λ _ _. ⊤)) }
        ensures reaches { ReachesEnd self.new (H.now host.new) }
        ensures disk_faults { H.disk_faults host.old ≤ H.disk_faults host.new }
        ensures out_faults { H.out_faults host.new ≡ H.out_faults host.old }
        ensures reads { H.reads host.new ≡ H.reads host.old }
    {
        if self.ended {
            return Err(FrameFault::Ended);
        }
        let place = self.end;
        match add(host, self.file, place, payload) {
            Ok(()) => {
                self.end = place + 9 + payload.len() as u64;
                Ok(place)
            }
            Err(failed) => Err(self.fail(failed)),
        }
    }

    /// Ends the log after a failed `append` or `clear`.
    fn fail(&mut self, failed: Failed) -> FrameFault
        ensures ended { self.new ≡ record self.old { ended = true } }
        ensures fault { result ≡ FrameFault.Disk }
    {
        self.ended = true;
        failed.into()
    }

    /// Drops all frames. An open gate at the head of the file is closed, and the rest of the file
    /// stays; a closed gate is never written. Whatever call
    /// fails, and wherever the run stops, the frame list of the file is the old one, an undefined
    /// one included, or has no frame, and reads of the other files give what they gave. After a
    /// fault the log has ended; else it is ready at place 0.
    pub fn clear<H: Host>(&mut self, host: &mut H) -> Result<(), FrameFault>
        ensures ok { OnOk result (self.new ≡ record self.old { end = 0; ready = true }) }
        ensures err { OnErr result (self.new ≡ record self.old { ended = true }) }

        // A clear or an append that failed on the disk ends the log, and each later call answers Ended and touches
        // nothing.
        ensures ended { (result ≡ Err FrameFault.Ended) ↔ (self.old.ended ≡ true) }
        ensures untouched { self.old.ended ≡ true → host.new ≡ host.old }
        ensures disk { self.old.ended ≡ false → OnErr result
            ((result ≡ Err FrameFault.Disk) × Rose (H.disk_faults host.old) (H.disk_faults host.new)) }

        // After Ok the list is empty, and every byte but an open gate is as it was.
        ensures none { OnOk result (Becomes (H.now host.old) (H.now host.new)
            (InFile self.old.file (λ _ bytes. HasPayloads [] bytes))) }
        ensures shut { OnOk result (Becomes (H.now host.old) (H.now host.new) (InFile self.old.file Shut)) }

        // A closed gate is never written.
        ensures closed { ForSome (H.now host.old) (λ v. slice_index (v self.old.file) 0 ≢ 1
            → LeavesAll H.now H.may H.clock H.since H.said host.old host.new) }
        ensures pending { OnOk result (NothingPending self.old.file (H.now host.old) (H.may host.old)
            → NothingPending self.old.file (H.now host.new) (H.may host.new)) }

        // At each moment the list is the one before, or empty.
        ensures leaves { Writes H.now H.may H.clock H.since H.said self.old.file OldOrNone host.old host.new }
        ensures others { Becomes (H.now host.old) (H.now host.new) (InFile self.old.file (λ _ _. ⊤)) }
        ensures reaches { ReachesEnd self.new (H.now host.new) }
        ensures disk_faults { H.disk_faults host.old ≤ H.disk_faults host.new }
        ensures out_faults { H.out_faults host.new ≡ H.out_faults host.old }
        ensures reads { H.reads host.old ≤ H.reads host.new }
    {
        if self.ended {
            return Err(FrameFault::Ended);
        }
        match close(host, self.file) {
            Ok(()) => {
                self.end = 0;
                self.ready = true;
                Ok(())
            }
            Err(failed) => Err(self.fail(failed)),
        }
    }
}

/// The smaller of a room and a size.
fn smaller(room: usize, size: u64) -> usize
    ensures { result ≡ min room size }
{
    if (room as u64) < size {
        room
    } else {
        size as usize
    }
}
