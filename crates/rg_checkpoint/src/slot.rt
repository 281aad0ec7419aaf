ghost use Rattle.std.specs.Prelude.{◌<◌, IfOk, OnErr};
ghost use Rattle.rg_bytes.specs.Counts.{Rose};
ghost use Rattle.rg_checkpoint.specs.OnlyRead.{OnlyReads, IsReadFault};
ghost use Rattle.rg_checkpoint.specs.Reached.{IsFound, IsBegun, IsReadSlot, IsStage};
ghost use Rattle.rg_checkpoint.specs.Rewritten.{IsRewriting, IsRewritten};

use crate::applying::apply_changes;
use crate::base::Checkpoint;
use crate::decode::decode_checkpoint;
use crate::fault::{CheckpointFault, SlotFault};
use crate::sizes::SlotSizes;
use rg_frame::{FrameFault, FrameLog};
use rg_host::{Failed, Host};
use std::alloc::Global;

/// The log of a complete slot, which has come to the end of its frames, and their sizes.
#[derive(Drop)]
pub(crate) struct SlotEnd {
    pub(crate) log: FrameLog,
    pub(crate) sizes: SlotSizes,
}

/// What is read of a slot: the checkpoint that its frames say, and where they end.
#[derive(Drop)]
pub(crate) struct Read {
    pub(crate) checkpoint: Checkpoint,
    pub(crate) end: SlotEnd,
}

/// What stands behind the frames that were read.
#[derive(Drop)]
enum Found {
    /// One frame more, with this payload.
    Payload(Vec<u8>),
    /// No open gate, so they are all.
    End,
    /// An open gate without a whole frame, so the file has no frame list.
    Torn,
}

/// Where the reading of a slot stands.
#[derive(Clone, Copy, PartialEq, Eq)]
enum Stage {
    /// One change payload more was applied.
    Goes,
    /// All frames were read.
    Complete,
    /// The slot isn't complete.
    Incomplete,
}

/// The checkpoint of a slot, and where its frames end; none where the slot isn't complete. Of its
/// payloads one at a time is in memory.
pub(crate) fn read_slot<H: Host>(
    alloc: Global,
    host: &mut H,
    file: u32,
) -> Result<Option<Read>, SlotFault>
    requires { file < 8 }
    ensures slot { IfOk result (IsReadSlot (H.now host.old) file) }
    ensures fault { IsReadFault result (Rose (H.disk_faults host.old) (H.disk_faults host.new)) }
    ensures quiet { OnlyReads H.now H.may H.clock H.since H.said H.disk_faults H.out_faults H.reads host.old host.new }
{
    let mut log = FrameLog::new(file);
    let payload = match next_payload(alloc, host, &mut log) {
        Ok(Found::Payload(payload)) => payload,
        Ok(Found::End) => return Ok(None),
        Ok(Found::Torn) => return Ok(None),
        Err(fault) => return Err(fault),
    };
    let checkpoint = match decode_checkpoint(alloc, &payload) {
        Ok(checkpoint) => checkpoint,
        Err(CheckpointFault::BadCheckpoint) => return Ok(None),
        Err(CheckpointFault::Memory) => return Err(SlotFault::Memory),
    };
    let sizes = SlotSizes::of_base(payload.len() as u64);
    let end = SlotEnd { log, sizes };
    read_changes(alloc, host, Read { checkpoint, end })
}

/// Reads the change payloads behind a base payload, and applies each of them.
fn read_changes<H: Host>(
    alloc: Global,
    host: &mut H,
    begun: Read,
) -> Result<Option<Read>, SlotFault>
    requires { IsBegun (H.now host.old) begun.end.log.file begun }
    ensures slot { IfOk result (IsReadSlot (H.now host.old) begun.end.log.file) }
    ensures fault { IsReadFault result (Rose (H.disk_faults host.old) (H.disk_faults host.new)) }
    ensures quiet { OnlyReads H.now H.may H.clock H.since H.said H.disk_faults H.out_faults H.reads host.old host.new }
{
    let mut read = begun;
    'frames: loop {
        match read_change(alloc, host, &mut read) {
            Ok(Stage::Goes) => {}
            Ok(Stage::Complete) => return Ok(Some(read)),
            Ok(Stage::Incomplete) => return Ok(None),
            Err(fault) => return Err(fault),
        }
    }
}

/// Reads one change payload more, if there is one, and applies it.
fn read_change<H: Host>(alloc: Global, host: &mut H, read: &mut Read) -> Result<Stage, SlotFault>
    requires { IsBegun (H.now host.old) read.old.end.log.file read.old }
    ensures stage { IfOk result (IsStage (H.now host.old) read.old.end.log.file read.old read.new) }
    ensures fault { IsReadFault result (Rose (H.disk_faults host.old) (H.disk_faults host.new)) }
    ensures quiet { OnlyReads H.now H.may H.clock H.since H.said H.disk_faults H.out_faults H.reads host.old host.new }
{
    let payload = match next_payload(alloc, host, &mut read.end.log) {
        Ok(Found::Payload(payload)) => payload,
        Ok(Found::End) => return Ok(Stage::Complete),
        Ok(Found::Torn) => return Ok(Stage::Incomplete),
        Err(fault) => return Err(fault),
    };
    match apply_changes(alloc, &payload, &mut read.checkpoint) {
        Ok(()) => {}
        Err(CheckpointFault::BadCheckpoint) => return Ok(Stage::Incomplete),
        Err(CheckpointFault::Memory) => return Err(SlotFault::Memory),
    }
    read.end.sizes = read.end.sizes.with_change(payload.len() as u64);
    Ok(Stage::Goes)
}

/// Reads the payload at which a log stands, if there is one, and moves the log behind it.
fn next_payload<H: Host>(
    alloc: Global,
    host: &mut H,
    log: &mut FrameLog,
) -> Result<Found, SlotFault>
    ensures found { IfOk result (IsFound (H.now host.old) log.old log.new) }
    ensures fault { IsReadFault result (Rose (H.disk_faults host.old) (H.disk_faults host.new)) }
    ensures quiet { OnlyReads H.now H.may H.clock H.since H.said H.disk_faults H.out_faults H.reads host.old host.new }
{
    let head = match log.step(host, &mut []) {
        Ok(Some(head)) => head,
        Ok(None) => return Ok(Found::End),
        Err(FrameFault::Damaged(_)) => return Ok(Found::Torn),
        Err(_) => return Err(SlotFault::Disk),
    };
    let mut payload = Vec::new(alloc);
    match log.read(host, head.place, &mut payload) {
        Ok(Some(next)) => {
            if next != head.next {
                return Ok(Found::Torn);
            }
            Ok(Found::Payload(payload))
        }
        Ok(None) => Ok(Found::Torn),
        Err(FrameFault::Damaged(_)) => Ok(Found::Torn),
        Err(FrameFault::Disk) => Err(SlotFault::Disk),
        Err(FrameFault::Memory) => Err(SlotFault::Memory),
        Err(FrameFault::Ended) => Err(SlotFault::Memory),
    }
}

/// Drops the frames of a file, and writes this payload as its only frame. Answers where that ends.
pub(crate) fn rewrite<H: Host>(host: &mut H, file: u32, payload: &[u8]) -> Result<SlotEnd, Failed>
    requires { file < 8 }
    ensures ok { IfOk result (IsRewritten H.now H.may file payload.now host.old host.new) }
    ensures err { OnErr result (Rose (H.disk_faults host.old) (H.disk_faults host.new)) }
    ensures any { IsRewriting H.now H.may H.clock H.since H.said H.disk_faults H.out_faults H.reads file payload.now host.old host.new }
{
    let mut log = FrameLog::new(file);
    match log.clear(host) {
        Ok(()) => {}
        Err(_) => return Err(Failed),
    }
    match log.append(host, payload) {
        Ok(_) => Ok(SlotEnd {
            log,
            sizes: SlotSizes::of_base(payload.len() as u64),
        }),
        Err(_) => Err(Failed),
    }
}
