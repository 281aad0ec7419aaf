ghost use Rattle.std.specs.Prelude.{◌≡◌, ◌⊎◌, ◌≤◌, ◌^◌, IfErr, OnOk, min};
ghost use Rattle.std.specs.Option.{ForSome};
ghost use Rattle.rg_bytes.specs.Counts.{Rose};
ghost use Rattle.rg_reservoir.specs.Heads.{IsPassed, CannotPass, Gathered, GrowsWith};
ghost use Rattle.rg_reservoir.specs.HeadsRead.{HasEntry, IsEntryStop, HasRead, IsReadStop, HasWhole, ReadsOn};
ghost use Rattle.rg_reservoir.specs.Reading.{LeavesLog};

use crate::fault::ReservoirFault;
use crate::growing::Growing;
use crate::view::Growths;
use rg_frame::FrameLog;
use rg_host::Host;
use rg_log::{Entry, EntryFault, LogSoFar};
use std::alloc::Global;

/// A frame that was found: where it stands and ends, and what it is; none where it isn't what its place asks for.
#[derive(Debug, Drop)]
pub struct FoundEntry {
    pub place: u64,
    pub next: u64,
    pub entry: Option<Entry>,
}

/// A log that was read from its start to its end: what its frames say, the growths among them, and where its first chunk
/// would stand.
#[derive(Drop)]
pub struct ReadLog {
    pub so_far: LogSoFar,
    pub growths: Growths,
    pub first: u64,
}

fn shorter(size: u64) -> usize
    ensures { result ≡ min 37 size }
{
    if size < 37 { size as usize } else { 37 }
}

/// What a frame is that no head of a chunk tells: its payload is read whole.
fn whole_entry<H: Host>(
    alloc: Global,
    log: &FrameLog,
    so_far: &LogSoFar,
    host: &mut H,
    place: u64,
) -> Result<Option<Entry>, ReservoirFault>
    ensures whole { HasWhole (H.now host.old) so_far.now.schema place log.now.file (Rose (H.disk_faults host.old) (H.disk_faults host.new)) result }
    ensures reads { H.reads host.old ≤ H.reads host.new }
    ensures leaves { LeavesLog H.now H.may H.clock H.since H.said H.disk_faults H.out_faults host.old host.new }
{
    let mut payload = Vec::new(alloc);
    match log.read(host, place, &mut payload) {
        Ok(Some(_)) => {}
        Ok(None) => return Ok(None),
        Err(fault) => return Err(ReservoirFault::from(fault)),
    }
    match so_far.entry(alloc, &payload) {
        Ok(entry) => Ok(Some(entry)),
        Err(EntryFault::Bad) => Ok(None),
        Err(EntryFault::Memory) => Err(ReservoirFault::Memory),
    }
}

/// Finds the next frame behind those so far, and moves the log on. A chunk is told by its first 37 bytes; the schema's frame
/// and a growth are read whole.
pub(crate) fn next_entry<H: Host>(
    alloc: Global,
    log: &mut FrameLog,
    so_far: &LogSoFar,
    host: &mut H,
) -> Result<Option<FoundEntry>, ReservoirFault>
    ensures found { HasEntry (H.now host.old) (H.now host.new) so_far.now.schema result log.old log.new }
    ensures stops { IsEntryStop (H.now host.old) log.old (Rose (H.disk_faults host.old) (H.disk_faults host.new)) result }
    ensures reads { H.reads host.old ≤ H.reads host.new }
    ensures leaves { LeavesLog H.now H.may H.clock H.since H.said H.disk_faults H.out_faults host.old host.new }
{
    let mut front = [0u8; 37];
    let found = match log.step(host, &mut front) {
        Ok(Some(found)) => found,
        Ok(None) => return Ok(None),
        Err(fault) => return Err(ReservoirFault::from(fault)),
    };
    let place = found.place;
    let next = log.end();
    if let Some(entry) = so_far.chunk(&front[..shorter(found.length)]) {
        return Ok(Some(FoundEntry {
            place,
            next,
            entry: Some(entry),
        }));
    }
    match whole_entry(alloc, log, so_far, host, place) {
        Ok(entry) => Ok(Some(FoundEntry { place, next, entry })),
        Err(fault) => Err(fault),
    }
}

/// Goes on behind a frame that was found, where it may follow those so far.
pub(crate) fn pass_found(
    alloc: Global,
    so_far: &mut LogSoFar,
    found: &FoundEntry,
) -> Result<(), ReservoirFault>
    ensures passed { OnOk result (IsPassed found.now.entry so_far.old so_far.new) }
    ensures few { so_far.old.summary.count ≤ 2 ^ 40 → so_far.new.summary.count ≤ 2 ^ 40 }
    ensures faults { IfErr result (λ fault. ((fault ≡ ReservoirFault.Damaged found.now.place) × CannotPass found.now.entry so_far.old) ⊎ (fault ≡ ReservoirFault.Memory)) }
{
    let entry = match &found.entry {
        Some(entry) => entry,
        None => return Err(ReservoirFault::Damaged(found.place)),
    };
    match so_far.pass(alloc, entry) {
        Ok(()) => Ok(()),
        Err(EntryFault::Bad) => Err(ReservoirFault::Damaged(found.place)),
        Err(EntryFault::Memory) => Err(ReservoirFault::Memory),
    }
}

/// Adds the growth that a frame is, if it is one, to those in front of it. `so_far` is what the frames in front of it say.
fn gather(
    alloc: Global,
    so_far: &LogSoFar,
    growths: &mut Growths,
    found: &FoundEntry,
) -> Result<(), ReservoirFault>
    requires { found.now.place ≤ found.now.next }
    ensures grown { OnOk result (GrowsWith found.now.place found.now.next so_far.now.schema found.now.entry growths.old growths.new) }
    ensures memory { IfErr result (λ fault. fault ≡ ReservoirFault.Memory) }
{
    let (from, growth) = match (&so_far.schema, &found.entry) {
        (Some(from), Some(Entry::Growth(growth))) => (from, growth),
        _ => return Ok(()),
    };
    let growing = Growing {
        place: found.place,
        next: found.next,
        from: from.copy(alloc)?,
        values: growth.values.copy(alloc)?,
    };
    growths.push(growing)?;
    Ok(())
}

/// Takes a frame that was found: gathers the growth that it is, and goes on behind it.
fn take_found(
    alloc: Global,
    so_far: &mut LogSoFar,
    growths: &mut Growths,
    found: FoundEntry,
) -> Result<(), ReservoirFault>
    requires { found.place ≤ found.next }
    ensures passed { OnOk result (IsPassed found.entry so_far.old so_far.new × GrowsWith found.place found.next so_far.old.schema found.entry growths.old growths.new) }
    ensures few { so_far.old.summary.count ≤ 2 ^ 40 → so_far.new.summary.count ≤ 2 ^ 40 }
    ensures faults { IfErr result (λ fault. ((fault ≡ ReservoirFault.Damaged found.place) × CannotPass found.entry so_far.old) ⊎ (fault ≡ ReservoirFault.Memory)) }
{
    match gather(alloc, so_far, growths, &found) {
        Ok(()) => {}
        Err(fault) => return Err(fault),
    }
    pass_found(alloc, so_far, &found)
}

/// Reads the frames from the log's end on to their end, and moves the log behind them.
fn read_on<H: Host>(
    alloc: Global,
    log: &mut FrameLog,
    so_far: &mut LogSoFar,
    growths: &mut Growths,
    host: &mut H,
) -> Result<(), ReservoirFault>
    requires few { so_far.old.summary.count ≤ 2 ^ 40 }
    requires small { log.old.end ≤ 2 ^ 62 }
    requires begun { ForSome (H.now host.old) (λ v. Gathered (v log.old.file) log.old.end so_far.old growths.old) }
    ensures read { ReadsOn (H.now host.old) (H.now host.new) result log.old log.new so_far.new growths.new }
    ensures stops { IsReadStop (H.now host.old) log.old.file (Rose (H.disk_faults host.old) (H.disk_faults host.new)) result }
    ensures leaves { LeavesLog H.now H.may H.clock H.since H.said H.disk_faults H.out_faults host.old host.new }
{
    'frames: loop {
        let found = match next_entry(alloc, log, so_far, host) {
            Ok(Some(found)) => found,
            Ok(None) => return Ok(()),
            Err(fault) => return Err(fault),
        };
        match take_found(alloc, so_far, growths, found) {
            Ok(()) => {}
            Err(fault) => return Err(fault),
        }
    }
}

/// Reads a log from its start to its end, and moves it there: its chunks by their heads, the schema's frame and the growths
/// whole. None comes where it has no frame.
pub(crate) fn read_frames<H: Host>(
    alloc: Global,
    log: &mut FrameLog,
    host: &mut H,
) -> Result<Option<ReadLog>, ReservoirFault>
    requires start { log.old.end ≡ 0 }
    ensures read { HasRead (H.now host.old) (H.now host.new) result log.old log.new }
    ensures stops { IsReadStop (H.now host.old) log.old.file (Rose (H.disk_faults host.old) (H.disk_faults host.new)) result }
    ensures leaves { LeavesLog H.now H.may H.clock H.since H.said H.disk_faults H.out_faults host.old host.new }
{
    let mut so_far = LogSoFar::new();
    let mut growths = Growths::new(alloc);
    let found = match next_entry(alloc, log, &so_far, host) {
        Ok(Some(found)) => found,
        Ok(None) => return Ok(None),
        Err(fault) => return Err(fault),
    };
    let behind = found.next;
    match take_found(alloc, &mut so_far, &mut growths, found) {
        Ok(()) => {}
        Err(fault) => return Err(fault),
    }
    match read_on(alloc, log, &mut so_far, &mut growths, host) {
        Ok(()) => {}
        Err(fault) => return Err(fault),
    }
    let first = growths.passed(behind);
    Ok(Some(ReadLog {
        so_far,
        growths,
        first,
    }))
}
