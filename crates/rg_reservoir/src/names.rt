ghost use Rattle.std.specs.Prelude.{◌≡◌, ◌⊎◌, ◌≤◌, ◌^◌, IfOk, IfErr, OnOk, length, count_by};
ghost use Rattle.std.specs.Option.{ForSome};
ghost use Rattle.rg_bytes.specs.Counts.{Rose};
ghost use Rattle.rg_log.specs.Spots.{is_in_chunk, is_at_end};
ghost use Rattle.rg_reservoir.specs.Heads.{IsPassed, CannotPass};
ghost use Rattle.rg_reservoir.specs.HeadsRead.{IsReadStop};
ghost use Rattle.rg_reservoir.specs.Naming.{Left, HasCounted, count_found};
ghost use Rattle.rg_reservoir.specs.Reading.{LeavesLog};

use crate::fault::ReservoirFault;
use crate::heads::{FoundEntry, next_entry, pass_found};
use rg_frame::FrameLog;
use rg_host::Host;
use rg_log::LogSoFar;
use rg_past::Spot;
use std::alloc::Global;

/// How many of the spots name an event of a frame, or where it begins or what follows its events. It stands at that place,
/// behind so many events, and has so many.
fn count_in_chunk(spots: &[Spot], place: u64, before: u64, count: u32) -> usize
    requires { before ≤ 2 ^ 40 }
    ensures { result ≡ count_by (is_in_chunk place before count) spots.now }
{
    spots
        .iter()
        .filter(|spot| {
            spot.place == place
                && spot.index <= count
                && spot.number == before + u64::from(spot.index)
        })
        .count()
}

/// How many of the spots name the end, which is at that place, behind so many events.
fn count_at_end(spots: &[Spot], place: u64, before: u64) -> usize
    ensures { result ≡ count_by (is_at_end place before) spots.now }
{
    spots
        .iter()
        .filter(|spot| { spot.place == place && spot.index == 0 && spot.number == before })
        .count()
}

/// How many of the spots a frame that was found names, behind so many events.
fn count_in_found(spots: &[Spot], found: &FoundEntry, before: u64) -> usize
    requires { before ≤ 2 ^ 40 }
    ensures { result ≡ count_found spots.now found.now.place before found.now.entry }
{
    match &found.entry {
        Some(entry) => count_in_chunk(spots, found.place, before, entry.count()),
        None => 0,
    }
}

/// Goes on behind a frame that was found, where it may follow those so far, and answers how many of the spots it names.
fn count_passed(
    alloc: Global,
    so_far: &mut LogSoFar,
    found: FoundEntry,
    spots: &[Spot],
) -> Result<usize, ReservoirFault>
    requires { so_far.old.summary.count ≤ 2 ^ 40 }
    ensures named { IfOk result (λ named. named ≡ count_found spots.now found.place so_far.old.summary.count found.entry) }
    ensures passed { OnOk result (IsPassed found.entry so_far.old so_far.new) }
    ensures few { so_far.new.summary.count ≤ 2 ^ 40 }
    ensures faults { IfErr result (λ fault. ((fault ≡ ReservoirFault.Damaged found.place) × CannotPass found.entry so_far.old) ⊎ (fault ≡ ReservoirFault.Memory)) }
{
    let before = so_far.summary.count;
    match pass_found(alloc, so_far, &found) {
        Ok(()) => {}
        Err(fault) => return Err(fault),
    }
    Ok(count_in_found(spots, &found, before))
}

/// Goes over the frames from the log's end on, and answers how many of the spots name nothing. `so_far` is what the frames in
/// front say.
fn count_behind<H: Host>(
    alloc: Global,
    log: &mut FrameLog,
    so_far: &mut LogSoFar,
    host: &mut H,
    spots: &[Spot],
) -> Result<usize, ReservoirFault>
    requires few { so_far.old.summary.count ≤ 2 ^ 40 }
    requires small { log.old.end ≤ 2 ^ 62 }
    requires begun { ForSome (H.now host.old) (λ v. Left spots.now log.old.end (length spots.now) so_far.old (v log.old.file)) }
    ensures counts { HasCounted spots.now (H.now host.old) log.old.file result }
    ensures stops { IsReadStop (H.now host.old) log.old.file (Rose (H.disk_faults host.old) (H.disk_faults host.new)) result }
    ensures leaves { LeavesLog H.now H.may H.clock H.since H.said H.disk_faults H.out_faults host.old host.new }
{
    let mut left = spots.len();
    'frames: loop {
        let found = match next_entry(alloc, log, so_far, host) {
            Ok(Some(found)) => found,
            Ok(None) => {
                let named = count_at_end(spots, log.end(), so_far.summary.count);
                return Ok(left.saturating_sub(named));
            }
            Err(fault) => return Err(fault),
        };
        let named = match count_passed(alloc, so_far, found, spots) {
            Ok(named) => named,
            Err(fault) => return Err(fault),
        };
        left = left.saturating_sub(named);
    }
}

/// Goes over the frames of file 2, and answers how many of the spots name nothing by the heads of its chunks and its growths.
pub(crate) fn count_unnamed<H: Host>(
    alloc: Global,
    host: &mut H,
    spots: &[Spot],
) -> Result<usize, ReservoirFault>
    ensures counts { HasCounted spots.now (H.now host.old) 2 result }
    ensures stops { IsReadStop (H.now host.old) 2 (Rose (H.disk_faults host.old) (H.disk_faults host.new)) result }
    ensures leaves { LeavesLog H.now H.may H.clock H.since H.said H.disk_faults H.out_faults host.old host.new }
{
    let mut log = FrameLog::new(2);
    let mut so_far = LogSoFar::new();
    let found = match next_entry(alloc, &mut log, &so_far, host) {
        Ok(Some(found)) => found,
        Ok(None) => return Ok(spots.len()),
        Err(fault) => return Err(fault),
    };
    match pass_found(alloc, &mut so_far, &found) {
        Ok(()) => {}
        Err(fault) => return Err(fault),
    }
    count_behind(alloc, &mut log, &mut so_far, host, spots)
}
