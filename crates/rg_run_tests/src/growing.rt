use crate::payload::{BASE, CHANGE};
use crate::rows::{Checks, Row, assert_each};
use crate::started::{Call, answers_by};
use crate::store::{AT_TWO, File, Files, OF_TWO, OF_TWO_LONGER, calls_of, host_of};
use rg_bytes::Memory;
use rg_host::{MemHost, Pick};
use rg_open::{OpenFault, Resumed};
use std::alloc::Global;
use std::test::Fail;

/// The number and the sum of a card's payments within five minutes, where the payments have a country, and earlier ones
/// `??`.
const LONGER: &str =
    "queries = [\"SELECT count(*), sum(amount) FROM payments GROUP BY card OVER SLIDING 5 minutes\"]\n\n[stream]\nname = \"payments\"\ncolumns = [\"ts\", \"card:text\", \"merchant:text\", \"amount:int\", \"country:text\"]\n\n[stream.defaults]\ncountry = \"??\"\n";

/// The checkpoint of both payments, and that of the first one.
const BOTH: File = File::Of(&[BASE, CHANGE]);

const FIRST: File = File::Of(&[BASE]);

/// The files of a store of two payments before its log grows, and then.
const BEFORE: Files = &[BOTH, FIRST, OF_TWO];

const GROWN: Files = &[BOTH, FIRST, OF_TWO_LONGER];

/// An opening that goes on from both payments.
const GOES_ON: Call<'static> = Call::Open(Ok(Resumed { from: 2, ..AT_TWO }));

/// An opening that a failed call of the disk ended.
const FAILS: Call<'static> = Call::Open(Err(OpenFault::Disk));

/// What may be left of the bytes that were pending: the old ones, the new ones, or others.
const PICKS: &[Pick] = &[
    Pick::Old,
    Pick::New,
    Pick::Torn(0),
    Pick::Torn(1),
    Pick::Torn(255),
];

/// Hosts with those files.
#[derive(Clone, Copy)]
struct Hosts<'a> {
    before: &'a MemHost,
    grown: &'a MemHost,
}

/// The first so many bytes of the log, none where it has fewer.
fn front(host: &MemHost, end: usize) -> &[u8] {
    host.file(2).get(..end).unwrap_or(b"")
}

/// Whether a host has these slots and this front of the log, up to its closed gate.
fn are_kept(host: &MemHost, before: &MemHost, end: usize, checks: &mut Checks) -> bool {
    checks.same_bytes("slot 0", host.file(0), before.file(0))
        && checks.same_bytes("slot 1", host.file(1), before.file(1))
        && checks.same_bytes("front of the log", front(host, end), front(before, end))
}

impl Hosts<'_> {
    /// Whether a host has these slots and the longer log, or the first one, behind whose frames a closed gate stands,
    /// and then any bytes.
    fn are_left(&self, host: &MemHost, checks: &mut Checks) -> bool {
        let end = self.before.file(2).len().saturating_sub(1);
        are_kept(host, self.before, end, checks)
            && (host.file(2).get(end) != Some(&1)
                || checks.same_bytes("log", host.file(2), self.grown.file(2)))
    }

    /// Whether an opening on this host goes on from both payments, and leaves the longer log.
    fn goes_on(
        &self,
        alloc: Global,
        host: &mut MemHost,
        checks: &mut Checks,
    ) -> Result<bool, Memory> {
        let goes_on = answers_by(alloc, LONGER, GOES_ON, host, checks)?;
        Ok(goes_on && checks.same_bytes("log", host.file(2), self.grown.file(2)))
    }

    /// Whether a stop after so many calls on this host leaves these files, by this pick, and an opening over them goes
    /// on.
    fn stops_well(
        &self,
        alloc: Global,
        host: &MemHost,
        calls: u64,
        pick: Pick,
        checks: &mut Checks,
    ) -> Result<bool, Memory> {
        if calls > host.calls() {
            return Ok(checks.fails("calls", host.calls(), calls));
        }
        let mut left = host.stop_image(calls, pick)?;
        let are_left = self.are_left(&left, checks);
        let goes_on = self.goes_on(alloc, &mut left, checks);
        drop(left);
        let is_well = goes_on? && are_left;
        Ok(checks.at(is_well, "stop", (calls, pick)))
    }

    /// Whether it does so by each pick.
    fn stops_always_well(
        &self,
        alloc: Global,
        host: &MemHost,
        calls: u64,
        checks: &mut Checks,
    ) -> Result<bool, Memory> {
        for pick in PICKS {
            if !self.stops_well(alloc, host, calls, *pick, checks)? {
                return Ok(false);
            }
        }
        Ok(true)
    }

    /// Whether an opening on this host answers so, and a stop just in front of this call and one behind all leave these
    /// files.
    fn ends_well(
        &self,
        alloc: Global,
        host: &mut MemHost,
        opening: Call<'_>,
        call: u64,
        checks: &mut Checks,
    ) -> Result<bool, Memory> {
        let answers = answers_by(alloc, LONGER, opening, host, checks)?;
        let is_well = self.stops_always_well(alloc, host, call, checks)?
            && self.stops_always_well(alloc, host, host.calls(), checks)?;
        Ok(answers && is_well)
    }

    /// Whether it ends so on a host with the first log, where this call fails of the opening, or none where it isn't
    /// one of so many.
    fn fails_well(
        &self,
        alloc: Global,
        call: u64,
        calls: u64,
        checks: &mut Checks,
    ) -> Result<bool, Memory> {
        let opening = if call < calls { FAILS } else { GOES_ON };
        let mut host = host_of(alloc, BEFORE, &[call])?;
        let is_well = self.ends_well(alloc, &mut host, opening, call, checks);
        drop(host);
        Ok(checks.at(is_well?, "failing call", call))
    }

    /// Whether it ends so whichever call of that opening fails.
    fn fails_always_well(&self, alloc: Global, checks: &mut Checks) -> Result<bool, Memory> {
        let Some(calls) = calls_of(alloc, BEFORE, LONGER, GOES_ON, checks)? else {
            return Ok(false);
        };
        for call in 0..=calls {
            if !self.fails_well(alloc, call, calls, checks)? {
                return Ok(false);
            }
        }
        Ok(true)
    }
}

/// Whether it ends so where these are the files before.
fn is_so_with(alloc: Global, before: &MemHost, checks: &mut Checks) -> Result<bool, Memory> {
    let grown = host_of(alloc, GROWN, &[])?;
    let hosts = Hosts {
        before,
        grown: &grown,
    };
    let is_so = hosts.fails_always_well(alloc, checks);
    drop(grown);
    is_so
}

/// The one row: a growth that is cut short.
#[derive(Clone, Copy)]
struct CutShort;

impl Row for CutShort {
    fn is_so(&self, rt: HostRuntime, checks: &mut Checks) -> Result<bool, Memory> {
        let before = host_of(rt.alloc(), BEFORE, &[])?;
        let is_so = is_so_with(rt.alloc(), &before, checks);
        drop(before);
        is_so
    }
}

#[test]
fn a_growth_that_is_cut_short_is_there_or_comes_with_the_next_opening(
    rt: HostRuntime,
) -> Result<(), Fail> {
    assert_each(&rt, rt, &[CutShort])
}
