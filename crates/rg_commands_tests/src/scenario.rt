use super::changes::{Change, changed};
use super::setting::{Call, Row, assert_put, assert_row, status_on, text_behind};
use rg_host::{Image, MemHost, Pick};
use rg_messages::Status;
use std::alloc::Global;
use std::process::Abort;
use std::test::Fail;

/// What is left on a host.
#[derive(Clone, Copy)]
pub(super) enum Left<'a> {
    /// At this place of a file, and behind it, stand just these bytes.
    End(u32, usize, &'a [u8]),
    /// At this place of a file stand these bytes.
    At(u32, usize, &'a [u8]),
    /// The first so many bytes of a file are those of these.
    Front(u32, usize, &'a [u8]),
    /// So many calls were made on the host.
    Calls(u64),
}

/// A call, and what is wanted of it where one of its own calls on a host fails: one on a file, or a put.
#[derive(Clone, Copy)]
pub(super) struct Failing<'a> {
    pub(super) whole: Call<'a>,
    pub(super) disk: Call<'a>,
    pub(super) put: Call<'a>,
    /// How many of its calls are puts. Some call is none.
    pub(super) puts: u64,
    /// Whether the last of its calls has to be one.
    pub(super) puts_last: bool,
}

/// Two calls, of which the first reads more often than the second.
#[derive(Clone, Copy)]
pub(super) struct Reading<'a> {
    pub(super) more: Call<'a>,
    pub(super) fewer: Call<'a>,
}

/// A store, and what is called over it. Each call puts what is wanted, and ends so.
#[derive(Clone, Copy)]
pub(super) struct Scenario<'a> {
    /// What the scenario shows.
    pub(super) says: &'a str,
    /// The bytes of the log at first. Both slots are empty.
    pub(super) log: &'a [u8],
    /// The numbers of the calls on the host that fail in the runs.
    pub(super) failing: &'a [u64],
    /// Calls over this store, each over what the one before left, without changes of its own.
    pub(super) runs: &'a [Call<'a>],
    /// What they leave.
    pub(super) left: &'a [Left<'a>],
    /// Calls, each over what the runs left and its own changes.
    pub(super) calls: &'a [Call<'a>],
    /// Whether each of those leaves the files as they were.
    pub(super) stays: bool,
    /// Calls over what the runs left, of which each call on the host fails in turn.
    pub(super) fails: &'a [Failing<'a>],
    /// Pairs of calls, each over what the runs left.
    pub(super) reads: &'a [Reading<'a>],
}

/// An empty store, over which nothing is called.
pub(super) const EMPTY: Scenario<'static> = Scenario {
    says: "",
    log: b"",
    failing: &[],
    runs: &[],
    left: &[],
    calls: &[],
    stays: false,
    fails: &[],
    reads: &[],
};

/// The same, where each call leaves the files as they were.
pub(super) const STAYS: Scenario<'static> = Scenario {
    stays: true,
    ..EMPTY
};

/// How many calls were made on a host, and how many of them were reads.
#[derive(Clone, Copy)]
struct Counts {
    calls: u64,
    reads: u64,
}

/// A host whose log has these bytes, and on which these calls fail.
pub(super) fn host_of(alloc: Global, log: &[u8], failing: &[u64]) -> Result<MemHost, Fail> {
    let mut image = Image::new(alloc);
    image.set(2, log.to_vec(alloc)?)?;
    Ok(MemHost::new(alloc, image, failing.to_vec(alloc)?)?)
}

/// What is changed of a file before a call.
fn changes_of<'a>(call: &Call<'a>, file: u32) -> &'a [Change<'a>] {
    match file {
        0 => call.slot,
        2 => call.log,
        _ => &[],
    }
}

/// Gives an image the files of this host with a call's changes.
fn set_changed(
    alloc: Global,
    image: &mut Image,
    files: &MemHost,
    call: &Call<'_>,
) -> Result<(), Fail> {
    for file in 0..3 {
        image.set(
            file,
            changed(alloc, files.file(file), changes_of(call, file))?,
        )?;
    }
    Ok(())
}

/// A host with the files of this one and a call's changes, on which these calls fail.
fn host_for(
    alloc: Global,
    files: &MemHost,
    failing: &[u64],
    call: &Call<'_>,
) -> Result<MemHost, Fail> {
    let mut image = Image::new(alloc);
    set_changed(alloc, &mut image, files, call)?;
    Ok(MemHost::new(alloc, image, failing.to_vec(alloc)?)?)
}

pub(super) fn have_same_bytes(one: &MemHost, other: &MemHost) -> bool {
    for file in 0..3 {
        if one.file(file) != other.file(file) {
            return false;
        }
    }
    true
}

/// The bytes of a file from this place on; none where it ends before.
fn bytes_from(host: &MemHost, file: u32, at: usize) -> Option<&[u8]> {
    if file < 3 {
        host.file(file).get(at..)
    } else {
        None
    }
}

/// Whether that is left on a host.
pub(super) fn is_left(host: &MemHost, left: Left<'_>) -> bool {
    match left {
        Left::End(file, at, bytes) => bytes_from(host, file, at) == Some(bytes),
        Left::At(file, at, bytes) => match bytes_from(host, file, at) {
            Some(rest) => rest.starts_with(bytes),
            None => false,
        },
        Left::Front(file, size, bytes) => match bytes_from(host, file, 0) {
            Some(all) => size <= bytes.len() && all.get(..size) == bytes.get(..size),
            None => false,
        },
        Left::Calls(count) => host.calls() == count,
    }
}

/// A call on this host puts what is wanted behind what was put before, and ends so.
fn assert_on(
    rt: &(impl Abort + AllocGlobal),
    row: Row<'_>,
    call: &Call<'_>,
    host: &mut MemHost,
) -> Result<(), Fail> {
    let before = host.output().len();
    let status = status_on(rt.alloc(), call, host)?;
    assert_put(rt, row, call, text_behind(host, before), status)
}

fn assert_runs(
    rt: &(impl Abort + AllocGlobal),
    scenario: &Scenario<'_>,
    host: &mut MemHost,
) -> Result<(), Fail> {
    let says = scenario.says;
    for (number, run) in scenario.runs.iter().enumerate() {
        assert_on(rt, Row { says, number }, run, host)?;
    }
    Ok(())
}

/// What the runs leave.
pub(super) fn left_by(
    rt: &(impl Abort + AllocGlobal),
    scenario: &Scenario<'_>,
) -> Result<MemHost, Fail> {
    let mut host = host_of(rt.alloc(), scenario.log, scenario.failing)?;
    match assert_runs(rt, scenario, &mut host) {
        Ok(()) => Ok(host),
        Err(fail) => Err(fail),
    }
}

fn assert_left(rt: &impl Abort, scenario: &Scenario<'_>, host: &MemHost) -> Result<(), Fail> {
    let says = scenario.says;
    for (number, left) in scenario.left.iter().enumerate() {
        assert_row(rt, Row { says, number }, "it is left", is_left(host, *left))?;
    }
    Ok(())
}

/// Whether a host has the files that it had at first.
fn are_kept(host: &MemHost) -> Result<bool, Fail> {
    let first = host.stop_image(0, Pick::Old)?;
    let are_same = have_same_bytes(host, &first);
    drop(first);
    Ok(are_same)
}

/// A call on this host, which has to leave the files if it says so.
fn assert_counted(
    rt: &(impl Abort + AllocGlobal),
    row: Row<'_>,
    call: &Call<'_>,
    stays: bool,
    host: &mut MemHost,
) -> Result<Counts, Fail> {
    assert_on(rt, row, call, host)?;
    let is_kept = !stays || are_kept(host)?;
    assert_row(rt, row, "the files stay", is_kept)?;
    Ok(Counts {
        calls: host.calls(),
        reads: host.count_reads(),
    })
}

/// The same over these files with the call's changes, on a host whose calls of these numbers fail.
fn assert_over(
    rt: &(impl Abort + AllocGlobal),
    row: Row<'_>,
    files: &MemHost,
    failing: &[u64],
    call: &Call<'_>,
    stays: bool,
) -> Result<Counts, Fail> {
    let mut host = host_for(rt.alloc(), files, failing, call)?;
    let counts = assert_counted(rt, row, call, stays, &mut host);
    drop(host);
    counts
}

fn assert_calls(
    rt: &(impl Abort + AllocGlobal),
    scenario: &Scenario<'_>,
    files: &MemHost,
) -> Result<(), Fail> {
    let says = scenario.says;
    for (number, call) in scenario.calls.iter().enumerate() {
        let row = Row { says, number };
        assert_over(rt, row, files, &[], call, scenario.stays)?;
    }
    Ok(())
}

/// Whether the call of this number that a call makes is a put: where it fails, that is told.
fn fails_put(alloc: Global, files: &MemHost, number: u64, call: &Call<'_>) -> Result<bool, Fail> {
    let mut host = host_for(alloc, files, &[number], call)?;
    let status = status_on(alloc, call, &mut host);
    drop(host);
    Ok(status? == Status::Write)
}

/// The call of this number that a call makes fails. Gives whether it is a put.
fn assert_fails(
    rt: &(impl Abort + AllocGlobal),
    says: &str,
    files: &MemHost,
    failing: &Failing<'_>,
    number: u64,
) -> Result<bool, Fail> {
    let is_put = fails_put(rt.alloc(), files, number, &failing.whole)?;
    let call = if is_put { &failing.put } else { &failing.disk };
    let row = Row {
        says,
        number: number as usize,
    };
    assert_over(rt, row, files, &[number], call, true)?;
    Ok(is_put)
}

/// Each of them fails in turn.
fn assert_failing(
    rt: &(impl Abort + AllocGlobal),
    says: &str,
    files: &MemHost,
    failing: &Failing<'_>,
) -> Result<(), Fail> {
    let row = Row { says, number: 0 };
    let calls = assert_over(rt, row, files, &[], &failing.whole, true)?.calls;
    let mut puts = 0u64;
    let mut last = 0;
    for number in 0..calls {
        if assert_fails(rt, says, files, failing, number)? {
            puts = puts.saturating_add(1);
            last = number.saturating_add(1);
        }
    }
    let is_last = last == calls || !failing.puts_last;
    let are_puts = puts == failing.puts && puts < calls && is_last;
    assert_row(rt, row, "it puts so often", are_puts)
}

fn assert_reading(
    rt: &(impl Abort + AllocGlobal),
    says: &str,
    files: &MemHost,
    reading: &Reading<'_>,
) -> Result<(), Fail> {
    let row = Row { says, number: 0 };
    let more = assert_over(rt, row, files, &[], &reading.more, false)?.reads;
    let fewer = assert_over(rt, row, files, &[], &reading.fewer, false)?.reads;
    assert_row(rt, row, "it reads more often", more > fewer)
}

/// What is said of what the runs left holds.
fn assert_behind(
    rt: &(impl Abort + AllocGlobal),
    scenario: &Scenario<'_>,
    files: &MemHost,
) -> Result<(), Fail> {
    assert_left(rt, scenario, files)?;
    assert_calls(rt, scenario, files)?;
    for failing in scenario.fails {
        assert_failing(rt, scenario.says, files, failing)?;
    }
    for reading in scenario.reads {
        assert_reading(rt, scenario.says, files, reading)?;
    }
    Ok(())
}

fn assert_scenario(rt: &(impl Abort + AllocGlobal), scenario: &Scenario<'_>) -> Result<(), Fail> {
    let files = left_by(rt, scenario)?;
    let done = assert_behind(rt, scenario, &files);
    drop(files);
    done
}

/// All that these scenarios say holds.
pub(super) fn assert_all(
    rt: &(impl Abort + AllocGlobal),
    scenarios: &[Scenario<'_>],
) -> Result<(), Fail> {
    for scenario in scenarios {
        assert_scenario(rt, scenario)?;
    }
    Ok(())
}
