use super::pieces::Piece;
use super::scenario::{EMPTY, Left, Scenario, assert_all, have_same_bytes, host_of, left_by};
use super::setting::{
    Call, EIGHT, RUN, RUN_EIGHT, RUN_THREE, Row, Wanted, assert_row, assert_wanted, status_on,
    text_behind,
};
use rg_host::{MemHost, Pick};
use rg_messages::Status;
use std::alloc::Global;
use std::process::Abort;
use std::test::Fail;

/// What such a run as below puts for each of the payments, and what it puts at the end. A payment is 3 ms old
/// at the third one behind it, and has then left the first query's window.
const TURNS: &[Piece<'static>] = &[
    Piece::Is("0 ok 1 1\n"),
    Piece::Is("1 ok 2 2\n"),
    Piece::Is("2 ok 3 3\nstored 3\nsaved 3\n"),
    Piece::Is("3 ok 3 4\n"),
    Piece::Is("4 ok 3 5\nstored 5\n"),
    Piece::Is("5 ok 3 6\nstored 6\nsaved 6\n"),
    Piece::Is("6 ok 3 7\n"),
    Piece::Is("7 ok 3 8\n"),
    Piece::Is("stored 8\nsaved 8\ndone 8 8\n"),
];

/// A run over eight payments that asks for the number of recent ones and the sum of all. It commits before the
/// third one, since the chunk is full then, behind it and the sixth, where it saves a checkpoint too, behind the
/// fifth, and at the end. The first checkpoint is a base in slot 0, and the other two come behind it as changes,
/// which are together just as long as the base.
const MIXED: Call<'static> = Call {
    query: "SELECT count(*) FROM payments GROUP BY card OVER SLIDING 3 ms\", \"SELECT sum(amount) FROM payments OVER INFINITE",
    settings: "cache = 1\nchunk = 2\ncommit = 5\nsave = 3\n",
    input: EIGHT,
    wanted: "open 0 0 0\n",
    more_wanted: TURNS,
    ..RUN
};

/// Such a run that nothing stops. It writes a base of 234 bytes and twice 117 bytes of changes.
const WHOLE: Scenario<'static> = Scenario {
    says: "a run that nothing stops puts all",
    runs: &[MIXED],
    left: &[
        Left::End(0, 9 + 234 + 9 + 117 + 9 + 117 + 1, b""),
        Left::End(1, 0, b""),
    ],
    ..EMPTY
};

/// That run.
static RUN_MIXED: Call<'static> = MIXED;

/// The same over an empty store.
static ALONE: Scenario<'static> = WHOLE;

/// What may be left of the bytes that were pending: the old ones, the new ones, or others.
const PICKS: &[Pick] = &[
    Pick::Old,
    Pick::New,
    Pick::Torn(1),
    Pick::Torn(0),
    Pick::Torn(0x37),
    Pick::Torn(255),
];

/// Some of them, for two stops one after the other.
const FEW_PICKS: &[Pick] = &[Pick::Old, Pick::New, Pick::Torn(1)];

/// How far a store has come: the payments below this offset are stored, and a checkpoint of so many
/// is saved.
#[derive(Clone, Copy)]
struct Reached {
    stored: u64,
    saved: u64,
}

const NOTHING: Reached = Reached {
    stored: 0,
    saved: 0,
};

/// How far a store has come by the marks that a run put, where it had come so far before.
fn told(text: &str, before: Reached) -> Reached {
    let mut reached = before;
    for line in text.lines() {
        if let Some(next) = line.strip_prefix("stored ") {
            reached.stored = next.parse().unwrap_or(u64::MAX);
        }
        if let Some(count) = line.strip_prefix("saved ") {
            reached.saved = count.parse().unwrap_or(u64::MAX);
        }
    }
    reached
}

/// An open line, and how far it says that the store has come: what is stored and what is saved.
#[derive(Clone, Copy)]
struct Open<'a>(&'a str, u64, u64);

/// The line of a store without a payment.
const AT_FIRST: Open<'static> = Open("open 0 0 0\n", 0, 0);

/// Those of stores with some of the payments.
const OPENS: &[Open<'static>] = &[
    Open("open 1 1 0\n", 1, 0),
    Open("open 2 2 0\n", 2, 0),
    Open("open 3 3 0\n", 3, 0),
    Open("open 3 3 3\n", 3, 3),
    Open("open 4 4 0\n", 4, 0),
    Open("open 4 4 3\n", 4, 3),
    Open("open 5 5 0\n", 5, 0),
    Open("open 5 5 3\n", 5, 3),
    Open("open 6 6 0\n", 6, 0),
    Open("open 6 6 3\n", 6, 3),
    Open("open 6 6 6\n", 6, 6),
    Open("open 7 7 0\n", 7, 0),
    Open("open 7 7 3\n", 7, 3),
    Open("open 7 7 6\n", 7, 6),
    Open("open 8 8 0\n", 8, 0),
    Open("open 8 8 3\n", 8, 3),
    Open("open 8 8 6\n", 8, 6),
    Open("open 8 8 8\n", 8, 8),
];

/// The open line that a text begins with.
fn found(text: &str) -> Open<'static> {
    for open in OPENS {
        if text.starts_with(open.0) {
            return *open;
        }
    }
    AT_FIRST
}

/// A stop after so many calls of a run, and what is left of the bytes that are pending then. By then the run had told
/// that the store has come so far.
#[derive(Clone, Copy)]
struct Stop {
    calls: u64,
    pick: Pick,
    told: Reached,
}

/// What a stop of this run leaves.
fn stopped(host: &MemHost, stop: Stop) -> Result<MemHost, Fail> {
    if stop.calls > host.calls() {
        return Err(Fail::new("a stop behind the end"));
    }
    Ok(host.stop_image(stop.calls, stop.pick)?)
}

/// What a run puts for the payments from this offset on, and at its end.
fn turns_from(stored: u64) -> &'static [Piece<'static>] {
    let first = (stored as usize).min(TURNS.len());
    &TURNS[first..]
}

fn says_of(pick: Pick) -> &'static str {
    match pick {
        Pick::Old => "a run goes on from old bytes behind so many calls",
        Pick::New => "a run goes on from new bytes behind so many calls",
        Pick::Torn(_) => "a run goes on from torn bytes behind so many calls",
    }
}

fn row_of(stop: Stop) -> Row<'static> {
    Row {
        says: says_of(stop.pick),
        number: stop.calls as usize,
    }
}

/// A run over what this stop left goes on from what it finds as a run that never stopped. Gives what it found.
fn assert_goes_on(
    rt: &(impl Abort + AllocGlobal),
    stop: Stop,
    left: &mut MemHost,
) -> Result<Reached, Fail> {
    let status = status_on(rt.alloc(), &RUN_MIXED, left)?;
    let text = text_behind(left, 0);
    let Open(line, stored, saved) = found(text);
    let wanted = Wanted {
        text: line,
        more: turns_from(stored),
        ends: Status::Ok,
    };
    assert_wanted(rt, row_of(stop), text, status, wanted)?;
    Ok(Reached { stored, saved })
}

/// Files that a stop left, and how far a run over them finds that the store has come.
#[derive(Drop)]
struct Seen {
    files: MemHost,
    reached: Reached,
}

/// What a run over these files found, where there was one before.
fn known(seen: &[Seen], files: &MemHost) -> Option<Reached> {
    for before in seen {
        if have_same_bytes(&before.files, files) {
            return Some(before.reached);
        }
    }
    None
}

/// What a run over what this stop leaves found, where there was one before.
fn found_before(seen: &[Seen], host: &MemHost, stop: Stop) -> Result<Option<Reached>, Fail> {
    let files = stopped(host, stop)?;
    let reached = known(seen, &files);
    drop(files);
    Ok(reached)
}

fn found_anew(
    rt: &(impl Abort + AllocGlobal),
    seen: &mut Vec<Seen>,
    host: &MemHost,
    stop: Stop,
) -> Result<Reached, Fail> {
    let mut left = stopped(host, stop)?;
    let reached = assert_goes_on(rt, stop, &mut left);
    drop(left);
    let reached = reached?;
    let files = stopped(host, stop)?;
    seen.push(Seen { files, reached })?;
    Ok(reached)
}

/// A run over what this stop leaves goes on, and finds all that was told before the stop. Two runs over the same files
/// are the same, so there is one for them.
fn assert_stop(
    rt: &(impl Abort + AllocGlobal),
    seen: &mut Vec<Seen>,
    host: &MemHost,
    stop: Stop,
) -> Result<(), Fail> {
    let reached = match found_before(seen, host, stop)? {
        Some(reached) => reached,
        None => found_anew(rt, seen, host, stop)?,
    };
    let is_there = stop.told.stored <= reached.stored && stop.told.saved <= reached.saved;
    assert_row(rt, row_of(stop), "it has what was told", is_there)
}

/// The same of a stop after so many calls, by each of these picks.
fn assert_stops(
    rt: &(impl Abort + AllocGlobal),
    seen: &mut Vec<Seen>,
    host: &MemHost,
    picks: &[Pick],
    calls: u64,
    told: Reached,
) -> Result<(), Fail> {
    for pick in picks {
        let pick = *pick;
        assert_stop(rt, seen, host, Stop { calls, pick, told })?;
    }
    Ok(())
}

/// How far a run that found that the store had come so far has told that it has come, after so many calls: at its end
/// it has told more.
fn told_after(host: &MemHost, calls: u64, reached: Reached) -> Reached {
    if calls == host.calls() {
        told(text_behind(host, 0), reached)
    } else {
        reached
    }
}

/// Each stop of this run, which found that the store had come so far, goes on.
fn assert_each_stop(
    rt: &(impl Abort + AllocGlobal),
    seen: &mut Vec<Seen>,
    host: &MemHost,
    picks: &[Pick],
    reached: Reached,
) -> Result<(), Fail> {
    for calls in 0..=host.calls() {
        let told = told_after(host, calls, reached);
        assert_stops(rt, seen, host, picks, calls, told)?;
    }
    Ok(())
}

/// A run over these files, to its end.
fn ran_over(alloc: Global, files: &MemHost) -> Result<MemHost, Fail> {
    let mut host = files.stop_image(0, Pick::New)?;
    match status_on(alloc, &RUN_MIXED, &mut host) {
        Ok(_) => Ok(host),
        Err(fail) => Err(fail),
    }
}

/// Each stop of a run over the files at this place of the list goes on.
fn assert_each_stop_over(
    rt: &(impl Abort + AllocGlobal),
    seen: &mut Vec<Seen>,
    place: usize,
) -> Result<(), Fail> {
    let Some(before) = seen.get(place) else {
        return Ok(());
    };
    let reached = before.reached;
    let host = ran_over(rt.alloc(), &before.files)?;
    let done = assert_each_stop(rt, seen, &host, FEW_PICKS, reached);
    drop(host);
    done
}

/// Each stop of this run goes on, and so does each stop of a run that goes on so.
fn assert_stops_twice(
    rt: &(impl Abort + AllocGlobal),
    seen: &mut Vec<Seen>,
    whole: &MemHost,
) -> Result<(), Fail> {
    assert_each_stop(rt, seen, whole, FEW_PICKS, NOTHING)?;
    for place in 0..seen.len() {
        assert_each_stop_over(rt, seen, place)?;
    }
    Ok(())
}

/// The same of a run that nothing stops.
fn assert_whole_stops_twice(
    rt: &(impl Abort + AllocGlobal),
    seen: &mut Vec<Seen>,
) -> Result<(), Fail> {
    let whole = left_by(rt, &ALONE)?;
    let done = assert_stops_twice(rt, seen, &whole);
    drop(whole);
    done
}

#[test]
fn a_run_stopped_twice_goes_on(rt: HostRuntime) -> Result<(), Fail> {
    let mut seen = Vec::new(rt.alloc());
    let done = assert_whole_stops_twice(&rt, &mut seen);
    drop(seen);
    done
}

/// A run of so many calls, of which the call of this number fails, has ended so: it fails exactly where it comes to
/// that call.
fn assert_ends(rt: &impl Abort, call: u64, calls: u64, status: Status) -> Result<(), Fail> {
    let fails = status == Status::Write || status == Status::Disk;
    let row = Row {
        says: "a run fails where a call of its own does",
        number: call as usize,
    };
    assert_row(rt, row, "it ends so", fails == (call < calls))
}

/// A run on this host, whose call of this number fails, fails exactly where it comes to that call. A stop just there,
/// and one behind all calls, goes on, by any pick.
fn assert_fails_at(
    rt: &(impl Abort + AllocGlobal),
    seen: &mut Vec<Seen>,
    call: u64,
    host: &mut MemHost,
) -> Result<(), Fail> {
    let status = status_on(rt.alloc(), &RUN_MIXED, host)?;
    assert_ends(rt, call, host.calls(), status)?;
    let told = told(text_behind(host, 0), NOTHING);
    assert_stops(rt, seen, host, PICKS, call, told)?;
    assert_stops(rt, seen, host, PICKS, host.calls(), told)
}

fn assert_stopped_at(
    rt: &(impl Abort + AllocGlobal),
    seen: &mut Vec<Seen>,
    call: u64,
) -> Result<(), Fail> {
    let mut host = host_of(rt.alloc(), b"", &[call])?;
    let done = assert_fails_at(rt, seen, call, &mut host);
    drop(host);
    done
}

/// How many calls a run makes that nothing stops.
fn calls_of_whole(rt: &(impl Abort + AllocGlobal)) -> Result<u64, Fail> {
    let whole = left_by(rt, &ALONE)?;
    let calls = whole.calls();
    drop(whole);
    Ok(calls)
}

/// The same of each call of a run.
fn assert_stopped_at_any(
    rt: &(impl Abort + AllocGlobal),
    seen: &mut Vec<Seen>,
) -> Result<(), Fail> {
    for call in 0..=calls_of_whole(rt)? {
        assert_stopped_at(rt, seen, call)?;
    }
    Ok(())
}

#[test]
fn a_run_stopped_at_any_call_goes_on(rt: HostRuntime) -> Result<(), Fail> {
    let mut seen = Vec::new(rt.alloc());
    let done = assert_stopped_at_any(&rt, &mut seen);
    drop(seen);
    done
}

/// A run, and what the same run puts over what some stop of it leaves, by this pick.
#[derive(Clone, Copy)]
struct Again<'a> {
    run: Scenario<'a>,
    pick: Pick,
    again: Call<'a>,
}

/// Whether that call over what this stop leaves puts just what is wanted.
fn is_put_behind(
    alloc: Global,
    again: &Call<'_>,
    whole: &MemHost,
    stop: Stop,
) -> Result<bool, Fail> {
    let mut left = stopped(whole, stop)?;
    let status = status_on(alloc, again, &mut left);
    let is_put = text_behind(&left, 0) == again.wanted;
    drop(left);
    Ok(status? == again.ends && is_put)
}

/// Whether it puts that over what some stop of this host leaves.
fn is_put_somewhere(alloc: Global, again: &Again<'_>, whole: &MemHost) -> Result<bool, Fail> {
    let pick = again.pick;
    let told = NOTHING;
    for calls in 0..whole.calls() {
        if is_put_behind(alloc, &again.again, whole, Stop { calls, pick, told })? {
            return Ok(true);
        }
    }
    Ok(false)
}

fn assert_somewhere(rt: &(impl Abort + AllocGlobal), again: &Again<'_>) -> Result<(), Fail> {
    let whole = left_by(rt, &again.run)?;
    let is_put = is_put_somewhere(rt.alloc(), again, &whole);
    drop(whole);
    let row = Row {
        says: again.run.says,
        number: 0,
    };
    assert_row(rt, row, again.again.wanted, is_put?)
}

fn assert_each_somewhere(rt: &(impl Abort + AllocGlobal), rows: &[Again<'_>]) -> Result<(), Fail> {
    for again in rows {
        assert_somewhere(rt, again)?;
    }
    Ok(())
}

/// A run over eight payments in small chunks.
const OF_EIGHT: Scenario<'static> = Scenario {
    says: "a stop in a checkpoint leaves the one before",
    runs: &[RUN_EIGHT],
    ..EMPTY
};

/// A run over three payments in small chunks.
const OF_THREE: Scenario<'static> = Scenario {
    says: "a gate decides whether its chunk is there",
    runs: &[RUN_THREE],
    ..EMPTY
};

const WHOLES: &[Scenario<'static>] = &[WHOLE];

const AGAIN: &[Again<'static>] = &[
    Again {
        run: OF_EIGHT,
        pick: Pick::Torn(0),
        again: Call {
            wanted: "open 8 8 4\nstored 8\nsaved 8\ndone 8 8\n",
            ..RUN_EIGHT
        },
    },
    Again {
        run: OF_THREE,
        pick: Pick::Old,
        again: Call {
            wanted: "open 2 2 0\n2 ok 2 250\nstored 3\nsaved 3\ndone 3 3\n",
            ..RUN_THREE
        },
    },
    Again {
        run: OF_THREE,
        pick: Pick::Torn(0x37),
        again: Call {
            wanted: "open 2 2 0\n2 ok 2 250\nstored 3\nsaved 3\ndone 3 3\n",
            ..RUN_THREE
        },
    },
    Again {
        run: OF_THREE,
        pick: Pick::Torn(1),
        again: Call {
            wanted: "open 3 3 0\nstored 3\nsaved 3\ndone 3 3\n",
            ..RUN_THREE
        },
    },
];

#[test]
fn a_stop_leaves_what_was_complete(rt: HostRuntime) -> Result<(), Fail> {
    assert_all(&rt, WHOLES)?;
    assert_each_somewhere(&rt, AGAIN)
}
