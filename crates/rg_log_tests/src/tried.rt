ghost use Rattle.std.specs.Prelude.{◌≡◌, ◌≤◌, ◌<◌, ◌^◌, [], OnOk, IfOk, IsTrue};
ghost use Rattle.rg_frame.specs.LogState.{ReachesEnd};
ghost use Rattle.rg_reservoir.specs.Kept.{log_of, opened};

use crate::events::{Item, event_of, schema_of};
use crate::row::wrong_unless;
use crate::store::{are_parts, store};
use rg_bytes::Memory;
use rg_event::{Event, Room, Schema, Value};
use rg_growth::Defaults;
use rg_host::{Host, MemHost};
use rg_past::{Past, PastFault, Spot};
use rg_reservoir::{Reservoir, ReservoirFault, Stored};
use std::alloc::Global;

/// What is written to a reservoir.
#[derive(Clone, Copy)]
pub(crate) enum Put<'a> {
    /// An event of this offset, time and values is taken into the open chunk.
    Event(u64, u64, &'a [Item<'a>]),
    /// That chunk is committed.
    Commit,
}

/// An event that a past meets: its offset, and its last value where that is a text, or else none.
#[derive(Clone, Copy)]
pub(crate) struct Met<'a>(pub u64, pub &'a [u8]);

/// What is done with a reservoir, or what it says.
#[derive(Clone, Copy)]
pub(crate) enum Ask<'a> {
    /// A look at this spot shows the event of this offset.
    Shows(Spot, u64),
    /// A load ahead for these spots ends so.
    Ahead(&'a [Spot], Result<(), ReservoirFault>),
    /// Nothing was read since the ask before the last one.
    Still,
    /// So many chunks were loaded, and so many are held.
    Loads(u64, u32),
    /// Whether each of these spots names an event or the end.
    Names(&'a [Spot], Result<bool, ReservoirFault>),
    /// How many events there are, how many are committed, the next offset, and the last time.
    Tells(u64, u64, u64, Option<u64>),
    /// A past over it meets these events from the start on, and then the end.
    Meets(&'a [Met<'a>]),
    /// The log is of these parts, one behind another.
    Log(&'a [&'a [u8]]),
}

/// A reservoir over a log, whose columns have no defaults, and what is asked of it.
#[derive(Clone, Copy)]
pub(crate) struct Case<'a> {
    pub schema: &'a [u8],
    /// How many events a chunk has.
    pub chunk: u32,
    /// How many chunks are held.
    pub cache: u32,
    /// How many events there may be.
    pub limit: u64,
    /// The numbers of the calls of the host that fail.
    pub failing: &'a [u64],
    /// What was written by a reservoir before this one, where that isn't empty.
    pub before: &'a [Put<'a>],
    /// What is written first.
    pub puts: &'a [Put<'a>],
    /// Why it isn't attached, or isn't written to.
    pub fault: Option<ReservoirFault>,
    pub asks: &'a [Ask<'a>],
}

/// A reservoir of chunks of one event, one of which is held.
pub(crate) const CASE: Case<'_> = Case {
    schema: b"",
    chunk: 1,
    cache: 1,
    limit: 100,
    failing: &[],
    before: &[],
    puts: &[],
    fault: None,
    asks: &[],
};

/// A reservoir of the log with this schema, whose columns have no defaults.
fn attach<H: Host>(
    alloc: Global,
    host: &mut H,
    schema: &Schema,
    room: Room,
) -> Result<Reservoir, ReservoirFault>
    requires chunk { (1 ≤ room.chunk) × (room.chunk ≤ 4096) }
    requires cache { (1 ≤ room.cache) × (room.cache ≤ 1024) }
    requires limit { room.limit ≤ 2 ^ 40 }
    ensures reaches { IfOk result (λ r. ReachesEnd (log_of r) (H.now host.new)) }
{
    let defaults = Defaults::none(alloc, schema.fields())?;
    Reservoir::attach(alloc, host, schema, &defaults, room)
}

/// The same of a case; full where there is no such room.
fn attached<H: Host>(
    alloc: Global,
    host: &mut H,
    case: &Case<'_>,
) -> Result<Reservoir, ReservoirFault>
    ensures reaches { IfOk result (λ r. ReachesEnd (log_of r) (H.now host.new)) }
{
    let Case {
        chunk,
        cache,
        limit,
        ..
    } = *case;
    if chunk == 0 || chunk > 4096 || cache == 0 || cache > 1024 || limit > 1000 {
        return Err(ReservoirFault::Full);
    }
    let schema = schema_of(alloc, case.schema)?;
    let room = Room {
        chunk,
        cache,
        limit,
    };
    attach(alloc, host, &schema, room)
}

/// Takes an event into the open chunk.
fn take(
    alloc: Global,
    reservoir: &mut Reservoir,
    offset: u64,
    time: u64,
    items: &[Item<'_>],
) -> Result<(), ReservoirFault>
    ensures { log_of reservoir.new ≡ log_of reservoir.old }
{
    if offset >= 1 << 62 || !reservoir.has_room() {
        return Err(ReservoirFault::Full);
    }
    let event = event_of(alloc, offset, time, items)?;
    reservoir.append(event)
}

fn write<H: Host>(
    alloc: Global,
    reservoir: &mut Reservoir,
    host: &mut H,
    put: &Put<'_>,
) -> Result<(), ReservoirFault>
    requires { ReachesEnd (log_of reservoir.old) (H.now host.old) }
    ensures { OnOk result (ReachesEnd (log_of reservoir.new) (H.now host.new)) }
{
    match put {
        Put::Event(offset, time, items) => take(alloc, reservoir, *offset, *time, items),
        Put::Commit => reservoir.commit(host),
    }
}

fn write_each<H: Host>(
    alloc: Global,
    reservoir: &mut Reservoir,
    host: &mut H,
    puts: &[Put<'_>],
) -> Result<(), ReservoirFault>
    requires { ReachesEnd (log_of reservoir.old) (H.now host.old) }
{
    for put in puts {
        write(alloc, reservoir, host, put)?;
    }
    Ok(())
}

/// A reservoir of a case to which that was written.
fn written<H: Host>(
    alloc: Global,
    host: &mut H,
    case: &Case<'_>,
    puts: &[Put<'_>],
) -> Result<Reservoir, ReservoirFault> {
    let mut reservoir = attached(alloc, host, case)?;
    match write_each(alloc, &mut reservoir, host, puts) {
        Ok(()) => Ok(reservoir),
        Err(fault) => Err(fault),
    }
}

/// Whether the event of a spot has this offset.
fn shows(reservoir: &mut Reservoir, host: &mut MemHost, spot: Spot, offset: u64) -> bool {
    let mut spot = spot;
    if spot.number > reservoir.count() {
        return false;
    }
    match reservoir.peek(host, &mut spot) {
        Ok(Some(event)) => event.offset == offset,
        _ => false,
    }
}

/// Whether its open chunk is empty.
fn is_closed(reservoir: &Reservoir) -> bool
    ensures { IsTrue result → opened reservoir.now ≡ [] }
{
    reservoir.count() == reservoir.committed()
}

/// Whether the question if each of these spots names an event or the end is answered so.
fn names(
    reservoir: &Reservoir,
    host: &mut MemHost,
    spots: &[Spot],
    want: Result<bool, ReservoirFault>,
) -> bool {
    is_closed(reservoir) && reservoir.names(host, spots) == want
}

fn is_met(event: &Event, met: &Met<'_>) -> bool {
    let text = match event.values.as_slice().last() {
        Some(Value::Text(word)) => word.as_bytes(),
        _ => b"",
    };
    event.offset == met.0 && text == met.1
}

/// Whether these events are met from the start on, and then the end.
fn walk<P: Past>(past: &mut P, list: &[Met<'_>]) -> Result<bool, PastFault> {
    let mut spot = past.start();
    for met in list {
        match past.peek(&mut spot)? {
            Some(event) => {
                if !is_met(event, met) {
                    return Ok(false);
                }
                past.advance(&mut spot);
            }
            None => return Ok(false),
        }
    }
    Ok(past.peek(&mut spot)?.is_none())
}

/// Whether it goes so of the past over a reservoir.
fn meets(reservoir: &mut Reservoir, host: &mut MemHost, list: &[Met<'_>]) -> bool {
    let mut past = Stored::new(reservoir, host);
    walk(&mut past, list) == Ok(true)
}

fn tells(
    reservoir: &Reservoir,
    count: u64,
    committed: u64,
    next: u64,
    last_time: Option<u64>,
) -> bool {
    reservoir.count() == count
        && reservoir.committed() == committed
        && reservoir.next_offset() == next
        && reservoir.last_time() == last_time
}

/// Whether an ask goes so, before which so many reads were made at the ask before.
fn goes(reservoir: &mut Reservoir, host: &mut MemHost, ask: &Ask<'_>, reads: u64) -> bool {
    match ask {
        Ask::Shows(spot, offset) => shows(reservoir, host, *spot, *offset),
        Ask::Ahead(spots, want) => reservoir.ahead(host, spots) == *want,
        Ask::Still => host.count_reads() == reads,
        Ask::Loads(loads, held) => reservoir.loads() == *loads && reservoir.held() == *held,
        Ask::Names(spots, want) => names(reservoir, host, spots, *want),
        Ask::Tells(count, committed, next, last_time) => {
            tells(reservoir, *count, *committed, *next, *last_time)
        }
        Ask::Meets(list) => meets(reservoir, host, list),
        Ask::Log(parts) => are_parts(host.file(2), parts),
    }
}

/// The number of the first ask that goes otherwise, from 1, if one does.
fn first_other(reservoir: &mut Reservoir, host: &mut MemHost, asks: &[Ask<'_>]) -> Option<usize> {
    let mut number = 1usize;
    let mut reads = 0u64;
    for ask in asks {
        let now = host.count_reads();
        if !goes(reservoir, host, ask, reads) {
            return Some(number);
        }
        number = number.saturating_add(1);
        reads = now;
    }
    None
}

/// The same of a case over a host; 0 where the reservoir isn't attached and written to so.
fn first_wrong(alloc: Global, host: &mut MemHost, case: &Case<'_>) -> Option<usize> {
    match written(alloc, host, case, case.puts) {
        Ok(mut reservoir) => {
            let other = first_other(&mut reservoir, host, case.asks);
            drop(reservoir);
            if case.fault.is_none() { other } else { Some(0) }
        }
        Err(fault) => wrong_unless(case.fault == Some(fault)),
    }
}

/// The same where something may be written before that.
fn wrong_over(alloc: Global, host: &mut MemHost, case: &Case<'_>) -> Option<usize> {
    if !case.before.is_empty() && written(alloc, host, case, case.before).is_err() {
        return Some(0);
    }
    first_wrong(alloc, host, case)
}

/// The same of a case over a log of these bytes.
pub(crate) fn case_wrong(
    alloc: Global,
    log: &[u8],
    case: &Case<'_>,
) -> Result<Option<usize>, Memory> {
    let mut host = store(alloc, b"", b"", log, case.failing)?;
    let wrong = wrong_over(alloc, &mut host, case);
    drop(host);
    Ok(wrong)
}
