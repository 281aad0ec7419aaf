ghost use Rattle.std.specs.Prelude.{◌≡◌, ◌≢◌, ◌≤◌, ◌^◌, ◌∷◌, [], IfOk, IfErr, IfSome, IfNone, IsTrue, false, Some, None};
ghost use Rattle.rg_bytes.specs.Counts.{Rose};
ghost use Rattle.rg_event.specs.Shapes.{Shape, IsSchema};
ghost use Rattle.rg_growth.specs.Filling.{Given, filled};
ghost use Rattle.rg_growth.specs.Growing.{AreDefaultsOf};
ghost use Rattle.rg_log.specs.Log.{schema_payload};
ghost use Rattle.rg_reservoir.specs.Attached.{IsForeign, IsOther};
ghost use Rattle.rg_reservoir.specs.HeadsRead.{HasRead, IsReadStop};
ghost use Rattle.rg_reservoir.specs.LogOpened.{IsAtEnd, IsAtStart, IsToWrite, LogFound, LogOpened, LogRead, IsLogStop, WritesOpening};
ghost use Rattle.rg_reservoir.specs.Reading.{LeavesLog};
ghost use Rattle.rg_reservoir.specs.Views.{passed};

use crate::fault::ReservoirFault;
use crate::growing::Growing;
use crate::heads::{ReadLog, read_frames};
use crate::view::Growths;
use rg_bytes::Memory;
use rg_event::Schema;
use rg_frame::FrameLog;
use rg_growth::{Defaults, Growth};
use rg_host::Host;
use rg_log::{LogSoFar, LogSummary};
use std::alloc::Global;

/// A log that was read to its end: where its first chunk would stand, the growths in it, and what its heads say.
#[derive(Drop)]
pub struct Opened {
    pub log: FrameLog,
    pub growths: Growths,
    pub first: u64,
    pub tally: LogSummary,
}

/// A log that was read to its end, and the schema in force there.
#[derive(Drop)]
pub struct Found {
    pub schema: Schema,
    pub opened: Opened,
}

/// A growth that a log lacks, and its payload.
#[derive(Drop)]
struct ToWrite {
    growing: Growing,
    payload: Vec<u8>,
}

/// Whether these are the same schema.
pub(crate) fn is_same(alloc: Global, one: &Schema, other: &Schema) -> Result<bool, Memory>
    ensures same { IfOk result (λ is. IsTrue is → one.now ≡ other.now) }
    ensures differs { IfOk result (λ is. is ≡ false → one.now ≢ other.now) }
{
    let mut own = Vec::new(alloc);
    one.write(&mut own)?;
    let mut others = Vec::new(alloc);
    other.write(&mut others)?;
    Ok(own == others)
}

/// Whether that schema is in force.
fn is_in_force(alloc: Global, so_far: &LogSoFar, schema: &Schema) -> Result<bool, Memory>
    ensures same { IfOk result (λ is. IsTrue is → so_far.now.schema ≡ Some schema.now) }
    ensures differs { IfOk result (λ is. is ≡ false → so_far.now.schema ≢ Some schema.now) }
{
    match &so_far.schema {
        Some(known) => is_same(alloc, known, schema),
        None => Ok(false),
    }
}

/// Reads a log from its start to its end, and moves it there. None comes where it has no frame, and a refusal where another
/// schema is in force at its end.
fn read_ours<H: Host>(
    alloc: Global,
    log: &mut FrameLog,
    schema: &Schema,
    host: &mut H,
) -> Result<Option<ReadLog>, ReservoirFault>
    requires start { (log.old.end ≡ 0) × (log.old.file ≡ 2) }
    requires legal { IsSchema schema.now }
    ensures read { HasRead (H.now host.old) (H.now host.new) result log.old log.new }
    ensures ours { IfOk result (λ r. IfSome r (λ read. read.so_far.schema ≡ Some schema.now)) }
    ensures stops { IsLogStop (IsOther schema.now) (H.now host.old) (Rose (H.disk_faults host.old) (H.disk_faults host.new)) result }
    ensures leaves { LeavesLog H.now H.may H.clock H.since H.said H.disk_faults H.out_faults host.old host.new }
{
    let read = match read_frames(alloc, log, host) {
        Ok(Some(read)) => read,
        Ok(None) => return Ok(None),
        Err(fault) => return Err(fault),
    };
    match is_in_force(alloc, &read.so_far, schema) {
        Ok(true) => Ok(Some(read)),
        Ok(false) => Err(ReservoirFault::SchemaDiffers),
        Err(Memory) => Err(ReservoirFault::Memory),
    }
}

/// Reads the log to its end, where it has a frame. Nothing is written.
pub(crate) fn read_log<H: Host>(
    alloc: Global,
    schema: &Schema,
    host: &mut H,
) -> Result<Option<Opened>, ReservoirFault>
    requires legal { IsSchema schema.now }
    ensures read { LogRead schema.now (H.now host.old) result }
    ensures stops { IsLogStop (IsOther schema.now) (H.now host.old) (Rose (H.disk_faults host.old) (H.disk_faults host.new)) result }
    ensures leaves { LeavesLog H.now H.may H.clock H.since H.said H.disk_faults H.out_faults host.old host.new }
{
    let mut log = FrameLog::new(2);
    match read_ours(alloc, &mut log, schema, host) {
        Ok(Some(read)) => Ok(Some(Opened {
            log,
            growths: read.growths,
            first: read.first,
            tally: read.so_far.summary,
        })),
        Ok(None) => Ok(None),
        Err(fault) => Err(fault),
    }
}

/// Reads the log to its end, where it has a frame, and finds the schema in force there. Nothing is written.
pub(crate) fn find_log<H: Host>(
    alloc: Global,
    host: &mut H,
) -> Result<Option<Found>, ReservoirFault>
    ensures found { LogFound (H.now host.old) result }
    ensures stops { IsReadStop (H.now host.old) 2 (Rose (H.disk_faults host.old) (H.disk_faults host.new)) result }
    ensures leaves { LeavesLog H.now H.may H.clock H.since H.said H.disk_faults H.out_faults host.old host.new }
{
    let mut log = FrameLog::new(2);
    let read = match read_frames(alloc, &mut log, host) {
        Ok(Some(read)) => read,
        Ok(None) => return Ok(None),
        Err(fault) => return Err(fault),
    };
    let LogSoFar { schema, summary } = read.so_far;
    match schema {
        Some(schema) => Ok(Some(Found {
            schema,
            opened: Opened {
                log,
                growths: read.growths,
                first: read.first,
                tally: summary,
            },
        })),
        None => Ok(None),
    }
}

/// The growth to this schema by these defaults that a log lacks whose frames say `so_far` and end at `place`. None comes
/// where the schema in force there doesn't grow to this one so.
fn growth_for(
    alloc: Global,
    so_far: &LogSoFar,
    place: u64,
    schema: &Schema,
    defaults: &Defaults,
) -> Result<Option<ToWrite>, Memory>
    requires small { place ≤ 2 ^ 62 }
    requires given { AreDefaultsOf schema.now.fields defaults.now }
    ensures some { IfOk result (λ found. IfSome found (IsToWrite so_far.now place schema.now defaults.now)) }
    ensures none { IfOk result (λ found. IfNone found ((from : Shape) → so_far.now.schema ≡ Some from → filled from schema.now defaults.now ≡ None)) }
{
    let from = match &so_far.schema {
        Some(from) => from,
        None => return Ok(None),
    };
    let growth = match Growth::filled(alloc, from, schema, defaults)? {
        Some(growth) => growth,
        None => return Ok(None),
    };
    let mut payload = Vec::new(alloc);
    growth.encode(alloc, &mut payload)?;
    let growing = Growing {
        place,
        next: place + 9 + payload.len() as u64,
        from: from.copy(alloc)?,
        values: growth.values,
    };
    Ok(Some(ToWrite { growing, payload }))
}

/// The place behind a growth, where it stands at this one.
fn behind(first: u64, growing: &Growing) -> u64
    ensures { result ≡ passed (growing.now ∷ []) first }
{
    if growing.place == first {
        growing.next
    } else {
        first
    }
}

/// Writes the growth to this schema behind a log that was read to its end, where the schema in force there grows to it by
/// these defaults. The log is told as another schema's where it doesn't. Memory is taken before the write.
fn grow_log<H: Host>(
    alloc: Global,
    mut log: FrameLog,
    read: ReadLog,
    schema: &Schema,
    defaults: &Defaults,
    host: &mut H,
) -> Result<Opened, ReservoirFault>
    requires read { IsAtEnd (H.now host.old) log read }
    requires other { read.so_far.schema ≢ Some schema.now }
    requires given { AreDefaultsOf schema.now.fields defaults.now }
    ensures opened { LogOpened H.now H.may schema.now defaults.now result host.old host.new }
    ensures stops { IsLogStop (IsForeign schema.now defaults.now) (H.now host.old) (Rose (H.disk_faults host.old) (H.disk_faults host.new)) result }
    ensures writes { WritesOpening H.now H.may H.clock H.since H.said H.disk_faults H.out_faults schema.now defaults.now result host.old host.new }
{
    let to_write = match growth_for(alloc, &read.so_far, log.end(), schema, defaults) {
        Ok(Some(to_write)) => to_write,
        Ok(None) => return Err(ReservoirFault::SchemaDiffers),
        Err(Memory) => return Err(ReservoirFault::Memory),
    };
    let ReadLog {
        so_far,
        mut growths,
        first,
    } = read;
    let ToWrite { growing, payload } = to_write;
    let first = behind(first, &growing);
    match growths.push(growing) {
        Ok(()) => {}
        Err(_) => return Err(ReservoirFault::Memory),
    }
    match log.append(host, &payload) {
        Ok(_) => {}
        Err(_) => return Err(ReservoirFault::Disk),
    }
    Ok(Opened {
        log,
        growths,
        first,
        tally: so_far.summary,
    })
}

/// Writes the frame of a schema, whose payload is `ours`, where a log has no frame.
fn begin_log<H: Host>(
    alloc: Global,
    mut log: FrameLog,
    schema: &Schema,
    ours: &[u8],
    host: &mut H,
) -> Result<Opened, ReservoirFault>
    requires start { IsAtStart (H.now host.old) log }
    requires legal { IsSchema schema.now }
    requires ours { ours.now ≡ schema_payload schema.now }
    ensures opened { (defaults : Given) → LogOpened H.now H.may schema.now defaults result host.old host.new }
    ensures disk { IfErr result (λ fault. (fault ≡ ReservoirFault.Disk) × Rose (H.disk_faults host.old) (H.disk_faults host.new)) }
    ensures writes { (defaults : Given) → WritesOpening H.now H.may H.clock H.since H.said H.disk_faults H.out_faults schema.now defaults result host.old host.new }
{
    match log.append(host, ours) {
        Ok(_) => {}
        Err(_) => return Err(ReservoirFault::Disk),
    }
    let first = log.end();
    Ok(Opened {
        log,
        growths: Growths::new(alloc),
        first,
        tally: LogSummary::new(),
    })
}

/// Reads the log to its end, and writes the frame of the schema, whose payload is `ours`, where it has none, and the growth by
/// these defaults where the schema in force at its end grows to this one so.
pub(crate) fn open_log<H: Host>(
    alloc: Global,
    schema: &Schema,
    defaults: &Defaults,
    ours: &[u8],
    host: &mut H,
) -> Result<Opened, ReservoirFault>
    requires legal { IsSchema schema.now }
    requires given { AreDefaultsOf schema.now.fields defaults.now }
    requires ours { ours.now ≡ schema_payload schema.now }
    ensures opened { LogOpened H.now H.may schema.now defaults.now result host.old host.new }
    ensures stops { IsLogStop (IsForeign schema.now defaults.now) (H.now host.old) (Rose (H.disk_faults host.old) (H.disk_faults host.new)) result }
    ensures writes { WritesOpening H.now H.may H.clock H.since H.said H.disk_faults H.out_faults schema.now defaults.now result host.old host.new }
{
    let mut log = FrameLog::new(2);
    let read = match read_frames(alloc, &mut log, host) {
        Ok(Some(read)) => read,
        Ok(None) => return begin_log(alloc, log, schema, ours, host),
        Err(fault) => return Err(fault),
    };
    match is_in_force(alloc, &read.so_far, schema) {
        Ok(true) => Ok(Opened {
            log,
            growths: read.growths,
            first: read.first,
            tally: read.so_far.summary,
        }),
        Ok(false) => grow_log(alloc, log, read, schema, defaults, host),
        Err(Memory) => Err(ReservoirFault::Memory),
    }
}
