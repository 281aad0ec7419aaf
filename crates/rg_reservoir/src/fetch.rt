ghost use Rattle.std.specs.Prelude.{◌≡◌, ◌<◌, Some, None, option_map, IfSome};
ghost use Rattle.rg_bytes.specs.Counts.{Rose};
ghost use Rattle.rg_chunk.specs.Chunks.{Agrees, chunk_of};
ghost use Rattle.rg_reservoir.specs.Known.{IsKnown};
ghost use Rattle.rg_reservoir.specs.Views.{grown_at, seen_from, shape_at};
ghost use Rattle.rg_reservoir.specs.Fetched.{HasFetched, IsFetchStop};
ghost use Rattle.rg_reservoir.specs.Reading.{LeavesLog};

use crate::fault::ReservoirFault;
use crate::kept::Kept;
use crate::view::Growths;
use rg_chunk::{Chunk, ChunkFault, Written};
use rg_event::Schema;
use rg_frame::FrameLog;
use rg_host::Host;
use std::alloc::Global;

/// The chunk that was written last, where that is its payload.
fn chunk_written(schema: &Schema, written: Option<Written>, payload: &[u8]) -> Option<Chunk>
    requires { IsKnown schema.now.fields written }
    ensures { IfSome result (λ chunk. chunk_of schema.now.fields payload.now ≡ Some chunk) }
{
    let last = written?;
    if !last.is_of(payload) {
        return None;
    }
    last.into_chunk(schema)
}

/// The chunk that a payload says. It is decoded where it isn't the one that was written last, which is dropped before.
fn decode_unwritten(
    alloc: Global,
    schema: &Schema,
    written: Option<Written>,
    payload: &[u8],
) -> Result<Chunk, ChunkFault>
    requires { IsKnown schema.now.fields written }
    ensures { Agrees (chunk_of schema.now.fields payload.now) result }
{
    match chunk_written(schema, written, payload) {
        Some(chunk) => Ok(chunk),
        None => match Chunk::decode(alloc, schema, payload) {
            Ok(chunk) => Ok(chunk),
            Err(fault) => Err(fault),
        },
    }
}

/// The chunk that a payload at a place says, by the schema in force there.
#[tactic(auto, using(crate::proofs::Viewing::by_earlier, crate::proofs::Viewing::by_last))]
fn decode(
    alloc: Global,
    schema: &Schema,
    growths: &Growths,
    written: Option<Written>,
    place: u64,
    payload: &[u8],
) -> Result<Chunk, ChunkFault>
    requires { IsKnown schema.now.fields written }
    ensures { Agrees (chunk_of (shape_at (seen_from schema.now growths.now) place).fields payload.now) result }
{
    match growths.before(place) {
        Some(from) => {
            drop(written);
            Chunk::decode(alloc, from, payload)
        }
        None => decode_unwritten(alloc, schema, written, payload),
    }
}

/// Decodes a chunk, and puts the values of the growths behind it to its events.
#[tactic(auto, using(crate::proofs::Viewing::grown_said, crate::proofs::Viewing::grown_refused))]
fn decode_grown(
    alloc: Global,
    schema: &Schema,
    growths: &Growths,
    written: Option<Written>,
    place: u64,
    payload: &[u8],
) -> Result<Chunk, ChunkFault>
    requires { IsKnown schema.now.fields written }
    ensures { Agrees (option_map (grown_at growths.now place) (chunk_of (shape_at (seen_from schema.now growths.now) place).fields payload.now)) result }
{
    let mut chunk = match decode(alloc, schema, growths, written, place, payload) {
        Ok(chunk) => chunk,
        Err(fault) => return Err(fault),
    };
    match growths.extend(place, &mut chunk) {
        Ok(()) => Ok(chunk),
        Err(_) => Err(ChunkFault::Memory),
    }
}

/// Reads the chunk at a place. Where one stands there, the place isn't refused as damaged; and there is none
/// only where no open gate stands there: an open frame that isn't a chunk is refused.
pub fn fetch<H: Host>(
    alloc: Global,
    schema: &Schema,
    growths: &Growths,
    log: &FrameLog,
    written: Option<Written>,
    host: &mut H,
    place: u64,
) -> Result<Option<Kept>, ReservoirFault>
    requires { IsKnown schema.now.fields written }
    ensures fetched { HasFetched H.now H.reads (seen_from schema.now growths.now) place log.now.file result host.old host.new }
    ensures stops { IsFetchStop (H.now host.old) (seen_from schema.now growths.now) log.now.file (Rose (H.disk_faults host.old) (H.disk_faults host.new)) result }
    ensures leaves { LeavesLog H.now H.may H.clock H.since H.said H.disk_faults H.out_faults host.old host.new }
{
    let mut payload = Vec::new(alloc);
    let next = match log.read(host, place, &mut payload) {
        Ok(Some(next)) => next,
        Ok(None) => return Ok(None),
        Err(fault) => return Err(ReservoirFault::from(fault)),
    };
    match decode_grown(alloc, schema, growths, written, place, &payload) {
        Ok(chunk) => Ok(Some(Kept {
            chunk,
            next: growths.passed(next),
        })),
        Err(ChunkFault::BadChunk) => Err(ReservoirFault::Damaged(place)),
        Err(ChunkFault::Memory) => Err(ReservoirFault::Memory),
    }
}
