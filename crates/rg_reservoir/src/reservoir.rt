ghost use Rattle.std.specs.Prelude.{◌≡◌, ◌≢◌, ◌⊎◌, ◌↔◌, ◌≤◌, ◌<◌, ◌+◌, ◌-◌, ◌^◌, ◌++◌, [], ◌∷◌, ℕ, List, Ok, Err, Some, None, true, false, IfOk, IfErr, IfSome, IfNone, OnOk, OnErr, IsErrOf, IsTrue, length, slice_get, option_copied, All};
ghost use Rattle.std.specs.Option.{ForSome};
ghost use Rattle.std.specs.Borrow.{sem};
ghost use Rattle.rg_bytes.specs.Counts.{Rose};
ghost use Rattle.rg_host.specs.Image.{Image, Becomes, InFile, NothingPending};
ghost use Rattle.rg_host.specs.Moments.{Moments, LeavesAll};
ghost use Rattle.rg_event.specs.Shapes.{Shape};
ghost use Rattle.rg_event.specs.declared.event.Event.{Event as TheEvent};
ghost use Rattle.rg_past.specs.declared.past.Spot.{Spot};
ghost use Rattle.rg_frame.specs.Calls.{Writes};
ghost use Rattle.rg_frame.specs.Frames.{HasPayloads};
ghost use Rattle.rg_frame.specs.LogState.{ReachesEnd};
ghost use Rattle.rg_frame.specs.Steps.{From};
ghost use Rattle.rg_cache.specs.Cache.{item_at, holds_place, places};
ghost use Rattle.rg_chunk.specs.Chunks.{chunk_bytes};
ghost use Rattle.rg_growth.specs.Growing.{AreDefaultsOf};
ghost use Rattle.rg_log.specs.Filled.{HasEventsFor};
ghost use Rattle.rg_log.specs.Log.{HasEvents};
ghost use Rattle.rg_reservoir.specs.Attached.{IsForeign, IsOther, IsBadFrame, LogOpens, Opens, IsOpened, HasView, OpensView};
ghost use Rattle.rg_reservoir.specs.Chain.{IsIllegalBy};
ghost use Rattle.rg_reservoir.specs.Known.{IsKnown};
ghost use Rattle.rg_reservoir.specs.Last.{IsLast};
ghost use Rattle.rg_reservoir.specs.Naming.{IsNamed};
ghost use Rattle.rg_reservoir.specs.Taken.{AreTaken};

use crate::fault::ReservoirFault;
use crate::fetch::fetch;
use crate::first::{Found, find_log, is_same, open_log, read_log};
use crate::kept::Kept;
use crate::last::Last;
use crate::names::count_unnamed;
use crate::view::Growths;
use rg_bytes::Memory;
use rg_cache::ChunkCache;
use rg_chunk::{OpenChunk, Written};
use rg_event::{Event, Room, Schema};
use rg_frame::FrameLog;
use rg_growth::Defaults;
use rg_host::Host;
use rg_past::Spot;
use std::alloc::Global;
use std::mem;

/// The events of a run: those of the closed chunks in the log of file 2, and those of one open chunk
/// in memory. Those of the chunk that was closed last are kept beside their payload until a chunk is read, so
/// that this one needn't be decoded. Of the chunk that was touched last the count of events is known, so that a look
/// at one of them asks the cache once.
#[derive(Drop)]
pub struct Reservoir {
    alloc: Global,
    schema: Schema,
    pub(crate) growths: Growths,
    log: FrameLog,
    first: u64,
    pub(crate) ended: bool,
    cache: ChunkCache<Kept>,
    last: Option<Last>,
    open: OpenChunk,
    written: Option<Written>,
    pub(crate) committed: u64,
    next_offset: u64,
    last_time: u64,
    loads: u64,
    limit: u64,
    ghost small: { limit ≤ 2 ^ 40 },
    ghost few: { committed + length open.events ≤ 2 ^ 40 },
    ghost file: { log.file ≡ 2 },
    ghost ready: { log.ready ≡ true },
    ghost same: { log.ended ≡ ended },
    ghost known: { IsKnown schema.fields written },
    ghost touched: { IsLast cache last },
}

/// What a reservoir takes memory for before it reads its log.
#[derive(Drop)]
struct Rooms {
    schema: Schema,
    ours: Vec<u8>,
    cache: ChunkCache<Kept>,
    open: OpenChunk,
}

/// Takes that memory.
fn take_rooms(alloc: Global, schema: &Schema, room: Room) -> Result<Rooms, Memory>
    requires chunk { (1 ≤ room.chunk) × (room.chunk ≤ 4096) }
    requires cache { (1 ≤ room.cache) × (room.cache ≤ 1024) }
    ensures taken { IfOk result (AreTaken schema.now room.chunk room.cache) }
{
    let schema = schema.copy(alloc)?;
    let mut ours = Vec::new(alloc);
    ours.push(0x53)?;
    schema.write(&mut ours)?;
    let cache = match ChunkCache::new(alloc, room.cache) {
        Ok(cache) => cache,
        Err(_) => return Err(Memory),
    };
    let open = OpenChunk::new(alloc, room.chunk)?;
    Ok(Rooms {
        schema,
        ours,
        cache,
        open,
    })
}

/// Whether no spot's number is above that one.
fn are_within(spots: &[Spot], committed: u64) -> bool
    ensures { IsTrue result ↔ All (λ spot. spot.number ≤ committed) spots.now }
{
    spots.iter().all(|spot| spot.number <= committed)
}

impl Reservoir {
    ghost use Rattle.rg_reservoir.specs.Ahead.{closed_next, OnlyLoads, IsLoadStop};
    ghost use Rattle.rg_reservoir.specs.Touched.{HasTouched, HasSought, SeekLoads, SeekHeld, IsSeekStop};
    ghost use Rattle.rg_reservoir.specs.Ends.{ends_looked};
    ghost use Rattle.rg_reservoir.specs.Reached.{IsReached};
    ghost use Rattle.rg_reservoir.specs.Ready.{IsReady};
    ghost use Rattle.rg_reservoir.specs.Kept.{base, view_of, settled, opened, room_of, log_of, cache_of, loads_of, next_of as the_next_of, time_of, all_events, CommittedOrAll, IsCached, IsSound, Spells, SpellsLater, next_in, seen, IsLegalLook, Adds, Added};

    /// A reservoir over the log of file 2, with room for `room.chunk` events in its open chunk, 1 to
    /// 4,096, for `room.cache` chunks in memory, 1 to 1,024, and for `room.limit` events in all, at
    /// most 2^40; a log that has more events is attached too. Reads the heads of the chunks in
    /// order, and not what is in them, and the growths. Writes the first frame of a log without a frame,
    /// or one growth where the schema in force at the log's end grows to this one and each column
    /// that it lacks has a default, and nothing else; then each event has these defaults behind its own
    /// values. A default of a column that is there isn't used. A damaged log is told before another
    /// schema: only a whole one has a schema in force at its end. A refusal other than `Disk` has
    /// written nothing.
    pub fn attach<H: Host>(
        alloc: Global,
        host: &mut H,
        schema: &Schema,
        defaults: &Defaults,
        room: Room,
    ) -> Result<Reservoir, ReservoirFault>
        requires chunk { (1 ≤ room.chunk) × (room.chunk ≤ 4096) }
        requires cache { (1 ≤ room.cache) × (room.cache ≤ 1024) }
        requires limit { room.limit ≤ 2 ^ 40 }
        requires defaults { AreDefaultsOf schema.now.fields defaults.now }

        // Over a legal log of which nothing is pending.
        ensures sound { (v : Image) (events : List TheEvent) → H.now host.old ≡ Some v → NothingPending 2 (H.now host.old) (H.may host.old) → HasEventsFor schema.now defaults.now events (v 2)
            → IfOk result (λ r. IsSound (H.now host.new) (H.may host.new) r × (all_events (H.now host.new) (base r) (opened r) ≡ events)) }

        // A legal log is never refused as damaged.
        ensures legal { (v : Image) (events : List TheEvent) (p : ℕ) → H.now host.old ≡ Some v → HasEventsFor schema.now defaults.now events (v 2) → IsErrOf result (ReservoirFault.Damaged p) → ⊥ }

        // A legal log of the schema, or of one that grows to it by the defaults, is never refused as another's.
        ensures legal_ours { (v : Image) (events : List TheEvent) → H.now host.old ≡ Some v → HasEventsFor schema.now defaults.now events (v 2) → IsErrOf result ReservoirFault.SchemaDiffers → ⊥ }

        // Of any image.
        ensures opened { IfOk result (λ r. ForSome (H.now host.new) (λ w. IsOpened (view_of (base r)) (base r).first (base r).end (record { count = (base r).committed; next = the_next_of r; time = time_of r }) (w 2))) }

        // It reads the log by the view that its frames give, with the growth that was written behind them.
        ensures view { IfOk result (λ r. ForSome (H.now host.old) (λ v. OpensView schema.now defaults.now (view_of (base r)) (v 2))) }

        // Another schema is told exactly where the log is whole by heads and growths and can't grow to this one.
        ensures exact { (v : Image) → H.now host.old ≡ Some v → IsForeign schema.now defaults.now (v 2) ⊎ ((p : ℕ) × IsBadFrame p (v 2)) → IfOk result (λ _. ⊥) }
        ensures differs { IsErrOf result ReservoirFault.SchemaDiffers → ForSome (H.now host.old) (λ v. IsForeign schema.now defaults.now (v 2)) }

        // Damage is told only where heads and growths show it.
        ensures damaged { (p : ℕ) → IsErrOf result (ReservoirFault.Damaged p) → ForSome (H.now host.old) (λ v. IsBadFrame p (v 2)) }
        ensures other { (v : Image) (p : ℕ) → H.now host.old ≡ Some v → IsOther schema.now (v 2) → IsErrOf result (ReservoirFault.Damaged p) → ⊥ }
        ensures disk { IsErrOf result ReservoirFault.Disk → Rose (H.disk_faults host.old) (H.disk_faults host.new) }
        ensures neither { (IsErrOf result ReservoirFault.Full → ⊥) × (IsErrOf result ReservoirFault.Ended → ⊥) }

        ensures going { IfOk result (λ r. ((base r).ended ≡ false) × ((base r).file ≡ 2) × ((base r).shape ≡ schema.now) × ((base r).limit ≡ room.limit)) }
        ensures empty { IfOk result (λ r. (opened r ≡ []) × (room_of r ≡ room.chunk) × (places (cache_of r) ≡ []) × ((cache_of r).cap ≡ room.cache) × (loads_of r ≡ 0)) }

        // Only the schema's frame of a log without frames, or one growth, is written.
        ensures opens { IfOk result (λ r. Becomes (H.now host.old) (H.now host.new) (λ v w. Opens schema.now defaults.now (base r).first (base r).end (v 2) (w 2))) }
        ensures writes { Writes H.now H.may H.clock H.since H.said 2 (LogOpens schema.now defaults.now) host.old host.new }

        // A refusal other than of the disk has written nothing.
        ensures untouched { IfErr result (λ fault. (fault ≡ ReservoirFault.Disk) ⊎ LeavesAll H.now H.may H.clock H.since H.said host.old host.new) }
        ensures settled { OnOk result (NothingPending 2 (H.now host.old) (H.may host.old) → NothingPending 2 (H.now host.new) (H.may host.new)) }
        ensures reaches { IfOk result (λ r. ReachesEnd (log_of r) (H.now host.new)) }
        ensures disk_faults { H.disk_faults host.old ≤ H.disk_faults host.new }
        ensures out_faults { H.out_faults host.new ≡ H.out_faults host.old }
    {
        let taken = match take_rooms(alloc, schema, room) {
            Ok(taken) => taken,
            Err(_) => return Err(ReservoirFault::Memory),
        };
        match open_log(alloc, &taken.schema, defaults, &taken.ours, host) {
            Ok(opened) => Ok(Reservoir {
                alloc,
                schema: taken.schema,
                growths: opened.growths,
                log: opened.log,
                first: opened.first,
                ended: false,
                cache: taken.cache,
                last: None,
                open: taken.open,
                written: None,
                committed: opened.tally.count,
                next_offset: opened.tally.next,
                last_time: opened.tally.time,
                loads: 0,
                limit: room.limit,
            }),
            Err(fault) => Err(fault),
        }
    }

    /// A reservoir over the log of file 2 to read alone, as `attach` makes one of a log that has this schema, and none
    /// where the log has no frame: nothing is written, neither a first frame nor a growth. Its open chunk stays empty.
    pub fn view<H: Host>(
        alloc: Global,
        host: &mut H,
        schema: &Schema,
        room: Room,
    ) -> Result<Option<Reservoir>, ReservoirFault>
        requires chunk { (1 ≤ room.chunk) × (room.chunk ≤ 4096) }
        requires cache { (1 ≤ room.cache) × (room.cache ≤ 1024) }
        requires limit { room.limit ≤ 2 ^ 40 }

        // Over a legal log of which nothing is pending.
        ensures sound { (v : Image) (events : List TheEvent) → H.now host.old ≡ Some v → NothingPending 2 (H.now host.old) (H.may host.old) → HasEvents schema.now events (v 2)
            → IfOk result (λ found. IfSome found (λ r. IsSound (H.now host.new) (H.may host.new) r × (all_events (H.now host.new) (base r) (opened r) ≡ events))) }
        ensures empty_log { (v : Image) (events : List TheEvent) → H.now host.old ≡ Some v → HasEvents schema.now events (v 2) → IfOk result (λ found. IfNone found (events ≡ [])) }

        // A legal log is never refused as damaged.
        ensures legal { (v : Image) (events : List TheEvent) (p : ℕ) → H.now host.old ≡ Some v → HasEvents schema.now events (v 2) → IsErrOf result (ReservoirFault.Damaged p) → ⊥ }
        ensures legal_ours { (v : Image) (events : List TheEvent) → H.now host.old ≡ Some v → HasEvents schema.now events (v 2) → IsErrOf result ReservoirFault.SchemaDiffers → ⊥ }

        // Of any image.
        ensures none { IfOk result (λ found. IfNone found (ForSome (H.now host.old) (λ v. HasPayloads [] (v 2)))) }

        // The log is read from where its frames begin to where they end.
        ensures opened { IfOk result (λ found. IfSome found (λ r. ForSome (H.now host.old) (λ v. IsOpened (view_of (base r)) (base r).first (base r).end (record { count = (base r).committed; next = the_next_of r; time = time_of r }) (v 2)))) }
        ensures view { IfOk result (λ found. IfSome found (λ r. ForSome (H.now host.old) (λ v. HasView schema.now (view_of (base r)) (v 2)))) }

        // Another schema is told exactly where the log is whole by heads and growths.
        ensures exact { (v : Image) → H.now host.old ≡ Some v → IsOther schema.now (v 2) ⊎ ((p : ℕ) × IsBadFrame p (v 2)) → IfOk result (λ _. ⊥) }
        ensures differs { IsErrOf result ReservoirFault.SchemaDiffers → ForSome (H.now host.old) (λ v. IsOther schema.now (v 2)) }

        // Damage is told only where heads and growths show it.
        ensures damaged { (p : ℕ) → IsErrOf result (ReservoirFault.Damaged p) → ForSome (H.now host.old) (λ v. IsBadFrame p (v 2)) }
        ensures disk { IsErrOf result ReservoirFault.Disk → Rose (H.disk_faults host.old) (H.disk_faults host.new) }
        ensures neither { (IsErrOf result ReservoirFault.Full → ⊥) × (IsErrOf result ReservoirFault.Ended → ⊥) }

        ensures going { IfOk result (λ found. IfSome found (λ r. ((base r).ended ≡ false) × ((base r).file ≡ 2) × ((base r).shape ≡ schema.now) × ((base r).limit ≡ room.limit))) }
        ensures reached { IfOk result (λ found. IfSome found (λ r. ForSome (H.now host.old) (λ _. IsReached (H.now host.new) (base r) (cache_of r) (record { place = (base r).first; index = 0; number = 0 })))) }
        ensures empty { IfOk result (λ found. IfSome found (λ r. (opened r ≡ []) × (room_of r ≡ room.chunk) × (places (cache_of r) ≡ []) × ((cache_of r).cap ≡ room.cache) × (loads_of r ≡ 0))) }
        ensures leaves { LeavesAll H.now H.may H.clock H.since H.said host.old host.new }
        ensures disk_faults { H.disk_faults host.old ≤ H.disk_faults host.new }
        ensures out_faults { H.out_faults host.new ≡ H.out_faults host.old }
    {
        let taken = match take_rooms(alloc, schema, room) {
            Ok(taken) => taken,
            Err(_) => return Err(ReservoirFault::Memory),
        };
        match read_log(alloc, &taken.schema, host) {
            Ok(Some(opened)) => Ok(Some(Reservoir {
                alloc,
                schema: taken.schema,
                growths: opened.growths,
                log: opened.log,
                first: opened.first,
                ended: false,
                cache: taken.cache,
                last: None,
                open: taken.open,
                written: None,
                committed: opened.tally.count,
                next_offset: opened.tally.next,
                last_time: opened.tally.time,
                loads: 0,
                limit: room.limit,
            })),
            Ok(None) => Ok(None),
            Err(fault) => Err(fault),
        }
    }

    /// A reservoir over the log of file 2 to read alone, as `view` makes one, of the schema in force at the log's
    /// end, and none where the log has no frame: nothing is written.
    pub fn read<H: Host>(
        alloc: Global,
        host: &mut H,
        room: Room,
    ) -> Result<Option<Reservoir>, ReservoirFault>
        requires chunk { (1 ≤ room.chunk) × (room.chunk ≤ 4096) }
        requires cache { (1 ≤ room.cache) × (room.cache ≤ 1024) }
        requires limit { room.limit ≤ 2 ^ 40 }

        // Over a legal log of which nothing is pending.
        ensures sound { (v : Image) (shape : Shape) (events : List TheEvent) → H.now host.old ≡ Some v → NothingPending 2 (H.now host.old) (H.may host.old) → HasEvents shape events (v 2)
            → IfOk result (λ found. IfSome found (λ r. IsSound (H.now host.new) (H.may host.new) r × ((base r).shape ≡ shape) × (all_events (H.now host.new) (base r) (opened r) ≡ events))) }
        ensures legal { (v : Image) (shape : Shape) (events : List TheEvent) (p : ℕ) → H.now host.old ≡ Some v → HasEvents shape events (v 2) → IsErrOf result (ReservoirFault.Damaged p) → ⊥ }

        // Of any image.
        ensures none { IfOk result (λ found. IfNone found (ForSome (H.now host.old) (λ v. HasPayloads [] (v 2)))) }
        ensures opened { IfOk result (λ found. IfSome found (λ r. ForSome (H.now host.old) (λ v. IsOpened (view_of (base r)) (base r).first (base r).end (record { count = (base r).committed; next = the_next_of r; time = time_of r }) (v 2)))) }
        ensures exact { (v : Image) (p : ℕ) → H.now host.old ≡ Some v → IsBadFrame p (v 2) → IfOk result (λ _. ⊥) }

        // Damage is told only where heads and growths show it, and never of a legal log.
        ensures damaged { (p : ℕ) → IsErrOf result (ReservoirFault.Damaged p) → ForSome (H.now host.old) (λ v. IsBadFrame p (v 2)) }
        ensures disk { IsErrOf result ReservoirFault.Disk → Rose (H.disk_faults host.old) (H.disk_faults host.new) }
        ensures neither { (IsErrOf result ReservoirFault.Full → ⊥) × (IsErrOf result ReservoirFault.Ended → ⊥) × (IsErrOf result ReservoirFault.SchemaDiffers → ⊥) }

        ensures going { IfOk result (λ found. IfSome found (λ r. ((base r).ended ≡ false) × ((base r).file ≡ 2) × ((base r).limit ≡ room.limit))) }
        ensures empty { IfOk result (λ found. IfSome found (λ r. (opened r ≡ []) × (room_of r ≡ room.chunk) × (places (cache_of r) ≡ []) × ((cache_of r).cap ≡ room.cache) × (loads_of r ≡ 0))) }
        ensures leaves { LeavesAll H.now H.may H.clock H.since H.said host.old host.new }
        ensures disk_faults { H.disk_faults host.old ≤ H.disk_faults host.new }
        ensures out_faults { H.out_faults host.new ≡ H.out_faults host.old }
    {
        let cache = match ChunkCache::new(alloc, room.cache) {
            Ok(cache) => cache,
            Err(_) => return Err(ReservoirFault::Memory),
        };
        let open = match OpenChunk::new(alloc, room.chunk) {
            Ok(open) => open,
            Err(_) => return Err(ReservoirFault::Memory),
        };
        match find_log(alloc, host) {
            Ok(Some(Found { schema, opened })) => Ok(Some(Reservoir {
                alloc,
                schema,
                growths: opened.growths,
                log: opened.log,
                first: opened.first,
                ended: false,
                cache,
                last: None,
                open,
                written: None,
                committed: opened.tally.count,
                next_offset: opened.tally.next,
                last_time: opened.tally.time,
                loads: 0,
                limit: room.limit,
            })),
            Ok(None) => Ok(None),
            Err(fault) => Err(fault),
        }
    }

    /// The schema of its events.
    pub fn schema(&self) -> &Schema
        ensures { result.now ≡ (base self.now).shape }
    {
        &self.schema
    }

    /// Whether that is the schema of its events.
    pub fn is_of(&self, alloc: Global, schema: &Schema) -> Result<bool, Memory>
        ensures same { IfOk result (λ is. IsTrue is → (base self.now).shape ≡ schema.now) }
        ensures differs { IfOk result (λ is. is ≡ false → (base self.now).shape ≢ schema.now) }
    {
        is_same(alloc, &self.schema, schema)
    }

    /// How many events there are.
    pub fn count(&self) -> u64
        ensures count { result ≡ (base self.now).committed + length (opened self.now) }
        ensures few { result ≤ 2 ^ 40 }
    {
        self.committed + u64::from(self.open.count())
    }

    /// How many of them are in closed chunks.
    pub fn committed(&self) -> u64
        ensures { result ≡ (base self.now).committed }
    {
        self.committed
    }

    /// The least offset that the next event may have: the last event's plus one, and 0 where there
    /// is none.
    pub fn next_offset(&self) -> u64
        ensures { result ≡ the_next_of self.now }
    {
        self.next_offset
    }

    /// The time of the last event, in milliseconds, where there is one.
    pub fn last_time(&self) -> Option<u64>
        ensures some { IfSome result (λ time. (time ≡ time_of self.now) × (0 < (base self.now).committed + length (opened self.now))) }
        ensures none { IfNone result ((base self.now).committed + length (opened self.now) ≡ 0) }
    {
        if self.count() == 0 {
            return None;
        }
        Some(self.last_time)
    }

    /// Whether there is room for one event more before the next commit.
    pub fn has_room(&self) -> bool
        ensures { IsTrue result ↔ (length (opened self.now) < room_of self.now) }
    {
        !self.open.is_full()
    }

    /// How often a chunk was loaded, up to 2^64 - 1.
    pub fn loads(&self) -> u64
        ensures { result ≡ loads_of self.now }
    {
        self.loads
    }

    /// How many closed chunks are in memory.
    pub fn held(&self) -> u32
        ensures held { result ≡ length (places (cache_of self.now)) }
        ensures within { result ≤ (cache_of self.now).cap }
    {
        self.cache.held()
    }

    /// Adds an event to the open chunk. Calls no host and takes no memory.
    pub fn append(&mut self, event: Event) -> Result<(), ReservoirFault>
        requires room { length (opened self.old) < room_of self.old }
        requires small { event.offset < 2 ^ 62 }
        ensures base { base self.new ≡ base self.old }
        ensures ok { OnOk result ((opened self.new ≡ opened self.old ++ event ∷ []) × (the_next_of self.new ≡ event.offset + 1) × (time_of self.new ≡ event.time)) }
        ensures err { OnErr result (self.new ≡ self.old) }
        ensures ended { IsErrOf result ReservoirFault.Ended ↔ ((base self.old).ended ≡ true) }
        ensures full { IsErrOf result ReservoirFault.Full → (base self.old).limit ≤ (base self.old).committed + length (opened self.old) }
        ensures below { OnOk result ((base self.old).committed + length (opened self.old) < (base self.old).limit) }
        ensures faults { IfErr result (λ fault. (fault ≡ ReservoirFault.Ended) ⊎ (fault ≡ ReservoirFault.Full)) }
        ensures few { (base self.new).committed + length (opened self.new) ≤ 2 ^ 40 }

        ensures room { room_of self.new ≡ room_of self.old }
        ensures cache { (cache_of self.new ≡ cache_of self.old) × (loads_of self.new ≡ loads_of self.old) }
        ensures log { log_of self.new ≡ log_of self.old }
    {
        if self.ended {
            return Err(ReservoirFault::Ended);
        }
        if self.count() >= self.limit {
            return Err(ReservoirFault::Full);
        }
        self.next_offset = event.offset + 1;
        self.last_time = event.time;
        self.open.push(event);
        Ok(())
    }

    /// Touches a place, and loads its chunk where it isn't held. Says whether there is one.
    pub(crate) fn touch<H: Host>(
        &mut self,
        host: &mut H,
        place: u64,
    ) -> Result<bool, ReservoirFault>
        ensures only { OnlyLoads H.now H.may H.clock H.since H.said H.disk_faults H.out_faults self.old self.new host.old host.new }
        ensures touched { HasTouched H.now H.reads place result self.old self.new host.old host.new }
        ensures stops { IsLoadStop H.now H.disk_faults result self.old host.old host.new }
    {
        if self.cache.promote(place) {
            self.last = Last::of(&self.cache, place);
            return Ok(true);
        }
        self.last = None;
        let kept = match fetch(
            self.alloc,
            &self.schema,
            &self.growths,
            &self.log,
            self.written.take(),
            host,
            place,
        ) {
            Ok(Some(kept)) => kept,
            Ok(None) => return Ok(false),
            Err(fault) => return Err(fault),
        };
        if kept.next > self.log.end() {
            return Ok(false);
        }
        match self.cache.put(place, kept) {
            Ok(()) => {}
            Err(_) => return Err(ReservoirFault::Memory),
        }
        self.last = Last::of(&self.cache, place);
        self.loads = self.loads.saturating_add(1);
        Ok(true)
    }

    /// The next place, where the index is the count of the chunk that is held at that one.
    pub(crate) fn next_of(&self, place: u64, index: u32) -> Option<u64>
        ensures { result ≡ next_in (item_at place (cache_of self.now)) index }
    {
        match self.cache.get(place) {
            Some(kept) => {
                if kept.chunk.count() == index {
                    return Some(kept.next);
                }
                None
            }
            None => None,
        }
    }

    /// The place behind the chunk that is held at that one, where a closed chunk stands there.
    pub(crate) fn closed_next(&self, place: u64) -> Option<u64>
        ensures { result ≡ closed_next (base self.now).end (item_at place (cache_of self.now)) }
    {
        match self.cache.get(place) {
            Some(kept) => {
                if kept.next < self.log.end() {
                    return Some(kept.next);
                }
                None
            }
            None => None,
        }
    }

    /// Makes ready for a look at a spot at whose place no growth stands: its chunk is held, and the
    /// spot is in its later spelling.
    #[inline(never)]
    fn seek_settled<H: Host>(&mut self, host: &mut H, spot: &mut Spot) -> Result<(), ReservoirFault>
        requires { spot.old.number ≤ (base self.old).committed + length (opened self.old) }
        ensures only { OnlyLoads H.now H.may H.clock H.since H.said H.disk_faults H.out_faults self.old self.new host.old host.new }
        ensures sought { HasSought H.now H.may result self.old self.new host.old spot.old spot.new }
        ensures loads { SeekLoads H.now H.may H.reads result self.old self.new host.old host.new spot.old }
        ensures held { SeekHeld H.reads (OnErr result ⊥) self.old self.new host.old host.new spot.old }
        ensures stops { IsSeekStop H.now H.may H.disk_faults result self.old host.old host.new spot.old }
    {
        if self.ended {
            return Err(ReservoirFault::Ended);
        }
        if spot.number >= self.committed {
            prove!(spot.number - self.committed <= u64::from(self.open.count()));
            spot.place = self.log.end();
            spot.index = (spot.number - self.committed) as u32;
            return Ok(());
        }
        match self.touch(host, spot.place) {
            Ok(true) => {}
            Ok(false) => return Ok(()),
            Err(fault) => return Err(fault),
        }
        let next = match self.next_of(spot.place, spot.index) {
            Some(next) => next,
            None => return Ok(()),
        };
        match self.touch(host, next) {
            Ok(true) => {}
            Ok(false) => return Ok(()),
            Err(fault) => return Err(fault),
        }
        spot.place = next;
        spot.index = 0;
        Ok(())
    }

    /// Makes ready for a look at a spot: the growths at its place are passed, its chunk is held, and
    /// it is in its latest spelling. One of the chunk that was touched last asks the cache nothing.
    #[inline(always)]
    pub(crate) fn seek<H: Host>(
        &mut self,
        host: &mut H,
        spot: &mut Spot,
    ) -> Result<(), ReservoirFault>
        requires { spot.old.number ≤ (base self.old).committed + length (opened self.old) }
        ensures only { OnlyLoads H.now H.may H.clock H.since H.said H.disk_faults H.out_faults self.old self.new host.old host.new }
        ensures sought { HasSought H.now H.may result self.old self.new host.old (settled (base self.old) spot.old) spot.new }
        ensures loads { SeekLoads H.now H.may H.reads result self.old self.new host.old host.new (settled (base self.old) spot.old) }
        ensures held { SeekHeld H.reads (OnErr result ⊥) self.old self.new host.old host.new (settled (base self.old) spot.old) }
        ensures stops { IsSeekStop H.now H.may H.disk_faults result self.old host.old host.new (settled (base self.old) spot.old) }
    {
        spot.place = self.growths.passed(spot.place);
        if self.is_ready(spot) {
            return Ok(());
        }
        self.seek_settled(host, spot)
    }

    /// Whether a spot's event is one of the chunk that was touched last, and the reservoir hasn't ended: a look at it
    /// touches nothing. The cache isn't asked.
    #[inline(always)]
    fn is_ready(&self, spot: &Spot) -> bool
        ensures { IsTrue result → IsReady self.now spot.now }
    {
        if self.ended {
            return false;
        }
        if spot.number >= self.committed {
            return false;
        }
        match &self.last {
            Some(last) => last.has(spot),
            None => false,
        }
    }

    /// Looks at the event of a spot. An event of the open chunk, and the end, is found by its
    /// number, without a call on the host. For another one the spot's place, or that behind the
    /// growths which stand there, is touched, and then
    /// the next place where the index is the count of the chunk there: a place that is held costs
    /// nothing, and of another one the frame is read and kept. Memory is taken there alone.
    pub fn peek<H: Host>(
        &mut self,
        host: &mut H,
        spot: &mut Spot,
    ) -> Result<Option<&Event>, ReservoirFault>
        requires { spot.old.number ≤ (base self.old).committed + length (opened self.old) }
        ensures* after { sem 𝓛 (ends_looked self.entry (H.now host.old) (settled (base self.old) spot.old) (H.reads host.old) (H.reads host.new)
            (IsSound (H.now host.old) (H.may host.old) self.old × Spells (H.now host.old) (base self.old) (opened self.old) spot.old × OnErr result ⊥)) }
        ensures number { spot.new.number ≡ spot.old.number }

        // Over a sound reservoir a look shows the list's event at each spelled spot.
        ensures event { IsSound (H.now host.old) (H.may host.old) self.old → Spells (H.now host.old) (base self.old) (opened self.old) spot.old → IfOk result (λ look. option_copied look ≡ slice_get (all_events (H.now host.old) (base self.old) (opened self.old)) spot.old.number) }
        ensures later { IsSound (H.now host.old) (H.may host.old) self.old → Spells (H.now host.old) (base self.old) (opened self.old) spot.old → OnOk result (SpellsLater (H.now host.old) (base self.old) (opened self.old) spot.new) }
        ensures spelled { IsSound (H.now host.old) (H.may host.old) self.old → Spells (H.now host.old) (base self.old) (opened self.old) spot.old → Spells (H.now host.old) (base self.old) (opened self.old) spot.new }
        ensures within { IfOk result (λ look. IfSome look (λ _. (spot.new.number < (base self.old).committed + length (opened self.old)) × (spot.new.index < 4096))) }
        ensures ended { IsErrOf result ReservoirFault.Ended ↔ ((base self.old).ended ≡ true) }
        ensures damaged { (p : ℕ) → IsErrOf result (ReservoirFault.Damaged p) → ForSome (H.now host.old) (λ v. IsIllegalBy (view_of (base self.old)) p (v (base self.old).file)) }
        ensures never_damaged { (p : ℕ) → IsSound (H.now host.old) (H.may host.old) self.old → Spells (H.now host.old) (base self.old) (opened self.old) spot.old → IsErrOf result (ReservoirFault.Damaged p) → ⊥ }

        // A chunk whose inside is illegal is refused, over any log: it is never taken for the end of the past.
        ensures legal { (v : Image) → H.now host.old ≡ Some v → IsCached (view_of (base self.old)) (v (base self.old).file) (cache_of self.old) → spot.old.number < (base self.old).committed → OnOk result (IsLegalLook (base self.old) (v (base self.old).file) (settled (base self.old) spot.old)) }
        ensures disk { IsErrOf result ReservoirFault.Disk → Rose (H.disk_faults host.old) (H.disk_faults host.new) }
        ensures faults { IfErr result (λ fault. (fault ≡ ReservoirFault.Disk) ⊎ (fault ≡ ReservoirFault.Memory) ⊎ ((p : ℕ) × (fault ≡ ReservoirFault.Damaged p)) ⊎ (fault ≡ ReservoirFault.Ended)) }

        // No memory and no read where the chunk is held, with the next one where the spot stands behind its last event, and
        // no call on the host for the open one.
        ensures untouched { (base self.old).ended ≡ false → (base self.old).committed ≤ spot.old.number → OnErr result ⊥ × (host.new ≡ host.old) }

        // A chunk that is held is looked at without a read and without a refusal.
        ensures hit { (base self.old).ended ≡ false → spot.old.number < (base self.old).committed → IsTrue (holds_place (settled (base self.old) spot.old).place (cache_of self.old)) → next_in (item_at (settled (base self.old) spot.old).place (cache_of self.old)) spot.old.index ≡ None
            → OnErr result ⊥ × (H.reads host.new ≡ H.reads host.old) }
        ensures hit_next { (next : ℕ) → (base self.old).ended ≡ false → spot.old.number < (base self.old).committed → IsTrue (holds_place (settled (base self.old) spot.old).place (cache_of self.old)) → next_in (item_at (settled (base self.old) spot.old).place (cache_of self.old)) spot.old.index ≡ Some next
            → IsTrue (holds_place next (cache_of self.old)) → OnErr result ⊥ × (H.reads host.new ≡ H.reads host.old) }

        ensures leaves { LeavesAll H.now H.may H.clock H.since H.said host.old host.new }
        ensures disk_faults { H.disk_faults host.old ≤ H.disk_faults host.new }
        ensures out_faults { H.out_faults host.new ≡ H.out_faults host.old }
    {
        match self.seek(host, spot) {
            Ok(()) => {}
            Err(fault) => return Err(fault),
        }
        Ok(self.at(spot))
    }

    /// Writes the open chunk as one frame behind the log, where it isn't empty, and empties it. The
    /// chunk is encoded, and room for the next one is taken, before the first call on the host: want of
    /// memory leaves the disk and the reservoir as they were. After `Disk` the reservoir has ended.
    pub fn commit<H: Host>(&mut self, host: &mut H) -> Result<(), ReservoirFault>
        requires reaches { ReachesEnd (log_of self.old) (H.now host.old) }
        // A sound reservoir stays sound, its list stays, and spelled spots stay spelled.
        ensures sound { IsSound (H.now host.old) (H.may host.old) self.old → OnOk result (IsSound (H.now host.new) (H.may host.new) self.new) }
        ensures list { IsSound (H.now host.old) (H.may host.old) self.old → OnOk result (all_events (H.now host.new) (base self.new) (opened self.new) ≡ all_events (H.now host.old) (base self.old) (opened self.old)) }
        ensures spelled { IsSound (H.now host.old) (H.may host.old) self.old → (spot : Spot) → Spells (H.now host.old) (base self.old) (opened self.old) spot → OnOk result (Spells (H.now host.new) (base self.new) (opened self.new) spot) }
        ensures sound_disk { IsSound (H.now host.old) (H.may host.old) self.old → IsErrOf result ReservoirFault.Disk → ForSome (H.now host.new) (λ _. IsSound (H.now host.new) (H.may host.new) self.new) }

        // At every moment, and so wherever the run stops.
        ensures events { IsSound (H.now host.old) (H.may host.old) self.old → (base self.old).ended ≡ false → Moments H.clock H.since host.old host.new
            (λ m. CommittedOrAll (H.now host.old) (base self.old) (opened self.old) m.image) }

        // At each moment the log has the events committed before, or these and the whole open chunk.
        ensures leaves { Writes H.now H.may H.clock H.since H.said 2 (From (base self.old).end (Adds (base self.old).shape.fields (opened self.old))) host.old host.new }
        ensures grown { OnOk result (Becomes (H.now host.old) (H.now host.new) (InFile 2 (From (base self.old).end (Added (base self.old).shape.fields (opened self.old) (base self.new).end)))) }
        ensures pending { OnOk result (NothingPending 2 (H.now host.old) (H.may host.old) → NothingPending 2 (H.now host.new) (H.may host.new)) }
        ensures reaches { ReachesEnd (log_of self.new) (H.now host.new) }

        ensures empty { OnOk result ((opened self.new ≡ []) × ((base self.new).committed ≡ (base self.old).committed + length (opened self.old))) }
        ensures stays { (view_of (base self.new) ≡ view_of (base self.old)) × ((base self.new).file ≡ (base self.old).file) × ((base self.new).first ≡ (base self.old).first) × ((base self.new).limit ≡ (base self.old).limit) × (room_of self.new ≡ room_of self.old) }
        ensures kept { (cache_of self.new ≡ cache_of self.old) × (loads_of self.new ≡ loads_of self.old) × (the_next_of self.new ≡ the_next_of self.old) × (time_of self.new ≡ time_of self.old) }
        ensures going { OnOk result (((base self.old).ended ≡ false) × ((base self.new).ended ≡ false)) }
        ensures ended { IsErrOf result ReservoirFault.Ended ↔ ((base self.old).ended ≡ true) }

        // Want of memory comes before the first call on the host, and leaves disk and reservoir.
        ensures memory { IsErrOf result ReservoirFault.Memory → (self.new ≡ self.old) × (host.new ≡ host.old) }
        ensures untouched { IsErrOf result ReservoirFault.Ended → (self.new ≡ self.old) × (host.new ≡ host.old) }
        ensures disk { IsErrOf result ReservoirFault.Disk → ((base self.new).ended ≡ true) × (opened self.new ≡ opened self.old) × ((base self.new).committed ≡ (base self.old).committed) × Rose (H.disk_faults host.old) (H.disk_faults host.new) }
        ensures faults { IfErr result (λ fault. (fault ≡ ReservoirFault.Disk) ⊎ (fault ≡ ReservoirFault.Memory) ⊎ (fault ≡ ReservoirFault.Ended)) }
        ensures disk_faults { H.disk_faults host.old ≤ H.disk_faults host.new }
        ensures out_faults { H.out_faults host.new ≡ H.out_faults host.old }
        ensures reads { H.reads host.new ≡ H.reads host.old }
    {
        if self.ended {
            return Err(ReservoirFault::Ended);
        }
        let count = self.open.count();
        if count == 0 {
            return Ok(());
        }
        let (payload, room) = match self.encoded() {
            Ok(made) => made,
            Err(_) => return Err(ReservoirFault::Memory),
        };
        match self.log.append(host, &payload) {
            Ok(_) => {}
            Err(_) => {
                self.ended = true;
                return Err(ReservoirFault::Disk);
            }
        }
        self.committed += u64::from(count);
        let closed = mem::replace(&mut self.open, room);
        self.written = Some(Written::new(closed, payload));
        Ok(())
    }

    /// The payload of the open chunk, and an empty chunk with as much room.
    fn encoded(&self) -> Result<(Vec<u8>, OpenChunk), Memory>
        requires { 1 ≤ length (opened self.now) }
        ensures payload { IfOk result (λ made. made.0.items ≡ chunk_bytes (base self.now).shape.fields (opened self.now)) }
        ensures room { IfOk result (λ made. (made.1.events ≡ []) × (made.1.cap ≡ room_of self.now)) }
    {
        let mut payload = Vec::new(self.alloc);
        self.open.encode(&self.schema, &mut payload)?;
        let room = self.open.emptied(self.alloc)?;
        Ok((payload, room))
    }

    /// Whether each of these spots names an event or the end, in one of its spellings, and no number
    /// is above the count. The open chunk has to be empty. It is judged by the heads of the chunks in
    /// the log and by its growths, which are read once for all spots; the events in the chunks are
    /// not looked at. Memory is taken for growths alone. It writes nothing, and leaves the reservoir
    /// and the chunks that it holds as they were.
    pub fn names<H: Host>(&self, host: &mut H, spots: &[Spot]) -> Result<bool, ReservoirFault>
        requires empty { opened self.now ≡ [] }

        // Over any image that is told, by the heads in it; over a sound reservoir, these are the spelled spots.
        ensures named { (v : Image) (payloads : List (List ℕ)) → H.now host.old ≡ Some v → HasPayloads payloads (v 2)
            → IfOk result (λ named. IsTrue named ↔ All (IsNamed payloads (base self.now).committed) spots.now) }
        ensures listed { (v : Image) → H.now host.old ≡ Some v → IfOk result (λ named. IsTrue named → (payloads : List (List ℕ)) × HasPayloads payloads (v 2)) }

        // Over a sound reservoir that is whether each is a spelling of an event or of the end.
        ensures spelled { IsSound (H.now host.old) (H.may host.old) self.now → IfOk result (λ named. IsTrue named ↔ All (Spells (H.now host.old) (base self.now) (opened self.now)) spots.now) }
        ensures within { IfOk result (λ named. IsTrue named → All (λ spot. spot.number ≤ (base self.now).committed) spots.now) }

        ensures sound { IsSound (H.now host.old) (H.may host.old) self.now → IsSound (H.now host.new) (H.may host.new) self.now }
        ensures spells { (spot : Spot) → Spells (H.now host.new) (base self.now) (opened self.now) spot ↔ Spells (H.now host.old) (base self.now) (opened self.now) spot }
        ensures ended { IsErrOf result ReservoirFault.Ended ↔ ((base self.now).ended ≡ true) }

        // A bad frame on the way is told, and a legal log has none.
        ensures damaged { (p : ℕ) → IsErrOf result (ReservoirFault.Damaged p) → ForSome (H.now host.old) (λ v. IsBadFrame p (v 2)) }
        ensures legal { IsSound (H.now host.old) (H.may host.old) self.now → (p : ℕ) → IsErrOf result (ReservoirFault.Damaged p) → ⊥ }
        ensures disk { IsErrOf result ReservoirFault.Disk → Rose (H.disk_faults host.old) (H.disk_faults host.new) }
        ensures faults { IfErr result (λ fault. (fault ≡ ReservoirFault.Disk) ⊎ (fault ≡ ReservoirFault.Memory) ⊎ ((p : ℕ) × (fault ≡ ReservoirFault.Damaged p)) ⊎ (fault ≡ ReservoirFault.Ended)) }
        ensures leaves { LeavesAll H.now H.may H.clock H.since H.said host.old host.new }
        ensures disk_faults { H.disk_faults host.old ≤ H.disk_faults host.new }
        ensures out_faults { H.out_faults host.new ≡ H.out_faults host.old }
    {
        if self.ended {
            return Err(ReservoirFault::Ended);
        }
        if !are_within(spots, self.committed) {
            return Ok(false);
        }
        match count_unnamed(self.alloc, host, spots) {
            Ok(left) => Ok(left == 0),
            Err(fault) => Err(fault),
        }
    }

    /// Moves a spot on to the next event.
    pub fn advance(&self, spot: &mut Spot)
        requires number { spot.old.number < (base self.now).committed + length (opened self.now) }
        requires index { spot.old.index < 4096 }
        ensures next { spot.new ≡ record { place = spot.old.place; index = spot.old.index + 1; number = spot.old.number + 1 } }
    {
        prove!(spot.number < self.count());
        spot.number += 1;
        spot.index += 1;
    }

    /// The spot of event 0.
    pub fn start(&self) -> Spot
        ensures { result ≡ record { place = (base self.now).first; index = 0; number = 0 } }
    {
        Spot {
            place: self.first,
            index: 0,
            number: 0,
        }
    }

    /// The event of a spot, where its chunk is held.
    #[inline(always)]
    pub(crate) fn at(&self, spot: &Spot) -> Option<&Event>
        requires number { spot.now.number ≤ (base self.now).committed + length (opened self.now) }
        requires placed { (base self.now).committed ≤ spot.now.number → spot.now.number ≡ (base self.now).committed + spot.now.index }
        ensures event { option_copied result ≡ seen (base self.now).committed (opened self.now) (cache_of self.now) spot.now }
        ensures within { IfSome result (λ _. (spot.now.number < (base self.now).committed + length (opened self.now)) × (spot.now.index < 4096)) }
    {
        if spot.number >= self.committed {
            return self.open.get(spot.index);
        }
        match self.cache.get(spot.place) {
            Some(kept) => kept.chunk.get(spot.index),
            None => None,
        }
    }
}
