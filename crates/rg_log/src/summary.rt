ghost use Rattle.std.specs.Prelude.{◌≡◌, ◌≤◌, ◌^◌, Some, IfSome};
ghost use Rattle.rg_log.specs.Entries.{nothing, told_by};

use rg_chunk::ChunkHead;
use rg_event::MAX_EVENTS;

/// What the heads of chunks say, one after another: how many events there are, the least offset of the next one, and the
/// last time.
#[derive(Clone, Copy, Debug, PartialEq, Eq)]
pub struct LogSummary {
    /// How many events there are.
    pub count: u64,
    /// The last event's offset plus one, and 0 where there is none.
    pub next: u64,
    /// The last event's time in milliseconds, and 0 where there is none.
    pub time: u64,
}

impl LogSummary {
    /// That of no chunk.
    pub fn new() -> LogSummary
        ensures { result ≡ nothing }
    {
        LogSummary {
            count: 0,
            next: 0,
            time: 0,
        }
    }

    /// The summary with one chunk more, by its head. None comes exactly where it may not follow those before it: its
    /// offsets aren't behind theirs or aren't below 2^62, its times fall, or there would be more than 2^40 events.
    pub fn with(&self, head: ChunkHead) -> Option<LogSummary>
        ensures told { result ≡ told_by self.now (Some head) }
        ensures few { IfSome result (λ summary. (summary.count ≤ 2 ^ 40) × (summary.next ≤ 2 ^ 62)) }
    {
        if head.first_offset < self.next || head.last_offset < head.first_offset {
            return None;
        }
        if head.last_offset >= 4_611_686_018_427_387_904 {
            return None;
        }
        if head.first_time < self.time || head.last_time < head.first_time {
            return None;
        }
        if self.count > MAX_EVENTS - u64::from(head.count) {
            return None;
        }
        Some(LogSummary {
            count: self.count + u64::from(head.count),
            next: head.last_offset + 1,
            time: head.last_time,
        })
    }
}
