/// The greatest number of events that are counted: in a log, a window or a state. 2^40.
pub const MAX_EVENTS: u64 = 1_099_511_627_776;

/// The greatest number of events in a chunk.
pub const MAX_CHUNK_EVENTS: u32 = 4_096;

/// The greatest offset of an event, 2^62 - 1. The least is 0.
pub const MAX_OFFSET: u64 = 4_611_686_018_427_387_903;

/// The greatest time of an event, 10^15 milliseconds. The least is 0.
pub const MAX_TIME: u64 = 1_000_000_000_000_000;

/// The greatest value of an int column, 10^12, and with a minus the least.
pub const MAX_INT: u64 = 1_000_000_000_000;
