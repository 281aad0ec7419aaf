/// How much room a past takes, in memory and in all.
#[derive(Clone, Copy, Debug, PartialEq, Eq)]
pub struct Room {
    /// How many events a chunk has, from 1 to 4,096.
    pub chunk: u32,
    /// How many chunks stand in the cache at most, from 1 to 1,024.
    pub cache: u32,
    /// The greatest number of events, at most 2^40.
    pub limit: u64,
}
