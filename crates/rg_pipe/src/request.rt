/// A request of a stream, as it is handed out.
#[derive(Clone, Copy, Debug, PartialEq, Eq)]
pub enum Request<'a> {
    /// A line that has the expected offset: its offset, and its text of at most 65,535 bytes and no LF.
    Line(u64, &'a [u8]),
    /// A line that was sent before: its offset is below the expected one.
    Again(u64),
    /// A line behind a gap: its offset is above the expected one, which is the second.
    Gap(u64, u64),
    /// All events are to be stored.
    Commit,
    /// All events are to be stored, and a checkpoint of them.
    Save,
}

/// A request that stands whole at the front of a piece.
#[derive(Clone, Copy, Debug, PartialEq, Eq)]
pub struct Whole<'a> {
    /// How many bytes it has, 5 to 65,548, its length included.
    pub size: usize,
    /// The request. The text of a line is the piece's own.
    pub request: Request<'a>,
}
