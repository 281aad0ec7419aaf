/// Which of the images that a crash might leave.
#[derive(Clone, Copy, Debug, PartialEq, Eq, Hash)]
pub enum Pick {
    /// The bytes and lengths of the last sync of each file.
    Old,
    /// The written bytes.
    New,
    /// The greatest lengths since the last sync, and this byte at each place that is pending.
    Torn(u8),
}
