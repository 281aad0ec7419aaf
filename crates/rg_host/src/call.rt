/// A call on a host in memory, as the host notes it.
#[derive(Drop)]
pub enum Call {
    /// It changed nothing: it only looked, or it failed and was no write.
    Nothing,
    /// It wrote these bytes into a file at a place.
    Write { file: u32, at: u64, bytes: Vec<u8> },
    /// It failed to write so many bytes into a file at a place. A crash may leave any of them.
    FailedWrite { file: u32, at: u64, size: u64 },
    /// It settled a file.
    Sync(u32),
    /// It put these bytes.
    Put(Vec<u8>),
}
