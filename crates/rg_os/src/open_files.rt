ghost use Rattle.std.specs.Prelude.{◌≡◌, ◌≢◌, ℕ, ◌+◌, ◌<◌, ◌≤◌, ◌^◌, Ok, IfOk, IsErr, IsFalse, OnOk, length, slice_get};
ghost use Rattle.rg_os.specs.Files.{IsClosed, IsLost};

use std::fs::OpenFile;
use std::io;
use std::os::unix::fs::FileExt;

/// The greatest place that a file may end at, in bytes.
const MAX_FILE_BYTES: u64 = 1 << 62;

/// What is known of a file's syncs.
#[derive(Clone, Copy, PartialEq, Eq)]
enum Synced {
    /// There was none yet.
    Never,
    /// Each succeeded, and the file's name is stored.
    Always,
    /// One failed. The system may have dropped what it could not store, and a later sync would
    /// succeed without it.
    Failed,
}

/// The files of a store by their numbers, each where it is open.
#[derive(Drop)]
pub struct OpenFiles<F: Drop> {
    files: [Option<F>; 3],
    synced: [Synced; 3],
}

/// What std gave for a length: a greater one than a file may have has failed.
fn measured(given: io::Result<u64>) -> io::Result<u64>
    ensures limit { IfOk result (λ n. n ≤ 2 ^ 62) }
    ensures same { IfOk result (λ n. given ≡ Ok n) }
    ensures failed { IsErr given → IsErr result }
{
    match given {
        Ok(length) if length > MAX_FILE_BYTES => Err(io::Error::from(io::ErrorKind::FileTooLarge)),
        given => given,
    }
}

/// Fails where so many bytes at a place would end past the greatest place.
fn within(at: u64, length: usize) -> io::Result<()>
    ensures { OnOk result (at + length ≤ 2 ^ 62) }
{
    if at > MAX_FILE_BYTES || length as u64 > MAX_FILE_BYTES - at {
        return Err(io::Error::from(io::ErrorKind::FileTooLarge));
    }
    Ok(())
}

/// The length of an open file, as std gives it.
fn given_length<F: OpenFile>(file: &F) -> io::Result<u64> {
    Ok(file.metadata()?.len())
}

impl<F: OpenFile + FileExt + Drop> OpenFiles<F> {
    /// No file is open.
    pub fn none() -> OpenFiles<F> {
        OpenFiles {
            files: [None, None, None],
            synced: [Synced::Never; 3],
        }
    }

    /// Whether a file is open.
    pub fn has(&self, file: u32) -> bool
        requires { file < 3 }
        ensures { IsFalse result → IsClosed file self.now.files }
    {
        self.files[file as usize].is_some()
    }

    /// Keeps a file, where there is one.
    pub fn keep(&mut self, file: u32, open: Option<F>)
        requires { file < 3 }
        ensures syncs { self.new.synced ≡ self.old.synced }
    {
        self.files[file as usize] = open;
    }

    /// The length of a file in bytes. One that isn't open has none.
    pub fn len(&self, file: u32) -> io::Result<u64>
        requires { file < 3 }
        ensures limit { IfOk result (λ n. n ≤ 2 ^ 62) }
    {
        match &self.files[file as usize] {
            Some(open) => measured(given_length(open)),
            None => Ok(0),
        }
    }

    /// Reads the bytes of a file from a place on, and answers how many. One that isn't open has
    /// none.
    pub fn read_at(&self, file: u32, at: u64, buf: &mut [u8]) -> io::Result<usize>
        requires { file < 3 }
        ensures within { IfOk result (λ n. n ≤ length buf.old) }
        ensures size { length buf.new ≡ length buf.old }
    {
        match &self.files[file as usize] {
            Some(open) => open.read_at(buf, at),
            None => Ok(0),
        }
    }

    /// Writes all of these bytes into a file at a place. After an error a part of them may be
    /// written.
    pub fn write_at(&self, file: u32, at: u64, bytes: &[u8]) -> io::Result<()>
        requires { file < 3 }
        ensures limit { OnOk result (at + length bytes.now ≤ 2 ^ 62) }
    {
        within(at, bytes.len())?;
        match &self.files[file as usize] {
            Some(open) => open.write_all_at(bytes, at),
            None => Err(io::Error::from(io::ErrorKind::NotFound)),
        }
    }

    /// Brings what a file holds to the disk. Fails where an earlier sync of it failed.
    pub fn sync(&self, file: u32) -> io::Result<()>
        requires { file < 3 }
        ensures lost { IsLost file self.now.synced → IsErr result }
    {
        match &self.files[file as usize] {
            Some(open) => match self.synced[file as usize] {
                Synced::Never => open.sync_all(),
                Synced::Always => open.sync_data(),
                Synced::Failed => Err(io::Error::other("an earlier sync failed")),
            },
            None => Err(io::Error::from(io::ErrorKind::NotFound)),
        }
    }

    /// Whether a file's name is known to be stored.
    pub fn is_named(&self, file: u32) -> bool
        requires { file < 3 }
    {
        self.synced[file as usize] == Synced::Always
    }

    /// Notes what a sync of a file and of its name gave.
    pub fn note_sync(&mut self, file: u32, given: &io::Result<()>)
        requires { file < 3 }
        ensures noted { IsErr given.now → IsLost file self.new.synced }
        ensures others { (other : ℕ) → other ≢ file → slice_get self.new.synced other ≡ slice_get self.old.synced other }
    {
        self.synced[file as usize] = match given {
            Ok(()) => Synced::Always,
            Err(_) => Synced::Failed,
        };
    }
}
