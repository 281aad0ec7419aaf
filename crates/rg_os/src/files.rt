ghost use Rattle.std.specs.Prelude.{◌≡◌, ℕ, ◌⊎◌, ◌+◌, ◌<◌, ◌≤◌, ◌^◌, IfOk, IsErr, OnOk, length};
ghost use Rattle.rg_os.specs.Files.{IsClosed, IsLost};

use crate::open_files::OpenFiles;
use crate::place::Place;
use std::alloc::Global;
use std::fs::{File, TryLockError};
use std::io;
use std::os::unix::fs::FileExt;
use std::rt::Files;

/// What is done with the files of a folder.
#[derive(Clone, Copy, PartialEq, Eq)]
pub enum Access {
    /// They are only read, and none is made. A missing file has no bytes.
    Read,
    /// They are written too. The folder and the files are made where they are missing.
    Write,
}

/// An open file that at most one process holds.
pub trait Hold {
    /// Holds the file until it is closed. Fails where another process holds it.
    fn hold(&self) -> Result<(), TryLockError>;
}

impl Hold for File {
    fn hold(&self) -> Result<(), TryLockError> {
        self.try_lock()
    }
}

/// The files of a folder, by their numbers. They are opened at the first call that needs one, and
/// stay open.
#[derive(Drop)]
pub struct Folder<'a, R: Files> {
    place: Place<'a, R>,
    access: Access,
    files: OpenFiles<R::File>,
}

/// The name of a file in the folder, or what stands in its place in a message.
pub(crate) fn told_name(file: u32) -> &'static str {
    match name_of(file) {
        Ok(name) => name,
        Err(_) => "a file of no name",
    }
}

/// The name of a file in the folder. A number above 2 names none.
fn name_of(file: u32) -> io::Result<&'static str>
    ensures named { OnOk result (file < 3) }
    ensures others { IsErr result → 3 ≤ file }
{
    match file {
        0 => Ok("slot0"),
        1 => Ok("slot1"),
        2 => Ok("events"),
        _ => Err(io::Error::from(io::ErrorKind::Unsupported)),
    }
}

/// The file, held by this process alone until it is closed.
fn held<F: Hold + Drop>(file: F) -> io::Result<F> {
    match file.hold() {
        Ok(()) => Ok(file),
        Err(TryLockError::WouldBlock) => Err(io::Error::new(
            io::ErrorKind::WouldBlock,
            "another process writes this store",
        )),
        Err(TryLockError::Error(error)) => Err(error),
    }
}

impl<'a, R: Files> Folder<'a, R>
where
    R::File: FileExt + Hold,
{
    pub fn new(rt: &'a R, alloc: Global, path: &'a str, access: Access) -> Folder<'a, R> {
        Folder {
            place: Place::new(rt, alloc, path),
            access,
            files: OpenFiles::none(),
        }
    }

    /// The length of a file in bytes.
    pub fn len(&mut self, file: u32) -> io::Result<u64>
        ensures limit { IfOk result (λ n. n ≤ 2 ^ 62) }
        ensures syncs { self.new.files.synced ≡ self.old.files.synced }
        ensures access { self.new.access ≡ self.old.access }
    {
        self.open(file)?;
        self.files.len(file)
    }

    /// Reads the bytes of a file from a place on, and answers how many.
    pub fn read_at(&mut self, file: u32, at: u64, buf: &mut [u8]) -> io::Result<usize>
        ensures within { IfOk result (λ n. n ≤ length buf.old) }
        ensures size { length buf.new ≡ length buf.old }
        ensures syncs { self.new.files.synced ≡ self.old.files.synced }
        ensures access { self.new.access ≡ self.old.access }
    {
        self.open(file)?;
        self.files.read_at(file, at, buf)
    }

    /// Writes all of these bytes into a file at a place. After an error a part of them may be
    /// written.
    pub fn write_at(&mut self, file: u32, at: u64, bytes: &[u8]) -> io::Result<()>
        ensures limit { OnOk result (at + length bytes.now ≤ 2 ^ 62) }
        ensures reader { self.old.access ≡ Access.Read → IsErr result }
        ensures syncs { self.new.files.synced ≡ self.old.files.synced }
        ensures access { self.new.access ≡ self.old.access }
    {
        self.open_to_write(file)?;
        self.files.write_at(file, at, bytes)
    }

    /// Brings a file to the disk: its bytes, its length and its name. After an error that came of
    /// this each later sync of the file fails.
    pub fn sync(&mut self, file: u32) -> io::Result<()>
        ensures reader { self.old.access ≡ Access.Read → IsErr result }
        ensures lost { IsLost file self.old.files.synced → IsErr result }
        ensures stays { (other : ℕ) → IsLost other self.old.files.synced → IsLost other self.new.files.synced }
        ensures noted { IsErr result → self.old.access ≡ Access.Write → file < 3 → IsLost file self.new.files.synced ⊎ IsClosed file self.new.files.files }
        ensures access { self.new.access ≡ self.old.access }
    {
        self.open_to_write(file)?;
        let given = self.store(file);
        self.files.note_sync(file, &given);
        given
    }

    /// What std gives for a sync of an open file. At its first one its name is stored too, since
    /// a process that was killed may have made it and not stored its name.
    fn store(&self, file: u32) -> io::Result<()>
        requires { file < 3 }
        ensures lost { IsLost file self.now.files.synced → IsErr result }
    {
        self.files.sync(file)?;
        if self.files.is_named(file) {
            return Ok(());
        }
        self.place.sync_names()
    }

    /// Opens a file that is to be written.
    fn open_to_write(&mut self, file: u32) -> io::Result<()>
        ensures named { OnOk result (file < 3) }
        ensures reader { self.old.access ≡ Access.Read → IsErr result }
        ensures closed { IsErr result → self.old.access ≡ Access.Write → file < 3 → IsClosed file self.new.files.files }
        ensures syncs { self.new.files.synced ≡ self.old.files.synced }
        ensures access { self.new.access ≡ self.old.access }
    {
        match self.access {
            Access::Read => Err(io::Error::from(io::ErrorKind::PermissionDenied)),
            Access::Write => self.open(file),
        }
    }

    /// Opens a file, unless it is open.
    fn open(&mut self, file: u32) -> io::Result<()>
        ensures named { OnOk result (file < 3) }
        ensures closed { IsErr result → file < 3 → IsClosed file self.new.files.files }
        ensures syncs { self.new.files.synced ≡ self.old.files.synced }
        ensures access { self.new.access ≡ self.old.access }
    {
        let name = name_of(file)?;
        if self.files.has(file) {
            return Ok(());
        }
        match self.access {
            Access::Read => {
                let open = self.place.look(name)?;
                self.files.keep(file, open);
                Ok(())
            }
            Access::Write => self.open_all(),
        }
    }

    /// Opens all files to be written. The first one is held, so that no other process gets past it
    /// as long as they are open.
    fn open_all(&mut self) -> io::Result<()>
        ensures none { IsErr result → self.new.files ≡ self.old.files }
        ensures syncs { self.new.files.synced ≡ self.old.files.synced }
        ensures access { self.new.access ≡ self.old.access }
    {
        let events = held(self.place.make_first("events")?)?;
        let slot0 = self.place.make("slot0")?;
        let slot1 = self.place.make("slot1")?;
        self.files.keep(0, Some(slot0));
        self.files.keep(1, Some(slot1));
        self.files.keep(2, Some(events));
        Ok(())
    }
}
