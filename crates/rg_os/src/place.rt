// The path of a store's folder.
//
// A file is on the disk once its bytes are, its name is in the folder, and the folder's name is in
// the folder above it. The folder above is synced before the first file is made, so a folder that
// has a file has its name stored too, even where the process that made it was killed.
//
// A file of the folder is a plain file with one name. A pipe has no places, and where two names are
// of one file, what is written under one of them changes what the other one holds.
ghost use Rattle.std.specs.Prelude.{◌≡◌, ◌≤◌, ◌<◌, ◌⊎◌, false, true, IsErr, OnOk};

use std::alloc::Global;
use std::fs::{OpenFile, OpenOptions};
use std::io;
use std::os::unix::fs::MetadataExt;
use std::rt::Files;

/// The path of a folder that is or isn't there.
#[derive(Drop)]
pub struct Place<'a, R: Files> {
    rt: &'a R,
    alloc: Global,
    path: &'a str,
}

/// What std gave for an opening, where a missing file is none.
fn found<F: Drop>(given: io::Result<F>) -> io::Result<Option<F>> {
    match given {
        Ok(file) => Ok(Some(file)),
        Err(error) if error.kind() == io::ErrorKind::NotFound => Ok(None),
        Err(error) => Err(error),
    }
}

/// Fails where what a path names is no plain file, or has more names than one.
fn plain(is_file: bool, names: u64) -> io::Result<()>
    ensures plain { OnOk result ((is_file ≡ true) × (names ≤ 1)) }
    ensures other { IsErr result → (is_file ≡ false) ⊎ (1 < names) }
{
    if !is_file {
        return Err(io::Error::other("one of events, slot0 and slot1 is no plain file"));
    }
    if names > 1 {
        return Err(io::Error::other("one of events, slot0 and slot1 has a second name"));
    }
    Ok(())
}

impl<'a, R: Files> Place<'a, R> {
    pub fn new(rt: &'a R, alloc: Global, path: &'a str) -> Place<'a, R> {
        Place { rt, alloc, path }
    }

    /// A file of the folder, opened to be read. None where there is none.
    pub fn look(&self, name: &str) -> io::Result<Option<R::File>> {
        let path = self.path_of(name)?;
        self.check(path.as_str())?;
        found(std::fs::open(self.rt, path.as_str()))
    }

    /// The first file that is made, as `make` does. Where it is missing, the folder is made before.
    pub fn make_first(&self, name: &str) -> io::Result<R::File> {
        if self.look(name)?.is_none() {
            self.make_folder()?;
        }
        self.make(name)
    }

    /// A file of the folder, opened to be read and written, and made where it is missing.
    pub fn make(&self, name: &str) -> io::Result<R::File> {
        let path = self.path_of(name)?;
        self.check(path.as_str())?;
        let mut options = OpenOptions::new();
        options.read(true).write(true).create(true);
        options.open(self.rt, path.as_str())
    }

    /// Stores the names of the folder's files.
    pub fn sync_names(&self) -> io::Result<()> {
        self.sync_folder(".")
    }

    /// Fails where this path names something that is no plain file with one name. It is asked before
    /// the opening, since that of a pipe waits for another process.
    fn check(&self, path: &str) -> io::Result<()> {
        match std::fs::symlink_metadata(self.rt, path) {
            Ok(entry) => plain(entry.is_file(), entry.nlink()),
            Err(error) if error.kind() == io::ErrorKind::NotFound => Ok(()),
            Err(error) => Err(error),
        }
    }

    /// Makes the folder where it is missing, and stores its name.
    fn make_folder(&self) -> io::Result<()> {
        match std::fs::create_dir(self.rt, self.path) {
            Err(error) if error.kind() != io::ErrorKind::AlreadyExists => Err(error),
            _ => self.sync_folder(".."),
        }
    }

    /// Stores the names in this folder, `.`, or in the one above it, `..`.
    fn sync_folder(&self, name: &str) -> io::Result<()> {
        let path = self.path_of(name)?;
        let folder = std::fs::open(self.rt, path.as_str())?;
        folder.sync_all()
    }

    /// The path of a file of the folder. An empty path is no folder's.
    fn path_of(&self, name: &str) -> io::Result<String> {
        if self.path.is_empty() {
            return Err(io::Error::from(io::ErrorKind::NotFound));
        }
        Ok(format!(in self.alloc; "{}/{name}", self.path)?)
    }
}
