ghost use Rattle.std.specs.Prelude.{◌≡◌, Ok, IfOk, IsErr};

use crate::failures::{Failure, Failures};
use crate::files::{Access, Folder, Hold, told_name};
use crate::progress::Progress;
use rg_host::{Failed, Host};
use std::alloc::Global;
use std::io;
use std::io::Write;
use std::os::unix::fs::FileExt;
use std::rt::Files;

/// The files of a folder, `slot0`, `slot1` and `events`, and a writer. It tells nothing of them.
/// Where they are only read, a write or a sync fails, and a missing file has length 0.
#[derive(Drop)]
pub struct FolderHost<'a, R: Files + Eprint, W: Write + Drop> {
    progress: Progress<'a, R>,
    folder: Folder<'a, R>,
    writer: W,
    puts: Failures<'a>,
    disk: Failures<'a>,
    reads: u64,
}

/// What std gave for a write of a piece this long: one that took nothing of a piece has failed.
fn written(given: io::Result<usize>, length: usize) -> io::Result<usize>
    ensures some { IfOk result (λ n. (n ≡ 0 → length ≡ 0)) }
    ensures same { IfOk result (λ n. given ≡ Ok n) }
    ensures failed { IsErr given → IsErr result }
{
    match given {
        Ok(0) if length > 0 => Err(io::Error::from(io::ErrorKind::WriteZero)),
        given => given,
    }
}

impl<'a, R: Files + Eprint, W: Write + Drop> FolderHost<'a, R, W>
where
    R::File: FileExt + Hold,
{
    /// A host over the folder with this path. No file is opened or made before the first call on
    /// one.
    pub fn new(
        rt: &'a R,
        alloc: Global,
        path: &'a str,
        access: Access,
        writer: W,
    ) -> FolderHost<'a, R, W> {
        FolderHost {
            progress: Progress::off(rt),
            folder: Folder::new(rt, alloc, path, access),
            writer,
            puts: Failures::none(),
            disk: Failures::none(),
            reads: 0,
        }
    }

    /// Why the last put that failed did.
    pub fn failure(&self) -> Option<Failure<'a>> {
        self.puts.last
    }

    /// Why the last call on a file that failed did, and on which file.
    pub fn disk_failure(&self) -> Option<Failure<'a>> {
        self.disk.last
    }

    /// Has standard error told how far a read of the log has come, until the first line is put.
    pub fn watch(&mut self) {
        self.progress.turn_on();
    }

    /// Where the output goes.
    pub fn writer(&self) -> &W {
        &self.writer
    }

    /// The writer, back.
    pub fn into_writer(self) -> W {
        self.writer
    }
}

impl<'a, R: Files + Eprint, W: Write + Drop> Host for FolderHost<'a, R, W>
where
    R::File: FileExt + Hold,
{
    ghost use Rattle.std.specs.Prelude.{None, ⊤};

    ghost now = { λ _. None };

    ghost may = { λ _ _. ⊤ };

    ghost clock = { λ _. 0 };

    ghost since = { λ _ _ _. ⊤ };

    ghost said = { λ _. None };

    ghost disk_faults = { λ host. host.disk.count };

    ghost out_faults = { λ host. host.puts.count };

    ghost reads = { λ host. host.reads };

    ghost now_may = { λ _ _ _. tt };

    ghost counts_now = { λ _ _ _ _ _ _. tt };

    ghost only_now = { λ _ _ _. (tt, λ s is. Prim.cc is) };

    ghost sinks = { λ _ _ _ _ _ _. tt };

    fn len(&mut self, file: u32) -> Result<u64, Failed> {
        let given = self.folder.len(file);
        self.disk.answer(told_name(file), given)
    }

    fn read_at(&mut self, file: u32, at: u64, buf: &mut [u8]) -> Result<usize, Failed> {
        self.reads = self.reads.saturating_add(1);
        self.progress.tell(file, at, self.reads);
        let given = self.folder.read_at(file, at, buf);
        self.disk.answer(told_name(file), given)
    }

    fn write_at(&mut self, file: u32, at: u64, bytes: &[u8]) -> Result<(), Failed> {
        let given = self.folder.write_at(file, at, bytes);
        self.disk.answer(told_name(file), given)
    }

    fn sync(&mut self, file: u32) -> Result<(), Failed> {
        let given = self.folder.sync(file);
        self.disk.answer(told_name(file), given)
    }

    fn put(&mut self, bytes: &[u8]) -> Result<usize, Failed> {
        self.progress.end();
        let given = written(self.writer.write(bytes), bytes.len());
        self.puts.answer("standard output", given)
    }
}
