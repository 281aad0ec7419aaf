ghost use Rattle.std.specs.Prelude.{◌≡◌, ◌≤◌, IfOk, length};

use crate::failures::{Failure, Failures};
use rg_host::{Failed, Source};
use std::io;
use std::io::Read;
use std::rt::Files;

/// A file that is opened at its first read. It tells nothing of what is left.
#[derive(Drop)]
pub struct FileSource<'a, R: Files> {
    rt: &'a R,
    path: &'a str,
    file: Option<R::File>,
    failures: Failures<'a>,
}

impl<'a, R: Files> FileSource<'a, R> {
    /// The file with this path. It isn't opened yet.
    pub fn new(rt: &'a R, path: &'a str) -> FileSource<'a, R> {
        FileSource {
            rt,
            path,
            file: None,
            failures: Failures::none(),
        }
    }

    /// Why the last call that failed did.
    pub fn failure(&self) -> Option<Failure<'a>> {
        self.failures.last
    }

    /// What std gives for a read, or for the opening before it.
    fn given(&mut self, buf: &mut [u8]) -> io::Result<usize>
        ensures failures { self.new.failures ≡ self.old.failures }
        ensures within { IfOk result (λ n. n ≤ length buf.old) }
    {
        if self.file.is_none() {
            match std::fs::open(self.rt, self.path) {
                Ok(file) => self.file = Some(file),
                Err(error) => return Err(error),
            }
        }
        match &mut self.file {
            Some(file) => file.read(buf),
            None => Err(io::Error::from(io::ErrorKind::NotFound)),
        }
    }
}

impl<'a, R: Files> Source for FileSource<'a, R> {
    ghost use Rattle.std.specs.Prelude.{None};

    ghost left = { λ _. None };

    ghost faults = { λ source. source.failures.count };

    fn read(&mut self, buf: &mut [u8]) -> Result<usize, Failed> {
        let given = self.given(buf);
        self.failures.answer(self.path, given)
    }
}

/// A reader that tells nothing of what is left.
#[derive(Drop)]
pub struct ReaderSource<R: Read + Drop> {
    reader: R,
    failures: Failures<'static>,
}

impl<R: Read + Drop> ReaderSource<R> {
    /// The bytes of this reader.
    pub fn new(reader: R) -> ReaderSource<R> {
        ReaderSource {
            reader,
            failures: Failures::none(),
        }
    }

    /// Why the last call that failed did.
    pub fn failure(&self) -> Option<Failure<'static>> {
        self.failures.last
    }
}

impl<R: Read + Drop> Source for ReaderSource<R> {
    ghost use Rattle.std.specs.Prelude.{None};

    ghost left = { λ _. None };

    ghost faults = { λ source. source.failures.count };

    fn read(&mut self, buf: &mut [u8]) -> Result<usize, Failed> {
        let given = self.reader.read(buf);
        self.failures.answer("standard input", given)
    }
}
