use crate::rows::{Checks, Row, assert_each};
use rg_bytes::Memory;
use rg_host::Host;
use rg_os::{Access, FolderHost, Hold};
use std::alloc::{Allocator, Global};
use std::cell::RefCell;
use std::fmt::Display;
use std::fs::{File, Metadata, OpenFile, OpenOptions, TryLockError};
use std::io;
use std::io::{Read, Seek, SeekFrom, Write};
use std::os::unix::fs::FileExt;
use std::rc::Rc;
use std::rt::Files;
use std::test::Fail;

/// What was asked of a folder that changes it or brings it to the disk, a line each, in order.
type Notes = Rc<RefCell<String>>;

/// Adds a line to the notes. One that finds no room is left out, and a test then fails.
fn note(notes: &Notes, what: &str, path: &str) {
    if let Ok(mut text) = notes.try_borrow_mut() {
        for part in [what, " ", path, "\n"] {
            let _ = text.push_str(part);
        }
    }
}

/// The real files, with notes of what is asked of them.
#[derive(Drop)]
struct Noting {
    rt: HostRuntime,
    notes: Notes,
}

impl Eprint for Noting {
    fn eprint<D: Display + Drop>(&self, value: D) -> io::Result<()> {
        self.rt.eprint(value)
    }

    fn eprintln<D: Display + Drop>(&self, value: D) -> io::Result<()> {
        self.rt.eprintln(value)
    }
}

/// A real file, with notes of what is asked of it.
#[derive(Drop)]
struct NotedFile {
    file: File,
    path: String,
    notes: Notes,
}

impl Read for NotedFile {
    fn read(&mut self, buf: &mut [u8]) -> io::Result<usize> {
        self.file.read(buf)
    }
}

impl Write for NotedFile {
    fn write(&mut self, buf: &[u8]) -> io::Result<usize> {
        self.file.write(buf)
    }

    fn flush(&mut self) -> io::Result<()> {
        self.file.flush()
    }
}

impl Seek for NotedFile {
    fn seek(&mut self, to: SeekFrom) -> io::Result<u64> {
        self.file.seek(to)
    }
}

impl OpenFile for NotedFile {
    fn metadata(&self) -> io::Result<Metadata> {
        self.file.metadata()
    }

    fn set_len(&self, size: u64) -> io::Result<()> {
        note(&self.notes, "cut", self.path.as_str());
        self.file.set_len(size)
    }

    fn sync_all(&self) -> io::Result<()> {
        note(&self.notes, "sync", self.path.as_str());
        self.file.sync_all()
    }

    fn sync_data(&self) -> io::Result<()> {
        note(&self.notes, "sync data", self.path.as_str());
        self.file.sync_data()
    }
}

impl FileExt for NotedFile {
    fn read_at(&self, buf: &mut [u8], offset: u64) -> io::Result<usize> {
        self.file.read_at(buf, offset)
    }

    fn write_at(&self, buf: &[u8], offset: u64) -> io::Result<usize> {
        note(&self.notes, "write", self.path.as_str());
        self.file.write_at(buf, offset)
    }
}

impl Hold for NotedFile {
    fn hold(&self) -> Result<(), TryLockError> {
        note(&self.notes, "hold", self.path.as_str());
        self.file.hold()
    }
}

impl Files for Noting {
    type File = NotedFile;

    type Dir = <HostRuntime as Files>::Dir;

    fn open_file(&self, how: &OpenOptions, path: &str) -> io::Result<NotedFile> {
        if how.asks_write() {
            note(&self.notes, "make", path);
        }
        Ok(NotedFile {
            file: self.rt.open_file(how, path)?,
            path: String::from_str(self.rt.alloc(), path)?,
            notes: self.notes.clone()?,
        })
    }

    fn open_dir(&self, path: &str) -> io::Result<Self::Dir> {
        self.rt.open_dir(path)
    }

    fn metadata(&self, path: &str) -> io::Result<Metadata> {
        self.rt.metadata(path)
    }

    fn symlink_metadata(&self, path: &str) -> io::Result<Metadata> {
        self.rt.symlink_metadata(path)
    }

    fn copy(&self, from: &str, to: &str) -> io::Result<u64> {
        note(&self.notes, "copy", to);
        self.rt.copy(from, to)
    }

    fn rename(&self, from: &str, to: &str) -> io::Result<()> {
        note(&self.notes, "rename", to);
        self.rt.rename(from, to)
    }

    fn remove_file(&self, path: &str) -> io::Result<()> {
        note(&self.notes, "remove", path);
        self.rt.remove_file(path)
    }

    fn create_dir(&self, path: &str) -> io::Result<()> {
        note(&self.notes, "make", path);
        self.rt.create_dir(path)
    }

    fn remove_dir(&self, path: &str) -> io::Result<()> {
        note(&self.notes, "remove", path);
        self.rt.remove_dir(path)
    }

    fn remove_dir_all<B: Allocator>(&self, alloc: B, path: &str) -> io::Result<()> {
        note(&self.notes, "remove", path);
        self.rt.remove_dir_all(alloc, path)
    }
}

/// Syncs a host's log over this folder, writes it, syncs it again, and syncs a slot.
fn sync_all(files: &Noting, folder: &str) {
    let mut host = FolderHost::new(files, files.rt.alloc(), folder, Access::Write, io::sink());
    let _ = host.sync(2);
    let _ = host.write_at(2, 0, b"abc");
    let _ = host.sync(2);
    let _ = host.sync(0);
}

/// A copy of what was noted.
fn text_of(alloc: Global, notes: &Notes) -> Result<String, Memory> {
    match notes.try_borrow() {
        Ok(text) => Ok(String::from_str(alloc, text.as_str())?),
        Err(_) => Ok(String::new(alloc)),
    }
}

/// What is noted then.
fn notes_of(rt: HostRuntime, folder: &str) -> Result<String, Memory> {
    let files = Noting {
        rt,
        notes: Rc::new(rt.alloc(), RefCell::new(String::new(rt.alloc())))?,
    };
    sync_all(&files, folder);
    let text = text_of(rt.alloc(), &files.notes);
    drop(files);
    text
}

/// What is asked where the store is new: the folder and its name in the one above, the files, and at a file's first
/// sync its name too.
const NEW: &str =
    "make ordered\nsync ordered/..\nmake ordered/events\nhold ordered/events\nmake ordered/slot0\nmake ordered/slot1\nsync ordered/events\nsync ordered/.\nwrite ordered/events\nsync data ordered/events\nsync ordered/slot0\nsync ordered/.\n";

/// What is asked where it is there: it is not made again, and its names are stored again.
const THERE: &str =
    "make ordered/events\nhold ordered/events\nmake ordered/slot0\nmake ordered/slot1\nsync ordered/events\nsync ordered/.\nwrite ordered/events\nsync data ordered/events\nsync ordered/slot0\nsync ordered/.\n";

/// What is noted then, once a file was removed, if one is.
#[derive(Clone, Copy)]
struct Noted {
    removed: Option<&'static str>,
    notes: &'static str,
}

fn remove(rt: &HostRuntime, path: Option<&str>) -> bool {
    match path {
        None => true,
        Some(path) => std::fs::remove_file(rt, path).is_ok(),
    }
}

impl Row for Noted {
    fn is_so(&self, rt: HostRuntime, checks: &mut Checks) -> Result<bool, Memory> {
        let is_removed = checks.same("the file is removed", remove(&rt, self.removed), true);
        let notes = notes_of(rt, "ordered")?;
        Ok(is_removed && checks.same("notes", notes.as_str(), self.notes))
    }
}

const ALL_NOTED: &[Noted] = &[
    Noted {
        removed: None,
        notes: NEW,
    },
    Noted {
        removed: None,
        notes: THERE,
    },
    // a folder without a log may be one whose name wasn't stored
    Noted {
        removed: Some("ordered/events"),
        notes: NEW,
    },
];

#[test]
fn a_store_is_made_and_stored_in_order(rt: HostRuntime) -> Result<(), Fail> {
    assert_each(&rt, rt, ALL_NOTED)
}
