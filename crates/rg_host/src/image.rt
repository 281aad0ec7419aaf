ghost use Rattle.std.specs.Prelude.{◌≡◌, ◌≢◌, ℕ, ◌<◌, ◌≤◌, List, [], length, replicate, OnOk, OnErr};
ghost use Rattle.rg_host.specs.Files.{image_of, files_of};

use rg_bytes::Memory;
use std::alloc::Global;
use std::marker::Model;

/// What the files hold, which are numbered from 0 to 7, for a host in memory to begin with.
#[derive(Drop)]
pub struct Image {
    alloc: Global,
    files: Vec<Vec<u8>>,
}

impl Model for Image {
    ghost use Rattle.std.specs.Prelude.{ℕ, ◌≤◌, List, length};
    ghost use Rattle.rg_host.specs.Files.{files_of};

    ghost Value = { List (List ℕ) };

    ghost view = { λ image. files_of image.files.items };

    ghost invariant = { λ image. length image.files.items ≤ 8 };
}

impl Image {
    /// An image in which no file has a byte.
    pub fn new(alloc: Global) -> Image
        ensures { result ≡ replicate 8 [] }
    {
        Image {
            alloc,
            files: Vec::new(alloc),
        }
    }

    /// Gives a file these bytes, in place of those that it had.
    pub fn set(&mut self, file: u32, bytes: Vec<u8>) -> Result<(), Memory>
        requires { file < 8 }
        ensures there { OnOk result (image_of self.new file ≡ bytes.items) }
        ensures elsewhere { (other : ℕ) → other ≢ file → image_of self.new other ≡ image_of self.old other }
        ensures err { OnErr result (self.new ≡ self.old) }
    {
        add_missing(self.alloc, &mut self.files, file)?;
        self.files[file as usize] = bytes;
        Ok(())
    }

    /// An image of these files.
    pub(crate) fn of_files(alloc: Global, files: Vec<Vec<u8>>) -> Image
        requires { length files.items ≤ 8 }
        ensures { result ≡ files_of files.items }
    {
        Image { alloc, files }
    }

    /// The files, up to the last one that was set.
    pub(crate) fn into_files(self) -> Vec<Vec<u8>>
        ensures files { files_of result.items ≡ self }
        ensures few { length result.items ≤ 8 }
    {
        self.files
    }
}

/// Adds files without bytes, up to that one.
fn add_missing(alloc: Global, files: &mut Vec<Vec<u8>>, file: u32) -> Result<(), Memory>
    requires below { file < 8 }
    requires few { length files.old.items ≤ 8 }
    ensures same { files_of files.new.items ≡ files_of files.old.items }
    ensures few { length files.new.items ≤ 8 }
    ensures there { OnOk result (file < length files.new.items) }
{
    'missing: while files.len() <= file as usize {
        files.push(Vec::new(alloc))?;
    }
    Ok(())
}
