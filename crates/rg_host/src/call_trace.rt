ghost use Rattle.std.specs.Prelude.{◌≡◌, ℕ, ◌+◌, ◌^◌, ◌<◌, ◌≤◌, ◌-◌, [], length, take, drop, IfOk, OnOk, OnErr};
ghost use Rattle.rg_host.specs.CallTrace.{with_effect, now_of};
ghost use Rattle.rg_host.specs.Effects.{nothing, wrote, failed_write, synced, put, said_after};
ghost use Rattle.rg_host.specs.Files.{bytes_at, image_of};
ghost use Rattle.rg_host.specs.Picks.{left_after, first_effects};

use crate::call::Call;
use crate::file_list::{copy_files, read_from, write_in};
use crate::image::Image;
use crate::pick::Pick;
use crate::replay::replay;
use rg_bytes::Memory;
use std::alloc::Global;
use std::marker::Model;

/// The files and the output of a host in memory, with the record of the calls that made them.
#[derive(Drop)]
pub struct CallTrace {
    alloc: Global,
    first: Vec<Vec<u8>>,
    calls: Vec<Call>,
    files: Vec<Vec<u8>>,
    output: Vec<u8>,
}

impl Model for CallTrace {
    ghost use Rattle.rg_host.specs.CallTrace.{Trace, IsKept, effects_of};
    ghost use Rattle.rg_host.specs.Files.{files_of};

    ghost Value = { Trace };

    ghost view = { λ trace. record {
      first = files_of trace.first.items;
      effects = effects_of trace.calls.items;
    } };

    ghost invariant = { λ trace. IsKept trace.first.items trace.files.items trace.output.items trace.calls.items };
}

impl CallTrace {
    /// These files, before any call. One longer than 2^62 bytes finds no memory.
    pub fn new(alloc: Global, image: Image) -> Result<CallTrace, Memory>
        ensures { IfOk result (λ trace. trace ≡ record { first = image; effects = [] }) }
    {
        let first = image.into_files();
        let files = copy_files(alloc, &first)?;
        Ok(CallTrace {
            alloc,
            first,
            calls: Vec::new(alloc),
            files,
            output: Vec::new(alloc),
        })
    }

    /// How many calls were noted.
    pub fn len(&self) -> usize
        ensures { result ≡ length self.now.effects }
    {
        self.calls.len()
    }

    /// All that was put.
    pub fn output(&self) -> &[u8]
        ensures { result.now ≡ said_after self.now.effects }
    {
        &self.output
    }

    /// The bytes of a file.
    pub fn file(&self, file: u32) -> &[u8]
        requires { file < 8 }
        ensures bytes { result.now ≡ now_of self.now file }
        ensures limit { length result.now ≤ 2 ^ 62 }
    {
        let content = &self.files[file as usize];
        content.as_slice()
    }

    /// The files that a crash after so many calls may leave, by that pick.
    pub fn left_after(&self, calls: usize, pick: Pick) -> Result<Vec<Vec<u8>>, Memory>
        requires { calls ≤ length self.now.effects }
        ensures eight { IfOk result (λ files. length files.items ≡ 8) }
        ensures left { IfOk result (λ files. (file : ℕ) → bytes_at files.items file
            ≡ left_after pick (image_of self.now.first) (first_effects calls self.now.effects) file) }
    {
        replay(self.alloc, &self.first, &self.calls[..calls], pick)
    }

    /// Notes a call that changed nothing.
    pub fn note_nothing(&mut self) -> Result<(), Memory>
        ensures ok { OnOk result (self.new ≡ with_effect nothing self.old) }
        ensures err { OnErr result (self.new ≡ self.old) }
    {
        self.calls.push(Call::Nothing)?;
        Ok(())
    }

    /// Writes these bytes into a file at a place, and notes it.
    pub fn note_write(&mut self, file: u32, at: u64, bytes: &[u8]) -> Result<(), Memory>
        requires file { file < 8 }
        requires within { at ≤ length (now_of self.old file) }
        requires limit { at + length bytes.now ≤ 2 ^ 62 }
        ensures ok { OnOk result (self.new ≡ with_effect (wrote file at bytes.now) self.old) }
        ensures err { OnErr result (self.new ≡ self.old) }
    {
        let copy = bytes.to_vec(self.alloc)?;
        self.calls.reserve(1)?;
        write_in(&mut self.files, file, at, bytes)?;
        self.calls.push(Call::Write {
            file,
            at,
            bytes: copy,
        })?;
        Ok(())
    }

    /// Notes a write of so many bytes that failed.
    pub fn note_failed_write(&mut self, file: u32, at: u64, size: u64) -> Result<(), Memory>
        requires { file < 8 }
        ensures ok { OnOk result (self.new ≡ with_effect (failed_write file at size) self.old) }
        ensures err { OnErr result (self.new ≡ self.old) }
    {
        self.calls.push(Call::FailedWrite { file, at, size })?;
        Ok(())
    }

    /// Notes that a file was settled.
    pub fn note_sync(&mut self, file: u32) -> Result<(), Memory>
        requires { file < 8 }
        ensures ok { OnOk result (self.new ≡ with_effect (synced file) self.old) }
        ensures err { OnErr result (self.new ≡ self.old) }
    {
        self.calls.push(Call::Sync(file))?;
        Ok(())
    }

    /// Puts these bytes, and notes it.
    pub fn note_put(&mut self, bytes: &[u8]) -> Result<(), Memory>
        ensures ok { OnOk result (self.new ≡ with_effect (put bytes.now) self.old) }
        ensures err { OnErr result (self.new ≡ self.old) }
    {
        let copy = bytes.to_vec(self.alloc)?;
        self.calls.reserve(1)?;
        self.output.extend_from_slice(bytes)?;
        self.calls.push(Call::Put(copy))?;
        Ok(())
    }
}
