ghost use Rattle.std.specs.Prelude.{◌≡◌, ℕ, ◌+◌, ◌^◌, ◌<◌, ◌≤◌, ◌++◌, List, length, take, drop, vec_len, min, IfOk, OnOk, OnErr};
ghost use Rattle.rg_host.specs.Effects.{with_file, written};
ghost use Rattle.rg_host.specs.Files.{bytes_at};

use rg_bytes::Memory;
use std::alloc::Global;

/// The greatest length of a file.
pub const MAX_FILE_BYTES: usize = 1 << 62;

/// A copy of these files, all eight of them. One longer than 2^62 bytes finds no memory.
pub fn copy_files(alloc: Global, files: &[Vec<u8>]) -> Result<Vec<Vec<u8>>, Memory>
    requires { length files.now ≤ 8 }
    ensures eight { IfOk result (λ copies. length copies.items ≡ 8) }
    ensures same { IfOk result (λ copies. (file : ℕ) → bytes_at copies.items file ≡ bytes_at files.now file) }
    ensures small { IfOk result (λ copies. (file : ℕ) → length (bytes_at copies.items file) ≤ 2 ^ 62) }
{
    let mut copies = Vec::new(alloc);
    'each_file: for i in 0..8 {
        let copy = copy_file(alloc, files, i)?;
        copies.push(copy)?;
    }
    Ok(copies)
}

/// A copy of one of these files. A missing one has no bytes.
fn copy_file(alloc: Global, files: &[Vec<u8>], i: usize) -> Result<Vec<u8>, Memory>
    ensures same { IfOk result (λ copy. copy.items ≡ bytes_at files.now i) }
    ensures small { IfOk result (λ copy. length copy.items ≤ 2 ^ 62) }
{
    if i >= files.len() {
        return Ok(Vec::new(alloc));
    }
    let content = &files[i];
    if content.len() > MAX_FILE_BYTES {
        return Err(Memory);
    }
    let copy = content.to_vec(alloc)?;
    Ok(copy)
}

/// Writes these bytes over what is there, and past the end.
fn overwrite(content: &mut Vec<u8>, at: usize, bytes: &[u8]) -> Result<(), Memory>
    requires { at ≤ vec_len content.old }
    ensures ok { OnOk result (content.new.items ≡ take at content.old.items ++ bytes.now ++ drop (at + length bytes.now) content.old.items) }
    ensures err { OnErr result (content.new.items ≡ content.old.items) }
{
    let over = bytes.len().min(content.len() - at);
    content.extend_from_slice(&bytes[over..])?;
    content[at..at + over].copy_from_slice(&bytes[..over]);
    Ok(())
}

/// Writes these bytes into one of the files.
pub fn write_in(files: &mut Vec<Vec<u8>>, file: u32, at: u64, bytes: &[u8]) -> Result<(), Memory>
    requires file { file < length files.old.items }
    requires within { at ≤ length (bytes_at files.old.items file) }
    ensures length { length files.new.items ≡ length files.old.items }
    ensures ok { OnOk result ((other : ℕ) → bytes_at files.new.items other
        ≡ with_file file (written at bytes.now (bytes_at files.old.items file)) (bytes_at files.old.items) other) }
    ensures err { OnErr result ((other : ℕ) → bytes_at files.new.items other ≡ bytes_at files.old.items other) }
{
    let content = &mut files[file as usize];
    overwrite(content, at as usize, bytes)?;
    Ok(())
}

/// Reads the bytes from a place on into the first bytes of `buf`, as many as there are and fit.
pub fn read_from(content: &[u8], at: u64, buf: &mut [u8]) -> usize
    ensures count { result ≤ length buf.new }
    ensures size { length buf.new ≡ length buf.old }
    ensures bytes { take result buf.new ≡ take result (drop at content.now) }
    ensures most { result ≡ min (length buf.old) (length (drop at content.now)) }
{
    if at >= content.len() as u64 {
        return 0;
    }
    let rest = &content[at as usize..];
    let count = rest.len().min(buf.len());
    buf[..count].copy_from_slice(&rest[..count]);
    count
}
