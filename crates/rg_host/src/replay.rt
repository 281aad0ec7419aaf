ghost use Rattle.std.specs.Prelude.{◌≡◌, ℕ, ◌<◌, ◌≤◌, [], ◌∷◌, length, IfOk, OnOk, IsTrue};
ghost use Rattle.std.specs.List.{list_all};
ghost use Rattle.rg_host.specs.CallTrace.{effect_of, effects_of, is_named};
ghost use Rattle.rg_host.specs.Effects.{with_file, written, now_after, names_file};
ghost use Rattle.rg_host.specs.Files.{bytes_at, files_of, image_of};
ghost use Rattle.rg_host.specs.Picks.{left_of_write, left_of_failed, left_after_call, left_after};

use crate::call::Call;
use crate::file_list::{copy_files, write_in};
use crate::pick::Pick;
use rg_bytes::Memory;
use std::alloc::Global;

/// The length of one of the files.
fn length_of(files: &[Vec<u8>], file: u32) -> u64
    requires { file < length files.now }
    ensures { result ≡ length (bytes_at files.now file) }
{
    let content = &files[file as usize];
    content.len() as u64
}

/// Writes these bytes into one of the files, where the place lies within it.
fn write_within(files: &mut Vec<Vec<u8>>, file: u32, at: u64, bytes: &[u8]) -> Result<(), Memory>
    requires { file < length files.old.items }
    ensures length { length files.new.items ≡ length files.old.items }
    ensures ok { OnOk result ((other : ℕ) → bytes_at files.new.items other
        ≡ with_file file (written at bytes.now (bytes_at files.old.items file)) (bytes_at files.old.items) other) }
{
    if at > length_of(files, file) {
        return Ok(());
    }
    write_in(files, file, at, bytes)
}

/// Gives a file of one list the bytes that it has in the other.
fn settle(alloc: Global, now: &[Vec<u8>], left: &mut Vec<Vec<u8>>, file: u32) -> Result<(), Memory>
    requires now { file < length now.now }
    requires left { file < length left.old.items }
    ensures length { length left.new.items ≡ length left.old.items }
    ensures ok { OnOk result ((other : ℕ) → bytes_at left.new.items other
        ≡ with_file file (bytes_at now.now file) (bytes_at left.old.items) other) }
{
    let content = &now[file as usize];
    let copy = content.to_vec(alloc)?;
    left[file as usize] = copy;
    Ok(())
}

/// What a crash leaves of these bytes that were written.
fn leave_write(
    alloc: Global,
    left: &mut Vec<Vec<u8>>,
    file: u32,
    at: u64,
    bytes: &[u8],
    pick: Pick,
) -> Result<(), Memory>
    requires { file < length left.old.items }
    ensures length { length left.new.items ≡ length left.old.items }
    ensures ok { OnOk result ((other : ℕ) → bytes_at left.new.items other
        ≡ with_file file (left_of_write pick at bytes.now (bytes_at left.old.items file)) (bytes_at left.old.items) other) }
{
    match pick {
        Pick::Old => Ok(()),
        Pick::New => write_within(left, file, at, bytes),
        Pick::Torn(fill) => {
            let torn = vec![in alloc; fill; bytes.len()]?;
            write_within(left, file, at, &torn)
        }
    }
}

/// What a crash leaves of a write of so many bytes that failed.
fn leave_failed(
    alloc: Global,
    left: &mut Vec<Vec<u8>>,
    file: u32,
    at: u64,
    size: u64,
    pick: Pick,
) -> Result<(), Memory>
    requires { file < length left.old.items }
    ensures length { length left.new.items ≡ length left.old.items }
    ensures ok { OnOk result ((other : ℕ) → bytes_at left.new.items other
        ≡ with_file file (left_of_failed pick at size (bytes_at left.old.items file)) (bytes_at left.old.items) other) }
{
    match pick {
        Pick::Old => Ok(()),
        Pick::New => Ok(()),
        Pick::Torn(fill) => {
            let torn = vec![in alloc; fill; size as usize]?;
            write_within(left, file, at, &torn)
        }
    }
}

/// What a crash leaves after a call, which it may leave of what it left before.
fn leave(
    alloc: Global,
    now: &[Vec<u8>],
    left: &mut Vec<Vec<u8>>,
    call: &Call,
    pick: Pick,
) -> Result<(), Memory>
    requires now { length now.now ≡ 8 }
    requires left { length left.old.items ≡ 8 }
    requires named { IsTrue (names_file (effect_of call.now)) }
    ensures length { length left.new.items ≡ length left.old.items }
    ensures ok { OnOk result ((other : ℕ) → bytes_at left.new.items other
        ≡ left_after_call pick (effect_of call.now) (bytes_at now.now) (bytes_at left.old.items) other) }
{
    match call {
        Call::Write { file, at, bytes } => leave_write(alloc, left, *file, *at, bytes, pick),
        Call::FailedWrite { file, at, size } => leave_failed(alloc, left, *file, *at, *size, pick),
        Call::Sync(file) => settle(alloc, now, left, *file),
        Call::Nothing => Ok(()),
        Call::Put(_) => Ok(()),
    }
}

/// What reads give after a call.
fn redo(files: &mut Vec<Vec<u8>>, call: &Call) -> Result<(), Memory>
    requires eight { length files.old.items ≡ 8 }
    requires named { IsTrue (names_file (effect_of call.now)) }
    ensures length { length files.new.items ≡ length files.old.items }
    ensures ok { OnOk result ((other : ℕ) → bytes_at files.new.items other
        ≡ now_after (bytes_at files.old.items) (effect_of call.now ∷ []) other) }
{
    match call {
        Call::Write { file, at, bytes } => write_within(files, *file, *at, bytes),
        Call::FailedWrite { .. } => Ok(()),
        Call::Sync(_) => Ok(()),
        Call::Nothing => Ok(()),
        Call::Put(_) => Ok(()),
    }
}

/// The files that a crash leaves after some calls.
pub fn replay(
    alloc: Global,
    first: &[Vec<u8>],
    calls: &[Call],
    pick: Pick,
) -> Result<Vec<Vec<u8>>, Memory>
    requires few { length first.now ≤ 8 }
    requires named { IsTrue (list_all is_named calls.now) }
    ensures eight { IfOk result (λ files. length files.items ≡ 8) }
    ensures left { IfOk result (λ files. (file : ℕ) → bytes_at files.items file
        ≡ left_after pick (image_of (files_of first.now)) (effects_of calls.now) file) }
{
    let mut now = copy_files(alloc, first)?;
    let mut left = copy_files(alloc, first)?;
    'replayed: for call in calls {
        leave(alloc, &now, &mut left, call, pick)?;
        redo(&mut now, call)?;
    }
    Ok(left)
}
