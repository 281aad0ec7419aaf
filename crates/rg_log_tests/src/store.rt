ghost use Rattle.std.specs.Prelude.{◌<◌};

use rg_bytes::{Memory, put_bytes, put_u64};
use rg_host::{Image, MemHost};
use std::alloc::Global;

/// A byte that is changed: its place, and what stands there then.
#[derive(Clone, Copy)]
pub(crate) struct Changed(pub usize, pub u8);

/// The open frame of a payload.
fn put_frame(out: &mut Vec<u8>, payload: &[u8]) -> Result<(), Memory> {
    put_bytes(out, &[1])?;
    put_u64(out, payload.len() as u64)?;
    put_bytes(out, payload)
}

fn put_all(out: &mut Vec<u8>, frames: &[&[u8]], rest: &[&[u8]]) -> Result<(), Memory> {
    for payload in frames {
        put_frame(out, payload)?;
    }
    for part in rest {
        put_bytes(out, part)?;
    }
    Ok(())
}

fn change_each(bytes: &mut [u8], changes: &[Changed]) {
    for Changed(place, byte) in changes {
        if let Some(old) = bytes.get_mut(*place) {
            *old = *byte;
        }
    }
}

/// Open frames of these payloads, and these parts behind them, with these changes.
pub(crate) fn bytes_of(
    alloc: Global,
    frames: &[&[u8]],
    rest: &[&[u8]],
    changes: &[Changed],
) -> Result<Vec<u8>, Memory> {
    let mut bytes = Vec::new(alloc);
    match put_all(&mut bytes, frames, rest) {
        Ok(()) => {
            change_each(&mut bytes, changes);
            Ok(bytes)
        }
        Err(memory) => Err(memory),
    }
}

/// Whether bytes are these parts, one behind another.
pub(crate) fn are_parts(bytes: &[u8], parts: &[&[u8]]) -> bool {
    let mut at = 0usize;
    for part in parts {
        let end = at.saturating_add(part.len());
        if bytes.get(at..end) != Some(*part) {
            return false;
        }
        at = end;
    }
    at == bytes.len()
}

/// Sets a file of an image to a copy of these bytes.
fn set(alloc: Global, image: &mut Image, file: u32, bytes: &[u8]) -> Result<(), Memory>
    requires { file < 8 }
{
    let bytes = bytes.to_vec(alloc)?;
    image.set(file, bytes)
}

fn set_each(
    alloc: Global,
    image: &mut Image,
    first: &[u8],
    second: &[u8],
    log: &[u8],
) -> Result<(), Memory> {
    set(alloc, image, 0, first)?;
    set(alloc, image, 1, second)?;
    set(alloc, image, 2, log)
}

/// A host with these slots and this log, whose calls of these numbers fail.
pub(crate) fn store(
    alloc: Global,
    first: &[u8],
    second: &[u8],
    log: &[u8],
    failing: &[u64],
) -> Result<MemHost, Memory> {
    let failing = failing.to_vec(alloc)?;
    let mut image = Image::new(alloc);
    match set_each(alloc, &mut image, first, second, log) {
        Ok(()) => MemHost::new(alloc, image, failing),
        Err(memory) => Err(memory),
    }
}
