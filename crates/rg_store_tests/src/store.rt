use crate::parts::{Part, joined};
use crate::rows::Checks;
use rg_bytes::Memory;
use rg_host::{Host, Image, MemHost, Pick};
use std::alloc::Global;

/// Sets the files of an image, from this one on.
fn set_each(alloc: Global, image: &mut Image, first: u32, files: &[&[Part]]) -> Result<(), Memory> {
    let mut file = first;
    for parts in files {
        if file < 8 {
            image.set(file, joined(alloc, parts)?)?;
        }
        file = file.saturating_add(1);
    }
    Ok(())
}

/// A host of these files, from that one on, whose calls of these numbers fail.
pub(crate) fn store(
    alloc: Global,
    first: u32,
    files: &[&[Part]],
    failing: &[u64],
) -> Result<MemHost, Memory> {
    let failing = failing.to_vec(alloc)?;
    let mut image = Image::new(alloc);
    match set_each(alloc, &mut image, first, files) {
        Ok(()) => MemHost::new(alloc, image, failing),
        Err(memory) => Err(memory),
    }
}

/// What is wanted of the hosts that stops leave.
pub(crate) trait Left {
    /// Whether a stop behind so many calls may leave this host.
    fn may_be(&mut self, alloc: Global, left: &mut MemHost, call: u64, checks: &mut Checks) -> bool;
}

/// Whether a stop behind so many calls of a host leaves what it may, by this pick.
pub(crate) fn leaves<L: Left>(
    alloc: Global,
    host: &MemHost,
    call: u64,
    pick: Pick,
    want: &mut L,
    checks: &mut Checks,
) -> bool {
    if call > host.calls() {
        return checks.fails("calls", host.calls(), call);
    }
    match host.stop_image(call, pick) {
        Ok(mut left) => {
            let may_be = want.may_be(alloc, &mut left, call, checks);
            drop(left);
            checks.at(may_be, "stop", (call, pick))
        }
        Err(_) => false,
    }
}

/// Whether each stop behind so many calls or more leaves what it may.
fn leaves_from<L: Left>(
    alloc: Global,
    host: &MemHost,
    from: u64,
    pick: Pick,
    want: &mut L,
    checks: &mut Checks,
) -> bool {
    for call in from..=host.calls() {
        if !leaves(alloc, host, call, pick, want, checks) {
            return false;
        }
    }
    true
}

/// Whether it does so by each of these picks.
pub(crate) fn leaves_by_each<L: Left>(
    alloc: Global,
    host: &MemHost,
    from: u64,
    picks: &[Pick],
    want: &mut L,
    checks: &mut Checks,
) -> bool {
    for pick in picks {
        if !leaves_from(alloc, host, from, *pick, want, checks) {
            return false;
        }
    }
    true
}
