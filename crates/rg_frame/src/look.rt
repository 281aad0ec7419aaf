ghost use Rattle.std.specs.Prelude.{◌≡◌, ◌<◌, ◌+◌, ◌^◌, length};
ghost use Rattle.std.specs.Int.{to_be_bytes, from_be_bytes, w64};
ghost use Rattle.rg_frame.specs.Calls.{ReadsOnly};
ghost use Rattle.rg_frame.specs.Looks.{FillsBuffer, LookFinds, LookRefuses};

use crate::fault::FrameFault;
use rg_host::{Failed, Host};

/// Fills `buf` with the bytes of a file from a place on, as far as the file has any, and answers
/// how many. After `Failed` nothing is said of what stands in `buf`.
pub(crate) fn read_full<H: Host>(
    host: &mut H,
    file: u32,
    at: u64,
    buf: &mut [u8],
) -> Result<usize, Failed>
    requires file { file < 8 }
    requires small { at + length buf.old < 2 ^ 64 }
    ensures filled { FillsBuffer (H.now host.old) file at buf.old buf.new (H.disk_faults host.old) (H.disk_faults host.new) (H.reads host.old) (H.reads host.new) result }
    ensures stays { ReadsOnly H.now H.may H.clock H.since H.said H.disk_faults H.out_faults H.reads host.old host.new }
{
    let mut done = 0;
    while done < buf.len() {
        let n = host.read_at(file, at + done as u64, &mut buf[done..])?;
        if n == 0 {
            return Ok(done);
        }
        done += n;
    }
    Ok(done)
}

/// The number that these eight bytes spell.
fn number_of(bytes: &[u8]) -> u64
    requires { length bytes.now ≡ 8 }
    ensures value { result ≡ from_be_bytes w64 bytes.now }
    ensures spelled { to_be_bytes w64 result ≡ bytes.now }
{
    u64::from_be_bytes([
        bytes[0], bytes[1], bytes[2], bytes[3], bytes[4], bytes[5], bytes[6], bytes[7],
    ])
}

/// How many bytes the payload of the open frame at a place has, and None where the gate there is
/// not open.
pub(crate) fn look<H: Host>(host: &mut H, file: u32, place: u64) -> Result<Option<u64>, FrameFault>
    requires { file < 8 }
    ensures found { LookFinds (H.now host.old) file place (H.reads host.old) (H.reads host.new) result }
    ensures refused { LookRefuses (H.now host.old) file place (H.disk_faults host.old) (H.disk_faults host.new) result }
    ensures stays { ReadsOnly H.now H.may H.clock H.since H.said H.disk_faults H.out_faults H.reads host.old host.new }
{
    let len = host.len(file)?;
    if len <= 1 {
        return Ok(None);
    }
    if place >= len {
        return Ok(None);
    }
    let mut gate = [0u8; 1];
    read_full(host, file, place, &mut gate)?;
    if gate[0] != 1 {
        return Ok(None);
    }
    if len - place < 10 {
        return Err(FrameFault::Damaged(place));
    }
    let mut length = [0u8; 8];
    read_full(host, file, place + 1, &mut length)?;
    let size = number_of(&length);
    if size > len - place - 10 {
        return Err(FrameFault::Damaged(place));
    }
    Ok(Some(size))
}
