ghost use Rattle.std.specs.Prelude.{◌≡◌, ◌++◌, ◌<◌, ◌^◌, length, OnOk, OnErr};
ghost use Rattle.rg_bytes.specs.Keeps.{Keeps};
ghost use Rattle.rg_serve_spec.specs.Frames.{framed};

use rg_bytes::{Memory, put_bytes, put_u32};

/// Writes a length and a text at the end. Where memory runs out a front of them may stand there.
fn put_frame(out: &mut Vec<u8>, size: u32, text: &[u8]) -> Result<(), Memory>
    requires { size ≡ length text.now }
    ensures ok { OnOk result (out.new.items ≡ out.old.items ++ framed text.now) }
    ensures err { OnErr result (Keeps out.old.items out.new.items) }
{
    put_u32(out, size)?;
    put_bytes(out, text)
}

/// Writes a text in a frame at the end. Where memory runs out, or the text has 2^32 bytes or more, `out` holds what it
/// held.
pub(crate) fn write_frame(out: &mut Vec<u8>, text: &[u8]) -> Result<(), Memory>
    ensures ok { OnOk result (out.new.items ≡ out.old.items ++ framed text.now) }
    ensures small { OnOk result (length text.now < 2 ^ 32) }
    ensures err { OnErr result (out.new.items ≡ out.old.items) }
{
    if text.len() > u32::MAX as usize {
        return Err(Memory);
    }
    let start = out.len();
    match put_frame(out, text.len() as u32, text) {
        Ok(()) => Ok(()),
        Err(memory) => {
            out.truncate(start);
            Err(memory)
        }
    }
}
