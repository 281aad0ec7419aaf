ghost use Rattle.std.specs.Prelude.{◌≡◌, ◌++◌, decimal, OnOk, OnErr};
ghost use Rattle.rg_bytes.specs.Keeps.{Keeps};

use rg_bytes::{Memory, put_bytes, write_whole};

/// Puts a text and then a number.
pub fn put_numbered(out: &mut Vec<u8>, text: &[u8], n: u64) -> Result<(), Memory>
    ensures ok { OnOk result (out.new.items ≡ out.old.items ++ (text.now ++ decimal n)) }
    ensures err { OnErr result (Keeps out.old.items out.new.items) }
{
    put_bytes(out, text)?;
    write_whole(out, n)
}
