ghost use Rattle.std.specs.Prelude.{◌≡◌, ◌++◌, ◌∷◌, [], ◌+◌, ◌<◌, length, vec_len, vec_capacity, OnOk, OnErr};
ghost use Rattle.std.specs.Int.{w32, w64, w128, to_be_bytes, cast_unsigned};

use crate::memory::Memory;

/// Puts 1 byte at the end.
pub fn put_u8(out: &mut Vec<u8>, v: u8) -> Result<(), Memory>
    // The byte is put behind what stands, and a refused put leaves the bytes as they were.
    ensures ok { OnOk result (out.new.items ≡ out.old.items ++ v ∷ []) }
    ensures err { OnErr result (out.new.items ≡ out.old.items) }
    ensures full { OnErr result (vec_capacity out.old < vec_len out.old + 1) }
{
    out.push(v)?;
    Ok(())
}

/// Puts 4 bytes at the end, the highest first.
pub fn put_u32(out: &mut Vec<u8>, v: u32) -> Result<(), Memory>
    // The number's four bytes are put, highest first, and a refused put leaves the bytes as they were.
    ensures ok { OnOk result (out.new.items ≡ out.old.items ++ to_be_bytes w32 v) }
    ensures err { OnErr result (out.new.items ≡ out.old.items) }
    ensures full { OnErr result (vec_capacity out.old < vec_len out.old + 4) }
{
    put_bytes(out, &v.to_be_bytes())
}

/// Puts 8 bytes at the end, the highest first.
pub fn put_u64(out: &mut Vec<u8>, v: u64) -> Result<(), Memory>
    // The number's eight bytes are put, highest first, and a refused put leaves the bytes as they were.
    ensures ok { OnOk result (out.new.items ≡ out.old.items ++ to_be_bytes w64 v) }
    ensures err { OnErr result (out.new.items ≡ out.old.items) }
    ensures full { OnErr result (vec_capacity out.old < vec_len out.old + 8) }
{
    put_bytes(out, &v.to_be_bytes())
}

/// Puts the 8 bytes of two's complement at the end, the highest first.
pub fn put_i64(out: &mut Vec<u8>, v: i64) -> Result<(), Memory>
    // The bytes of the two's complement are put, highest first, and a refused put leaves the bytes as they were.
    ensures ok { OnOk result (out.new.items ≡ out.old.items ++ to_be_bytes w64 (cast_unsigned w64 v)) }
    ensures err { OnErr result (out.new.items ≡ out.old.items) }
    ensures full { OnErr result (vec_capacity out.old < vec_len out.old + 8) }
{
    put_bytes(out, &v.to_be_bytes())
}

/// Puts the 16 bytes of two's complement at the end, the highest first.
pub fn put_i128(out: &mut Vec<u8>, v: i128) -> Result<(), Memory>
    // The bytes of the two's complement are put, highest first, and a refused put leaves the bytes as they were.
    ensures ok { OnOk result (out.new.items ≡ out.old.items ++ to_be_bytes w128 (cast_unsigned w128 v)) }
    ensures err { OnErr result (out.new.items ≡ out.old.items) }
    ensures full { OnErr result (vec_capacity out.old < vec_len out.old + 16) }
{
    put_bytes(out, &v.to_be_bytes())
}

/// Puts these bytes at the end.
pub fn put_bytes(out: &mut Vec<u8>, bytes: &[u8]) -> Result<(), Memory>
    // The bytes are put behind what stands, and a refused put leaves those as they were.
    ensures ok { OnOk result (out.new.items ≡ out.old.items ++ bytes.now) }
    ensures err { OnErr result (out.new.items ≡ out.old.items) }
    ensures full { OnErr result (vec_capacity out.old < vec_len out.old + length bytes.now) }
{
    out.extend_from_slice(bytes)?;
    Ok(())
}
