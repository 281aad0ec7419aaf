use rg_bytes::{Memory, put_bytes};

/// Bytes in pieces, which stand for the bytes that they are when they are joined.
pub(crate) type Pieces = &'static [&'static [u8]];

/// Adds the pieces, joined.
pub(crate) fn put_pieces(out: &mut Vec<u8>, pieces: Pieces) -> Result<(), Memory> {
    for piece in pieces {
        put_bytes(out, piece)?;
    }
    Ok(())
}
