use rg_bytes::{Memory, put_bytes};

/// So many times a text.
#[derive(Clone, Copy)]
pub(crate) struct Times(pub(crate) usize, pub(crate) &'static [u8]);

fn put_times(out: &mut Vec<u8>, part: Times) -> Result<(), Memory> {
    for _ in 0..part.0 {
        put_bytes(out, part.1)?;
    }
    Ok(())
}

/// Puts these parts one behind another.
pub(crate) fn put_parts(out: &mut Vec<u8>, parts: &[Times]) -> Result<(), Memory> {
    for part in parts {
        put_times(out, *part)?;
    }
    Ok(())
}
