use rg_bytes::{Memory, put_bytes, put_u8, write_whole};
use rg_scratch::make_line;
use std::alloc::Global;
use std::test::Fail;

/// A part of a text that is too long to stand in a row.
#[derive(Clone, Copy)]
pub(super) enum Piece<'a> {
    /// Just this.
    Is(&'a str),
    /// This so many times.
    Times(u32, &'a str),
    /// This for each number from the first one on, up to the second and without it: `#` stands for the number and `@`
    /// for the next one.
    Each(u64, u64, &'a str),
    /// 2,000 made lines.
    Made,
}

fn put_times(out: &mut Vec<u8>, times: u32, text: &str) -> Result<(), Memory> {
    for _ in 0..times {
        put_bytes(out, text.as_bytes())?;
    }
    Ok(())
}

/// Adds what a byte stands for.
fn put_byte(out: &mut Vec<u8>, byte: u8, number: u64) -> Result<(), Memory> {
    match byte {
        b'#' => write_whole(out, number),
        b'@' => write_whole(out, number.saturating_add(1)),
        _ => put_u8(out, byte),
    }
}

fn put_numbered(out: &mut Vec<u8>, text: &str, number: u64) -> Result<(), Memory> {
    for byte in text.as_bytes() {
        put_byte(out, *byte, number)?;
    }
    Ok(())
}

fn put_each(out: &mut Vec<u8>, first: u64, end: u64, text: &str) -> Result<(), Memory> {
    for number in first..end {
        put_numbered(out, text, number)?;
    }
    Ok(())
}

fn put_made(out: &mut Vec<u8>) -> Result<(), Memory> {
    for i in 0..2000 {
        make_line(7, i, out)?;
        put_u8(out, b'\n')?;
    }
    Ok(())
}

fn put_piece(out: &mut Vec<u8>, piece: Piece<'_>) -> Result<(), Memory> {
    match piece {
        Piece::Is(text) => put_bytes(out, text.as_bytes()),
        Piece::Times(times, text) => put_times(out, times, text),
        Piece::Each(first, end, text) => put_each(out, first, end, text),
        Piece::Made => put_made(out),
    }
}

fn put_pieces(out: &mut Vec<u8>, pieces: &[Piece<'_>]) -> Result<(), Memory> {
    for piece in pieces {
        put_piece(out, *piece)?;
    }
    Ok(())
}

/// These bytes, and these parts behind them.
pub(super) fn written(alloc: Global, front: &[u8], pieces: &[Piece<'_>]) -> Result<Vec<u8>, Fail> {
    let mut all = front.to_vec(alloc)?;
    match put_pieces(&mut all, pieces) {
        Ok(()) => Ok(all),
        Err(memory) => Err(Fail::from(memory)),
    }
}
