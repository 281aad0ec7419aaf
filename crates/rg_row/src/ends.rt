ghost use Rattle.std.specs.Prelude.{◌≡◌, ◌≤◌, length, map};
ghost use Rattle.std.specs.Simd.Lanes.{mask_l};
ghost use Rattle.rg_row.specs.Plain.{is_end, plain_len as length_of_plain};

use std::simd::prelude::*;

/// How many bytes are looked at together.
const LANES: usize = 16;

/// How many bytes stand before the first comma, quote or CR.
#[inline(always)]
pub fn plain_len(bytes: &[u8]) -> usize
    ensures len { result ≡ length_of_plain bytes.now }
    ensures within { result ≤ length bytes.now }
{
    let mut at = 0;
    while bytes.len() - at >= LANES {
        let ends = ends_of(u8x16::from_slice(&bytes[at..]));
        if ends != 0 {
            return at + ends.trailing_zeros() as usize;
        }
        at += LANES;
    }
    let (_, rest) = bytes.split_at(at);
    at + short_len(rest)
}

// How many bytes stand before the first comma, quote or CR, one byte at a time.
#[inline(always)]
fn short_len(bytes: &[u8]) -> usize
    ensures len { result ≡ length_of_plain bytes.now }
    ensures within { result ≤ length bytes.now }
{
    for (i, byte) in bytes.iter().enumerate() {
        if ends_plain(*byte) {
            return i;
        }
    }
    bytes.len()
}

// Most bytes are above a comma, so that one comparison tells.
#[inline(always)]
fn ends_plain(byte: u8) -> bool
    ensures { result ≡ is_end byte }
{
    byte <= b',' && (byte == b',' || byte == b'"' || byte == b'\r')
}

// A bit for each of these bytes, set where it is a comma, a quote or a CR.
#[inline(always)]
fn ends_of(bytes: u8x16) -> u64
    ensures { result ≡ mask_l (map is_end bytes) }
{
    (bytes.simd_eq(u8x16::splat(b','))
        | bytes.simd_eq(u8x16::splat(b'"'))
        | bytes.simd_eq(u8x16::splat(b'\r'))).to_bitmask()
}
