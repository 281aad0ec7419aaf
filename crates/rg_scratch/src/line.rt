ghost use Rattle.std.specs.Prelude.{◌≡◌, ◌<◌, ◌/◌, ◌%◌, ◌++◌, decimal, OnOk, OnErr};
ghost use Rattle.rg_bytes.specs.Keeps.{Keeps};
ghost use Rattle.rg_scratch.specs.Lines.{drawn, line_from, made_line};

use rg_bytes::{Memory, put_bytes, write_whole};

/// What the seed, plus one, is multiplied by.
const SEED_FACTOR: u64 = 6_364_136_223_846_793_005;

/// What a line's number is multiplied by.
const LINE_FACTOR: u64 = 1_442_695_040_888_963_407;

/// Writes a made line of a seed at the end, without a line feed: `T,cA,mB,C`, a time in milliseconds, a
/// card, a merchant and an amount. The times of a seed's lines rise.
///
/// Where memory runs out `out` holds what it held.
pub fn make_line(seed: u64, i: u64, out: &mut Vec<u8>) -> Result<(), Memory>
    requires { i < 200000 }
    // A made line is its formula's, and a refusal leaves the text as it was.
    ensures ok { OnOk result (out.new.items ≡ out.old.items ++ made_line seed i) }
    ensures err { OnErr result (out.new.items ≡ out.old.items) }
{
    let start = out.len();
    match put_line(draw(seed, i), i, out) {
        Ok(()) => Ok(()),
        Err(memory) => {
            out.truncate(start);
            Err(memory)
        }
    }
}

/// The number that a line is made from.
fn draw(seed: u64, i: u64) -> u64
    ensures { result ≡ drawn seed i }
{
    let mixed = seed
        .wrapping_add(1)
        .wrapping_mul(SEED_FACTOR)
        .wrapping_add(i.wrapping_mul(LINE_FACTOR));
    mixed / 65_536
}

/// Writes the line that is made from a number. Where memory runs out a front of it may stand there.
fn put_line(number: u64, i: u64, out: &mut Vec<u8>) -> Result<(), Memory>
    requires { i < 200000 }
    ensures ok { OnOk result (out.new.items ≡ out.old.items ++ line_from number i) }
    ensures err { OnErr result (Keeps out.old.items out.new.items) }
{
    put_numbered(out, b"", 1000 * i + number % 1000)?;
    put_numbered(out, b",c", number / 1000 % 40)?;
    put_numbered(out, b",m", number / 40_000 % 97)?;
    put_numbered(out, b",", number / 3_880_000 % 10_000)
}

/// Writes a text and then a number. Where memory runs out a front of it may stand there.
fn put_numbered(out: &mut Vec<u8>, text: &[u8], number: u64) -> Result<(), Memory>
    ensures ok { OnOk result (out.new.items ≡ out.old.items ++ (text.now ++ decimal number)) }
    ensures err { OnErr result (Keeps out.old.items out.new.items) }
{
    put_bytes(out, text)?;
    write_whole(out, number)
}
