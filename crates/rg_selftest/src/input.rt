ghost use Rattle.std.specs.Prelude.{◌≡◌, ◌<◌, ◌≤◌, ◌++◌, ◌∷◌, [], IfOk, OnOk};
ghost use Rattle.rg_host.specs.Lines.{ended};
ghost use Rattle.rg_scratch.specs.Lines.{made_line};
ghost use Rattle.rg_selftest.specs.Trials.{made_lines, plan_text};

use rg_bytes::{Memory, put_bytes};
use rg_scratch::make_line;
use std::alloc::Global;

/// The plan of a trial, as TOML.
pub fn plan_bytes() -> &'static [u8]
    // The plan of a trial is the one of the definitions.
    ensures { result.now ≡ plan_text }
{
    b"queries = ['SELECT count(*), sum(amount) FROM payments GROUP BY card OVER SLIDING 5 minutes', 'SELECT countDistinct(merchant), max(amount) FROM payments WHERE amount >= 5000 GROUP BY card OVER SLIDING 1 hour DELAYED BY 1 minute', 'SELECT avg(amount) FROM payments OVER INFINITE']\n[stream]\nname = 'payments'\ncolumns = ['ts', 'card:text', 'merchant:text', 'amount:int']\n[settings]\ncache = 4\nchunk = 256\ncommit = 1024\nsave = 4096\n"
}

/// So many made lines of a seed, each ended by LF.
pub fn made_input(alloc: Global, lines: u64, seed: u64) -> Result<Vec<u8>, Memory>
    requires { lines ≤ 200000 }
    // The lines of a trial are those of the definitions.
    ensures { IfOk result (λ input. input.items ≡ ended (made_lines seed lines)) }
{
    let mut input = Vec::new(alloc);
    'lines: for i in 0..lines {
        put_made(seed, i, &mut input)?;
    }
    Ok(input)
}

/// Writes a made line and LF at the end. Where memory runs out the line may stand there without LF.
fn put_made(seed: u64, i: u64, input: &mut Vec<u8>) -> Result<(), Memory>
    requires { i < 200000 }
    ensures { OnOk result (input.new.items ≡ input.old.items ++ (made_line seed i ++ 10 ∷ [])) }
{
    make_line(seed, i, input)?;
    put_bytes(input, b"\n")
}
