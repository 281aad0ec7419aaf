ghost use Rattle.std.specs.Prelude.{◌≡◌, ◌++◌, ◌∷◌, [], IfOk, OnOk};
ghost use Rattle.rg_host.specs.Lines.{ended};
ghost use Rattle.rg_verify.specs.Verdicts.{said_of, verdict_text};
ghost use Rattle.rg_verify.specs.Verify.{verify_lines};

use crate::verdict::Verdict;
use rg_bytes::{Memory, put_bytes, write_whole};
use std::alloc::Global;

/// Adds the line of slot `i` that says a word and a number, without LF. An error leaves it begun.
fn push_said(text: &mut Vec<u8>, i: u32, word: &[u8], number: u64) -> Result<(), Memory>
    ensures { OnOk result (text.new.items ≡ text.old.items ++ said_of i word.now number) }
{
    put_bytes(text, b"slot ")?;
    write_whole(text, u64::from(i))?;
    put_bytes(text, word)?;
    write_whole(text, number)
}

/// Puts the line of a slot that isn't complete.
fn push_none(text: &mut Vec<u8>, i: u32) -> Result<(), Memory>
    ensures { OnOk result (text.new.items ≡ text.old.items ++ verdict_text i Verdict.Missing) }
{
    put_bytes(text, b"slot ")?;
    write_whole(text, u64::from(i))?;
    put_bytes(text, b" none")
}

/// Adds the line of slot `i`, without LF. An error leaves it begun.
fn push_verdict(text: &mut Vec<u8>, i: u32, verdict: Verdict) -> Result<(), Memory>
    ensures { OnOk result (text.new.items ≡ text.old.items ++ verdict_text i verdict) }
{
    match verdict {
        Verdict::Missing => push_none(text, i),
        Verdict::Other(count) => push_said(text, i, b" other ", count),
        Verdict::Unfit(count) => push_said(text, i, b" unfit ", count),
        Verdict::Right(count) => push_said(text, i, b" ok ", count),
        Verdict::Wrong(node) => push_said(text, i, b" wrong ", u64::from(node)),
    }
}

/// The lines of both slots, each ended by LF.
pub(crate) fn lines_of(alloc: Global, first: Verdict, second: Verdict) -> Result<Vec<u8>, Memory>
    ensures { IfOk result (λ text. text.items ≡ ended (verify_lines first second)) }
{
    let mut text = Vec::new(alloc);
    push_verdict(&mut text, 0, first)?;
    put_bytes(&mut text, b"\n")?;
    push_verdict(&mut text, 1, second)?;
    put_bytes(&mut text, b"\n")?;
    Ok(text)
}
