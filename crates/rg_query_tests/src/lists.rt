use crate::rows::{Checks, Row, assert_each};
use rg_bytes::Memory;
use rg_event::{Bytes, Texts};
use std::alloc::Global;
use std::test::Fail;

fn push(alloc: Global, texts: &mut Texts, text: &[u8]) -> Result<(), Memory> {
    let text = Bytes::from_slice(alloc, text)?;
    texts.push(text)
}

/// Two texts, and an empty one behind them.
fn push_three(alloc: Global, texts: &mut Texts) -> Result<(), Memory> {
    push(alloc, texts, b"one")?;
    push(alloc, texts, b"two")?;
    texts.push(Bytes::new(alloc))
}

/// Whether these are those three texts.
fn are_three(texts: &Texts, checks: &mut Checks) -> bool {
    match texts.as_slice() {
        [one, two, none] => {
            checks.same_bytes("first text", one.as_slice(), b"one")
                && checks.same_bytes("second text", two.as_slice(), b"two")
                && checks.same_bytes("third text", none.as_slice(), b"")
        }
        texts => checks.fails("texts", texts.len(), 3),
    }
}

/// Whether a copy of texts is equal to them and is those three.
fn are_copied(alloc: Global, texts: &Texts, checks: &mut Checks) -> Result<bool, Memory> {
    let copies = texts.copy(alloc)?;
    let are_kept = checks.same("a copy is equal", copies == *texts, true)
        && are_three(&copies, checks);
    drop(copies);
    Ok(are_kept)
}

/// Whether texts to which three are pushed are kept.
fn are_kept(alloc: Global, texts: &mut Texts, checks: &mut Checks) -> Result<bool, Memory> {
    push_three(alloc, texts)?;
    are_copied(alloc, texts, checks)
}

/// The one row: three texts are kept that are pushed.
#[derive(Clone, Copy)]
struct Three;

impl Row for Three {
    fn is_so(&self, alloc: Global, checks: &mut Checks) -> Result<bool, Memory> {
        let mut texts = Texts::new(alloc);
        let are_kept = are_kept(alloc, &mut texts, checks);
        drop(texts);
        are_kept
    }
}

#[test]
fn texts_keep_what_is_pushed_in_order(rt: HostRuntime) -> Result<(), Fail> {
    assert_each(&rt, &[Three])
}
