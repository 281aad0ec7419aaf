use std::alloc::Global;
use std::process::Abort;
use std::test::Fail;

/// A row of a test: what is called, and what is wanted of it.
pub(crate) trait Row {
    /// Whether it is so; it isn't where memory runs out.
    fn is_so(&self, alloc: Global) -> bool;
}

/// The number of the first row that isn't so, if there is one.
fn first_other<R: Row>(alloc: Global, rows: &[R]) -> Option<usize> {
    let mut number = 0usize;
    for row in rows {
        if !row.is_so(alloc) {
            return Some(number);
        }
        number = number.saturating_add(1);
    }
    None
}

/// There is nothing wrong, of whose number a failure tells.
fn assert_none(rt: &impl Abort, wrong: Option<usize>) -> Result<(), Fail> {
    assert_eq!(rt; wrong, None);
    Ok(())
}

/// Each row, all of constants, is so; a failure tells the number of the first that isn't, counted from 0.
pub(crate) fn assert_each<R: Row>(
    rt: &(impl Abort + AllocGlobal),
    rows: &'static [R],
) -> Result<(), Fail> {
    assert_none(rt, first_other(rt.alloc(), rows))
}
