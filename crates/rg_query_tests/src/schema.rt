use crate::rows::{Checks, Row, assert_each};
use crate::written::{Written, is_written};
use rg_bytes::{Memory, put_bytes};
use rg_event::{Schema, SchemaFault};
use std::alloc::Global;
use std::test::Fail;

/// The schema that a text says; no memory where it says none.
pub(crate) fn schema_of(alloc: Global, text: &[u8]) -> Result<Schema, Memory> {
    match Schema::parse(alloc, text) {
        Ok(schema) => Ok(schema),
        Err(_) => Err(Memory),
    }
}

/// What a text is.
#[derive(Clone, Copy)]
enum Case {
    /// A schema's, and what is written of a copy of it is the same.
    Kept(&'static [u8]),
    /// No schema's.
    Bad(&'static [u8]),
    /// The one with so many columns is a schema's, or isn't.
    Wide(usize, bool),
}

/// Whether a copy of a schema is written as this text.
fn is_copied(
    alloc: Global,
    schema: &Schema,
    text: &[u8],
    checks: &mut Checks,
) -> Result<bool, Memory> {
    let copy = schema.copy(alloc)?;
    let is_so = is_written(alloc, Written::Schema(&copy), text, checks);
    drop(copy);
    is_so
}

/// Whether a text is a schema's, and the same is written of a copy of it; where it is to be none's, whether it is none's.
fn is_as_said(
    alloc: Global,
    text: &[u8],
    is_one: bool,
    checks: &mut Checks,
) -> Result<bool, Memory> {
    match Schema::parse(alloc, text) {
        Ok(schema) => {
            let is_kept = is_copied(alloc, &schema, text, checks);
            drop(schema);
            Ok(is_kept? && checks.same("it is a schema", true, is_one))
        }
        Err(SchemaFault::Bad) => Ok(checks.same("it is a schema", false, is_one)),
        Err(SchemaFault::Memory) => Err(Memory),
    }
}

/// The comma, and more letters than any name below has.
const NAME: &[u8; 41] = b",aaaaaaaaaaaaaaaaaaaaaaaaaaaaaaaaaaaaaaaa";

/// Puts `p(t,a:id,aa:id,..)` with so many columns.
fn put_wide(out: &mut Vec<u8>, columns: usize) -> Result<(), Memory> {
    put_bytes(out, b"p(t")?;
    for letters in 0..columns.min(39) {
        put_bytes(out, &NAME[..letters + 2])?;
        put_bytes(out, b":id")?;
    }
    put_bytes(out, b")")
}

/// Whether the text with so many columns is a schema's, or isn't.
fn is_wide_as_said(
    alloc: Global,
    columns: usize,
    is_one: bool,
    checks: &mut Checks,
) -> Result<bool, Memory> {
    let mut text = Vec::new(alloc);
    let is_so = match put_wide(&mut text, columns) {
        Ok(()) => is_as_said(alloc, &text, is_one, checks),
        Err(memory) => Err(memory),
    };
    drop(text);
    is_so
}

impl Row for Case {
    fn is_so(&self, alloc: Global, checks: &mut Checks) -> Result<bool, Memory> {
        match self {
            Case::Kept(text) => is_as_said(alloc, text, true, checks),
            Case::Bad(text) => is_as_said(alloc, text, false, checks),
            Case::Wide(columns, is_one) => is_wide_as_said(alloc, *columns, *is_one, checks),
        }
    }
}

#[test]
fn a_schema_is_read_and_written_back_and_what_is_none_is_bad(rt: HostRuntime) -> Result<(), Fail> {
    assert_each(
        &rt,
        &[
            Case::Kept(b"payments(ts,card:text,merchant:text,amount:int)"),
            Case::Kept(b"p(t)"),
            Case::Kept(b"p(t,a:int,b:id,c:text,d:flag)"),
            Case::Kept(b"p(t,a:int,A:int)"),
            Case::Kept(b"p(t,p:int,int:int)"),
            Case::Kept(
                b"count(from_,xxxxxxxxxxxxxxxxxxxxxxxxxxxxxxxxxxxxxxxxxxxxxxxxxxxxxxxxxxxxxxxx:id)",
            ),
            // Column names are distinct words that are not reserved.
            Case::Bad(b"p(t,a:int,b:id,a:text)"),
            Case::Bad(b"p(t,t:int)"),
            Case::Bad(b"select(t)"),
            Case::Bad(b"p(t,Select:int)"),
            Case::Bad(b"p(9a)"),
            Case::Bad(b"p(t,a-b:int)"),
            Case::Bad(b"p(t,:int)"),
            Case::Bad(b"p(t,xxxxxxxxxxxxxxxxxxxxxxxxxxxxxxxxxxxxxxxxxxxxxxxxxxxxxxxxxxxxxxxxx:id)"),
            // Signs and kinds stand as they are to.
            Case::Bad(b"p(t,a: int)"),
            Case::Bad(b"p(t"),
            Case::Bad(b"p(t,a:int"),
            Case::Bad(b"p(t)x"),
            Case::Bad(b"p(t,a:INT)"),
            Case::Bad(b"p(t,a)"),
            Case::Bad(b""),
            // A schema has at most 32 columns.
            Case::Wide(32, true),
            Case::Wide(33, false),
        ],
    )
}
