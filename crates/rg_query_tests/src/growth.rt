ghost use Rattle.std.specs.Prelude.{◌≡◌, [], IfOk, IsTrue};
ghost use Rattle.rg_growth.specs.Growing.{AreDefaultsOf, IsDefaultOf};

use crate::rows::{Checks, Row, assert_each};
use crate::schema::schema_of;
use crate::written::{Written, is_written};
use rg_bytes::Memory;
use rg_event::{Field, Kind, Schema, Value, Word};
use rg_growth::{Defaults, Growth, GrowthFault, grows_to};
use std::alloc::Global;
use std::test::Fail;

/// The schema that grows.
const FROM: &[u8] = b"p(t,a:int)";

/// By hand: the tag, the 17 bytes of the new schema's text, and the text `??` behind its tag.
const GROWTH: &[u8] = b"\x47\0\0\0\x11p(t,a:int,b:text)\x03\x02??";

/// The same of two columns: the flag is true, and the id is 7.
const TWO: &[u8] = b"\x47\0\0\0\x16p(t,a:int,b:flag,c:id)\x04\x01\x02\0\0\0\0\0\0\0\x07";

/// The schema of those.
const LONGER: &[u8] = b"p(t,a:int,b:flag,c:id)";

/// Whether a payload says a growth of a schema, which is written as it was read; where it is to say none, whether it is a bad
/// one.
fn is_read(
    alloc: Global,
    from: &Schema,
    payload: &[u8],
    is_one: bool,
    checks: &mut Checks,
) -> Result<bool, Memory> {
    match Growth::decode(alloc, from, payload) {
        Ok(growth) => {
            let is_kept = is_written(alloc, Written::Growth(&growth), payload, checks);
            drop(growth);
            Ok(is_kept? && checks.same("it is a growth", true, is_one))
        }
        Err(fault) => Ok(
            checks.same("fault", fault, GrowthFault::BadGrowth)
                && checks.same("it is a growth", false, is_one),
        ),
    }
}

/// Whether a payload says a growth of the schema that grows, or none.
fn is_as_said(
    alloc: Global,
    payload: &[u8],
    is_one: bool,
    checks: &mut Checks,
) -> Result<bool, Memory> {
    let from = schema_of(alloc, FROM)?;
    let is_read = is_read(alloc, &from, payload, is_one, checks);
    drop(from);
    is_read
}

/// A default for the first and the third of three columns.
fn push_two(alloc: Global, defaults: &mut Defaults) -> Result<(), Memory> {
    defaults.push(Some(Value::Int(-5)))?;
    defaults.push(None)?;
    defaults.push(Word::new(alloc, b"??")?.map(Value::Text))
}

/// Whether these are those defaults.
fn are_two(defaults: &[Option<Value>], checks: &mut Checks) -> bool {
    match defaults {
        [Some(Value::Int(-5)), None, Some(Value::Text(word))] => {
            checks.same_bytes("text", word.as_bytes(), b"??")
        }
        _ => checks.fails("defaults", defaults, "-5, none and a text"),
    }
}

/// Whether defaults that are made of a list and given again are those.
fn are_given(defaults: Defaults, checks: &mut Checks) -> bool {
    let list = Defaults::from(defaults.into_vec()).into_vec();
    let are_two = are_two(&list, checks);
    drop(list);
    are_two
}

/// Whether those defaults are kept as they are pushed, and by a copy.
fn are_kept(alloc: Global, defaults: &mut Defaults, checks: &mut Checks) -> Result<bool, Memory> {
    push_two(alloc, defaults)?;
    let copy = defaults.copy(alloc)?;
    let are_copied = are_two(copy.as_slice(), checks);
    let are_given = are_given(copy, checks);
    Ok(are_copied && are_given && are_two(defaults.as_slice(), checks))
}

/// Whether they are where they are pushed to defaults of no column.
fn are_pushed(alloc: Global, checks: &mut Checks) -> Result<bool, Memory> {
    let mut defaults = Defaults::new(alloc);
    let are_kept = are_kept(alloc, &mut defaults, checks);
    drop(defaults);
    are_kept
}

/// The default that a number is of a column of this kind; it is none of an int or a text.
fn default_of(kind: Kind, number: Option<u64>) -> Option<Value>
    ensures { IsDefaultOf kind result }
{
    let number = number?;
    match kind {
        Kind::Id => Some(Value::Id(number)),
        Kind::Flag => Some(Value::Flag(number == 1)),
        Kind::Int | Kind::Text => None,
    }
}

/// Numbers that stand for the defaults of three columns.
#[derive(Clone, Copy)]
struct Numbers(Option<u64>, Option<u64>, Option<u64>);

/// Adds the defaults that these numbers are of three columns; false where there are other columns.
fn push_three(fields: &[Field], numbers: Numbers, defaults: &mut Defaults) -> Result<bool, Memory>
    requires { defaults.old ≡ [] }
    ensures { IfOk result (λ are_three. IsTrue are_three → AreDefaultsOf fields.now defaults.new) }
{
    match fields {
        [first, second, third] => {
            defaults.push(default_of(first.kind, numbers.0))?;
            defaults.push(default_of(second.kind, numbers.1))?;
            defaults.push(default_of(third.kind, numbers.2))?;
            Ok(true)
        }
        _ => Ok(false),
    }
}

/// What is asked of two schemas.
#[derive(Clone, Copy)]
enum Ask {
    /// Whether the first grows to the second.
    Grows(bool),
    /// What the growth is written as by the defaults that these numbers are of the second one's columns; nothing, where there
    /// is no growth.
    Fills(Numbers, &'static [u8]),
}

/// Whether the growth by these defaults is written as this payload; where it is empty, whether there is none.
fn is_filled(
    alloc: Global,
    from: &Schema,
    to: &Schema,
    defaults: &Defaults,
    payload: &[u8],
    checks: &mut Checks,
) -> Result<bool, Memory>
    requires { AreDefaultsOf to.now.fields defaults.now }
{
    match Growth::filled(alloc, from, to, defaults)? {
        Some(growth) => {
            let is_so = is_written(alloc, Written::Growth(&growth), payload, checks);
            drop(growth);
            is_so
        }
        None => Ok(payload.is_empty() || checks.fails("growth", "none", payload)),
    }
}

/// Whether it is by the defaults that these numbers are, and no others.
fn fills(
    alloc: Global,
    from: &Schema,
    to: &Schema,
    numbers: Numbers,
    payload: &[u8],
    checks: &mut Checks,
) -> Result<bool, Memory> {
    let mut defaults = Defaults::new(alloc);
    let is_so = match push_three(to.fields(), numbers, &mut defaults) {
        Ok(true) => is_filled(alloc, from, to, &defaults, payload, checks),
        Ok(false) => Ok(checks.fails("columns", to.fields().len(), 3)),
        Err(memory) => Err(memory),
    };
    drop(defaults);
    is_so
}

fn answers(
    alloc: Global,
    from: &Schema,
    to: &Schema,
    ask: Ask,
    checks: &mut Checks,
) -> Result<bool, Memory> {
    match ask {
        Ask::Grows(want) => Ok(checks.same("grows_to", grows_to(from, to), want)),
        Ask::Fills(numbers, payload) => fills(alloc, from, to, numbers, payload, checks),
    }
}

/// Whether it is so of a schema and the one that a text says.
fn answers_to(
    alloc: Global,
    from: &Schema,
    to: &[u8],
    ask: Ask,
    checks: &mut Checks,
) -> Result<bool, Memory> {
    let to = schema_of(alloc, to)?;
    let is_so = answers(alloc, from, &to, ask, checks);
    drop(to);
    is_so
}

/// Whether it is so of the schemas that two texts say.
fn answers_from(
    alloc: Global,
    from: &[u8],
    to: &[u8],
    ask: Ask,
    checks: &mut Checks,
) -> Result<bool, Memory> {
    let from = schema_of(alloc, from)?;
    let is_so = answers_to(alloc, &from, to, ask, checks);
    drop(from);
    is_so
}

/// Whether each front of the growth is bad.
fn are_cut(alloc: Global, checks: &mut Checks) -> Result<bool, Memory> {
    for end in 0..GROWTH.len() {
        let front = GROWTH.get(..end).unwrap_or(b"");
        let is_bad = is_as_said(alloc, front, false, checks)?;
        if !checks.at(is_bad, "length", end) {
            return Ok(false);
        }
    }
    Ok(true)
}

/// What there is of growths.
#[derive(Clone, Copy)]
enum Case {
    /// The schema above grows to this one, or doesn't.
    Grows(&'static [u8], bool),
    /// A payload is read as a growth of that schema and written back.
    Kept(&'static [u8]),
    /// It says none.
    Bad(&'static [u8]),
    /// Defaults keep what is pushed in order.
    Pushed,
    /// The first schema is filled to the second by the defaults that these numbers are, and the growth is written so.
    Fills(&'static [u8], &'static [u8], Numbers, &'static [u8]),
    /// There is no such growth.
    Lacks(&'static [u8], &'static [u8], Numbers),
    /// Each front of the growth is bad.
    Cut,
}

impl Row for Case {
    fn is_so(&self, alloc: Global, checks: &mut Checks) -> Result<bool, Memory> {
        match self {
            Case::Grows(to, want) => answers_from(alloc, FROM, to, Ask::Grows(*want), checks),
            Case::Kept(payload) => is_as_said(alloc, payload, true, checks),
            Case::Bad(payload) => is_as_said(alloc, payload, false, checks),
            Case::Pushed => are_pushed(alloc, checks),
            Case::Fills(from, to, numbers, payload) => {
                answers_from(alloc, from, to, Ask::Fills(*numbers, payload), checks)
            }
            Case::Lacks(from, to, numbers) => {
                answers_from(alloc, from, to, Ask::Fills(*numbers, b""), checks)
            }
            Case::Cut => are_cut(alloc, checks),
        }
    }
}

/// Schemas that one grows to or doesn't, and what growths are written as by their defaults.
const GROWTHS: &[Case] = &[
    // A schema grows by columns behind its own.
    Case::Grows(b"p(t,a:int,b:text)", true),
    Case::Grows(b"p(t,a:int,b:text,c:id)", true),
    Case::Grows(b"p(t,a:int)", false),
    Case::Grows(b"p(t)", false),
    Case::Grows(b"p(t,b:text,a:int)", false),
    Case::Grows(b"p(t,a:id,b:text)", false),
    Case::Grows(b"p(t,c:int,b:text)", false),
    Case::Grows(b"q(t,a:int,b:text)", false),
    Case::Grows(b"p(u,a:int,b:text)", false),
    Case::Pushed,
    // Both columns are missing.
    Case::Fills(FROM, LONGER, Numbers(None, Some(1), Some(7)), TWO),
    // The flag is there: its default isn't used, nor is one needed.
    Case::Fills(
        b"p(t,a:int,b:flag)",
        LONGER,
        Numbers(None, Some(1), Some(7)),
        b"\x47\0\0\0\x16p(t,a:int,b:flag,c:id)\x02\0\0\0\0\0\0\0\x07",
    ),
    Case::Fills(
        b"p(t,a:int,b:flag)",
        LONGER,
        Numbers(None, None, Some(8)),
        b"\x47\0\0\0\x16p(t,a:int,b:flag,c:id)\x02\0\0\0\0\0\0\0\x08",
    ),
    // One of the two has no default.
    Case::Lacks(FROM, LONGER, Numbers(None, None, Some(7))),
    Case::Lacks(FROM, LONGER, Numbers(None, Some(1), None)),
    // The schema itself, and one that it doesn't grow to.
    Case::Lacks(LONGER, LONGER, Numbers(None, Some(1), Some(7))),
    Case::Lacks(
        FROM,
        b"p(t,b:flag,a:id,c:id)",
        Numbers(Some(1), Some(7), Some(7)),
    ),
];

#[test]
fn a_schema_grows_by_further_columns_and_the_defaults_of_just_these(
    rt: HostRuntime,
) -> Result<(), Fail> {
    assert_each(&rt, GROWTHS)
}

#[test]
fn a_growth_is_read_and_written_back_and_what_is_none_is_bad(rt: HostRuntime) -> Result<(), Fail> {
    assert_each(
        &rt,
        &[
            Case::Kept(GROWTH),
            Case::Kept(TWO),
            // Another tag, a byte behind it, and no value.
            Case::Bad(b"\x53\0\0\0\x11p(t,a:int,b:text)\x03\x02??"),
            Case::Bad(b"\x47\0\0\0\x11p(t,a:int,b:text)\x03\x02??\0"),
            Case::Bad(b"\x47\0\0\0\x11p(t,a:int,b:text)"),
            // A value of another kind, and one that is none of its kind.
            Case::Bad(b"\x47\0\0\0\x11p(t,a:int,b:text)\x04\x01"),
            Case::Bad(b"\x47\0\0\0\x11p(t,a:int,b:text)\x03\x01\xff"),
            // No further column, a column less, and one of another name.
            Case::Bad(b"\x47\0\0\0\x0ap(t,a:int)"),
            Case::Bad(b"\x47\0\0\0\x04p(t)"),
            Case::Bad(b"\x47\0\0\0\x11p(t,c:int,b:text)\x03\x02??"),
        ],
    )
}

#[test]
fn a_growth_that_is_cut_is_bad(rt: HostRuntime) -> Result<(), Fail> {
    assert_each(&rt, &[Case::Cut])
}
