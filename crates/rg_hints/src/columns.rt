use rg_event::Name;
use rg_keywords::{Keyword, truth};
use std::alloc::{AllocError, Global};
use toml::{Table, Value};

/// The greatest number of columns: the time and 32 more.
const MAX_COLUMNS: usize = 33;

const KINDS: [&str; 4] = ["int", "id", "text", "flag"];

/// A column as the plan writes it: its name, and its kind, if a colon stands there.
#[derive(Clone, Copy)]
struct Column<'a> {
    name: &'a str,
    kind: Option<&'a str>,
}

impl<'a> Column<'a> {
    fn of(text: &'a str) -> Column<'a> {
        match text.split_once(':') {
            Some((name, kind)) => Column {
                name,
                kind: Some(kind),
            },
            None => Column {
                name: text,
                kind: None,
            },
        }
    }
}

fn columns_of(stream: &Table) -> &[Value] {
    match stream.get("columns").and_then(Value::as_array) {
        Some(columns) => columns.as_slice(),
        None => &[],
    }
}

/// The column of this name, and its kind.
pub(crate) fn column_named<'a>(stream: &'a Table, name: &str) -> Option<(&'a str, &'a str)> {
    for value in columns_of(stream) {
        let column = Column::of(value.as_str().unwrap_or(""));
        if column.name == name {
            return Some((column.name, column.kind?));
        }
    }
    None
}

/// Writes the columns past the time, and the time.
pub(crate) fn write_columns(stream: &Table, out: &mut String) -> Result<(), AllocError> {
    out.push_str("  its columns are")?;
    for value in columns_of(stream).iter().skip(1) {
        out.push_str(" ")?;
        out.push_str(value.as_str().unwrap_or(""))?;
    }
    out.push_str("\n  the time stands in no query\n")
}

/// Whether a query would read this name as a word of the language.
fn is_reserved(name: &str) -> bool {
    Keyword::named(name.as_bytes()).is_some() || truth(name.as_bytes()).is_some()
}

/// Writes what is wrong with a kind, if something is, and answers whether something is.
fn write_kind_fault(kind: &str, out: &mut String) -> Result<bool, AllocError> {
    for known in KINDS {
        if kind == known {
            return Ok(false);
        }
        if kind.trim().eq_ignore_ascii_case(known) {
            write!(
                out,
                "the kind is written {known}, in small letters and without spaces\n"
            )?;
            return Ok(true);
        }
    }
    write!(
        out,
        "the kind {kind:?} is none: a kind is int, id, text or flag\n"
    )?;
    Ok(true)
}

/// Writes what is wrong with a name, if something is, and answers whether something is.
fn write_name_fault(alloc: Global, name: &str, out: &mut String) -> Result<bool, AllocError> {
    if is_reserved(name) {
        write!(out, "{name} is a word of the query language\n")?;
        return Ok(true);
    }
    match Name::new(alloc, name.as_bytes()) {
        Ok(Some(_)) => Ok(false),
        Ok(None) => {
            out.push_str(
                "a name is a letter or _ and then letters, digits or _, at most 64 bytes\n",
            )?;
            Ok(true)
        }
        Err(_) => Err(AllocError),
    }
}

/// Whether an earlier column has this name.
fn is_taken(before: &[Value], name: &str) -> bool {
    before.iter().any(|value| Column::of(value.as_str().unwrap_or("")).name == name)
}

/// Writes what is wrong with the column at this place, if something is, and answers whether something is.
fn write_fault(
    alloc: Global,
    before: &[Value],
    column: Column<'_>,
    out: &mut String,
) -> Result<bool, AllocError> {
    if write_name_fault(alloc, column.name, out)? {
        return Ok(true);
    }
    if is_taken(before, column.name) {
        out.push_str("a column before it has that name\n")?;
        return Ok(true);
    }
    match column.kind {
        Some(_) if before.is_empty() => {
            out.push_str("the first column is the time, which has no kind\n")?;
            Ok(true)
        }
        None if before.is_empty() => Ok(false),
        Some(kind) => write_kind_fault(kind, out),
        None => {
            out.push_str(
                "its kind is missing: write NAME:KIND, with the kind int, id, text or flag\n",
            )?;
            Ok(true)
        }
    }
}

/// Writes what is wrong with the column at this place, if something is: its number, its text and the fault.
fn fault_at(alloc: Global, columns: &[Value], at: usize) -> Result<Option<String>, AllocError> {
    let Some(before) = columns.get(..at) else {
        return Ok(None);
    };
    let Some(text) = columns.get(at).and_then(Value::as_str) else {
        return Ok(Some(format!(in alloc; "  column {at} is no text\n")?));
    };
    let mut line = format!(in alloc; "  column {at}, {text:?}, where the time is column 0: ")?;
    if write_fault(alloc, before, Column::of(text), &mut line)? {
        return Ok(Some(line));
    }
    Ok(None)
}

/// Writes the first thing that is wrong with the columns, if something is, and answers whether something is.
pub(crate) fn write_column_fault(
    alloc: Global,
    stream: &Table,
    out: &mut String,
) -> Result<bool, AllocError> {
    let columns = columns_of(stream);
    for at in 0..columns.len() {
        if let Some(line) = fault_at(alloc, columns, at)? {
            out.push_str(line.as_str())?;
            return Ok(true);
        }
    }
    if columns.len() > MAX_COLUMNS {
        out.push_str("  there are more than 32 columns past the time\n")?;
        return Ok(true);
    }
    Ok(false)
}
