use crate::columns::{column_named, write_column_fault};
use crate::keys::{is_one_of, write_line};
use crate::refused::Refused;
use std::alloc::{AllocError, Global};
use toml::{Table, Value};

const STREAM_KEYS: [&str; 3] = ["name", "columns", "defaults"];

/// Writes which key of the table isn't known, if one isn't, and answers whether one isn't.
fn write_unknown_key(
    plan: Refused<'_>,
    stream: &Table,
    out: &mut String,
) -> Result<bool, AllocError> {
    for (key, _) in stream {
        let key = key.as_str();
        if is_one_of(&STREAM_KEYS, key) {
            continue;
        }
        write_line(plan.text, key, out)?;
        if key == "queries" || key == "settings" {
            write!(
                out,
                "{key} stands below [stream]: move it above the first table\n"
            )?;
        } else if key == "time" || key == "ts" {
            write!(
                out,
                "{key} is no key of [stream]: the time is the first of columns\n"
            )?;
        } else {
            write!(
                out,
                "{key} is no key of [stream], which has name, columns and defaults\n"
            )?;
        }
        return Ok(true);
    }
    Ok(false)
}

/// Writes what is wrong with the table of the stream.
fn write_table_fault(
    alloc: Global,
    plan: Refused<'_>,
    stream: &Table,
    out: &mut String,
) -> Result<(), AllocError> {
    if write_unknown_key(plan, stream, out)? {
        return Ok(());
    }
    if stream.get("name").and_then(Value::as_str).is_none() {
        return out.push_str("  [stream] needs a name, a text, as in name = \"payments\"\n");
    }
    if stream.get("columns").and_then(Value::as_array).is_none() {
        return out.push_str(
            "  [stream] needs columns, a list of texts, as in columns = [\"ts\", \"card:text\"]: the first is the time, without a kind, the others are NAME:KIND, with the kind int, id, text or flag\n",
        );
    }
    if write_column_fault(alloc, stream, out)? {
        return Ok(());
    }
    out.push_str("  the stream's name is no name: a letter or _ and then letters, digits or _\n")
}

/// The key that differs from `stream` by its letters' case alone.
fn other_case(top: &Table) -> Option<&str> {
    for (key, _) in top {
        if key.as_str().eq_ignore_ascii_case("stream") {
            return Some(key.as_str());
        }
    }
    None
}

/// Writes what is wrong with the stream of a plan.
pub(crate) fn stream_hints(
    alloc: Global,
    plan: Refused<'_>,
    out: &mut String,
) -> Result<(), AllocError> {
    match plan.top.get("stream") {
        Some(value) => match value.as_table() {
            Some(stream) => write_table_fault(alloc, plan, stream, out),
            None => out.push_str("  stream is a table: write [stream], and its keys below\n"),
        },
        None => match other_case(plan.top) {
            Some(key) => write!(out, "  {key} is written stream, in small letters\n"),
            None => out.push_str(
                "  there is no table [stream]: write below the queries\n  [stream]\n  name = \"payments\"\n  columns = [\"ts\", \"card:text\", \"amount:int\"]\n",
            ),
        },
    }
}

/// Writes a default, and the kind of its column.
fn write_default(key: &str, kind: &str, value: &Value, out: &mut String) -> Result<(), AllocError> {
    match value.as_str() {
        Some(said) => write!(
            out,
            "  {key} has the default {said:?} and the kind {kind}\n"
        ),
        None => write!(
            out,
            "  {key} has a default that is no string: put it in quotes\n"
        ),
    }
}

/// Writes the defaults, each with the kind of its column.
fn write_defaults(stream: &Table, defaults: &Table, out: &mut String) -> Result<(), AllocError> {
    for (key, value) in defaults {
        let key = key.as_str();
        match column_named(stream, key) {
            Some((_, kind)) => write_default(key, kind, value, out)?,
            None => write!(
                out,
                "  {key} is no column with a kind, so it has no default\n"
            )?,
        }
    }
    out.push_str(
        "  a default is a string, as in \"0\" for an int or an id, \"\" for a text, \"false\" for a flag\n",
    )
}

/// Writes what the defaults say.
pub(crate) fn default_hints(plan: Refused<'_>, out: &mut String) -> Result<(), AllocError> {
    let Some(stream) = plan.top.get("stream").and_then(Value::as_table) else {
        return Ok(());
    };
    match stream.get("defaults").and_then(Value::as_table) {
        Some(defaults) => write_defaults(stream, defaults, out),
        None => out.push_str("  write [stream.defaults], and below it COLUMN = \"VALUE\"\n"),
    }
}
