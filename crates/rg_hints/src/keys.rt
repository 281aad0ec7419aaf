use crate::refused::Refused;
use std::alloc::AllocError;
use toml::{Table, Value};

const TOP_KEYS: [&str; 3] = ["queries", "stream", "settings"];

const SETTINGS: [&str; 7] = [
    "cache", "chunk", "commit", "save", "events", "header", "grace",
];

pub(crate) fn is_one_of(known: &[&str], key: &str) -> bool {
    known.iter().any(|known| *known == key)
}

/// Whether a line of a document gives this key a value, or begins the table of this name.
fn is_line_of(line: &str, key: &str) -> bool {
    match line.trim_start().trim_start_matches('[').strip_prefix(key) {
        Some(behind) => behind.trim_start().starts_with(['=', ']', '.']),
        None => false,
    }
}

/// Begins a line with the number, counted from 1, of the first one of the plan that has this key.
pub(crate) fn write_line(text: &str, key: &str, out: &mut String) -> Result<(), AllocError> {
    let mut number = 0u64;
    for line in text.lines() {
        number = number.saturating_add(1);
        if is_line_of(line, key) {
            return write!(out, "  line {number}: ");
        }
    }
    out.push_str("  ")
}

/// What is said of a key that the top of a plan doesn't have.
fn mended(key: &str) -> &'static str {
    match key {
        "query" => "write queries = [\"SELECT ..\"]",
        "defaults" => "the defaults of columns stand in [stream.defaults]",
        "name" | "columns" => "it stands below [stream]",
        _ if is_one_of(&SETTINGS, key) => "it stands below [settings]",
        _ => "a plan has queries, [stream] and [settings]",
    }
}

/// Writes which key of the top isn't known, if one isn't, and answers whether one isn't.
fn write_unknown_key(plan: Refused<'_>, out: &mut String) -> Result<bool, AllocError> {
    for (key, _) in plan.top {
        let key = key.as_str();
        if !is_one_of(&TOP_KEYS, key) {
            write_line(plan.text, key, out)?;
            let mended = mended(key);
            write!(out, "{key} is no key of a plan's top: {mended}\n")?;
            return Ok(true);
        }
    }
    Ok(false)
}

/// The name of the table that has the queries.
fn table_with_queries(top: &Table) -> Option<&str> {
    for (key, value) in top {
        if let Some(inner) = value.as_table() {
            if inner.get("queries").is_some() {
                return Some(key.as_str());
            }
        }
    }
    None
}

/// Writes what is wrong with the queries as a whole.
fn write_queries_fault(plan: Refused<'_>, out: &mut String) -> Result<(), AllocError> {
    match plan.top.get("queries") {
        Some(value) => {
            write_line(plan.text, "queries", out)?;
            if value.is_str() {
                return out.push_str("write the text in brackets: queries = [\"SELECT ..\"]\n");
            }
            out.push_str("it is a list of texts: queries = [\"SELECT ..\", \"SELECT ..\"]\n")
        }
        None => match table_with_queries(plan.top) {
            Some(table) => write!(
                out,
                "  queries stands below [{table}]: move it above the first table\n"
            ),
            None => out.push_str(
                "  there is none: write queries = [\"SELECT ..\"] above the first table\n",
            ),
        },
    }
}

/// Writes what is wrong with the keys at the top of a plan, or with its queries as a whole.
pub(crate) fn top_hints(plan: Refused<'_>, out: &mut String) -> Result<(), AllocError> {
    if write_unknown_key(plan, out)? {
        return Ok(());
    }
    write_queries_fault(plan, out)
}

/// What a setting is to be.
fn wanted_of(key: &str) -> &'static str {
    match key {
        "header" => "is true or false, without quotes",
        "grace" => "is a whole number of milliseconds, without quotes",
        "cache" =>
            "is a whole number of chunks, 64 where it isn't set; times chunk it is at most 65536",
        "chunk" =>
            "is a whole number of payments, 1024 where it isn't set; times cache it is at most 65536",
        _ => "is a whole number of payments, without quotes",
    }
}

/// Writes where the settings stand, and which of them isn't known.
pub(crate) fn settings_hints(plan: Refused<'_>, out: &mut String) -> Result<(), AllocError> {
    let Some(settings) = plan.top.get("settings").and_then(Value::as_table) else {
        return out.push_str("  write [settings], and its keys below\n");
    };
    for (key, value) in settings {
        let key = key.as_str();
        write_line(plan.text, key, out)?;
        if is_one_of(&SETTINGS, key) {
            let kind = value.type_str();
            let wanted = wanted_of(key);
            write!(out, "{key} is of the type {kind}, and {wanted}\n")?;
        } else if key == "queries" {
            out.push_str("queries stands below [settings]: move it above the first table\n")?;
        } else {
            write!(out, "{key} is no setting\n")?;
        }
    }
    Ok(())
}
