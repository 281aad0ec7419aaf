use rg_config::{ConfigFault, read_plan};
use std::alloc::{AllocError, Global};
use std::str;

/// The text of the schema of a plan with these bytes; empty where they are no plan.
fn schema_text(alloc: Global, bytes: &[u8]) -> Result<Vec<u8>, AllocError> {
    let mut text = Vec::new(alloc);
    match read_plan(alloc, bytes) {
        Ok(plan) => {
            let written = plan.schema.write(&mut text);
            drop(plan);
            match written {
                Ok(()) => Ok(text),
                Err(_) => Err(AllocError),
            }
        }
        Err(ConfigFault::Memory) => Err(AllocError),
        Err(_) => Ok(text),
    }
}

/// Writes the first column that differs, where the time is column 0.
fn write_difference(store: &str, plan: &str, out: &mut String) -> Result<(), AllocError> {
    let mut others = plan.split(',');
    for (at, column) in store.split(',').enumerate() {
        match others.next() {
            Some(other) if other == column => {}
            Some(other) => {
                return write!(
                    out,
                    "  column {at} is {column} in the store and {other} in the plan\n"
                );
            }
            None => return write!(out, "  column {at}, {column}, is missing in the plan\n"),
        }
    }
    match others.next() {
        Some(other) => write!(
            out,
            "  the plan has a further column, {other}: give it a default in [stream.defaults]\n"
        ),
        None => Ok(()),
    }
}

/// The columns of the text of a schema, and the stream's name before them.
fn parts(text: &str) -> (&str, &str) {
    let text = text.trim_end();
    match text.split_once('(') {
        Some((name, columns)) => (name, columns.strip_suffix(')').unwrap_or(columns)),
        None => (text, ""),
    }
}

/// Writes that a store is of another stream, where it is.
fn write_streams(store: &str, plan: &str, out: &mut String) -> Result<(), AllocError> {
    if store == plan {
        return Ok(());
    }
    write!(
        out,
        "  the store is of the stream {store}, the plan of {plan}\n"
    )
}

/// Writes how the text of a store's schema differs from that of a plan's.
fn write_schemas(store: &str, plan: &str, out: &mut String) -> Result<(), AllocError> {
    let (store_name, store_columns) = parts(store);
    let (plan_name, plan_columns) = parts(plan);
    write_streams(store_name, plan_name, out)?;
    write_difference(store_columns, plan_columns, out)
}

/// What helps where a store isn't of a plan's schema: how the text of the store's schema differs from that of the plan
/// with these bytes. It is empty where the two are the same, or one of them isn't known.
pub fn schema_hints(alloc: Global, store: &str, bytes: &[u8]) -> Result<String, AllocError> {
    let mut out = String::new(alloc);
    let plan = schema_text(alloc, bytes)?;
    if store.is_empty() || plan.is_empty() {
        return Ok(out);
    }
    if let Ok(plan) = str::from_utf8(&plan) {
        write_schemas(store, plan, &mut out)?;
    }
    Ok(out)
}
