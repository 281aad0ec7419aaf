use crate::rows::Checks;
use rg_bytes::{
    Memory, put_bytes, put_i64, put_i128, put_u8, put_u32, put_u64, write_signed, write_whole,
};
use rg_column::{Width, encode_columns};
use rg_event::{Event, Schema, Value, encode, put_tagged};
use rg_growth::Growth;
use rg_metric::{Agg, Query};
use rg_query::{print, print_agg, print_condition};
use std::alloc::Global;

/// What is written or printed.
#[derive(Clone, Copy)]
pub(crate) enum Written<'a> {
    /// Five numbers as text, one behind another.
    Texts,
    /// A number of each width, and three bytes behind them.
    Numbers,
    /// A number in its least width.
    Least(u64),
    Schema(&'a Schema),
    /// A value behind the tag of its kind.
    Value(&'a Value),
    Event(&'a Event),
    /// Events one behind another.
    Events(&'a [Event]),
    /// The columns of events.
    Columns(&'a Schema, &'a [Event]),
    Growth(&'a Growth),
    Query(&'a Schema, &'a Query),
    /// The condition of a query, if it has one.
    Condition(&'a Schema, &'a Query),
    Agg(&'a Schema, &'a Agg),
}

fn put_texts(out: &mut Vec<u8>) -> Result<(), Memory> {
    write_whole(out, 0)?;
    write_whole(out, 18446744073709551615)?;
    write_signed(out, -5)?;
    write_signed(out, 9223372036854775808)?;
    write_signed(out, i128::MIN)
}

fn put_numbers(out: &mut Vec<u8>) -> Result<(), Memory> {
    put_u8(out, 200)?;
    put_u32(out, 0x01020304)?;
    put_u64(out, u64::MAX - 1)?;
    put_i64(out, -2)?;
    put_i128(out, i128::MIN + 3)?;
    put_bytes(out, b"end")
}

fn put_events(events: &[Event], out: &mut Vec<u8>) -> Result<(), Memory> {
    for event in events {
        encode(event, out)?;
    }
    Ok(())
}

fn put_condition(schema: &Schema, query: &Query, out: &mut Vec<u8>) -> Result<(), Memory> {
    match &query.filter {
        Some(condition) => print_condition(schema, condition, out),
        None => Ok(()),
    }
}

/// Puts it at the end.
fn put(alloc: Global, written: Written<'_>, out: &mut Vec<u8>) -> Result<(), Memory> {
    match written {
        Written::Texts => put_texts(out),
        Written::Numbers => put_numbers(out),
        Written::Least(number) => Width::least(number).put(number, out),
        Written::Schema(schema) => schema.write(out),
        Written::Value(value) => put_tagged(value, out),
        Written::Event(event) => encode(event, out),
        Written::Events(events) => put_events(events, out),
        Written::Columns(schema, events) => encode_columns(schema, events, out),
        Written::Growth(growth) => growth.encode(alloc, out),
        Written::Query(schema, query) => print(schema, query, out),
        Written::Condition(schema, query) => put_condition(schema, query, out),
        Written::Agg(schema, agg) => print_agg(schema, agg, out),
    }
}

/// Puts it behind what stands.
fn put_behind(alloc: Global, written: Written<'_>, out: &mut Vec<u8>) -> Result<(), Memory> {
    put_u8(out, b'x')?;
    put(alloc, written, out)
}

/// Whether these bytes stand behind what stood.
fn are_behind(out: &[u8], want: &[u8], checks: &mut Checks) -> bool {
    let (before, behind) = out.split_at(1.min(out.len()));
    checks.same_bytes("bytes before", before, b"x") && checks.same_bytes("written", behind, want)
}

/// Whether it is written as these bytes, behind what stands.
pub(crate) fn is_written(
    alloc: Global,
    written: Written<'_>,
    want: &[u8],
    checks: &mut Checks,
) -> Result<bool, Memory> {
    let mut out = Vec::new(alloc);
    let put = put_behind(alloc, written, &mut out);
    let is_so = are_behind(&out, want, checks);
    drop(out);
    put?;
    Ok(is_so)
}
