ghost use Rattle.std.specs.Prelude.{◌≡◌, ◌++◌, codes, map, option_map, option_and_then, IfOk, OnOk};
ghost use Rattle.toml.specs.Data.{get_member};
ghost use Rattle.toml.specs.View.{view, table_view};
ghost use Rattle.rg_growth.specs.Growing.{AreDefaultsOf};
ghost use Rattle.rg_config.specs.Documents.{stream_text as the_text, more_columns, joined as the_columns, described as the_description, stream_of, stream_table};
ghost use Rattle.rg_config.specs.Reading.{Reads, ReadsSchema, ReadsStream};
ghost use Rattle.rg_config.specs.declared.fault.ConfigFault.TheVariants as Fault;

use crate::defaults::read_defaults;
use crate::fault::ConfigFault;
use crate::table::{has_only, text_at, texts_at, value_at};
use rg_bytes::Memory;
use rg_event::{Schema, SchemaFault};
use rg_growth::Defaults;
use std::alloc::Global;
use toml::{Table, Value};

/// The keys of the table of the stream.
const STREAM_KEYS: [&str; 3] = ["name", "columns", "defaults"];

/// The schema of a stream, and the defaults of its columns.
#[derive(Debug, Drop)]
pub(crate) struct Stream {
    pub(crate) schema: Schema,
    pub(crate) defaults: Defaults,
}

/// Reads the stream of a plan.
#[tactic(auto, using(crate::proofs::DefaultsRead::are_defaults, crate::proofs::Parts::schema_refused, crate::proofs::Parts::defaults_read, crate::proofs::Parts::defaults_refused))]
pub(crate) fn read_stream(alloc: Global, top: &Table) -> Result<Stream, ConfigFault>
    ensures reads { ReadsStream (table_view top.now) result }
    ensures defaults { IfOk result (λ stream. AreDefaultsOf stream.schema.fields stream.defaults) }
{
    let schema = match read_schema(alloc, top) {
        Ok(schema) => schema,
        Err(fault) => return Err(fault),
    };
    match read_defaults(alloc, schema.fields(), defaults_said(top)) {
        Ok(defaults) => Ok(Stream { schema, defaults }),
        Err(fault) => Err(fault),
    }
}

/// The schema of the stream.
fn read_schema(alloc: Global, top: &Table) -> Result<Schema, ConfigFault>
    ensures { ReadsSchema (table_view top.now) result }
{
    let text = stream_text(alloc, top)?;
    match Schema::parse(alloc, &text) {
        Ok(schema) => Ok(schema),
        Err(SchemaFault::Bad) => Err(ConfigFault::Stream),
        Err(SchemaFault::Memory) => Err(ConfigFault::Memory),
    }
}

/// What the table of the stream says of defaults.
fn defaults_said(top: &Table) -> Option<&Value>
    ensures { option_map (λ value. view value.now) result ≡ option_and_then (get_member (codes "defaults")) (stream_table (table_view top.now)) }
{
    match value_at(top, "stream") {
        Some(value) => match value.as_table() {
            Some(table) => value_at(table, "defaults"),
            None => None,
        },
        None => None,
    }
}

/// The text of the schema that the table of the stream describes.
fn stream_text(alloc: Global, top: &Table) -> Result<Vec<u8>, ConfigFault>
    ensures { Reads (λ text. text.items) Fault.Stream (stream_of (table_view top.now)) result }
{
    match value_at(top, "stream") {
        Some(value) => match value.as_table() {
            Some(table) => described(alloc, table),
            None => Err(ConfigFault::Stream),
        },
        None => Err(ConfigFault::Stream),
    }
}

fn described(alloc: Global, table: &Table) -> Result<Vec<u8>, ConfigFault>
    ensures { Reads (λ text. text.items) Fault.Stream (the_description (table_view table.now)) result }
{
    if !has_only(table, &STREAM_KEYS) {
        return Err(ConfigFault::Stream);
    }
    let name = text_at(table, "name", ConfigFault::Stream)?;
    let columns = texts_at(alloc, table, "columns", ConfigFault::Stream)?;
    match joined(alloc, name, &columns) {
        Ok(text) => Ok(text),
        Err(_) => Err(ConfigFault::Memory),
    }
}

/// `NAME(COLUMN,COLUMN,..)`
fn joined(alloc: Global, name: &str, columns: &[&str]) -> Result<Vec<u8>, Memory>
    ensures { IfOk result (λ text. text.items ≡ the_text name.now (map (λ column. column.now) columns.now)) }
{
    let mut text = Vec::from_slice(alloc, name.as_bytes())?;
    text.extend_from_slice(b"(")?;
    put_columns(columns, &mut text)?;
    text.extend_from_slice(b")")?;
    Ok(text)
}

/// Appends the columns, parted by commas. An error leaves them begun.
fn put_columns(columns: &[&str], out: &mut Vec<u8>) -> Result<(), Memory>
    ensures { OnOk result (out.new.items ≡ out.old.items ++ the_columns (map (λ column. column.now) columns.now)) }
{
    match columns {
        [] => Ok(()),
        [first, others @ ..] => {
            out.extend_from_slice(first.as_bytes())?;
            put_more(others, out)
        }
    }
}

/// Appends the columns, each behind a comma. An error leaves them begun.
fn put_more(columns: &[&str], out: &mut Vec<u8>) -> Result<(), Memory>
    ensures { OnOk result (out.new.items ≡ out.old.items ++ more_columns (map (λ column. column.now) columns.now)) }
{
    'columns: for column in columns {
        out.extend_from_slice(b",")?;
        out.extend_from_slice(column.as_bytes())?;
    }
    Ok(())
}
