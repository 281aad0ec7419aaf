ghost use Rattle.std.specs.Prelude.{◌≡◌, ◌≤◌, length, Some, option_map};
ghost use Rattle.toml.specs.Data.{get_member};
ghost use Rattle.toml.specs.View.{view, table_view};
ghost use Rattle.rg_config.specs.Documents.{all_keys, default_of as the_default, defaults_from, defaults_in as the_defaults, defaults_or, is_one_of, names};
ghost use Rattle.rg_config.specs.Reading.{Reads, ReadsDefaults};
ghost use Rattle.rg_config.specs.declared.fault.ConfigFault.TheVariants as Fault;
ghost use Rattle.rg_config.specs.declared.fault.DefaultsFault.TheVariants as Cause;

use crate::fault::{ConfigFault, DefaultsFault};
use crate::table::value_at;
use rg_event::{Field, Kind, Name, Value as Default, parse_value};
use rg_growth::Defaults;
use std::alloc::Global;
use toml::{Table, Value};

/// The defaults of these columns, of which this is said, if something is.
pub(crate) fn read_defaults(
    alloc: Global,
    fields: &[Field],
    said: Option<&Value>,
) -> Result<Defaults, ConfigFault>
    requires few { length fields.now ≤ 32 }
    ensures { ReadsDefaults (defaults_or fields.now (option_map (λ value. view value.now) said.entry)) result }
{
    match said {
        Some(value) => match value.as_table() {
            Some(table) => defaults_in(alloc, fields, table),
            None => Err(ConfigFault::Defaults(DefaultsFault::Table)),
        },
        None => match Defaults::none(alloc, fields) {
            Ok(defaults) => Ok(defaults),
            Err(_) => Err(ConfigFault::Memory),
        },
    }
}

/// The defaults of these columns, in their table.
fn defaults_in(alloc: Global, fields: &[Field], table: &Table) -> Result<Defaults, ConfigFault>
    requires few { length fields.now ≤ 32 }
    ensures { ReadsDefaults (the_defaults fields.now (table_view table.now)) result }
{
    if !are_names(table, fields) {
        return Err(ConfigFault::Defaults(DefaultsFault::Key));
    }
    each_default(alloc, fields, table)
}

/// The default of each column.
#[tactic(auto, using(crate::proofs::DefaultsRead::default_start, crate::proofs::DefaultsRead::default_more, crate::proofs::DefaultsRead::default_refused, crate::proofs::DefaultsRead::default_end))]
fn each_default(alloc: Global, fields: &[Field], table: &Table) -> Result<Defaults, ConfigFault>
    requires few { length fields.now ≤ 32 }
    ensures { ReadsDefaults (defaults_from 1 fields.now (table_view table.now)) result }
{
    let mut defaults = Defaults::new(alloc);
    'columns: for (i, field) in fields.iter().enumerate() {
        let default = match default_of(alloc, field, i as u32 + 1, table) {
            Ok(default) => default,
            Err(fault) => return Err(fault),
        };
        match defaults.push(default) {
            Ok(()) => {}
            Err(_) => return Err(ConfigFault::Memory),
        }
    }
    Ok(defaults)
}

/// The default of a column with this number; `None` where the table says nothing of it.
fn default_of(
    alloc: Global,
    field: &Field,
    number: u32,
    table: &Table,
) -> Result<Option<Default>, ConfigFault>
    ensures { Reads (λ default. default) (Fault.Defaults (Cause.Column number)) (the_default field.now.kind (get_member field.now.name (table_view table.now))) result }
{
    match named(table, &field.name) {
        Some(said) => default_in(alloc, field.kind, number, said),
        None => Ok(None),
    }
}

/// The default of a column of this kind with this number, of which this is said.
fn default_in(
    alloc: Global,
    kind: Kind,
    number: u32,
    said: &Value,
) -> Result<Option<Default>, ConfigFault>
    ensures { Reads (λ default. default) (Fault.Defaults (Cause.Column number)) (the_default kind (Some (view said.now))) result }
{
    match said.as_str() {
        Some(text) => match parse_value(alloc, kind, text.as_bytes()) {
            Ok(Some(value)) => Ok(Some(value)),
            Ok(None) => Err(ConfigFault::Defaults(DefaultsFault::Column(number))),
            Err(_) => Err(ConfigFault::Memory),
        },
        None => Err(ConfigFault::Defaults(DefaultsFault::Column(number))),
    }
}

/// The value at a key that is this name.
#[tactic(auto, using(crate::proofs::DefaultsRead::name_is_text))]
fn named<'a>(table: &'a Table, name: &Name) -> Option<&'a Value>
    ensures { option_map (λ value. view value.now) result ≡ get_member name.now (table_view table.now) }
{
    match str::from_utf8(name.as_bytes()) {
        Ok(key) => value_at(table, key),
        // a name is ASCII
        Err(_) => unreachable!(),
    }
}

/// Whether each key of the table is the name of one of these columns.
fn are_names(table: &Table, fields: &[Field]) -> bool
    ensures { result ≡ all_keys (names fields.now) (table_view table.now) }
{
    'keys: for (key, _) in table {
        if !is_name(fields, key.as_str().as_bytes()) {
            return false;
        }
    }
    true
}

/// Whether one of these columns has this name.
fn is_name(fields: &[Field], name: &[u8]) -> bool
    ensures { result ≡ is_one_of (names fields.now) name.now }
{
    'columns: for field in fields {
        if name == field.name.as_bytes() {
            return true;
        }
    }
    false
}
