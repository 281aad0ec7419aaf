ghost use Rattle.std.specs.Prelude.{◌≡◌, map, option_map};
ghost use Rattle.toml.specs.Data.{get_member};
ghost use Rattle.toml.specs.View.{view, items_view, table_view};
ghost use Rattle.rg_config.specs.Documents.{document, is_one_of, all_keys, texts, text_at as the_text, texts_at as the_texts};
ghost use Rattle.rg_config.specs.Reading.{Reads};
ghost use Rattle.rg_config.specs.declared.fault.ConfigFault.TheVariants as Fault;

use crate::fault::ConfigFault;
use std::alloc::Global;
use toml::{Table, Value};

/// Reads the bytes of a TOML document.
pub(crate) fn read_table(alloc: Global, bytes: &[u8]) -> Result<Table, ConfigFault>
    ensures { Reads table_view Fault.Toml (document bytes.now) result }
{
    match toml::table_from_slice(alloc, bytes) {
        Ok(table) => Ok(table),
        Err(e) => {
            if e.is_memory() {
                Err(ConfigFault::Memory)
            } else {
                Err(ConfigFault::Toml)
            }
        }
    }
}

/// Whether the table has no keys but these.
pub(crate) fn has_only(table: &Table, keys: &[&str]) -> bool
    ensures { result ≡ all_keys (map (λ key. key.now) keys.now) (table_view table.now) }
{
    'keys: for (key, _) in table {
        if !is_key(keys, key.as_str()) {
            return false;
        }
    }
    true
}

fn is_key(keys: &[&str], key: &str) -> bool
    ensures { result ≡ is_one_of (map (λ known. known.now) keys.now) key.now }
{
    'known: for known in keys {
        if key == *known {
            return true;
        }
    }
    false
}

/// The value at a key.
#[tactic(auto, using(toml::proofs::Views::table_get))]
pub(crate) fn value_at<'a>(table: &'a Table, key: &str) -> Option<&'a Value>
    ensures { option_map (λ value. view value.now) result ≡ get_member key.now (table_view table.now) }
{
    table.get(key)
}

/// The string at a key, or the fault where there is none.
pub(crate) fn text_at<'a>(
    table: &'a Table,
    key: &str,
    fault: ConfigFault,
) -> Result<&'a str, ConfigFault>
    ensures { Reads (λ text. text.now) fault (the_text key.now (table_view table.now)) result }
{
    match value_at(table, key) {
        Some(value) => match value.as_str() {
            Some(text) => Ok(text),
            None => Err(fault),
        },
        None => Err(fault),
    }
}

/// The strings of the array of strings at a key, or the fault where there is none.
pub(crate) fn texts_at<'a>(
    alloc: Global,
    table: &'a Table,
    key: &str,
    fault: ConfigFault,
) -> Result<Vec<&'a str>, ConfigFault>
    ensures { Reads (λ texts. map (λ text. text.now) texts.items) fault (the_texts key.now (table_view table.now)) result }
{
    match value_at(table, key) {
        Some(value) => match value.as_array() {
            Some(items) => texts_of(alloc, items, fault),
            None => Err(fault),
        },
        None => Err(fault),
    }
}

/// The strings of an array, or the fault where one of its values is no string.
fn texts_of(alloc: Global, items: &[Value], fault: ConfigFault) -> Result<Vec<&str>, ConfigFault>
    ensures { Reads (λ texts. map (λ text. text.now) texts.items) fault (texts (items_view items.now)) result }
{
    let mut found = Vec::new(alloc);
    'items: for item in items {
        match item.as_str() {
            Some(text) => match found.push(text) {
                Ok(()) => {}
                Err(_) => return Err(ConfigFault::Memory),
            },
            None => return Err(fault),
        }
    }
    Ok(found)
}
