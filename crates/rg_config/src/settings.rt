ghost use Rattle.std.specs.Prelude.{◌≡◌, ◌≤◌, max, min, codes, Ok, IfOk, IfSome, option_and_then};
ghost use Rattle.toml.specs.Data.{as_integer, get_member, no_members};
ghost use Rattle.toml.specs.View.{view, table_view};
ghost use Rattle.rg_config.specs.Documents.{AreInRange, IsFromTo, within as the_within, number_at as the_number, flag_at as the_flag, settings_in as the_settings, settings_or};
ghost use Rattle.rg_config.specs.Reading.{settings_view, ReadsSettings};

use crate::fault::SettingsFault;
use crate::table::{has_only, value_at};
use rg_event::{MAX_CHUNK_EVENTS, MAX_EVENTS, MAX_TIME, Room};
use toml::{Table, Value};

/// The keys of the table of settings.
const SETTING_KEYS: [&str; 7] = [
    "cache", "chunk", "commit", "save", "events", "header", "grace",
];

/// How many events the cache holds at most.
const MAX_CACHED_EVENTS: u64 = 65_536;

/// The range of a number, and what stands for it where it is missing.
#[derive(Clone, Copy, Debug)]
struct Range {
    least: u64,
    most: u64,
    otherwise: u64,
}

/// Chunks in the cache.
const CACHE: Range = Range {
    least: 1,
    most: 1_024,
    otherwise: 64,
};

/// Events in a chunk.
const CHUNK: Range = Range {
    least: 1,
    most: MAX_CHUNK_EVENTS as u64,
    otherwise: 1_024,
};

/// Events between two commits.
const COMMIT: Range = Range {
    least: 1,
    most: 1_000_000,
    otherwise: 1_024,
};

/// Events between two checkpoints.
const SAVE: Range = Range {
    least: 1,
    most: 1_000_000,
    otherwise: 65_536,
};

/// Events in all: at most 2^40.
const EVENTS: Range = Range {
    least: 1,
    most: MAX_EVENTS,
    otherwise: MAX_EVENTS,
};

/// By how many milliseconds an event may be earlier than the last one: at most 10^15.
const GRACE: Range = Range {
    least: 0,
    most: MAX_TIME,
    otherwise: 0,
};

/// What may be set, each in its range.
#[derive(Clone, Copy, Debug)]
pub(crate) struct Settings {
    pub(crate) room: Room,
    pub(crate) commit: u64,
    pub(crate) save: u64,
    pub(crate) header: bool,
    pub(crate) grace: u64,
}

/// The settings of a plan, with defaults for what is missing.
pub(crate) fn read_settings(top: &Table) -> Result<Settings, SettingsFault>
    ensures value { ReadsSettings (settings_or (get_member (codes "settings") (table_view top.now))) result }
    ensures ranges { IfOk result (λ settings. AreInRange (settings_view settings)) }
{
    match value_at(top, "settings") {
        Some(value) => match value.as_table() {
            Some(table) => settings_in(table),
            None => Err(SettingsFault::Table),
        },
        None => Ok(defaults()),
    }
}

/// What holds where nothing is set.
fn defaults() -> Settings
    ensures value { Ok (settings_view result) ≡ the_settings no_members }
    ensures ranges { AreInRange (settings_view result) }
{
    Settings {
        room: Room {
            chunk: CHUNK.otherwise as u32,
            cache: CACHE.otherwise as u32,
            limit: EVENTS.otherwise,
        },
        commit: COMMIT.otherwise,
        save: SAVE.otherwise,
        header: false,
        grace: GRACE.otherwise,
    }
}

/// The settings in their table.
fn settings_in(table: &Table) -> Result<Settings, SettingsFault>
    ensures value { ReadsSettings (the_settings (table_view table.now)) result }
    ensures ranges { IfOk result (λ settings. AreInRange (settings_view settings)) }
{
    if !has_only(table, &SETTING_KEYS) {
        return Err(SettingsFault::Key);
    }
    let cache = number_at(table, "cache", SettingsFault::Cache, CACHE)?;
    let chunk = number_at(table, "chunk", SettingsFault::Chunk, CHUNK)?;
    let commit = number_at(table, "commit", SettingsFault::Commit, COMMIT)?;
    let save = number_at(table, "save", SettingsFault::Save, SAVE)?;
    let limit = number_at(table, "events", SettingsFault::Events, EVENTS)?;
    let header = flag_at(table, "header", SettingsFault::Header)?;
    let grace = number_at(table, "grace", SettingsFault::Grace, GRACE)?;
    if cache * chunk > MAX_CACHED_EVENTS {
        return Err(SettingsFault::CachedEvents);
    }
    Ok(Settings {
        room: Room {
            chunk: chunk as u32,
            cache: cache as u32,
            limit,
        },
        commit,
        save,
        header,
        grace,
    })
}

/// The number at a key, which stands in its range, or the fault where it doesn't.
fn number_at(
    table: &Table,
    key: &str,
    fault: SettingsFault,
    range: Range,
) -> Result<u64, SettingsFault>
    ensures value { result ≡ the_number key.now fault range.least range.most range.otherwise (table_view table.now) }
    ensures least { IfOk result (λ number. min range.least range.otherwise ≤ number) }
    ensures most { IfOk result (λ number. number ≤ max range.most range.otherwise) }
{
    match value_at(table, key) {
        Some(value) => match number_of(value, range) {
            Some(number) => Ok(number),
            None => Err(fault),
        },
        None => Ok(range.otherwise),
    }
}

fn number_of(value: &Value, range: Range) -> Option<u64>
    ensures value { result ≡ option_and_then (the_within range.least range.most) (as_integer (view value.now)) }
    ensures within { IfSome result (IsFromTo range.least range.most) }
{
    match value.as_integer() {
        Some(number) => within(number, range),
        None => None,
    }
}

fn within(number: i64, range: Range) -> Option<u64>
    ensures value { result ≡ the_within range.least range.most number }
    ensures within { IfSome result (IsFromTo range.least range.most) }
{
    if number < 0 {
        return None;
    }
    let number = number as u64;
    if range.least <= number && number <= range.most {
        Some(number)
    } else {
        None
    }
}

/// The flag at a key, false where it is missing, or the fault where it is no flag.
fn flag_at(table: &Table, key: &str, fault: SettingsFault) -> Result<bool, SettingsFault>
    ensures { result ≡ the_flag key.now fault (table_view table.now) }
{
    match value_at(table, key) {
        Some(value) => match value.as_bool() {
            Some(flag) => Ok(flag),
            None => Err(fault),
        },
        None => Ok(false),
    }
}
