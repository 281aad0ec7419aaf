use crate::keys::{settings_hints, top_hints};
use crate::query::query_hints;
use crate::stream::{default_hints, stream_hints};
use rg_config::{ConfigFault, QueryRefusal, SettingsFault};
use std::alloc::{AllocError, Global};
use std::str;
use toml::Table;

/// A plan that was refused: its text, and what the text says as TOML.
#[derive(Clone, Copy)]
pub(crate) struct Refused<'a> {
    pub(crate) text: &'a str,
    pub(crate) top: &'a Table,
}

/// Writes what helps to mend the plan.
fn write_hints(
    alloc: Global,
    plan: Refused<'_>,
    fault: ConfigFault,
    out: &mut String,
) -> Result<(), AllocError> {
    match fault {
        ConfigFault::Query(number, QueryRefusal::Text(fault)) => {
            query_hints(alloc, plan, number, fault, out)
        }
        ConfigFault::Query(_, QueryRefusal::TooManyAggs) => {
            out.push_str("  an answer is a function behind SELECT: make two queries of this one\n")
        }
        ConfigFault::Stream => stream_hints(alloc, plan, out),
        ConfigFault::Defaults(_) => default_hints(plan, out),
        ConfigFault::Settings(SettingsFault::TopKey | SettingsFault::Queries) => {
            top_hints(plan, out)
        }
        ConfigFault::Settings(_) => settings_hints(plan, out),
        ConfigFault::Toml | ConfigFault::Query(_, _) | ConfigFault::Memory => Ok(()),
    }
}

/// What helps to mend a plan with these bytes that was refused for this fault. The text is empty where nothing is known
/// that helps.
pub fn hints(alloc: Global, bytes: &[u8], fault: ConfigFault) -> Result<String, AllocError> {
    let mut out = String::new(alloc);
    let Ok(text) = str::from_utf8(bytes) else {
        out.push_str("  a plan is a text in UTF-8\n")?;
        return Ok(out);
    };
    if let Ok(top) = toml::table_from_slice(alloc, bytes) {
        write_hints(alloc, Refused { text, top: &top }, fault, &mut out)?;
    }
    Ok(out)
}
