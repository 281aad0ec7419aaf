use rg_config::{ConfigFault, DefaultsFault, QueryRefusal, SettingsFault};
use rg_query::QueryFault;
use std::fmt;

/// Where bytes stop being a TOML document.
#[derive(Clone, Copy, Debug)]
pub struct TomlFault {
    /// The line, counted from 1.
    pub line: usize,
    pub why: toml::de::Error,
}

impl TomlFault {
    /// The fault that `toml` found in these bytes.
    pub fn new(bytes: &[u8], why: toml::de::Error) -> TomlFault {
        let place = match why.span() {
            Some(span) => span.start,
            None => 0,
        };
        let mut line = 1usize;
        for byte in bytes.iter().take(place) {
            if *byte == b'\n' {
                line = line.saturating_add(1);
            }
        }
        TomlFault { line, why }
    }
}

impl fmt::Display for TomlFault {
    fn fmt<W: fmt::Write>(&self, f: &mut fmt::Formatter<W>) -> fmt::Result {
        write!(f, "TOML: line {}: {}", self.line, self.why.message())
    }
}

/// Why a plan is refused.
#[derive(Clone, Copy, Debug)]
pub struct Refusal {
    pub fault: ConfigFault,
    /// Where the plan stops being TOML, if it isn't.
    pub toml: Option<TomlFault>,
}

/// A fault of the defaults of a stream's columns, in words.
#[derive(Drop)]
struct DefaultsWords(DefaultsFault);

impl fmt::Display for DefaultsWords {
    fn fmt<W: fmt::Write>(&self, f: &mut fmt::Formatter<W>) -> fmt::Result {
        match self.0 {
            DefaultsFault::Table => f.write_str("defaults must be a table"),
            DefaultsFault::Key => f.write_str("a default of no column past the time"),
            DefaultsFault::Column(number) => write!(
                f,
                "the default of column {number}, where the time is 0, must be a string that says a value of its kind"
            ),
        }
    }
}

/// A fault of the settings, or of what stands beside them, in words.
#[derive(Drop)]
struct SettingsWords(SettingsFault);

impl fmt::Display for SettingsWords {
    fn fmt<W: fmt::Write>(&self, f: &mut fmt::Formatter<W>) -> fmt::Result {
        f.write_str(match self.0 {
            SettingsFault::TopKey => "plan: a key other than queries, stream and settings",
            SettingsFault::Queries => "plan: queries must be a list of one string or more",
            SettingsFault::Table => "plan: settings must be a table",
            SettingsFault::Key => {
                "settings: a key other than cache, chunk, commit, save, events, header and grace"
            }
            SettingsFault::Cache => "settings: cache must be 1 to 1024",
            SettingsFault::Chunk => "settings: chunk must be 1 to 4096",
            SettingsFault::Commit => "settings: commit must be 1 to 1000000",
            SettingsFault::Save => "settings: save must be 1 to 1000000",
            SettingsFault::Events => "settings: events must be 1 to 1099511627776",
            SettingsFault::Header => "settings: header must be true or false",
            SettingsFault::Grace => "settings: grace must be 0 to 1000000000000000",
            SettingsFault::CachedEvents => "settings: cache times chunk must be at most 65536",
        })
    }
}

/// Why a query isn't taken, in words. A place is in bytes of its text, from 0.
#[derive(Drop)]
struct QueryWords(QueryRefusal);

impl fmt::Display for QueryWords {
    fn fmt<W: fmt::Write>(&self, f: &mut fmt::Formatter<W>) -> fmt::Result {
        match self.0 {
            QueryRefusal::TooMany => f.write_str("there are more than 64"),
            QueryRefusal::TooManyAggs => f.write_str("more than 16 answers"),
            QueryRefusal::TooManyColumns => f.write_str("more than 8 columns in GROUP BY"),
            QueryRefusal::Text(QueryFault::Syntax(place)) => {
                write!(f, "syntax error at byte {place}")
            }
            QueryRefusal::Text(QueryFault::UnknownName(place)) => {
                write!(f, "no column or stream of that name at byte {place}")
            }
            QueryRefusal::Text(QueryFault::WrongKind(place)) => {
                write!(f, "a column or literal of the wrong kind at byte {place}")
            }
            QueryRefusal::Text(QueryFault::BadSpan(place)) => {
                write!(f, "a span out of its range at byte {place}")
            }
            QueryRefusal::Text(QueryFault::TooLarge) => {
                f.write_str("longer than 4096 bytes, or nested deeper than 32")
            }
            QueryRefusal::Text(QueryFault::Memory) => f.write_str("out of memory"),
        }
    }
}

impl fmt::Display for Refusal {
    fn fmt<W: fmt::Write>(&self, f: &mut fmt::Formatter<W>) -> fmt::Result {
        match self.fault {
            ConfigFault::Toml => match self.toml {
                Some(fault) => write!(f, "{fault}"),
                None => f.write_str("TOML: the plan is no document"),
            },
            ConfigFault::Stream => f.write_str(
                "stream: name and columns must be there, and describe a time and up to 32 columns NAME:KIND",
            ),
            ConfigFault::Defaults(fault) => write!(f, "stream: {}", DefaultsWords(fault)),
            ConfigFault::Settings(fault) => write!(f, "{}", SettingsWords(fault)),
            ConfigFault::Query(number, refusal) => {
                write!(f, "query {number}: {}", QueryWords(refusal))
            }
            ConfigFault::Memory => f.write_str("out of memory"),
        }
    }
}
