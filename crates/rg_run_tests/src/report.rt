use crate::rows::{Checks, Row, assert_each};
use rg_bytes::Memory;
use rg_config::{ConfigFault, DefaultsFault, QueryRefusal, SettingsFault};
use rg_messages::{FailedFile, Refusal, Report, Status, TomlFault};
use rg_query::QueryFault;
use std::alloc::Global;
use std::io;
use std::test::Fail;

/// How a call ended early, and what is said of it.
#[derive(Clone, Copy)]
struct Told {
    status: Status,
    /// Why the plan was refused, if it was.
    refused: Option<ConfigFault>,
    /// The plan's bytes.
    document: &'static [u8],
    /// The folder of the file that failed, if it has one.
    folder: &'static str,
    /// The file or stream that failed, if one did, and the number of the system's error.
    failed: Option<(&'static str, i32)>,
    sentence: &'static str,
}

const TOLD: Told = Told {
    status: Status::Plan,
    refused: None,
    document: b"",
    folder: "",
    failed: None,
    sentence: "",
};

/// Why the plan's bytes are no document, if they are none.
fn toml_fault(alloc: Global, document: &'static [u8]) -> Option<TomlFault> {
    match toml::table_from_slice(alloc, document) {
        Ok(_) => None,
        Err(why) => Some(TomlFault::new(document, why)),
    }
}

impl Told {
    fn refusal(&self, alloc: Global) -> Option<Refusal> {
        match self.refused {
            None => None,
            Some(fault) => Some(Refusal {
                fault,
                toml: toml_fault(alloc, self.document),
            }),
        }
    }

    fn failure(&self) -> Option<FailedFile<'static>> {
        match self.failed {
            None => None,
            Some((name, number)) => Some(FailedFile {
                folder: self.folder,
                name,
                error: io::Error::from_raw_os_error(number),
            }),
        }
    }
}

impl Row for Told {
    fn is_so(&self, rt: HostRuntime, checks: &mut Checks) -> Result<bool, Memory> {
        let report = Report {
            status: self.status,
            plan: "plan.toml",
            refusal: self.refusal(rt.alloc()),
            failure: self.failure(),
        };
        let said = format!(in rt.alloc(); "{report}");
        drop(report);
        match said {
            Ok(said) => Ok(checks.same("sentence", said.as_str(), self.sentence)),
            Err(_) => Err(Memory),
        }
    }
}

const ALL_TOLD: &[Told] = &[
    // words that are refused are told the forms
    Told {
        status: Status::Usage,
        sentence: "usage: railgun run PLAN STORE [FIRST]\n       railgun replay PLAN STORE [FIRST]\n       railgun verify PLAN STORE\n       railgun check PLAN\n       railgun dump STORE\n       railgun info STORE\n       railgun self N SEED\nrailgun 0.1.0",
        ..TOLD
    },
    // a document is told its line
    Told {
        refused: Some(ConfigFault::Toml),
        document: b"queries = []\n[stream\n",
        sentence: "plan.toml: TOML: line 2: unclosed table, expected `]`",
        ..TOLD
    },
    // a setting is told its range
    Told {
        refused: Some(ConfigFault::Settings(SettingsFault::TopKey)),
        sentence: "plan.toml: plan: a key other than queries, stream and settings",
        ..TOLD
    },
    Told {
        refused: Some(ConfigFault::Settings(SettingsFault::Queries)),
        sentence: "plan.toml: plan: queries must be a list of one string or more",
        ..TOLD
    },
    Told {
        refused: Some(ConfigFault::Settings(SettingsFault::Table)),
        sentence: "plan.toml: plan: settings must be a table",
        ..TOLD
    },
    Told {
        refused: Some(ConfigFault::Settings(SettingsFault::Key)),
        sentence: "plan.toml: settings: a key other than cache, chunk, commit, save, events, header and grace",
        ..TOLD
    },
    Told {
        refused: Some(ConfigFault::Settings(SettingsFault::Cache)),
        sentence: "plan.toml: settings: cache must be 1 to 1024",
        ..TOLD
    },
    Told {
        refused: Some(ConfigFault::Settings(SettingsFault::Chunk)),
        sentence: "plan.toml: settings: chunk must be 1 to 4096",
        ..TOLD
    },
    Told {
        refused: Some(ConfigFault::Settings(SettingsFault::Commit)),
        sentence: "plan.toml: settings: commit must be 1 to 1000000",
        ..TOLD
    },
    Told {
        refused: Some(ConfigFault::Settings(SettingsFault::Save)),
        sentence: "plan.toml: settings: save must be 1 to 1000000",
        ..TOLD
    },
    Told {
        refused: Some(ConfigFault::Settings(SettingsFault::Events)),
        sentence: "plan.toml: settings: events must be 1 to 1099511627776",
        ..TOLD
    },
    Told {
        refused: Some(ConfigFault::Settings(SettingsFault::Header)),
        sentence: "plan.toml: settings: header must be true or false",
        ..TOLD
    },
    Told {
        refused: Some(ConfigFault::Settings(SettingsFault::Grace)),
        sentence: "plan.toml: settings: grace must be 0 to 1000000000000000",
        ..TOLD
    },
    Told {
        refused: Some(ConfigFault::Settings(SettingsFault::CachedEvents)),
        sentence: "plan.toml: settings: cache times chunk must be at most 65536",
        ..TOLD
    },
    Told {
        refused: Some(ConfigFault::Stream),
        sentence: "plan.toml: stream: name and columns must be there, and describe a time and up to 32 columns NAME:KIND",
        ..TOLD
    },
    // a default is told its fault and column
    Told {
        refused: Some(ConfigFault::Defaults(DefaultsFault::Table)),
        sentence: "plan.toml: stream: defaults must be a table",
        ..TOLD
    },
    Told {
        refused: Some(ConfigFault::Defaults(DefaultsFault::Key)),
        sentence: "plan.toml: stream: a default of no column past the time",
        ..TOLD
    },
    Told {
        refused: Some(ConfigFault::Defaults(DefaultsFault::Column(4))),
        sentence: "plan.toml: stream: the default of column 4, where the time is 0, must be a string that says a value of its kind",
        ..TOLD
    },
    // a query is told its fault and place
    Told {
        refused: Some(ConfigFault::Query(2, QueryRefusal::TooMany)),
        sentence: "plan.toml: query 2: there are more than 64",
        ..TOLD
    },
    Told {
        refused: Some(ConfigFault::Query(2, QueryRefusal::TooManyAggs)),
        sentence: "plan.toml: query 2: more than 16 answers",
        ..TOLD
    },
    Told {
        refused: Some(ConfigFault::Query(2, QueryRefusal::TooManyColumns)),
        sentence: "plan.toml: query 2: more than 8 columns in GROUP BY",
        ..TOLD
    },
    Told {
        refused: Some(ConfigFault::Query(2, QueryRefusal::Text(QueryFault::Syntax(17)))),
        sentence: "plan.toml: query 2: syntax error at byte 17",
        ..TOLD
    },
    Told {
        refused: Some(ConfigFault::Query(2, QueryRefusal::Text(QueryFault::UnknownName(17)))),
        sentence: "plan.toml: query 2: no column or stream of that name at byte 17",
        ..TOLD
    },
    Told {
        refused: Some(ConfigFault::Query(2, QueryRefusal::Text(QueryFault::WrongKind(0)))),
        sentence: "plan.toml: query 2: a column or literal of the wrong kind at byte 0",
        ..TOLD
    },
    Told {
        refused: Some(ConfigFault::Query(2, QueryRefusal::Text(QueryFault::BadSpan(4000)))),
        sentence: "plan.toml: query 2: a span out of its range at byte 4000",
        ..TOLD
    },
    Told {
        refused: Some(ConfigFault::Query(2, QueryRefusal::Text(QueryFault::TooLarge))),
        sentence: "plan.toml: query 2: longer than 4096 bytes, or nested deeper than 32",
        ..TOLD
    },
    // a file is told its name and the reason
    Told {
        status: Status::Read,
        failed: Some(("plan.toml", 2)),
        sentence: "plan.toml: No such file or directory (os error 2)",
        ..TOLD
    },
    Told {
        status: Status::Write,
        failed: Some(("standard output", 28)),
        sentence: "standard output: No space left on device (os error 28)",
        ..TOLD
    },
    Told {
        status: Status::Limit,
        sentence: "the plan is longer than 65536 bytes, or the input than 1125899906842624",
        ..TOLD
    },
    Told {
        status: Status::Memory,
        sentence: "out of memory",
        ..TOLD
    },
];

#[test]
fn a_call_that_ends_early_is_told_why(rt: HostRuntime) -> Result<(), Fail> {
    assert_each(&rt, rt, ALL_TOLD)
}
