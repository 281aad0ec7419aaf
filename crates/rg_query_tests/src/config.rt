use crate::built::{Times, put_parts};
use crate::rows::{Checks, Row, assert_each};
use crate::written::{Written, is_written};
use rg_bytes::{Memory, put_bytes};
use rg_config::{ConfigFault, DefaultsFault, Plan, QueryRefusal, SettingsFault, read_plan};
use rg_event::Value;
use rg_query::QueryFault;
use std::alloc::Global;
use std::test::Fail;

/// A list of one query.
const QUERIES: &[u8] =
    b"queries = [\"SELECT count(*) FROM payments GROUP BY card OVER SLIDING 5 minutes\"]\n";

/// That query as it is printed: 5 minutes are 300,000 milliseconds.
const PRINTED: &[u8] = b"SELECT count(*) FROM payments GROUP BY card OVER SLIDING 300000 ms";

const PAYMENTS: &[u8] =
    b"[stream]\nname = \"payments\"\ncolumns = [\"ts\", \"card:text\", \"merchant:text\", \"amount:int\"]\n";

/// The schema of those.
const SCHEMA: &[u8] = b"payments(ts,card:text,merchant:text,amount:int)";

/// A setting out of its range.
const BAD: &[u8] = b"[settings]\ncache = 0\n";

/// A query of a list, with the quotes and the comma in front of the next one.
const NEXT: &[u8] = b"SELECT count(*) FROM payments OVER INFINITE\", \"";

/// The most aggregators and columns that a query may have.
const COUNTS: &[u8] =
    b"SELECT count(*), count(*), count(*), count(*), count(*), count(*), count(*), count(*), count(*), count(*), count(*), count(*), count(*), count(*), count(*), count(*)";

const BY_COLUMNS: &[u8] = b" FROM payments GROUP BY card, card, card, card, card, card, card, card";

const WITHOUT_END: &[u8] = b" OVER INFINITE";

/// What is set.
#[derive(Clone, Copy, Debug, PartialEq)]
struct Settings {
    chunk: u32,
    cache: u32,
    events: u64,
    commit: u64,
    save: u64,
    header: bool,
    grace: u64,
}

/// What stands where nothing is set.
const UNSET: Settings = Settings {
    chunk: 1_024,
    cache: 64,
    events: 1_099_511_627_776,
    commit: 1_024,
    save: 65_536,
    header: false,
    grace: 0,
};

/// What is wanted of the reading of a plan.
#[derive(Clone, Copy, Debug)]
enum Want {
    /// It is refused for this.
    Fault(ConfigFault),
    /// It is read.
    Plan,
    /// It is read, is of the payments, has the one query and is set so.
    Set(Settings),
    /// It is read with these defaults: an empty card, no merchant, and -5.
    Defaults,
    /// It is read, and no column has a default.
    NoDefaults,
}

/// Whether these are those defaults.
fn are_two(defaults: &[Option<Value>], checks: &mut Checks) -> bool {
    match defaults {
        [Some(Value::Text(card)), None, Some(Value::Int(-5))] => {
            checks.same_bytes("card", card.as_bytes(), b"")
        }
        _ => checks.fails("defaults", defaults, "a text, none and -5"),
    }
}

/// Whether no column has a default.
fn are_none(defaults: &[Option<Value>], checks: &mut Checks) -> bool {
    matches!(defaults, [None, None, None]) || checks.fails("defaults", defaults, "three times none")
}

/// What a plan sets.
fn set_by(plan: &Plan) -> Settings {
    Settings {
        chunk: plan.room.chunk,
        cache: plan.room.cache,
        events: plan.room.limit,
        commit: plan.commit,
        save: plan.save,
        header: plan.header,
        grace: plan.grace,
    }
}

/// Whether a plan has one query, which is printed so.
fn has_query(plan: &Plan, checks: &mut Checks) -> bool {
    match plan.queries.as_slice() {
        [query] => {
            checks.same_bytes("query", query.as_slice(), PRINTED)
                && checks.same("queries of the task", plan.task.queries(), 1)
        }
        queries => checks.fails("queries", queries.len(), 1),
    }
}

/// Whether a plan is of the payments, has that query and these settings.
fn is_all_set(
    alloc: Global,
    plan: &Plan,
    settings: Settings,
    checks: &mut Checks,
) -> Result<bool, Memory> {
    if has_query(plan, checks) && checks.same("settings", set_by(plan), settings) {
        is_written(alloc, Written::Schema(&plan.schema), SCHEMA, checks)
    } else {
        Ok(false)
    }
}

/// Whether a plan is as it is wanted.
fn is_wanted(alloc: Global, plan: &Plan, want: Want, checks: &mut Checks) -> Result<bool, Memory> {
    match want {
        Want::Fault(fault) => Ok(checks.fails("plan", "read", fault)),
        Want::Plan => Ok(true),
        Want::Set(settings) => is_all_set(alloc, plan, settings, checks),
        Want::Defaults => Ok(are_two(plan.defaults.as_slice(), checks)),
        Want::NoDefaults => Ok(are_none(plan.defaults.as_slice(), checks)),
    }
}

fn is_refused(fault: ConfigFault, want: Want, checks: &mut Checks) -> bool {
    match want {
        Want::Fault(wanted) => checks.same("fault", fault, wanted),
        _ => checks.fails("plan", fault, want),
    }
}

/// Whether a text is read as it is wanted.
fn is_read(alloc: Global, text: &[u8], want: Want, checks: &mut Checks) -> Result<bool, Memory> {
    match read_plan(alloc, text) {
        Ok(plan) => {
            let is_so = is_wanted(alloc, &plan, want, checks);
            drop(plan);
            is_so
        }
        Err(fault) => Ok(is_refused(fault, want, checks)),
    }
}

/// Puts four texts one behind another.
fn put_texts(
    out: &mut Vec<u8>,
    first: &[u8],
    second: &[u8],
    third: &[u8],
    fourth: &[u8],
) -> Result<(), Memory> {
    put_bytes(out, first)?;
    put_bytes(out, second)?;
    put_bytes(out, third)?;
    put_bytes(out, fourth)
}

/// Puts a plan of the payments whose queries are these parts.
fn put_list(out: &mut Vec<u8>, queries: &[Times]) -> Result<(), Memory> {
    put_bytes(out, b"queries = [\"")?;
    put_parts(out, queries)?;
    put_bytes(out, b"\"]\n")?;
    put_bytes(out, PAYMENTS)
}

/// A plan, and what it is read as or refused for.
#[derive(Clone, Copy)]
enum Case {
    /// One with this stream before a bad setting is refused for the stream.
    Stream(&'static [u8]),
    /// One of the payments with these defaults before a bad setting is refused for the defaults.
    Defaults(&'static [u8], DefaultsFault),
    /// One of the payments with this setting is refused for it.
    Setting(&'static [u8], SettingsFault),
    /// One of the payments that begins so is refused for this.
    Top(&'static [u8], ConfigFault),
    /// One of the payments with these queries is refused for the query of this number.
    Query(&'static [Times], u32, QueryRefusal),
    /// With these it is read.
    Queries(&'static [Times]),
    /// One of the payments that ends so is set so.
    Set(&'static [u8], Settings),
    /// It has two defaults.
    Given(&'static [u8]),
    /// It has none.
    NotGiven(&'static [u8]),
}

impl Case {
    /// Puts the plan's text.
    fn put(&self, out: &mut Vec<u8>) -> Result<(), Memory> {
        match self {
            Case::Stream(stream) => put_texts(out, QUERIES, stream, b"", BAD),
            Case::Defaults(defaults, _) => put_texts(out, QUERIES, PAYMENTS, defaults, BAD),
            Case::Setting(setting, _) => {
                put_texts(out, QUERIES, PAYMENTS, b"[settings]\n", setting)
            }
            Case::Top(top, _) => put_texts(out, top, PAYMENTS, b"", b""),
            Case::Query(queries, _, _) | Case::Queries(queries) => put_list(out, queries),
            Case::Set(end, _) | Case::Given(end) | Case::NotGiven(end) => {
                put_texts(out, QUERIES, PAYMENTS, end, b"")
            }
        }
    }

    fn want(&self) -> Want {
        match self {
            Case::Stream(_) => Want::Fault(ConfigFault::Stream),
            Case::Defaults(_, fault) => Want::Fault(ConfigFault::Defaults(*fault)),
            Case::Setting(_, fault) => Want::Fault(ConfigFault::Settings(*fault)),
            Case::Top(_, fault) => Want::Fault(*fault),
            Case::Query(_, number, refusal) => {
                Want::Fault(ConfigFault::Query(*number, *refusal))
            }
            Case::Queries(_) => Want::Plan,
            Case::Set(_, settings) => Want::Set(*settings),
            Case::Given(_) => Want::Defaults,
            Case::NotGiven(_) => Want::NoDefaults,
        }
    }
}

impl Row for Case {
    fn is_so(&self, alloc: Global, checks: &mut Checks) -> Result<bool, Memory> {
        let mut text = Vec::new(alloc);
        let is_so = match self.put(&mut text) {
            Ok(()) => is_read(alloc, &text, self.want(), checks),
            Err(memory) => Err(memory),
        };
        drop(text);
        is_so
    }
}

/// Streams and defaults that are refused.
const STREAMS_AND_DEFAULTS: &[Case] = &[
    // A stream is a name and columns.
    Case::Stream(b""),
    Case::Stream(b"stream = 1\n"),
    Case::Stream(b"[stream]\nname = \"p\"\n"),
    Case::Stream(b"[stream]\nname = \"p\"\ncolumns = [1]\n"),
    Case::Stream(b"[stream]\nname = \"p\"\ncolumns = [\"t\"]\nkey = 1\n"),
    Case::Stream(b"[stream]\nname = \"p\"\ncolumns = [\"t\", \"a:float\"]\n"),
    Case::Stream(b"[stream]\nname = \"p\"\ncolumns = []\n"),
    Case::Stream(b"[stream]\nname = \"p\"\ncolumns = [\"t t\"]\ndefaults = 1\n"),
    // A default is a string that says a value of its column.
    Case::Defaults(b"defaults = \"0\"\n", DefaultsFault::Table),
    Case::Defaults(b"defaults = []\n", DefaultsFault::Table),
    // The time, a name that no column has, and one in other letters.
    Case::Defaults(b"[stream.defaults]\nts = \"0\"\n", DefaultsFault::Key),
    Case::Defaults(
        b"[stream.defaults]\ncity = \"?\"\namount = 1\n",
        DefaultsFault::Key,
    ),
    Case::Defaults(b"[stream.defaults]\nCard = \"?\"\n", DefaultsFault::Key),
    // No string, and no int; the first column that has a bad one is told, whichever the file has first.
    Case::Defaults(b"[stream.defaults]\namount = 1\n", DefaultsFault::Column(3)),
    Case::Defaults(
        b"[stream.defaults]\namount = \"1.5\"\n",
        DefaultsFault::Column(3),
    ),
    Case::Defaults(
        b"[stream.defaults]\namount = \"\"\ncard = 1\n",
        DefaultsFault::Column(1),
    ),
    Case::Defaults(
        b"[stream.defaults]\ncard = \"?\"\nmerchant = []\n",
        DefaultsFault::Column(2),
    ),
];

#[test]
fn a_stream_has_a_name_and_columns_and_a_default_is_a_value_of_its_column(
    rt: HostRuntime,
) -> Result<(), Fail> {
    assert_each(&rt, STREAMS_AND_DEFAULTS)
}

/// Settings and tops of a plan that are refused.
const SETTINGS_AND_TOPS: &[Case] = &[
    // A cache and a chunk stand in their ranges.
    Case::Setting(b"cache = 0\n", SettingsFault::Cache),
    Case::Setting(b"cache = 1_025\n", SettingsFault::Cache),
    Case::Setting(b"cache = 1.0\n", SettingsFault::Cache),
    Case::Setting(b"cache = \"1\"\nchunk = 0\n", SettingsFault::Cache),
    Case::Setting(b"cache = 2020-01-01\n", SettingsFault::Cache),
    Case::Setting(b"chunk = -1\n", SettingsFault::Chunk),
    Case::Setting(b"chunk = 4_097\n", SettingsFault::Chunk),
    Case::Setting(b"cache = 1_024\nchunk = 65\n", SettingsFault::CachedEvents),
    Case::Setting(b"cache = 1_024\n", SettingsFault::CachedEvents),
    // Another setting stands in its range.
    Case::Setting(b"commit = 1_000_001\n", SettingsFault::Commit),
    Case::Setting(b"save = 0\n", SettingsFault::Save),
    Case::Setting(b"events = 1_099_511_627_777\n", SettingsFault::Events),
    Case::Setting(b"header = 1\n", SettingsFault::Header),
    Case::Setting(b"room = 1\ncache = 0\n", SettingsFault::Key),
    Case::Setting(b"grace = -1\n", SettingsFault::Grace),
    Case::Setting(b"grace = 1_000_000_000_000_001\n", SettingsFault::Grace),
    Case::Setting(b"grace = true\nheader = 1\n", SettingsFault::Header),
    Case::Setting(b"grace = \"1\"\ncache = 1_024\n", SettingsFault::Grace),
    // The top has queries and no other key.
    Case::Top(b"x", ConfigFault::Toml),
    Case::Top(b"x = \"\xff\"\n", ConfigFault::Toml),
    Case::Top(b"", ConfigFault::Settings(SettingsFault::Queries)),
    Case::Top(
        b"queries = []\n",
        ConfigFault::Settings(SettingsFault::Queries),
    ),
    Case::Top(
        b"queries = [1]\n",
        ConfigFault::Settings(SettingsFault::Queries),
    ),
    Case::Top(
        b"queries = \"q\"\n",
        ConfigFault::Settings(SettingsFault::Queries),
    ),
    Case::Top(
        b"queries = [\"q\"]\nsettings = 1\n",
        ConfigFault::Settings(SettingsFault::Table),
    ),
    Case::Top(
        b"more = 1\nsettings = 1\n",
        ConfigFault::Settings(SettingsFault::TopKey),
    ),
];

#[test]
fn a_setting_stands_in_its_range_and_the_top_has_queries_and_no_other_key(
    rt: HostRuntime,
) -> Result<(), Fail> {
    assert_each(&rt, SETTINGS_AND_TOPS)
}

/// What is set, by default or by the plan, and lists of queries that are taken or refused.
const SET_AND_ASKED: &[Case] = &[
    // What is set is read, and all else has its default.
    Case::Set(b"", UNSET),
    Case::Set(
        b"[settings]\ncache = 1\nchunk = 2\ncommit = 2\nsave = 4\n",
        Settings {
            chunk: 2,
            cache: 1,
            commit: 2,
            save: 4,
            ..UNSET
        },
    ),
    Case::Set(
        b"[settings]\nevents = 7\nheader = true\ngrace = 0\n",
        Settings {
            events: 7,
            header: true,
            ..UNSET
        },
    ),
    Case::Set(
        b"[settings]\ngrace = 1_000_000_000_000_000\n",
        Settings {
            grace: 1_000_000_000_000_000,
            ..UNSET
        },
    ),
    // A column has its default or none.
    Case::Given(b"[stream.defaults]\namount = \"-5\"\ncard = \"\"\n"),
    Case::NotGiven(b"defaults = {}\n"),
    Case::NotGiven(b""),
    // The first query that isn't taken is named.
    Case::Query(
        &[Times(1, b"SELECT min(card) FROM payments OVER INFINITE")],
        0,
        QueryRefusal::Text(QueryFault::WrongKind(11)),
    ),
    Case::Query(
        &[Times(1, NEXT), Times(1, b"SELECT")],
        1,
        QueryRefusal::Text(QueryFault::Syntax(6)),
    ),
    Case::Query(
        &[Times(64, NEXT), Times(1, b"SELECT")],
        64,
        QueryRefusal::TooMany,
    ),
    // A query has at most 16 aggregators and 8 columns.
    Case::Query(
        &[
            Times(1, NEXT),
            Times(1, COUNTS),
            Times(1, b", count(*)"),
            Times(1, BY_COLUMNS),
            Times(1, b", card"),
            Times(1, WITHOUT_END),
        ],
        1,
        QueryRefusal::TooManyAggs,
    ),
    Case::Query(
        &[
            Times(2, NEXT),
            Times(1, COUNTS),
            Times(1, BY_COLUMNS),
            Times(1, b", card"),
            Times(1, WITHOUT_END),
        ],
        2,
        QueryRefusal::TooManyColumns,
    ),
    Case::Queries(&[
        Times(63, NEXT),
        Times(1, COUNTS),
        Times(1, BY_COLUMNS),
        Times(1, WITHOUT_END),
    ]),
];

#[test]
fn a_plan_has_what_is_set_and_its_first_query_that_is_not_taken_is_named(
    rt: HostRuntime,
) -> Result<(), Fail> {
    assert_each(&rt, SET_AND_ASKED)
}
