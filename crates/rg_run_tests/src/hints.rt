use crate::rows::{Checks, Row, assert_each};
use rg_bytes::Memory;
use rg_config::read_plan;
use rg_hints::{hints, schema_hints};
use std::alloc::{AllocError, Global};
use std::test::Fail;

/// A refused plan, and what is said to mend it.
#[derive(Clone, Copy)]
struct Mended {
    plan: &'static str,
    said: &'static str,
}

/// What is said of a plan with this text; empty where it is taken.
fn said_of(alloc: Global, plan: &str) -> Result<String, AllocError> {
    match read_plan(alloc, plan.as_bytes()) {
        Ok(plan) => {
            drop(plan);
            Ok(String::new(alloc))
        }
        Err(fault) => hints(alloc, plan.as_bytes(), fault),
    }
}

impl Row for Mended {
    fn is_so(&self, rt: HostRuntime, checks: &mut Checks) -> Result<bool, Memory> {
        let said = said_of(rt.alloc(), self.plan)?;
        let is_so = checks.same("hints", said.as_str(), self.said);
        Ok(checks.at(is_so, "plan", self.plan))
    }
}

const QUERIES: &[Mended] = &[
    // a unit that isn't one
    Mended {
        plan: "queries = [\"SELECT count(*) FROM p OVER SLIDING 5 min\"]\n[stream]\nname = \"p\"\ncolumns = [\"ts\"]\n",
        said: "  SELECT count(*) FROM p OVER SLIDING 5 min\n                                        ^\n  a minute is written minute or minutes\n  here may stand: a unit (ms, second, minute, hour or day, also with an s)\n",
    },
    // the second line of a query; a sign of two bytes
    Mended {
        plan: "queries = [\"SELECT count(*) FROM p\\nWHERE a == 3 OVER INFINITE\"]\n[stream]\nname = \"p\"\ncolumns = [\"ts\", \"a:int\"]\n",
        said: "  WHERE a == 3 OVER INFINITE\n           ^\n  values are compared by one =\n  here may stand: a whole number, a text in single quotes, TRUE or FALSE\n",
    },
    // a letter of two bytes before the mark takes one cell
    Mended {
        plan: "queries = [\"SELECT count(*) FROM p WHERE m = 'é' x OVER INFINITE\"]\n[stream]\nname = \"p\"\ncolumns = [\"ts\", \"m:text\"]\n",
        said: "  SELECT count(*) FROM p WHERE m = 'é' x OVER INFINITE\n                                       ^\n  here may stand: GROUP BY, OVER, AND or OR\n",
    },
    // a query that isn't finished
    Mended {
        plan: "queries = [\"SELECT count(*) FROM p\"]\n[stream]\nname = \"p\"\ncolumns = [\"ts\"]\n",
        said: "  SELECT count(*) FROM p\n                        ^\n  a query ends with its window: OVER INFINITE, or OVER SLIDING 5 minutes\n  here may stand: WHERE, GROUP BY, OVER\n",
    },
    // names and kinds
    Mended {
        plan: "queries = [\"SELECT sum(b) FROM p OVER INFINITE\"]\n[stream]\nname = \"p\"\ncolumns = [\"ts\", \"a:int\", \"m:text\"]\n",
        said: "  SELECT sum(b) FROM p OVER INFINITE\n             ^\n  b is no column of a query; names keep their case\n  its columns are a:int m:text\n  the time stands in no query\n",
    },
    Mended {
        plan: "queries = [\"SELECT sum(m) FROM p OVER INFINITE\"]\n[stream]\nname = \"p\"\ncolumns = [\"ts\", \"m:text\"]\n",
        said: "  SELECT sum(m) FROM p OVER INFINITE\n             ^\n  m is of the kind text\n  sum, avg and sumsq take an int; min, max, first, last, median and pct an int or an id; countDistinct takes each kind; pct takes a number from 1 to 100 first\n",
    },
    Mended {
        plan: "queries = [\"SELECT count(*) FROM q OVER INFINITE\"]\n[stream]\nname = \"p\"\ncolumns = [\"ts\"]\n",
        said: "  SELECT count(*) FROM q OVER INFINITE\n                       ^\n  the stream is p, not q\n",
    },
];

const STREAMS: &[Mended] = &[
    Mended {
        plan: "queries = [\"x\"]\n[stream]\nname = \"p\"\ncolumns = [\"ts\", \"amount:decimal\"]\n",
        said: "  column 1, \"amount:decimal\", where the time is column 0: the kind \"decimal\" is none: a kind is int, id, text or flag\n",
    },
    Mended {
        plan: "queries = [\"x\"]\n[stream]\nname = \"p\"\ncolumns = [\"ts\", \"m: TEXT\"]\n",
        said: "  column 1, \"m: TEXT\", where the time is column 0: the kind is written text, in small letters and without spaces\n",
    },
    Mended {
        plan: "queries = [\"x\"]\n[stream]\nname = \"p\"\ncolumns = [\"ts\", \"group:text\"]\n",
        said: "  column 1, \"group:text\", where the time is column 0: group is a word of the query language\n",
    },
    Mended {
        plan: "queries = [\"x\"]\n[stream]\nname = \"p\"\ncolums = [\"ts\"]\n",
        said: "  line 4: colums is no key of [stream], which has name, columns and defaults\n",
    },
    Mended {
        plan: "queries = [\"x\"]\n[Stream]\nname = \"p\"\ncolumns = [\"ts\"]\n",
        said: "  Stream is written stream, in small letters\n",
    },
    Mended {
        plan: "queries = [\"x\"]\n[stream]\nname = \"p\"\ncolumns = [\"ts\", \"f:flag\"]\ndefaults = {f = \"TRUE\"}\n",
        said: "  f has the default \"TRUE\" and the kind flag\n  a default is a string, as in \"0\" for an int or an id, \"\" for a text, \"false\" for a flag\n",
    },
];

const KEYS: &[Mended] = &[
    Mended {
        plan: "[stream]\nname = \"p\"\ncolumns = [\"ts\"]\n[settings]\nqueries = [\"x\"]\n",
        said: "  queries stands below [settings]: move it above the first table\n",
    },
    Mended {
        plan: "\nquery = [\"x\"]\n[stream]\nname = \"p\"\ncolumns = [\"ts\"]\n",
        said: "  line 2: query is no key of a plan's top: write queries = [\"SELECT ..\"]\n",
    },
    Mended {
        plan: "queries = [\"x\"]\n[stream]\nname = \"p\"\ncolumns = [\"ts\"]\n[settings]\ncomit = 3\n",
        said: "  line 6: comit is no setting\n",
    },
    // no document: the refusal says where
    Mended {
        plan: "queries = [\n",
        said: "",
    },
];

#[test]
fn a_query_is_shown_with_a_mark_and_what_may_stand_there(rt: HostRuntime) -> Result<(), Fail> {
    assert_each(&rt, rt, QUERIES)
}

#[test]
fn a_stream_is_told_its_first_column_that_is_wrong(rt: HostRuntime) -> Result<(), Fail> {
    assert_each(&rt, rt, STREAMS)
}

#[test]
fn a_key_is_told_where_it_stands(rt: HostRuntime) -> Result<(), Fail> {
    assert_each(&rt, rt, KEYS)
}

/// The text of a store's schema, the columns of a plan, and what is said of the two.
#[derive(Clone, Copy)]
struct Stored(&'static str, &'static str, &'static str);

impl Row for Stored {
    fn is_so(&self, rt: HostRuntime, checks: &mut Checks) -> Result<bool, Memory> {
        let Stored(store, columns, wanted) = *self;
        let plan = format!(in rt.alloc();
            "queries = [\"SELECT count(*) FROM p OVER INFINITE\"]\n[stream]\nname = \"p\"\ncolumns = [{columns}]\n"
        )?;
        let said = schema_hints(rt.alloc(), store, plan.as_bytes())?;
        let is_so = checks.same("hints", said.as_str(), wanted);
        Ok(checks.at(is_so, "schema", store))
    }
}

const SCHEMAS: &[Stored] = &[
    Stored(
        "p(ts,a:int)",
        "\"ts\", \"a:id\"",
        "  column 1 is a:int in the store and a:id in the plan\n",
    ),
    Stored(
        "p(ts,a:int)",
        "\"ts\"",
        "  column 1, a:int, is missing in the plan\n",
    ),
    Stored(
        "p(ts)",
        "\"ts\", \"a:id\"",
        "  the plan has a further column, a:id: give it a default in [stream.defaults]\n",
    ),
    Stored(
        "q(ts,a:id)",
        "\"ts\", \"a:id\"",
        "  the store is of the stream q, the plan of p\n",
    ),
    Stored("p(ts,a:id)", "\"ts\", \"a:id\"", ""),
    Stored("", "\"ts\", \"a:id\"", ""),
];

#[test]
fn a_store_of_another_schema_is_told_the_first_column_that_differs(
    rt: HostRuntime,
) -> Result<(), Fail> {
    assert_each(&rt, rt, SCHEMAS)
}
