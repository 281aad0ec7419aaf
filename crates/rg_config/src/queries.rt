ghost use Rattle.std.specs.Prelude.{◌≡◌, ◌≤◌, ◌++◌, [], ◌∷◌, None, IfOk, OnOk, map, All};
ghost use Rattle.rg_metric.specs.Queries.{asked};
ghost use Rattle.rg_plan.specs.Plans.{excess};
ghost use Rattle.rg_query.specs.Legal.{IsLegalQuery};
ghost use Rattle.rg_query.specs.Printing.{query_text};
ghost use Rattle.rg_config.specs.Plans.{excess_in};
ghost use Rattle.rg_config.specs.Reading.{ReadsQuery, ReadsQueries, RefusesText};

use crate::fault::{ConfigFault, QueryRefusal};
use rg_bytes::Memory;
use rg_event::{Bytes, Schema, Texts};
use rg_metric::Query;
use rg_plan::{MAX_AGGS, MAX_COLUMNS, MAX_QUERIES};
use rg_query::{QueryFault, parse, print};
use std::alloc::Global;

/// The queries of a plan, as they are printed too.
#[derive(Debug, Drop)]
pub(crate) struct Queries {
    pub(crate) printed: Texts,
    pub(crate) parsed: Vec<Query>,
}

/// Reads the texts of the queries, in order. The first one that isn't taken is refused.
pub(crate) fn read_queries(
    alloc: Global,
    schema: &Schema,
    texts: &[&str],
) -> Result<Queries, ConfigFault>
    ensures reads { ReadsQueries schema.now (map (λ text. text.now) texts.now) result }
    ensures printed { IfOk result (λ queries. queries.printed ≡ map (query_text schema.now) (map asked queries.parsed.items)) }
    ensures legal { IfOk result (λ queries. All (IsLegalQuery schema.now) (map asked queries.parsed.items)) }
    ensures within { IfOk result (λ queries. excess (map asked queries.parsed.items) ≡ None) }
{
    let mut queries = Queries {
        printed: Texts::new(alloc),
        parsed: Vec::new(alloc),
    };
    'texts: for (number, text) in texts.iter().enumerate() {
        let query = match read_query(alloc, schema, number, text) {
            Ok(query) => query,
            Err(fault) => return Err(fault),
        };
        match queries.push(alloc, schema, query) {
            Ok(()) => {}
            Err(_) => return Err(ConfigFault::Memory),
        }
    }
    Ok(queries)
}

impl Queries {
    /// Adds a query at the end. An error leaves the printed text or nothing added.
    fn push(&mut self, alloc: Global, schema: &Schema, query: Query) -> Result<(), Memory>
        ensures parsed { OnOk result (self.new.parsed.items ≡ self.old.parsed.items ++ query ∷ []) }
        ensures printed { OnOk result (self.new.printed ≡ self.old.printed ++ query_text schema.now (asked query) ∷ []) }
    {
        self.printed.push(printed(alloc, schema, &query)?)?;
        self.parsed.push(query)?;
        Ok(())
    }
}

/// The text of a query as it is printed.
fn printed(alloc: Global, schema: &Schema, query: &Query) -> Result<Bytes, Memory>
    ensures { IfOk result (λ text. text ≡ query_text schema.now (asked query.now)) }
{
    let mut text = Vec::new(alloc);
    print(schema, query, &mut text)?;
    Ok(Bytes::from(text))
}

/// Reads the text with this number, counted from 0.
fn read_query(
    alloc: Global,
    schema: &Schema,
    number: usize,
    text: &str,
) -> Result<Query, ConfigFault>
    requires at_most { number ≤ 64 }
    ensures reads { ReadsQuery number schema.now text.now result }
    ensures legal { IfOk result (λ query. IsLegalQuery schema.now (asked query)) }
{
    let number = number as u32;
    if number >= MAX_QUERIES {
        return Err(ConfigFault::Query(number, QueryRefusal::TooMany));
    }
    match parse(alloc, schema, text.as_bytes()) {
        Ok(query) => match excess_of(&query) {
            None => Ok(query),
            Some(refusal) => Err(ConfigFault::Query(number, refusal)),
        },
        Err(fault) => Err(refuse_text(number, fault)),
    }
}

/// How the query with this number is refused, whose text is refused by this fault.
fn refuse_text(number: u32, fault: QueryFault) -> ConfigFault
    ensures { RefusesText number fault result }
{
    if fault == QueryFault::Memory {
        return ConfigFault::Memory;
    }
    ConfigFault::Query(number, QueryRefusal::Text(fault))
}

/// What a query has too much of.
fn excess_of(query: &Query) -> Option<QueryRefusal>
    ensures { result ≡ excess_in (asked query.now) }
{
    if query.aggs.as_slice().len() > MAX_AGGS {
        return Some(QueryRefusal::TooManyAggs);
    }
    if query.group.as_slice().len() > MAX_COLUMNS {
        return Some(QueryRefusal::TooManyColumns);
    }
    None
}
