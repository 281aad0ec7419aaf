ghost use Rattle.std.specs.Prelude.{◌≡◌, ℕ, List, IfOk, Result};
ghost use Rattle.rg_metric.specs.Queries.{Asked, asked};
ghost use Rattle.rg_parse.specs.Parts.{IsMadeOf};
ghost use Rattle.rg_parse.specs.Views.{raw as query_of};
ghost use Rattle.rg_query.specs.declared.fault.QueryFault.{QueryFault as Fault};
ghost use Rattle.rg_query.specs.Building.{Gives};
ghost use Rattle.rg_query.specs.Legal.{IsLegalQuery};
ghost use Rattle.rg_query.specs.Resolving.{resolved};
ghost use Rattle.rg_query.specs.Saying.{Says, Tells, Agrees};

use crate::building::{aggs, filter, group};
use crate::fault::QueryFault;
use crate::names::first_unknown;
use crate::spans::window;
use rg_event::Schema;
use rg_metric::Query;
use rg_parse::{Raw, SyntaxFault, read_syntax};
use std::alloc::Global;

/// The most bytes of a query's text.
const MAX_QUERY_BYTES: usize = 4_096;

/// Reads the text of a query over a schema's stream.
///
/// Of several faults the first of this order is answered: too large, syntax, a name, a kind, a span;
/// and of each the first one in the text.
pub fn parse(alloc: Global, schema: &Schema, text: &[u8]) -> Result<Query, QueryFault>
    // what is answered is what the text says
    ensures sound { Tells schema.now text.now result }
    // each text that says something is answered so
    ensures complete { (said : Result Asked Fault) → Says schema.now text.now said → Agrees said result }
    // a query that is read is legal over the schema
    ensures legal { IfOk result (λ query. IsLegalQuery schema.now (asked query)) }
    // a text says one thing
    ensures unambiguous { (said other : Result Asked Fault) → Says schema.now text.now said → Says schema.now text.now other → said ≡ other }
    // and each text says something
    ensures says { (any : List ℕ) → (said : Result Asked Fault) × Says schema.now any said }
{
    if text.len() > MAX_QUERY_BYTES {
        return Err(QueryFault::TooLarge);
    }
    match read_syntax(alloc, text) {
        Ok(query) => resolve(alloc, schema, text, &query),
        Err(SyntaxFault::At(place)) => Err(QueryFault::Syntax(place)),
        Err(SyntaxFault::TooDeep) => Err(QueryFault::TooLarge),
        Err(SyntaxFault::Memory) => Err(QueryFault::Memory),
    }
}

/// What a query asks of a schema's stream.
fn resolve(alloc: Global, schema: &Schema, text: &[u8], query: &Raw) -> Result<Query, QueryFault>
    requires { IsMadeOf text.now query.now }
    ensures { Gives asked (resolved schema.now (query_of text.now query.now)) result }
{
    if let Some(place) = first_unknown(schema, text, query) {
        return Err(QueryFault::UnknownName(place));
    }
    Ok(Query {
        aggs: aggs(alloc, schema, text, &query.calls)?,
        filter: filter(alloc, schema, text, &query.filter)?,
        group: group(alloc, schema, text, &query.group)?,
        window: window(text, query.length, query.delay)?,
    })
}
