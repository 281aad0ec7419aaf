ghost use Rattle.std.specs.Prelude.{◌≡◌, map};
ghost use Rattle.rg_metric.specs.Queries.{asked};
ghost use Rattle.rg_plan.specs.Plans.{is_too_many, excess};

use rg_metric::Query;

/// How many queries a plan has at most.
pub const MAX_QUERIES: u32 = 64;

/// How many aggregators a query has at most.
pub const MAX_AGGS: usize = 16;

/// How many columns the key of a query has at most.
pub const MAX_COLUMNS: usize = 8;

/// The first query, counted from 0, that is too large, or has too many before it.
pub(crate) fn first_too_many(queries: &[Query]) -> Option<u32>
    ensures { result ≡ excess (map asked queries.now) }
{
    let mut index = 0;
    for query in queries {
        if is_too_many(index, query) {
            return Some(index);
        }
        index += 1;
    }
    None
}

/// Whether a query has too many parts, or too many before it.
fn is_too_many(index: u32, query: &Query) -> bool
    ensures { result ≡ is_too_many index (asked query.now) }
{
    index >= MAX_QUERIES
        || (query.aggs.as_slice().len() > MAX_AGGS || query.group.as_slice().len() > MAX_COLUMNS)
}
