ghost use Rattle.std.specs.Prelude.{◌≡◌, None, All};
ghost use Rattle.rg_metric.specs.Conditions.{test_of};
ghost use Rattle.rg_metric.specs.Queries.{filter_test};
ghost use Rattle.rg_parse.specs.Parts.{IsName, IsCall, IsLiteral, IsCondition, IsMaybeCondition};
ghost use Rattle.rg_parse.specs.Views.{name as name_of, names as names_of, literal as literal_of, call as call_of, calls as calls_of, tree, maybe_tree};
ghost use Rattle.rg_grammar.specs.Grammar.{compared};
ghost use Rattle.rg_query.specs.Resolving.{first_in, in_filter, percent_of, unknown_column, unknown_in_agg, unknown_in_tree};
ghost use Rattle.rg_query.specs.Building.{Gives, same, agg_meant, field_meant, aggs_meant, test_meant, filter_meant, group_meant};

use crate::fault::QueryFault;
use crate::kinds::{compares, literal_value, place_of};
use crate::names::{bytes_at, column_named};
use rg_bytes::read_whole;
use rg_event::Schema;
use rg_metric::{Agg, Aggs, Columns, Condition, Func, Op, takes};
use rg_parse::{Call, Expr, Literal, Span};
use std::alloc::Global;

/// The aggregators of a query whose names are known.
pub(crate) fn aggs(
    alloc: Global,
    schema: &Schema,
    text: &[u8],
    calls: &[Call],
) -> Result<Aggs, QueryFault>
    requires { All (IsCall text.now) calls.now }
    ensures { first_in (unknown_in_agg schema.now) (calls_of text.now calls.now) ≡ None →
        Gives same (aggs_meant schema.now (calls_of text.now calls.now)) result }
{
    let mut aggs = Aggs::new(alloc);
    for call in calls {
        aggs.push(agg(schema, text, *call)?)?;
    }
    Ok(aggs)
}

fn agg(schema: &Schema, text: &[u8], call: Call) -> Result<Agg, QueryFault>
    requires { IsCall text.now call }
    ensures { unknown_in_agg schema.now (call_of text.now call) ≡ None →
        Gives same (agg_meant schema.now (call_of text.now call)) result }
{
    match call {
        Call::CountAll => Ok(Agg {
            func: Func::Count,
            field: 0,
        }),
        Call::Field(func, name) => agg_of(schema, text, func, name),
        Call::Pct(number, name) => match percent(bytes_at(text, number)) {
            Some(percent) => agg_of(schema, text, Func::Pct(percent), name),
            None => Err(QueryFault::WrongKind(number.start)),
        },
    }
}

/// A function of a column whose name is known.
fn agg_of(schema: &Schema, text: &[u8], func: Func, name: Span) -> Result<Agg, QueryFault>
    requires { IsName text.now name }
    ensures { unknown_column schema.now (name_of text.now name) ≡ None →
        Gives same (field_meant schema.now func (name_of text.now name)) result }
{
    match column_named(schema, bytes_at(text, name)) {
        Some((field, kind)) => {
            if takes(func, kind) {
                Ok(Agg { func, field })
            } else {
                Err(QueryFault::WrongKind(name.start))
            }
        }
        None => Err(QueryFault::UnknownName(name.start)),
    }
}

/// The percent from 1 to 100 that a number says.
fn percent(number: &[u8]) -> Option<u32>
    ensures { result ≡ percent_of number.now }
{
    match read_whole(number) {
        Some(percent) => {
            if 1 <= percent && percent <= 100 {
                Some(percent as u32)
            } else {
                None
            }
        }
        None => None,
    }
}

/// The condition of a query whose names are known.
pub(crate) fn filter(
    alloc: Global,
    schema: &Schema,
    text: &[u8],
    filter: &Option<Expr>,
) -> Result<Option<Condition>, QueryFault>
    requires { IsMaybeCondition text.now filter.now }
    ensures { in_filter (unknown_in_tree schema.now) (maybe_tree text.now filter.now) ≡ None →
        Gives filter_test (filter_meant schema.now (maybe_tree text.now filter.now)) result }
{
    match filter {
        Some(expr) => Ok(Some(condition(alloc, schema, text, expr)?)),
        None => Ok(None),
    }
}

fn condition(
    alloc: Global,
    schema: &Schema,
    text: &[u8],
    expr: &Expr,
) -> Result<Condition, QueryFault>
    requires { IsCondition text.now expr.now }
    ensures { unknown_in_tree schema.now (tree text.now expr.now) ≡ None →
        Gives test_of (test_meant schema.now (tree text.now expr.now)) result }
{
    match expr {
        Expr::Compare(name, op, literal) => {
            comparison(alloc, schema, text, *name, *op, *literal)
        }
        Expr::Not(inner) => {
            let inner = condition(alloc, schema, text, inner)?;
            Ok(Condition::Not(Box::new(alloc, inner)?))
        }
        Expr::And(left, right) => {
            let left = condition(alloc, schema, text, left)?;
            let right = condition(alloc, schema, text, right)?;
            Ok(Condition::And(Box::new(alloc, left)?, Box::new(alloc, right)?))
        }
        Expr::Or(left, right) => {
            let left = condition(alloc, schema, text, left)?;
            let right = condition(alloc, schema, text, right)?;
            Ok(Condition::Or(Box::new(alloc, left)?, Box::new(alloc, right)?))
        }
    }
}

fn comparison(
    alloc: Global,
    schema: &Schema,
    text: &[u8],
    name: Span,
    op: Op,
    literal: Literal,
) -> Result<Condition, QueryFault>
    requires name { IsName text.now name }
    requires literal { IsLiteral text.now literal }
    ensures { unknown_column schema.now (name_of text.now name) ≡ None →
        Gives test_of (test_meant schema.now (compared (name_of text.now name) op (literal_of text.now literal))) result }
{
    let Some((column, kind)) = column_named(schema, bytes_at(text, name)) else {
        return Err(QueryFault::UnknownName(name.start));
    };
    if !compares(kind, op) {
        return Err(QueryFault::WrongKind(name.start));
    }
    match literal_value(alloc, kind, text, literal)? {
        Some(value) => Ok(Condition::Compare(column, op, value)),
        None => Err(QueryFault::WrongKind(place_of(literal))),
    }
}

/// The columns of the key of a query whose names are known.
pub(crate) fn group(
    alloc: Global,
    schema: &Schema,
    text: &[u8],
    names: &[Span],
) -> Result<Columns, QueryFault>
    requires { All (IsName text.now) names.now }
    ensures { first_in (unknown_column schema.now) (names_of text.now names.now) ≡ None →
        Gives same (group_meant schema.now (names_of text.now names.now)) result }
{
    let mut columns = Columns::new(alloc);
    for name in names {
        match column_named(schema, bytes_at(text, *name)) {
            Some((column, _)) => columns.push(column)?,
            None => return Err(QueryFault::UnknownName(name.start)),
        }
    }
    Ok(columns)
}
