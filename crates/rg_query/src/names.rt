ghost use Rattle.std.specs.Prelude.{◌≡◌, ◌≤◌, length, All};
ghost use Rattle.rg_grammar.specs.Grammar as syntax;
ghost use Rattle.rg_parse.specs.Parts.{IsName, IsCall, IsCondition, IsMaybeCondition, IsMadeOf};
ghost use Rattle.rg_parse.specs.Views.{text_at, name as name_of, names as names_of, call as call_of, calls as calls_of, tree, maybe_tree, raw as query_of};
ghost use Rattle.rg_query.specs.Resolving.{column_named as number_and_kind, first_in, in_filter, unknown_column as unknown_at, unknown_stream as unknown_stream_at, unknown_in_agg, unknown_in_tree, first_unknown as first_unknown_in};

use rg_event::{Kind, Schema};
use rg_parse::{Call, Expr, Raw, Span};

/// The bytes of a part of the text.
pub(crate) fn bytes_at<'a>(text: &'a [u8], part: Span) -> &'a [u8]
    requires forward { part.start ≤ part.end }
    requires inside { part.end ≤ length text.now }
    ensures { result.now ≡ text_at text.now part }
{
    &text[part.start..part.end]
}

/// The number of the column of this name, counted from 1 past the time, and its kind.
pub(crate) fn column_named(schema: &Schema, name: &[u8]) -> Option<(u32, Kind)>
    ensures { result ≡ number_and_kind schema.now name.now }
{
    let fields = schema.fields();
    let mut number = 0;
    for field in fields {
        number += 1;
        if field.name.as_bytes() == name {
            return Some((number, field.kind));
        }
    }
    None
}

/// Where the first name stands that is neither the stream's, behind FROM, nor a column's past the
/// time, elsewhere.
pub(crate) fn first_unknown(schema: &Schema, text: &[u8], query: &Raw) -> Option<usize>
    requires { IsMadeOf text.now query.now }
    ensures { result ≡ first_unknown_in schema.now (query_of text.now query.now) }
{
    unknown_in_calls(schema, text, &query.calls)
        .or(unknown_stream(schema, text, query.stream))
        .or(unknown_in_filter(schema, text, &query.filter))
        .or(unknown_in_names(schema, text, &query.group))
}

fn unknown_column(schema: &Schema, text: &[u8], name: Span) -> Option<usize>
    requires { IsName text.now name }
    ensures { result ≡ unknown_at schema.now (name_of text.now name) }
{
    match column_named(schema, bytes_at(text, name)) {
        Some(_) => None,
        None => Some(name.start),
    }
}

fn unknown_stream(schema: &Schema, text: &[u8], name: Span) -> Option<usize>
    requires { IsName text.now name }
    ensures { result ≡ unknown_stream_at schema.now (name_of text.now name) }
{
    if schema.stream().as_bytes() == bytes_at(text, name) {
        None
    } else {
        Some(name.start)
    }
}

fn unknown_in_call(schema: &Schema, text: &[u8], call: Call) -> Option<usize>
    requires { IsCall text.now call }
    ensures { result ≡ unknown_in_agg schema.now (call_of text.now call) }
{
    match call {
        Call::CountAll => None,
        Call::Field(_, name) | Call::Pct(_, name) => unknown_column(schema, text, name),
    }
}

fn unknown_in_calls(schema: &Schema, text: &[u8], calls: &[Call]) -> Option<usize>
    requires { All (IsCall text.now) calls.now }
    ensures { result ≡ first_in (unknown_in_agg schema.now) (calls_of text.now calls.now) }
{
    for call in calls {
        if let Some(place) = unknown_in_call(schema, text, *call) {
            return Some(place);
        }
    }
    None
}

fn unknown_in_filter(schema: &Schema, text: &[u8], filter: &Option<Expr>) -> Option<usize>
    requires { IsMaybeCondition text.now filter.now }
    ensures { result ≡ in_filter (unknown_in_tree schema.now) (maybe_tree text.now filter.now) }
{
    match filter {
        Some(expr) => unknown_in_expr(schema, text, expr),
        None => None,
    }
}

fn unknown_in_expr(schema: &Schema, text: &[u8], expr: &Expr) -> Option<usize>
    requires { IsCondition text.now expr.now }
    ensures { result ≡ unknown_in_tree schema.now (tree text.now expr.now) }
{
    match expr {
        Expr::Compare(name, _, _) => unknown_column(schema, text, *name),
        Expr::Not(inner) => unknown_in_expr(schema, text, inner),
        Expr::And(left, right) => {
            unknown_in_expr(schema, text, left).or(unknown_in_expr(schema, text, right))
        }
        Expr::Or(left, right) => {
            unknown_in_expr(schema, text, left).or(unknown_in_expr(schema, text, right))
        }
    }
}

fn unknown_in_names(schema: &Schema, text: &[u8], names: &[Span]) -> Option<usize>
    requires { All (IsName text.now) names.now }
    ensures { result ≡ first_in (unknown_at schema.now) (names_of text.now names.now) }
{
    for name in names {
        if let Some(place) = unknown_column(schema, text, *name) {
            return Some(place);
        }
    }
    None
}
