ghost use Rattle.std.specs.Prelude.{◌≡◌, ◌++◌, ◌∷◌, [], List, ℕ, Ok, length, take, codes, OnOk, OnErr};
ghost use Rattle.rg_event.specs.Shapes.{Shape};
ghost use Rattle.rg_metric.specs.Conditions.{test_of};
ghost use Rattle.rg_metric.specs.Queries.{Asked, asked, filter_test};
ghost use Rattle.rg_keywords.specs.Words.{op_text};
ghost use Rattle.rg_query.specs.Saying.{IsShort, Says};
ghost use Rattle.rg_query.specs.Printing.{name_at, doubled, literal_text, and_is_enclosed as and_test, or_is_enclosed as or_test, opening, closing, test_text, condition_text, operand_text, percent_text, agg_text, more_text, list_text, where_text, group_text, length_text, delay_text, query_text};

use rg_bytes::{Memory, put_bytes, put_u8, write_signed, write_whole};
use rg_event::{Field, Schema, Value};
use rg_keywords::Op;
use rg_metric::{Agg, Condition, Func, Query, Window};

/// Where a condition stands in another.
#[derive(Clone, Copy, Debug, PartialEq, Eq)]
pub(crate) enum Side {
    /// Alone, or on the left of an OR.
    BesideOr,
    /// On the right of an OR, or on the left of an AND.
    BesideAnd,
    /// Behind NOT, or on the right of an AND.
    BehindNot,
}

/// Writes a query at the end. Where memory runs out `out` holds what it held.
pub fn print(schema: &Schema, query: &Query, out: &mut Vec<u8>) -> Result<(), Memory>
    // The query is printed to the byte, or nothing is.
    ensures ok { OnOk result (out.new.items ≡ out.old.items ++ query_text schema.now (asked query.now)) }
    ensures err { OnErr result (out.new.items ≡ out.old.items) }
    // what is printed of a query that was read is read as that query again, within the limit
    ensures reads_back { (text : List ℕ) → Says schema.now text (Ok (asked query.now)) →
        IsShort (query_text schema.now (asked query.now)) →
        Says schema.now (query_text schema.now (asked query.now)) (Ok (asked query.now)) }
    // two queries that were read and print alike are one, however long they print
    ensures differs { (other : Asked) (text more : List ℕ) →
        Says schema.now text (Ok (asked query.now)) → Says schema.now more (Ok other) →
        query_text schema.now (asked query.now) ≡ query_text schema.now other → asked query.now ≡ other }
{
    // a schema's names are words that aren't the language's
    let _ = schema.fields();
    let start = out.len();
    match put_query(schema, query, out) {
        Ok(()) => Ok(()),
        Err(memory) => {
            out.truncate(start);
            Err(memory)
        }
    }
}

/// Writes a condition at the end, as it is printed in its query.
/// Where memory runs out `out` holds what it held.
pub fn print_condition(
    schema: &Schema,
    condition: &Condition,
    out: &mut Vec<u8>,
) -> Result<(), Memory>
    // The condition is printed as it is in its query.
    ensures ok { OnOk result (out.new.items ≡ out.old.items ++ condition_text schema.now (test_of condition.now)) }
    ensures err { OnErr result (out.new.items ≡ out.old.items) }
{
    let start = out.len();
    match put_condition(schema, Side::BesideOr, condition, out) {
        Ok(()) => Ok(()),
        Err(memory) => {
            out.truncate(start);
            Err(memory)
        }
    }
}

/// Writes an aggregator at the end, as it is printed in its query.
/// Where memory runs out `out` holds what it held.
pub fn print_agg(schema: &Schema, agg: &Agg, out: &mut Vec<u8>) -> Result<(), Memory>
    // The aggregator is printed as it is in its query.
    ensures ok { OnOk result (out.new.items ≡ out.old.items ++ agg_text schema.now agg.now) }
    ensures err { OnErr result (out.new.items ≡ out.old.items) }
{
    let start = out.len();
    match put_agg(schema, agg, out) {
        Ok(()) => Ok(()),
        Err(memory) => {
            out.truncate(start);
            Err(memory)
        }
    }
}

/// Appends a query. An error leaves it begun.
#[tactic(auto, using(crate::proofs::Fronts::front_of_more))]
fn put_query(schema: &Schema, query: &Query, out: &mut Vec<u8>) -> Result<(), Memory>
    ensures ok { OnOk result (out.new.items ≡ out.old.items ++ query_text schema.now (asked query.now)) }
    ensures begun { take (length out.old.items) out.new.items ≡ out.old.items }
{
    put_bytes(out, b"SELECT ")?;
    put_aggs(schema, query.aggs.as_slice(), out)?;
    put_stream(schema, out)?;
    put_events(schema, query, out)
}

/// Appends where the events come from. An error leaves it begun.
#[tactic(auto, using(crate::proofs::Fronts::front_of_more))]
fn put_stream(schema: &Schema, out: &mut Vec<u8>) -> Result<(), Memory>
    ensures ok { OnOk result (out.new.items ≡ out.old.items ++ (codes " FROM " ++ schema.now.stream)) }
    ensures begun { take (length out.old.items) out.new.items ≡ out.old.items }
{
    put_bytes(out, b" FROM ")?;
    put_bytes(out, schema.stream().as_bytes())
}

/// Appends what stands behind the stream. An error leaves it begun.
#[tactic(auto, using(crate::proofs::Fronts::front_of_more))]
fn put_events(schema: &Schema, query: &Query, out: &mut Vec<u8>) -> Result<(), Memory>
    ensures ok { OnOk result (out.new.items ≡ out.old.items ++ (where_text schema.now (filter_test query.now.filter) ++ (group_text schema.now query.now.group ++ (codes " OVER " ++ (length_text query.now.window.length ++ delay_text query.now.window.delay))))) }
    ensures begun { take (length out.old.items) out.new.items ≡ out.old.items }
{
    put_filter(schema, &query.filter, out)?;
    put_group(schema, query.group.as_slice(), out)?;
    put_window(&query.window, out)
}

/// Appends a list of aggregators. An error leaves it begun.
#[tactic(auto, using(crate::proofs::Fronts::front_of_more))]
fn put_aggs(schema: &Schema, aggs: &[Agg], out: &mut Vec<u8>) -> Result<(), Memory>
    ensures ok { OnOk result (out.new.items ≡ out.old.items ++ list_text (agg_text schema.now) aggs.now) }
    ensures begun { take (length out.old.items) out.new.items ≡ out.old.items }
{
    match aggs {
        [] => Ok(()),
        [first, others @ ..] => {
            put_agg(schema, first, out)?;
            put_more_aggs(schema, others, out)
        }
    }
}

/// Appends aggregators, a comma before each. An error leaves them begun.
#[tactic(auto, using(crate::proofs::Fronts::front_of_more))]
fn put_more_aggs(schema: &Schema, aggs: &[Agg], out: &mut Vec<u8>) -> Result<(), Memory>
    ensures ok { OnOk result (out.new.items ≡ out.old.items ++ more_text (agg_text schema.now) aggs.now) }
    ensures begun { take (length out.old.items) out.new.items ≡ out.old.items }
{
    for agg in aggs {
        put_next_agg(schema, agg, out)?;
    }
    Ok(())
}

/// Appends an aggregator and a comma before it. An error leaves them begun.
#[tactic(auto, using(crate::proofs::Fronts::front_of_more))]
fn put_next_agg(schema: &Schema, agg: &Agg, out: &mut Vec<u8>) -> Result<(), Memory>
    ensures ok { OnOk result (out.new.items ≡ out.old.items ++ (codes ", " ++ agg_text schema.now agg.now)) }
    ensures begun { take (length out.old.items) out.new.items ≡ out.old.items }
{
    put_bytes(out, b", ")?;
    put_agg(schema, agg, out)
}

/// Appends an aggregator. An error leaves it begun.
#[tactic(auto, using(crate::proofs::Fronts::front_of_more))]
fn put_agg(schema: &Schema, agg: &Agg, out: &mut Vec<u8>) -> Result<(), Memory>
    ensures ok { OnOk result (out.new.items ≡ out.old.items ++ agg_text schema.now agg.now) }
    ensures begun { take (length out.old.items) out.new.items ≡ out.old.items }
{
    put_bytes(out, agg.func.name())?;
    put_bytes(out, b"(")?;
    put_percent(agg.func, out)?;
    put_bytes(out, operand(schema.fields(), agg.field))?;
    put_bytes(out, b")")
}

/// Appends the percent of a percentile with a comma, and nothing of another function. An error leaves it begun.
#[tactic(auto, using(crate::proofs::Fronts::front_of_more))]
fn put_percent(func: Func, out: &mut Vec<u8>) -> Result<(), Memory>
    ensures ok { OnOk result (out.new.items ≡ out.old.items ++ percent_text func) }
    ensures begun { take (length out.old.items) out.new.items ≡ out.old.items }
{
    match func {
        Func::Pct(percent) => {
            write_whole(out, u64::from(percent))?;
            put_bytes(out, b", ")
        }
        _ => Ok(()),
    }
}

/// What an aggregator is of: a column by its number from 1, or each event where that is 0.
fn operand(fields: &[Field], column: u32) -> &[u8]
    ensures { (shape : Shape) → shape.fields ≡ fields.now → result.now ≡ operand_text shape column }
{
    if column == 0 {
        return b"*";
    }
    column_name(fields, column)
}

/// The name of a column, by its number from 1; nothing where there is none.
pub fn column_name(fields: &[Field], column: u32) -> &[u8]
    ensures { result.now ≡ name_at column fields.now }
{
    if column == 0 {
        return b"";
    }
    match fields.get(column as usize - 1) {
        Some(field) => field.name.as_bytes(),
        None => b"",
    }
}

/// Appends the condition that events are to meet, if there is one. An error leaves it begun.
#[tactic(auto, using(crate::proofs::Fronts::front_of_more))]
fn put_filter(schema: &Schema, filter: &Option<Condition>, out: &mut Vec<u8>) -> Result<(), Memory>
    ensures ok { OnOk result (out.new.items ≡ out.old.items ++ where_text schema.now (filter_test filter.now)) }
    ensures begun { take (length out.old.items) out.new.items ≡ out.old.items }
{
    match filter {
        None => Ok(()),
        Some(condition) => {
            put_bytes(out, b" WHERE ")?;
            put_condition(schema, Side::BesideOr, condition, out)
        }
    }
}

/// Appends the columns of the key, if there are any. An error leaves them begun.
#[tactic(auto, using(crate::proofs::Fronts::front_of_more))]
fn put_group(schema: &Schema, columns: &[u32], out: &mut Vec<u8>) -> Result<(), Memory>
    ensures ok { OnOk result (out.new.items ≡ out.old.items ++ group_text schema.now columns.now) }
    ensures begun { take (length out.old.items) out.new.items ≡ out.old.items }
{
    match columns {
        [] => Ok(()),
        [_, ..] => put_key(schema.fields(), columns, out),
    }
}

/// Appends the columns of a key. An error leaves them begun.
#[tactic(auto, using(crate::proofs::Fronts::front_of_more))]
fn put_key(fields: &[Field], columns: &[u32], out: &mut Vec<u8>) -> Result<(), Memory>
    ensures ok { OnOk result (out.new.items ≡ out.old.items ++ (codes " GROUP BY " ++ list_text (λ n. name_at n fields.now) columns.now)) }
    ensures begun { take (length out.old.items) out.new.items ≡ out.old.items }
{
    put_bytes(out, b" GROUP BY ")?;
    put_columns(fields, columns, out)
}

/// Appends a list of columns. An error leaves it begun.
#[tactic(auto, using(crate::proofs::Fronts::front_of_more))]
fn put_columns(fields: &[Field], columns: &[u32], out: &mut Vec<u8>) -> Result<(), Memory>
    ensures ok { OnOk result (out.new.items ≡ out.old.items ++ list_text (λ n. name_at n fields.now) columns.now) }
    ensures begun { take (length out.old.items) out.new.items ≡ out.old.items }
{
    match columns {
        [] => Ok(()),
        [first, others @ ..] => {
            put_bytes(out, column_name(fields, *first))?;
            put_more_columns(fields, others, out)
        }
    }
}

/// Appends columns, a comma before each. An error leaves them begun.
#[tactic(auto, using(crate::proofs::Fronts::front_of_more))]
fn put_more_columns(fields: &[Field], columns: &[u32], out: &mut Vec<u8>) -> Result<(), Memory>
    ensures ok { OnOk result (out.new.items ≡ out.old.items ++ more_text (λ n. name_at n fields.now) columns.now) }
    ensures begun { take (length out.old.items) out.new.items ≡ out.old.items }
{
    for column in columns {
        put_bytes(out, b", ")?;
        put_bytes(out, column_name(fields, *column))?;
    }
    Ok(())
}

/// Appends a window. An error leaves it begun.
#[tactic(auto, using(crate::proofs::Fronts::front_of_more))]
fn put_window(window: &Window, out: &mut Vec<u8>) -> Result<(), Memory>
    ensures ok { OnOk result (out.new.items ≡ out.old.items ++ (codes " OVER " ++ (length_text window.now.length ++ delay_text window.now.delay))) }
    ensures begun { take (length out.old.items) out.new.items ≡ out.old.items }
{
    put_bytes(out, b" OVER ")?;
    put_length(window.length, out)?;
    put_delay(window.delay, out)
}

/// Appends how long a window is, in milliseconds. An error leaves it begun.
#[tactic(auto, using(crate::proofs::Fronts::front_of_more))]
fn put_length(span: Option<u64>, out: &mut Vec<u8>) -> Result<(), Memory>
    ensures ok { OnOk result (out.new.items ≡ out.old.items ++ length_text span) }
    ensures begun { take (length out.old.items) out.new.items ≡ out.old.items }
{
    match span {
        None => put_bytes(out, b"INFINITE"),
        Some(millis) => {
            put_bytes(out, b"SLIDING ")?;
            write_whole(out, millis)?;
            put_bytes(out, b" ms")
        }
    }
}

/// Appends how late a window ends, in milliseconds, unless it is 0. An error leaves it begun.
#[tactic(auto, using(crate::proofs::Fronts::front_of_more))]
fn put_delay(delay: u64, out: &mut Vec<u8>) -> Result<(), Memory>
    ensures ok { OnOk result (out.new.items ≡ out.old.items ++ delay_text delay) }
    ensures begun { take (length out.old.items) out.new.items ≡ out.old.items }
{
    if delay == 0 {
        return Ok(());
    }
    put_bytes(out, b" DELAYED BY ")?;
    write_whole(out, delay)?;
    put_bytes(out, b" ms")
}

fn and_is_enclosed(side: Side) -> bool
    ensures { result ≡ and_test side }
{
    matches!(side, Side::BehindNot)
}

fn or_is_enclosed(side: Side) -> bool
    ensures { result ≡ or_test side }
{
    !matches!(side, Side::BesideOr)
}

/// The parenthesis before a condition, where it is enclosed.
fn opening_of(enclosed: bool) -> &'static [u8]
    ensures { result.now ≡ opening enclosed }
{
    if enclosed { b"(" } else { b"" }
}

/// The parenthesis behind a condition, where it is enclosed.
fn closing_of(enclosed: bool) -> &'static [u8]
    ensures { result.now ≡ closing enclosed }
{
    if enclosed { b")" } else { b"" }
}

/// Appends a condition, in parentheses where it needs them there. An error leaves it begun.
#[tactic(auto, using(crate::proofs::Fronts::front_of_more))]
fn put_condition(
    schema: &Schema,
    side: Side,
    condition: &Condition,
    out: &mut Vec<u8>,
) -> Result<(), Memory>
    ensures ok { OnOk result (out.new.items ≡ out.old.items ++ test_text schema.now side (test_of condition.now)) }
    ensures begun { take (length out.old.items) out.new.items ≡ out.old.items }
{
    match condition {
        Condition::Compare(column, op, value) => {
            put_comparison(column_name(schema.fields(), *column), *op, value, out)
        }
        Condition::Not(inner) => {
            put_bytes(out, b"NOT ")?;
            put_condition(schema, Side::BehindNot, inner, out)
        }
        Condition::And(left, right) => {
            let enclosed = and_is_enclosed(side);
            put_bytes(out, opening_of(enclosed))?;
            put_condition(schema, Side::BesideAnd, left, out)?;
            put_bytes(out, b" AND ")?;
            put_condition(schema, Side::BehindNot, right, out)?;
            put_bytes(out, closing_of(enclosed))
        }
        Condition::Or(left, right) => {
            let enclosed = or_is_enclosed(side);
            put_bytes(out, opening_of(enclosed))?;
            put_condition(schema, Side::BesideOr, left, out)?;
            put_bytes(out, b" OR ")?;
            put_condition(schema, Side::BesideAnd, right, out)?;
            put_bytes(out, closing_of(enclosed))
        }
    }
}

/// Appends a comparison. An error leaves it begun.
#[tactic(auto, using(crate::proofs::Fronts::front_of_more))]
fn put_comparison(column: &[u8], op: Op, value: &Value, out: &mut Vec<u8>) -> Result<(), Memory>
    ensures ok { OnOk result (out.new.items ≡ out.old.items ++ (column.now ++ (codes " " ++ (op_text op ++ (codes " " ++ literal_text value.now))))) }
    ensures begun { take (length out.old.items) out.new.items ≡ out.old.items }
{
    put_left_side(column, op, out)?;
    put_bytes(out, b" ")?;
    put_value(value, out)
}

/// Appends a column and how it is compared. An error leaves them begun.
#[tactic(auto, using(crate::proofs::Fronts::front_of_more))]
fn put_left_side(column: &[u8], op: Op, out: &mut Vec<u8>) -> Result<(), Memory>
    ensures ok { OnOk result (out.new.items ≡ out.old.items ++ (column.now ++ (codes " " ++ op_text op))) }
    ensures begun { take (length out.old.items) out.new.items ≡ out.old.items }
{
    put_bytes(out, column)?;
    put_bytes(out, b" ")?;
    put_bytes(out, op.text())
}

/// Appends a literal. An error leaves it begun.
#[tactic(auto, using(crate::proofs::Fronts::front_of_more))]
fn put_value(value: &Value, out: &mut Vec<u8>) -> Result<(), Memory>
    ensures ok { OnOk result (out.new.items ≡ out.old.items ++ literal_text value.now) }
    ensures begun { take (length out.old.items) out.new.items ≡ out.old.items }
{
    match value {
        Value::Int(number) => write_signed(out, i128::from(*number)),
        Value::Id(number) => write_whole(out, *number),
        Value::Text(word) => put_quoted(word.as_bytes(), out),
        Value::Flag(true) => put_bytes(out, b"TRUE"),
        Value::Flag(false) => put_bytes(out, b"FALSE"),
    }
}

/// Appends a text in quotes. An error leaves it begun.
#[tactic(auto, using(crate::proofs::Fronts::front_of_more))]
fn put_quoted(text: &[u8], out: &mut Vec<u8>) -> Result<(), Memory>
    ensures ok { OnOk result (out.new.items ≡ out.old.items ++ 39 ∷ (doubled text.now ++ 39 ∷ [])) }
    ensures begun { take (length out.old.items) out.new.items ≡ out.old.items }
{
    put_u8(out, b'\'')?;
    put_doubled(text, out)?;
    put_u8(out, b'\'')
}

/// Appends a text, each quote twice. An error leaves it begun.
#[tactic(auto, using(crate::proofs::Fronts::front_of_more))]
fn put_doubled(text: &[u8], out: &mut Vec<u8>) -> Result<(), Memory>
    ensures ok { OnOk result (out.new.items ≡ out.old.items ++ doubled text.now) }
    ensures begun { take (length out.old.items) out.new.items ≡ out.old.items }
{
    for byte in text {
        put_bytes(out, byte_text(byte))?;
    }
    Ok(())
}

/// A byte as it stands in quotes.
fn byte_text(byte: &u8) -> &[u8]
    ensures { result.now ≡ doubled (byte.now ∷ []) }
{
    if *byte == b'\'' {
        b"''"
    } else {
        std::slice::from_ref(byte)
    }
}
