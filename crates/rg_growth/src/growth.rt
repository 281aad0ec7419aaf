ghost use Rattle.std.specs.Prelude.{◌≡◌, ◌⊎◌, ◌≤◌, ◌++◌, ℕ, List, Ok, Err, Some, IfOk, OnOk, OnErr, length, option_and_then};
ghost use Rattle.rg_bytes.specs.Keeps.{Keeps};
ghost use Rattle.rg_bytes.specs.Reading.{Agrees as AgreesWith};
ghost use Rattle.rg_event.specs.Shapes.{Shape, schema_text};
ghost use Rattle.rg_growth.specs.Growing.{Grows};
ghost use Rattle.rg_growth.specs.Payloads.{Agrees, AgreesAt, IsGrowth, IsGrowthOf, growth_at, growth_bytes, growth_of, grown_to, text_at, text_bytes};
ghost use Rattle.rg_growth.specs.declared.growth.Growth.{Growth as TheGrowth};

use crate::fault::GrowthFault;
use crate::grows::grows_to;
use crate::values::{put_values, take_values};
use rg_bytes::{ByteReader, Memory, put_bytes, put_u8, put_u32};
use rg_event::{Schema, SchemaFault, Values};
use std::alloc::Global;

/// The first byte of a growth's payload.
const GROWTH_TAG: u8 = 0x47;

/// How a schema grows.
#[derive(Debug, Drop)]
pub struct Growth {
    /// The schema that it grows to.
    pub to: Schema,
    /// A value for each further column, which stands behind those of each event before.
    pub values: Values,
}

impl Growth {
    /// The growth of this schema that a payload says. `BadGrowth` comes exactly where it says none.
    pub fn decode(alloc: Global, from: &Schema, payload: &[u8]) -> Result<Growth, GrowthFault>
        // A payload is read exactly where it says a growth of the schema, and it says one alone.
        ensures agrees { Agrees (growth_of from.now payload.now) result }
        ensures is { IfOk result (IsGrowth from.now payload.now) }
        ensures reads_back { (growth : TheGrowth) → IsGrowth from.now payload.now growth → (result ≡ Ok growth) ⊎ (result ≡ Err GrowthFault.Memory) }
    {
        let mut left = ByteReader::new(payload);
        match take_growth(alloc, from, &mut left) {
            Ok(growth) => {
                if left.left() > 0 {
                    return Err(GrowthFault::BadGrowth);
                }
                Ok(growth)
            }
            Err(fault) => Err(fault),
        }
    }

    /// Writes the payload at the end. Where memory runs out `out` holds what it held.
    pub fn encode(&self, alloc: Global, out: &mut Vec<u8>) -> Result<(), Memory>
        // The growth is written to the byte, or nothing is.
        ensures ok { OnOk result (out.new.items ≡ out.old.items ++ growth_bytes self.now) }
        ensures err { OnErr result (out.new.items ≡ out.old.items) }

        // What is written of a growth is read back.
        ensures reads_back { (from : Shape) (growth : TheGrowth) → IsGrowthOf from growth → growth_of from (growth_bytes growth) ≡ Some growth }
    {
        let start = out.len();
        match put_growth(alloc, self, out) {
            Ok(()) => Ok(()),
            Err(memory) => {
                out.truncate(start);
                Err(memory)
            }
        }
    }
}

/// Takes a growth of this schema. A refusal may leave the reader in mid-way.
fn take_growth(
    alloc: Global,
    from: &Schema,
    bytes: &mut ByteReader<'_>,
) -> Result<Growth, GrowthFault>
    ensures agrees { AgreesAt (growth_at from.now bytes.old) result bytes.new }
    ensures ok { IfOk result (λ growth. bytes.old ≡ growth_bytes growth ++ bytes.new) }
    ensures of { IfOk result (IsGrowthOf from.now) }
{
    let text = match take_text(bytes) {
        Ok(text) => text,
        Err(fault) => return Err(fault),
    };
    let to = match read_grown(alloc, from, text) {
        Ok(to) => to,
        Err(fault) => return Err(fault),
    };
    let values = match take_values(alloc, &to.fields()[from.fields().len()..], bytes) {
        Ok(values) => values,
        Err(fault) => return Err(fault),
    };
    Ok(Growth { to, values })
}

/// Takes the tag and the text of the new schema.
fn take_text<'a>(from: &mut ByteReader<'a>) -> Result<&'a [u8], GrowthFault>
    ensures agrees { AgreesWith GrowthFault.Memory (λ text. text.now) (text_at from.old) result from.new }
    ensures ok { IfOk result (λ text. from.old ≡ text_bytes text.now ++ from.new) }
{
    let tag = from.u8()?;
    if tag != GROWTH_TAG {
        return Err(GrowthFault::BadGrowth);
    }
    let count = from.u32()?;
    let text = from.bytes(count as usize)?;
    Ok(text)
}

/// The schema that a text says, to which this one grows.
fn read_grown(alloc: Global, from: &Schema, text: &[u8]) -> Result<Schema, GrowthFault>
    ensures agrees { Agrees (grown_to from.now text.now) result }
    ensures text { IfOk result (λ to. text.now ≡ schema_text to) }
    ensures grows { IfOk result (Grows from.now) }
{
    let to = match Schema::parse(alloc, text) {
        Ok(to) => to,
        Err(SchemaFault::Bad) => return Err(GrowthFault::BadGrowth),
        Err(SchemaFault::Memory) => return Err(GrowthFault::Memory),
    };
    if !grows_to(from, &to) {
        return Err(GrowthFault::BadGrowth);
    }
    Ok(to)
}

/// Writes the payload at the end. An error leaves it begun.
fn put_growth(alloc: Global, growth: &Growth, out: &mut Vec<u8>) -> Result<(), Memory>
    ensures ok { OnOk result (out.new.items ≡ out.old.items ++ growth_bytes growth.now) }
    ensures err { OnErr result (Keeps out.old.items out.new.items) }
{
    let text = text_of(alloc, &growth.to)?;
    put_text(&text, out)?;
    put_values(growth.values.as_slice(), out)
}

/// Writes the tag and a text at the end. An error leaves them begun.
fn put_text(text: &[u8], out: &mut Vec<u8>) -> Result<(), Memory>
    requires { length text.now ≤ 2370 }
    ensures ok { OnOk result (out.new.items ≡ out.old.items ++ text_bytes text.now) }
    ensures err { OnErr result (Keeps out.old.items out.new.items) }
{
    put_u8(out, GROWTH_TAG)?;
    put_u32(out, text.len() as u32)?;
    put_bytes(out, text)
}

/// The text of a schema, which has at most 2,370 bytes.
fn text_of(alloc: Global, schema: &Schema) -> Result<Vec<u8>, Memory>
    ensures text { IfOk result (λ text. text.items ≡ schema_text schema.now) }
    ensures short { IfOk result (λ text. length text.items ≤ 2370) }
{
    let mut text = Vec::new(alloc);
    schema.write(&mut text)?;
    Ok(text)
}
