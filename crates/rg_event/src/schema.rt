ghost use Rattle.std.specs.Prelude.{◌≡◌, ◌++◌, ◌⊎◌, ◌≤◌, Ok, Err, IfOk, OnOk, OnErr, codes, length, take};
ghost use Rattle.rg_event.specs.Shapes.{kind_text as text_of_kind, field_text, fields_text, schema_text, Shape, IsSchema as IsSchemaShape};

use crate::name::Name;
use crate::schema::parse::read_schema;
use crate::value::Kind;
use rg_bytes::Memory;
use std::alloc::{AllocFailed, Global};
use std::marker::Model;

mod parse;

/// Why a text gives no schema.
#[derive(Clone, Copy, Debug, PartialEq, Eq, Hash)]
pub enum SchemaFault {
    /// It is no schema's text.
    Bad,
    /// Memory ran out.
    Memory,
}

impl From<Memory> for SchemaFault {
    ghost use Rattle.std.specs.Prelude.{◌≡◌};
    ghost use Rattle.rg_event.specs.declared.schema.SchemaFault.TheVariants.{Memory};

    ghost from_gives = { λ _ fault. fault ≡ Memory };

    fn from(_memory: Memory) -> SchemaFault {
        SchemaFault::Memory
    }
}

impl<T: Drop> From<AllocFailed<T>> for SchemaFault {
    ghost use Rattle.std.specs.Prelude.{◌≡◌};
    ghost use Rattle.rg_event.specs.declared.schema.SchemaFault.TheVariants.{Memory};

    ghost from_gives = { λ _ fault. fault ≡ Memory };

    fn from(_failed: AllocFailed<T>) -> SchemaFault {
        SchemaFault::Memory
    }
}

/// A column after the time.
#[derive(Debug, Drop)]
pub struct Field {
    pub name: Name,
    pub kind: Kind,
}

impl Field {
    /// A column of the same name and kind.
    pub fn copy(&self, alloc: Global) -> Result<Field, Memory>
        ensures { IfOk result (λ field. field ≡ self.now) }
    {
        Ok(Field {
            name: self.name.copy(alloc)?,
            kind: self.kind,
        })
    }
}

/// What the rows of a stream are: its name, the name of the time column, and up to 32 further columns.
#[derive(Debug, Drop)]
pub struct Schema {
    stream: Name,
    time: Name,
    fields: Vec<Field>,
}

impl Model for Schema {
    ghost use Rattle.rg_event.specs.Shapes.{Shape, IsSchema};

    ghost Value = { Shape };

    ghost view = { λ s. record { stream = s.stream; time = s.time; fields = s.fields.items } };

    ghost invariant = { λ s. IsSchema (record { stream = s.stream; time = s.time; fields = s.fields.items }) };
}

impl Schema {
    /// The name of the stream.
    pub fn stream(&self) -> &Name
        ensures { result.now ≡ self.now.stream }
    {
        &self.stream
    }

    /// The name of the time column.
    pub fn time(&self) -> &Name
        ensures { result.now ≡ self.now.time }
    {
        &self.time
    }

    /// The columns after the time.
    pub fn fields(&self) -> &[Field]
        ensures columns { result.now ≡ self.now.fields }
        ensures few { length result.now ≤ 32 }
        ensures legal { IsSchemaShape self.now }
    {
        &self.fields
    }

    /// Reads a schema from its text, as `payments(ts,card:text,amount:int)`: `Bad` comes exactly where
    /// the text is none.
    #[tactic(auto, using(crate::proofs::Readable::joined_of, crate::proofs::Readable::legal_of, crate::proofs::Readable::read_back))]
    pub fn parse(alloc: Global, text: &[u8]) -> Result<Schema, SchemaFault>
        // A schema is made exactly from the text of a legal one.
        ensures ok { IfOk result (λ schema. text.now ≡ schema_text schema) }
        ensures legal { IfOk result IsSchemaShape }
        ensures reads_back { (shape : Shape) → IsSchemaShape shape → text.now ≡ schema_text shape → (result ≡ Ok shape) ⊎ (result ≡ Err SchemaFault.Memory) }
    {
        read_schema(alloc, text)
    }

    /// An equal schema.
    pub fn copy(&self, alloc: Global) -> Result<Schema, Memory>
        ensures { IfOk result (λ schema. schema ≡ self.now) }
    {
        Ok(Schema {
            stream: self.stream.copy(alloc)?,
            time: self.time.copy(alloc)?,
            fields: copy_fields(alloc, &self.fields)?,
        })
    }

    /// Appends the schema's text, as `payments(ts,card:text,amount:int)`.
    pub fn write(&self, out: &mut Vec<u8>) -> Result<(), Memory>
        // A schema is written as its text, which `parse` gives back.
        ensures ok { OnOk result (out.new.items ≡ out.old.items ++ schema_text self.now) }
        ensures err { OnErr result (out.new.items ≡ out.old.items) }
        ensures legal { IsSchemaShape self.now }
    {
        let start = out.len();
        match put_schema(&self.stream, &self.time, &self.fields, out) {
            Ok(()) => Ok(()),
            Err(fault) => {
                out.truncate(start);
                Err(fault)
            }
        }
    }
}

fn copy_fields(alloc: Global, fields: &[Field]) -> Result<Vec<Field>, Memory>
    ensures { IfOk result (λ copies. copies.items ≡ fields.now) }
{
    let mut copies = Vec::with_capacity(alloc, fields.len())?;
    for field in fields {
        copies.push(field.copy(alloc)?)?;
    }
    Ok(copies)
}

/// The word of a kind.
fn kind_text(kind: Kind) -> &'static [u8]
    ensures { result.now ≡ text_of_kind kind }
{
    match kind {
        Kind::Int => b"int",
        Kind::Id => b"id",
        Kind::Text => b"text",
        Kind::Flag => b"flag",
    }
}

/// Appends a schema's text. An error leaves it begun.
#[tactic(auto, using(crate::proofs::Fronts::front_of_more))]
fn put_schema(stream: &Name, time: &Name, fields: &[Field], out: &mut Vec<u8>) -> Result<(), Memory>
    ensures ok { OnOk result (out.new.items ≡ out.old.items ++ schema_text (record { stream = stream.now; time = time.now; fields = fields.now })) }
    ensures begun { take (length out.old.items) out.new.items ≡ out.old.items }
{
    put_names(stream, time, out)?;
    put_fields(fields, out)?;
    out.extend_from_slice(b")")?;
    Ok(())
}

/// Appends `STREAM(TIME`. An error leaves it begun.
fn put_names(stream: &Name, time: &Name, out: &mut Vec<u8>) -> Result<(), Memory>
    ensures ok { OnOk result (out.new.items ≡ out.old.items ++ (stream.now ++ (codes "(" ++ time.now))) }
    ensures begun { take (length out.old.items) out.new.items ≡ out.old.items }
{
    out.extend_from_slice(stream.as_bytes())?;
    out.extend_from_slice(b"(")?;
    out.extend_from_slice(time.as_bytes())?;
    Ok(())
}

/// Appends the columns' text. An error leaves it begun.
fn put_fields(fields: &[Field], out: &mut Vec<u8>) -> Result<(), Memory>
    ensures ok { OnOk result (out.new.items ≡ out.old.items ++ fields_text fields.now) }
    ensures begun { take (length out.old.items) out.new.items ≡ out.old.items }
{
    for field in fields {
        put_field(field, out)?;
    }
    Ok(())
}

/// Appends `,NAME:KIND`. An error leaves it begun.
fn put_field(field: &Field, out: &mut Vec<u8>) -> Result<(), Memory>
    ensures ok { OnOk result (out.new.items ≡ out.old.items ++ field_text field.now) }
    ensures begun { take (length out.old.items) out.new.items ≡ out.old.items }
{
    out.extend_from_slice(b",")?;
    out.extend_from_slice(field.name.as_bytes())?;
    out.extend_from_slice(b":")?;
    out.extend_from_slice(kind_text(field.kind))?;
    Ok(())
}
