ghost use Rattle.std.specs.Prelude.{◌≡◌, ◌≤◌, ◌⊎◌, length, IfOk, IfErr};
ghost use Rattle.std.specs.List.{prefix_len, list_any};
ghost use Rattle.std.specs.Str.{bytes_eq};
ghost use Rattle.rg_event.specs.Names.{is_word_byte as word_byte_test};
ghost use Rattle.rg_event.specs.Reading.{Reads, ReadsList, ReadsParts, Skips, Agrees, word_of, behind_word, behind_byte, is_at as at_test, is_empty as empty_test, name_at, kind_of as kind_of_word, kind_at, field_at, fields_at, shape_at, shape_of, columns_differ as all_differ_test, names_differ as differ_test};

use super::{Field, Schema, SchemaFault};
use crate::name::{Name, is_word_byte};
use crate::value::Kind;
use std::alloc::Global;
use std::marker::Model;

/// The most columns of a schema after the time.
const MAX_FIELDS: usize = 32;

/// The bytes of a schema's text that are not yet read.
#[derive(Drop)]
struct Cursor<'a> {
    left: &'a [u8],
}

impl<'a> Model for Cursor<'a> {
    ghost use Rattle.std.specs.Prelude.{List, ℕ};

    ghost Value = { List ℕ };

    ghost view = { λ c. c.left.now };
}

impl<'a> Cursor<'a> {
    /// Takes the letters, digits and `_` in front.
    fn word(&mut self) -> &'a [u8]
        ensures word { result.now ≡ word_of self.old }
        ensures rest { self.new ≡ behind_word self.old }
    {
        let (word, left) = self.left.split_at(word_len(self.left));
        self.left = left;
        word
    }

    /// Whether this byte is next.
    fn is_at(&self, wanted: u8) -> bool
        ensures { result ≡ at_test wanted self.now }
    {
        match self.left {
            [byte, ..] => *byte == wanted,
            [] => false,
        }
    }

    /// Takes this byte.
    fn byte(&mut self, wanted: u8) -> Result<(), SchemaFault>
        ensures { Skips (behind_byte wanted self.old) result self.new }
    {
        match self.left {
            [byte, left @ ..] if *byte == wanted => {
                self.left = left;
                Ok(())
            }
            _ => Err(SchemaFault::Bad),
        }
    }

    fn name(&mut self, alloc: Global) -> Result<Name, SchemaFault>
        ensures { Reads (name_at self.old) result self.new }
    {
        match Name::new(alloc, self.word())? {
            Some(name) => Ok(name),
            None => Err(SchemaFault::Bad),
        }
    }

    fn kind(&mut self) -> Result<Kind, SchemaFault>
        ensures { Reads (kind_at self.old) result self.new }
    {
        match kind_of(self.word()) {
            Some(kind) => Ok(kind),
            None => Err(SchemaFault::Bad),
        }
    }

    fn is_empty(&self) -> bool
        ensures { result ≡ empty_test self.now }
    {
        self.left.is_empty()
    }

    /// Takes `STREAM(TIME,NAME:KIND,..)`.
    #[tactic(auto, unfolding(crate::specs::Reading::shape_at))]
    fn parts(&mut self, alloc: Global) -> Result<Parts, SchemaFault>
        ensures { ReadsParts (shape_at self.old) result self.new }
    {
        let stream = self.name(alloc)?;
        self.byte(b'(')?;
        let time = self.name(alloc)?;
        let fields = self.fields(alloc)?;
        self.byte(b')')?;
        Ok(Parts {
            stream,
            time,
            fields,
        })
    }

    /// Takes `,NAME:KIND`.
    #[tactic(auto, unfolding(crate::specs::Reading::field_at))]
    fn field(&mut self, alloc: Global) -> Result<Field, SchemaFault>
        ensures { Reads (field_at self.old) result self.new }
    {
        self.byte(b',')?;
        let name = self.name(alloc)?;
        self.byte(b':')?;
        let kind = self.kind()?;
        Ok(Field { name, kind })
    }

    /// Takes the columns up to where no comma stands, and at most 32.
    #[tactic(auto, using(crate::proofs::Columns::begin, crate::proofs::Columns::next, crate::proofs::Columns::end, crate::proofs::Columns::full, crate::proofs::Columns::fault))]
    fn fields(&mut self, alloc: Global) -> Result<Vec<Field>, SchemaFault>
        ensures { ReadsList (fields_at 32 self.old) result self.new }
    {
        let mut fields = Vec::new(alloc);
        'columns: for _ in 0..MAX_FIELDS {
            if !self.is_at(b',') {
                return Ok(fields);
            }
            fields.push(self.field(alloc)?)?;
        }
        Ok(fields)
    }
}

/// What a text says of a schema, before it is known that its columns differ.
#[derive(Drop)]
struct Parts {
    stream: Name,
    time: Name,
    fields: Vec<Field>,
}

/// Reads a whole text as a schema.
#[tactic(auto, using(crate::proofs::Readable::is_schema), unfolding(crate::specs::Reading::shape_of))]
pub fn read_schema(alloc: Global, text: &[u8]) -> Result<Schema, SchemaFault>
    ensures { Agrees (shape_of text.now) result }
{
    let mut cursor = Cursor { left: text };
    let Parts {
        stream,
        time,
        fields,
    } = cursor.parts(alloc)?;
    if !cursor.is_empty() {
        return Err(SchemaFault::Bad);
    }
    if !columns_differ(&time, &fields) {
        return Err(SchemaFault::Bad);
    }
    Ok(Schema {
        stream,
        time,
        fields,
    })
}

/// How many letters, digits and `_` are in front.
fn word_len(text: &[u8]) -> usize
    ensures count { result ≡ prefix_len word_byte_test text.now }
    ensures within { result ≤ length text.now }
{
    text.iter().take_while(|byte| is_word_byte(**byte)).count()
}

fn kind_of(word: &[u8]) -> Option<Kind>
    ensures { result ≡ kind_of_word word.now }
{
    match word {
        b"int" => Some(Kind::Int),
        b"id" => Some(Kind::Id),
        b"text" => Some(Kind::Text),
        b"flag" => Some(Kind::Flag),
        _ => None,
    }
}

/// Whether no two columns have one name, the time's among them.
fn columns_differ(time: &Name, fields: &[Field]) -> bool
    ensures { result ≡ all_differ_test time.now fields.now }
{
    !is_column(time, fields) && names_differ(fields)
}

/// Whether one of the columns has this name.
fn is_column(name: &Name, fields: &[Field]) -> bool
    ensures { result ≡ list_any (λ field. bytes_eq name.now field.name) fields.now }
{
    fields
        .iter()
        .any(|field| name.as_bytes() == field.name.as_bytes())
}

#[tactic(auto, using(crate::proofs::Columns::differ_next))]
fn names_differ(fields: &[Field]) -> bool
    ensures { result ≡ differ_test fields.now }
{
    for (i, field) in fields.iter().enumerate() {
        if is_column(&field.name, &fields[i + 1..]) {
            return false;
        }
    }
    true
}
