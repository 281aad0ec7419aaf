ghost use Rattle.std.specs.Prelude.{◌≡◌, IfOk, IfSome, IfNone, IsTrue, false};
ghost use Rattle.std.specs.List.{list_all, list_any};
ghost use Rattle.std.specs.Str.{str_eq_ignore_ascii_case};
ghost use Rattle.rg_event.specs.Names.{is_letter as letter_test, is_word_byte as word_byte_test, is_word as word_test, is_reserved as reserved_test, is_name as name_test};

use rg_bytes::Memory;
use std::alloc::Global;
use std::marker::Model;

/// The words of the query language.
const RESERVED: [&[u8]; 14] = [
    b"SELECT",
    b"FROM",
    b"WHERE",
    b"GROUP",
    b"BY",
    b"OVER",
    b"SLIDING",
    b"INFINITE",
    b"DELAYED",
    b"AND",
    b"OR",
    b"NOT",
    b"TRUE",
    b"FALSE",
];

/// The greatest length of a name, in bytes.
const MAX_NAME_BYTES: usize = 64;

/// A name of a stream or a column: a letter or `_`, and then letters, digits or `_`, all ASCII, at
/// most 64 bytes; no word of the query language, in any case.
#[derive(Debug, Drop)]
pub struct Name {
    bytes: Vec<u8>,
}

impl Model for Name {
    ghost use Rattle.std.specs.Prelude.{List, ℕ, IsTrue};
    ghost use Rattle.rg_event.specs.Names.{is_name};

    ghost Value = { List ℕ };

    ghost view = { λ n. n.bytes.items };

    ghost invariant = { λ n. IsTrue (is_name n.bytes.items) };
}

impl Name {
    /// The name with these bytes. It answers `None` where they are no name.
    pub fn new(alloc: Global, text: &[u8]) -> Result<Option<Name>, Memory>
        // A name is made exactly from the bytes of one.
        ensures same { IfOk result (λ name. IfSome name (λ it. it ≡ text.now)) }
        ensures named { IfOk result (λ name. IfSome name (λ _. IsTrue (name_test text.now))) }
        ensures no_name { IfOk result (λ name. IfNone name (name_test text.now ≡ false)) }
    {
        if !is_name(text) {
            return Ok(None);
        }
        let bytes = Vec::from_slice(alloc, text)?;
        Ok(Some(Name { bytes }))
    }

    /// A name with the same bytes.
    pub fn copy(&self, alloc: Global) -> Result<Name, Memory>
        ensures { IfOk result (λ name. name ≡ self.now) }
    {
        let bytes = Vec::from_slice(alloc, &self.bytes)?;
        Ok(Name { bytes })
    }

    pub fn as_bytes(&self) -> &[u8]
        ensures same { result.now ≡ self.now }
        ensures named { IsTrue (name_test self.now) }
    {
        &self.bytes
    }
}

fn is_name(text: &[u8]) -> bool
    ensures { result ≡ name_test text.now }
{
    is_word(text) && !is_reserved(text)
}

/// Whether a name may begin with this byte.
fn is_letter(byte: u8) -> bool
    ensures { result ≡ letter_test byte }
{
    byte.is_ascii_alphabetic() || byte == b'_'
}

fn is_word(text: &[u8]) -> bool
    ensures { result ≡ word_test text.now }
{
    match text {
        [] => false,
        [first, others @ ..] => {
            is_letter(*first) && are_word_bytes(others) && others.len() < MAX_NAME_BYTES
        }
    }
}

/// Whether each byte is a letter, a digit or `_`.
fn are_word_bytes(bytes: &[u8]) -> bool
    ensures { result ≡ list_all word_byte_test bytes.now }
{
    bytes.iter().all(|byte| is_word_byte(*byte))
}

/// Whether this byte is a letter, a digit or `_`.
pub(crate) fn is_word_byte(byte: u8) -> bool
    ensures { result ≡ word_byte_test byte }
{
    is_letter(byte) || byte.is_ascii_digit()
}

fn is_reserved(text: &[u8]) -> bool
    ensures { result ≡ reserved_test text.now }
{
    is_one_of(text, &RESERVED)
}

/// Whether the text is one of the words, in any case.
fn is_one_of(text: &[u8], words: &[&[u8]]) -> bool
    ensures { result ≡ list_any (λ word. str_eq_ignore_ascii_case text.now word.now) words.now }
{
    words.iter().any(|word| is_in_any_case(text, word))
}

#[tactic(auto, using(crate::proofs::Names::same_test))]
fn is_in_any_case(text: &[u8], word: &[u8]) -> bool
    ensures { result ≡ str_eq_ignore_ascii_case text.now word.now }
{
    text.eq_ignore_ascii_case(word)
}
