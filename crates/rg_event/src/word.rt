ghost use Rattle.std.specs.Prelude.{◌≡◌, ◌≤◌, nat_lt, length, IfOk, IfSome, IfNone, IsTrue, false};
ghost use Rattle.std.specs.List.{list_all};
ghost use Rattle.std.specs.Str.{is_utf8 as utf8_test};
ghost use Rattle.rg_event.specs.Words.{is_word as word_test};

use rg_bytes::Memory;
use smallvec::SmallVec;
use std::alloc::Global;
use std::cmp::Ordering;
use std::marker::Model;

/// The greatest length of a text, in bytes.
const MAX_TEXT_BYTES: usize = 255;

/// A text of a value: UTF-8 of at most 255 bytes. One of up to 16 bytes takes no memory of its own.
#[derive(Debug, Drop)]
pub struct Word {
    bytes: SmallVec<u8, 16>,
}

impl Model for Word {
    ghost use Rattle.std.specs.Prelude.{List, ℕ, IsTrue};
    ghost use Rattle.rg_event.specs.Words.{is_word};

    ghost Value = { List ℕ };

    ghost view = { λ w. w.bytes.items };

    ghost invariant = { λ w. IsTrue (is_word w.bytes.items) };
}

/// Two texts are equal where their bytes are.
impl PartialEq for Word {
    ghost use Rattle.std.specs.Prelude.{bytes_eq};
    ghost use Rattle.std.specs.Cmp.Lexicographic.{nat_list_eq_equiv};
    ghost use Rattle.std.specs.Cmp.{partial_equiv_from_equiv};

    ghost eq = { bytes_eq };

    ghost laws = { partial_equiv_from_equiv nat_list_eq_equiv };

    fn eq(&self, other: &Word) -> bool {
        self.as_bytes() == other.as_bytes()
    }
}

impl Eq for Word {
    ghost use Rattle.std.specs.Cmp.Lexicographic.{nat_list_eq_equiv};

    ghost laws = { nat_list_eq_equiv };
}

/// A shorter text comes first, and of two that are as long the one whose bytes come first: the order of
/// their tagged bytes.
impl PartialOrd for Word {
    ghost use Rattle.std.specs.Cmp.{partial_order_from_own_ties, partial_order_from_total};
    ghost use Rattle.std.specs.Ordering.{as_partial_cmp};
    ghost use Rattle.rg_event.specs.Words.{word_cmp};
    ghost use Rattle.rg_event.specs.WordLaws.{word_total, word_ties};

    ghost partial_cmp = { as_partial_cmp word_cmp };

    ghost laws = { partial_order_from_own_ties (partial_order_from_total word_total) word_ties };

    fn partial_cmp(&self, other: &Word) -> Option<Ordering> {
        Some(self.cmp(other))
    }
}

impl Ord for Word {
    ghost use Rattle.std.specs.Prelude.{refl};
    ghost use Rattle.rg_event.specs.Words.{word_cmp};
    ghost use Rattle.rg_event.specs.WordLaws.{word_total, word_ties};

    ghost cmp = { word_cmp };

    ghost total = { word_total };

    ghost matches_partial_cmp = { λ _ _. refl };

    ghost matches_eq = { word_ties };

    fn cmp(&self, other: &Word) -> Ordering {
        match self.bytes.len().cmp(&other.bytes.len()) {
            Ordering::Equal => self.as_bytes().cmp(other.as_bytes()),
            order => order,
        }
    }
}

impl Word {
    /// The text with these bytes. It answers `None` where they aren't UTF-8, or are more than 255.
    pub fn new(alloc: Global, text: &[u8]) -> Result<Option<Word>, Memory>
        // A text of a value is made exactly from UTF-8 of at most 255 bytes.
        ensures same { IfOk result (λ word. IfSome word (λ it. it ≡ text.now)) }
        ensures legal { IfOk result (λ word. IfSome word (λ _. IsTrue (word_test text.now))) }
        ensures no_word { IfOk result (λ word. IfNone word (word_test text.now ≡ false)) }
    {
        if !is_word(text) {
            return Ok(None);
        }
        let bytes = SmallVec::from_slice(alloc, text)?;
        Ok(Some(Word { bytes }))
    }

    /// A text with the same bytes.
    pub fn copy(&self, alloc: Global) -> Result<Word, Memory>
        ensures { IfOk result (λ word. word ≡ self.now) }
    {
        let bytes = SmallVec::from_slice(alloc, self.as_bytes())?;
        Ok(Word { bytes })
    }

    #[tactic(auto, using(crate::proofs::Words::short_text))]
    pub fn as_bytes(&self) -> &[u8]
        ensures same { result.now ≡ self.now }
        ensures legal { IsTrue (word_test self.now) }
        ensures short { length result.now ≤ 255 }
    {
        self.bytes.as_slice()
    }
}

fn is_word(text: &[u8]) -> bool
    ensures { result ≡ word_test text.now }
{
    text.len() <= MAX_TEXT_BYTES && is_utf8(text)
}

/// Whether bytes are UTF-8. Most texts are a few bytes of ASCII, for which a walk is less than a call.
#[tactic(auto, using(crate::proofs::Utf8::true_where_valid, crate::proofs::Utf8::false_where_invalid, crate::proofs::Utf8::true_where_ascii))]
fn is_utf8(text: &[u8]) -> bool
    ensures { result ≡ utf8_test text.now }
{
    are_ascii(text) || str::from_utf8(text).is_ok()
}

fn are_ascii(bytes: &[u8]) -> bool
    ensures { result ≡ list_all (λ byte. nat_lt byte 128) bytes.now }
{
    bytes.iter().all(|byte| *byte < 128)
}
