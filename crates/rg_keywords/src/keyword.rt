ghost use Rattle.std.specs.Prelude.{◌≡◌};
ghost use Rattle.rg_keywords.specs.Words.{keyword_of, truth_of};

/// A word of the language that names nothing, in any ASCII case.
#[derive(Clone, Copy, Debug, PartialEq, Eq, Hash)]
pub enum Keyword {
    Select,
    From,
    Where,
    Group,
    By,
    Over,
    Sliding,
    Infinite,
    Delayed,
    And,
    Or,
    Not,
}

impl Keyword {
    /// The keyword that a word is.
    #[tactic(auto, unfolding(crate::specs::Words::keyword_of))]
    pub fn named(word: &[u8]) -> Option<Keyword>
        // A word is a keyword exactly where the language says so, in any case of its letters.
        ensures { result ≡ keyword_of word.now }
    {
        if word.eq_ignore_ascii_case(b"select") {
            Some(Keyword::Select)
        } else if word.eq_ignore_ascii_case(b"from") {
            Some(Keyword::From)
        } else if word.eq_ignore_ascii_case(b"where") {
            Some(Keyword::Where)
        } else if word.eq_ignore_ascii_case(b"group") {
            Some(Keyword::Group)
        } else if word.eq_ignore_ascii_case(b"by") {
            Some(Keyword::By)
        } else if word.eq_ignore_ascii_case(b"over") {
            Some(Keyword::Over)
        } else if word.eq_ignore_ascii_case(b"sliding") {
            Some(Keyword::Sliding)
        } else if word.eq_ignore_ascii_case(b"infinite") {
            Some(Keyword::Infinite)
        } else if word.eq_ignore_ascii_case(b"delayed") {
            Some(Keyword::Delayed)
        } else if word.eq_ignore_ascii_case(b"and") {
            Some(Keyword::And)
        } else if word.eq_ignore_ascii_case(b"or") {
            Some(Keyword::Or)
        } else if word.eq_ignore_ascii_case(b"not") {
            Some(Keyword::Not)
        } else {
            None
        }
    }
}

/// The flag that a word is: `TRUE` or `FALSE` in any ASCII case.
#[tactic(auto, unfolding(crate::specs::Words::truth_of))]
pub fn truth(word: &[u8]) -> Option<bool>
    // A word is a flag exactly where the language says so, in any case of its letters.
    ensures { result ≡ truth_of word.now }
{
    if word.eq_ignore_ascii_case(b"true") {
        Some(true)
    } else if word.eq_ignore_ascii_case(b"false") {
        Some(false)
    } else {
        None
    }
}
