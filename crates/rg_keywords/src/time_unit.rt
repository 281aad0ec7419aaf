ghost use Rattle.std.specs.Prelude.{◌≡◌};
ghost use Rattle.rg_keywords.specs.Words.{unit_of, unit_millis};

/// The unit of a span of time.
#[derive(Clone, Copy, Debug, PartialEq, Eq, Hash)]
pub enum TimeUnit {
    Millisecond,
    Second,
    Minute,
    Hour,
    Day,
}

impl TimeUnit {
    /// The unit that a word names, in any ASCII case: one word for milliseconds, and of each other
    /// unit the singular and the plural.
    #[tactic(auto, unfolding(crate::specs::Words::unit_of))]
    pub fn named(word: &[u8]) -> Option<TimeUnit>
        // A word is a unit exactly where the language says so, in any case of its letters.
        ensures { result ≡ unit_of word.now }
    {
        if word.eq_ignore_ascii_case(b"ms") {
            Some(TimeUnit::Millisecond)
        } else if word.eq_ignore_ascii_case(b"second") {
            Some(TimeUnit::Second)
        } else if word.eq_ignore_ascii_case(b"seconds") {
            Some(TimeUnit::Second)
        } else if word.eq_ignore_ascii_case(b"minute") {
            Some(TimeUnit::Minute)
        } else if word.eq_ignore_ascii_case(b"minutes") {
            Some(TimeUnit::Minute)
        } else if word.eq_ignore_ascii_case(b"hour") {
            Some(TimeUnit::Hour)
        } else if word.eq_ignore_ascii_case(b"hours") {
            Some(TimeUnit::Hour)
        } else if word.eq_ignore_ascii_case(b"day") {
            Some(TimeUnit::Day)
        } else if word.eq_ignore_ascii_case(b"days") {
            Some(TimeUnit::Day)
        } else {
            None
        }
    }

    /// How many milliseconds it has.
    pub fn millis(self) -> u64
        // The unit's milliseconds.
        ensures { result ≡ unit_millis self }
    {
        match self {
            TimeUnit::Millisecond => 1,
            TimeUnit::Second => 1_000,
            TimeUnit::Minute => 60_000,
            TimeUnit::Hour => 3_600_000,
            TimeUnit::Day => 86_400_000,
        }
    }
}
