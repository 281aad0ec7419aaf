ghost use Rattle.std.specs.Prelude.{◌≡◌};
ghost use Rattle.rg_keywords.specs.Words.{func_of, func_name};

/// What an aggregator makes of its values.
#[derive(Clone, Copy, Debug, PartialEq, Eq, Hash)]
pub enum Func {
    /// How many there are.
    Count,
    /// Their sum.
    Sum,
    /// Their sum and how many there are.
    Avg,
    /// The sum of their squares.
    SumSq,
    /// The least of them.
    Min,
    /// The greatest of them.
    Max,
    /// How many different ones there are.
    CountDistinct,
    /// The one that came first.
    First,
    /// The one that came last.
    Last,
    /// The one in the middle of their rising order.
    Median,
    /// The one at so many hundredths of their rising order: from 1 to 100.
    Pct(u32),
}

impl Func {
    /// The function of a field alone that a word names, in any ASCII case. PCT names none: see `Callee`.
    #[tactic(auto, unfolding(crate::specs::Words::func_of))]
    pub fn named(word: &[u8]) -> Option<Func>
        // A word names a function exactly where the language says so, in any case of its letters.
        ensures { result ≡ func_of word.now }
    {
        if word.eq_ignore_ascii_case(b"count") {
            Some(Func::Count)
        } else if word.eq_ignore_ascii_case(b"sum") {
            Some(Func::Sum)
        } else if word.eq_ignore_ascii_case(b"avg") {
            Some(Func::Avg)
        } else if word.eq_ignore_ascii_case(b"sumsq") {
            Some(Func::SumSq)
        } else if word.eq_ignore_ascii_case(b"min") {
            Some(Func::Min)
        } else if word.eq_ignore_ascii_case(b"max") {
            Some(Func::Max)
        } else if word.eq_ignore_ascii_case(b"countdistinct") {
            Some(Func::CountDistinct)
        } else if word.eq_ignore_ascii_case(b"first") {
            Some(Func::First)
        } else if word.eq_ignore_ascii_case(b"last") {
            Some(Func::Last)
        } else if word.eq_ignore_ascii_case(b"median") {
            Some(Func::Median)
        } else {
            None
        }
    }

    /// Its name as it is printed.
    pub fn name(self) -> &'static [u8]
        // The name of the function, which names it again.
        ensures { result.now ≡ func_name self }
    {
        match self {
            Func::Count => b"count",
            Func::Sum => b"sum",
            Func::Avg => b"avg",
            Func::SumSq => b"sumsq",
            Func::Min => b"min",
            Func::Max => b"max",
            Func::CountDistinct => b"countDistinct",
            Func::First => b"first",
            Func::Last => b"last",
            Func::Median => b"median",
            Func::Pct(_) => b"pct",
        }
    }
}
