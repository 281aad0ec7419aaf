ghost use Rattle.std.specs.Prelude.{◌≡◌};
ghost use Rattle.rg_keywords.specs.Words.{callee_of};

use crate::func::Func;

/// What a call begins with.
#[derive(Clone, Copy, Debug, PartialEq, Eq, Hash)]
pub enum Callee {
    /// A function of `*` or of a field.
    Func(Func),
    /// PCT, a function of a percent and a field.
    Pct,
}

impl Callee {
    /// What a word names, in any ASCII case.
    #[tactic(auto, unfolding(crate::specs::Words::callee_of))]
    pub fn named(word: &[u8]) -> Option<Callee>
        ensures { result ≡ callee_of word.now }
    {
        if word.eq_ignore_ascii_case(b"pct") {
            return Some(Callee::Pct);
        }
        match Func::named(word) {
            Some(func) => Some(Callee::Func(func)),
            None => None,
        }
    }
}
