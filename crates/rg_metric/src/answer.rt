ghost use Rattle.std.specs.Prelude.{◌≡◌, ◌∷◌, [], ◌++◌, OnOk, OnErr};

use rg_bytes::Memory;
use std::alloc::Global;
use std::marker::Model;

/// What an aggregator answers.
#[derive(Clone, Copy, Debug, PartialEq, Eq, Hash)]
pub enum Answer {
    Number(i128),
    /// A sum and a count, unreduced.
    Ratio(i128, u64),
    /// There is no value.
    Dash,
}

/// A list of answers.
#[derive(Debug, Drop)]
pub struct Answers {
    list: Vec<Answer>,
}

impl Model for Answers {
    ghost use Rattle.std.specs.Prelude.{List};
    ghost use Rattle.rg_metric.specs.declared.answer.Answer.{Answer};

    ghost Value = { List Answer };

    ghost view = { λ a. a.list.items };
}

impl From<Vec<Answer>> for Answers {
    ghost use Rattle.std.specs.Prelude.{◌≡◌};

    ghost from_gives = { λ list answers. answers ≡ list.items };

    fn from(list: Vec<Answer>) -> Answers {
        Answers { list }
    }
}

impl Answers {
    /// No answers.
    pub fn new(alloc: Global) -> Answers
        ensures { result ≡ [] }
    {
        Answers {
            list: Vec::new(alloc),
        }
    }

    /// Adds an answer at the end.
    pub fn push(&mut self, answer: Answer) -> Result<(), Memory>
        ensures ok { OnOk result (self.new ≡ self.old ++ answer ∷ []) }
        ensures err { OnErr result (self.new ≡ self.old) }
    {
        self.list.push(answer)?;
        Ok(())
    }

    pub fn as_slice(&self) -> &[Answer]
        ensures { result.now ≡ self.now }
    {
        &self.list
    }

    /// Its answers, with the room that they were put into.
    pub fn into_vec(self) -> Vec<Answer>
        ensures { result.items ≡ self }
    {
        let Answers { list } = self;
        list
    }
}
