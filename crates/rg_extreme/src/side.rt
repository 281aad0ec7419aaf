ghost use Rattle.std.specs.Prelude.{◌≡◌};
ghost use Rattle.rg_agg.specs.Numbers.{value_of};
ghost use Rattle.rg_extreme.specs.Sides.{beats, can_beat, weakest};

use rg_agg::Number;

/// Which extreme is asked.
#[derive(Clone, Copy, Debug, PartialEq, Eq)]
pub(crate) enum Side {
    Least,
    Greatest,
}

impl Side {
    /// Whether the first number beats the second one.
    pub(crate) fn beats(self, first: Number, second: Number) -> bool
        ensures { result ≡ beats self (value_of first) (value_of second) }
    {
        match self {
            Side::Least => first.amount() < second.amount(),
            Side::Greatest => second.amount() < first.amount(),
        }
    }

    /// Whether there is a number of its kind that this one beats.
    pub(crate) fn can_beat(self, number: Number) -> bool
        ensures { result ≡ can_beat self (value_of number) }
    {
        self.beats(number, self.weakest(number))
    }

    /// The int or the id that each other one beats.
    fn weakest(self, number: Number) -> Number
        ensures { value_of result ≡ weakest self (value_of number) }
    {
        match (self, number) {
            (Side::Least, Number::Int(_)) => Number::Int(1_000_000_000_000),
            (Side::Least, Number::Id(_)) => Number::Id(u64::MAX),
            (Side::Greatest, Number::Int(_)) => Number::Int(-1_000_000_000_000),
            (Side::Greatest, Number::Id(_)) => Number::Id(0),
        }
    }
}
