ghost use Rattle.std.specs.Prelude.{◌≡◌};

use crate::past::Spot;
use std::marker::Model;

/// A list of spots that contracts name.
#[derive(Debug, Drop)]
pub struct Spots {
    list: Vec<Spot>,
}

impl Model for Spots {
    ghost use Rattle.std.specs.Prelude.{List};
    ghost use Rattle.rg_past.specs.declared.past.Spot.{Spot};

    ghost Value = { List Spot };

    ghost view = { λ s. s.list.items };
}

/// The spots of a `Vec`, in the same memory.
impl From<Vec<Spot>> for Spots {
    ghost use Rattle.std.specs.Prelude.{◌≡◌};

    ghost from_gives = { λ list spots. spots ≡ list.items };

    fn from(list: Vec<Spot>) -> Spots {
        Spots { list }
    }
}

impl Spots {
    pub fn as_slice(&self) -> &[Spot]
        ensures { result.now ≡ self.now }
    {
        &self.list
    }

    /// The spots as a `Vec`, in the same memory.
    pub fn into_vec(self) -> Vec<Spot>
        ensures { result.items ≡ self }
    {
        self.list
    }
}
