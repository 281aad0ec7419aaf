ghost use Rattle.std.specs.Prelude.{◌≡◌};

use std::marker::Model;

/// What a one of the high half is worth.
const WORTH: u128 = 0x1_0000_0000_0000_0000;

/// A number of 128 bits as its two halves, so that it is aligned to 8 bytes as they are, and not to 16.
#[derive(Debug, Drop)]
pub(crate) struct Wide {
    low: u64,
    high: u64,
}

const _: () = prove!(align_of::<Wide>() == 8);

impl Model for Wide {
    ghost use Rattle.std.specs.Prelude.{ℤ, ◌+◌, ◌*◌, ◌^◌};
    ghost use Rattle.std.specs.Int.{w128, cast_signed};

    ghost Value = { ℤ };

    ghost view = { λ wide. cast_signed w128 (wide.high * 2 ^ 64 + wide.low) };
}

impl Wide {
    /// The halves of this number.
    #[inline(always)]
    pub(crate) fn new(number: i128) -> Wide
        ensures { result ≡ number }
    {
        let bits = number.cast_unsigned();
        Wide {
            low: (bits % WORTH) as u64,
            high: (bits / WORTH) as u64,
        }
    }

    /// The number.
    #[inline(always)]
    pub(crate) fn get(&self) -> i128
        ensures { result ≡ self.now }
    {
        (self.high as u128 * WORTH + self.low as u128).cast_signed()
    }
}
