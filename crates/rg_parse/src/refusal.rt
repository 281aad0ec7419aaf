use rg_bytes::Memory;

/// Why a token isn't taken.
#[derive(Clone, Copy, Debug, PartialEq, Eq)]
pub enum Refusal {
    /// No query goes on with it.
    Syntax,
    /// It opens a 33rd `NOT` or parenthesis.
    TooDeep,
    Memory,
}

impl From<Memory> for Refusal {
    ghost use Rattle.std.specs.Prelude.{◌≡◌};
    ghost use Rattle.rg_parse.specs.declared.refusal.Refusal.TheVariants.{Memory};

    ghost from_gives = { λ _ refusal. refusal ≡ Memory };

    fn from(_memory: Memory) -> Refusal {
        Refusal::Memory
    }
}
