/// What a slot's checkpoint is to the queries of a plan.
#[derive(Clone, Copy, Debug, PartialEq, Eq, Hash)]
pub enum Verdict {
    /// The slot isn't complete.
    Missing,
    /// It is of other queries, and of so many payments.
    Other(u64),
    /// It is of these queries and of so many payments, and can't be used beside this log.
    Unfit(u64),
    /// Its rows stand for the first payments, so many of them.
    Right(u64),
    /// The rows of this node, the least one, don't stand for the first payments.
    Wrong(u32),
}

impl Verdict {
    ghost use Rattle.std.specs.Prelude.{◌≡◌};
    ghost use Rattle.rg_verify.specs.Verdicts.{differs};

    /// Whether the checkpoint isn't what the payments give: it is unfit, or its rows are wrong.
    pub fn differs(self) -> bool
        ensures { result ≡ differs self }
    {
        match self {
            Verdict::Missing | Verdict::Other(_) | Verdict::Right(_) => false,
            Verdict::Unfit(_) | Verdict::Wrong(_) => true,
        }
    }
}
