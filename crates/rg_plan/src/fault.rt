use rg_bytes::Memory;

/// Why queries have no plan.
#[derive(Clone, Copy, Debug, PartialEq, Eq, Hash)]
pub enum PlanFault {
    /// The first query, counted from 0, that has more than 16 aggregators or 8 columns, or that
    /// comes behind 64 others.
    TooMany(u32),
    /// Memory ran out.
    Memory,
}

impl From<Memory> for PlanFault {
    ghost use Rattle.std.specs.Prelude.{◌≡◌};
    ghost use Rattle.rg_plan.specs.declared.fault.PlanFault.TheVariants.{Memory};

    ghost from_gives = { λ _ fault. fault ≡ Memory };

    fn from(_memory: Memory) -> PlanFault {
        PlanFault::Memory
    }
}
