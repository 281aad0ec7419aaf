ghost use Rattle.std.specs.Prelude.{◌≡◌, ◌<◌, ◌+◌, ◌^◌};
ghost use Rattle.rg_checkpoint.specs.Sizes.{sizes_of, more_sizes};

/// How large the payloads of a complete slot are, in bytes.
#[derive(Clone, Copy, Debug, PartialEq, Eq, Hash)]
pub struct SlotSizes {
    /// The length of the base payload.
    pub base: u64,
    /// The lengths of the change payloads behind it, together.
    pub changes: u64,
    /// How many change payloads there are.
    pub frames: u64,
}

impl SlotSizes {
    /// Those of a base payload of so many bytes alone.
    pub(crate) fn of_base(base: u64) -> SlotSizes
        ensures { result ≡ sizes_of base }
    {
        SlotSizes {
            base,
            changes: 0,
            frames: 0,
        }
    }

    /// These, with one change payload more, of so many bytes.
    pub(crate) fn with_change(self, change: u64) -> SlotSizes
        requires { (self.changes + change < 2 ^ 64) × (self.frames + 1 < 2 ^ 64) }
        ensures { result ≡ more_sizes self change }
    {
        SlotSizes {
            base: self.base,
            changes: self.changes + change,
            frames: self.frames + 1,
        }
    }
}
