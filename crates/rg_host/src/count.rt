ghost use Rattle.std.specs.Prelude.{◌≡◌, ◌≤◌};
ghost use Rattle.rg_host.specs.CallCounts.{raised};

/// One more, up to 2^64 - 1.
pub fn raise(count: &mut u64)
    ensures raised { count.new ≡ raised count.old }
    ensures kept { count.old ≤ count.new }
{
    *count = count.saturating_add(1);
}
