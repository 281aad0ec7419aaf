ghost use Rattle.std.specs.Prelude.{◌≡◌, ◌≤◌, ◌^◌, ℕ, List, [], length, replicate, Some};
ghost use Rattle.rg_config.specs.Plans.{Planned};
ghost use Rattle.rg_host.specs.MemHost.{begun};
ghost use Rattle.rg_commands.specs.Call.{command_of};
ghost use Rattle.rg_commands.specs.Plan.{IsPlan};
ghost use Rattle.rg_restarts.specs.Twice.{Words, IsStartable};

use rg_commands::Command;

/// Over a new host in memory a run of any legal plan may begin, and of any input within its limit.
pub fn law_new_store()
    // A new host in memory is a store from which a run goes on.
    ensures startable { (words : Words) (plan input : List ℕ) (asks : Planned) → command_of words ≡ Some (Command.Run 0) → IsPlan plan asks → length input ≤ 2 ^ 50 →
        IsStartable words plan input (begun (replicate 8 []) []) }
{}
