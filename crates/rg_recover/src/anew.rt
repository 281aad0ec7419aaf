ghost use Rattle.std.specs.Prelude.{◌≡◌, ◌<◌, IfOk, IfErr};
ghost use Rattle.rg_event.specs.Shapes.{IsSchema};
ghost use Rattle.rg_config.specs.Plans.{planned};
ghost use Rattle.rg_config.specs.Read.{IsReadPlan};
ghost use Rattle.rg_host.specs.MemHost.{said_in};
ghost use Rattle.rg_recover.specs.Anew.{HasRun, MayMeet};

use crate::whole_run::run;
use rg_bytes::Memory;
use rg_config::Plan;
use rg_event::Steps;
use rg_host::{Image, MemHost, MemSource};
use rg_run::RunFault;
use std::alloc::Global;
use std::sync::ledger::{Blank, Ledger};

/// Answers an input by a plan over a new store in memory, and hands its host out.
pub fn run_anew<L: Ledger>(
    alloc: Global,
    plan: &Plan,
    input: Vec<u8>,
    blank: Blank,
) -> Result<MemHost, RunFault>
    requires named { blank.name ≡ L.name }
    requires parts { blank.parts ≡ L.parts }
    requires whole { 0 < blank.parts }
    requires read { IsReadPlan plan.now }
    requires schema { IsSchema plan.now.schema }
    ensures ran { IfOk result (λ host. HasRun (planned plan.now) input.items (said_in host)) }
    ensures fault { IfErr result MayMeet }
{
    let mut host = match MemHost::new(alloc, Image::new(alloc), Vec::new(alloc)) {
        Ok(host) => host,
        Err(Memory) => return Err(RunFault::Memory),
    };
    let mut source = MemSource::new(input, Vec::new(alloc));
    let mut steps = Steps::<L>::new(blank);
    match run(alloc, plan, 0, &mut source, &mut host, &mut steps) {
        Ok(()) => Ok(host),
        Err(fault) => Err(fault),
    }
}
