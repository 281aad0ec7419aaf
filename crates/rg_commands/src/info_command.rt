ghost use Rattle.std.specs.Prelude.{Some, None};
ghost use Rattle.rg_commands.specs.Call.{EndsInfo, IsInfoAt, ending_status, ending_line, status_after, line_after};
ghost use Rattle.rg_commands.specs.Causes.{EveryCall};
ghost use Rattle.rg_commands.specs.Dumps.{ShowsStore};
ghost use Rattle.rg_commands.specs.Infos.{no_lines, InfoPromises};
ghost use Rattle.rg_commands.specs.Outcome.{host_outcome, not_given, outcome};

use crate::command::Command;
use crate::ending::Ending;
use crate::last_line::end;
use crate::refused::refuse_damage;
use rg_host::Host;
use rg_info::InfoFault;
use rg_messages::Status;
use std::alloc::Global;

/// How an `info` ends that met this fault.
fn ending_of(alloc: Global, fault: InfoFault) -> Ending
    ensures { EndsInfo fault (ending_status result) (ending_line result) }
{
    match fault {
        InfoFault::Disk => Ending::Failed(Status::Disk),
        InfoFault::Memory => Ending::Failed(Status::Memory),
        InfoFault::Write => Ending::Failed(Status::Write),
        InfoFault::Damaged(place) => refuse_damage(alloc, place),
    }
}

/// Puts the lines on the store, once its whole log was read.
fn tell_store<H: Host>(alloc: Global, host: &mut H) -> Result<(), Ending>
    ensures goes { ShowsStore (IsInfoAt (status_after result)) no_lines (host_outcome H.Host host.old host.new) (status_after result) (line_after result) }
{
    match rg_info::info(alloc, host) {
        Ok(()) => Ok(()),
        Err(fault) => Err(ending_of(alloc, fault)),
    }
}

/// Does `info STORE`: puts six lines on the store, once its whole log was read: how many events and frames
/// the log has, which event is the last, and what checkpoint each slot has. The log is file 2 of the host,
/// the slots are files 0 and 1. No file is written. Of a damaged log no line is put but the last one.
pub fn info<H: Host>(alloc: Global, host: &mut H) -> Status
    ensures every { EveryCall (Some Command.Info) (outcome not_given not_given (host_outcome H.Host host.old host.new)) result None }
    ensures promises { InfoPromises (host_outcome H.Host host.old host.new) result }
{
    let done = tell_store(alloc, host);
    end(host, &done)
}
