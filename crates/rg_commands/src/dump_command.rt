ghost use Rattle.std.specs.Prelude.{Some, None};
ghost use Rattle.rg_commands.specs.Call.{EndsDump, ending_status, ending_line, status_after, line_after};
ghost use Rattle.rg_commands.specs.Causes.{EveryCall};
ghost use Rattle.rg_commands.specs.Dumps.{ShowsStore, IsDumpOf, rows_of, DumpPromises};
ghost use Rattle.rg_commands.specs.Outcome.{host_outcome, not_given, outcome};

use crate::command::Command;
use crate::ending::Ending;
use crate::last_line::end;
use crate::refused::refuse_damage;
use rg_dump::DumpFault;
use rg_host::Host;
use rg_messages::Status;
use std::alloc::Global;

/// How a dump ends that met this fault.
fn ending_of(alloc: Global, fault: DumpFault) -> Ending
    ensures { EndsDump fault (ending_status result) (ending_line result) }
{
    match fault {
        DumpFault::Disk => Ending::Failed(Status::Disk),
        DumpFault::Memory => Ending::Failed(Status::Memory),
        DumpFault::Write => Ending::Failed(Status::Write),
        DumpFault::Damaged(place) => refuse_damage(alloc, place),
    }
}

/// Puts the dump of the store's log.
fn dump_log<H: Host>(alloc: Global, host: &mut H) -> Result<(), Ending>
    ensures goes { ShowsStore IsDumpOf rows_of (host_outcome H.Host host.old host.new) (status_after result) (line_after result) }
{
    match rg_dump::dump(alloc, host) {
        Ok(()) => Ok(()),
        Err(fault) => Err(ending_of(alloc, fault)),
    }
}

/// Does `dump STORE`: puts the text of the schema in force at the end of the log, which is file 2 of the
/// host, and then each event as a row of `csv`, with the values of every later growth behind its own. No
/// file is written. A damaged log is dumped up to its first damaged place, which the last line says.
pub fn dump<H: Host>(alloc: Global, host: &mut H) -> Status
    ensures every { EveryCall (Some Command.Dump) (outcome not_given not_given (host_outcome H.Host host.old host.new)) result None }
    ensures promises { DumpPromises (host_outcome H.Host host.old host.new) result }
{
    let done = dump_log(alloc, host);
    end(host, &done)
}
