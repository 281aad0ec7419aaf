ghost use Rattle.std.specs.Prelude.{codes, decimal, ◌≡◌, ◌++◌, ◌≤◌, IfOk, IfErr, IfSome, OnOk};
ghost use Rattle.rg_config.specs.Plans.{planned};
ghost use Rattle.rg_config.specs.Read.{IsReadPlan};
ghost use Rattle.rg_commands.specs.Plan.{IsPlan};
ghost use Rattle.rg_commands.specs.Call.{refusal_line, ending_status, ending_line, ending_refusal, EndsBy};
ghost use Rattle.rg_commands.specs.Outcome.{source_outcome};
ghost use Rattle.rg_commands.specs.Unread.{UnreadFor};

use crate::ending::Ending;
use rg_bytes::{Memory, put_bytes, write_whole};
use rg_config::{ConfigFault, Plan, read_plan};
use rg_host::{AllFault, Source, read_all};
use rg_messages::{Refusal, Status, TomlFault};
use std::alloc::Global;

/// The greatest number of bytes of a plan.
const MAX_PLAN_BYTES: usize = 65_536;

/// Writes the line that refuses a plan by its query with this number, with its LF.
fn write_refused_query(line: &mut Vec<u8>, number: u32) -> Result<(), Memory>
    ensures { OnOk result (line.new.items ≡ line.old.items ++ (codes "refused plan query " ++ (decimal number ++ codes "\n"))) }
{
    put_bytes(line, b"refused plan query ")?;
    write_whole(line, u64::from(number))?;
    put_bytes(line, b"\n")
}

/// Writes the line that refuses a plan, with its LF.
fn write_refusal(line: &mut Vec<u8>, fault: ConfigFault) -> Result<(), Memory>
    ensures { OnOk result (line.new.items ≡ line.old.items ++ refusal_line fault) }
{
    match fault {
        ConfigFault::Toml => put_bytes(line, b"refused plan toml\n"),
        ConfigFault::Stream => put_bytes(line, b"refused plan stream\n"),
        ConfigFault::Defaults(_) => put_bytes(line, b"refused plan stream\n"),
        ConfigFault::Settings(_) => put_bytes(line, b"refused plan settings\n"),
        ConfigFault::Query(number, _) => write_refused_query(line, number),
        ConfigFault::Memory => Ok(()),
    }
}

/// Where these bytes stop being TOML, if they do.
fn toml_fault(alloc: Global, bytes: &[u8]) -> Option<TomlFault> {
    match toml::table_from_slice(alloc, bytes) {
        Ok(_) => None,
        Err(why) => Some(TomlFault::new(bytes, why)),
    }
}

/// How a call ends whose plan has these bytes and is refused.
fn refuse_plan(alloc: Global, bytes: &[u8], fault: ConfigFault) -> Ending
    ensures { EndsBy fault result }
{
    if fault == ConfigFault::Memory {
        return Ending::Failed(Status::Memory);
    }
    let toml = toml_fault(alloc, bytes);
    let mut line = Vec::new(alloc);
    match write_refusal(&mut line, fault) {
        Ok(()) => Ending::Refused(line, Refusal { fault, toml }),
        Err(_) => Ending::Failed(Status::Memory),
    }
}

/// Reads the plan. An error says how the call ends: its last line isn't put yet.
pub(crate) fn load_plan<P: Source>(alloc: Global, plan: &mut P) -> Result<Plan, Ending>
    ensures legal { IfOk result (λ asked. IfSome (P.left plan.old) (λ bytes. IsPlan bytes (planned asked))) }
    ensures is_read { IfOk result IsReadPlan }
    ensures unread { IfErr result (λ ending. UnreadFor (source_outcome P.Source plan.old plan.new) (ending_line ending) (ending_refusal ending) (ending_status ending)) }
{
    let bytes = match read_all(alloc, plan, MAX_PLAN_BYTES) {
        Ok(bytes) => bytes,
        Err(AllFault::Read) => return Err(Ending::Failed(Status::Read)),
        Err(AllFault::Limit) => return Err(Ending::Failed(Status::Limit)),
        Err(AllFault::Memory) => return Err(Ending::Failed(Status::Memory)),
    };
    match read_plan(alloc, &bytes) {
        Ok(asked) => Ok(asked),
        Err(fault) => Err(refuse_plan(alloc, &bytes, fault)),
    }
}
