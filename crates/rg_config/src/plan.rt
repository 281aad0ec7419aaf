ghost use Rattle.std.specs.Prelude.{◌≡◌, ℕ, List, IfOk, IfErr, Result, None, map, All};
ghost use Rattle.rg_metric.specs.Queries.{Asked, asked};
ghost use Rattle.rg_plan.specs.Named.{HasAgg, asked_by};
ghost use Rattle.rg_plan.specs.Offsets.{IsMeasured};
ghost use Rattle.rg_plan.specs.Plans.{plan_for, excess};
ghost use Rattle.rg_query.specs.Legal.{IsLegalQuery};
ghost use Rattle.rg_query.specs.Printing.{query_text};
ghost use Rattle.rg_growth.specs.Growing.{AreDefaultsOf};
ghost use Rattle.rg_config.specs.Plans.{Planned, planned, Says, Tells, Agrees};
ghost use Rattle.toml.specs.View.{table_view};
ghost use Rattle.rg_config.specs.Documents.{AreInRange, rest_of};
ghost use Rattle.rg_config.specs.Read.{IsReadPlan, IsSaid};
ghost use Rattle.rg_config.specs.Reading.{ReadsPlan, ReadsRest, settings_view};
ghost use Rattle.rg_config.specs.declared.fault.ConfigFault.{ConfigFault as Fault};

use crate::fault::{ConfigFault, SettingsFault};
use crate::queries::{Queries, read_queries};
use crate::settings::{Settings, read_settings};
use crate::stream::{Stream, read_stream};
use crate::table::{has_only, read_table, texts_at};
use rg_event::{Room, Schema, Texts};
use rg_growth::Defaults;
use rg_metric::Query;
use rg_plan::{PlanFault, TaskPlan, compile};
use std::alloc::Global;
use toml::Table;

/// The keys of a plan file.
const TOP_KEYS: [&str; 3] = ["queries", "stream", "settings"];

/// What a run is asked for.
#[derive(Debug, Drop)]
pub struct Plan {
    /// The columns of the input.
    pub schema: Schema,
    /// For each column past the time, what stands for its value in the events that came before the column, if
    /// something does.
    pub defaults: Defaults,
    /// The queries as they are printed, in order.
    pub queries: Texts,
    /// The plan of the queries: 1 to 64.
    pub task: TaskPlan,
    /// How much is kept: events in a chunk, chunks in the cache, and events in all.
    pub room: Room,
    /// After how many events they are committed, from 1 to 1,000,000.
    pub commit: u64,
    /// After how many events a checkpoint is saved, from 1 to 1,000,000.
    pub save: u64,
    /// Whether the first line is a header.
    pub header: bool,
    /// By how many milliseconds an event may be earlier than the last one before it, from 0 to 10^15.
    pub grace: u64,
}

/// Reads the bytes of a plan file.
#[tactic(auto, using(crate::proofs::One::one_plan, crate::proofs::One::agrees))]
pub fn read_plan(alloc: Global, bytes: &[u8]) -> Result<Plan, ConfigFault>
    // What is answered is what the bytes say: a plan, or the first fault in its order.
    ensures sound { Tells bytes.now result }

    // Whatever the bytes say is answered.
    ensures complete { (said : Result Planned Fault) → Says bytes.now said → Agrees said result }

    // The bytes say one thing.
    ensures unambiguous { (said other : Result Planned Fault) → Says bytes.now said → Says bytes.now other → said ≡ other }

    // All bytes say something.
    ensures says { (any : List ℕ) → (said : Result Planned Fault) × Says any said }

    // The queries stand beside as they are printed.
    ensures printed { IfOk result (λ plan. plan.queries ≡ map (query_text plan.schema) (planned plan).queries) }

    // The task plan is that of the queries.
    ensures task { IfOk result (λ plan. plan.task ≡ plan_for (planned plan).queries) }

    // Each query is legal over the schema.
    ensures legal { IfOk result (λ plan. All (IsLegalQuery plan.schema) (planned plan).queries) }

    // Each query is said by some text.
    ensures said { IfOk result (λ plan. All (IsSaid plan.schema) (planned plan).queries) }

    // Each setting lies in its range.
    ensures ranges { IfOk result (λ plan. AreInRange (planned plan).settings) }

    // Each column has a default of its kind, or none.
    ensures defaults { IfOk result (λ plan. AreDefaultsOf plan.schema.fields plan.defaults) }
{
    plan_of(alloc, bytes)
}

/// Reads a plan, part by part.
#[tactic(auto, using(crate::proofs::Parts::table_tells, crate::proofs::Parts::stream_tells, crate::proofs::Parts::rest_tells, crate::proofs::Parts::plan_tells))]
fn plan_of(alloc: Global, bytes: &[u8]) -> Result<Plan, ConfigFault>
    ensures sound { Tells bytes.now result }
    ensures read { IfOk result IsReadPlan }
{
    let top = read_table(alloc, bytes)?;
    let stream = read_stream(alloc, &top)?;
    let rest = read_rest(alloc, &top)?;
    plan_with(alloc, stream, rest)
}

/// The plan with this stream, and with what stands beside it.
#[tactic(auto, using(crate::proofs::Legal::measured, crate::proofs::Legal::some_aggs, crate::proofs::Said::all_said))]
fn plan_with(alloc: Global, stream: Stream, rest: Rest<'_>) -> Result<Plan, ConfigFault>
    requires ranges { AreInRange (settings_view rest.settings) }
    requires defaults { AreDefaultsOf stream.schema.fields stream.defaults }
    ensures reads { ReadsPlan stream.schema stream.defaults (map (λ text. text.now) rest.entry.texts.items) (settings_view rest.entry.settings) result }
    ensures read { IfOk result IsReadPlan }
{
    let Queries { printed, parsed } = read_queries(alloc, &stream.schema, &rest.texts)?;
    let task = task_of(alloc, &parsed)?;
    let settings = rest.settings;
    Ok(Plan {
        schema: stream.schema,
        defaults: stream.defaults,
        queries: printed,
        task,
        room: settings.room,
        commit: settings.commit,
        save: settings.save,
        header: settings.header,
        grace: settings.grace,
    })
}

/// The plan of queries that are within their bounds.
#[tactic(auto, using(crate::proofs::Legal::asked_again))]
fn task_of(alloc: Global, queries: &[Query]) -> Result<TaskPlan, ConfigFault>
    requires measured { All (λ (q : Asked). IsMeasured q.window) (map asked queries.now) }
    requires some { All HasAgg (map asked queries.now) }
    requires within { excess (map asked queries.now) ≡ None }
    ensures task { IfOk result (λ task. task ≡ plan_for (map asked queries.now)) }
    ensures queries { IfOk result (λ task. asked_by task ≡ map asked queries.now) }
    ensures memory { IfErr result (λ fault. fault ≡ ConfigFault.Memory) }
{
    match compile(alloc, queries) {
        Ok(task) => Ok(task),
        // the queries are within their bounds
        Err(PlanFault::TooMany(_)) => unreachable!(),
        Err(PlanFault::Memory) => Err(ConfigFault::Memory),
    }
}

/// What stands beside the stream.
#[derive(Drop)]
struct Rest<'a> {
    /// The texts of the queries: at least one.
    texts: Vec<&'a str>,
    settings: Settings,
}

/// Reads what stands beside the stream.
fn read_rest(alloc: Global, top: &Table) -> Result<Rest<'_>, ConfigFault>
    ensures reads { ReadsRest (rest_of (table_view top.now)) result }
    ensures ranges { IfOk result (λ rest. AreInRange (settings_view rest.settings)) }
{
    if !has_only(top, &TOP_KEYS) {
        return Err(ConfigFault::Settings(SettingsFault::TopKey));
    }
    let no_queries = ConfigFault::Settings(SettingsFault::Queries);
    let texts = texts_at(alloc, top, "queries", no_queries)?;
    if texts.is_empty() {
        return Err(no_queries);
    }
    match read_settings(top) {
        Ok(settings) => Ok(Rest { texts, settings }),
        Err(fault) => Err(ConfigFault::Settings(fault)),
    }
}
