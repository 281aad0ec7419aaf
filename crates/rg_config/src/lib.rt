//! From the bytes of a plan file to a plan.
//!
//! In come the bytes of a TOML document, out goes a `Plan`: a schema, defaults for its columns, up to 64 queries with
//! their task plan, and settings, each in its range. Each refusal is exact: which part is wrong, and why,
//! is what the definitions say of the bytes, and the first fault is the one that is answered.
#![tactic(auto)]

mod defaults;
mod fault;
mod plan;
mod queries;
mod settings;
mod stream;
mod table;

pub use fault::{ConfigFault, DefaultsFault, QueryRefusal, SettingsFault};
pub use plan::{Plan, read_plan};
