//! Queries as values, and what each of them answers, from scratch.
//!
//! A `Query` is what a query's text asks for; its plain form in contracts is `Asked`. The answers to
//! an event are defined here by a walk over all events (`answers_to`).
#![tactic(auto)]

mod admitted;
mod answer;
mod column;
mod condition;
mod query;

pub use admitted::{is_admitted, takes};
pub use answer::{Answer, Answers};
pub use column::column_value;
pub use condition::Condition;
pub use query::{Agg, Aggs, Columns, Query, Window};
pub use rg_keywords::{Func, Op};
