//! What helps to mend a plan that was refused: lines for people, which standard error has behind the refusal.
//!
//! The bytes of a plan and its fault come in. Upward: text, of which no clause says anything. Each line ends with LF and
//! begins with two spaces. Tests hold what is said of the commonest slips.
#![tactic(auto)]

mod columns;
mod excerpt;
mod expected;
mod keys;
mod query;
mod refused;
mod schema;
mod shapes;
mod slips;
mod stream;

pub use refused::hints;
pub use schema::schema_hints;
