//! From a query's text to its syntax.
#![tactic(auto)]

mod condition;
mod join;
mod level;
mod parse;
mod percent;
mod refusal;
mod select;
mod state;
mod step;
mod syntax;
mod token;
mod window;

pub use parse::{SyntaxFault, read_syntax};
pub use syntax::{Call, Duration, Expr, Literal, Raw, Span};
