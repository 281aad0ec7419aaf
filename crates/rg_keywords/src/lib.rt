//! The words and the signs of the query language, and what each of them stands for.
#![tactic(auto)]

mod callee;
mod func;
mod keyword;
mod op;
mod time_unit;

pub use callee::Callee;
pub use func::Func;
pub use keyword::{Keyword, truth};
pub use op::{Op, Symbol};
pub use time_unit::TimeUnit;
