//! The states of aggregators by node and key, and a table of them in memory.
#![tactic(auto)]

mod ahead;
mod decode;
mod key_rows;
mod law;
mod mem_table;
mod one;
mod own;
mod sheets;
mod slot_changes;
mod slots;
mod state;
mod table;
mod touched;
mod writing;

pub use law::law_states;
pub use mem_table::MemTable;
pub use one::Refusal;
pub use own::first_state;
pub use rg_agg::{Aggregate, Avg, Count, First, Last, StateFault, Sum, SumSq};
pub use rg_distinct::Distinct;
pub use rg_extreme::{Max, Min};
pub use rg_group::Key;
pub use rg_metric::{Answer, Func};
pub use rg_rank::Rank;
pub use state::AggState;
pub use table::{Change, Table, TableFault};
