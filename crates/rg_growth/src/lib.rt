//! Schemas that grow: columns that come later. A schema grows to another one of the same stream and time, which has its
//! columns first and at least one more. A growth is that schema and a value for each further column, and its payload
//! stands in a log where the new schema comes into force. Defaults make the growth of a schema that lacks just such columns as have one.
//! Upward: whether a schema grows to another one is answered exactly, what is written of a growth is read back, and
//! nothing else is read as one.
#![tactic(auto)]

mod defaults;
mod fault;
mod filling;
mod grows;
mod growth;
mod values;

pub use defaults::Defaults;
pub use fault::GrowthFault;
pub use grows::grows_to;
pub use growth::Growth;
