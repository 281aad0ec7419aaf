//! From events to answers.
#![tactic(auto)]

mod answering;
mod building;
mod changer;
mod engine;
mod fault;
mod law;
mod moving;
mod part;
mod tree;

pub use engine::Engine;
pub use fault::EngineFault;
pub use law::law_serves;
