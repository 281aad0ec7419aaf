//! Tests of the public calls of the aggregators and of the engine's crates, from a tally up to the answers to events. They
//! stand in a crate of their own, so that none of those crates is proved a second time for its tests.
#![tactic(auto)]

#[cfg(test)]
mod agg;
#[cfg(test)]
mod check;
#[cfg(test)]
mod common;
#[cfg(test)]
mod edges;
#[cfg(test)]
mod engine;
#[cfg(test)]
mod filter;
#[cfg(test)]
mod key;
#[cfg(test)]
mod mixed;
#[cfg(test)]
mod plans;
#[cfg(test)]
mod ranks;
#[cfg(test)]
mod rows;
#[cfg(test)]
mod scratch;
#[cfg(test)]
mod states;
#[cfg(test)]
mod table;
#[cfg(test)]
mod tally;
