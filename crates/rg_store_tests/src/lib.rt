//! Tests of the public calls of hosts, sources, lines and frames, and of checkpoints: payloads, changes, and the slots
//! that hold them. They stand in a crate of their own, so that none of those crates is proved a second time for its
//! tests.
#![tactic(auto)]

#[cfg(test)]
mod frames;
#[cfg(test)]
mod hosts;
#[cfg(test)]
mod parts;
#[cfg(test)]
mod payloads;
#[cfg(test)]
mod rows;
#[cfg(test)]
mod slots;
#[cfg(test)]
mod sources;
#[cfg(test)]
mod store;
