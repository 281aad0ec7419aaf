//! Tests of what a run says and of what it is started with: rows, lines, openings of a store and of one whose log
//! grows, runs and replays, the real outside, listings and reports.
//!
//! They call what these crates offer to all, and stand in a crate of their own, so that none of the crates
//! below is proved once more for its tests. No program names this crate.
#![tactic(auto)]

#[cfg(test)]
mod bytes;
#[cfg(test)]
mod growing;
#[cfg(test)]
mod hints;
#[cfg(test)]
mod line;
#[cfg(test)]
mod ordered;
#[cfg(test)]
mod payload;
#[cfg(test)]
mod real;
#[cfg(test)]
mod replies;
#[cfg(test)]
mod report;
#[cfg(test)]
mod row;
#[cfg(test)]
mod rows;
#[cfg(test)]
mod started;
#[cfg(test)]
mod store;
