//! Tests of the public calls of a pipe. They stand in a crate of their own, so that rg_pipe isn't proved a second time
//! for its tests.
#![tactic(auto)]

#[cfg(test)]
mod requests;
#[cfg(test)]
mod rows;
#[cfg(test)]
mod stream;
