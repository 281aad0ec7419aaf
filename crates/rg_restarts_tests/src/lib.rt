//! Tests of runs that are stopped, in a crate of their own, so that no crate below is proved twice.
#![tactic(auto)]

#[cfg(test)]
mod stops;
