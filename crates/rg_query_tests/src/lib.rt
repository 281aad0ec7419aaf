//! Tests of the public calls of the base and the query layer: bytes, values, schemas, events, columns and growths, and tokens,
//! syntax, queries, plans and plan files. They stand in a crate of their own, so that no crate of the two layers is proved a
//! second time for its tests, and in one, since a crate of tests has a cost of its own in the gate.
#![tactic(auto)]

#[cfg(test)]
mod built;
#[cfg(test)]
mod bytes;
#[cfg(test)]
mod column;
#[cfg(test)]
mod config;
#[cfg(test)]
mod event;
#[cfg(test)]
mod growth;
#[cfg(test)]
mod lists;
#[cfg(test)]
mod parsing;
#[cfg(test)]
mod plan;
#[cfg(test)]
mod printing;
#[cfg(test)]
mod rows;
#[cfg(test)]
mod schema;
#[cfg(test)]
mod steps;
#[cfg(test)]
mod syntax;
#[cfg(test)]
mod token;
#[cfg(test)]
mod value;
#[cfg(test)]
mod written;
