//! Tests of the call that the program runs: of its lines and of a trial, of what it does to a store, of a replay, of a
//! verify, and of stores of any bytes. They stand in a crate of their own, so that no crate below is proved twice.
#![tactic(auto)]

#[cfg(test)]
mod again;
#[cfg(test)]
mod answered;
#[cfg(test)]
mod asked;
#[cfg(test)]
mod bounds;
#[cfg(test)]
mod cached;
#[cfg(test)]
mod changes;
#[cfg(test)]
mod dumped;
#[cfg(test)]
mod graced;
#[cfg(test)]
mod grown;
#[cfg(test)]
mod hostile;
#[cfg(test)]
mod in_use;
#[cfg(test)]
mod informed;
#[cfg(test)]
mod made;
#[cfg(test)]
mod pieces;
#[cfg(test)]
mod replayed;
#[cfg(test)]
mod scenario;
#[cfg(test)]
mod setting;
#[cfg(test)]
mod stopped;
#[cfg(test)]
mod stored;
#[cfg(test)]
mod trial;
#[cfg(test)]
mod tried;
#[cfg(test)]
mod verified;
#[cfg(test)]
mod watched;
