//! Tests of the public calls of the log's crates: chunks, their cache, the reservoir, and what is printed of a store.
//! They stand in a crate of their own, so that none of those crates is proved a second time for its tests. Each test is
//! a list of rows, `row::Row`, which one helper goes through.
#![tactic(auto)]

/// A spot by its place, its index and its number.
#[cfg(test)]
macro_rules! spot {
    ($place:literal, $index:literal, $number:literal) => {
        Spot {
            place: $place,
            index: $index,
            number: $number,
        }
    };
}

#[cfg(test)]
mod ahead;
#[cfg(test)]
mod cache;
#[cfg(test)]
mod chunk;
#[cfg(test)]
mod dump;
#[cfg(test)]
mod events;
#[cfg(test)]
mod grown;
#[cfg(test)]
mod info;
#[cfg(test)]
mod open;
#[cfg(test)]
mod payments;
#[cfg(test)]
mod printed;
#[cfg(test)]
mod refused;
#[cfg(test)]
mod reservoir;
#[cfg(test)]
mod row;
#[cfg(test)]
mod spots;
#[cfg(test)]
mod store;
#[cfg(test)]
mod tried;
#[cfg(test)]
mod walk;
