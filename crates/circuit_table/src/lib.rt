//! Which leg of which circuit has a CircID of a channel (tor-spec, "Choosing circuit IDs in create
//! cells").
//!
//! Contracts see a `CircuitTable` as a finite map. Its entries stand in a slab, and a hashed index
//! finds them, so no call but one that takes memory depends on how many there are.
#![tactic(auto)]

mod table;

pub use table::CircuitTable;

#[cfg(test)]
mod tests;
