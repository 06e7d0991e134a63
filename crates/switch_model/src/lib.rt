//! What a switch with all its circuits answers to each call, after any history of calls.
//!
//! A history is a list of steps, each a call with its arguments and its answer. The definitions in
//! `specs/` say what a history means: which channels and circuits are live, which cells were taken
//! and sent, what waits, and the right answer of each call (`Legal`). They count, filter and look at
//! the whole history, and keep no state. What one circuit does by itself is `circuit_model`'s. The
//! functions here have no code: their contracts are laws that show what the definitions mean.
#![tactic(auto)]

pub mod answers;
pub mod circuits;
pub mod counts;
pub mod histories;
pub mod legs;
pub mod limits;
pub mod returns;
