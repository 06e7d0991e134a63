//! A yardstick for a circuit: histories of one circuit, made of seeds, that a `Circuit` and the plain
//! program of its definitions must do the same with.
//!
//! The crate has nothing but that test. The histories have every kind of event: cells of a client that
//! keeps its own cipher and running digest, right and wrong ones, what the next hop sends and answers,
//! and what the edge connections report.
#![tactic(auto)]

#[cfg(test)]
mod tests;
