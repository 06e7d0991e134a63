//! A counter behind a [`TurnLock`](turn_lock::TurnLock), counted up in four threads: a small example
//! of the lock, and its test with real threads.
#![tactic(auto)]

pub mod counter;
pub mod steps;
#[cfg(test)]
mod tests;
pub mod threads;
