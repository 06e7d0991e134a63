//! A box with room for one note, behind a lock, with an end that puts notes and one that takes them.
//!
//! Of the two roles of a slot the first tells the second by it which session it has. The box has no
//! atomic step of its own: each call is a turn of the lock.
#![tactic(auto)]

mod berth;
mod calls;
pub mod note;
pub mod steps;
#[cfg(test)]
mod tests;

pub use berth::Berth;
