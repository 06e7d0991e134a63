//! Decaying cell counts (after Tor's EWMA, in fixed-point numbers), and which leg of a channel is
//! served next: the one with the least count.
//!
//! Contracts see every leg with its count at the tick in force, as if each tick halved all of them.
//! The code halves a count only when its leg is looked at, and keeps for each channel the legs that
//! have something queued in the order in which they are served.
#![tactic(auto)]

mod count;
pub mod laws;
mod legs;
mod roster;
mod sched;
mod table;

pub use sched::Sched;

#[cfg(test)]
mod tests;
