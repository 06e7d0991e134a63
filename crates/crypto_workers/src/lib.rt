//! The crypto workers: each claims one direction's cipher with the bodies that wait for it, lets the
//! bodies go through the cipher, and gives it back.
//!
//! A worker works outside the switch's lock, so several are at work at once: that is what the claims are
//! for. Of the switch it sees a port alone (`tr_io`, `CorePort`).
#![tactic(auto)]

mod round;
#[cfg(test)]
mod tests;
mod worker;

pub use worker::worker_loop;
