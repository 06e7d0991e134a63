//! The loops of a link's roles: what a channel sends is written to its session.
//!
//! Of the switch a loop sees a port alone (`tr_io`, `CorePort`), and of the outside the half of a slot.
#![tactic(auto)]

mod line;
mod round;
#[cfg(test)]
mod tests;
mod writer;

pub use writer::write_session;
