//! The streams of one circuit at an exit (tor-spec, "Opening streams and transferring data", "Flow
//! control"): 32 places, each with a stream's phase, its windows and its counts.
//!
//! A place is taken by an accepted BEGIN and free again once its Close was handed out. No call takes
//! memory.
#![tactic(auto)]

mod placed_stream;
mod places;

pub use placed_stream::{Phase, PlacedStream};
pub use places::{AcceptAnswer, CreditAnswer, PlaceNo, Places};

#[cfg(test)]
mod tests;
