//! One circuit at a relay (tor-spec, "Relay cells", "Opening streams and transferring data", "EXTEND and
//! EXTENDED cells", "Flow control"): what it does with each relay cell, and with what its edge
//! connections and its next hop report.
//!
//! Contracts speak of the circuit's whole history, as the crate circuit_model has it. The functions of
//! the public modules have no code: their contracts are laws, by which the counts that a circuit keeps
//! are those of its history.
#![tactic(auto)]

mod allowed_names;
mod begin;
mod circuit;
mod edge;
mod effects;
pub mod effects_by_places;
mod extend;
mod extending;
mod for_this_relay;
mod forward;
pub mod going_on;
mod message;
mod packager;
pub mod places_of_a_log;
pub mod reads;
mod resolve;
mod rules;
mod streams;
#[cfg(test)]
mod tests;
pub mod window_after_events;
pub mod windows_of_a_log;

pub use circuit::Circuit;
pub use circuit_model::NextHop;
pub use effects::Effects;
pub use rules::{Allow, Rules};
