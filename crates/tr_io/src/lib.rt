//! The outside of the relay as traits, and the plain types that its parts speak in.
//!
//! A source or a sink counts its faults: code that is generic over it can't raise the count by
//! itself, so a clause "this answer comes only where the count rose" refuses a body that gives up.
#![tactic(auto)]

pub mod answers;
pub mod clock;
pub mod core_port;
pub mod dials;
pub mod door_answer;
pub mod edges;
mod failing_calls;
pub mod gate;
pub mod loop_end;
pub mod memory;
mod memory_input;
pub mod memory_outlet_in;
pub mod memory_outlet_out;
mod memory_reading;
pub mod memory_session;
pub mod memory_slot_in;
pub mod memory_slot_out;
pub mod names;
pub mod outlet_in;
pub mod outlet_out;
pub mod output;
pub mod phrase;
pub mod port_parts;
pub mod sink;
pub mod slot_in;
pub mod slot_out;
#[cfg(test)]
mod slot_tests;
pub mod source;
pub mod standard;
pub mod status;
pub mod step;
pub mod stepping;
#[cfg(test)]
mod tests;
pub mod word_slot;
