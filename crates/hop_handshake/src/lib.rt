//! How a circuit is opened (tor-spec, "CREATE and CREATED cells", "CREATE_FAST/CREATED_FAST cells").
//!
//! A cell that asks for a circuit carries the client's half of a handshake. A `Handshake` answers it
//! with the relay's half and the keys of the circuit; `opening_of` makes of this the cell that goes
//! back. `FastHandshake` is the handshake of CREATE_FAST, for EXTEND2 and CREATE2.
#![tactic(auto)]

mod command;
mod fast;
mod handshake;
pub mod laws;
mod opening;
mod payload;

pub use fast::FastHandshake;
pub use handshake::{AnswerFault, Answered, Handshake};
pub use opening::{Opening, opening_of};

#[cfg(test)]
mod tests;
