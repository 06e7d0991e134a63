//! A plain program for the one-thread relay of one circuit: for every event it goes over the whole
//! list of events before it and keeps nothing. Its contract is the definition of `circuit_model`
//! itself. It is slow, and a yardstick for a relay that keeps windows, queues and running digests:
//! both must give the same effects.
#![tactic(auto, using(crate::proofs::Logs::log_of_more))]

pub mod edge;
pub mod extending;
pub mod log;
pub mod next_hop;
pub mod opened;
pub mod packaged;
pub mod places;
pub mod received;
pub mod relay;
pub mod rules;
pub mod sendme;
pub mod streams;
#[cfg(test)]
mod tests;
pub mod windows;
