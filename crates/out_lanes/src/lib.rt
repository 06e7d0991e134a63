//! What waits to leave a relay: cells in a queue for each leg of a circuit, and DESTROYs in a lane for
//! each channel (tor-spec, "Tearing down circuits").
//!
//! Contracts see lists, oldest first, and how many more each takes without memory. A caller reserves
//! room ahead where a later call may not want for it. Queues and lanes are found by hashed indexes, so
//! no call depends on how many there are.
#![tactic(auto)]

mod destroy;
mod destroy_lanes;
mod lanes;
mod queues;

pub use destroy::Destroy;
pub use lanes::Lanes;

#[cfg(test)]
mod tests;
