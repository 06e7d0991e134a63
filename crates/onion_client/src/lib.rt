//! The client's end of a circuit (tor-spec, "Routing relay cells").
//!
//! `Layers` has the layers that a client shares with the hops of its path: it seals a body for the last hop,
//! and finds the hop that a body comes from. `Layer` is that of one hop. The definitions in `specs/` say what a
//! whole path answers to each call, over every history of its calls; `laws` show what they mean.
#![tactic(auto)]

mod close_cause;
mod hop;
pub mod laws;
mod layer;
mod layers;
#[cfg(test)]
mod tests;

pub use close_cause::CloseCause;
pub use hop::Hop;
pub use layer::Layer;
pub use layers::Layers;
