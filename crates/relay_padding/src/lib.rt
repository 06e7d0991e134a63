//! The padding of relay bodies (tor-spec, "Relay cells").
//!
//! A side of a circuit packages bodies one behind the other, and `Padding` puts bytes behind the payload of
//! each: where there is a key, those of its keystream. `circuit_model` defines them, for a relay and for a
//! client. It takes no memory. Why a Digest that is put into a body changes no running digest stands in
//! `proofs/Digests`, for those that package.
#![tactic(auto)]

mod padding;
#[cfg(test)]
mod tests;

pub use padding::Padding;
