//! The switch: the channels of a relay, the circuits on them, and which cell leaves next.
//!
//! A cell that opens a circuit comes in by `open_circuit`, another by `take`. A crypto worker gets the bodies
//! that wait in a direction of a circuit by `claim`, and brings them home by `give_back`, or undone by `abandon`.
//! What a channel sends leaves by `next_cell`, first the DESTROY cells of its lane, then the cells of its circuits.
//! An order to dial a circuit's next hop is handed out by `dial_order`.
#![tactic(auto)]

mod cells;
mod channel;
mod circuit;
mod claiming;
mod counters;
mod destroy;
mod dialling;
mod homecoming;
mod leg;
mod offer;
mod opening;
mod orders;
mod parts;
mod pick;
mod relay;
mod returning;
mod settling;
mod slot;
mod switch;
#[cfg(test)]
mod tests;
mod way;

pub use switch::Switch;
