//! Cells on a link (tor-spec, "Cell format", link protocol 4), and the lists that the relay keeps.
//!
//! `Bytes`, `List` and `Queue` are lists whose contracts also count spare places, so that a caller
//! can take room first and add to them later without a refusal. `Cell` is a cell as the relay
//! handles it. `tor_spec` defines how a cell lies on a link.
#![tactic(auto)]

mod byte_list;
mod cell;
pub mod command;
mod decoder;
pub mod destroy_reason;
pub mod laws;
mod layout;
mod list;
mod queue;
mod reader;
mod sizes;
mod stream;
mod writer;

pub use byte_list::Bytes;
pub use cell::{Body, Cell, DecodeFault, LinkFault};
pub use decoder::Decoder;
pub use list::List;
pub use queue::Queue;
pub use writer::{write_cell, write_versions};

#[cfg(test)]
mod tests;
