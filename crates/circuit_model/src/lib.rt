//! What a relay that runs one circuit in one thread does with every event of it, after any history:
//! which cells it sends on each leg, which orders it gives to the edge, when it dials and when it
//! closes (tor-spec; proposal 289). The definitions stand in `specs/`, whose file `Words` lists
//! them; they look at the whole history and keep no state. `PathLayers` says what the client at the
//! other end does with a body. The functions of `laws` have no code: their contracts are laws that
//! show what the definitions mean. The plain types that all of this is about stand here, for code too.
#![tactic(auto)]

mod cell;
mod effects;
mod event;
pub mod laws;
mod message;
mod next_hop;
mod payload;
mod places;

pub use cell::CircuitCell;
pub use effects::{Effects, Order};
pub use event::Event;
pub use message::{Message, Received};
pub use next_hop::NextHop;
pub use payload::Payload;
pub use places::{Phase, Place, StreamKey};
