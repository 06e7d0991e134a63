//! What a circuit's relay cells from the client's side bring to this relay.

use crate::payload::Payload;

/// A relay message that is for this relay: a recognised relay cell of a fitting Length.
#[derive(Drop)]
pub struct Message {
    /// The relay command.
    pub command: u8,
    /// The StreamID.
    pub stream: u16,
    /// The data.
    pub payload: Payload,
    /// The forward running digest after this cell.
    pub digest: [u8; 20],
    /// Whether it came in a RELAY_EARLY cell.
    pub early: bool,
    /// The serial of the place at which its StreamID is live, if there is one.
    pub place: Option<usize>,
}

/// What a relay cell from the client's side is to this relay.
#[derive(Drop)]
pub enum Received {
    /// One more RELAY_EARLY than a circuit takes.
    TooManyEarly,
    /// Not for this relay: the body with this relay's layer taken off.
    Unrecognised([u8; 509]),
    /// Recognised, with a Length that no relay cell has.
    TooLong,
    /// For this relay.
    ForUs(Message),
}
