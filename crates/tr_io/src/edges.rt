//! What a circuit orders from an edge connection, and what an edge connection reports.
use crate::names::{Dest, StreamKey};
use cell_codec::Bytes;

/// An order to an edge connection.
#[derive(Drop)]
pub enum EdgeOrder {
    /// Connect the stream to this destination.
    Reach(StreamKey, Dest),
    /// Write these bytes, 0 to 498 of them: the data of one relay cell.
    Carry(StreamKey, Bytes),
    /// Close the connection, for this reason (tor-spec, "Closing streams").
    Close(StreamKey, u8),
}

/// What an edge connection reports.
#[derive(Drop)]
pub enum EdgeEvent {
    /// It is connected.
    Connected,
    /// It read these bytes, 1 to 498 of them.
    Data(Bytes),
    /// It ended, for this reason (tor-spec, "Closing streams").
    Ended(u8),
}
