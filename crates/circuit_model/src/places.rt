//! The places of a circuit: its streams at the relay.

use tor_spec::Address;

/// The name of a stream on its circuit.
#[derive(Clone, Copy, Debug, PartialEq, Eq)]
pub struct StreamKey {
    /// The StreamID.
    pub stream: u16,
    /// The number of the BEGIN that was accepted for it, counted from 0.
    pub serial: usize,
}

/// What a place that was made has come to.
#[derive(Clone, Copy, Debug, PartialEq, Eq)]
pub enum Phase {
    /// Its stream isn't connected yet.
    Reaching,
    /// Its stream is connected.
    Joined,
    /// Its stream was ended by either side.
    Ending,
    /// It is given back.
    Free,
}

/// A place.
#[derive(Clone, Copy, Debug, PartialEq, Eq)]
pub struct Place {
    pub key: StreamKey,
    /// Where its stream is connected to.
    pub to: Address,
}
