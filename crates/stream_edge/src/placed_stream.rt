//! What a place holds.

/// The phase of a stream at an exit.
#[derive(Clone, Copy, PartialEq, Eq, Debug)]
pub enum Phase {
    /// It is not yet connected.
    Reaching,
    /// It is connected.
    Joined,
    /// It has ended, and its Close was not yet handed out.
    Ending,
}

/// A stream that holds a place, with its counts of DATA cells and SENDMEs.
#[derive(Clone, Copy, PartialEq, Eq, Debug)]
pub struct PlacedStream {
    pub stream: u16,
    /// Which of the circuit's accepted BEGINs it is, counted from 0.
    pub serial: u64,
    pub phase: Phase,
    /// DATA cells packaged for it.
    pub packed: u64,
    /// SENDMEs accepted for it.
    pub credits: u64,
    /// DATA cells accepted for it.
    pub accepted: u64,
    /// DATA cells accepted for it whose bytes its connection has taken.
    pub drained: u64,
}
