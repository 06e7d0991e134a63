//! What names a channel, a circuit, a stream and a place to connect to.

/// The number of a channel of a switch: 0, 1, 2 .. in the order in which they came up.
#[derive(Clone, Copy, Debug, PartialEq, Eq)]
pub struct ChanNo(pub u64);

/// The number of a circuit of a switch: 0, 1, 2 .. in the order in which they were opened. It is
/// never given twice.
#[derive(Clone, Copy, Debug, PartialEq, Eq)]
pub struct CircNo(pub u64);

/// Which side opened a channel's connection. That side sets the highest bit of the CircIDs that it
/// chooses (tor-spec, "Choosing circuit IDs in create cells").
#[derive(Clone, Copy, Debug, PartialEq, Eq)]
pub enum Side {
    /// The peer connected to us.
    PeerOpened,
    /// We connected to the peer.
    WeOpened,
}

/// A direction of a circuit.
#[derive(Clone, Copy, Debug, PartialEq, Eq)]
pub enum Dir {
    /// Away from the client.
    Forth,
    /// Towards the client.
    Back,
}

/// An IPv4 address and a TCP port.
#[derive(Clone, Copy, Debug, PartialEq, Eq)]
pub struct Dest {
    /// The four bytes of the address, in the order in which they are written.
    pub ip: [u8; 4],
    /// The port.
    pub port: u16,
}

/// What names a stream: its circuit, its StreamID and its serial number on the circuit. A StreamID
/// may be used again once its stream has ended; a serial number is not.
#[derive(Clone, Copy, Debug, PartialEq, Eq)]
pub struct StreamKey {
    /// The circuit.
    pub circ: CircNo,
    /// The StreamID.
    pub id: u16,
    /// The number of the BEGIN that was accepted for it, counted from 0 on its circuit.
    pub serial: u64,
}

/// What names a claim: the job that carries one direction's cipher to a crypto worker.
#[derive(Clone, Copy, Debug, PartialEq, Eq)]
pub struct ClaimNote {
    /// The name of the switch that gave the job.
    pub switch: u64,
    /// The number of the claim, counted from 0 on its switch.
    pub claim: u64,
    /// The worker that claimed, below 64.
    pub worker: u32,
    /// The circuit.
    pub circ: CircNo,
    /// The direction whose cipher is carried.
    pub dir: Dir,
    /// The number of the first body, counted from 0 in the direction.
    pub first: u64,
    /// How many bodies are carried.
    pub count: u32,
}
