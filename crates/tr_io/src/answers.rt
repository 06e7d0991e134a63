//! The answers of the switch's calls.
use crate::names::{ChanNo, CircNo, ClaimNote};

/// What came of bringing a channel up.
#[derive(Clone, Copy, Debug, PartialEq, Eq)]
pub enum UpAnswer {
    /// The channel's number.
    Up(ChanNo),
    /// So many channels are live, the most that there may be.
    Full(u32),
    /// Memory is wanting, and nothing changed.
    Memory,
}

/// Why a circuit wasn't opened. The cases are looked at in this order, the CircID 0 before `InUse`
/// and every other bad CircID behind it.
#[derive(Clone, Copy, Debug, PartialEq, Eq)]
pub enum OpenRefusal {
    /// The channel isn't live.
    NoChannel,
    /// The CircID is 0, or its highest bit isn't that of the side that opened the channel.
    BadId,
    /// The CircID is live on the channel, or a DESTROY for it waits to leave.
    InUse,
    /// The handshake was refused.
    BadHandshake,
    /// So many circuits are live, the most that there may be.
    Full(u32),
}

/// What came of opening a circuit.
#[derive(Clone, Copy, Debug, PartialEq, Eq)]
pub enum OpenAnswer {
    /// The circuit's number.
    Opened(CircNo),
    /// It was refused, and why.
    Refused(OpenRefusal),
    /// Memory is wanting, and nothing changed.
    Memory,
}

/// Why a cell was passed over.
#[derive(Clone, Copy, Debug, PartialEq, Eq)]
pub enum Why {
    /// The channel isn't live.
    NoChannel,
    /// The cell is PADDING, VPADDING or PADDING_NEGOTIATE.
    Padding,
    /// The cell is CREATE, CREATE_FAST or CREATE2, which opens a circuit.
    Opening,
    /// The cell belongs to the link's negotiation.
    Link,
    /// The command is none that a relay takes on a circuit.
    Unknown,
    /// The CircID is of no live circuit's previous hop and of no next hop.
    NoCircuit,
}

/// What came of a cell that was taken in.
#[derive(Clone, Copy, Debug, PartialEq, Eq)]
pub enum TakeAnswer {
    /// It waits in its direction, or was acted on.
    Queued,
    /// It was passed over, and why.
    PassedOver(Why),
    /// The circuit was torn down with this reason.
    Down(CircNo, u8),
    /// Memory is wanting, and nothing changed.
    Memory,
}

/// What a worker's claim gave.
pub enum ClaimAnswer<J> {
    /// A job.
    Job(J),
    /// No direction is ready.
    Nothing,
    /// Memory is wanting, and nothing changed.
    Memory,
}

/// Where a job that came back differs from what the switch gave out.
#[derive(Clone, Copy, Debug, PartialEq, Eq)]
pub enum Difference {
    /// The note differs, or none is kept for that direction.
    Note {
        /// What the switch keeps.
        kept: Option<ClaimNote>,
        /// What came back.
        given: ClaimNote,
    },
    /// The start state differs (place 0), or the body at this place, counted from 1.
    Content {
        /// The note of both.
        note: ClaimNote,
        /// The first place that differs.
        place: u32,
    },
}

/// What came of a job's return, of a teardown, or of a channel's end.
#[derive(Clone, Copy, Debug, PartialEq, Eq)]
pub enum BackAnswer {
    /// It was done.
    Settled,
    /// The circuit was torn down with this reason.
    Down(u8),
    /// The circuit or channel is gone already.
    Gone,
    /// The job isn't the one that was given out, and nothing changed.
    Stranger(Difference),
}

/// Which limit keeps a stream's bytes from being packaged.
#[derive(Clone, Copy, Debug, PartialEq, Eq)]
pub enum ShutWhy {
    /// The stream's SENDME window.
    Stream,
    /// The circuit's SENDME window.
    Circuit,
    /// The circuit holds as many cells back as it may.
    Held,
}

/// What came of an event of an edge connection, or of a drained cell.
#[derive(Clone, Copy, Debug, PartialEq, Eq)]
pub enum EdgeAnswer {
    /// A relay cell was packaged.
    Packed,
    /// It was counted, and nothing was packaged.
    Counted,
    /// This limit is reached, at this count.
    Shut(ShutWhy, u64),
    /// The stream isn't live in the right phase.
    Gone,
    /// The circuit was torn down with this reason.
    Down(u8),
    /// Memory is wanting, and nothing changed.
    Memory,
}

/// What came of a dial.
#[derive(Clone, Copy, Debug, PartialEq, Eq)]
pub enum DialAnswer {
    /// The circuit goes on over this channel.
    Up(ChanNo),
    /// The circuit was torn down with this reason.
    Closed(u8),
    /// So many channels are live, the most that there may be; the circuit was torn down.
    Full(u32),
    /// The order isn't out, or its circuit gave it up.
    Gone,
    /// Memory is wanting; the order is handed out again.
    Memory,
}
