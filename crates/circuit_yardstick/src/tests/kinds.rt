//! What may happen in a history, and how often.

/// What happens without closing the circuit.
#[derive(Clone, Copy, PartialEq, Eq, Debug)]
pub enum Kind {
    /// BEGIN of an allowed name, on a StreamID that isn't live.
    Begin,
    /// BEGIN of a name that isn't allowed.
    BeginElsewhere,
    /// BEGIN that isn't spelled right.
    BeginGarbled,
    BeginDirectory,
    /// DATA for a live stream.
    Data,
    DataForNone,
    End,
    EndForNone,
    /// SENDME of a stream that is owed one.
    StreamSendme,
    StreamSendmeForNone,
    /// SENDME of the circuit with the proof that is owed.
    CircuitSendme,
    /// EXTEND2 in RELAY_EARLY where there is no next hop.
    Extend,
    Truncate,
    Resolve,
    /// A command that means nothing from a client.
    OtherCommand,
    Drop,
    /// DROP in RELAY_EARLY.
    EarlyDrop,
    /// A cell for another hop, where there is one.
    PassedOn,
    Backward,
    Linked,
    Answered,
    Connected,
    EdgeData,
    Ended,
    Drained,
    Freed,
}

/// How many kinds there are.
pub const KINDS: usize = 26;

/// How often each kind is tried, and how many places may be taken at once.
#[derive(Clone, Copy)]
pub struct Theme {
    /// Each kind as often as it stands here.
    pub kinds: &'static [Kind],
    pub most_streams: u64,
}

/// All kinds alike.
pub const MIXED: Theme = Theme {
    kinds: &[
        Kind::Begin,
        Kind::BeginElsewhere,
        Kind::BeginGarbled,
        Kind::BeginDirectory,
        Kind::Data,
        Kind::DataForNone,
        Kind::End,
        Kind::EndForNone,
        Kind::StreamSendme,
        Kind::StreamSendmeForNone,
        Kind::CircuitSendme,
        Kind::Extend,
        Kind::Truncate,
        Kind::Resolve,
        Kind::OtherCommand,
        Kind::Drop,
        Kind::EarlyDrop,
        Kind::PassedOn,
        Kind::Backward,
        Kind::Linked,
        Kind::Answered,
        Kind::Connected,
        Kind::EdgeData,
        Kind::Ended,
        Kind::Drained,
        Kind::Freed,
    ],
    most_streams: 40,
};

/// Streams are begun faster than they end, on few StreamIDs.
pub const CROWD: Theme = Theme {
    kinds: &[
        Kind::Begin,
        Kind::Begin,
        Kind::Begin,
        Kind::Begin,
        Kind::Begin,
        Kind::Begin,
        Kind::Connected,
        Kind::Connected,
        Kind::Data,
        Kind::EdgeData,
        Kind::End,
        Kind::Ended,
        Kind::Freed,
        Kind::Freed,
        Kind::Drained,
        Kind::Resolve,
        Kind::DataForNone,
        Kind::StreamSendmeForNone,
    ],
    most_streams: 40,
};

/// The client sends DATA on one stream.
pub const UPLOAD: Theme = Theme {
    kinds: &[
        Kind::Begin,
        Kind::Connected,
        Kind::Data,
        Kind::Data,
        Kind::Data,
        Kind::Data,
        Kind::Data,
        Kind::Data,
        Kind::Drained,
        Kind::Drained,
        Kind::Drained,
        Kind::Drained,
        Kind::Drained,
        Kind::DataForNone,
        Kind::EdgeData,
    ],
    most_streams: 1,
};

/// The edges give bytes on two streams.
pub const DOWNLOAD: Theme = Theme {
    kinds: &[
        Kind::Begin,
        Kind::Connected,
        Kind::EdgeData,
        Kind::EdgeData,
        Kind::EdgeData,
        Kind::EdgeData,
        Kind::EdgeData,
        Kind::EdgeData,
        Kind::EdgeData,
        Kind::EdgeData,
        Kind::StreamSendme,
        Kind::CircuitSendme,
        Kind::Data,
        Kind::Drop,
    ],
    most_streams: 2,
};

/// The circuit is extended, cells pass it both ways, and it is truncated.
pub const PATH: Theme = Theme {
    kinds: &[
        Kind::Extend,
        Kind::Linked,
        Kind::Answered,
        Kind::PassedOn,
        Kind::PassedOn,
        Kind::PassedOn,
        Kind::PassedOn,
        Kind::Backward,
        Kind::Backward,
        Kind::Backward,
        Kind::Truncate,
        Kind::EarlyDrop,
        Kind::Begin,
        Kind::Connected,
        Kind::EdgeData,
        Kind::Data,
    ],
    most_streams: 3,
};

pub const THEMES: [Theme; 5] = [MIXED, CROWD, UPLOAD, DOWNLOAD, PATH];

/// The edges give bytes on one stream, and the client acknowledges none.
pub const ONE_FLOOD: Theme = Theme {
    kinds: &[
        Kind::Begin,
        Kind::Connected,
        Kind::EdgeData,
        Kind::EdgeData,
        Kind::EdgeData,
    ],
    most_streams: 1,
};

/// The edges give bytes on three streams, and the client acknowledges none.
pub const FLOOD: Theme = Theme {
    kinds: &[
        Kind::Begin,
        Kind::Connected,
        Kind::EdgeData,
        Kind::EdgeData,
        Kind::EdgeData,
    ],
    most_streams: 3,
};

/// The client sends DATA on one stream, and the edge takes none.
pub const UNDRAINED: Theme = Theme {
    kinds: &[Kind::Begin, Kind::Data, Kind::Data, Kind::Data],
    most_streams: 1,
};
