//! The next hop of a circuit.

/// What a circuit has of a next hop (tor-spec, "EXTEND and EXTENDED cells").
#[derive(Clone, Copy, Debug, PartialEq, Eq)]
pub enum NextHop {
    /// There is none.
    Absent,
    /// A channel to it is wanted.
    Dialling,
    /// CREATE2 was given to it, and CREATED2 is awaited.
    Waiting,
    /// It is there.
    There,
}
