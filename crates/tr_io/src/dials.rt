//! Orders to connect to a next hop.
use crate::names::{ChanNo, CircNo, Dest};

/// An order to extend a circuit to a destination. It must be spent, by reporting what came of it.
pub struct DialOrder {
    /// The number of the order, counted from 0 on its switch.
    pub order: u64,
    /// The circuit to extend.
    pub circ: CircNo,
    /// The next hop.
    pub to: Dest,
    /// A live channel to the same destination, where there is one.
    pub over: Option<ChanNo>,
}

/// What a history keeps of a `DialOrder`.
#[derive(Clone, Copy, Debug, PartialEq, Eq)]
pub struct DialStep {
    /// The number of the order.
    pub order: u64,
    /// The circuit to extend.
    pub circ: CircNo,
    /// The next hop.
    pub to: Dest,
    /// A live channel to the same destination, where there is one.
    pub over: Option<ChanNo>,
}

/// What came of an order.
#[derive(Clone, Copy, Debug, PartialEq, Eq)]
pub enum DialOutcome {
    /// A new connection stands at this slot.
    Opened(u32),
    /// This channel carries the circuit on.
    Over(ChanNo),
    /// There is no connection.
    Failed,
}
