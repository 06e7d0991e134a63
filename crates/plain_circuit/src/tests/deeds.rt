//! What an event had the relay do, as far as the examples look at it.

use crate::log::Entry;
use circuit_model::{Effects, Order};

/// The kind of an order for the edge.
#[derive(Clone, Copy, PartialEq, Eq, Debug)]
pub enum EdgeDeed {
    Reach,
    Carry,
    Close,
}

#[derive(Clone, Copy, PartialEq, Eq, Debug)]
pub struct Deeds {
    /// Relay command and first byte of data of the body that goes back.
    pub back: Option<(u8, u8)>,
    /// The command of the cell that goes on to the next hop.
    pub forth: Option<u8>,
    pub edge: Option<EdgeDeed>,
    /// The port of the next hop that is dialled.
    pub dial: Option<u16>,
    /// The reason with which the circuit is closed.
    pub close: Option<u8>,
}

pub const NOTHING: Deeds = Deeds {
    back: None,
    forth: None,
    edge: None,
    dial: None,
    close: None,
};

/// The circuit is closed with PROTOCOL.
pub const CLOSES: Deeds = Deeds {
    close: Some(1),
    ..NOTHING
};

pub fn answers(command: u8, first: u8) -> Deeds {
    Deeds {
        back: Some((command, first)),
        ..NOTHING
    }
}

pub fn passes(command: u8) -> Deeds {
    Deeds {
        forth: Some(command),
        ..NOTHING
    }
}

pub fn orders(edge: EdgeDeed) -> Deeds {
    Deeds {
        edge: Some(edge),
        ..NOTHING
    }
}

pub fn dials(port: u16) -> Deeds {
    Deeds {
        dial: Some(port),
        ..NOTHING
    }
}

fn edge_deed(order: &Order) -> EdgeDeed {
    match order {
        Order::Reach(_, _) => EdgeDeed::Reach,
        Order::Carry(_, _) => EdgeDeed::Carry,
        Order::Close(_, _) => EdgeDeed::Close,
    }
}

pub fn deeds_of(effects: &Effects) -> Deeds {
    Deeds {
        back: effects.back.map(|body| (body[0], body[11])),
        forth: effects.forth.map(|cell| cell.command),
        edge: effects.edge.as_ref().map(edge_deed),
        dial: effects.dial.map(|to| to.port),
        close: effects.close,
    }
}

/// What the newest entry had the relay do.
pub fn last_deeds(log: &[Entry<'_>]) -> Option<Deeds> {
    let entry = log.last()?;
    Some(deeds_of(&entry.effects))
}
