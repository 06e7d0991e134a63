//! What an event has the relay do.

use crate::cell::CircuitCell;
use crate::payload::Payload;
use crate::places::StreamKey;
use tor_spec::Address;

/// What the edge is to do.
#[derive(Drop)]
pub enum Order {
    /// Make a connection to this address.
    Reach(StreamKey, Address),
    /// Write these bytes to it.
    Carry(StreamKey, Payload),
    /// Close it, with a reason of END.
    Close(StreamKey, u8),
}

/// What an event has the relay do.
#[derive(Drop)]
pub struct Effects {
    /// A relay body towards the client, with its Digest and not yet encrypted: packaged here, or the
    /// next hop's as it came.
    pub back: Option<[u8; 509]>,
    /// A cell on the current leg towards a next hop.
    pub forth: Option<CircuitCell>,
    /// An order for the edge.
    pub edge: Option<Order>,
    /// A next hop to dial.
    pub dial: Option<Address>,
    /// Whether the next hop, or the dialling of one, is given up.
    pub cut: bool,
    /// The circuit is closed, with this reason of DESTROY.
    pub close: Option<u8>,
}

impl Effects {
    ghost use Rattle.std.specs.Prelude.{◌≡◌};
    ghost use Rattle.circuit_model.specs.Log.{no_effects, closing, ordering};

    /// Nothing is done.
    pub fn none() -> Effects
        ensures { result ≡ no_effects }
    {
        Effects {
            back: None,
            forth: None,
            edge: None,
            dial: None,
            cut: false,
            close: None,
        }
    }

    /// The circuit is closed, with this reason of DESTROY.
    pub fn closing(reason: u8) -> Effects
        ensures { result ≡ closing reason }
    {
        Effects {
            close: Some(reason),
            ..Effects::none()
        }
    }

    /// An order for the edge.
    pub fn ordering(order: Order) -> Effects
        ensures { result ≡ ordering order }
    {
        Effects {
            edge: Some(order),
            ..Effects::none()
        }
    }
}
