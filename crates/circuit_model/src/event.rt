//! What can happen to one circuit.

use crate::cell::CircuitCell;
use crate::payload::Payload;
use kdf_tor::LayerKeys;

/// What can happen to one circuit of a relay. Places are named by their serial: the accepted BEGIN with
/// number 0 of the circuit makes place 0, the next one place 1, and so on.
#[derive(Drop)]
pub enum Event {
    /// The circuit is opened: the cell that answers the opening, the keys, and the key that makes the
    /// padding of this relay's bodies, if there is one. It is always the first event.
    Born(CircuitCell, LayerKeys, Option<[u8; 16]>),
    /// A RELAY or RELAY_EARLY cell from the client's side: its command and its body as it came.
    Forward(u8, [u8; 509]),
    /// The body of a RELAY cell from the next hop.
    Backward([u8; 509]),
    /// The place's connection is made.
    Connected(usize),
    /// The place's connection gave bytes.
    Data(usize, Payload),
    /// The place's connection ended, with the reason that its END is to carry.
    Ended(usize, u8),
    /// The place's connection has taken all bytes of one more DATA.
    Drained(usize),
    /// The place is given back, after its Close was handed out.
    Freed(usize),
    /// A channel to the next hop is there, and a new leg on it.
    Linked,
    /// The next hop answered with this payload of CREATED2.
    Answered([u8; 509]),
    /// No channel to the next hop could be had.
    Failed,
}
