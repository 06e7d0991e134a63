// What an event has a circuit do.

ghost use Rattle.std.specs.Prelude.{◌≡◌};
ghost use Rattle.circuit_model.specs.Log.{no_effects, closing};
ghost use Rattle.circ_relay.specs.Values.{effects_of};

use tr_io::edges::EdgeOrder;
use tr_io::names::Dest;

/// What an event has a circuit do. Each event has it do at most one thing of a kind.
#[derive(Drop)]
pub struct Effects {
    /// A relay body towards the client, with its Digest and not yet encrypted: packaged here, or the
    /// next hop's as it came.
    pub back: Option<[u8; 509]>,
    /// Command and body of a cell on the current leg towards a next hop.
    pub forth: Option<(u8, [u8; 509])>,
    /// An order to an edge connection.
    pub edge: Option<EdgeOrder>,
    /// A next hop to connect to.
    pub dial: Option<Dest>,
    /// Whether the next hop, or the dialling of one, is given up.
    pub cut: bool,
    /// The circuit is closed, with this reason of DESTROY.
    pub close: Option<u8>,
}

impl Effects {
    /// Nothing is to be done.
    pub fn none() -> Effects
        ensures { effects_of result ≡ no_effects }
    {
        Effects {
            back: None,
            forth: None,
            edge: None,
            dial: None,
            cut: false,
            close: None,
        }
    }

    /// The circuit is closed for this reason.
    pub fn closing(reason: u8) -> Effects
        ensures { effects_of result ≡ closing reason }
    {
        Effects {
            back: None,
            forth: None,
            edge: None,
            dial: None,
            cut: false,
            close: Some(reason),
        }
    }
}
