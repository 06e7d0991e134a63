// One hop of a path.

ghost use Rattle.std.specs.Prelude.{◌≡◌};
ghost use Rattle.onion_client.specs.LayerState.{fresh_hop};
ghost use Rattle.onion_client.specs.Hops.{hop_of};

use crate::layer::Layer;
use hop_crypto::Opener;
use kdf_tor::LayerKeys;

/// Both directions of one hop at the client.
#[derive(Drop)]
pub struct Hop {
    /// Away from the client.
    pub(crate) forth: Layer,
    /// Towards the client.
    pub(crate) back: Opener,
}

impl Hop {
    /// A hop with these keys, before the first body.
    pub(crate) fn of(keys: &LayerKeys) -> Hop
        ensures { result ≡ hop_of (fresh_hop keys.now) }
    {
        // An opener takes the keys of the direction that it serves.
        let back = LayerKeys {
            df: keys.db,
            db: keys.df,
            kf: keys.kb,
            kb: keys.kf,
        };
        Hop {
            forth: Layer::of(keys),
            back: Opener::of(&back),
        }
    }
}
