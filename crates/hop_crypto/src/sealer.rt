// Towards the client: the layer goes on.

ghost use Rattle.std.specs.Prelude.{◌≡◌, ◌+◌, ◌^◌, ◌<◌, ◌↔◌, IsTrue};
ghost use Rattle.crypto_spec.specs.HopLayer.{layered};
ghost use Rattle.hop_crypto.specs.OpenerState.{place_of};
ghost use Rattle.hop_crypto.specs.SealerState.{IsSealerOfLayer};

use aes_ctr::Stream;
use kdf_tor::LayerKeys;
use std::marker::Model;

/// Puts a relay's layer on the bodies that go towards the client. Those that the relay packages
/// have their digests already.
///
/// Contracts see the place in the keystream, which is always that of a layer: it begins a body.
#[derive(Drop)]
pub struct Sealer {
    stream: Stream,
}

impl Model for Sealer {
    ghost use Rattle.hop_crypto.specs.OpenerState.{StreamPlace, place_of};
    ghost use Rattle.hop_crypto.specs.SealerState.{IsSealerOfLayer};

    ghost Value = { StreamPlace };

    ghost view = { λ s. place_of s.stream };

    ghost invariant = { λ s. IsSealerOfLayer (place_of s.stream) };
}

impl Sealer {
    /// The sealer of a hop's backward cipher key, before the first body.
    pub fn of(keys: &LayerKeys) -> Sealer
        ensures { result ≡ record { key = keys.now.kb; position = 0 } }
    {
        Sealer {
            stream: Stream::of(&keys.kb),
        }
    }

    /// Puts the layer on the next body.
    pub fn put_on(&mut self, body: &mut [u8; 509])
        requires { self.old.position < 2 ^ 100 }
        ensures body { body.new ≡ layered self.old.key self.old.position body.old }
        ensures state { self.new ≡ record self.old { position = self.old.position + 509 } }
    {
        self.stream.apply(body);
    }

    // The sealer with this keystream.
    pub(crate) fn of_stream(stream: Stream) -> Sealer
        requires { IsSealerOfLayer (place_of stream) }
        ensures { result ≡ place_of stream }
    {
        Sealer { stream }
    }

    // The keystream.
    pub(crate) fn stream(self) -> Stream
        ensures stream { place_of result ≡ self }
        ensures layer { IsSealerOfLayer self }
    {
        let Sealer { stream } = self;
        stream
    }

    /// Whether the two sealers agree on every list of bodies that may follow.
    pub fn same(&self, other: &Sealer) -> bool
        ensures { IsTrue result ↔ (self.now ≡ other.now) }
    {
        self.stream.same(&other.stream)
    }

    /// A second sealer in this state.
    pub fn copy(&self) -> Sealer
        ensures copy { result ≡ self.now }
        ensures layer { IsSealerOfLayer self.now }
    {
        Sealer {
            stream: self.stream.copy(),
        }
    }
}
