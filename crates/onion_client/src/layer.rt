// Away from the client: a hop's layer goes on.

ghost use Rattle.std.specs.Prelude.{◌≡◌, ℕ, ◌+◌, ◌^◌, ◌<◌, [], ◌∷◌, ◌++◌};
ghost use Rattle.crypto_spec.specs.HopLayer.{layered};
ghost use Rattle.crypto_spec.specs.RunningDigest.{running_digest};
ghost use Rattle.circuit_model.specs.PathLayers.{PathHop, digested_for, sealed_for};
ghost use Rattle.onion_client.specs.LayerState.{fresh_hop, sealing_of, with_meant, with_sent};

use aes_ctr::Stream;
use kdf_tor::LayerKeys;
use relay_cell::put_digest;
use run_digest::Running;
use std::marker::Model;

/// Puts one hop's layer on the bodies that leave the client for it (tor-spec, "Routing relay cells").
///
/// Contracts see the place in the keystream and the state of the running digest; `sealing_of` gives them for
/// a hop of a path.
#[derive(Drop)]
pub struct Layer {
    stream: Stream,
    digest: Running,
}

impl Model for Layer {
    ghost use Rattle.hop_crypto.specs.OpenerState.{OpenerState, place_of};

    ghost Value = { OpenerState };

    ghost view = { λ l. record { stream = place_of l.stream; digest = l.digest } };
}

impl Layer {
    /// The layer of a hop with these keys, before the first body.
    pub fn of(keys: &LayerKeys) -> Layer
        ensures { result ≡ sealing_of (fresh_hop keys.now) }
    {
        Layer {
            stream: Stream::of(&keys.kf),
            digest: Running::seeded(&keys.df),
        }
    }

    /// Seals the next body for this hop, where no hop stands before it: the body gets its Digest, and then
    /// the layer goes on.
    pub fn seal(&mut self, body: &mut [u8; 509])
        requires { self.old.stream.position < 2 ^ 100 }
        ensures body { (hop : PathHop) → self.old ≡ sealing_of hop → body.new ≡ sealed_for [] hop body.old }
        ensures state { (hop : PathHop) → self.old ≡ sealing_of hop
            → self.new ≡ sealing_of (with_sent (with_meant hop (digested_for hop body.old))) }
    {
        let _digest = self.give_digest(body);
        self.put_on(body);
    }

    // Gives a body that is meant for this hop its Digest; the 20 bytes of the running digest with it.
    pub(crate) fn give_digest(&mut self, body: &mut [u8; 509]) -> [u8; 20]
        ensures body { (hop : PathHop) → self.old ≡ sealing_of hop → body.new ≡ digested_for hop body.old }
        ensures digest { (hop : PathHop) → self.old ≡ sealing_of hop
            → result ≡ running_digest hop.keys.df (hop.meant_bodies ++ body.new ∷ []) }
        ensures state { (hop : PathHop) → self.old ≡ sealing_of hop → self.new ≡ sealing_of (with_meant hop body.new) }
        ensures stream { self.new.stream ≡ self.old.stream }
    {
        self.digest.absorb(body);
        let digest = self.digest.digest();
        let [a, b, c, d, ..] = digest;
        put_digest(body, [a, b, c, d]);
        digest
    }

    // Puts the layer on the next body.
    pub(crate) fn put_on(&mut self, body: &mut [u8; 509])
        requires { self.old.stream.position < 2 ^ 100 }
        ensures body { body.new ≡ layered self.old.stream.key self.old.stream.position body.old }
        ensures state { self.new ≡ record self.old { stream = record self.old.stream { position = self.old.stream.position + 509 } } }
    {
        self.stream.apply(body);
    }
}
