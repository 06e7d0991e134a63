// Away from the client: the layer comes off.

ghost use Rattle.std.specs.Prelude.{◌≡◌, ℕ, ◌+◌, ◌^◌, ◌<◌, ◌↔◌, [], ◌∷◌, ◌++◌, List, IsTrue, IfSome, IfNone, true, false};
ghost use Rattle.crypto_spec.specs.RunningDigest.{running_digest};
ghost use Rattle.crypto_spec.specs.HopLayer.{OpeningLayer, fresh_opening, is_recognised, opened, after_opening};
ghost use Rattle.run_digest.specs.HashState.{HasAbsorbed};
ghost use Rattle.hop_crypto.specs.OpenerState.{IsOpenerOfLayer, opener_of, place_of};

use aes_ctr::Stream;
use kdf_tor::LayerKeys;
use run_digest::Running;
use std::marker::Model;

/// Takes a relay's layer off the bodies that come from the client's side, and tells which of them
/// are meant for this relay.
///
/// Contracts see the place in the keystream and the state of the running digest. `opener_of` gives
/// them for a layer, that is, for the keys and the bodies recognised so far; they are always those of one.
#[derive(Drop)]
pub struct Opener {
    stream: Stream,
    digest: Running,
}

impl Model for Opener {
    ghost use Rattle.hop_crypto.specs.OpenerState.{OpenerState, IsOpenerOfLayer, place_of};

    ghost Value = { OpenerState };

    ghost view = { λ o. record { stream = place_of o.stream; digest = o.digest } };

    ghost invariant = { λ o. IsOpenerOfLayer (record { stream = place_of o.stream; digest = o.digest }) };
}

impl Opener {
    /// The opener of a hop's forward keys, before the first body.
    pub fn of(keys: &LayerKeys) -> Opener
        ensures { result ≡ opener_of (fresh_opening keys.now.kf keys.now.df) }
    {
        Opener {
            stream: Stream::of(&keys.kf),
            digest: Running::seeded(&keys.df),
        }
    }

    /// Takes the layer off the next body. Where the body is meant for this relay, it goes into the
    /// running digest, and the answer is the digest's 20 bytes; otherwise the digest stays.
    pub fn take_off(&mut self, body: &mut [u8; 509]) -> Option<[u8; 20]>
        requires { self.old.stream.position < 2 ^ 100 }
        ensures opened { (layer : OpeningLayer) → self.old ≡ opener_of layer →
            opened layer body.old ≡ record { body = body.new; recognised = result } }
        ensures state { (layer : OpeningLayer) → self.old ≡ opener_of layer →
            self.new ≡ opener_of (after_opening layer body.old) }
        ensures stream { self.new.stream ≡ record self.old.stream { position = self.old.stream.position + 509 } }
    {
        self.stream.apply(body);
        let (digest, bytes) = recognise(&self.digest, body)?;
        self.digest = digest;
        Some(bytes)
    }

    // The opener with this keystream and this running digest.
    pub(crate) fn of_parts(stream: Stream, digest: Running) -> Opener
        requires { IsOpenerOfLayer (record { stream = place_of stream; digest = digest }) }
        ensures { result ≡ record { stream = place_of stream; digest = digest } }
    {
        Opener { stream, digest }
    }

    // The keystream and the running digest.
    pub(crate) fn apart(self) -> (Stream, Running)
        ensures stream { place_of result.0 ≡ self.stream }
        ensures digest { result.1 ≡ self.digest }
        ensures layer { IsOpenerOfLayer self }
    {
        let Opener { stream, digest } = self;
        (stream, digest)
    }

    /// Whether the two openers agree on every list of bodies that may follow.
    pub fn same(&self, other: &Opener) -> bool
        ensures { IsTrue result ↔ (self.now ≡ other.now) }
    {
        self.stream.same(&other.stream) && self.digest.same(&other.digest)
    }

    /// A second opener in this state.
    pub fn copy(&self) -> Opener
        ensures copy { result ≡ self.now }
        ensures layer { IsOpenerOfLayer self.now }
    {
        Opener {
            stream: self.stream.copy(),
            digest: self.digest.copy(),
        }
    }
}

// The running digest behind `plain` and its 20 bytes, where that body is recognised.
#[tactic(auto, unfolding(crypto_spec::specs::HopLayer::is_recognised))]
fn recognise(running: &Running, plain: &[u8; 509]) -> Option<(Running, [u8; 20])>
    ensures digest { IfSome result (λ r. (seed : List ℕ) (bodies : List (List ℕ)) → HasAbsorbed running.now seed bodies
        → HasAbsorbed r.0 seed (bodies ++ plain.now ∷ [])) }
    ensures bytes { IfSome result (λ r. (seed : List ℕ) (bodies : List (List ℕ)) → HasAbsorbed running.now seed bodies
        → r.1 ≡ running_digest seed (bodies ++ plain.now ∷ [])) }
    ensures some { IfSome result (λ r. (seed : List ℕ) (bodies : List (List ℕ)) → HasAbsorbed running.now seed bodies
        → is_recognised seed bodies plain.now ≡ true) }
    ensures none { IfNone result ((seed : List ℕ) (bodies : List (List ℕ)) → HasAbsorbed running.now seed bodies
        → is_recognised seed bodies plain.now ≡ false) }
{
    if plain[1..3] != [0, 0] {
        return None;
    }
    let next_digest = running.followed_by(plain);
    let bytes = next_digest.digest();
    if plain[5..9] != bytes[..4] {
        return None;
    }
    Some((next_digest, bytes))
}
