//! The running digest of relay cells (tor-spec, "Calculating the 'Digest' field"): SHA-1 of a seed
//! and of the bodies that went by, each with its digest field as zero.
//!
//! A relay looks at the digest that a body would give before it knows that the body is for it, and
//! absorbs only those that are. Nothing here takes memory or fails.
#![tactic(auto)]

ghost use Rattle.std.specs.Prelude.{◌≡◌, ℕ, ◌↔◌, [], ◌∷◌, ◌++◌, List, IsTrue};
ghost use Rattle.crypto_spec.specs.RunningDigest.{running_digest};
ghost use Rattle.run_digest.specs.HashState.{HasAbsorbed};

use hasher::Hasher;
use std::marker::Model;

mod compress;
mod hasher;
mod schedule;
#[cfg(test)]
mod tests;

/// A running digest: the hash of its seed and of the bodies that it has absorbed.
///
/// Contracts see it as the SHA-1 state of those bytes, so two of them are equal exactly where no
/// bodies that may follow tell them apart.
#[derive(Drop)]
pub struct Running {
    state: Hasher,
}

impl Model for Running {
    ghost use Rattle.run_digest.specs.HashState.{HashState};
    ghost use Rattle.run_digest.specs.Hasher.{value_of};

    ghost Value = { HashState };

    ghost view = { λ r. value_of r.state };
}

impl Running {
    /// The digest that has only its seed: Df forward, Db backward.
    pub fn seeded(seed: &[u8; 20]) -> Running
        ensures { HasAbsorbed result seed.now [] }
    {
        let mut state = Hasher::new();
        state.update(seed);
        Running { state }
    }

    /// The digest that this one is once `body` has gone by.
    pub fn followed_by(&self, body: &[u8; 509]) -> Running
        ensures { (seed : List ℕ) (bodies : List (List ℕ)) → HasAbsorbed self.now seed bodies →
            HasAbsorbed result seed (bodies ++ body.now ∷ []) }
    {
        let mut state = self.state;
        state.update(&body[..5]);
        state.update(&[0; 4]);
        state.update(&body[9..]);
        Running { state }
    }

    /// The 20 bytes of the digest.
    pub fn digest(&self) -> [u8; 20]
        ensures { (seed : List ℕ) (bodies : List (List ℕ)) → HasAbsorbed self.now seed bodies →
            result ≡ running_digest seed bodies }
    {
        self.state.finish()
    }

    /// The 20 bytes that the digest would have after `body`.
    pub fn look_with(&self, body: &[u8; 509]) -> [u8; 20]
        ensures { (seed : List ℕ) (bodies : List (List ℕ)) → HasAbsorbed self.now seed bodies →
            result ≡ running_digest seed (bodies ++ body.now ∷ []) }
    {
        self.followed_by(body).digest()
    }

    /// Lets `body` go by.
    pub fn absorb(&mut self, body: &[u8; 509])
        ensures { (seed : List ℕ) (bodies : List (List ℕ)) → HasAbsorbed self.old seed bodies →
            HasAbsorbed self.new seed (bodies ++ body.now ∷ []) }
    {
        *self = self.followed_by(body);
    }

    /// Whether the two digests agree on every list of bodies that may follow.
    pub fn same(&self, other: &Running) -> bool
        ensures { IsTrue result ↔ (self.now ≡ other.now) }
    {
        self.state.same(&other.state)
    }

    /// A second digest in this state.
    pub fn copy(&self) -> Running
        ensures { result ≡ self.now }
    {
        Running { state: self.state }
    }
}
