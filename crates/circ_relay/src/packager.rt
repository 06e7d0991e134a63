// Relay bodies that the relay packages towards the client.

ghost use Rattle.std.specs.Prelude.{◌≡◌, ◌+◌, ◌^◌, ◌<◌, ◌++◌, [], ◌∷◌, Some, IsTrue};
ghost use Rattle.tor_spec.specs.RelayCell.{fits_length};
ghost use Rattle.circuit_model.specs.Log.{Log};
ghost use Rattle.circuit_model.specs.Opened.{born_keys, born_pad};
ghost use Rattle.circuit_model.specs.Packaged.{back_digest, finished, own_bodies};
ghost use Rattle.circ_relay.specs.Packaging.{IsPackager, IsPackagedNext};

use relay_cell::put_digest;
use relay_padding::Padding;
use run_digest::Running;
use std::marker::Model;

/// Gives the relay bodies that a relay packages their padding and their Digests (tor-spec, "Relay
/// cells"): it keeps the backward running digest.
///
/// Contracts see the state of that digest, and of the padding. `IsPackager` ties them to a circuit's
/// log.
#[derive(Drop)]
pub struct Packager {
    digest: Running,
    padding: Padding,
}

impl Model for Packager {
    ghost use Rattle.circ_relay.specs.Packaging.{PackagerState};

    ghost Value = { PackagerState };

    ghost view = { λ p. record { digest = p.digest; padding = p.padding } };
}

impl Packager {
    /// Before the first body, by the seed of the backward digest and the key of the padding.
    pub fn of(seed: &[u8; 20], pad: Option<[u8; 16]>) -> Packager
        ensures packager { (log : Log) → own_bodies log ≡ [] → (born_keys log).db ≡ seed.now → born_pad log ≡ pad →
            IsPackager result log }
        ensures count { result.padding.count ≡ 0 }
    {
        Packager {
            digest: Running::seeded(seed),
            padding: Padding::of(pad),
        }
    }

    /// Gives the next body its padding and its Digest; the 20 bytes of the running digest after it.
    #[tactic(auto, unfolding(circuit_model::specs::Packaged::digested))]
    pub fn package(&mut self, body: &mut [u8; 509]) -> [u8; 20]
        requires count { self.old.padding.count < 2 ^ 63 }
        requires fits { IsTrue (fits_length body.old) }
        ensures body { (log : Log) → IsPackager self.old log → body.new ≡ finished log body.old }
        ensures digest { (log : Log) → IsPackager self.old log → result ≡ back_digest log (own_bodies log ++ body.new ∷ []) }
        ensures next { (log : Log) → IsPackager self.old log → IsPackagedNext self.new log (Some body.new) }
        ensures count { self.new.padding.count ≡ self.old.padding.count + 1 }
    {
        self.padding.put(body);
        self.digest.absorb(body);
        let digest = self.digest.digest();
        let [a, b, c, d, ..] = digest;
        put_digest(body, [a, b, c, d]);
        digest
    }
}
