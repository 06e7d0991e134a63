//! What is kept of a live circuit for the one-thread relay.
ghost use Rattle.circ_relay.specs.Values.{rules_of};
ghost use Rattle.circuit_model.specs.Events.{CircuitCell};
ghost use Rattle.circuit_model.specs.declared.event.Event.TheVariants.{Born};
ghost use Rattle.std.specs.Prelude.{◌≡◌, [], ◌∷◌};
ghost use Rattle.switch_core.specs.Claiming.{cipher_at};
ghost use Rattle.switch_core.specs.Relays.{RelayStands};

use circ_relay::{Circuit, Rules};
use hop_crypto::{Cipher, Opener, Sealer};
use kdf_tor::LayerKeys;
use tr_io::names::{CircNo, Dir};

/// The one-thread relay's state of a circuit, and the ciphers of its two directions as they are behind
/// the bodies that came home.
#[derive(Drop)]
pub struct Relay {
    /// The relay.
    pub circuit: Circuit,
    /// What takes the layer off the bodies forth.
    pub forth: Cipher,
    /// What puts the layer on the bodies back.
    pub back: Cipher,
}

impl Relay {
    /// The relay of a circuit that was just opened.
    pub fn new(number: CircNo, keys: &LayerKeys, pad: Option<[u8; 16]>, rules: &Rules) -> Relay
        ensures { (reply : CircuitCell) → RelayStands result (rules_of rules.now) (Born reply keys.now pad ∷ []) 0 }
    {
        let circuit = Circuit::new(number, keys, pad, rules);
        let opener = Opener::of(keys);
        let sealer = Sealer::of(keys);
        Relay {
            circuit,
            forth: Cipher::Forth(opener),
            back: Cipher::Back(sealer),
        }
    }

    /// The cipher of a direction.
    pub fn cipher(&self, dir: Dir) -> &Cipher
        ensures { result.now ≡ cipher_at self.now dir }
    {
        match dir {
            Dir::Forth => &self.forth,
            Dir::Back => &self.back,
        }
    }
}
