// What pads the bodies of one side.

ghost use Rattle.std.specs.Prelude.{◌≡◌, ◌+◌, ◌^◌, ◌<◌, IsTrue};
ghost use Rattle.tor_spec.specs.RelayCell.{fits_length};
ghost use Rattle.circuit_model.specs.Packaged.{padded_by};

use aes_ctr::Stream;
use relay_cell::put_padding;
use std::marker::Model;

/// Pads the bodies that one side packages, one behind the other (tor-spec, "Relay cells"): where there is a
/// key, by its keystream.
///
/// Contracts see the key and the number of bodies so far.
#[derive(Drop)]
pub struct Padding {
    stream: Option<Stream>,
    count: u64,
}

impl Model for Padding {
    ghost use Rattle.relay_padding.specs.PaddingState.{PaddingState, state_of, IsAtBody};

    ghost Value = { PaddingState };

    ghost view = { λ p. state_of p.stream p.count };

    ghost invariant = { λ p. IsAtBody p.stream p.count };
}

impl Padding {
    /// Before the first body.
    pub fn of(key: Option<[u8; 16]>) -> Padding
        ensures key { result.key ≡ key }
        ensures count { result.count ≡ 0 }
    {
        let stream = match key {
            Some(key) => Some(Stream::of(&key)),
            None => None,
        };
        Padding { stream, count: 0 }
    }

    /// Pads the next body.
    #[tactic(auto, using(circuit_model::proofs::Keystreams::xor_of_zeros))]
    pub fn put(&mut self, body: &mut [u8; 509])
        requires count { self.old.count < 2 ^ 63 }
        requires fits { IsTrue (fits_length body.old) }
        ensures body { body.new ≡ padded_by self.old.key self.old.count body.old }
        ensures key { self.new.key ≡ self.old.key }
        ensures count { self.new.count ≡ self.old.count + 1 }
    {
        if let Some(stream) = &mut self.stream {
            let mut keystream = [0; 509];
            stream.apply(&mut keystream);
            put_padding(body, &keystream);
        }
        self.count += 1;
    }
}
