// One direction's cipher.

ghost use Rattle.std.specs.Prelude.{◌≡◌, ◌+◌, ◌^◌, ◌<◌, ◌↔◌, [], ◌∷◌, IsTrue};
ghost use Rattle.hop_crypto.specs.Ciphers.{position_of, IsOfLayer, IsWorked};

use crate::opener::Opener;
use crate::sealer::Sealer;
use relay_cell::Opened;

/// One direction's cipher: what opens bodies forth, or what seals them back.
#[derive(Drop)]
pub enum Cipher {
    Forth(Opener),
    Back(Sealer),
}

impl Cipher {
    /// A second cipher in this state.
    pub fn copy(&self) -> Cipher
        ensures copy { result ≡ self.now }
        ensures layer { IsOfLayer self.now }
    {
        match self {
            Cipher::Forth(opener) => Cipher::Forth(opener.copy()),
            Cipher::Back(sealer) => Cipher::Back(sealer.copy()),
        }
    }

    /// Whether the two serve one direction, and keystream and running digest agree.
    pub fn same(&self, other: &Cipher) -> bool
        ensures { IsTrue result ↔ (self.now ≡ other.now) }
    {
        match (self, other) {
            (Cipher::Forth(opener), Cipher::Forth(other)) => opener.same(other),
            (Cipher::Back(sealer), Cipher::Back(other)) => sealer.same(other),
            _ => false,
        }
    }

    // What comes out of the next body.
    pub(crate) fn pass(&mut self, body: &[u8; 509]) -> Opened
        requires { position_of self.old < 2 ^ 100 }
        ensures worked { IsWorked self.old (body.now ∷ []) (result ∷ []) self.new }
        ensures position { position_of self.new ≡ position_of self.old + 509 }
    {
        let mut body = *body;
        let recognised = match self {
            Cipher::Forth(opener) => opener.take_off(&mut body),
            Cipher::Back(sealer) => {
                sealer.put_on(&mut body);
                None
            }
        };
        Opened { body, recognised }
    }
}
