// A cipher whose next keystream is made.

ghost use Rattle.std.specs.Prelude.{◌≡◌, ◌^◌, ◌<◌, length};
ghost use Rattle.crypto_spec.specs.Keystream.{keystream_part};
ghost use Rattle.hop_crypto.specs.Ciphers.{key_of, position_of, cipher_of, IsOfLayer};

use crate::cipher::Cipher;
use crate::opener::Opener;
use crate::sealer::Sealer;
use aes_ctr::Stream;
use run_digest::Running;
use std::marker::Model;

/// Which way a cipher's bodies go, and what it keeps beside its keystream.
#[derive(Drop)]
pub enum Direction {
    /// Away from the client: the digest of the bodies recognised so far.
    Forth(Running),
    /// Towards the client.
    Back,
}

/// One direction's cipher with the next 1,024 bytes of its keystream made ahead.
///
/// Contracts see the cipher.
pub struct ReadyCipher {
    stream: Stream,
    direction: Direction,
}

impl Model for ReadyCipher {
    ghost use Rattle.hop_crypto.specs.declared.cipher.Cipher.{Cipher};
    ghost use Rattle.hop_crypto.specs.Ciphers.{cipher_of, IsOfLayer};
    ghost use Rattle.std.specs.Prelude.{◌≡◌};

    ghost Value = { Cipher };

    ghost view = { λ c. cipher_of c.stream c.direction };

    ghost invariant = { λ c. (c.stream.ready ≡ 1024) × IsOfLayer (cipher_of c.stream c.direction) };
}

impl ReadyCipher {
    /// Makes a cipher's next keystream ahead.
    pub fn of(cipher: Cipher) -> ReadyCipher
        requires { position_of cipher < 2 ^ 100 }
        ensures { result ≡ cipher }
    {
        let (mut stream, direction) = parts_of(cipher);
        stream.ahead();
        ReadyCipher { stream, direction }
    }

    /// The keystream that is made ahead.
    pub fn ahead(&self) -> &[u8]
        ensures next { result.now ≡ keystream_part (key_of self.now) (position_of self.now) 1024 }
        ensures long { length result.now ≡ 1024 }
    {
        self.stream.ready()
    }

    /// The cipher.
    pub fn cipher(self) -> Cipher
        ensures { result ≡ self }
    {
        let ReadyCipher { stream, direction } = self;
        match direction {
            Direction::Forth(digest) => Cipher::Forth(Opener::of_parts(stream, digest)),
            Direction::Back => Cipher::Back(Sealer::of_stream(stream)),
        }
    }
}

// The keystream of a cipher, and its direction.
fn parts_of(cipher: Cipher) -> (Stream, Direction)
    ensures parts { cipher_of result.0 result.1 ≡ cipher }
    ensures layer { IsOfLayer cipher }
{
    match cipher {
        Cipher::Forth(opener) => {
            let (stream, digest) = opener.apart();
            (stream, Direction::Forth(digest))
        }
        Cipher::Back(sealer) => (sealer.stream(), Direction::Back),
    }
}
