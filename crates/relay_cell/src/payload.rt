//! A payload that is being written.

ghost use Rattle.std.specs.Prelude.{◌≡◌, ◌≤◌, ◌+◌, ◌<◌, ◌++◌, [], length};

use std::marker::Model;

/// The bytes that a body has room for behind its head.
const ROOM: usize = 498;

/// A payload of up to 498 bytes; contracts see the bytes written so far.
#[derive(Drop)]
pub(crate) struct Payload {
    bytes: [u8; 498],
    len: usize,
}

impl Model for Payload {
    ghost use Rattle.std.specs.Prelude.{ℕ, List, take, ◌≤◌};

    ghost Value = { List ℕ };

    ghost view = { λ p. take p.len p.bytes };

    ghost invariant = { λ p. p.len ≤ 498 };
}

impl Payload {
    ghost use Rattle.tor_spec.specs.Decimal.{decimal_digits};

    pub(crate) fn new() -> Payload
        ensures { result ≡ [] }
    {
        Payload {
            bytes: [0; ROOM],
            len: 0,
        }
    }

    /// Puts the bytes behind those written so far.
    pub(crate) fn put(&mut self, bytes: &[u8])
        requires { length self.old + length bytes.now ≤ 498 }
        ensures { self.new ≡ self.old ++ bytes.now }
    {
        let end = self.len + bytes.len();
        self.bytes[self.len..end].copy_from_slice(bytes);
        self.len = end;
    }

    /// Puts a number's decimal digits, without leading zeros.
    pub(crate) fn put_decimal(&mut self, n: u16)
        requires { length self.old + length (decimal_digits n) ≤ 498 }
        ensures { self.new ≡ self.old ++ decimal_digits n }
    {
        if n >= 10 {
            self.put_decimal(n / 10);
        }
        self.put(&[b'0' + (n % 10) as u8]);
    }

    pub(crate) fn as_slice(&self) -> &[u8]
        ensures { result.now ≡ self.now }
    {
        &self.bytes[..self.len]
    }
}
