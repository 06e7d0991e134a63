//! Bytes that one relay cell has room for.

ghost use Rattle.std.specs.Prelude.{◌≡◌, ◌≤◌, IfOk, length};

use std::alloc::{AllocError, Global};
use std::marker::Model;

/// The data of a relay cell. A contract sees its bytes.
#[derive(Drop)]
pub struct Payload {
    bytes: Vec<u8>,
}

impl Model for Payload {
    ghost use Rattle.std.specs.Prelude.{ℕ, ◌≤◌, List, vec_len};

    ghost Value = { List ℕ };

    ghost view = { λ p. p.bytes.items };

    ghost invariant = { λ p. vec_len p.bytes ≤ 498 };
}

impl Payload {
    /// These bytes.
    pub fn of(alloc: Global, bytes: &[u8]) -> Result<Payload, AllocError>
        requires { length bytes.now ≤ 498 }
        ensures { IfOk result (λ payload. payload ≡ bytes.now) }
    {
        Ok(Payload {
            bytes: Vec::from_slice(alloc, bytes)?,
        })
    }

    /// The bytes, in order.
    pub fn as_slice(&self) -> &[u8]
        ensures bytes { result.now ≡ self.now }
        ensures short { length result.now ≤ 498 }
    {
        self.bytes.as_slice()
    }
}
