//! AES-128 in counter mode (NIST SP 800-38A, 6.5), as tor-spec uses it for the bodies of relay cells.
//!
//! A `Stream` is one direction's keystream and the place in it. Contracts see its key and the number of
//! the next byte; `apply` xors a body with the `keystream` of the crate crypto_spec from that byte on.
//! No call takes memory or fails.
#![tactic(auto)]

mod pad;
mod stream;
#[cfg(test)]
mod tests;

pub use stream::Stream;
