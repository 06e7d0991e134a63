//! AES-128 (FIPS 197) on eight blocks at once, by the bits of their bytes.
//!
//! The blocks are turned into eight planes, one for each bit of a byte. A plane is a vector of 16 lanes,
//! one for each byte of a block, and each of a lane's eight bits belongs to one block. So a step of the
//! cipher is a few operations on whole planes, and nothing is looked up: no address and no branch depends
//! on a key or a block.
//!
//! `encrypt8` gives `aes` (crate crypto_spec) of the key and each block. Who has many blocks makes
//! `LaneKeys` of the key once, and calls theirs.
#![tactic(auto)]

mod counters;
mod encrypt;
mod exchange;
mod keys;
mod mixing;
mod planes;
mod rounds;
mod rows;
mod substitution;
#[cfg(test)]
mod tests;

pub use encrypt::encrypt8;
pub use keys::LaneKeys;
