//! AES-128 (FIPS 197), in the direction of encryption: the key schedule, and the cipher of one block.
//!
//! A `Schedule` is made once for a key and stands for that key in contracts; `encrypt` gives `aes` of
//! the key and a block, the cipher as the crate crypto_spec defines it by the standard. The rounds work
//! on columns as words and look SubBytes and MixColumns up together, in four tables of 256 words. No
//! call takes memory or fails. The look-ups depend on key and block, so the time of a call may too.
#![tactic(auto)]

mod key_schedule;
mod look_up;
mod state;
mod tables;
#[cfg(test)]
mod tests;

pub use key_schedule::Schedule;
