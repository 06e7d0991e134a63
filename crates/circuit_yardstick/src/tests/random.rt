//! The numbers of a seed.

ghost use Rattle.std.specs.Prelude.{◌<◌, ◌≤◌, length, vec_len, IfOk};

use rand_core::{Rng, SeedableRng};
use rand_xoshiro::SplitMix64;
use std::alloc::{AllocError, Global};

#[derive(Drop)]
pub struct Random {
    words: SplitMix64,
}

impl Random {
    pub fn seeded(seed: u64) -> Random {
        Random {
            words: SplitMix64::seed_from_u64(seed),
        }
    }

    /// A number below `n`.
    pub fn below(&mut self, n: u64) -> u64
        requires { 0 < n }
        ensures { result < n }
    {
        self.words.next_u64() % n
    }

    /// Whether one of `n` equal chances comes.
    pub fn once_in(&mut self, n: u64) -> bool
        requires { 0 < n }
    {
        self.below(n) == 0
    }

    pub fn one_of<T: Copy>(&mut self, choices: &[T]) -> T
        requires { 0 < length choices.now }
    {
        choices[self.below(choices.len() as u64) as usize]
    }

    /// The body of a relay cell, of any bytes.
    pub fn body(&mut self) -> [u8; 509] {
        let mut body = [0; 509];
        self.words.fill_bytes(&mut body);
        body
    }

    pub fn digest(&mut self) -> [u8; 20] {
        let mut bytes = [0; 20];
        self.words.fill_bytes(&mut bytes);
        bytes
    }

    /// At most `most` bytes, often all of them.
    pub fn bytes(&mut self, alloc: Global, most: u64) -> Result<Vec<u8>, AllocError>
        requires { most < 499 }
        ensures { IfOk result (λ bytes. vec_len bytes ≤ most) }
    {
        let n = match self.below(4) {
            0 => most,
            1 => 0,
            _ => self.below(most + 1),
        };
        let mut bytes = Vec::from_slice(alloc, &self.body())?;
        bytes.truncate(n as usize);
        Ok(bytes)
    }
}
