// The key schedule (FIPS 197, 5.2) and the cipher (5.1).

ghost use Rattle.std.specs.Prelude.{◌≡◌, ◌+◌, ◌*◌, ◌≤◌, ◌<◌, length};
ghost use Rattle.std.specs.Int.{w32, to_le_bytes};
ghost use Rattle.crypto_spec.specs.Aes.{add, word, word_change, expanded, round_key, aes};

use crate::look_up::{round_constant, sub_byte};
use crate::state::{State, word_at};
use std::marker::Model;

/// An AES-128 key with its round keys. Contracts see the key.
#[derive(Drop)]
pub struct Schedule {
    key: [u8; 16],
    round_keys: [u8; 176],
}

impl Model for Schedule {
    ghost use Rattle.std.specs.Prelude.{◌≡◌, List, ℕ};
    ghost use Rattle.crypto_spec.specs.Aes.{expanded};

    ghost Value = { List ℕ };

    ghost view = { λ s. s.key };

    ghost invariant = { λ s. s.round_keys ≡ expanded s.key 40 };
}

// What word `i` adds to the word four before it, from the word before it. A word's first byte is its least.
fn word_change(i: usize, before: u32) -> u32
    requires after_key { 4 ≤ i }
    requires within { i < 44 }
    ensures { to_le_bytes w32 result ≡ word_change i (to_le_bytes w32 before) }
{
    if i % 4 != 0 {
        return before;
    }
    let [a, b, c, d] = before.to_le_bytes();
    let turned = u32::from_le_bytes([sub_byte(b), sub_byte(c), sub_byte(d), sub_byte(a)]);
    turned ^ u32::from(round_constant(i / 4 - 1))
}

// The word after the first `n + 4` words.
fn next_word(words: &[u8], n: usize) -> u32
    requires room { n < 40 }
    requires words { length words.now ≡ 4 * n + 16 }
    ensures { to_le_bytes w32 result ≡ add (word words.now n) (word_change (n + 4) (word words.now (n + 3))) }
{
    word_at(words, 4 * n) ^ word_change(n + 4, word_at(words, 4 * (n + 3)))
}

impl Schedule {
    ghost use Rattle.aes_block.specs.Columns.{bytes_of};

    /// The schedule of a key.
    pub fn of(key: &[u8; 16]) -> Schedule
        ensures { result ≡ key.now }
    {
        let mut round_keys = [0; 176];
        round_keys[..16].copy_from_slice(key);
        for n in 0..40 {
            let word = next_word(&round_keys[..4 * n + 16], n);
            round_keys[4 * n + 16..4 * n + 20].copy_from_slice(&word.to_le_bytes());
        }
        Schedule {
            key: *key,
            round_keys,
        }
    }

    /// The key.
    pub fn key(&self) -> &[u8; 16]
        ensures { result.now ≡ self.now }
    {
        &self.key
    }

    /// The eleven round keys, one after another.
    pub fn round_keys(&self) -> &[u8; 176]
        ensures { result.now ≡ expanded self.now 40 }
    {
        &self.round_keys
    }

    /// The same schedule once more.
    pub fn copy(&self) -> Schedule
        ensures { result ≡ self.now }
    {
        Schedule {
            key: self.key,
            round_keys: self.round_keys,
        }
    }

    /// The cipher of one block.
    pub fn encrypt(&self, block: &[u8; 16]) -> [u8; 16]
        ensures { result ≡ aes self.now block.now }
    {
        let mut state = State::load(block).add_round_key(self.round_key(0));
        for round in 0..9 {
            state = state.round(self.round_key(round + 1));
        }
        state.last_round(self.round_key(10)).store()
    }

    fn round_key(&self, round: usize) -> State
        requires { round ≤ 10 }
        ensures { bytes_of result ≡ round_key (expanded self.now 40) round }
    {
        State::load(&self.round_keys[16 * round..16 * round + 16])
    }
}
