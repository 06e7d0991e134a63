// The state of the cipher and what a round does with it (FIPS 197, 5.1).

ghost use Rattle.std.specs.Prelude.{◌≡◌, ◌+◌, ◌≤◌, ◌<◌, [], ◌∷◌, length, take, drop, slice_index};
ghost use Rattle.std.specs.Int.{w32, to_le_bytes};
ghost use Rattle.crypto_spec.specs.Aes.{add, sub_byte, sub_bytes, shift_rows, mix_column, mix_columns};

use crate::look_up::{mix_row_one, mix_row_three, mix_row_two, mix_row_zero, sub_byte};

/// The state, or a round key, by its columns. The least byte of a word is row 0.
#[derive(Clone, Copy)]
pub struct State {
    pub first: u32,
    pub second: u32,
    pub third: u32,
    pub fourth: u32,
}

/// The four bytes from place `i` on as a word, the first in its least byte.
pub fn word_at(bytes: &[u8], i: usize) -> u32
    requires { i + 4 ≤ length bytes.now }
    ensures { to_le_bytes w32 result ≡ take 4 (drop i bytes.now) }
{
    u32::from_le_bytes([bytes[i], bytes[i + 1], bytes[i + 2], bytes[i + 3]])
}

// A column after SubBytes, ShiftRows and MixColumns, with its part of the round key added. ShiftRows
// takes each of its rows from another column: row 0 from `a`, row 1 from `b`, and so on.
fn mixed_column(a: u32, b: u32, c: u32, d: u32, key: u32) -> u32
    ensures { to_le_bytes w32 result ≡ add (mix_column
        (sub_byte (slice_index (to_le_bytes w32 a) 0)) (sub_byte (slice_index (to_le_bytes w32 b) 1))
        (sub_byte (slice_index (to_le_bytes w32 c) 2)) (sub_byte (slice_index (to_le_bytes w32 d) 3)))
        (to_le_bytes w32 key) }
{
    mix_row_zero((a & 0xff) as u8)
        ^ mix_row_one((b >> 8 & 0xff) as u8)
        ^ mix_row_two((c >> 16 & 0xff) as u8)
        ^ mix_row_three((d >> 24) as u8)
        ^ key
}

// The same without MixColumns.
fn last_column(a: u32, b: u32, c: u32, d: u32, key: u32) -> u32
    ensures { to_le_bytes w32 result ≡ add
        (sub_byte (slice_index (to_le_bytes w32 a) 0) ∷ sub_byte (slice_index (to_le_bytes w32 b) 1)
        ∷ sub_byte (slice_index (to_le_bytes w32 c) 2) ∷ sub_byte (slice_index (to_le_bytes w32 d) 3) ∷ [])
        (to_le_bytes w32 key) }
{
    u32::from_le_bytes([
        sub_byte((a & 0xff) as u8),
        sub_byte((b >> 8 & 0xff) as u8),
        sub_byte((c >> 16 & 0xff) as u8),
        sub_byte((d >> 24) as u8),
    ]) ^ key
}

impl State {
    ghost use Rattle.aes_block.specs.Columns.{bytes_of};

    /// The state that holds these bytes, column by column.
    pub fn load(bytes: &[u8]) -> State
        requires { length bytes.now ≡ 16 }
        ensures { bytes_of result ≡ bytes.now }
    {
        State {
            first: word_at(bytes, 0),
            second: word_at(bytes, 4),
            third: word_at(bytes, 8),
            fourth: word_at(bytes, 12),
        }
    }

    /// The bytes of the state, column by column.
    pub fn store(self) -> [u8; 16]
        ensures { result ≡ bytes_of self }
    {
        let mut block = [0; 16];
        block[..4].copy_from_slice(&self.first.to_le_bytes());
        block[4..8].copy_from_slice(&self.second.to_le_bytes());
        block[8..12].copy_from_slice(&self.third.to_le_bytes());
        block[12..].copy_from_slice(&self.fourth.to_le_bytes());
        block
    }

    /// AddRoundKey (5.1.4).
    pub fn add_round_key(self, key: State) -> State
        ensures { bytes_of result ≡ add (bytes_of self) (bytes_of key) }
    {
        State {
            first: self.first ^ key.first,
            second: self.second ^ key.second,
            third: self.third ^ key.third,
            fourth: self.fourth ^ key.fourth,
        }
    }

    /// A round with MixColumns.
    pub fn round(self, key: State) -> State
        ensures { bytes_of result ≡ add (mix_columns (shift_rows (sub_bytes (bytes_of self)))) (bytes_of key) }
    {
        let State {
            first: a,
            second: b,
            third: c,
            fourth: d,
        } = self;
        State {
            first: mixed_column(a, b, c, d, key.first),
            second: mixed_column(b, c, d, a, key.second),
            third: mixed_column(c, d, a, b, key.third),
            fourth: mixed_column(d, a, b, c, key.fourth),
        }
    }

    /// The last round, which has no MixColumns.
    pub fn last_round(self, key: State) -> State
        ensures { bytes_of result ≡ add (shift_rows (sub_bytes (bytes_of self))) (bytes_of key) }
    {
        let State {
            first: a,
            second: b,
            third: c,
            fourth: d,
        } = self;
        State {
            first: last_column(a, b, c, d, key.first),
            second: last_column(b, c, d, a, key.second),
            third: last_column(c, d, a, b, key.third),
            fourth: last_column(d, a, b, c, key.fourth),
        }
    }
}
