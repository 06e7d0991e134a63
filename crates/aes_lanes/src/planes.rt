// Eight blocks by the bits of their bytes, and what the cipher does with them.

ghost use Rattle.std.specs.Prelude.{◌≡◌, ℕ, ◌+◌, ◌*◌, ◌/◌, ◌%◌, ◌^◌, ◌<◌, ◌≤◌, length, bit_xor, slice_index, IsTrue};
ghost use Rattle.std.specs.Int.{bit_at};
ghost use Rattle.aes_lanes.specs.Bits.{IsBit, exchanged};

use crate::exchange::{exchange_bits, exchange_halves, exchange_pairs};
use std::simd::prelude::*;

/// One vector for each bit of a byte. A lane has that bit of one byte of each of the eight blocks: lane
/// c + 4r of the byte in row r of column c.
#[derive(Clone, Copy)]
pub struct Planes {
    pub bit0: u8x16,
    pub bit1: u8x16,
    pub bit2: u8x16,
    pub bit3: u8x16,
    pub bit4: u8x16,
    pub bit5: u8x16,
    pub bit6: u8x16,
    pub bit7: u8x16,
}

// All of a lane's bits are set where this bit of the key's byte is.
fn key_plane(key: u8x16, bit: u8) -> u8x16
    ensures { (i b p : ℕ) → i < 16 → b < 8 → p < 8 → bit ≡ 2 ^ p → IsBit result i b (bit_at (slice_index key i) p) }
{
    (key & u8x16::splat(bit))
        .simd_eq(u8x16::splat(bit))
        .select(u8x16::splat(255), u8x16::splat(0))
}

impl Planes {
    ghost use Rattle.aes_lanes.specs.Sliced.{plane, IsByte};

    /// Exchanges what says which bit and what says which plane: the block's number becomes the plane's,
    /// and back.
    pub fn transposed(self) -> Planes
        ensures { (i j k v : ℕ) → i < 16 → j < 8 → k < 8 → IsBit (plane self j) i k v → IsBit (plane result k) i j v }
    {
        self.neighbours_exchanged()
            .pairs_exchanged()
            .halves_exchanged()
    }

    fn neighbours_exchanged(self) -> Planes
        ensures { (i j k v : ℕ) → i < 16 → j < 8 → k < 8 → IsBit (plane self (exchanged 1 j k)) i (exchanged 1 k j) v
            → IsBit (plane result j) i k v }
    {
        let (bit0, bit1) = exchange_bits(self.bit0, self.bit1);
        let (bit2, bit3) = exchange_bits(self.bit2, self.bit3);
        let (bit4, bit5) = exchange_bits(self.bit4, self.bit5);
        let (bit6, bit7) = exchange_bits(self.bit6, self.bit7);
        Planes {
            bit0,
            bit1,
            bit2,
            bit3,
            bit4,
            bit5,
            bit6,
            bit7,
        }
    }

    fn pairs_exchanged(self) -> Planes
        ensures { (i j k v : ℕ) → i < 16 → j < 8 → k < 8 → IsBit (plane self (exchanged 2 j k)) i (exchanged 2 k j) v
            → IsBit (plane result j) i k v }
    {
        let (bit0, bit2) = exchange_pairs(self.bit0, self.bit2);
        let (bit1, bit3) = exchange_pairs(self.bit1, self.bit3);
        let (bit4, bit6) = exchange_pairs(self.bit4, self.bit6);
        let (bit5, bit7) = exchange_pairs(self.bit5, self.bit7);
        Planes {
            bit0,
            bit1,
            bit2,
            bit3,
            bit4,
            bit5,
            bit6,
            bit7,
        }
    }

    fn halves_exchanged(self) -> Planes
        ensures { (i j k v : ℕ) → i < 16 → j < 8 → k < 8 → IsBit (plane self (exchanged 4 j k)) i (exchanged 4 k j) v
            → IsBit (plane result j) i k v }
    {
        let (bit0, bit4) = exchange_halves(self.bit0, self.bit4);
        let (bit1, bit5) = exchange_halves(self.bit1, self.bit5);
        let (bit2, bit6) = exchange_halves(self.bit2, self.bit6);
        let (bit3, bit7) = exchange_halves(self.bit3, self.bit7);
        Planes {
            bit0,
            bit1,
            bit2,
            bit3,
            bit4,
            bit5,
            bit6,
            bit7,
        }
    }

    /// The planes of a round key, the same for each block.
    pub fn of_key(key: u8x16) -> Planes
        ensures { (i b : ℕ) → i < 16 → b < 8 → IsByte result i b (slice_index key i) }
    {
        Planes {
            bit0: key_plane(key, 1),
            bit1: key_plane(key, 2),
            bit2: key_plane(key, 4),
            bit3: key_plane(key, 8),
            bit4: key_plane(key, 16),
            bit5: key_plane(key, 32),
            bit6: key_plane(key, 64),
            bit7: key_plane(key, 128),
        }
    }

    /// The sum of each two bytes in GF(2^8) (FIPS 197, 4.1).
    pub fn plus(self, other: Planes) -> Planes
        ensures { (i b v w : ℕ) → IsByte self i b v → IsByte other i b w → IsByte result i b (bit_xor v w) }
    {
        Planes {
            bit0: self.bit0 ^ other.bit0,
            bit1: self.bit1 ^ other.bit1,
            bit2: self.bit2 ^ other.bit2,
            bit3: self.bit3 ^ other.bit3,
            bit4: self.bit4 ^ other.bit4,
            bit5: self.bit5 ^ other.bit5,
            bit6: self.bit6 ^ other.bit6,
            bit7: self.bit7 ^ other.bit7,
        }
    }
}
