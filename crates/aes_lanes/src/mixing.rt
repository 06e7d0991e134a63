// ShiftRows and MixColumns on planes (FIPS 197, 5.1.2 and 5.1.3). A row of the state is four lanes side by side.

ghost use Rattle.std.specs.Prelude.{ℕ, ◌<◌, bit_xor};
ghost use Rattle.crypto_spec.specs.Aes.{times};
ghost use Rattle.aes_lanes.specs.Bits.{IsBit};
ghost use Rattle.aes_lanes.specs.Places.{shifted_lane, next_row, second_row};

use crate::planes::Planes;
use std::simd::prelude::*;

fn shifted(x: u8x16) -> u8x16
    ensures { (l b v : ℕ) → l < 16 → IsBit x (shifted_lane l) b v → IsBit result l b v }
{
    x.swizzle([0, 1, 2, 3, 5, 6, 7, 4, 10, 11, 8, 9, 15, 12, 13, 14])
}

fn turned_once(x: u8x16) -> u8x16
    ensures { (l b v : ℕ) → l < 16 → IsBit x (next_row l) b v → IsBit result l b v }
{
    x.swizzle([4, 5, 6, 7, 8, 9, 10, 11, 12, 13, 14, 15, 0, 1, 2, 3])
}

fn turned_twice(x: u8x16) -> u8x16
    ensures { (l b v : ℕ) → l < 16 → IsBit x (second_row l) b v → IsBit result l b v }
{
    x.swizzle([8, 9, 10, 11, 12, 13, 14, 15, 0, 1, 2, 3, 4, 5, 6, 7])
}

impl Planes {
    ghost use Rattle.aes_lanes.specs.Sliced.{IsByte};

    /// ShiftRows (5.1.2).
    pub fn rows_shifted(self) -> Planes
        ensures { (l b v : ℕ) → l < 16 → IsByte self (shifted_lane l) b v → IsByte result l b v }
    {
        Planes {
            bit0: shifted(self.bit0),
            bit1: shifted(self.bit1),
            bit2: shifted(self.bit2),
            bit3: shifted(self.bit3),
            bit4: shifted(self.bit4),
            bit5: shifted(self.bit5),
            bit6: shifted(self.bit6),
            bit7: shifted(self.bit7),
        }
    }

    /// MixColumns. Row r of a column gets twice the sum of itself and the next row, and the sum of the
    /// other three.
    pub fn columns_mixed(self) -> Planes
        ensures { (l b x y z w : ℕ) → l < 16 → x < 256 → y < 256 → IsByte self l b x → IsByte self (next_row l) b y
            → IsByte self (second_row l) b z → IsByte self (next_row (second_row l)) b w
            → IsByte result l b (bit_xor (bit_xor (times 2 (bit_xor x y)) y) (bit_xor z w)) }
    {
        let next = self.columns_turned_once();
        let pair = self.plus(next);
        pair.doubled().plus(next).plus(pair.columns_turned_twice())
    }

    /// Twice each byte in GF(2^8).
    fn doubled(self) -> Planes
        ensures { (i b v : ℕ) → v < 256 → IsByte self i b v → IsByte result i b (times 2 v) }
    {
        Planes {
            bit0: self.bit7,
            bit1: self.bit0 ^ self.bit7,
            bit2: self.bit1,
            bit3: self.bit2 ^ self.bit7,
            bit4: self.bit3 ^ self.bit7,
            bit5: self.bit4,
            bit6: self.bit5,
            bit7: self.bit6,
        }
    }

    fn columns_turned_once(self) -> Planes
        ensures { (l b v : ℕ) → l < 16 → IsByte self (next_row l) b v → IsByte result l b v }
    {
        Planes {
            bit0: turned_once(self.bit0),
            bit1: turned_once(self.bit1),
            bit2: turned_once(self.bit2),
            bit3: turned_once(self.bit3),
            bit4: turned_once(self.bit4),
            bit5: turned_once(self.bit5),
            bit6: turned_once(self.bit6),
            bit7: turned_once(self.bit7),
        }
    }

    fn columns_turned_twice(self) -> Planes
        ensures { (l b v : ℕ) → l < 16 → IsByte self (second_row l) b v → IsByte result l b v }
    {
        Planes {
            bit0: turned_twice(self.bit0),
            bit1: turned_twice(self.bit1),
            bit2: turned_twice(self.bit2),
            bit3: turned_twice(self.bit3),
            bit4: turned_twice(self.bit4),
            bit5: turned_twice(self.bit5),
            bit6: turned_twice(self.bit6),
            bit7: turned_twice(self.bit7),
        }
    }
}
