// Eight counter blocks in a row (NIST SP 800-38A, 6.5), made as planes.

ghost use Rattle.std.specs.Prelude.{◌≡◌, ℕ, ◌+◌, ◌%◌, ◌^◌, ◌<◌, [], slice_index_or, if◌then◌else◌, nat_eq};
ghost use Rattle.std.specs.Int.{bit_at, w128, to_be_bytes};
ghost use Rattle.crypto_spec.specs.Aes.{aes};
ghost use Rattle.aes_lanes.specs.Bits.{IsBit};
ghost use Rattle.aes_lanes.specs.Sliced.{IsRow, IsState};

use crate::keys::LaneKeys;
use crate::planes::Planes;
use crate::rows::joined;
use std::simd::prelude::*;

impl LaneKeys {
    /// The cipher of the eight numbers from `first` on, each in 16 bytes, big-endian.
    pub fn encrypt_numbers(&self, first: u128) -> [[u8; 16]; 8]
        requires eighth { first % 8 ≡ 0 }
        requires room { first < 2 ^ 101 }
        ensures { (k : ℕ) → k < 8 → slice_index_or result k [] ≡ aes self.now (to_be_bytes w128 (first + k)) }
    {
        joined(self.passed(eight_numbers(first)))
    }
}

// Only the three lowest bits of the last byte differ, and they count the block.
fn eight_numbers(first: u128) -> Planes
    requires eighth { first % 8 ≡ 0 }
    requires room { first < 2 ^ 101 }
    ensures { (b : ℕ) → b < 8 → IsState result b (to_be_bytes w128 (first + b)) }
{
    let all = Planes::of_key(number_row(first));
    Planes {
        bit0: all.bit0 ^ last_lane(0xaa),
        bit1: all.bit1 ^ last_lane(0xcc),
        bit2: all.bit2 ^ last_lane(0xf0),
        ..all
    }
}

// The bytes of a number, big-endian, in the lanes of a block.
fn number_row(number: u128) -> u8x16
    ensures { IsRow result (to_be_bytes w128 number) }
{
    u64x2::from_array([(number % (1 << 64)) as u64, (number >> 64) as u64])
        .to_le_bytes()
        .swizzle([15, 11, 7, 3, 14, 10, 6, 2, 13, 9, 5, 1, 12, 8, 4, 0])
}

fn last_lane(bits: u8) -> u8x16
    ensures { (l b : ℕ) → l < 16 → b < 8 → IsBit result l b (if nat_eq l 15 then bit_at bits b else 0) }
{
    u8x16::from_array([0, 0, 0, 0, 0, 0, 0, 0, 0, 0, 0, 0, 0, 0, 0, bits])
}
