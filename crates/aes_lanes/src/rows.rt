// Blocks and the lanes that their bytes stand in.

ghost use Rattle.std.specs.Prelude.{◌≡◌, ℕ, ◌<◌, List, [], length, slice_index_or};
ghost use Rattle.aes_lanes.specs.Sliced.{IsRow, IsState};

use crate::planes::Planes;
use std::simd::prelude::*;

/// The bytes of a block in their lanes.
pub fn row(block: &[u8]) -> u8x16
    requires { length block.now ≡ 16 }
    ensures { IsRow result block.now }
{
    u8x16::from_slice(block).swizzle([0, 4, 8, 12, 1, 5, 9, 13, 2, 6, 10, 14, 3, 7, 11, 15])
}

/// The block whose bytes stand in these lanes.
pub fn block(row: u8x16) -> [u8; 16]
    ensures { IsRow row result }
{
    row.swizzle([0, 4, 8, 12, 1, 5, 9, 13, 2, 6, 10, 14, 3, 7, 11, 15])
        .to_array()
}

/// The blocks as planes.
pub fn sliced(blocks: &[[u8; 16]; 8]) -> Planes
    ensures { (b : ℕ) → b < 8 → IsState result b (slice_index_or blocks.now b []) }
{
    Planes {
        bit0: row(&blocks[0]),
        bit1: row(&blocks[1]),
        bit2: row(&blocks[2]),
        bit3: row(&blocks[3]),
        bit4: row(&blocks[4]),
        bit5: row(&blocks[5]),
        bit6: row(&blocks[6]),
        bit7: row(&blocks[7]),
    }
    .transposed()
}

/// The blocks that the planes hold.
#[inline(always)]
pub fn joined(state: Planes) -> [[u8; 16]; 8]
    ensures count { length result ≡ 8 }
    ensures blocks { (b : ℕ) (s : List ℕ) → b < 8 → IsState state b s → slice_index_or result b [] ≡ s }
{
    let rows = state.transposed();
    [
        block(rows.bit0),
        block(rows.bit1),
        block(rows.bit2),
        block(rows.bit3),
        block(rows.bit4),
        block(rows.bit5),
        block(rows.bit6),
        block(rows.bit7),
    ]
}
